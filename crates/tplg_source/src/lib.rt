//! Writes the source of a topology, in TOML: a text that compiles to a topology of the same plan.
#![tactic(auto)]

mod carried_controls;
mod carried_pcms;
mod carried_tokens;
mod carried_widgets;
mod carrying;
mod key_lines;
mod laws;
mod names;
mod no_source;
mod sourcing;
mod text_values;
mod texts;

pub use laws::words_name_kinds;
pub use no_source::NoSource;
pub use sourcing::source;
