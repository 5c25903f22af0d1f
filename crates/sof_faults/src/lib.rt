//! Says in words what is wrong with a command line, a topology, a script or a source: what, where, and by name.
//!
//! A sentence has no newline. Names stand in it as they are, but for what a terminal would not show, which stands as `\xNN`.
#![tactic(auto)]

mod rule_fault;
mod script_fault;
mod shown;
mod source_fault;
mod topology_fault;
mod usage;
mod words;

pub use script_fault::{binding_sentence, script_sentence};
pub use shown::{Shown, ShownName};
pub use source_fault::source_sentence;
pub use topology_fault::{no_source_sentence, topology_in, topology_sentence};
pub use words::{WordsFault, words_fault};
