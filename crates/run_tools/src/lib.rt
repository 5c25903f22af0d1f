//! The forms that need no device: `check`, `graph`, `compile`, `source` and `decode`.
#![tactic(auto)]

mod check;
mod compile;
mod decode;
mod graph;
mod source;
mod source_lines;

pub use check::do_check;
pub use compile::do_compile;
pub use decode::do_decode;
pub use graph::do_graph;
pub use source::do_source;
