//! What every run does with a desk: it loads and judges files, says lines and counts, and ends with a status.
#![tactic(auto)]

mod bindings;
mod counts;
mod ending;
mod files;
mod lines;
mod preparing;

pub use bindings::slot_of;
pub use counts::say_count;
pub use ending::{Ended, fail_no_memory};
pub use files::{LIMIT, TRACE_LIMIT, fetch, status_of, stop, stop_for};
pub use lines::write_rule;
pub use preparing::{Halt, Ready, prepare, ruled_plan, topology_in};
