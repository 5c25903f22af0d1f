//! The form `replay`: the records of a trace, given to a device one after another.
#![tactic(auto)]

mod replay;
mod replay_fault;

pub use replay::{do_replay, record_at_fault};
