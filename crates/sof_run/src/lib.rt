//! The top call: from the words of a command line to a whole run over a desk and a device. It finds what the words ask for, has that
//! carried out, and ends with a status.
#![tactic(auto)]

mod laws;
mod stress;
mod top;

pub use laws::{one_play, one_view, replays_end, right_traces};
pub use run_desk::Ended;
pub use run_replay::record_at_fault;
pub use top::run;
