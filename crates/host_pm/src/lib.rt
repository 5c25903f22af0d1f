//! The host's calls on the power: a suspend stops what moves and cuts the device, and a resume brings the device back to what
//! the record says.
#![tactic(auto)]

mod laws;
mod resuming;
mod suspending;
mod telling;

pub use laws::incremental_equals_from_scratch;
pub use resuming::{prepare_all, resume};
pub use suspending::suspend;
