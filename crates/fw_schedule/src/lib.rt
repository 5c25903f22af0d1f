//! A tick over the registry: each Active component whose pipeline runs moves its frames once, in order.
#![tactic(auto)]

mod endpoints;
mod ends;
mod ordering;
mod schedules;
mod scratch;
mod steps;
mod ticking;
mod units;

pub use schedules::Schedule;
pub use scratch::Scratch;
pub use ticking::{tick, tick_by};
