//! A device that somebody's own firmware is compared with: a far reply that differs is a failed link.
#![tactic(auto)]

mod answer;
mod far;
mod laws;
mod talk;

pub use answer::{FarAnswer, FarFault};
pub use far::Far;
pub use laws::{agreed_calls, traced_calls};
