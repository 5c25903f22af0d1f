//! Tells whether two plans are the same but for what no source carries.
#![tactic(auto)]

mod comparing;
mod laws;
mod limits;
mod same_items;

pub use comparing::same_plans;
pub use laws::plans_are_told_apart;
pub use limits::{limits_in, same_limits};
