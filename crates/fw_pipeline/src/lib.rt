//! Joins, pipelines and streams over the firmware's registry: one function for each row of messages that changes them.
#![tactic(auto)]

mod agreeing;
mod completing;
mod connecting;
mod freeing;
mod one_join;
mod phases;
mod preparing;
mod settling;
mod staying;
mod triggering;

pub use agreeing::{Given, shape, suits_all, suits_one};
pub use completing::complete;
pub use connecting::{connect, leads_in, leads_out, takes_join};
pub use freeing::{Item, free_item, index_at, is_complete};
pub use fw_walks::{active, live};
pub use one_join::closes;
pub use phases::{Trigger, leaves};
pub use preparing::{captures_at, goes_at, is_buffer_ready, is_comp_ready, params};
pub use staying::may_stay;
pub use triggering::trigger;
