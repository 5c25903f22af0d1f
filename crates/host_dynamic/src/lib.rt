//! Pipelines that are made when a stream is first opened, and unmade after the last stream that needs them is closed.
#![tactic(auto)]

mod ids;
mod laws;
mod lists;
mod making;
mod needing;
mod opening;
mod powering;

pub use laws::{need_law, part_law};
pub use lists::{make, unmake};
pub use making::{is_control_up, joins_at, unmade_order, widgets_at};
pub use needing::need_of;
pub use opening::{close, open};
pub use powering::{load, resume, unload};
