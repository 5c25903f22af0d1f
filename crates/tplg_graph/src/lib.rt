//! A topology read as a graph: the lists of pipelines, streams, live controls, names and words beside its components and buffers,
//! and the plan that the host and the program follow.
#![tactic(auto)]

mod control_lists;
mod plan_lists;
mod planning;

pub use planning::plan;
pub use tplg_plan::{ControlKind, ControlPlan, Plan, StreamPlan, WidgetPlan, gain, need};
pub use tplg_rules::PlanFault;
