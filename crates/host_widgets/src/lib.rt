//! The host's side of a device: the record of what should be there, what each call answers, the messages that bring a
//! device up, the view that its firmware is then expected to show, `load` and `unload` over any device, and
//! what a failed link leaves.
#![tactic(auto)]

mod answers;
mod bringing_up;
mod controls;
mod going_down;
mod host_call;
mod kept;
mod laws;
mod lists;
mod loading;
mod messages;
mod naming;
mod need_laws;
mod parts;
mod passing;
mod putting;
mod sending;
mod trigger;
mod unloading;

pub use answers::{Answer, HostFault};
pub use bringing_up::bring_up;
pub use controls::{first_values, same_numbers, set_message};
pub use going_down::link_down;
pub use host_call::HostCall;
pub use kept::{ControlRec, Found, Power, Record, StreamRec};
pub use laws::walk_rows;
pub use lists::{all_indices, all_widgets, has, make, widget_index};
pub use loading::load;
pub use messages::direction;
pub use naming::is_named;
pub use need_laws::need_law;
pub use parts::{part_count, send_parts};
pub use passing::{is_down, transact, transact_no_reply};
pub use putting::put_control;
pub use sending::send;
pub use trigger::Trigger;
pub use unloading::{forget, unload};
