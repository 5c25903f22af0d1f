//! The host's calls on streams: each looks its stream up by name, makes its tests before any message, sends its messages one
//! after the other, and keeps the record after each that passed. A failed link cuts the device.
#![tactic(auto)]

mod asking;
mod carrying;
mod commands;
mod ranges;

pub use asking::{Ask, tested};
pub use carrying::{close as close_at, open as open_at};
pub use commands::{ask, close, open, params, pause, release, start, stop};
