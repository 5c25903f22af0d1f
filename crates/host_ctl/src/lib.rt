//! The host's calls on live controls: each looks its control up by name, makes its tests before any message, and keeps the
//! record after the reply. A failed link cuts the device.
#![tactic(auto)]

mod asking;
mod carrying;
mod commands;

pub use commands::{get, keep_bytes, keep_values, read, set, set_bytes};
