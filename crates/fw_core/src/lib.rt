//! The firmware as a device: off, or on with its registry and its heap; what it answers to each message, and its ticks. All that it
//! will ever need is reserved when it is made.
#![tactic(auto)]

mod data_rows;
mod dsp;
mod firmware;
mod free_rows;
mod join_rows;
mod messages;
mod new_rows;
mod stream_rows;
mod units;
mod value_rows;

pub use firmware::Firmware;
