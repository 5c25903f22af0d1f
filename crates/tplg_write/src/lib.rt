//! The writer of topology files, after the ALSA topology structures (ABI 5): each topology is written as it is spelled, after
//! the bytes that are there.
#![tactic(auto)]

mod blocks;
mod controls;
mod file;
mod items;
mod laws;
mod records;
mod sink;
mod widgets;

pub use file::write;
pub use laws::what_is_read_can_be_written;
