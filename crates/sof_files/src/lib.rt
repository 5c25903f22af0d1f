//! The outside of a program over the files and the standard output of a machine: the desk that tells no content, and why a call on
//! it failed.
#![tactic(auto)]

mod aside;
mod file_use;
mod in_file;
mod opening;
mod os;
mod out_file;
mod sink;
mod standard;
mod transfer;
mod trouble;
mod troubles;

pub use file_use::FileId;
pub use os::OsDesk;
pub use sink::Sink;
pub use standard::{Standard, Stream, goes_to};
pub use trouble::{Subject, Trouble};
