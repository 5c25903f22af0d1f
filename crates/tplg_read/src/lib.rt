//! Reads topology files, after the ALSA topology structures (ABI 5): a file is read exactly where it is one, and else the first
//! fault in file order is named with its place.
#![tactic(auto)]

mod blocks;
mod controls;
mod fields;
mod file;
mod items;
mod laws;
mod pcms;
mod records;
mod widgets;

pub use file::read;
pub use laws::files_are_spelled;
pub use tplg_model::TplgFault;
