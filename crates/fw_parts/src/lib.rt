//! The parts in which an equaliser's blob comes and goes, after the binary controls of the firmware's IPC3: all but the last carry 260
//! bytes after the header of 32. Parts that come are staged in the equaliser's piece, and the last one puts the blob in force.
#![tactic(auto)]

mod cutting;
mod staging;

pub use cutting::{part_in, parts_in};
pub use staging::{joined, put};
