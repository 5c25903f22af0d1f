//! The outside of a program: files that it loads or reads, files that it creates and appends to, and lines that it says. One
//! trait says what each call does, and a desk in memory keeps it, which tells all and fails by plan.
#![tactic(auto)]

mod calls;
mod faults;
mod file;
mod laws;
mod mem;
mod open_slot;
mod plan;
mod store;

pub use calls::{Desk, DeskFailed, FileUse, LoadFault, SLOTS};
pub use faults::Faults;
pub use laws::told_apart;
pub use mem::MemDesk;
