//! A stress: a topology, commands and inputs that are drawn from a number alone, carried out over a device, and what came of
//! them in five numbers.
#![tactic(auto)]

mod carry;
mod commands;
mod counts;
mod graph;
mod names;
mod ports;
mod running;

pub use counts::Counts;
pub use running::{Stressed, stress};
