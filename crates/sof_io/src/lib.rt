//! The bytes of the endpoints: inputs that are filled and taken from, each at its own position, and outputs that are put into, each in memory that was reserved for it. An endpoint's slot is its component's id.
#![tactic(auto)]

mod input;
mod inputs;
mod output;
mod outputs;
mod round;
mod samples;

pub use inputs::Inputs;
pub use outputs::Outputs;
