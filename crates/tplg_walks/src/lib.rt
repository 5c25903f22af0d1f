//! Walks along the edges of a graph, and the first components at which rule 14 fails: on a cycle, or on a way from a playback into
//! a capture without an echo edge. Its specs have what a rule is.
#![tactic(auto)]

mod echoes;
mod failing;
mod laws;
mod walks;

pub use failing::{failing_cycle, failing_way};
pub use laws::walks_are_found;
