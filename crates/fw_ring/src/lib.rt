//! Rings of frames, each over a piece of a region. Contracts see a ring as its list of frames, and say in which word of the piece
//! each sample lies.
#![tactic(auto)]

mod ring;
mod samples;
mod window;

pub use ring::Ring;
