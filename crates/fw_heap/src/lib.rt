//! One region of memory, and the pieces that are carved from it. A region is its list of holes; a piece is its place, its size and its
//! words. A piece is spent by giving it back, and a region by closing it.
#![tactic(auto)]

mod block;
mod free_run;
mod holes;
mod piece;
mod region;
mod run;

pub use piece::Piece;
pub use region::{Region, RegionFull};
pub use run::Home;
