//! Graphs that tests of other crates play, by their sources, and the files that these compile to.
#![tactic(auto)]

mod graphs;

pub use graphs::{THIN, VOLUME, graph};
