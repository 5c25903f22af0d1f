// Graphs by their sources, as files.
use std::alloc::Global;
use std::process::Abort;
pub use test_graphs::{THIN, VOLUME};

/// The topology's file of a source.
pub fn graph(rt: &impl Abort, alloc: Global, source: &[u8]) -> Vec<u8> {
    test_graphs::graph(alloc, source).expect(rt, "a source of a graph")
}
