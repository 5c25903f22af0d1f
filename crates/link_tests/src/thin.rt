// The thin graph, as a file.
use std::alloc::Global;
use std::process::Abort;
use test_graphs::{THIN, graph};

/// The topology's file of the thin graph.
pub fn thin(rt: &impl Abort, alloc: Global) -> Vec<u8> {
    graph(alloc, THIN).expect(rt, "a source of a graph")
}
