//! The picture of a plan, as Graphviz reads it: pipelines as clusters, components as nodes, buffers as edges.
#![tactic(auto)]

mod gains;
mod labels;
mod lines;
mod pictures;
mod shown;
mod words;

pub use pictures::picture;
