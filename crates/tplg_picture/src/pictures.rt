// A whole picture.
ghost use Rattle.std.specs.Prelude.{◌≡◌, ◌++◌, ◌∷◌, [], map, IfOk, OnOk};
ghost use Rattle.std.specs.List.{flat_map};
ghost use Rattle.tplg_picture.specs.Picture as law;

use crate::lines::{cluster_line, edge_statement, node_statement, title_line};
use crate::shown::{Shown, shown_names};
use crate::words::text_of;
use sof_base::{Items, NoMemory};
use std::alloc::Global;
use stream_law::{Comp, Pipe};
use tplg_model::Topology;
use tplg_plan::Plan;

// A component, where it is of this pipeline.
fn put_node(
    alloc: Global,
    plan: &Plan,
    shown: &Shown,
    index: u32,
    comp: &Comp,
    lines: &mut Items<Items<u8>>,
) -> Result<(), NoMemory>
    ensures { OnOk result (lines.new ≡ lines.old ++ law.nodes_in plan.now shown.now index comp.now) }
{
    if comp.pipe != index {
        return Ok(());
    }
    lines.push(node_statement(alloc, plan, shown, comp)?)
}

// The components of a pipeline.
fn put_nodes(
    alloc: Global,
    plan: &Plan,
    shown: &Shown,
    index: u32,
    lines: &mut Items<Items<u8>>,
) -> Result<(), NoMemory>
    ensures { OnOk result (lines.new ≡ lines.old ++ flat_map (law.nodes_in plan.now shown.now index) plan.now.graph.comps) }
{
    for comp in plan.graph.comps.items() {
        put_node(alloc, plan, shown, index, comp, lines)?;
    }
    Ok(())
}

// A pipeline with its components.
fn put_cluster(
    alloc: Global,
    plan: &Plan,
    shown: &Shown,
    pipe: &Pipe,
    lines: &mut Items<Items<u8>>,
) -> Result<(), NoMemory>
    ensures { OnOk result (lines.new ≡ lines.old ++ law.cluster_lines plan.now shown.now pipe.now) }
{
    lines.push(cluster_line(alloc, pipe)?)?;
    lines.push(title_line(alloc, plan, pipe)?)?;
    put_nodes(alloc, plan, shown, pipe.index, lines)?;
    lines.push(text_of(alloc, b"}\n")?)
}

// All pipelines.
fn put_clusters(
    alloc: Global,
    plan: &Plan,
    shown: &Shown,
    lines: &mut Items<Items<u8>>,
) -> Result<(), NoMemory>
    ensures { OnOk result (lines.new ≡ lines.old ++ flat_map (law.cluster_lines plan.now shown.now) plan.now.graph.pipes) }
{
    for pipe in plan.graph.pipes.items() {
        put_cluster(alloc, plan, shown, pipe, lines)?;
    }
    Ok(())
}

// All buffers.
fn put_edges(alloc: Global, plan: &Plan, lines: &mut Items<Items<u8>>) -> Result<(), NoMemory>
    ensures { OnOk result (lines.new ≡ lines.old ++ map (law.edge_statement plan.now) plan.now.graph.edges) }
{
    for edge in plan.graph.edges.items() {
        lines.push(edge_statement(alloc, plan, edge)?)?;
    }
    Ok(())
}

// The first lines.
fn put_head(alloc: Global, lines: &mut Items<Items<u8>>) -> Result<(), NoMemory>
    ensures { OnOk result (lines.new ≡ lines.old ++ law.head_lines) }
{
    lines.push(text_of(alloc, b"digraph topology {\n")?)?;
    lines.push(text_of(alloc, b"graph [rankdir=LR, fontname=\"sans-serif\"];\n")?)?;
    lines.push(text_of(
        alloc,
        b"node [shape=box, style=\"rounded,filled\", fontname=\"sans-serif\"];\n",
    )?)?;
    lines.push(text_of(alloc, b"edge [fontname=\"sans-serif\", fontsize=10];\n")?)
}

// The lines of a plan's picture, with these names.
#[tactic(auto, using(crate::proofs::Lists::followed))]
fn picture_with(alloc: Global, plan: &Plan, shown: &Shown) -> Result<Items<Items<u8>>, NoMemory>
    ensures { IfOk result (λ lines. lines ≡ law.picture_with plan.now shown.now) }
{
    let mut lines = Items::new(alloc);
    put_head(alloc, &mut lines)?;
    put_clusters(alloc, plan, shown, &mut lines)?;
    put_edges(alloc, plan, &mut lines)?;
    lines.push(text_of(alloc, b"}\n")?)?;
    Ok(lines)
}

/// The lines of the picture of a topology and its plan, each with its newline.
pub fn picture(
    alloc: Global,
    topology: &Topology,
    plan: &Plan,
) -> Result<Items<Items<u8>>, NoMemory>
    ensures { IfOk result (λ lines. lines ≡ law.picture_of topology.now plan.now) }
{
    let shown = shown_names(alloc, topology)?;
    picture_with(alloc, plan, &shown)
}
