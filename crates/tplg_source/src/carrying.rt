// What a source can carry of a topology.
ghost use Rattle.std.specs.Prelude.{◌≡◌, ◌++◌, OnOk, IfOk};
ghost use Rattle.std.specs.List.{flat_map};
ghost use Rattle.tplg_source.specs.Carried as law;

use crate::carried_pcms::put_pcms;
use crate::carried_widgets::{put_routes, put_widgets};
use sof_base::{Items, NoMemory};
use std::alloc::Global;
use tplg_build::{SourcePcm, SourceRoute, SourceWidget, TopologySource};
use tplg_model::{Block, Body, Topology};

fn put_block_widgets(
    alloc: Global,
    block: &Block,
    out: &mut Items<SourceWidget>,
) -> Result<(), NoMemory>
    ensures { OnOk result (out.new ≡ out.old ++ law.carried_widgets block.now) }
{
    match &block.body {
        Body::Widgets(widgets) => put_widgets(alloc, block.index, widgets.items(), out),
        _ => Ok(()),
    }
}

fn widgets(alloc: Global, topology: &Topology) -> Result<Items<SourceWidget>, NoMemory>
    ensures { IfOk result (λ ws. ws ≡ flat_map law.carried_widgets topology.now.blocks) }
{
    let mut widgets = Items::new(alloc);
    for block in topology.blocks.items() {
        put_block_widgets(alloc, block, &mut widgets)?;
    }
    Ok(widgets)
}

fn put_block_routes(
    widgets: &[SourceWidget],
    block: &Block,
    out: &mut Items<SourceRoute>,
) -> Result<(), NoMemory>
    ensures { OnOk result (out.new ≡ out.old ++ law.carried_routes widgets.now block.now) }
{
    match &block.body {
        Body::Routes(routes) => put_routes(widgets, routes.items(), out),
        _ => Ok(()),
    }
}

fn routes(
    alloc: Global,
    widgets: &[SourceWidget],
    topology: &Topology,
) -> Result<Items<SourceRoute>, NoMemory>
    ensures { IfOk result (λ rs. rs ≡ flat_map (law.carried_routes widgets.now) topology.now.blocks) }
{
    let mut routes = Items::new(alloc);
    for block in topology.blocks.items() {
        put_block_routes(widgets, block, &mut routes)?;
    }
    Ok(routes)
}

fn put_block_pcms(block: &Block, out: &mut Items<SourcePcm>) -> Result<(), NoMemory>
    ensures { OnOk result (out.new ≡ out.old ++ law.carried_pcms block.now) }
{
    match &block.body {
        Body::Pcms(pcms) => put_pcms(pcms.items(), out),
        _ => Ok(()),
    }
}

fn pcms(alloc: Global, topology: &Topology) -> Result<Items<SourcePcm>, NoMemory>
    ensures { IfOk result (λ ps. ps ≡ flat_map law.carried_pcms topology.now.blocks) }
{
    let mut pcms = Items::new(alloc);
    for block in topology.blocks.items() {
        put_block_pcms(block, &mut pcms)?;
    }
    Ok(pcms)
}

/// What a source can carry of a topology: its widgets, routes and PCMs in file order.
pub fn carried_source(alloc: Global, topology: &Topology) -> Result<TopologySource, NoMemory>
    ensures { IfOk result (λ s. s ≡ law.carried_source topology.now) }
{
    let widgets = widgets(alloc, topology)?;
    let routes = routes(alloc, widgets.items(), topology)?;
    let pcms = pcms(alloc, topology)?;
    Ok(TopologySource {
        widgets,
        routes,
        pcms,
    })
}
