// A whole topology.
ghost use Rattle.std.specs.Prelude.{◌≡◌, ◌≤◌, ◌++◌, true, false, length, map, Err, IfOk, IfErr, OnOk};
ghost use Rattle.std.specs.List.{list_all};
ghost use Rattle.tplg_model.specs.Arrays.{Each};
ghost use Rattle.tplg_model.specs.Spelling.{IsBlock};
ghost use Rattle.tplg_model.specs.File.{IsTopology};
ghost use Rattle.tplg_build.specs.SmallSource.{is_small_widget, is_small_source};
ghost use Rattle.tplg_build.specs.TopologyForm as form;

use crate::build_fault::BuildFault;
use crate::limits::is_small;
use crate::pcms::pcm_block;
use crate::routes::route_block;
use crate::source::{SourcePcm, SourceRoute, SourceWidget, TopologySource};
use crate::widgets::widget_block;
use sof_base::{Items, NoMemory};
use std::alloc::Global;
use tplg_model::{Block, Topology};

fn put_widgets(
    alloc: Global,
    widgets: &[SourceWidget],
    blocks: &mut Items<Block>,
) -> Result<(), NoMemory>
    requires { list_all is_small_widget widgets.now ≡ true }
    ensures value { OnOk result (blocks.new ≡ blocks.old ++ map form.widget_block widgets.now) }
    ensures are { OnOk result (Each IsBlock blocks.old → Each IsBlock blocks.new) }
{
    for widget in widgets {
        blocks.push(widget_block(alloc, widget)?)?;
    }
    Ok(())
}

fn put_routes(
    alloc: Global,
    routes: &[SourceRoute],
    blocks: &mut Items<Block>,
) -> Result<(), NoMemory>
    requires { length routes.now ≤ 32000000 }
    ensures value { OnOk result (blocks.new ≡ blocks.old ++ form.route_blocks routes.now) }
    ensures are { OnOk result (Each IsBlock blocks.old → Each IsBlock blocks.new) }
{
    if routes.is_empty() {
        return Ok(());
    }
    blocks.push(route_block(alloc, routes)?)?;
    Ok(())
}

fn put_pcms(alloc: Global, pcms: &[SourcePcm], blocks: &mut Items<Block>) -> Result<(), NoMemory>
    ensures value { OnOk result (blocks.new ≡ blocks.old ++ map form.pcm_block pcms.now) }
    ensures are { OnOk result (Each IsBlock blocks.old → Each IsBlock blocks.new) }
{
    for pcm in pcms {
        blocks.push(pcm_block(alloc, pcm)?)?;
    }
    Ok(())
}

fn built(alloc: Global, source: &TopologySource) -> Result<Topology, NoMemory>
    requires { is_small_source source.now ≡ true }
    ensures value { IfOk result (λ t. t ≡ form.topology_stated source.now) }
    ensures is { IfOk result IsTopology }
{
    let mut blocks = Items::new(alloc);
    put_widgets(alloc, source.widgets.items(), &mut blocks)?;
    put_routes(alloc, source.routes.items(), &mut blocks)?;
    put_pcms(alloc, source.pcms.items(), &mut blocks)?;
    Ok(Topology { blocks })
}

/// The topology that a source states: a block for each widget, one for all routes where there are any, and one for each PCM.
pub fn build(alloc: Global, source: &TopologySource) -> Result<Topology, BuildFault>
    ensures value { IfOk result (λ t. t ≡ form.topology_stated source.now) }
    // It can be written, and what is written is its file.
    ensures is { IfOk result IsTopology }
    // What is beyond the limits is too large, and nothing else is.
    ensures large { is_small_source source.now ≡ false → result ≡ Err BuildFault.TooLarge }
    ensures small { is_small_source source.now ≡ true → IfErr result (λ f. f ≡ BuildFault.OutOfMemory) }
{
    if !is_small(source) {
        return Err(BuildFault::TooLarge);
    }
    let topology = built(alloc, source)?;
    Ok(topology)
}
