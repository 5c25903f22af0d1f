// What the ends of routes name.
ghost use Rattle.std.specs.Prelude.{◌≡◌, ◌++◌, map, IfOk, OnOk};
ghost use Rattle.std.specs.List.{filter_map};
ghost use Rattle.tplg_widgets.specs.Ends as law;

use crate::widgets::Widgets;
use std::alloc::{AllocError, Global};
use stream_law::Join;
use tplg_model::{Block, Body, Route, Topology};

/// What an end of a route names: a buffer or a component by its id, another widget, or nothing.
#[derive(Clone, Copy, Debug, PartialEq, Eq)]
pub enum End {
    Buffer(u32),
    Component(u32),
    Other,
    Missing,
}

/// What both ends of a route name.
#[derive(Clone, Copy, Debug, PartialEq, Eq)]
pub struct Ends {
    pub source: End,
    pub sink: End,
}

fn ends_of(widgets: &Widgets, route: &Route) -> Ends
    ensures { result ≡ law.ends_of widgets.now route.now }
{
    Ends {
        source: widgets.end_of(route.source.as_bytes()),
        sink: widgets.end_of(route.sink.as_bytes()),
    }
}

fn add_routes(widgets: &Widgets, routes: &[Route], out: &mut Vec<Ends>) -> Result<(), AllocError>
    ensures { OnOk result (out.new.items ≡ out.old.items ++ map (law.ends_of widgets.now) routes.now) }
{
    for route in routes {
        out.push(ends_of(widgets, route))?;
    }
    Ok(())
}

fn add_block(widgets: &Widgets, block: &Block, out: &mut Vec<Ends>) -> Result<(), AllocError>
    ensures { OnOk result (out.new.items ≡ out.old.items ++ law.block_ends widgets.now block.now) }
{
    match &block.body {
        Body::Routes(routes) => add_routes(widgets, routes.items(), out),
        _ => Ok(()),
    }
}

/// What the ends of the routes name, in file order.
pub fn all_ends(
    alloc: Global,
    topology: &Topology,
    widgets: &Widgets,
) -> Result<Vec<Ends>, AllocError>
    ensures { IfOk result (λ rs. rs.items ≡ law.all_ends widgets.now topology.now) }
{
    let mut out = Vec::new(alloc);
    for block in topology.blocks.items() {
        add_block(widgets, block, &mut out)?;
    }
    Ok(out)
}

fn join_of(source: End, sink: End) -> Option<Join>
    ensures { result ≡ law.join_of source sink }
{
    match (source, sink) {
        (End::Buffer(a), End::Component(b)) => Some(Join { source: a, sink: b }),
        (End::Component(a), End::Buffer(b)) => Some(Join { source: a, sink: b }),
        _ => None,
    }
}

/// The real routes in file order.
pub fn joins(alloc: Global, ends: &[Ends]) -> Result<Vec<Join>, AllocError>
    ensures { IfOk result (λ js. js.items ≡ filter_map law.real_of ends.now) }
{
    ends.iter()
        .filter_map(|e| join_of(e.source, e.sink))
        .collect(alloc)
}
