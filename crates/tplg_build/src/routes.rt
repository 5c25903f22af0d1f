// Routes: one block of all.
ghost use Rattle.std.specs.Prelude.{◌≡◌, ◌≤◌, length, map, IfOk};
ghost use Rattle.tplg_model.specs.Arrays.{Each};
ghost use Rattle.tplg_model.specs.Spelling.{IsRoute, IsBlock};
ghost use Rattle.tplg_model.specs.declared.block.Body.TheVariants.{Routes};
ghost use Rattle.tplg_build.specs.PcmForm.{route_of};
ghost use Rattle.tplg_build.specs.TopologyForm.{block_of};

use crate::blocks::block;
use crate::names::{copied, empty_name};
use crate::source::SourceRoute;
use sof_base::{Items, NoMemory};
use std::alloc::Global;
use tplg_model::{Block, Body, Route};

// The route that a source states.
fn route(stated: &SourceRoute) -> Route
    ensures value { result ≡ route_of stated.now }
    ensures is { IsRoute result }
{
    Route {
        sink: copied(&stated.sink),
        control: empty_name(),
        source: copied(&stated.source),
    }
}

// The routes that a source states, in their order.
fn routes(alloc: Global, stated: &[SourceRoute]) -> Result<Items<Route>, NoMemory>
    ensures value { IfOk result (λ x. x ≡ map route_of stated.now) }
    ensures are { IfOk result (Each IsRoute) }
{
    let mut routes = Items::new(alloc);
    for one in stated {
        routes.push(route(one))?;
    }
    Ok(routes)
}

/// The block of all routes.
pub fn route_block(alloc: Global, stated: &[SourceRoute]) -> Result<Block, NoMemory>
    requires { length stated.now ≤ 32000000 }
    ensures value { IfOk result (λ x. x ≡ block_of 0 (Routes (map route_of stated.now))) }
    ensures is { IfOk result IsBlock }
{
    Ok(block(0, Body::Routes(routes(alloc, stated)?)))
}
