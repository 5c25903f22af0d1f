// How many bytes of heap a plan needs.
ghost use Rattle.std.specs.Prelude.{◌≡◌, ◌≤◌, ◌*◌, ◌+◌, length};
ghost use Rattle.sof_base.specs.Holes.{rounded};
ghost use Rattle.stream_law.specs.Sizes.{comp_bytes, buffer_bytes};
ghost use Rattle.tplg_plan.specs.HeapNeed as law;

use crate::plans::Plan;
use stream_law::{Comp, Edge, Kind};

/// The size in bytes of a component.
fn component_size(kind: Kind) -> u64
    ensures value { result ≡ comp_bytes kind }
    ensures most { result ≤ 4160 }
{
    match kind {
        Kind::Mixer | Kind::Mux | Kind::Demux => 32,
        Kind::Eq => 4160,
        _ => 64,
    }
}

/// The size in bytes of a buffer, rounded up to 16.
fn buffer_size(size: u32) -> u64
    ensures value { result ≡ rounded (buffer_bytes size) }
    ensures most { result ≤ 4294967343 }
{
    (32 + size as u64 + 15) / 16 * 16
}

fn components_need(comps: &[Comp]) -> u64
    requires { length comps.now ≤ 128 }
    ensures value { result ≡ law.components_need comps.now }
    ensures most { result ≤ 4160 * length comps.now }
{
    let mut bytes = 0;
    for comp in comps {
        bytes += component_size(comp.kind);
    }
    bytes
}

fn edges_need(edges: &[Edge]) -> u64
    requires { length edges.now ≤ 128 }
    ensures value { result ≡ law.edges_need edges.now }
    ensures most { result ≤ 4294967343 * length edges.now }
{
    let mut bytes = 0;
    for edge in edges {
        bytes += buffer_size(edge.size);
    }
    bytes
}

/// How many bytes of heap a plan needs: the sum of its sizes, each rounded up to 16.
pub fn need(plan: &Plan) -> u64
    requires { law.IsSmall plan.now.graph }
    ensures { result ≡ law.need_on plan.now.graph }
{
    let pipes = plan.graph.pipes.items().len() as u64;
    components_need(plan.graph.comps.items()) + edges_need(plan.graph.edges.items()) + 64 * pipes
}
