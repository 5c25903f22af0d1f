// The first components at which rule 14 fails: cycles, and ways from hosts that play to hosts that capture.
ghost use Rattle.std.specs.Prelude.{◌≡◌, ◌≤◌, ◌↔◌, true, length};
ghost use Rattle.tplg_walks.specs.FirstFailing.{IsFirstFailing};
ghost use Rattle.tplg_walks.specs.Cycles as law;

use crate::echoes::{any_captures, keep_plain, plays_at};
use crate::walks::{reached, reaches};
use stream_law::{Comp, Edge};

/// The first id on a cycle, below a number of ids.
pub fn failing_cycle(ids: u32, edges: &[Edge]) -> Option<u32>
    requires few { length edges.now ≤ 128 }
    ensures { IsFirstFailing (law.cycles_rule ids edges.now) result }
{
    for id in 0..ids {
        if reaches(edges, id, id) {
            return Some(id);
        }
    }
    None
}

/// Whether a host that captures is reached from an id.
fn reaches_capture(comps: &[Comp], edges: &[Edge], id: u32) -> bool
    requires few { length edges.now ≤ 128 }
    ensures { (result ≡ true) ↔ law.ReachesCapture comps.now edges.now id }
{
    any_captures(comps, reached(edges, id).as_slice())
}

/// The first host that plays and reaches one that captures along some edges, below a number of ids.
fn failing_along(ids: u32, comps: &[Comp], edges: &[Edge]) -> Option<u32>
    requires few { length edges.now ≤ 128 }
    ensures { IsFirstFailing (law.captures_rule ids comps.now edges.now) result }
{
    for id in 0..ids {
        if plays_at(comps, id) && reaches_capture(comps, edges, id) {
            return Some(id);
        }
    }
    None
}

/// The first host that plays and reaches one that captures without an echo edge, below a number of ids.
pub fn failing_way(ids: u32, comps: &[Comp], edges: &[Edge]) -> Option<u32>
    requires few { length edges.now ≤ 128 }
    ensures { IsFirstFailing (law.ways_rule ids comps.now edges.now) result }
{
    let unjoined = Edge {
        buffer: 0,
        pipe: 0,
        size: 0,
        source: None,
        sink: None,
    };
    let mut plain = [unjoined; 128];
    let count = keep_plain(comps, edges, &mut plain);
    failing_along(ids, comps, &plain[..count])
}
