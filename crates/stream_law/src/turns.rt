// The turns of the components that are not placed yet.
ghost use Rattle.std.specs.Prelude.{◌≡◌, ◌≤◌, [], map, filter, find, not, length, count_by, is_some, ◌==◌, ◌&&◌, if◌then◌else◌, None};
ghost use Rattle.stream_law.specs.Ways.{is_end};
ghost use Rattle.stream_law.specs.Waiting as law;

use crate::graph::{Comp, Edge};
use arrayvec::ArrayVec;

/// A component that is not placed: its place in the graph, its id, and how many edges into it come from components that
/// are not placed either.
#[derive(Clone, Copy, Debug, Default, PartialEq, Eq)]
pub struct Turn {
    pub place: u16,
    pub id: u32,
    pub waits: usize,
}

// Whether an end of an edge is this component.
fn is_end(end: Option<u32>, comp: u32) -> bool
    ensures { result ≡ is_end end comp }
{
    match end {
        None => false,
        Some(id) => id == comp,
    }
}

// Whether both ends are none, or one component.
fn same_end(one: Option<u32>, other: Option<u32>) -> bool
    ensures { result ≡ law.same_end one other }
{
    match (one, other) {
        (None, None) => true,
        (Some(a), Some(b)) => a == b,
        _ => false,
    }
}

// The first edge of a buffer.
fn edge_of(edges: &[Edge], buffer: u32) -> Option<Edge>
    ensures { result ≡ find (λ e. e.buffer == buffer) edges.now }
{
    for e in edges {
        if e.buffer == buffer {
            return Some(*e);
        }
    }
    None
}

// Whether the edge that is found by the buffer of one has its ends.
fn is_found(edges: &[Edge], e: &Edge) -> bool
    ensures { result ≡ law.is_found edges.now e.now }
{
    match edge_of(edges, e.buffer) {
        None => false,
        Some(found) => same_end(found.source, e.source) && same_end(found.sink, e.sink),
    }
}

// Whether an end is a component, where none is placed.
fn is_open(end: Option<u32>) -> bool
    ensures { result ≡ law.is_open [] end }
{
    match end {
        None => false,
        Some(_) => true,
    }
}

// How many edges lead into a component, where none is placed.
fn waits(edges: &[Edge], id: u32) -> usize
    ensures { result ≡ law.waits edges.now [] id }
{
    edges
        .iter()
        .filter(|e| is_end(e.sink, id) && is_found(edges, *e) && is_open(e.source))
        .count()
}

/// The turns of all components, before any is placed.
pub fn turns(comps: &[Comp], edges: &[Edge]) -> ArrayVec<Turn, 128>
    requires few { length comps.now ≤ 128 }
    ensures { result.items ≡ law.turns_from edges.now 0 comps.now }
{
    let mut left = ArrayVec::new();
    for k in 0..comps.len() {
        let id = comps[k].id;
        left.push(Turn {
            place: k as u16,
            id,
            waits: waits(edges, id),
        });
    }
    left
}

// The better of two turns.
fn better(best: Option<Turn>, turn: Turn) -> Option<Turn>
    ensures { result ≡ law.better best turn }
{
    if turn.waits != 0 {
        return best;
    }
    match best {
        Some(b) if b.id <= turn.id => Some(b),
        _ => Some(turn),
    }
}

/// The turn that is next: of those that wait for nothing, that of the least id. There is none where each of them waits.
pub fn next_turn(left: &[Turn]) -> Option<Turn>
    ensures { result ≡ law.best_of None left.now }
{
    let mut best = None;
    for turn in left {
        best = better(best, *turn);
    }
    best
}

// A turn whose component waits for one edge less where it is at this end.
fn lowered(end: Option<u32>, turn: Turn) -> Turn
    ensures { result ≡ law.lowered end turn }
{
    if is_end(end, turn.id) {
        Turn {
            waits: turn.waits.saturating_sub(1),
            ..turn
        }
    } else {
        turn
    }
}

/// The component at this end of an edge waits for one edge less, or still for none. The other turns stay as they are.
pub fn lower_waits(left: &mut [Turn], end: Option<u32>)
    ensures { left.new ≡ map (law.lowered end) left.old }
{
    for turn in left.iter_mut() {
        *turn = lowered(end, *turn);
    }
}

// What is left waits no longer for this edge, where it leads from a component.
fn free_edge(edges: &[Edge], e: &Edge, id: u32, left: &mut [Turn])
    ensures { left.new ≡ (if law.leads_from edges.now id e.now then map (law.lowered e.now.sink) left.old else left.old) }
{
    if is_end(e.source, id) && is_found(edges, e) {
        lower_waits(left, e.sink);
    }
}

/// What is left waits no longer for the edges that lead from a component.
pub fn free(edges: &[Edge], id: u32, left: &mut [Turn])
    ensures { left.new ≡ map (law.freed edges.now id edges.now) left.old }
{
    for e in edges {
        free_edge(edges, e, id, left);
    }
}

/// The turns without that of a component. The others stay as they are, one after another.
pub fn remove_turn(left: &mut ArrayVec<Turn, 128>, id: u32)
    ensures { left.new.items ≡ filter (λ t. not (t.id == id)) left.old.items }
{
    left.retain(|turn| turn.id != id);
}
