// The order in which the components of a graph move.
ghost use Rattle.std.specs.Prelude.{◌≡◌, ◌≤◌, ◌<◌, ◌==◌, not, length, map, filter, slice_index, All, IfOk, OnOk, OnErr};
ghost use Rattle.stream_law.specs.Ways.{components};
ghost use Rattle.stream_law.specs.Order as law;
ghost use Rattle.stream_law.specs.BareOrder.{bare};
ghost use Rattle.stream_law.specs.Waiting.{freed};
ghost use Rattle.stream_law.specs.Walks.{HasAll, HasCycle, HasEnds};

use crate::graph::{Comp, Edge, Graph};
use crate::turns::{Turn, free, next_turn, remove_turn, turns};
use arrayvec::ArrayVec;
use sof_base::Bounded;

/// The edges have a cycle.
#[derive(Clone, Copy, Debug, PartialEq, Eq)]
pub struct Cycle;

// A component is placed: its turn is removed, and what is left waits no longer for its edges.
fn place(edges: &[Edge], turn: Turn, left: &mut ArrayVec<Turn, 128>)
    ensures { left.new.items ≡ map (freed edges.now turn.id edges.now) (filter (λ t. not (t.id == turn.id)) left.old.items) }
{
    remove_turn(left, turn.id);
    free(edges, turn.id, left.as_mut_slice());
}

// The same places, as contracts see them.
fn held(places: &ArrayVec<u16, 128>) -> Bounded<u16, 128>
    ensures { result ≡ places.now.items }
{
    match Bounded::new(places.as_slice()) {
        Some(same) => same,
        None => Bounded::empty(),
    }
}

/// The components one after another, by their positions: repeatedly that with the least id whose sources all have been
/// placed. It takes no memory, and its steps are at worst quadratic in the numbers of components and of edges.
///
/// An edge is named by its buffer: of two edges of one buffer the first counts. There is an answer exactly where the edges
/// have no cycle, and then each component has its place.
pub fn order_of(comps: &[Comp], edges: &[Edge]) -> Result<Bounded<u16, 128>, Cycle>
    requires few { length comps.now ≤ 128 }
    requires ends { HasEnds (bare comps.now edges.now) }
    ensures order { IfOk result (λ places. map (slice_index (components (bare comps.now edges.now))) places ≡ law.order (bare comps.now edges.now)) }
    ensures within { IfOk result (λ places. All (λ k. k < length comps.now) places) }
    ensures whole { OnOk result (HasAll (bare comps.now edges.now) (law.order (bare comps.now edges.now))) }
    ensures none { OnOk result (HasCycle (bare comps.now edges.now) → ⊥) }
    ensures cycle { OnErr result (HasCycle (bare comps.now edges.now)) }
{
    let mut left = turns(comps, edges);
    let mut places: ArrayVec<u16, 128> = ArrayVec::new();
    while let Some(turn) = next_turn(left.as_slice()) {
        places.push(turn.place);
        place(edges, turn, &mut left);
    }
    if left.is_empty() {
        Ok(held(&places))
    } else {
        Err(Cycle)
    }
}

/// The order of a graph's components, as `order_of` tells it.
pub fn order(graph: &Graph) -> Result<Bounded<u16, 128>, Cycle>
    requires few { length graph.now.comps ≤ 128 }
    requires ends { HasEnds graph.now }
    ensures order { IfOk result (λ places. map (slice_index (components graph.now)) places ≡ law.order graph.now) }
    ensures within { IfOk result (λ places. All (λ k. k < length graph.now.comps) places) }
    ensures whole { OnOk result (HasAll graph.now (law.order graph.now)) }
    ensures none { OnOk result (HasCycle graph.now → ⊥) }
    ensures cycle { OnErr result (HasCycle graph.now) }
{
    order_of(graph.comps.items(), graph.edges.items())
}
