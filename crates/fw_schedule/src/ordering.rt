// The order in which the components of a registry move.
ghost use Rattle.std.specs.Prelude.{◌≡◌, ◌<◌, ◌≤◌, ◌==◌, ◌&&◌, length, map, filter, not, is_some, count_by, slice_index, All, if◌then◌else◌};
ghost use Rattle.stream_law.specs.Placed.{Ascends};
ghost use Rattle.stream_law.specs.Ways.{components, is_end};
ghost use Rattle.stream_law.specs.Order.{order as law};
ghost use Rattle.stream_law.specs.Waiting.{freed, lowered, turns_from};
ghost use Rattle.fw_units.specs.Units.{comp_by, edge_by, source_by, sink_by};
ghost use Rattle.fw_components.specs.Tables.{graph_of};
ghost use Rattle.fw_components.specs.Kept.{IsKept};

use crate::ends::is_at;
use arrayvec::ArrayVec;
use fw_components::{Component, Registry};
use fw_walks::{sink_in, source_in};
use stream_law::{Turn, lower_waits, next_turn, remove_turn};

/// The components in the order in which they move, by their places: repeatedly that of the least id whose sources all have been
/// placed.
pub(crate) fn order(registry: &Registry) -> ArrayVec<u16, 128>
    ensures order { map (slice_index (components (graph_of registry.now))) result.items ≡ law (graph_of registry.now) }
    ensures within { All (λ k. k < length registry.now.comps) result.items }
    ensures kept { IsKept registry.now }
{
    let comps = registry.comps();
    let buffers = registry.buffers();
    let mut left = turns(comps, buffers);
    let mut places: ArrayVec<u16, 128> = ArrayVec::new();
    while let Some(turn) = next_turn(left.as_slice()) {
        places.push(turn.place);
        place(buffers, turn.id, &mut left);
    }
    places
}

// A component is placed: what is left waits no longer for its buffers.
fn place(buffers: &[Component], id: u32, left: &mut ArrayVec<Turn, 128>)
    requires { Ascends (λ c. c.id) buffers.now }
    ensures { left.new.items ≡ map (freed (map edge_by buffers.now) id (map edge_by buffers.now)) (filter (λ t. not (t.id == id)) left.old.items) }
{
    remove_turn(left, id);
    free(buffers, id, left.as_mut_slice());
}

// What is left waits no longer for the buffers that come from a component.
fn free(buffers: &[Component], id: u32, left: &mut [Turn])
    requires { Ascends (λ c. c.id) buffers.now }
    ensures { left.new ≡ map (freed (map edge_by buffers.now) id (map edge_by buffers.now)) left.old }
{
    for buffer in buffers {
        free_one(buffer, id, left);
    }
}

// What is left waits no longer for a buffer, where it comes from a component.
fn free_one(buffer: &Component, id: u32, left: &mut [Turn])
    ensures { left.new ≡ (if is_end (source_by buffer.now.unit) id then map (lowered (sink_by buffer.now.unit)) left.old else left.old) }
{
    if is_at(source_in(&buffer.unit), id) {
        lower_waits(left, sink_in(&buffer.unit));
    }
}

// The turns of all components, before any is placed.
fn turns(comps: &[Component], buffers: &[Component]) -> ArrayVec<Turn, 128>
    requires few { length comps.now ≤ 128 }
    requires ascends { Ascends (λ c. c.id) buffers.now }
    ensures { result.items ≡ turns_from (map edge_by buffers.now) 0 (map comp_by comps.now) }
{
    let mut left = ArrayVec::new();
    for k in 0..comps.len() {
        let id = comps[k].id;
        left.push(Turn {
            place: k as u16,
            id,
            waits: waits(buffers, id),
        });
    }
    left
}

// How many buffers into a component come from one.
fn waits(buffers: &[Component], id: u32) -> usize
    ensures { result ≡ count_by (λ b. is_end (sink_by b.unit) id && is_some (source_by b.unit)) buffers.now }
{
    buffers
        .iter()
        .filter(|buffer| is_waited(buffer, id))
        .count()
}

// Whether a buffer goes to a component and comes from one.
fn is_waited(buffer: &Component, id: u32) -> bool
    ensures { result ≡ (is_end (sink_by buffer.now.unit) id && is_some (source_by buffer.now.unit)) }
{
    is_at(sink_in(&buffer.unit), id) && source_in(&buffer.unit).is_some()
}
