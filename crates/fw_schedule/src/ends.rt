// The buffers at a component that frames move along.
ghost use Rattle.std.specs.Prelude.{◌≡◌, ◌≤◌, ◌+◌, ◌++◌, ◌&&◌, ◌||◌, not, length};
ghost use Rattle.stream_law.specs.Ways.{is_end, live, active, active_end};
ghost use Rattle.stream_law.specs.Moves.{fed_by, chooses as is_choosing};
ghost use Rattle.fw_components.specs.Tables.{view_by};
ghost use Rattle.fw_units.specs.Units.{source_by, sink_by};
ghost use Rattle.fw_schedule.specs.Schedules.{inlets_of, ArePlaces};

use crate::steps::Ends;
use fw_components::{Component, Registry};
use fw_walks::{active as is_active, live as is_live, sink_in, source_in};

/// The buffers that a component feeds come after the ids that are there.
pub(crate) fn add_outlets(registry: &Registry, id: u32, ends: &mut Ends)
    requires room { length ends.old.ids.items + length (fed_by (view_by registry.now) id) ≤ 256 }
    requires places { ArePlaces (view_by registry.now) ends.old }
    ensures ids { ends.new.ids.items ≡ ends.old.ids.items ++ fed_by (view_by registry.now) id }
    ensures places { ArePlaces (view_by registry.now) ends.new }
{
    let buffers = registry.buffers();
    for at in 0..buffers.len() {
        let buffer = &buffers[at];
        if is_fed(registry, buffer, id) {
            let place = at as u16;
            ends.push(buffer.id, place);
        }
    }
}

// Whether a buffer comes from a component and is fed.
fn is_fed(registry: &Registry, buffer: &Component, id: u32) -> bool
    ensures { result ≡ (is_end (source_by buffer.now.unit) id && (live (view_by registry.now) buffer.now.id && active_end (view_by registry.now) (sink_by buffer.now.unit))) }
{
    is_at(source_in(&buffer.unit), id)
        && is_live(registry, buffer.id)
        && is_active_end(registry, sink_in(&buffer.unit))
}

/// The buffers that a component may look at come after the ids that are there: all into it, or where it chooses those whose source
/// is Active.
pub(crate) fn add_inlets(registry: &Registry, id: u32, chooses: bool, ends: &mut Ends)
    requires chooses { chooses ≡ is_choosing (view_by registry.now) id }
    requires room { length ends.old.ids.items + length (inlets_of (view_by registry.now) id) ≤ 256 }
    requires places { ArePlaces (view_by registry.now) ends.old }
    ensures ids { ends.new.ids.items ≡ ends.old.ids.items ++ inlets_of (view_by registry.now) id }
    ensures places { ArePlaces (view_by registry.now) ends.new }
{
    let buffers = registry.buffers();
    for at in 0..buffers.len() {
        let buffer = &buffers[at];
        if is_inlet(registry, buffer, id, chooses) {
            let place = at as u16;
            ends.push(buffer.id, place);
        }
    }
}

// Whether a component may look at a buffer.
fn is_inlet(registry: &Registry, buffer: &Component, id: u32, chooses: bool) -> bool
    ensures { result ≡ (is_end (sink_by buffer.now.unit) id && (not chooses || active_end (view_by registry.now) (source_by buffer.now.unit))) }
{
    is_at(sink_in(&buffer.unit), id)
        && (!chooses || is_active_end(registry, source_in(&buffer.unit)))
}

// Whether an end of a buffer is there and Active.
fn is_active_end(registry: &Registry, end: Option<u32>) -> bool
    ensures { result ≡ active_end (view_by registry.now) end }
{
    match end {
        Some(id) => is_active(registry, id),
        None => false,
    }
}

/// Whether a side of a buffer is joined to a component.
pub(crate) fn is_at(side: Option<u32>, id: u32) -> bool
    ensures { result ≡ is_end side id }
{
    match side {
        Some(end) => end == id,
        None => false,
    }
}
