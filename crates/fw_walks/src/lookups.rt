// What ids name in a registry.
ghost use Rattle.std.specs.Prelude.{◌≡◌, ◌==◌, filter, find, length, option_copied};
ghost use Rattle.stream_law.specs.Ways.{source_of, sink_of, ins, outs, is_end};
ghost use Rattle.mbox_link.specs.Step.{is_used as names, has_comp as names_comp, has_edge as names_edge, has_pipe as names_pipe, kind_at as named_kind};
ghost use Rattle.fw_components.specs.Tables.{graph_of};
ghost use Rattle.fw_units.specs.Units.{source_by, sink_by};
ghost use Rattle.fw_units.specs.Changes.{has_id as names_one};

use crate::kinds::{kind_of, sink_in, source_in};
use fw_components::{Component, Registry};
use stream_law::Kind;

/// Whether an id names something.
pub fn is_used(registry: &Registry, id: u32) -> bool
    ensures { result ≡ names (graph_of registry.now) id }
{
    has_comp(registry, id) || has_buffer(registry, id) || has_pipe(registry, id)
}

/// Whether it names a component.
pub fn has_comp(registry: &Registry, id: u32) -> bool
    ensures { result ≡ names_comp (graph_of registry.now) id }
{
    has_id(registry.comps(), id)
}

/// Whether it names a buffer.
pub fn has_buffer(registry: &Registry, id: u32) -> bool
    ensures { result ≡ names_edge (graph_of registry.now) id }
{
    has_id(registry.buffers(), id)
}

// Whether it names a pipeline.
fn has_pipe(registry: &Registry, id: u32) -> bool
    ensures { result ≡ names_pipe (graph_of registry.now) id }
{
    has_id(registry.pipes(), id)
}

// Whether a component of this id is there.
fn has_id(components: &[Component], id: u32) -> bool
    ensures { result ≡ names_one components.now id }
{
    components.iter().any(|component| component.id == id)
}

/// The kind of the component of an id.
pub fn kind_at(registry: &Registry, id: u32) -> Option<Kind>
    ensures { result ≡ named_kind (graph_of registry.now) id }
{
    match find(registry.comps(), id) {
        Some(component) => Some(kind_of(&component.unit)),
        None => None,
    }
}

/// The component that a buffer comes from.
pub fn source_at(registry: &Registry, buffer: u32) -> Option<u32>
    ensures { result ≡ source_of (graph_of registry.now) buffer }
{
    match find(registry.buffers(), buffer) {
        Some(component) => source_in(&component.unit),
        None => None,
    }
}

/// The component that a buffer goes to.
pub fn sink_at(registry: &Registry, buffer: u32) -> Option<u32>
    ensures { result ≡ sink_of (graph_of registry.now) buffer }
{
    match find(registry.buffers(), buffer) {
        Some(component) => sink_in(&component.unit),
        None => None,
    }
}

/// How many buffers go into a component.
pub fn count_ins(registry: &Registry, id: u32) -> usize
    ensures { result ≡ length (ins (graph_of registry.now) id) }
{
    count_with_sink(registry.buffers(), id)
}

/// How many buffers come out of a component.
pub fn count_outs(registry: &Registry, id: u32) -> usize
    ensures { result ≡ length (outs (graph_of registry.now) id) }
{
    count_with_source(registry.buffers(), id)
}

// How many of these buffers go to a component.
fn count_with_sink(buffers: &[Component], id: u32) -> usize
    ensures { result ≡ length (filter (λ b. is_end (sink_by b.unit) id) buffers.now) }
{
    buffers
        .iter()
        .filter(|buffer| is_at(sink_in(&buffer.unit), id))
        .count()
}

// How many of these buffers come from a component.
fn count_with_source(buffers: &[Component], id: u32) -> usize
    ensures { result ≡ length (filter (λ b. is_end (source_by b.unit) id) buffers.now) }
{
    buffers
        .iter()
        .filter(|buffer| is_at(source_in(&buffer.unit), id))
        .count()
}

// Whether a side of a buffer is joined to a component.
fn is_at(side: Option<u32>, id: u32) -> bool
    ensures { result ≡ is_end side id }
{
    match side {
        Some(end) => end == id,
        None => false,
    }
}

/// The component of an id.
pub fn find(components: &[Component], id: u32) -> Option<&Component>
    ensures { option_copied result ≡ find (λ c. c.id == id) components.now }
{
    components.iter().find(|component| component.id == id)
}
