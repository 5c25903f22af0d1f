// The rows of messages that free a component, a buffer or a pipeline.
ghost use Rattle.std.specs.Prelude.{◌≡◌, ◌==◌, ◌&&◌, ◌||◌, OnErr, OnOk, ℕ, true, find, option_map, length};
ghost use Rattle.std.specs.List.{list_any, AllByRecursion};
ghost use Rattle.stream_law.specs.State.{FwState};
ghost use Rattle.mbox_link.specs.Step.{comp_free, buffer_free, pipe_free, has_complete_pipe as is_of_complete_pipe, has_edge as names_edge, is_complete as is_whole, index_of, is_held as is_held_by, is_index_held as is_index_held_by, touches as is_touching};
ghost use Rattle.stream_law.specs.Order.{is_among};
ghost use Rattle.fw_places.specs.Walks.{is_marked};
ghost use Rattle.fw_components.specs.Tables.{view_by, graph_of, streams_of, all_of, ids_of};
ghost use Rattle.fw_units.specs.Units.{complete_by};
ghost use Rattle.fw_units.specs.Changes.{IsOfHome};
ghost use Rattle.fw_components.specs.Changes.{tables_without, given_found, found};
ghost use Rattle.fw_components.specs.Kept.{IsKept};
ghost use Rattle.fw_pipeline.specs.Rows.{view_answer, view_after, with_view, row_of_free, first_there};

use crate::staying::stays_without;
use fw_components::{Component, Registry, Unit, removals_are_seen};
use fw_heap::Region;
use fw_places::Places;
use fw_walks::{Sort, find, has_buffer, has_comp, is_used, ways};
use sof_base::Errno;
use stream_law::Join;

/// What is to be freed.
#[derive(Clone, Copy, Debug, PartialEq, Eq)]
pub enum Item {
    Component,
    Buffer,
    Pipeline,
}

/// A component, a buffer with its joins, or a pipeline is gone, and its piece is given back. Refused with -19 where the id names nothing,
/// -16 where the pipeline of a component or a buffer is complete, and -22 where it is not of this kind, where a component is joined,
/// where a buffer, or something of a pipeline's index, is on the way of a stream that has parameters, and where the way of such a stream
/// would be another without the buffer, or streams would not agree.
pub fn free_item(
    registry: &mut Registry,
    region: &mut Region,
    id: u32,
    what: Item,
) -> Result<(), Errno>
    requires { AllByRecursion (IsOfHome region.old.home) (all_of registry.old) }
    ensures answer { (f : FwState) → view_answer (view_by registry.new) result ≡ view_after (row_of_free what (with_view (view_by registry.old) f) id) }
    ensures done { OnOk result (registry.new ≡ tables_without id registry.old) }
    ensures holes { OnOk result (region.new.holes ≡ given_found (found registry.old id) region.old.holes) }
    ensures same { (region.new.home ≡ region.old.home) × (region.new.size ≡ region.old.size) × (region.new.usable ≡ region.old.usable) }
    ensures kept { OnErr result ((registry.new ≡ registry.old) × (region.new ≡ region.old)) }
{
    match what {
        Item::Component => free_component(registry, region, id),
        Item::Buffer => free_buffer(registry, region, id),
        Item::Pipeline => free_pipeline(registry, region, id),
    }
}

// A component that is joined to nothing is gone.
fn free_component(registry: &mut Registry, region: &mut Region, id: u32) -> Result<(), Errno>
    requires { AllByRecursion (IsOfHome region.old.home) (all_of registry.old) }
    ensures answer { (f : FwState) → view_answer (view_by registry.new) result ≡ view_after (comp_free (with_view (view_by registry.old) f) id) }
    ensures done { OnOk result (registry.new ≡ tables_without id registry.old) }
    ensures holes { OnOk result (region.new.holes ≡ given_found (found registry.old id) region.old.holes) }
    ensures same { (region.new.home ≡ region.old.home) × (region.new.size ≡ region.old.size) × (region.new.usable ≡ region.old.usable) }
    ensures kept { OnErr result ((registry.new ≡ registry.old) × (region.new ≡ region.old)) }
{
    if !is_used(registry, id) {
        return Err(Errno::NO_DEVICE);
    }
    if has_complete_pipe(registry, id) {
        return Err(Errno::BUSY);
    }
    if !has_comp(registry, id) || is_joined(registry, id) {
        return Err(Errno::INVALID);
    }
    removals_are_seen();
    registry.remove(id, region);
    Ok(())
}

// A buffer is gone with its joins.
fn free_buffer(registry: &mut Registry, region: &mut Region, id: u32) -> Result<(), Errno>
    requires { AllByRecursion (IsOfHome region.old.home) (all_of registry.old) }
    ensures answer { (f : FwState) → view_answer (view_by registry.new) result ≡ view_after (buffer_free (with_view (view_by registry.old) f) id) }
    ensures done { OnOk result (registry.new ≡ tables_without id registry.old) }
    ensures holes { OnOk result (region.new.holes ≡ given_found (found registry.old id) region.old.holes) }
    ensures same { (region.new.home ≡ region.old.home) × (region.new.size ≡ region.old.size) × (region.new.usable ≡ region.old.usable) }
    ensures kept { OnErr result ((registry.new ≡ registry.old) × (region.new ≡ region.old)) }
{
    if !is_used(registry, id) {
        return Err(Errno::NO_DEVICE);
    }
    if has_complete_pipe(registry, id) {
        return Err(Errno::BUSY);
    }
    if !has_buffer(registry, id) || is_held(registry, id) || !stays_without(registry, id) {
        return Err(Errno::INVALID);
    }
    removals_are_seen();
    registry.remove(id, region);
    Ok(())
}

// A pipeline is gone.
fn free_pipeline(registry: &mut Registry, region: &mut Region, id: u32) -> Result<(), Errno>
    requires { AllByRecursion (IsOfHome region.old.home) (all_of registry.old) }
    ensures answer { (f : FwState) → view_answer (view_by registry.new) result ≡ view_after (pipe_free (with_view (view_by registry.old) f) id) }
    ensures done { OnOk result (registry.new ≡ tables_without id registry.old) }
    ensures holes { OnOk result (region.new.holes ≡ given_found (found registry.old id) region.old.holes) }
    ensures same { (region.new.home ≡ region.old.home) × (region.new.size ≡ region.old.size) × (region.new.usable ≡ region.old.usable) }
    ensures kept { OnErr result ((registry.new ≡ registry.old) × (region.new ≡ region.old)) }
{
    if !is_used(registry, id) {
        return Err(Errno::NO_DEVICE);
    }
    let Some(index) = pipeline_index(registry, id) else {
        return Err(Errno::INVALID);
    };
    if is_index_held(registry, index) {
        return Err(Errno::INVALID);
    }
    removals_are_seen();
    registry.remove(id, region);
    Ok(())
}

// The index of the pipeline of an id.
fn pipeline_index(registry: &Registry, id: u32) -> Option<u32>
    ensures found { result ≡ option_map (λ p. p.index) (find (λ p. p.id == id) (graph_of registry.now).pipes) }
    ensures kept { IsKept registry.now }
{
    pipe_in(registry.pipes(), id)
}

// Whether the pipeline of what an id names is complete.
fn has_complete_pipe(registry: &Registry, id: u32) -> bool
    ensures complete { result ≡ is_of_complete_pipe (graph_of registry.now) id }
    ensures kept { IsKept registry.now }
{
    match index_at(registry, id) {
        Some(index) => is_complete(registry, index),
        None => false,
    }
}

/// The index of the pipeline of what an id names.
pub fn index_at(registry: &Registry, id: u32) -> Option<u32>
    ensures index { result ≡ index_of (graph_of registry.now) id }
    ensures kept { IsKept registry.now }
{
    let other = first_of(
        pipe_in(registry.buffers(), id),
        pipe_in(registry.pipes(), id),
    );
    first_of(pipe_in(registry.comps(), id), other)
}

// The first of two, if it is there, or the second.
fn first_of(first: Option<u32>, second: Option<u32>) -> Option<u32>
    ensures { result ≡ first_there first second }
{
    match first {
        Some(index) => Some(index),
        None => second,
    }
}

// The index that stands at the first of an id.
fn pipe_in(components: &[Component], id: u32) -> Option<u32>
    ensures { result ≡ option_map (λ c. c.pipe) (find (λ c. c.id == id) components.now) }
{
    match find(components, id) {
        Some(component) => Some(component.pipe),
        None => None,
    }
}

/// Whether the pipeline of an index is complete.
pub fn is_complete(registry: &Registry, index: u32) -> bool
    ensures { result ≡ is_whole (graph_of registry.now) index }
{
    any_complete(registry.pipes(), index)
}

// Whether one of these of an index is complete.
fn any_complete(pipes: &[Component], index: u32) -> bool
    ensures { result ≡ list_any (λ p. p.pipe == index && complete_by p.unit) pipes.now }
{
    pipes
        .iter()
        .any(|pipe| pipe.pipe == index && completes(&pipe.unit))
}

// Whether a unit is a pipeline that is complete.
fn completes(unit: &Unit) -> bool
    ensures { result ≡ complete_by unit.now }
{
    match unit {
        Unit::Pipeline { complete, .. } => *complete,
        _ => false,
    }
}

// Whether a join is at an id.
fn is_joined(registry: &Registry, id: u32) -> bool
    ensures { result ≡ list_any (is_touching id) (graph_of registry.now).joins }
{
    any_at(registry.joins(), id)
}

// The same of these joins.
fn any_at(joins: &[Join], id: u32) -> bool
    ensures { result ≡ list_any (is_touching id) joins.now }
{
    joins
        .iter()
        .any(|join| join.source == id || join.sink == id)
}

// Whether a buffer is on the way of a stream that has parameters.
fn is_held(registry: &Registry, id: u32) -> bool
    requires { names_edge (graph_of registry.now) id ≡ true }
    ensures { result ≡ is_held_by (graph_of registry.now) (streams_of registry.now) id }
{
    let along = registry.ways();
    let held = ways(registry, &along, Sort::Set);
    along.places().has(&held, id)
}

// Whether something of an index is.
fn is_index_held(registry: &Registry, index: u32) -> bool
    ensures { result ≡ is_index_held_by (graph_of registry.now) (streams_of registry.now) index }
{
    let along = registry.ways();
    let held = ways(registry, &along, Sort::Set);
    let places = along.places();
    has_held_comp(registry, index, places, &held) || has_held_buffer(registry, index, places, &held)
}

// Whether a component of an index is marked, as all is that is held.
fn has_held_comp(registry: &Registry, index: u32, places: &Places, held: &[bool]) -> bool
    requires ids { places.now.ids ≡ ids_of registry.now }
    requires size { length held.now ≡ 257 }
    requires marked { (x : ℕ) → is_among places.now.ids x ≡ true → is_marked places.now.ids held.now x ≡ is_held_by (graph_of registry.now) (streams_of registry.now) x }
    ensures { result ≡ list_any (λ c. c.pipe == index && is_held_by (graph_of registry.now) (streams_of registry.now) c.id) (graph_of registry.now).comps }
{
    any_marked(registry.comps(), index, places, held)
}

// Whether a buffer of an index is.
fn has_held_buffer(registry: &Registry, index: u32, places: &Places, held: &[bool]) -> bool
    requires ids { places.now.ids ≡ ids_of registry.now }
    requires size { length held.now ≡ 257 }
    requires marked { (x : ℕ) → is_among places.now.ids x ≡ true → is_marked places.now.ids held.now x ≡ is_held_by (graph_of registry.now) (streams_of registry.now) x }
    ensures { result ≡ list_any (λ e. e.pipe == index && is_held_by (graph_of registry.now) (streams_of registry.now) e.buffer) (graph_of registry.now).edges }
{
    any_marked(registry.buffers(), index, places, held)
}

// Whether one of these is of an index and marked.
fn any_marked(components: &[Component], index: u32, places: &Places, marks: &[bool]) -> bool
    requires { length marks.now ≡ 257 }
    ensures { result ≡ list_any (λ c. c.pipe == index && is_marked places.now.ids marks.now c.id) components.now }
{
    components.iter().any(|component| component.pipe == index && places.has(marks, component.id))
}
