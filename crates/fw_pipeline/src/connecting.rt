// The row of a message that joins a component and a buffer.
ghost use Rattle.std.specs.Prelude.{◌≡◌, ◌||◌, OnErr, OnOk, true};
ghost use Rattle.stream_law.specs.State.{FwState};
ghost use Rattle.mbox_link.specs.Step.{connect as connect_row, is_joined as has_join, takes_join as takes_one_more, leads_in as goes_in, leads_out as goes_out, has_free_out as takes_out, has_free_in as takes_in, kind_at as named_kind};
ghost use Rattle.fw_components.specs.Tables.{view_by, graph_of};
ghost use Rattle.fw_components.specs.Changes.{tables_with_join};
ghost use Rattle.fw_pipeline.specs.Rows.{view_answer, view_after, with_view};

use crate::one_join::is_refused;
use fw_components::Registry;
use fw_walks::{
    count_ins, count_outs, has_buffer, has_comp, ins_of, is_used, kind_at, outs_of, sink_at,
    source_at,
};
use sof_base::Errno;

/// Joins a component and a buffer, either way round, last in order. Refused with -19 where an id names nothing, -16 where this side
/// of the buffer is joined, and -22 where they are not a component and a buffer, where the component takes no more, where a cycle would
/// arise, and where the way of a stream that has parameters would be another, or streams would not agree.
pub fn connect(registry: &mut Registry, source: u32, sink: u32) -> Result<(), Errno>
    ensures answer { (f : FwState) → view_answer (view_by registry.new) result ≡ view_after (connect_row (with_view (view_by registry.old) f) source sink) }
    ensures done { OnOk result (registry.new ≡ tables_with_join (record { source = source; sink = sink }) registry.old) }
    ensures kept { OnErr result (registry.new ≡ registry.old) }
{
    if !is_used(registry, source) || !is_used(registry, sink) {
        return Err(Errno::NO_DEVICE);
    }
    if is_joined(registry, source, sink) {
        return Err(Errno::BUSY);
    }
    if !takes_join(registry, source, sink) || is_refused(registry, source, sink) {
        return Err(Errno::INVALID);
    }
    registry.join(source, sink);
    Ok(())
}

// Whether the side of a buffer at which these ids would be joined is joined.
fn is_joined(registry: &Registry, source: u32, sink: u32) -> bool
    ensures { result ≡ has_join (graph_of registry.now) source sink }
{
    (leads_in(registry, source, sink) && source_at(registry, sink).is_some())
        || (leads_out(registry, source, sink) && sink_at(registry, source).is_some())
}

/// Whether the ids are a component and a buffer, and the component takes one more buffer there.
pub fn takes_join(registry: &Registry, source: u32, sink: u32) -> bool
    ensures { result ≡ takes_one_more (graph_of registry.now) source sink }
{
    (leads_in(registry, source, sink) && has_free_out(registry, source))
        || (leads_out(registry, source, sink) && has_free_in(registry, sink))
}

/// From a component into a buffer.
pub fn leads_in(registry: &Registry, source: u32, sink: u32) -> bool
    ensures { result ≡ goes_in (graph_of registry.now) source sink }
{
    has_comp(registry, source) && has_buffer(registry, sink)
}

/// From a buffer into a component.
pub fn leads_out(registry: &Registry, source: u32, sink: u32) -> bool
    ensures { result ≡ goes_out (graph_of registry.now) source sink }
{
    has_buffer(registry, source) && has_comp(registry, sink)
}

// Whether a component takes one more buffer out.
fn has_free_out(registry: &Registry, id: u32) -> bool
    ensures { result ≡ takes_out (graph_of registry.now) id (named_kind (graph_of registry.now) id) }
{
    match kind_at(registry, id) {
        Some(kind) => count_outs(registry, id) < outs_of(kind),
        None => false,
    }
}

// Whether a component takes one more buffer in.
fn has_free_in(registry: &Registry, id: u32) -> bool
    ensures { result ≡ takes_in (graph_of registry.now) id (named_kind (graph_of registry.now) id) }
{
    match kind_at(registry, id) {
        Some(kind) => count_ins(registry, id) < ins_of(kind),
        None => false,
    }
}
