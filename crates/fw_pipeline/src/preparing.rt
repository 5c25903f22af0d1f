// The row of a message that gives a stream parameters.
ghost use Rattle.std.specs.Prelude.{◌≡◌, ◌≤◌, ◌&&◌, ◌||◌, ℕ, OnErr, OnOk, not, map, true, Some, length};
ghost use Rattle.std.specs.List.{list_any, list_all};
ghost use Rattle.stream_law.specs.declared.stream.Phase.TheVariants as phases;
ghost use Rattle.stream_law.specs.Joins.{crosses as way_crosses};
ghost use Rattle.stream_law.specs.Ways.{on_way, agree, is_capture};
ghost use Rattle.stream_law.specs.State.{FwState};
ghost use Rattle.stream_law.specs.Seen.{ring_seen};
ghost use Rattle.stream_law.specs.Order.{is_among};
ghost use Rattle.mbox_link.specs.Step.{pcm_params, has_kind, goes as has_direction, kind_at as named_kind, is_way_ready as has_ready_way, is_ready_comp as is_ready, is_ready_edge as is_edge_ready, set_stream, is_refused_params};
ghost use Rattle.fw_units.specs.Units.{comp_by, edge_by, kind_by};
ghost use Rattle.fw_components.specs.Tables.{view_by, graph_of, streams_of, rings_of};
ghost use Rattle.fw_units.specs.Changes.{set_at};
ghost use Rattle.fw_components.specs.Kept.{IsKept};
ghost use Rattle.fw_components.specs.Tables.{ids_of};
ghost use Rattle.fw_places.specs.WayCharts.{AreWaysOf};
ghost use Rattle.fw_places.specs.Walks.{is_marked};
ghost use Rattle.fw_pipeline.specs.Rows.{view_answer, view_after, with_view, told_state};
ghost use Rattle.fw_components.specs.States.{with_tables};
ghost use Rattle.fw_pipeline.specs.Preparing.{is_moving_at};

use crate::agreeing::{Given, all_suit};
use crate::freeing::is_complete;
use fw_components::{Component, Registry, settings_are_seen};
use fw_places::{Places, Ways};
use fw_walks::{
    Sort, captures, count_ins, count_outs, fits, has_stream, is_used, kind_at, kind_of, mark_hosts,
    sink_in, source_in,
};
use sof_base::{Errno, Params, is_rate};
use stream_law::{Kind, Phase};

/// A host's stream is Prepared with these parameters. Refused with -19 where the id names nothing, and -22 where it is no host of this
/// direction, where its stream is Running or Paused, where the rate is none of a stream, where something on its way is not ready, where
/// some walk from a playback's host to a capture's goes along no echo edge, and where streams would no longer agree.
pub fn params(registry: &mut Registry, host: u32, direction: u32, p: Params) -> Result<(), Errno>
    requires { (1 ≤ p.channels) × (p.channels ≤ 8) }
    ensures answer { (f : FwState) → view_answer (view_by registry.new) result ≡ view_after (pcm_params (with_view (view_by registry.old) f) host direction p) }
    ensures state { (f : FwState) → map (ring_seen (view_by registry.old)) (rings_of registry.old) ≡ rings_of registry.old → told_state registry.new f result ≡ pcm_params (with_tables registry.old f) host direction p }
    ensures done { OnOk result (registry.new ≡ record { comps = map (set_at host phases.Prepared (Some p)) registry.old.comps; buffers = registry.old.buffers; pipes = registry.old.pipes; joins = registry.old.joins }) }
    ensures kept { OnErr result (registry.new ≡ registry.old) }
{
    if !is_used(registry, host) {
        return Err(Errno::NO_DEVICE);
    }
    if refuses(registry, host, direction, p) {
        return Err(Errno::INVALID);
    }
    settings_are_seen();
    registry.set_stream(host, Phase::Prepared, Some(p));
    Ok(())
}

// Whether these parameters are refused for a host's stream.
fn refuses(registry: &Registry, host: u32, direction: u32, p: Params) -> bool
    ensures refused { result ≡ is_refused_params (view_by registry.now) host direction p (is_moving_at registry.now.comps host) }
    ensures kept { IsKept registry.now }
{
    let ways = registry.ways();
    !goes_at(registry, host, direction)
        || moves(registry, host)
        || !is_rate(p.rate)
        || !is_way_ready(registry, &ways, host)
        || crosses(registry, &ways)
        || !agrees(registry, &ways, host, p)
}

/// Whether an id is that of a host of this direction.
pub fn goes_at(registry: &Registry, id: u32, direction: u32) -> bool
    ensures { result ≡ has_kind (λ kind. has_direction kind direction) (named_kind (graph_of registry.now) id) }
{
    match kind_at(registry, id) {
        Some(kind) => goes(kind, direction),
        None => false,
    }
}

// Whether a component is the host's end of a stream of this direction: 0 for playback and 1 for capture.
fn goes(kind: Kind, direction: u32) -> bool
    ensures { result ≡ has_direction kind direction }
{
    match kind {
        Kind::HostPlay => direction == 0,
        Kind::HostCapture => direction == 1,
        _ => false,
    }
}

// Whether the stream of a host is Running or Paused.
fn moves(registry: &Registry, host: u32) -> bool
    ensures { result ≡ is_moving_at registry.now.comps host }
{
    any_moving(registry.comps(), host)
}

// The same of one of these.
fn any_moving(comps: &[Component], host: u32) -> bool
    ensures { result ≡ is_moving_at comps.now host }
{
    comps.iter().any(|component| component.id == host && has_stream(&component.unit, Sort::Live))
}

// Whether all that is on the way of a host's stream is ready.
#[tactic(auto, unfolding(mbox_link::specs::StreamRows::is_way_ready))]
fn is_way_ready(registry: &Registry, ways: &Ways, host: u32) -> bool
    requires { AreWaysOf (graph_of registry.now) ways.now }
    ensures { result ≡ has_ready_way (graph_of registry.now) host }
{
    let marks = ways.way(host, captures_at(registry, host));
    let places = ways.places();
    has_ready_comps(registry, places, host, &marks)
        && has_ready_buffers(registry, places, host, &marks)
}

// Whether all components on its way, which is marked, are.
fn has_ready_comps(registry: &Registry, places: &Places, host: u32, marks: &[bool]) -> bool
    requires ids { places.now.ids ≡ ids_of registry.now }
    requires size { length marks.now ≡ 257 }
    requires marked { (x : ℕ) → is_among places.now.ids x ≡ true → is_marked places.now.ids marks.now x ≡ on_way (graph_of registry.now) host x }
    ensures { result ≡ list_all (λ c. not (on_way (graph_of registry.now) host c.id) || is_ready (graph_of registry.now) c) (graph_of registry.now).comps }
{
    are_comps_ready(registry, registry.comps(), places, marks)
}

// Whether all buffers on its way, which is marked, are.
fn has_ready_buffers(registry: &Registry, places: &Places, host: u32, marks: &[bool]) -> bool
    requires ids { places.now.ids ≡ ids_of registry.now }
    requires size { length marks.now ≡ 257 }
    requires marked { (x : ℕ) → is_among places.now.ids x ≡ true → is_marked places.now.ids marks.now x ≡ on_way (graph_of registry.now) host x }
    ensures { result ≡ list_all (λ e. not (on_way (graph_of registry.now) host e.buffer) || is_edge_ready (graph_of registry.now) e) (graph_of registry.now).edges }
{
    are_buffers_ready(registry, registry.buffers(), places, marks)
}

// Whether each of these components that is marked is ready.
fn are_comps_ready(
    registry: &Registry,
    comps: &[Component],
    places: &Places,
    marks: &[bool],
) -> bool
    requires { length marks.now ≡ 257 }
    ensures { result ≡ list_all (λ c. not (is_marked places.now.ids marks.now c.id) || is_ready (graph_of registry.now) (comp_by c)) comps.now }
{
    comps.iter().all(|comp| !places.has(marks, comp.id) || is_comp_ready(registry, comp))
}

// Whether each of these buffers that is marked is.
fn are_buffers_ready(
    registry: &Registry,
    buffers: &[Component],
    places: &Places,
    marks: &[bool],
) -> bool
    requires { length marks.now ≡ 257 }
    ensures { result ≡ list_all (λ c. not (is_marked places.now.ids marks.now c.id) || is_edge_ready (graph_of registry.now) (edge_by c)) buffers.now }
{
    buffers.iter().all(|buffer| !places.has(marks, buffer.id) || is_buffer_ready(registry, buffer))
}

/// Whether a component's pipeline is complete, and its buffers are as many as its kind has.
pub fn is_comp_ready(registry: &Registry, comp: &Component) -> bool
    ensures { result ≡ is_ready (graph_of registry.now) (comp_by comp.now) }
{
    is_complete(registry, comp.pipe)
        && fits(
            kind_of(&comp.unit),
            count_ins(registry, comp.id),
            count_outs(registry, comp.id),
        )
}

/// Whether a buffer's pipeline is complete, and both its sides are joined.
pub fn is_buffer_ready(registry: &Registry, buffer: &Component) -> bool
    ensures { result ≡ is_edge_ready (graph_of registry.now) (edge_by buffer.now) }
{
    is_complete(registry, buffer.pipe)
        && source_in(&buffer.unit).is_some()
        && sink_in(&buffer.unit).is_some()
}

/// Whether an id is that of a capture's host.
pub fn captures_at(registry: &Registry, id: u32) -> bool
    ensures { result ≡ has_kind is_capture (named_kind (graph_of registry.now) id) }
{
    match kind_at(registry, id) {
        Some(kind) => matches!(kind, Kind::HostCapture),
        None => false,
    }
}

// Whether some walk from a playback's host to a capture's goes along no echo edge: one walk from the hosts of all playbacks, so that the
// number of walks does not grow with that of hosts.
fn crosses(registry: &Registry, ways: &Ways) -> bool
    requires { AreWaysOf (graph_of registry.now) ways.now }
    ensures { result ≡ way_crosses (graph_of registry.now) }
{
    let comps = registry.comps();
    let hosts = mark_hosts(comps, ways.places(), Sort::All, false);
    let marks = ways.of_hosts(&hosts, false);
    any_capture(comps, ways.places(), &marks)
}

// Whether a capture's host is marked.
fn any_capture(comps: &[Component], places: &Places, marks: &[bool]) -> bool
    requires { length marks.now ≡ 257 }
    ensures { result ≡ list_any (λ c. is_capture (kind_by c.unit) && is_marked places.now.ids marks.now c.id) comps.now }
{
    comps
        .iter()
        .any(|host| captures(&host.unit) && places.has(marks, host.id))
}

// Whether streams agree once a host's stream has these parameters.
fn agrees(registry: &Registry, ways: &Ways, host: u32, p: Params) -> bool
    requires { AreWaysOf (graph_of registry.now) ways.now }
    ensures { result ≡ agree (record { graph = graph_of registry.now; streams = map (set_stream host phases.Prepared (Some p)) (streams_of registry.now) }) }
{
    settings_are_seen();
    all_suit(registry.comps(), ways, Some(Given { host, params: p }))
}
