// The rows of messages that start, stop, pause, release and free streams.
ghost use Rattle.std.specs.Prelude.{◌≡◌, ◌==◌, ◌&&◌, ◌≤◌, OnErr, OnOk, IfSome, true, Some, map, find, option_map, option_and_then, is_some};
ghost use Rattle.sof_base.specs.Rates.{is_rate};
ghost use Rattle.stream_law.specs.Seen.{ring_seen};
ghost use Rattle.stream_law.specs.State.{FwState};
ghost use Rattle.mbox_link.specs.Step.{has_kind, is_stream_phase, is_host as is_end_of_stream, kind_at as named_kind};
ghost use Rattle.fw_components.specs.Tables.{view_by, graph_of, streams_of, rings_of};
ghost use Rattle.fw_components.specs.Kept.{IsKept};
ghost use Rattle.fw_pipeline.specs.Rows.{view_answer, view_after, with_view, told_state};
ghost use Rattle.fw_components.specs.States.{AreOf, with_tables};
ghost use Rattle.fw_heap.specs.declared.run.Home.{Home};
ghost use Rattle.fw_pipeline.specs.Triggers.{triggered, leaves as is_left, params_of, left_by, IsTriggered};

use crate::phases::{Trigger, leaves, params_after, phase_after};
use crate::settling::{begin_each, end_each};
use fw_components::{Registry, Unit, settings_are_seen};
use fw_places::Places;
use fw_walks::{find, is_used, live_marks};
use sof_base::{Errno, Params};

/// A host's stream leaves its phase: a Prepared one is Running at `Start` and without parameters at `Free`, a Running or Paused one
/// is Prepared at `Stop`, a Running one is Paused at `Pause`, and a Paused one is Running at `Release`. What becomes Live begins with
/// the channels and the rate of the stream, and rings in which no frame may lie any more are empty. Refused with -19 where the id names nothing,
/// and -22 where it is no host or its stream is in another phase.
pub fn trigger(registry: &mut Registry, host: u32, what: Trigger) -> Result<(), Errno>
    ensures answer { (f : FwState) → view_answer (view_by registry.new) result ≡ view_after (triggered what (with_view (view_by registry.old) f) host) }
    ensures state { (f : FwState) → map (ring_seen (view_by registry.old)) (rings_of registry.old) ≡ rings_of registry.old → told_state registry.new f result ≡ triggered what (with_tables registry.old f) host }
    ensures done { OnOk result (IsTriggered what host registry.old registry.new) }
    ensures homes { (home : Home) → AreOf home registry.old → AreOf home registry.new }
    ensures kept { OnErr result (registry.new ≡ registry.old) }
{
    if !is_used(registry, host) {
        return Err(Errno::NO_DEVICE);
    }
    let Some(p) = left_at(registry, host, what) else {
        return Err(Errno::INVALID);
    };
    let places = registry.places();
    let before = live_marks(registry, &places);
    settings_are_seen();
    registry.set_stream(host, phase_after(what), params_after(what, p));
    let after = live_marks(registry, &places);
    begin_each(registry, &places, &before, &after, p);
    end_each(registry, &places, &after);
    Ok(())
}

// The parameters of a host's stream that is in a phase to leave.
fn left_at(registry: &Registry, host: u32, what: Trigger) -> Option<Params>
    ensures left { is_some result ≡ (has_kind is_end_of_stream (named_kind (graph_of registry.now) host) && is_stream_phase (is_left what) (option_map (λ s. s.phase) (find (λ s. s.host == host) (streams_of registry.now)))) }
    ensures params { IfSome result (λ p. (Some p ≡ params_of (view_by registry.now) host) × (((1 ≤ p.channels) × (p.channels ≤ 8)) × (is_rate p.rate ≡ true))) }
    ensures kept { IsKept registry.now }
{
    match find(registry.comps(), host) {
        Some(component) => left(&component.unit, what),
        None => None,
    }
}

// Those of a unit.
fn left(unit: &Unit, what: Trigger) -> Option<Params>
    ensures { result ≡ left_by what unit.now }
{
    match unit {
        Unit::Host { phase, params, .. } => { if leaves(what, *phase) { *params } else { None } }
        _ => None,
    }
}
