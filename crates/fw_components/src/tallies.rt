// What streams have each component and buffer on their way.
ghost use Rattle.std.specs.Prelude.{◌≡◌, ◌==◌, ◌&&◌, ◌<◌, ◌≤◌, ◌+◌, ℕ, List, false, None, length, slice_index_or, if◌then◌else◌};
ghost use Rattle.std.specs.List.{list_any, AllByRecursion};
ghost use Rattle.stream_law.specs.declared.graph.Graph.{Graph};
ghost use Rattle.stream_law.specs.declared.stream.StreamView.{StreamView};
ghost use Rattle.stream_law.specs.Ways.{on_way, is_running_phase, is_live_phase, is_capture};
ghost use Rattle.fw_places.specs.WayCharts.{AreWaysOf};
ghost use Rattle.fw_units.specs.declared.component.Component.{Component};
ghost use Rattle.fw_components.specs.Kept.{AreJoined};
ghost use Rattle.fw_units.specs.Units.{kind_by, with_stream_by, streams_by};
ghost use Rattle.fw_components.specs.Tally.{IsTallied, AreTold, AreBare, IsSeenIn, has_phase, params_in as params_of_unit};

use crate::echo_edges::ways_over;
use fw_places::Ways;
use fw_units::{Component, Unit};
use sof_base::Params;
use stream_law::{Join, Phase};

/// By the place of each component and buffer how many Running streams have it on their way, how many Running or Paused ones, and the
/// parameters of the first of the latter.
#[derive(Drop)]
pub(crate) struct Tallies {
    pub(crate) running: [u32; 256],
    pub(crate) live: [u32; 256],
    pub(crate) params: [Option<Params>; 256],
}

impl Tallies {
    pub(crate) fn new() -> Tallies {
        Tallies {
            running: [0; 256],
            live: [0; 256],
            params: [None; 256],
        }
    }

    /// Counts all streams anew.
    pub(crate) fn recount(&mut self, comps: &[Component], buffers: &[Component], joins: &[Join])
        requires { AreJoined comps.now buffers.now joins.now }
        ensures { (pipes : List Component) → IsTallied (record { comps = comps.now; buffers = buffers.now; pipes = pipes; joins = joins.now }) self.new }
    {
        self.running = [0; 256];
        self.live = [0; 256];
        self.params = [None; 256];
        if !any_live(comps) {
            return;
        }
        let ways = ways_over(comps, buffers, joins);
        self.count_all(comps, &ways);
    }

    // Counts the stream of each host, from the last to the first, whose parameters so come last.
    fn count_all(&mut self, comps: &[Component], ways: &Ways)
        requires few { length comps.now ≤ 128 }
        requires bare { AreBare self.old }
        ensures { (g : Graph) → AreWaysOf g ways.now → AllByRecursion (IsSeenIn g) comps.now → AreTold (on_way g) ways.now.ids (streams_by comps.now) self.new }
    {
        let mut i = comps.len();
        while i > 0 {
            i -= 1;
            let comp = &comps[i];
            self.count(comp, ways);
        }
    }

    // Counts the stream of a host at all that is on its way, ahead of those that are counted.
    fn count(&mut self, comp: &Component, ways: &Ways)
        requires few { (k : ℕ) → (slice_index_or self.old.running k 0 ≤ 128) × (slice_index_or self.old.live k 0 ≤ 128) }
        ensures most { (k : ℕ) → (slice_index_or self.new.running k 0 ≤ slice_index_or self.old.running k 0 + 1) × (slice_index_or self.new.live k 0 ≤ slice_index_or self.old.live k 0 + 1) }
        ensures told { (g : Graph) (streams : List StreamView) → AreWaysOf g ways.now → IsSeenIn g comp.now → AreTold (on_way g) ways.now.ids streams self.old → AreTold (on_way g) ways.now.ids (with_stream_by comp.now.id comp.now.unit streams) self.new }
    {
        if !is_live(&comp.unit) {
            return;
        }
        let _places = ways.places();
        let marks = ways.way(comp.id, captures(&comp.unit));
        add(&mut self.live, &marks);
        note(&mut self.params, &marks, params_in(&comp.unit));
        if is_running(&comp.unit) {
            add(&mut self.running, &marks);
        }
    }
}

/// Whether a component of this id is a host whose stream is Running or Paused.
pub(crate) fn is_counted(comps: &[Component], id: u32) -> bool
    ensures { result ≡ list_any (λ c. c.id == id && has_phase is_live_phase c.unit) comps.now }
{
    comps
        .iter()
        .any(|comp| comp.id == id && is_live(&comp.unit))
}

/// Whether a phase is Running or Paused.
pub(crate) fn counts(phase: Phase) -> bool
    ensures { result ≡ is_live_phase phase }
{
    matches!(phase, Phase::Running | Phase::Paused)
}

// Whether a stream is Running or Paused.
fn any_live(comps: &[Component]) -> bool
    ensures { result ≡ list_any (λ c. has_phase is_live_phase c.unit) comps.now }
{
    comps.iter().any(|comp| is_live(&comp.unit))
}

// Adds one where a mark is.
fn add(tally: &mut [u32], marks: &[bool])
    requires sizes { (length tally.old ≡ 256) × (length marks.now ≡ 257) }
    requires few { (k : ℕ) → slice_index_or tally.old k 0 ≤ 128 }
    ensures size { length tally.new ≡ 256 }
    ensures each { (k : ℕ) → k < 256 → slice_index_or tally.new k 0 ≡ (if slice_index_or marks.now k false then slice_index_or tally.old k 0 + 1 else slice_index_or tally.old k 0) }
    ensures most { (k : ℕ) → slice_index_or tally.new k 0 ≤ slice_index_or tally.old k 0 + 1 }
{
    for k in 0..tally.len() {
        if marks[k] {
            tally[k] += 1;
        }
    }
}

// Notes parameters where a mark is.
fn note(params: &mut [Option<Params>], marks: &[bool], p: Option<Params>)
    requires sizes { (length params.old ≡ 256) × (length marks.now ≡ 257) }
    ensures size { length params.new ≡ 256 }
    ensures each { (k : ℕ) → k < 256 → slice_index_or params.new k None ≡ (if slice_index_or marks.now k false then p else slice_index_or params.old k None) }
{
    for k in 0..params.len() {
        if marks[k] {
            params[k] = p;
        }
    }
}

// Whether a unit is a host whose stream is Running or Paused.
fn is_live(unit: &Unit) -> bool
    ensures { result ≡ has_phase is_live_phase unit.now }
{
    matches!(unit, Unit::Host { phase, .. } if counts(*phase))
}

// Whether a unit is a host whose stream is Running.
fn is_running(unit: &Unit) -> bool
    ensures { result ≡ has_phase is_running_phase unit.now }
{
    matches!(
        unit,
        Unit::Host {
            phase: Phase::Running,
            ..
        }
    )
}

// Whether a unit is a capture's host.
fn captures(unit: &Unit) -> bool
    ensures { result ≡ is_capture (kind_by unit.now) }
{
    matches!(unit, Unit::Host { capture: true, .. })
}

// The parameters of a host's stream.
fn params_in(unit: &Unit) -> Option<Params>
    ensures { result ≡ params_of_unit unit.now }
{
    match unit {
        Unit::Host { params, .. } => *params,
        _ => None,
    }
}
