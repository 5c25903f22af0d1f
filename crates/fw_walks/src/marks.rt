// Marks of hosts, of what is on the ways of their streams, and of what is Live.
ghost use Rattle.std.specs.Prelude.{◌≡◌, ◌==◌, ◌&&◌, ◌||◌, ℕ, true, false, length, slice_index_or};
ghost use Rattle.std.specs.List.{list_any, AllByRecursion};
ghost use Rattle.stream_law.specs.Ways.{live as is_live, on_way};
ghost use Rattle.stream_law.specs.Order.{is_among};
ghost use Rattle.fw_components.specs.Tables.{view_by, graph_of, streams_of};
ghost use Rattle.fw_walks.specs.Streams.{is_sort, is_host_of};
ghost use Rattle.fw_places.specs.Charts.{IsChartOf};
ghost use Rattle.fw_places.specs.WayCharts.{AreWaysOf};
ghost use Rattle.fw_places.specs.Walks.{is_marked};

use crate::kinds::captures;
use crate::streams::{Sort, has_stream, live};
use fw_components::{Component, Registry};
use fw_places::{Places, Ways};

/// Marks all that is on the way of a stream that is Running or Paused.
pub fn live_marks(registry: &Registry, places: &Places) -> [bool; 257]
    requires { IsChartOf (graph_of registry.now) places.now }
    ensures { (x : ℕ) → is_marked places.now.ids result x ≡ is_live (view_by registry.now) x }
{
    // For the proof alone, which takes from it what a registry keeps.
    let _comps = registry.comps();
    let ids = places.ids();
    let mut marks = [false; 257];
    for k in 0..ids.len() {
        marks[k] = live(registry, ids[k]);
    }
    marks
}

/// Marks all that is on the way of a stream of a sort.
pub fn ways(registry: &Registry, along: &Ways, sort: Sort) -> [bool; 257]
    requires { AreWaysOf (graph_of registry.now) along.now }
    ensures { (x : ℕ) → is_among along.now.ids x ≡ true → is_marked along.now.ids result x ≡ list_any (λ s. is_sort sort s && on_way (graph_of registry.now) s.host x) (streams_of registry.now) }
{
    let comps = registry.comps();
    let places = along.places();
    let plays = mark_hosts(comps, places, sort, false);
    let mut marks = along.of_hosts(&plays, false);
    let captures = mark_hosts(comps, places, sort, true);
    let behind = along.of_hosts(&captures, true);
    add(&mut marks, &behind);
    marks
}

/// Marks the hosts of playbacks, or of captures, whose streams are of a sort.
pub fn mark_hosts(comps: &[Component], places: &Places, sort: Sort, capture: bool) -> [bool; 257]
    requires { AllByRecursion (λ c. is_among places.now.ids c.id ≡ true) comps.now }
    ensures { (x : ℕ) → is_among places.now.ids x ≡ true → is_marked places.now.ids result x ≡ list_any (λ c. c.id == x && is_host_of sort capture c) comps.now }
{
    // For the proof alone: there are at most 256 ids.
    let _ids = places.ids();
    let mut marks = [false; 257];
    for comp in comps {
        if is_host_of(comp, sort, capture) {
            places.mark(&mut marks, comp.id);
        }
    }
    marks
}

// Whether a host of a playback, or of a capture, has a stream of a sort.
fn is_host_of(comp: &Component, sort: Sort, capture: bool) -> bool
    ensures { result ≡ is_host_of sort capture comp.now }
{
    has_stream(&comp.unit, sort)
        && if capture {
            captures(&comp.unit)
        } else {
            !captures(&comp.unit)
        }
}

// Marks what is marked in the second as well.
fn add(marks: &mut [bool], more: &[bool])
    requires { length marks.old ≡ length more.now }
    ensures size { length marks.new ≡ length marks.old }
    ensures each { (k : ℕ) → slice_index_or marks.new k false ≡ (slice_index_or marks.old k false || slice_index_or more.now k false) }
{
    for k in 0..marks.len() {
        if more[k] {
            marks[k] = true;
        }
    }
}
