// The ways of streams through the components, edges and joins of a registry, or of what one would be. Where no component splits there
// are no echo edges, and ways go along all joins.
ghost use Rattle.std.specs.Prelude.{◌≡◌, ◌&&◌, ◌+◌, ◌≤◌, ◌++◌, List, not, filter, length, map, take};
ghost use Rattle.std.specs.List.{list_any, AllByRecursion};
ghost use Rattle.arrayvec.specs.ArrayVec.{array_vec_len};
ghost use Rattle.stream_law.specs.declared.graph.Edge.{Edge};
ghost use Rattle.stream_law.specs.declared.graph.Pipe.{Pipe};
ghost use Rattle.stream_law.specs.Ways.{splits};
ghost use Rattle.fw_places.specs.WayCharts.{AreWaysOf};
ghost use Rattle.fw_places.specs.Walks.{IsListed};
ghost use Rattle.fw_units.specs.Units.{kind_by, comp_by, edge_by};
ghost use Rattle.fw_components.specs.Kept.{AreJoined};
ghost use Rattle.fw_components.specs.EchoEdges.{AreLinkable, linked_ids, kind_test, is_kind_at, AreReached, IsReachOf, is_echo_by, is_edge_in};

use crate::listing::{list, places_of};
use arrayvec::ArrayVec;
use fw_places::{Places, Ways};
use fw_units::{Component, Unit};
use stream_law::{Edge, Join};

// What echo edges ask of a kind: a playback's host, a capture's, a DAI that plays, or one that splits.
#[derive(Clone, Copy)]
pub(crate) enum KindSort {
    Play,
    Capture,
    DaiPlay,
    Split,
}

// Marks of what hosts of playbacks reach, of what reaches DAIs that play, and of what reaches hosts of captures.
#[derive(Drop)]
struct Reach {
    from_play: [bool; 257],
    to_dai: [bool; 257],
    to_capture: [bool; 257],
}

/// Those of these components and buffers, and of joins between these.
pub(crate) fn ways_over(comps: &[Component], buffers: &[Component], joins: &[Join]) -> Ways
    requires { AreJoined comps.now buffers.now joins.now }
    ensures { (pipes : List Pipe) → AreWaysOf (record { comps = map comp_by comps.now; edges = map edge_by buffers.now; pipes = pipes; joins = joins.now }) result }
{
    if any_split(comps) {
        let edges = edges_of(buffers);
        return ways_of(comps, edges.as_slice(), joins);
    }
    Ways::of(places_of(comps, buffers, joins), ArrayVec::new())
}

/// Those of these components and edges, and of joins between these.
pub(crate) fn ways_of(comps: &[Component], edges: &[Edge], joins: &[Join]) -> Ways
    requires { AreLinkable comps.now edges.now joins.now }
    ensures { (pipes : List Pipe) → AreWaysOf (record { comps = map comp_by comps.now; edges = edges.now; pipes = pipes; joins = joins.now }) result }
{
    let mut ids = ArrayVec::new();
    list(&mut ids, comps);
    list_edges(&mut ids, edges);
    let places = Places::of(ids, joins);
    let echoes = echoes_of(comps, edges, &places);
    let mut left = [Join { source: 0, sink: 0 }; 256];
    let count = leave_out(joins, echoes.as_slice(), &mut left);
    Ways::of(places.along(&left[..count]), echoes)
}

// Lists the ids of more edges.
fn list_edges(ids: &mut ArrayVec<u32, 256>, edges: &[Edge])
    requires { array_vec_len ids.old + length edges.now ≤ 256 }
    ensures { ids.new.items ≡ ids.old.items ++ map (λ e. e.buffer) edges.now }
{
    for edge in edges {
        ids.push(edge.buffer);
    }
}

/// The edges of buffers.
pub(crate) fn edges_of(buffers: &[Component]) -> ArrayVec<Edge, 128>
    requires { length buffers.now ≤ 128 }
    ensures { result.items ≡ map edge_by buffers.now }
{
    let mut edges = ArrayVec::new();
    for buffer in buffers {
        edges.push(edge_in(buffer));
    }
    edges
}

/// The edge of a buffer.
pub(crate) fn edge_in(buffer: &Component) -> Edge
    ensures { result ≡ edge_by buffer.now }
{
    let (size, source, sink) = match &buffer.unit {
        Unit::Buffer {
            size,
            source,
            sink,
            ..
        } => (*size, *source, *sink),
        _ => (0, None, None),
    };
    Edge {
        buffer: buffer.id,
        pipe: buffer.pipe,
        size,
        source,
        sink,
    }
}

// Whether a component splits.
fn any_split(comps: &[Component]) -> bool
    ensures { result ≡ list_any (λ c. splits (kind_by c.unit)) comps.now }
{
    comps
        .iter()
        .any(|comp| is_kind(&comp.unit, KindSort::Split))
}

// Whether a unit is of a sort.
fn is_kind(unit: &Unit, sort: KindSort) -> bool
    ensures { result ≡ kind_test sort (kind_by unit.now) }
{
    match sort {
        KindSort::Play => matches!(unit, Unit::Host { capture: false, .. }),
        KindSort::Capture => matches!(unit, Unit::Host { capture: true, .. }),
        KindSort::DaiPlay => matches!(unit, Unit::Dai { capture: false, .. }),
        KindSort::Split => matches!(unit, Unit::Demux { .. }),
    }
}

// Whether a component of an id is of a sort.
fn is_kind_at(comps: &[Component], sort: KindSort, id: u32) -> bool
    ensures { result ≡ is_kind_at comps.now sort id }
{
    comps
        .iter()
        .any(|comp| comp.id == id && is_kind(&comp.unit, sort))
}

// Marks what is reached from components of a sort, or what reaches these where walks go back.
fn reached_by(comps: &[Component], places: &Places, sort: KindSort, back: bool) -> [bool; 257]
    requires ids { (edges : List Edge) × (places.now.ids ≡ linked_ids comps.now edges) }
    requires listed { AllByRecursion (IsListed places.now.ids) places.now.joins }
    ensures { AreReached comps.now places.now sort back result }
{
    // For the proof alone: there are at most 256 ids.
    let _ids = places.ids();
    let mut marks = [false; 257];
    for comp in comps {
        if is_kind(&comp.unit, sort) {
            places.mark(&mut marks, comp.id);
        }
    }
    places.spread(&mut marks, back);
    marks
}

// The echo edges: each leaves a component that splits, is reached from a playback's host and reaches a DAI that plays, and enters one that
// is or reaches a capture's host, and neither is nor reaches a DAI that plays.
fn echoes_of(comps: &[Component], edges: &[Edge], places: &Places) -> ArrayVec<Edge, 128>
    requires few { length edges.now ≤ 128 }
    requires ids { places.now.ids ≡ linked_ids comps.now edges.now }
    requires listed { AllByRecursion (IsListed places.now.ids) places.now.joins }
    ensures { result.items ≡ filter (is_echo_by comps.now places.now) edges.now }
{
    let reach = Reach {
        from_play: reached_by(comps, places, KindSort::Play, false),
        to_dai: reached_by(comps, places, KindSort::DaiPlay, true),
        to_capture: reached_by(comps, places, KindSort::Capture, true),
    };
    let mut echoes = ArrayVec::new();
    for edge in edges {
        if is_echo(comps, places, &reach, edge) {
            echoes.push(*edge);
        }
    }
    echoes
}

// Whether an edge is one, by what reaches what.
fn is_echo(comps: &[Component], places: &Places, reach: &Reach, edge: &Edge) -> bool
    requires { IsReachOf comps.now places.now reach.now }
    ensures { result ≡ is_echo_by comps.now places.now edge.now }
{
    let Some(source) = edge.source else {
        return false;
    };
    let Some(sink) = edge.sink else {
        return false;
    };
    is_kind_at(comps, KindSort::Split, source)
        && places.has(&reach.from_play, source)
        && places.has(&reach.to_dai, source)
        && places.has(&reach.to_capture, sink)
        && !places.has(&reach.to_dai, sink)
}

// Writes the joins at none of these edges, and tells how many there are.
fn leave_out(joins: &[Join], edges: &[Edge], left: &mut [Join]) -> usize
    requires { length joins.now ≤ length left.old }
    ensures left { take result left.new ≡ filter (λ j. not (is_edge_in edges.now j.source) && not (is_edge_in edges.now j.sink)) joins.now }
    ensures few { result ≤ length joins.now }
    ensures size { length left.new ≡ length left.old }
{
    let mut count = 0;
    for join in joins {
        if !is_edge_in(edges, join.source) && !is_edge_in(edges, join.sink) {
            left[count] = *join;
            count += 1;
        }
    }
    count
}

// Whether an id is that of one of these edges.
fn is_edge_in(edges: &[Edge], id: u32) -> bool
    ensures { result ≡ is_edge_in edges.now id }
{
    edges.iter().any(|edge| edge.buffer == id)
}
