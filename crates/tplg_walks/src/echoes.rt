// Echo edges, and the edges that are none.
ghost use Rattle.std.specs.Prelude.{◌≡◌, ◌≤◌, ◌&&◌, ◌||◌, not, length, take, false};
ghost use Rattle.std.specs.List.{list_any};
ghost use Rattle.std.specs.Option.{option_map_or};
ghost use Rattle.stream_law.specs.Order as order;
ghost use Rattle.stream_law.specs.Ways as ways;
ghost use Rattle.tplg_walks.specs.Cycles as cycles;
ghost use Rattle.tplg_walks.specs.Echoes as law;

use crate::walks::{is_among, reached, reaching};
use stream_law::{Comp, Edge, Kind};

fn is_play(kind: Kind) -> bool
    ensures { result ≡ ways.is_play kind }
{
    matches!(kind, Kind::HostPlay)
}

fn is_capture(kind: Kind) -> bool
    ensures { result ≡ ways.is_capture kind }
{
    matches!(kind, Kind::HostCapture)
}

fn is_dai_play(kind: Kind) -> bool
    ensures { result ≡ ways.is_dai_play kind }
{
    matches!(kind, Kind::DaiPlay(_))
}

fn splits(kind: Kind) -> bool
    ensures { result ≡ ways.splits kind }
{
    matches!(kind, Kind::Demux)
}

/// Whether this id is that of a host that plays.
pub fn plays_at(comps: &[Comp], id: u32) -> bool
    ensures { result ≡ cycles.plays_at comps.now id }
{
    comps.iter().any(|c| c.id == id && is_play(c.kind))
}

fn captures_at(comps: &[Comp], id: u32) -> bool
    ensures { result ≡ cycles.captures_at comps.now id }
{
    comps.iter().any(|c| c.id == id && is_capture(c.kind))
}

fn dai_plays_at(comps: &[Comp], id: u32) -> bool
    ensures { result ≡ law.is_sort_at comps.now ways.is_dai_play id }
{
    comps.iter().any(|c| c.id == id && is_dai_play(c.kind))
}

fn splits_at(comps: &[Comp], id: u32) -> bool
    ensures { result ≡ law.is_sort_at comps.now ways.splits id }
{
    comps.iter().any(|c| c.id == id && splits(c.kind))
}

/// Whether one of some ids is a host that captures.
pub fn any_captures(comps: &[Comp], ids: &[u32]) -> bool
    ensures { result ≡ list_any (λ c. ways.is_capture c.kind && order.is_among ids.now c.id) comps.now }
{
    comps
        .iter()
        .any(|c| is_capture(c.kind) && is_among(ids, c.id))
}

/// Whether one of some ids is a DAI that plays.
fn any_dai_plays(comps: &[Comp], ids: &[u32]) -> bool
    ensures { result ≡ list_any (λ c. ways.is_dai_play c.kind && order.is_among ids.now c.id) comps.now }
{
    comps
        .iter()
        .any(|c| is_dai_play(c.kind) && is_among(ids, c.id))
}

/// Whether one of some ids is a host that plays.
fn any_plays(comps: &[Comp], ids: &[u32]) -> bool
    ensures { result ≡ list_any (λ c. ways.is_play c.kind && order.is_among ids.now c.id) comps.now }
{
    comps.iter().any(|c| is_play(c.kind) && is_among(ids, c.id))
}

/// Whether an id reaches a DAI that plays.
fn reaches_dai(comps: &[Comp], edges: &[Edge], id: u32) -> bool
    requires { length edges.now ≤ 128 }
    ensures { result ≡ law.reaches_sort comps.now edges.now ways.is_dai_play id }
{
    any_dai_plays(comps, reached(edges, id).as_slice())
}

/// Whether an id is reached from a host that plays.
fn is_played(comps: &[Comp], edges: &[Edge], id: u32) -> bool
    requires { length edges.now ≤ 128 }
    ensures { result ≡ law.reached_by_sort comps.now edges.now ways.is_play id }
{
    any_plays(comps, reaching(edges, id).as_slice())
}

/// Whether a component splits, is reached from a host that plays and reaches a DAI that plays.
fn leaves_demux(comps: &[Comp], edges: &[Edge], id: u32) -> bool
    requires { length edges.now ≤ 128 }
    ensures { result ≡ law.leaves_demux comps.now edges.now id }
{
    splits_at(comps, id) && is_played(comps, edges, id) && reaches_dai(comps, edges, id)
}

/// Whether an id or one of those that it reaches is a host that captures, and none of them a DAI that plays.
fn leads_to_captures_alone(comps: &[Comp], ids: &[u32], id: u32) -> bool
    ensures { result ≡ ((law.is_sort_at comps.now ways.is_capture id || list_any (λ c. ways.is_capture c.kind && order.is_among ids.now c.id) comps.now) && not (law.is_sort_at comps.now ways.is_dai_play id || list_any (λ c. ways.is_dai_play c.kind && order.is_among ids.now c.id) comps.now)) }
{
    (captures_at(comps, id) || any_captures(comps, ids))
        && !(dai_plays_at(comps, id) || any_dai_plays(comps, ids))
}

/// Whether a component is or reaches a host that captures, and neither is nor reaches a DAI that plays.
fn enters_host_capture(comps: &[Comp], edges: &[Edge], id: u32) -> bool
    requires { length edges.now ≤ 128 }
    ensures { result ≡ law.enters_host_capture comps.now edges.now id }
{
    leads_to_captures_alone(comps, reached(edges, id).as_slice(), id)
}

fn leaves_demux_at(comps: &[Comp], edges: &[Edge], end: Option<u32>) -> bool
    requires { length edges.now ≤ 128 }
    ensures { result ≡ option_map_or (law.leaves_demux comps.now edges.now) end false }
{
    match end {
        None => false,
        Some(id) => leaves_demux(comps, edges, id),
    }
}

fn enters_host_capture_at(comps: &[Comp], edges: &[Edge], end: Option<u32>) -> bool
    requires { length edges.now ≤ 128 }
    ensures { result ≡ option_map_or (law.enters_host_capture comps.now edges.now) end false }
{
    match end {
        None => false,
        Some(id) => enters_host_capture(comps, edges, id),
    }
}

fn splits_from(comps: &[Comp], end: Option<u32>) -> bool
    ensures { result ≡ option_map_or (law.is_sort_at comps.now ways.splits) end false }
{
    match end {
        None => false,
        Some(id) => splits_at(comps, id),
    }
}

/// Whether an edge is an echo edge. Most are not even from a component that splits, and of the others most lead into no capture.
fn is_echo_edge(comps: &[Comp], edges: &[Edge], edge: Edge) -> bool
    requires { length edges.now ≤ 128 }
    ensures { result ≡ law.is_echo_edge comps.now edges.now edge }
{
    splits_from(comps, edge.source)
        && enters_host_capture_at(comps, edges, edge.sink)
        && leaves_demux_at(comps, edges, edge.source)
}

/// Puts the edges that are no echo edges at the front of a list, and answers how many they are.
pub fn keep_plain(comps: &[Comp], edges: &[Edge], plain: &mut [Edge]) -> usize
    requires few { length edges.now ≤ 128 }
    requires room { length edges.now ≤ length plain.old }
    ensures kept { take result plain.new ≡ law.plain_edges comps.now edges.now }
    ensures few { result ≤ length edges.now }
    ensures same { length plain.new ≡ length plain.old }
{
    let mut count = 0;
    for edge in edges {
        if !is_echo_edge(comps, edges, *edge) {
            plain[count] = *edge;
            count += 1;
        }
    }
    count
}
