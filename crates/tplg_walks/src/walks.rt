// What is reached along the edges of a graph.
ghost use Rattle.std.specs.Prelude.{◌≡◌, ◌≤◌, ◌<◌, ◌↔◌, ◌==◌, ◌||◌, ◌++◌, [], ◌∷◌, ℕ, length, take, map, not, true, false, IfSome, IfNone};
ghost use Rattle.std.specs.Option.{option_map_or};
ghost use Rattle.stream_law.specs.Order as order;
ghost use Rattle.tplg_walks.specs.Cycles as law;
ghost use Rattle.tplg_walks.specs.Echoes as tests;
ghost use Rattle.tplg_walks.specs.Reach as reach;

use arrayvec::ArrayVec;
use stream_law::Edge;

/// Whether an id is one of these.
pub fn is_among(ids: &[u32], id: u32) -> bool
    ensures { result ≡ order.is_among ids.now id }
{
    ids.iter().any(|x| *x == id)
}

/// Whether an id is one of these, by its mark where it has one.
fn is_seen(seen: &[u32], marks: &[bool], id: u32) -> bool
    requires { reach.AreMarksOf seen.now marks.now }
    ensures { result ≡ order.is_among seen.now id }
{
    let place = id as usize;
    if place < marks.len() {
        marks[place]
    } else {
        is_among(seen, id)
    }
}

/// Adds an id, and its mark where it has one.
fn add(seen: &mut ArrayVec<u32, 128>, marks: &mut [bool], id: u32)
    requires room { length seen.old.items < 128 }
    requires marked { reach.AreMarksOf seen.old.items marks.old }
    ensures added { seen.new.items ≡ seen.old.items ++ id ∷ [] }
    ensures marked { reach.AreMarksOf seen.new.items marks.new }
{
    seen.push(id);
    let place = id as usize;
    if place < marks.len() {
        marks[place] = true;
    }
}

fn is_from(end: Option<u32>, from: u32, seen: &[u32], marks: &[bool]) -> bool
    requires { reach.AreMarksOf seen.now marks.now }
    ensures { result ≡ option_map_or (λ id. (id == from) || order.is_among seen.now id) end false }
{
    match end {
        None => false,
        Some(id) => id == from || is_seen(seen, marks, id),
    }
}

fn is_new(end: Option<u32>, seen: &[u32], marks: &[bool]) -> bool
    requires { reach.AreMarksOf seen.now marks.now }
    ensures { result ≡ option_map_or (λ id. not (order.is_among seen.now id)) end false }
{
    match end {
        None => false,
        Some(id) => !is_seen(seen, marks, id),
    }
}

/// The sink of an edge that leads from the start, or from what is seen, to what is not.
fn found(edges: &[Edge], from: u32, seen: &[u32], marks: &[bool]) -> Option<u32>
    requires { reach.AreMarksOf seen.now marks.now }
    ensures some { IfSome result (λ b. reach.IsFound edges.now from seen.now b) }
    ensures none { IfNone result (reach.IsSaturated edges.now from seen.now) }
{
    for e in edges {
        if is_from(e.source, from, seen, marks) && is_new(e.sink, seen, marks) {
            return e.sink;
        }
    }
    None
}

/// Adds the sink of an edge, where it leads from the start, or from what is seen, to what is not.
fn visit(edges: &[Edge], at: usize, from: u32, seen: &mut ArrayVec<u32, 128>, marks: &mut [bool])
    requires few { length edges.now ≤ 128 }
    requires within { at < length edges.now }
    requires seen { reach.AreSeen edges.now from seen.old.items }
    requires marked { reach.AreMarksOf seen.old.items marks.old }
    ensures seen { reach.AreSeen edges.now from seen.new.items }
    ensures marked { reach.AreMarksOf seen.new.items marks.new }
    ensures grown { length seen.old.items ≤ length seen.new.items }
{
    if let Some(id) = found(&edges[at..at + 1], from, seen.as_slice(), marks) {
        add(seen, marks, id);
    }
}

/// Goes over the edges once from the first on and once from the last back, and adds the sinks of those that lead on.
fn sweep(edges: &[Edge], from: u32, seen: &mut ArrayVec<u32, 128>, marks: &mut [bool])
    requires few { length edges.now ≤ 128 }
    requires seen { reach.AreSeen edges.now from seen.old.items }
    requires marked { reach.AreMarksOf seen.old.items marks.old }
    ensures seen { reach.AreSeen edges.now from seen.new.items }
    ensures marked { reach.AreMarksOf seen.new.items marks.new }
    ensures grown { length seen.old.items ≤ length seen.new.items }
{
    for at in 0..edges.len() {
        visit(edges, at, from, seen, marks);
        visit(edges, edges.len() - 1 - at, from, seen, marks);
    }
}

/// All components that are reached from one along one edge or more.
pub fn reached(edges: &[Edge], from: u32) -> ArrayVec<u32, 128>
    requires few { length edges.now ≤ 128 }
    ensures { (b : ℕ) → (order.is_among result.items b ≡ true) ↔ law.Reaches edges.now from b }
{
    let mut seen: ArrayVec<u32, 128> = ArrayVec::new();
    let mut marks = [false; 288];
    while let Some(id) = found(edges, from, seen.as_slice(), &marks) {
        add(&mut seen, &mut marks, id);
        sweep(edges, from, &mut seen, &mut marks);
    }
    seen
}

/// Turns edges about, into the front of a list.
fn turn(edges: &[Edge], turned: &mut [Edge])
    requires room { length edges.now ≤ length turned.old }
    ensures turned { take (length edges.now) turned.new ≡ map reach.turned edges.now }
    ensures same { length turned.new ≡ length turned.old }
{
    for k in 0..edges.len() {
        let edge = edges[k];
        turned[k] = Edge {
            buffer: edge.buffer,
            pipe: edge.pipe,
            size: edge.size,
            source: edge.sink,
            sink: edge.source,
        };
    }
}

/// All components from which one is reached along one edge or more.
pub fn reaching(edges: &[Edge], to: u32) -> ArrayVec<u32, 128>
    requires few { length edges.now ≤ 128 }
    ensures { (a : ℕ) → (order.is_among result.items a ≡ true) ↔ law.Reaches edges.now a to }
{
    let unjoined = Edge {
        buffer: 0,
        pipe: 0,
        size: 0,
        source: None,
        sink: None,
    };
    let mut turned = [unjoined; 128];
    turn(edges, &mut turned);
    reached(&turned[..edges.len()], to)
}

/// Whether one component is reached from another along one edge or more.
pub fn reaches(edges: &[Edge], from: u32, to: u32) -> bool
    requires few { length edges.now ≤ 128 }
    ensures walk { (result ≡ true) ↔ law.Reaches edges.now from to }
    ensures test { result ≡ tests.reaches edges.now from to }
{
    is_among(reached(edges, from).as_slice(), to)
}
