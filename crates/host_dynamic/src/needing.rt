// Which pipelines a stream needs: those of all that walks lead to from its host, or to it, and what these bring.
ghost use Rattle.std.specs.Prelude.{◌≡◌, ◌↔◌, ◌==◌, ◌<◌, ℕ, Bool, None, Some, ⊤, true, false, length, find, slice_index_or, option_copied, option_and_then};
ghost use Rattle.std.specs.List.{list_any, AllByRecursion};
ghost use Rattle.stream_law.specs.Ways.{is_capture as captures, is_of, splits};
ghost use Rattle.stream_law.specs.Order.{is_among};
ghost use Rattle.tplg_plan.specs.Sound.{IsSound};
ghost use Rattle.host_widgets.specs.Indices as indices;
ghost use Rattle.host_widgets.specs.Need as need;
ghost use Rattle.host_dynamic.specs.Noting as law;
ghost use Rattle.host_dynamic.specs.Spreading as spreading;

use crate::ids::{comp_of, keep};
use arrayvec::ArrayVec;
use host_widgets::{all_indices, has};
use stream_law::{Comp, Edge, Graph, Join, Kind, Pipe};
use tplg_plan::Plan;

// ---- what ids name

// Whether an id is that of a capture stream's host.
fn is_capture(graph: &Graph, id: u32) -> bool
    ensures { result ≡ is_of graph.now captures id }
{
    match comp_of(graph.comps.items(), id) {
        Some(comp) => matches!(comp.kind, Kind::HostCapture),
        None => false,
    }
}

// Whether a component splits.
fn splits(comp: &Comp) -> bool
    ensures { result ≡ splits comp.now.kind }
{
    matches!(comp.kind, Kind::Demux)
}

// ---- walks

// The end of a join that walks come to first, and the one that they come to then.
fn near(join: &Join, back: bool) -> u32
    ensures { result ≡ law.walk_from back join.now }
{
    if back { join.sink } else { join.source }
}

fn far(join: &Join, back: bool) -> u32
    ensures { result ≡ law.walk_to back join.now }
{
    if back { join.source } else { join.sink }
}

// Whether an id is marked.
fn is_marked(marks: &[bool; 288], id: u32) -> bool
    ensures { result ≡ slice_index_or marks.now id false }
{
    match marks.get(id as usize) {
        Some(mark) => *mark,
        None => false,
    }
}

// Whether a join leads from what is marked to what is not.
fn leads_on(join: &Join, marks: &[bool; 288], back: bool) -> bool
    ensures { result ≡ law.is_unwalked marks.now back join.now }
{
    is_marked(marks, near(join, back)) && !is_marked(marks, far(join, back))
}

// The first of these joins that does.
fn next_join<'a>(joins: &'a [Join], marks: &[bool; 288], back: bool) -> Option<&'a Join>
    ensures { option_copied result ≡ find (law.is_unwalked marks.now back) joins.now }
{
    joins.iter().find(|join| leads_on(join, marks, back))
}

// Marks along a join.
fn pass_join(join: &Join, marks: &mut [bool; 288], back: bool)
    requires size { length marks.old ≡ 288 }
    requires join { law.IsLowJoin join.now }
    ensures { marks.new ≡ spreading.passed back join.now marks.old }
{
    if leads_on(join, marks, back) {
        marks[far(join, back) as usize] = true;
    }
}

// Marks along all joins, in one pass.
fn pass(graph: &Graph, marks: &mut [bool; 288], back: bool)
    requires size { length marks.old ≡ 288 }
    requires joins { AllByRecursion law.IsLowJoin graph.now.joins }
    ensures size { length marks.new ≡ 288 }
    ensures kept { spreading.AreKept marks.old marks.new }
    ensures sound { (p : ℕ → Bool) → spreading.AllAllowed graph.now back p marks.old → spreading.AllAllowed graph.now back p marks.new }
{
    for join in graph.joins.items() {
        pass_join(join, marks, back);
    }
}

// Marks all that walks lead to from what is marked, or all that they lead to it from where they go back.
fn walk(graph: &Graph, marks: &mut [bool; 288], back: bool)
    requires size { length marks.old ≡ 288 }
    requires joins { AllByRecursion law.IsLowJoin graph.now.joins }
    ensures size { length marks.new ≡ 288 }
    ensures kept { spreading.AreKept marks.old marks.new }
    ensures sound { (p : ℕ → Bool) → spreading.AllAllowed graph.now back p marks.old → spreading.AllAllowed graph.now back p marks.new }
    ensures closed { find (law.is_unwalked marks.new back) graph.now.joins ≡ None }
{
    pass(graph, marks, back);
    while let Some(join) = next_join(graph.joins.items(), marks, back) {
        marks[far(join, back) as usize] = true;
        pass(graph, marks, back);
    }
}

// ---- the indices of ids

// An id has an index, unless it has one.
fn put_index(table: &mut [Option<u32>; 288], id: u32, index: u32)
    requires size { length table.old ≡ 288 }
    requires id { id < 288 }
    ensures { table.new ≡ spreading.put_index id index table.old }
{
    if table[id as usize].is_none() {
        table[id as usize] = Some(index);
    }
}

// The index of each component and buffer, by its id.
fn index_table(graph: &Graph) -> [Option<u32>; 288]
    requires comps { AllByRecursion (λ c. c.id < 288) graph.now.comps }
    requires edges { AllByRecursion (λ e. e.buffer < 288) graph.now.edges }
    ensures { spreading.IsTable graph.now result }
{
    let mut table = [None; 288];
    for comp in graph.comps.items() {
        put_index(&mut table, comp.id, comp.pipe);
    }
    for edge in graph.edges.items() {
        put_index(&mut table, edge.buffer, edge.pipe);
    }
    table
}

fn at(table: &[Option<u32>; 288], id: u32) -> Option<u32>
    ensures { result ≡ slice_index_or table.now id None }
{
    match table.get(id as usize) {
        Some(index) => *index,
        None => None,
    }
}

fn at_end(table: &[Option<u32>; 288], end: Option<u32>) -> Option<u32>
    ensures { result ≡ option_and_then (λ id. slice_index_or table.now id None) end }
{
    match end {
        Some(id) => at(table, id),
        None => None,
    }
}

// ---- what is noted

// Notes an index, where there is one and it is not noted.
fn note_at(needed: &mut ArrayVec<u32, 32>, index: Option<u32>)
    requires { (i : ℕ) → index ≡ Some i → is_among needed.old.items i ≡ false → length needed.old.items < 32 }
    ensures { needed.new.items ≡ spreading.with_at index needed.old.items }
{
    match index {
        Some(i) => {
            if !has(needed.as_slice(), i) {
                needed.push(i);
            }
        }
        None => {}
    }
}

// The index of what is marked is noted.
fn note_mark(
    plan: &Plan,
    table: &[Option<u32>; 288],
    marks: &[bool; 288],
    id: u32,
    needed: &mut ArrayVec<u32, 32>,
)
    requires plan { IsSound plan.now }
    requires table { spreading.IsTable plan.now.graph table.now }
    requires once { spreading.AreOnceNoted plan.now.graph needed.old.items }
    ensures { needed.new.items ≡ spreading.mark_noted plan.now.graph marks.now id needed.old.items }
{
    if is_marked(marks, id) {
        let index = at(table, id);
        note_at(needed, index);
    }
}

// The indices of all that is marked are noted.
fn note_marked(
    plan: &Plan,
    table: &[Option<u32>; 288],
    marks: &[bool; 288],
    needed: &mut ArrayVec<u32, 32>,
)
    requires plan { IsSound plan.now }
    requires table { spreading.IsTable plan.now.graph table.now }
    requires once { spreading.AreOnceNoted plan.now.graph needed.old.items }
    requires size { length marks.now ≡ 288 }
    ensures more { spreading.NotesMore plan.now.graph (λ p. (x : ℕ) → slice_index_or marks.now x false ≡ true → need.HasAt p (indices.index_at plan.now.graph x)) needed.old.items needed.new.items }
    ensures marked { (x : ℕ) → slice_index_or marks.now x false ≡ true → need.HasAt (is_among needed.new.items) (indices.index_at plan.now.graph x) }
{
    for id in 0..288u32 {
        note_mark(plan, table, marks, id, needed);
    }
}

// A pipeline that is noted brings that of the component that schedules it.
fn note_scheduler(
    plan: &Plan,
    table: &[Option<u32>; 288],
    pipe: &Pipe,
    needed: &mut ArrayVec<u32, 32>,
)
    requires plan { IsSound plan.now }
    requires table { spreading.IsTable plan.now.graph table.now }
    requires once { spreading.AreOnceNoted plan.now.graph needed.old.items }
    ensures { needed.new.items ≡ spreading.scheduler_noted plan.now.graph pipe.now needed.old.items }
{
    if has(needed.as_slice(), pipe.index) {
        let index = at(table, pipe.sched);
        note_at(needed, index);
    }
}

// So does each.
fn note_schedulers(plan: &Plan, table: &[Option<u32>; 288], needed: &mut ArrayVec<u32, 32>)
    requires plan { IsSound plan.now }
    requires table { spreading.IsTable plan.now.graph table.now }
    requires once { spreading.AreOnceNoted plan.now.graph needed.old.items }
    ensures more { spreading.NotesMore plan.now.graph (λ p. ⊤) needed.old.items needed.new.items }
    ensures brought { AllByRecursion (spreading.BringsScheduler plan.now.graph needed.old.items needed.new.items) plan.now.graph.pipes }
{
    for pipe in plan.graph.pipes.items() {
        note_scheduler(plan, table, pipe, needed);
    }
}

// A buffer of one brings those of its source and its sink.
fn note_source(plan: &Plan, table: &[Option<u32>; 288], edge: &Edge, needed: &mut ArrayVec<u32, 32>)
    requires plan { IsSound plan.now }
    requires table { spreading.IsTable plan.now.graph table.now }
    requires once { spreading.AreOnceNoted plan.now.graph needed.old.items }
    ensures { needed.new.items ≡ spreading.end_noted plan.now.graph edge.now.pipe edge.now.source needed.old.items }
{
    if has(needed.as_slice(), edge.pipe) {
        let index = at_end(table, edge.source);
        note_at(needed, index);
    }
}

fn note_sink(plan: &Plan, table: &[Option<u32>; 288], edge: &Edge, needed: &mut ArrayVec<u32, 32>)
    requires plan { IsSound plan.now }
    requires table { spreading.IsTable plan.now.graph table.now }
    requires once { spreading.AreOnceNoted plan.now.graph needed.old.items }
    ensures { needed.new.items ≡ spreading.end_noted plan.now.graph edge.now.pipe edge.now.sink needed.old.items }
{
    if has(needed.as_slice(), edge.pipe) {
        let index = at_end(table, edge.sink);
        note_at(needed, index);
    }
}

// So does each.
fn note_ends(plan: &Plan, table: &[Option<u32>; 288], needed: &mut ArrayVec<u32, 32>)
    requires plan { IsSound plan.now }
    requires table { spreading.IsTable plan.now.graph table.now }
    requires once { spreading.AreOnceNoted plan.now.graph needed.old.items }
    ensures more { spreading.NotesMore plan.now.graph (λ p. ⊤) needed.old.items needed.new.items }
    ensures brought { AllByRecursion (spreading.BringsEnds plan.now.graph needed.old.items needed.new.items) plan.now.graph.edges }
{
    for edge in plan.graph.edges.items() {
        note_source(plan, table, edge, needed);
        note_sink(plan, table, edge, needed);
    }
}

// A component that splits is where walks begin, where its index is noted.
fn mark_split(comp: &Comp, needed: &[u32], marks: &mut [bool; 288])
    requires size { length marks.old ≡ 288 }
    requires id { comp.now.id < 288 }
    ensures { marks.new ≡ spreading.split_marked needed.now comp.now marks.old }
{
    if splits(comp) && has(needed, comp.pipe) {
        marks[comp.id as usize] = true;
    }
}

// So is each.
fn mark_splits(graph: &Graph, needed: &[u32], marks: &mut [bool; 288])
    requires size { length marks.old ≡ 288 }
    requires comps { AllByRecursion (λ c. c.id < 288) graph.now.comps }
    ensures size { length marks.new ≡ 288 }
    ensures kept { spreading.AreKept marks.old marks.new }
    ensures marked { AllByRecursion (spreading.IsSplitMarked needed.now marks.new) graph.now.comps }
    ensures sound { (back : Bool) (p : ℕ → Bool) → need.HasBrought graph.now p → spreading.HasNoted p needed.now → spreading.AllAllowed graph.now back p marks.old → spreading.AllAllowed graph.now back p marks.new }
{
    for comp in graph.comps.items() {
        mark_split(comp, needed, marks);
    }
}

// All that is marked is walked from, and what that brings is noted.
fn spread(
    plan: &Plan,
    table: &[Option<u32>; 288],
    onward: &mut [bool; 288],
    back: &mut [bool; 288],
    needed: &mut ArrayVec<u32, 32>,
)
    requires plan { IsSound plan.now }
    requires table { spreading.IsTable plan.now.graph table.now }
    requires once { spreading.AreOnceNoted plan.now.graph needed.old.items }
    requires onward { length onward.old ≡ 288 }
    requires back { length back.old ≡ 288 }
    ensures onward { length onward.new ≡ 288 }
    ensures back { length back.new ≡ 288 }
    ensures once { spreading.AreOnceNoted plan.now.graph needed.new.items }
    ensures step { spreading.SpreadStep plan.now.graph onward.old back.old needed.old.items onward.new back.new needed.new.items }
{
    mark_splits(&plan.graph, needed.as_slice(), onward);
    mark_splits(&plan.graph, needed.as_slice(), back);
    walk(&plan.graph, onward, false);
    walk(&plan.graph, back, true);
    note_marked(plan, table, onward, needed);
    note_marked(plan, table, back, needed);
    note_ends(plan, table, needed);
    note_schedulers(plan, table, needed);
}

// ---- all that streams need

// Marks where the walks of a host's stream begin.
pub fn mark_host(graph: &Graph, host: u32, onward: &mut [bool; 288], back: &mut [bool; 288])
    requires host { host < 288 }
    requires onward { length onward.old ≡ 288 }
    requires back { length back.old ≡ 288 }
    ensures onward { onward.new ≡ spreading.host_onward graph.now host onward.old }
    ensures back { back.new ≡ spreading.host_back graph.now host back.old }
{
    if is_capture(graph, host) {
        back[host as usize] = true;
    } else {
        onward[host as usize] = true;
    }
}

// The indices of all that walks from these marks lead to, and of all that these bring, each once.
pub fn needed_from(
    plan: &Plan,
    onward: &mut [bool; 288],
    back: &mut [bool; 288],
) -> ArrayVec<u32, 32>
    requires plan { IsSound plan.now }
    requires onward { length onward.old ≡ 288 }
    requires back { length back.old ≡ 288 }
    ensures least { (p : ℕ → Bool) → spreading.IsClosedOver plan.now.graph onward.old back.old p → spreading.HasNoted p result.items }
    ensures enough { spreading.IsClosedOver plan.now.graph onward.old back.old (is_among result.items) }
{
    let table = index_table(&plan.graph);
    let mut needed: ArrayVec<u32, 32> = ArrayVec::new();
    let mut more = true;
    while more {
        let before = needed.len();
        spread(plan, &table, onward, back, &mut needed);
        more = before < needed.len();
    }
    needed
}

/// The indices of the pipelines that a host's stream needs, by the ids of these pipelines: those of all on its way, and with them those
/// of the components that schedule them, of the ends of their buffers, and of all that a demux reaches or is reached from; and no more.
/// They are at most 32. It takes no memory.
pub fn need_of(plan: &Plan, host: u32) -> ArrayVec<u32, 32>
    requires plan { IsSound plan.now }
    requires host { list_any (λ s. s.host == host) plan.now.streams ≡ true }
    ensures need { result.items ≡ need.need_in plan.now.graph host }
    ensures least { (i : ℕ) → (is_among result.items i ≡ true) ↔ need.IsNeeded plan.now.graph host i }
{
    let mut onward = [false; 288];
    let mut back = [false; 288];
    mark_host(&plan.graph, host, &mut onward, &mut back);
    let needed = needed_from(plan, &mut onward, &mut back);
    let mut list = all_indices(plan.graph.pipes.items());
    keep(&mut list, needed.as_slice());
    list
}
