// What is made and unmade of pipelines, as lists of ids.
ghost use Rattle.std.specs.Prelude.{◌≡◌, ◌==◌, ◌+◌, ◌≤◌, ◌<◌, ◌++◌, [], length, map, filter, take};
ghost use Rattle.arrayvec.specs.ArrayVec.{array_vec_len};
ghost use Rattle.host_widgets.specs.Acts.{widget_words};
ghost use Rattle.tplg_plan.specs.Sound.{IsSound};
ghost use Rattle.host_dynamic.specs.Dynamic.{is_control_up};
ghost use Rattle.host_widgets.specs.UpActs as law;
ghost use Rattle.host_widgets.specs.Indices.{join_index};
ghost use Rattle.host_widgets.specs.Up as up;

use crate::ids::{edge_of, keep, list_buffers, list_comps};
use arrayvec::ArrayVec;
use host_widgets::{all_widgets, has, is_named, widget_index};
use sof_base::{Bounded, Name44};
use stream_law::{Graph, Join, Pipe};
use tplg_plan::Plan;

// ---- making

/// Whether the component of the control of this name is up; so of a name that no control has.
pub fn is_control_up(plan: &Plan, up: &[u32], name: &Name44) -> bool
    requires { IsSound plan.now }
    ensures { result ≡ is_control_up plan.now up.now name.now }
{
    for control in plan.controls.items() {
        if is_named(plan, name, control.comp) {
            return has(up, widget_index(plan, control.comp));
        }
    }
    true
}

// Leaves the widgets of an index.
fn keep_at(ids: &mut ArrayVec<u32, 288>, plan: &Plan, index: u32)
    ensures { ids.new.items ≡ filter (λ id. (widget_words plan.now id).pipe == index) ids.old.items }
{
    ids.retain(|id| widget_index(plan, *id) == index);
}

/// The widgets of the pipeline of an index, by id: NEW is sent for each.
pub fn widgets_at(plan: &Plan, index: u32) -> Bounded<u32, 288>
    requires { length plan.now.widgets ≤ 288 }
    ensures { result ≡ law.widgets_at plan.now index }
{
    let mut ids = all_widgets(plan);
    keep_at(&mut ids, plan, index);
    match Bounded::new(ids.as_slice()) {
        Some(same) => same,
        // Never so: there are at most 288.
        None => Bounded::empty(),
    }
}

// The index of the buffer of a join.
fn join_index(graph: &Graph, join: &Join) -> Option<u32>
    ensures { result ≡ join_index graph.now join.now }
{
    match edge_of(graph.edges.items(), join.source) {
        Some(edge) => Some(edge.pipe),
        None => match edge_of(graph.edges.items(), join.sink) {
            Some(edge) => Some(edge.pipe),
            None => None,
        },
    }
}

// Whether a join is at a buffer of this index.
fn is_join_at(graph: &Graph, index: u32, join: &Join) -> bool
    ensures { result ≡ up.is_join_at graph.now index join.now }
{
    match join_index(graph, join) {
        Some(other) => other == index,
        None => false,
    }
}

/// Lists the joins of the buffers of an index after those that are listed, in the graph's order, and tells how many are listed then: CONNECT
/// is sent for each.
pub fn joins_at(graph: &Graph, index: u32, list: &mut [Join], listed: usize) -> usize
    requires { listed + length graph.now.joins ≤ length list.old }
    ensures joins { take result list.new ≡ take listed list.old ++ up.buffer_joins graph.now index }
    ensures few { result ≤ listed + length graph.now.joins }
    ensures size { length list.new ≡ length list.old }
{
    let mut count = listed;
    for join in graph.joins.items() {
        if is_join_at(graph, index, join) {
            list[count] = *join;
            count += 1;
        }
    }
    count
}

// ---- unmaking

// Lists the ids of pipelines.
fn list_pipes(ids: &mut ArrayVec<u32, 288>, pipes: &[Pipe])
    requires { array_vec_len ids.old + length pipes.now ≤ 288 }
    ensures { ids.new.items ≡ ids.old.items ++ map (λ p. p.id) pipes.now }
{
    for pipe in pipes {
        ids.push(pipe.id);
    }
}

/// Of these ids first those of pipelines, then of buffers, then of components, each by id: PIPE_FREE, BUFFER_FREE or COMP_FREE is sent for
/// each.
pub fn unmade_order(graph: &Graph, made: &[u32]) -> Bounded<u32, 288>
    requires comps { length graph.now.comps ≤ 128 }
    requires edges { length graph.now.edges ≤ 128 }
    requires pipes { length graph.now.pipes ≤ 32 }
    ensures { result ≡ law.unmade_order graph.now made.now }
{
    let mut ids: ArrayVec<u32, 288> = ArrayVec::new();
    list_pipes(&mut ids, graph.pipes.items());
    list_buffers(&mut ids, graph.edges.items());
    list_comps(&mut ids, graph.comps.items());
    keep(&mut ids, made);
    match Bounded::new(ids.as_slice()) {
        Some(same) => same,
        // Never so: there are at most 288.
        None => Bounded::empty(),
    }
}
