// All components and buffers by places, for walks along joins, and what streams have them on their way.
ghost use Rattle.std.specs.Prelude.{◌≡◌, ◌==◌, ◌+◌, ◌<◌, ◌≤◌, ◌++◌, IfSome, is_some, true, not, drop, filter, length, map, take};
ghost use Rattle.stream_law.specs.Order.{is_among};
ghost use Rattle.stream_law.specs.Ways.{is_running_phase, is_live_phase, live_params};
ghost use Rattle.arrayvec.specs.ArrayVec.{array_vec_len};
ghost use Rattle.fw_components.specs.Kept.{IsKept, AreJoined};
ghost use Rattle.fw_components.specs.Tables.{ids_of, graph_of, view_by};
ghost use Rattle.fw_components.specs.Changes.{can_join};
ghost use Rattle.fw_units.specs.Units.{edge_by};
ghost use Rattle.stream_law.specs.Joins.{joined_edge, with_join};
ghost use Rattle.mbox_link.specs.Step.{touches, without_edge};
ghost use Rattle.fw_places.specs.WayCharts.{AreWaysOf};
ghost use Rattle.fw_places.specs.Walks.{place_in};
ghost use Rattle.fw_components.specs.Tally.{passing};

use crate::echo_edges::{edge_in, edges_of, ways_of, ways_over};
use crate::registry::Registry;
use arrayvec::ArrayVec;
use fw_places::{Places, Ways};
use fw_units::Component;
use sof_base::Params;
use stream_law::{Edge, Join};

impl Registry {
    /// All components and buffers by places, and the joins between these.
    pub fn places(&self) -> Places
        ensures ids { result.ids ≡ ids_of self.now }
        ensures joins { result.joins ≡ self.now.joins }
        ensures kept { IsKept self.now }
    {
        places_of(self.comps(), self.buffers(), self.joins())
    }

    /// The ways of streams: all components and buffers by places, the joins at no echo edge, and the echo edges.
    pub fn ways(&self) -> Ways
        ensures ways { AreWaysOf (graph_of self.now) result }
        ensures kept { IsKept self.now }
    {
        ways_over(self.comps(), self.buffers(), self.joins())
    }

    /// The same with one more join.
    pub fn ways_with(&self, join: Join) -> Ways
        requires { can_join self.now join ≡ true }
        ensures { AreWaysOf (with_join (graph_of self.now) join) result }
    {
        let mut edges = edges_of(self.buffers());
        join_edges(edges.as_mut_slice(), join);
        let mut joins = [join; 256];
        let count = copy_joins(self.joins(), &mut joins);
        ways_of(self.comps(), edges.as_slice(), &joins[..count + 1])
    }

    /// The same without a buffer and its joins.
    pub fn ways_without(&self, buffer: u32) -> Ways
        ensures { AreWaysOf (without_edge buffer (graph_of self.now)) result }
    {
        let edges = edges_without(self.buffers(), buffer);
        let mut joins = [NO_JOIN; 256];
        let count = joins_without(self.joins(), buffer, &mut joins);
        ways_of(self.comps(), edges.as_slice(), &joins[..count])
    }

    /// How many Running streams have a component or a buffer on their way, and how many Running or Paused ones; no stream has anything
    /// else on its way.
    pub fn counts(&self, id: u32) -> (u32, u32)
        ensures { (result.0 ≡ passing is_running_phase self.now id) × (result.1 ≡ passing is_live_phase self.now id) }
    {
        match self.listed_at(id) {
            Some(at) => (self.tallies.running[at], self.tallies.live[at]),
            None => (0, 0),
        }
    }

    /// The parameters of the first stream that is Running or Paused and has a component or a buffer on its way.
    pub fn live_params(&self, id: u32) -> Option<Params>
        ensures { result ≡ live_params (view_by self.now) id }
    {
        match self.listed_at(id) {
            Some(at) => self.tallies.params[at],
            None => None,
        }
    }

    // The place of a component or a buffer among these.
    fn listed_at(&self, id: u32) -> Option<usize>
        ensures some { IfSome result (λ at. (at ≡ place_in (ids_of self.now) id) × (at < 256)) }
        ensures listed { is_some result ≡ is_among (ids_of self.now) id }
    {
        let Some(at) = self.find(id) else {
            return None;
        };
        let at = at as usize;
        let end = self.comps().len() + self.buffers().len();
        if at < end { Some(at) } else { None }
    }
}

/// Those of these components and buffers, and of joins between these.
pub(crate) fn places_of(comps: &[Component], buffers: &[Component], joins: &[Join]) -> Places
    requires { AreJoined comps.now buffers.now joins.now }
    ensures ids { result.ids ≡ map (λ c. c.id) comps.now ++ map (λ c. c.id) buffers.now }
    ensures joins { result.joins ≡ joins.now }
{
    let mut ids = ArrayVec::new();
    list(&mut ids, comps);
    list(&mut ids, buffers);
    Places::of(ids, joins)
}

// A join of nothing.
const NO_JOIN: Join = Join { source: 0, sink: 0 };

// The edges have the side joined that a join is at.
fn join_edges(edges: &mut [Edge], join: Join)
    ensures { edges.new ≡ map (joined_edge join) edges.old }
{
    for edge in edges.iter_mut() {
        join_edge(edge, join);
    }
}

// An edge has its side joined where a join is at it.
fn join_edge(edge: &mut Edge, join: Join)
    ensures { edge.new ≡ joined_edge join edge.old }
{
    if edge.buffer == join.source {
        edge.sink = Some(join.sink);
    } else if edge.buffer == join.sink {
        edge.source = Some(join.source);
    }
}

// Writes joins at the front, and tells how many they are.
fn copy_joins(joins: &[Join], copy: &mut [Join]) -> usize
    requires { length joins.now ≤ length copy.old }
    ensures copy { copy.new ≡ joins.now ++ drop (length joins.now) copy.old }
    ensures count { result ≡ length joins.now }
{
    let count = joins.len();
    let (front, _rest) = copy.split_at_mut(count);
    front.copy_from_slice(joins);
    count
}

// The edges of buffers but one.
fn edges_without(buffers: &[Component], id: u32) -> ArrayVec<Edge, 128>
    requires { length buffers.now ≤ 128 }
    ensures { result.items ≡ filter (λ e. not (e.buffer == id)) (map edge_by buffers.now) }
{
    let mut edges = ArrayVec::new();
    for buffer in buffers {
        if buffer.id != id {
            edges.push(edge_in(buffer));
        }
    }
    edges
}

// Writes the joins that are not at an id, and tells how many they are.
fn joins_without(joins: &[Join], id: u32, left: &mut [Join]) -> usize
    requires { length joins.now ≤ length left.old }
    ensures left { take result left.new ≡ filter (λ j. not (touches id j)) joins.now }
    ensures few { result ≤ length joins.now }
    ensures size { length left.new ≡ length left.old }
{
    let mut count = 0;
    for join in joins {
        if join.source != id && join.sink != id {
            left[count] = *join;
            count += 1;
        }
    }
    count
}

/// Lists the ids of more components.
pub(crate) fn list(ids: &mut ArrayVec<u32, 256>, components: &[Component])
    requires { array_vec_len ids.old + length components.now ≤ 256 }
    ensures { ids.new.items ≡ ids.old.items ++ map (λ c. c.id) components.now }
{
    for component in components {
        ids.push(component.id);
    }
}
