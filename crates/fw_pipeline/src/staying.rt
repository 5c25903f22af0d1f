// Whether the ways of streams stay where a graph changes.
ghost use Rattle.std.specs.Prelude.{◌≡◌, ◌&&◌, ◌||◌, ◌∷◌, [], not, true, length};
ghost use Rattle.std.specs.List.{list_any, list_all};
ghost use Rattle.stream_law.specs.declared.graph.Graph.{Graph};
ghost use Rattle.stream_law.specs.Joins.{stays as ways_stay, would_stay as ways_would_stay, has_stayed as way_has_stayed, same_test};
ghost use Rattle.mbox_link.specs.Step.{without_edge};
ghost use Rattle.fw_places.specs.Walks.{is_marked};
ghost use Rattle.fw_places.specs.WayCharts.{AreWaysOf};
ghost use Rattle.fw_components.specs.Changes.{can_join};
ghost use Rattle.fw_components.specs.Tables.{view_by, graph_of};
ghost use Rattle.fw_walks.specs.Streams.{is_sort, any_stream};
ghost use Rattle.fw_walks.specs.declared.streams.Sort.TheVariants as sorts;
ghost use Rattle.fw_pipeline.specs.Preparing.{AreHostsIn};

use crate::agreeing::all_suit;
use fw_components::{Component, Registry};
use fw_places::{Places, Ways};
use fw_walks::{Sort, captures, has_stream};
use stream_law::Join;

/// Whether the ways of streams that have parameters stay with one more join, and streams agree.
pub(crate) fn stays_with(registry: &Registry, join: Join) -> bool
    requires { can_join registry.now join ≡ true }
    ensures { result ≡ ways_would_stay (view_by registry.now) join.source join.sink }
{
    if !any_set(registry.comps()) {
        return true;
    }
    let new = registry.ways_with(join);
    stays(registry, &new)
}

/// Whether they stay without a buffer and its joins.
pub(crate) fn stays_without(registry: &Registry, buffer: u32) -> bool
    ensures { result ≡ ways_stay (view_by registry.now) (without_edge buffer (graph_of registry.now)) }
{
    if !any_set(registry.comps()) {
        return true;
    }
    let new = registry.ways_without(buffer);
    stays(registry, &new)
}

// Whether a stream has parameters. Where none has, nothing is to stay, and all agree.
fn any_set(comps: &[Component]) -> bool
    ensures { result ≡ list_any (λ c. any_stream (is_sort sorts.Set) 0 c.unit) comps.now }
{
    comps.iter().any(|comp| has_stream(&comp.unit, Sort::Set))
}

// Whether they stay in a graph of the same components and of these ways.
fn stays(registry: &Registry, new: &Ways) -> bool
    ensures { (g : Graph) → AreWaysOf g new.now → g.comps ≡ (graph_of registry.now).comps → result ≡ ways_stay (view_by registry.now) g }
{
    let old = registry.ways();
    let comps = registry.comps();
    if !have_stayed(comps, &old, new) {
        return false;
    }
    all_suit(comps, new, None)
}

// Whether the way of each stream of these hosts that has parameters holds in the new graph what it holds in the old one.
fn have_stayed(comps: &[Component], old: &Ways, new: &Ways) -> bool
    ensures { (g h : Graph) → AreWaysOf g old.now → AreWaysOf h new.now → AreHostsIn g comps.now → AreHostsIn h comps.now → result ≡ list_all (λ c. not (any_stream (is_sort sorts.Set) 0 c.unit) || way_has_stayed g h c.id) comps.now }
{
    comps.iter().all(|comp| may_stay(comp, old, new))
}

/// Whether the way of a host's stream holds in the new graph what it holds in the old one, if the stream has parameters.
pub fn may_stay(comp: &Component, old: &Ways, new: &Ways) -> bool
    ensures { (g h : Graph) → AreWaysOf g old.now → AreWaysOf h new.now → AreHostsIn g (comp.now ∷ []) → AreHostsIn h (comp.now ∷ []) → result ≡ (not (any_stream (is_sort sorts.Set) 0 comp.now.unit) || way_has_stayed g h comp.now.id) }
{
    if !has_stream(&comp.unit, Sort::Set) {
        return true;
    }
    has_stayed(comp, old, new)
}

// Whether the way of a host's stream does.
fn has_stayed(comp: &Component, old: &Ways, new: &Ways) -> bool
    ensures { (g h : Graph) → AreWaysOf g old.now → AreWaysOf h new.now → AreHostsIn g (comp.now ∷ []) → AreHostsIn h (comp.now ∷ []) → result ≡ way_has_stayed g h comp.now.id }
{
    let capture = captures(&comp.unit);
    let before = old.way(comp.id, capture);
    let after = new.way(comp.id, capture);
    all_same(old.places(), new.places(), &before, &after)
}

// Whether each id of both is marked before where it is marked after, and nowhere else.
fn all_same(old: &Places, new: &Places, before: &[bool], after: &[bool]) -> bool
    requires before { length before.now ≡ 257 }
    requires after { length after.now ≡ 257 }
    ensures { result ≡ (list_all (λ x. same_test (is_marked old.now.ids before.now x) (is_marked new.now.ids after.now x)) old.now.ids && list_all (λ x. same_test (is_marked old.now.ids before.now x) (is_marked new.now.ids after.now x)) new.now.ids) }
{
    are_same(old.ids(), old, new, before, after) && are_same(new.ids(), old, new, before, after)
}

// Whether each of these ids is marked before where it is marked after, and nowhere else.
fn are_same(ids: &[u32], old: &Places, new: &Places, before: &[bool], after: &[bool]) -> bool
    requires before { length before.now ≡ 257 }
    requires after { length after.now ≡ 257 }
    ensures { result ≡ list_all (λ x. same_test (is_marked old.now.ids before.now x) (is_marked new.now.ids after.now x)) ids.now }
{
    ids.iter()
        .all(|id| old.has(before, *id) == new.has(after, *id))
}
