// Whether streams that touch have one rate and one number of channels.
ghost use Rattle.std.specs.Prelude.{◌≡◌, ◌&&◌, ◌||◌, ◌∷◌, [], length};
ghost use Rattle.std.specs.List.{list_all, list_any};
ghost use Rattle.stream_law.specs.declared.graph.Graph.{Graph};
ghost use Rattle.stream_law.specs.Ways.{touch, same_shape as alike};
ghost use Rattle.fw_places.specs.Walks.{is_marked, is_end_marked};
ghost use Rattle.fw_places.specs.WayCharts.{AreWaysOf};
ghost use Rattle.fw_pipeline.specs.Preparing.{shape_by, suits, AreHostsIn};

use fw_components::{Component, Unit};
use fw_places::Ways;
use fw_walks::captures;
use sof_base::Params;

/// The parameters that a host's stream would have.
#[derive(Clone, Copy)]
pub struct Given {
    pub host: u32,
    pub params: Params,
}

/// Whether each two of these suit each other, with parameters that one would have.
pub(crate) fn all_suit(comps: &[Component], ways: &Ways, given: Option<Given>) -> bool
    ensures { (g : Graph) → AreWaysOf g ways.now → AreHostsIn g comps.now → result ≡ list_all (λ c. list_all (λ d. suits g given c d) comps.now) comps.now }
{
    comps.iter().all(|one| suits_all(comps, ways, given, one))
}

/// Whether one suits each of these: one without parameters suits all.
pub fn suits_all(comps: &[Component], ways: &Ways, given: Option<Given>, one: &Component) -> bool
    ensures { (g : Graph) → AreWaysOf g ways.now → AreHostsIn g comps.now → AreHostsIn g (one.now ∷ []) → result ≡ list_all (λ d. suits g given one.now d) comps.now }
{
    if shape(one, given).is_none() {
        return true;
    }
    comps.iter().all(|other| suits_one(ways, given, one, other))
}

/// Whether two streams have one shape, or do not touch.
pub fn suits_one(ways: &Ways, given: Option<Given>, one: &Component, other: &Component) -> bool
    ensures { (g : Graph) → AreWaysOf g ways.now → AreHostsIn g (one.now ∷ other.now ∷ []) → result ≡ suits g given one.now other.now }
{
    let own = shape(one, given);
    let others = shape(other, given);
    if has_shape(own, others) {
        return true;
    }
    !touches(ways, one, other)
}

/// The parameters that a component's stream has or would have.
pub fn shape(component: &Component, given: Option<Given>) -> Option<Params>
    ensures { result ≡ shape_by given component.now }
{
    match &component.unit {
        Unit::Host { params, .. } => match given {
            Some(given) if given.host == component.id => Some(given.params),
            _ => *params,
        },
        _ => None,
    }
}

// One rate and one number of channels, where both are there.
fn has_shape(one: Option<Params>, other: Option<Params>) -> bool
    ensures { result ≡ alike one other }
{
    match one {
        Some(p) => match other {
            Some(q) => p.rate == q.rate && p.channels == q.channels,
            None => true,
        },
        None => true,
    }
}

// Whether the streams of two hosts touch.
fn touches(ways: &Ways, one: &Component, other: &Component) -> bool
    ensures { (g : Graph) → AreWaysOf g ways.now → AreHostsIn g (one.now ∷ other.now ∷ []) → result ≡ touch g one.now.id other.now.id }
{
    let first = ways.way(one.id, captures(&one.unit));
    let second = ways.way(other.id, captures(&other.unit));
    meets(ways, &first, &second)
}

// Whether what is marked first and what is marked second share something, or an echo edge leads from one to the other.
fn meets(ways: &Ways, first: &[bool], second: &[bool]) -> bool
    requires first { length first.now ≡ 257 }
    requires second { length second.now ≡ 257 }
    ensures { result ≡ (list_any (λ x. is_marked ways.now.ids first.now x && is_marked ways.now.ids second.now x) ways.now.ids || list_any (λ e. is_end_marked ways.now.ids first.now e.source && is_end_marked ways.now.ids second.now e.sink) ways.now.echoes || list_any (λ e. is_end_marked ways.now.ids second.now e.source && is_end_marked ways.now.ids first.now e.sink) ways.now.echoes) }
{
    ways.places().share(first, second) || ways.echo(first, second) || ways.echo(second, first)
}
