// Whether one join more is refused for what walks would reach: for a cycle, and for the way of a stream with parameters that would be
// another.
ghost use Rattle.std.specs.Prelude.{◌≡◌, ◌==◌, ◌||◌, ◌&&◌, not, true, false};
ghost use Rattle.std.specs.List.{list_any};
ghost use Rattle.stream_law.specs.Joins.{would_cycle, would_stay};
ghost use Rattle.mbox_link.specs.Step.{is_joined, takes_join};
ghost use Rattle.fw_components.specs.Tables.{graph_of, view_by};
ghost use Rattle.fw_components.specs.Kept.{IsKept};

use crate::staying::stays_with;
use fw_components::Registry;
use stream_law::Join;

/// Whether a join of a component and a buffer is refused for what walks would reach.
pub(crate) fn is_refused(registry: &Registry, source: u32, sink: u32) -> bool
    requires takes { takes_join (graph_of registry.now) source sink ≡ true }
    requires free { is_joined (graph_of registry.now) source sink ≡ false }
    ensures refused { result ≡ (would_cycle (graph_of registry.now) source sink || not (would_stay (view_by registry.now) source sink)) }
    ensures kept { IsKept registry.now }
{
    closes(registry, source, sink) || !stays_with(registry, Join { source, sink })
}

/// Whether a walk leads from the sink to the source already. While a graph is built, mostly no join goes on from the sink yet.
pub fn closes(registry: &Registry, source: u32, sink: u32) -> bool
    requires { takes_join (graph_of registry.now) source sink ≡ true }
    ensures cycle { result ≡ would_cycle (graph_of registry.now) source sink }
    ensures kept { IsKept registry.now }
{
    if !may_lead(registry.joins(), sink, source) {
        return false;
    }
    let places = registry.places();
    let from_sink = places.reached(sink, false);
    let _ = registry.joins();
    places.has(&from_sink, source)
}

// Whether a walk may lead from one id to another: they are one, or joins go on from the one and come to the other.
fn may_lead(joins: &[Join], from: u32, to: u32) -> bool
    ensures { result ≡ (from == to || (list_any (λ j. j.source == from) joins.now && list_any (λ j. j.sink == to) joins.now)) }
{
    from == to || (goes_on(joins, from) && is_entered(joins, to))
}

// Whether a join goes on from an id.
fn goes_on(joins: &[Join], from: u32) -> bool
    ensures { result ≡ list_any (λ j. j.source == from) joins.now }
{
    joins.iter().any(|join| join.source == from)
}

// Whether a join comes to an id.
fn is_entered(joins: &[Join], to: u32) -> bool
    ensures { result ≡ list_any (λ j. j.sink == to) joins.now }
{
    joins.iter().any(|join| join.sink == to)
}
