// The rules that test counts, routes and widgets.

/// Rules 1 to 13, by what each is about: counts, names, what routes' ends name, routes between buffers, buffers' routes,
/// components' routes, pipelines' indices, what schedules, periods, DAIs, hosts' streams, buffers' sizes, and controls.
#[derive(Clone, Copy, Debug, PartialEq, Eq)]
pub enum RuleName {
    Counts,
    Names,
    RouteEnds,
    Routes,
    Buffers,
    Components,
    Indices,
    Schedulers,
    Periods,
    Dais,
    Hosts,
    Sizes,
    Controls,
}
