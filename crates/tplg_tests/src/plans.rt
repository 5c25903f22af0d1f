// The thin graph's plan, the rules that it breaks with some bytes changed, and the gain of a volume's value.
ghost use Rattle.std.specs.Prelude.{IfOk};
ghost use Rattle.tplg_plan.specs.HeapNeed.{IsSmall};

use crate::same::same;
use crate::stated::put_byte;
use crate::thin::thin_graph;
use sof_base::{Format, Name44};
use std::alloc::Global;
use std::process::Abort;
use std::test::Fail;
use stream_law::{Comp, Edge, Graph, Join, Kind, Pipe};
use tplg_graph::{ControlKind, Plan, PlanFault, StreamPlan, WidgetPlan, gain, need, plan};
use tplg_read::read;

/// The plan of a file of at most a mebibyte, or why there is none.
fn plan_in(alloc: Global, bytes: &[u8]) -> Result<Result<Plan, PlanFault>, Fail>
    ensures { IfOk result (λ planned. IfOk planned (λ plan. IsSmall plan.graph)) }
{
    if bytes.len() > 1048576 {
        return Err("too long a file")?;
    }
    match read(alloc, bytes) {
        Ok(topology) => Ok(plan(alloc, &topology)),
        Err(_fault) => Err("no topology")?,
    }
}

/// The thin graph's plan and its need in bytes.
fn planned(alloc: Global) -> Result<(Plan, u64), Fail> {
    let Ok(plan) = plan_in(alloc, &thin_graph(alloc)?)? else {
        return Err("no plan")?;
    };
    let bytes = need(&plan);
    Ok((plan, bytes))
}

fn comps_are_told(rt: &impl Abort, comps: &[Comp]) {
    assert_eq!(rt; comps.len(), 2);
    same(rt, &0, &comps[0].kind, &Kind::HostPlay);
    same(rt, &1, &comps[1].kind, &Kind::DaiPlay(Format::S32));
    same(rt, &0, &comps[0].id, &0);
    same(rt, &1, &(comps[1].id, comps[1].pipe), &(2, 1));
}

fn edges_are_told(rt: &impl Abort, edges: &[Edge]) {
    let edge = Edge {
        buffer: 1,
        pipe: 1,
        size: 768,
        source: Some(0),
        sink: Some(2),
    };
    same(rt, &"the edges", &edges, &[edge].as_slice());
}

fn pipes_are_told(rt: &impl Abort, pipes: &[Pipe]) {
    let pipe = Pipe {
        id: 3,
        index: 1,
        sched: 2,
        period: 1000,
        complete: true,
    };
    same(rt, &"the pipelines", &pipes, &[pipe].as_slice());
}

fn joins_are_told(rt: &impl Abort, joins: &[Join]) {
    let want = [Join { source: 0, sink: 1 }, Join { source: 1, sink: 2 }];
    same(rt, &"the joins", &joins, &want.as_slice());
}

fn graph_is_told(rt: &impl Abort, graph: &Graph) {
    comps_are_told(rt, graph.comps.items());
    edges_are_told(rt, graph.edges.items());
    pipes_are_told(rt, graph.pipes.items());
    joins_are_told(rt, graph.joins.items());
}

#[test]
fn the_thin_graph_is_planned(rt: HostRuntime) -> Result<(), Fail> {
    let (plan, _bytes) = planned(rt.alloc())?;
    graph_is_told(&rt, &plan.graph);
    Ok(())
}

fn streams_are_told(rt: &impl Abort, streams: &[StreamPlan]) {
    assert_eq!(rt; streams.len(), 1);
    same(
        rt,
        &"a stream",
        &(streams[0].host, streams[0].capture),
        &(0, false),
    );
    same(
        rt,
        &"a stream",
        &streams[0].caps.name.as_bytes(),
        &b"P0".as_slice(),
    );
}

fn names_are_told(rt: &impl Abort, names: &[Name44]) {
    assert_eq!(rt; names.len(), 4);
    same(rt, &2, &names[2].as_bytes(), &b"DAI0".as_slice());
}

fn words_are_told(rt: &impl Abort, widgets: &[WidgetPlan]) {
    assert_eq!(rt; widgets.len(), 4);
    same(
        rt,
        &"widgets 0 and 2",
        &(widgets[0].frame_fmt, widgets[2].frame_fmt),
        &(2, 2),
    );
}

fn plan_is_told(rt: &impl Abort, plan: &Plan) {
    streams_are_told(rt, plan.streams.items());
    same(rt, &"the controls", &plan.controls.items().len(), &0);
    names_are_told(rt, plan.names.items());
    words_are_told(rt, plan.widgets.items());
}

#[test]
fn its_plan_has_streams_names_and_words(rt: HostRuntime) -> Result<(), Fail> {
    let (plan, bytes) = planned(rt.alloc())?;
    plan_is_told(&rt, &plan);
    same(&rt, &"the need", &bytes, &992);
    Ok(())
}

// Why there is no plan of the graph with these bytes changed; none where there is one.
fn fault_with(alloc: Global, changes: &[(usize, u8)]) -> Result<Option<PlanFault>, Fail> {
    let mut bytes = thin_graph(alloc)?;
    for &(at, changed) in changes {
        put_byte(&mut bytes, at, changed)?;
    }
    match plan_in(alloc, &bytes)? {
        Ok(_plan) => Ok(None),
        Err(fault) => Ok(Some(fault)),
    }
}

// A period of 1001 µs, two widgets of one name, a DAI of another format, a route from a name of no widget.
#[test]
fn other_graphs_break_a_rule(rt: HostRuntime) -> Result<(), Fail> {
    for (changes, rule, item) in [
        ([(768usize, 0xe9u8)].as_slice(), 9, 3),
        (&[(400, b'B'), (402, 0), (403, 0), (401, b'0')], 2, 2),
        (&[(540, b'f')], 10, 2),
        (&[(896, b'Q')], 3, 0),
    ] {
        let want = Some(PlanFault::Rule { rule, item });
        same(&rt, &rule, &fault_with(rt.alloc(), changes)?, &want);
    }
    Ok(())
}

// A control from -64 dB by steps of 2 dB: value 31 is four half decibels below 1, value 32 is 1, value 0 is silent.
#[test]
fn a_value_of_a_volume_has_its_gain(rt: HostRuntime) -> Result<(), Fail> {
    let volume = ControlKind::Volume {
        min: 0,
        max: 32,
        channels: 2,
        tlv_min: -6400,
        tlv_step: 200,
        tlv_mute: 1,
    };
    for (value, want) in [(31, 52056), (32, 65536), (0, 0)] {
        same(&rt, &value, &gain(&volume, value), &want);
    }
    Ok(())
}

// What an item is depends on its rule.
#[test]
fn a_fault_names_its_item(rt: HostRuntime) -> Result<(), Fail> {
    for (rule, item, text) in [
        (1, 2, "rule 1, count 2: there are too many"),
        (4, 0, "rule 4, route 0: it joins two buffers"),
        (
            6,
            3,
            "rule 6, widget 3: its kind needs another number of routes",
        ),
        (
            14,
            5,
            "rule 14, component 5: it is on a cycle, or plays into a capture without an echo edge",
        ),
    ] {
        let fault = PlanFault::Rule { rule, item };
        let told = format!(in rt.alloc(); "{fault}")?;
        same(&rt, &rule, &told.as_str(), &text);
    }
    Ok(())
}
