// A topology's plan.
ghost use Rattle.std.specs.Prelude.{◌≡◌, ◌<◌, ◌^◌, ℕ, All, length, IfOk, IfErr, OnOk};
ghost use Rattle.tplg_plan.specs.HeapNeed.{IsSmall, need_on};
ghost use Rattle.tplg_plan.specs.Sound.{IsSound};
ghost use Rattle.tplg_plan.specs.WidgetWords.{FitsWords};
ghost use Rattle.tplg_widgets.specs.Entries.{entries_of};
ghost use Rattle.tplg_widgets.specs.Ends.{ends_in};
ghost use Rattle.tplg_walks.specs.Rules.{AllHold};
ghost use Rattle.tplg_rules.specs.WellFormed as rules;
ghost use Rattle.tplg_rules.specs.RuleFaults as rule_faults;
ghost use Rattle.tplg_graph.specs.Orderable.{IsOrderable, IsAcyclic};
ghost use Rattle.tplg_graph.specs.PlanOf as law;
ghost use Rattle.tplg_graph.specs.TopologyNeed.{need_of};

use crate::control_lists::controls;
use crate::plan_lists::{names, pipes, streams, widgets};
use sof_base::Items;
use std::alloc::{AllocError, Global};
use stream_law::{Graph, Join};
use tplg_model::Topology;
use tplg_plan::Plan;
use tplg_rules::{PlanFault, check_wiring};
use tplg_widgets::{Entry, PcmCaps, Widgets, Wiring, components, edges};

/// The graph of the widgets.
fn graph_over(
    alloc: Global,
    widgets: &Widgets,
    parts: &[Entry],
    joins: &[Join],
) -> Result<Graph, AllocError>
    requires { length parts.now < 2 ^ 32 }
    ensures { IfOk result (λ g. g ≡ law.graph_on widgets.now parts.now joins.now) }
{
    let comps = components(alloc, parts, joins)?;
    let edges = edges(alloc, parts, joins)?;
    let pipes = pipes(alloc, widgets, parts)?;
    let joins = Vec::from_slice(alloc, joins)?;
    Ok(Graph {
        comps: Items::from_vec(comps),
        edges: Items::from_vec(edges),
        pipes: Items::from_vec(pipes),
        joins: Items::from_vec(joins),
    })
}

/// The plan with this graph.
fn plan_with(
    alloc: Global,
    parts: &[Entry],
    pcms: &[PcmCaps],
    graph: Graph,
) -> Result<Plan, AllocError>
    requires few { length parts.now < 2 ^ 32 }
    ensures lists { IfOk result (λ p. p ≡ law.plan_with parts.now pcms.now graph) }
    ensures fit { IfOk result (λ p. All FitsWords p.widgets) }
{
    let streams = streams(alloc, parts, pcms)?;
    let controls = controls(alloc, parts)?;
    let names = names(alloc, parts)?;
    let widgets = widgets(alloc, parts)?;
    Ok(Plan {
        graph,
        streams: Items::from_vec(streams),
        controls: Items::from_vec(controls),
        names: Items::from_vec(names),
        widgets: Items::from_vec(widgets),
    })
}

/// The plan of the widgets.
fn plan_over(
    alloc: Global,
    widgets: &Widgets,
    parts: &[Entry],
    pcms: &[PcmCaps],
    joins: &[Join],
) -> Result<Plan, AllocError>
    requires { length parts.now < 2 ^ 32 }
    ensures lists { IfOk result (λ p. p ≡ law.plan_on widgets.now parts.now pcms.now joins.now) }
    ensures fit { IfOk result (λ p. All FitsWords p.widgets) }
{
    let graph = graph_over(alloc, widgets, parts, joins)?;
    plan_with(alloc, parts, pcms, graph)
}

/// The plan of a wiring.
fn plan_by(alloc: Global, wiring: &Wiring) -> Result<Plan, AllocError>
    ensures lists { IfOk result (λ p. p ≡ law.plan_by wiring.now) }
    ensures fit { IfOk result (λ p. All FitsWords p.widgets) }
{
    let widgets = wiring.widgets();
    let parts = widgets.interpreted();
    plan_over(alloc, widgets, parts, wiring.pcms(), wiring.joins())
}

/// The plan of a wiring that keeps all rules.
fn plan_ruled(alloc: Global, wiring: &Wiring) -> Result<Plan, PlanFault>
    ensures ok { OnOk result (AllHold (rules.rules_by wiring.now)) }
    ensures lists { IfOk result (λ p. p ≡ law.plan_by wiring.now) }
    ensures fit { IfOk result (λ p. All FitsWords p.widgets) }
    ensures err { IfErr result (rule_faults.IsFaultOf (rules.rules_by wiring.now)) }
{
    check_wiring(alloc, wiring)?;
    let plan = plan_by(alloc, wiring)?;
    Ok(plan)
}

fn plan_in_form(alloc: Global, topology: &Topology) -> Result<Plan, PlanFault>
    requires widgets { length (entries_of topology.now) < 2 ^ 32 }
    requires routes { length (ends_in topology.now) < 2 ^ 32 }
    ensures ok { OnOk result (rules.IsWellFormed topology.now) }
    ensures lists { IfOk result (λ p. p ≡ law.plan_of topology.now) }
    ensures fit { IfOk result (λ p. All FitsWords p.widgets) }
    ensures err { IfErr result (rule_faults.IsFaultOf (rules.rules_of topology.now)) }
{
    let wiring = Wiring::of(alloc, topology)?;
    plan_ruled(alloc, &wiring)
}

/// The plan of a topology: the lists of its graph exactly where all fourteen rules hold, and else the first rule that fails,
/// with its least item. Want of memory may stand for either.
pub fn plan(alloc: Global, topology: &Topology) -> Result<Plan, PlanFault>
    requires widgets { length (entries_of topology.now) < 2 ^ 32 }
    requires routes { length (ends_in topology.now) < 2 ^ 32 }
    ensures ok { OnOk result (rules.IsWellFormed topology.now) }
    ensures lists { IfOk result (λ p. p ≡ law.plan_of topology.now) }
    ensures err { IfErr result (rule_faults.IsFaultOf (rules.rules_of topology.now)) }
    ensures kept { rules.IsWellFormed topology.now → IfErr result (λ e. e ≡ PlanFault.OutOfMemory) }
    ensures broken { (rule item : ℕ) → rules.Breaks topology.now rule item → rule_faults.Tells rule item result }
    ensures fit { IfOk result (λ p. All FitsWords p.widgets) }
    ensures small { IfOk result (λ p. IsSmall p.graph) }
    ensures need { IfOk result (λ p. need_on p.graph ≡ need_of topology.now) }
    ensures orderable { IfOk result (λ p. IsOrderable p.graph) }
    ensures acyclic { IfOk result (λ p. IsAcyclic p.graph) }
    ensures sound { IfOk result (λ p. IsSound p) }
{
    plan_in_form(alloc, topology)
}
