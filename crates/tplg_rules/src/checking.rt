// Whether a topology keeps all rules, and else the first that fails.
ghost use Rattle.std.specs.Prelude.{◌≡◌, ◌<◌, ◌^◌, ℕ, [], ◌∷◌, length, OnOk, IfErr};
ghost use Rattle.tplg_widgets.specs.Entries.{interpreted, entries_of};
ghost use Rattle.tplg_widgets.specs.Ends.{ends_in};
ghost use Rattle.tplg_widgets.specs.GraphLists.{components_on, edges_on};
ghost use Rattle.tplg_walks.specs.Rules.{AllHold};
ghost use Rattle.tplg_rules.specs.RuleTable.{counts_rule};
ghost use Rattle.tplg_rules.specs.WellFormed as rules;
ghost use Rattle.tplg_rules.specs.RuleFaults as rule_faults;

use crate::plan_fault::PlanFault;
use crate::rule_table::{check_counts, check_middle};
use crate::walk_rules::check_walks;
use std::alloc::Global;
use stream_law::{Comp, Edge, Join};
use tplg_model::Topology;
use tplg_widgets::{Entry, PcmCaps, Wiring, components, edges};

/// Both parts of rule 14, over the components and the edges of the widgets.
fn check_graph(
    parts: &[Entry],
    pcms: &[PcmCaps],
    joins: &[Join],
    comps: &[Comp],
    edges: &[Edge],
) -> Result<(), PlanFault>
    requires parts_few { length parts.now < 2 ^ 32 }
    requires counts { AllHold (counts_rule parts.now pcms.now ∷ []) }
    requires comps { comps.now ≡ components_on parts.now joins.now }
    requires edges { edges.now ≡ edges_on parts.now joins.now }
    ensures ok { OnOk result (AllHold (rules.way_rules parts.now joins.now)) }
    ensures err { IfErr result (rule_faults.IsFaultOf (rules.way_rules parts.now joins.now)) }
{
    let _pcms = pcms;
    let _joins = joins;
    check_walks(parts, comps, edges)
}

/// Both parts of rule 14, over the widgets and the real routes.
fn check_ways(
    alloc: Global,
    parts: &[Entry],
    pcms: &[PcmCaps],
    joins: &[Join],
) -> Result<(), PlanFault>
    requires parts_few { length parts.now < 2 ^ 32 }
    requires counts { AllHold (counts_rule parts.now pcms.now ∷ []) }
    ensures ok { OnOk result (AllHold (rules.way_rules parts.now joins.now)) }
    ensures err { IfErr result (rule_faults.IsFaultOf (rules.way_rules parts.now joins.now)) }
{
    let comps = components(alloc, parts, joins)?;
    let edges = edges(alloc, parts, joins)?;
    check_graph(parts, pcms, joins, comps.as_slice(), edges.as_slice())
}

/// Both parts of rule 14 of a wiring, where rule 1 holds.
fn check_counted(alloc: Global, wiring: &Wiring) -> Result<(), PlanFault>
    requires counts { AllHold (counts_rule (interpreted wiring.now.widgets) wiring.now.pcms ∷ []) }
    ensures ok { OnOk result (AllHold (rule_faults.ways_by wiring.now)) }
    ensures err { IfErr result (rule_faults.IsFaultOf (rule_faults.ways_by wiring.now)) }
{
    let parts = wiring.widgets().interpreted();
    check_ways(alloc, parts, wiring.pcms(), wiring.joins())
}

/// All rules of a wiring. Rule 1 comes first; where it holds, all later work is small.
pub fn check_wiring(alloc: Global, wiring: &Wiring) -> Result<(), PlanFault>
    ensures ok { OnOk result (AllHold (rules.rules_by wiring.now)) }
    ensures err { IfErr result (rule_faults.IsFaultOf (rules.rules_by wiring.now)) }
{
    check_counts(wiring)?;
    check_middle(wiring)?;
    check_counted(alloc, wiring)
}

fn check_in_form(alloc: Global, topology: &Topology) -> Result<(), PlanFault>
    requires widgets { length (entries_of topology.now) < 2 ^ 32 }
    requires routes { length (ends_in topology.now) < 2 ^ 32 }
    ensures ok { OnOk result (rules.IsWellFormed topology.now) }
    ensures err { IfErr result (rule_faults.IsFaultOf (rules.rules_of topology.now)) }
{
    let wiring = Wiring::of(alloc, topology)?;
    check_wiring(alloc, &wiring)
}

/// Whether a topology keeps all fourteen rules: else the first rule that fails, with its least item. Want of memory may stand
/// for either.
pub fn check_topology(alloc: Global, topology: &Topology) -> Result<(), PlanFault>
    requires widgets { length (entries_of topology.now) < 2 ^ 32 }
    requires routes { length (ends_in topology.now) < 2 ^ 32 }
    ensures ok { OnOk result (rules.IsWellFormed topology.now) }
    ensures err { IfErr result (rule_faults.IsFaultOf (rules.rules_of topology.now)) }
    ensures kept { rules.IsWellFormed topology.now → IfErr result (λ e. e ≡ PlanFault.OutOfMemory) }
    ensures broken { (rule item : ℕ) → rules.Breaks topology.now rule item → rule_faults.Tells rule item result }
{
    check_in_form(alloc, topology)
}
