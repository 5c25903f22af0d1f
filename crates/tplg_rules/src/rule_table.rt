// The table of rules 1 to 13, and the first item at which one fails.
ghost use Rattle.std.specs.Prelude.{◌≡◌, ◌↔◌, [], ◌∷◌, not, true, find, OnOk, IfErr};
ghost use Rattle.std.specs.List.{range_with_len};
ghost use Rattle.tplg_widgets.specs.Entries.{interpreted};
ghost use Rattle.tplg_walks.specs.Rules.{AllHold, HoldsAll};
ghost use Rattle.tplg_rules.specs.RuleTest as law;
ghost use Rattle.tplg_rules.specs.RuleTable.{counts_rule};
ghost use Rattle.tplg_rules.specs.WellFormed as groups;
ghost use Rattle.tplg_rules.specs.RuleFaults as rule_faults;
ghost use Rattle.tplg_rules.specs.RuleFaults.{IsFaultOf};

use crate::plan_fault::{PlanFault, fault_at};
use crate::record_rules::{control_holds, count_holds, host_holds};
use crate::route_rules::{buffer_holds, component_holds, ends_hold, index_holds, route_holds};
use crate::rule_name::RuleName;
use crate::widget_rules::{dai_holds, name_holds, period_holds, sched_holds, size_holds};
use tplg_widgets::Wiring;

fn number(rule: RuleName) -> u8
    ensures { result ≡ law.rule_number rule }
{
    match rule {
        RuleName::Counts => 1,
        RuleName::Names => 2,
        RuleName::RouteEnds => 3,
        RuleName::Routes => 4,
        RuleName::Buffers => 5,
        RuleName::Components => 6,
        RuleName::Indices => 7,
        RuleName::Schedulers => 8,
        RuleName::Periods => 9,
        RuleName::Dais => 10,
        RuleName::Hosts => 11,
        RuleName::Sizes => 12,
        RuleName::Controls => 13,
    }
}

/// How many items a rule has.
fn items(wiring: &Wiring, rule: RuleName) -> u32
    ensures { result ≡ law.items_of rule wiring.now }
{
    match rule {
        RuleName::Counts => 5,
        RuleName::RouteEnds => wiring.ends().len() as u32,
        RuleName::Routes => wiring.ends().len() as u32,
        _ => wiring.widgets().all().len() as u32,
    }
}

/// Whether a rule holds at an item.
fn holds(wiring: &Wiring, rule: RuleName, k: usize) -> bool
    ensures { result ≡ law.holds_at rule wiring.now k }
{
    let widgets = wiring.widgets();
    let all = widgets.all();
    let interpreted = widgets.interpreted();
    match rule {
        RuleName::Counts => count_holds(interpreted, wiring.pcms(), k),
        RuleName::Names => name_holds(widgets, k),
        RuleName::RouteEnds => ends_hold(wiring.ends(), k),
        RuleName::Routes => route_holds(wiring.ends(), k),
        RuleName::Buffers => buffer_holds(all, wiring.joins(), k),
        RuleName::Components => component_holds(all, wiring.joins(), k),
        RuleName::Indices => index_holds(all, interpreted, k),
        RuleName::Schedulers => sched_holds(widgets, k),
        RuleName::Periods => period_holds(all, k),
        RuleName::Dais => dai_holds(all, wiring.joins(), k),
        RuleName::Hosts => host_holds(all, wiring.pcms(), k),
        RuleName::Sizes => size_holds(all, k),
        RuleName::Controls => control_holds(all, k),
    }
}

/// The first item at which a rule fails.
fn first_failing(wiring: &Wiring, rule: RuleName) -> Option<u32>
    ensures { result ≡ find (λ k. not (law.holds_at rule wiring.now k)) (range_with_len 0 (law.items_of rule wiring.now)) }
{
    (0..items(wiring, rule)).find(|k| !holds(wiring, rule, *k as usize))
}

/// Whether a rule holds.
pub fn keeps(wiring: &Wiring, rule: RuleName) -> bool
    ensures { (result ≡ true) ↔ HoldsAll (law.rule_by rule wiring.now) }
{
    first_failing(wiring, rule).is_none()
}

/// A rule's fault, where it fails.
fn check(wiring: &Wiring, rule: RuleName) -> Result<(), PlanFault>
    ensures ok { OnOk result (AllHold (law.rule_by rule wiring.now ∷ [])) }
    ensures err { IfErr result (IsFaultOf (law.rule_by rule wiring.now ∷ [])) }
{
    fault_at(number(rule), first_failing(wiring, rule))
}

/// Rules 2 to 4.
fn check_front(wiring: &Wiring) -> Result<(), PlanFault>
    ensures ok { OnOk result (AllHold (groups.front_rules wiring.now.widgets wiring.now.ends)) }
    ensures err { IfErr result (IsFaultOf (groups.front_rules wiring.now.widgets wiring.now.ends)) }
{
    check(wiring, RuleName::Names)?;
    check(wiring, RuleName::RouteEnds)?;
    check(wiring, RuleName::Routes)?;
    Ok(())
}

/// Rules 5 to 7.
fn check_joins(wiring: &Wiring) -> Result<(), PlanFault>
    ensures ok { OnOk result (AllHold (groups.join_rules wiring.now.widgets (interpreted wiring.now.widgets) wiring.now.joins)) }
    ensures err { IfErr result (IsFaultOf (groups.join_rules wiring.now.widgets (interpreted wiring.now.widgets) wiring.now.joins)) }
{
    check(wiring, RuleName::Buffers)?;
    check(wiring, RuleName::Components)?;
    check(wiring, RuleName::Indices)?;
    Ok(())
}

/// Rules 8 to 10.
fn check_tokens(wiring: &Wiring) -> Result<(), PlanFault>
    ensures ok { OnOk result (AllHold (groups.token_rules wiring.now.widgets wiring.now.joins)) }
    ensures err { IfErr result (IsFaultOf (groups.token_rules wiring.now.widgets wiring.now.joins)) }
{
    check(wiring, RuleName::Schedulers)?;
    check(wiring, RuleName::Periods)?;
    check(wiring, RuleName::Dais)?;
    Ok(())
}

/// Rules 11 to 13.
fn check_records(wiring: &Wiring) -> Result<(), PlanFault>
    ensures ok { OnOk result (AllHold (groups.record_rules wiring.now.widgets wiring.now.pcms)) }
    ensures err { IfErr result (IsFaultOf (groups.record_rules wiring.now.widgets wiring.now.pcms)) }
{
    check(wiring, RuleName::Hosts)?;
    check(wiring, RuleName::Sizes)?;
    check(wiring, RuleName::Controls)?;
    Ok(())
}

/// Rule 1. Where it holds, all later work is small.
pub fn check_counts(wiring: &Wiring) -> Result<(), PlanFault>
    ensures ok { OnOk result (AllHold (counts_rule (interpreted wiring.now.widgets) wiring.now.pcms ∷ [])) }
    ensures err { IfErr result (IsFaultOf (counts_rule (interpreted wiring.now.widgets) wiring.now.pcms ∷ [])) }
{
    check(wiring, RuleName::Counts)
}

/// Rules 2 to 13.
pub fn check_middle(wiring: &Wiring) -> Result<(), PlanFault>
    ensures ok { OnOk result (AllHold (rule_faults.middle_by wiring.now)) }
    ensures err { IfErr result (IsFaultOf (rule_faults.middle_by wiring.now)) }
{
    check_front(wiring)?;
    check_joins(wiring)?;
    check_tokens(wiring)?;
    check_records(wiring)?;
    Ok(())
}
