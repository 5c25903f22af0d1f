// Rule 14: cycles, and ways from hosts that play to hosts that capture.
ghost use Rattle.std.specs.Prelude.{◌≡◌, ◌<◌, ◌≤◌, ◌^◌, ℕ, [], ◌∷◌, length, OnOk, IfErr};
ghost use Rattle.tplg_walks.specs.Rules.{AllHold};
ghost use Rattle.tplg_walks.specs.Cycles as law;
ghost use Rattle.tplg_rules.specs.WellFormed as groups;
ghost use Rattle.tplg_rules.specs.RuleFaults.{IsFaultOf};

use crate::plan_fault::{PlanFault, fault_at};
use stream_law::{Comp, Edge};
use tplg_walks::{failing_cycle, failing_way};
use tplg_widgets::Entry;

fn check_cycle(ids: u32, edges: &[Edge]) -> Result<(), PlanFault>
    requires few { length edges.now ≤ 128 }
    ensures ok { OnOk result (AllHold (law.cycles_rule ids edges.now ∷ [])) }
    ensures err { IfErr result (IsFaultOf (law.cycles_rule ids edges.now ∷ [])) }
{
    fault_at(14, failing_cycle(ids, edges))
}

// Every walk from a host that plays to one that captures has an echo edge.
fn check_way(ids: u32, comps: &[Comp], edges: &[Edge]) -> Result<(), PlanFault>
    requires few { length edges.now ≤ 128 }
    ensures ok { OnOk result (AllHold (law.ways_rule ids comps.now edges.now ∷ [])) }
    ensures err { IfErr result (IsFaultOf (law.ways_rule ids comps.now edges.now ∷ [])) }
{
    fault_at(14, failing_way(ids, comps, edges))
}

/// Both parts of rule 14, over the interpreted widgets, the components and the edges.
pub fn check_walks(interpreted: &[Entry], comps: &[Comp], edges: &[Edge]) -> Result<(), PlanFault>
    requires ids { length interpreted.now < 2 ^ 32 }
    requires few { length edges.now ≤ 128 }
    ensures ok { OnOk result (AllHold (groups.walk_rules interpreted.now comps.now edges.now)) }
    ensures err { IfErr result (IsFaultOf (groups.walk_rules interpreted.now comps.now edges.now)) }
{
    check_cycle(interpreted.len() as u32, edges)?;
    check_way(interpreted.len() as u32, comps, edges)?;
    Ok(())
}
