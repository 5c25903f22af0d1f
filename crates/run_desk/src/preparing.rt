// What the files of a run come to.
ghost use Rattle.std.specs.Prelude.{◌≡◌, ◌<◌, ◌-◌, ◌^◌, length, None, Ok, IfOk, MatchResult};
ghost use Rattle.tplg_model.specs.Reading.{topology_of};
ghost use Rattle.tplg_widgets.specs.Entries.{entries_of};
ghost use Rattle.tplg_widgets.specs.Ends.{ends_in};
ghost use Rattle.tplg_rules.specs.RuleTest.{ruling_of};
ghost use Rattle.tplg_plan.specs.HeapNeed.{IsSmall, need_on};
ghost use Rattle.tplg_plan.specs.Sound.{IsSound};
ghost use Rattle.tplg_graph.specs.TopologyNeed.{need_of};
ghost use Rattle.tplg_graph.specs.PlanOf.{plan_of};
ghost use Rattle.sof_script.specs.ScriptRead.{script_read};
ghost use Rattle.run_desk.specs.Bindings.{wrong_binding as wrong_of};
ghost use Rattle.run_desk.specs.Prepared.{Ready as IsReady, prepared, prepared_bindings, prepared_rules, prepared_script};
ghost use Rattle.run_desk.specs.Halts.{Halts, HaltsFor, HaltsAtTopology, HaltsAtRules, IsCarriable};

use crate::bindings::wrong_binding;
use sof_script::{Script, ScriptFault, parse, ticks};
use std::alloc::Global;
use tplg_graph::{Plan, PlanFault, plan};
use tplg_model::Topology;
use tplg_read::{TplgFault, read};

/// The most ticks of a script, with those of its lags.
const MOST_TICKS: u64 = 60000;

/// A plan, and the commands to be carried out over it.
#[derive(Drop)]
pub struct Ready {
    pub plan: Plan,
    pub script: Script,
}

/// Why the files make no run.
#[derive(Clone, Copy, Debug, PartialEq, Eq)]
pub enum Halt {
    /// A line of the script is at fault; the causes are those of `ScriptFault`.
    Script { line: u32, cause: u8 },
    /// The script's ticks and lags sum to so many, which are too many.
    Ticks(u64),
    /// The topology file has this fault.
    Broken(TplgFault),
    /// This rule of a topology, 1 to 14, is the first that fails, and this is its least item.
    Rule { rule: u8, item: u32 },
    /// The binding of this line is wrong.
    Binding { line: u32 },
    /// There was no memory.
    OutOfMemory,
}

fn halt_of(fault: TplgFault) -> Halt
    ensures { HaltsFor result fault }
{
    if fault == TplgFault::OutOfMemory {
        Halt::OutOfMemory
    } else {
        Halt::Broken(fault)
    }
}

/// The topology of a file.
pub fn topology_in(alloc: Global, bytes: &[u8]) -> Result<Topology, Halt>
    requires { length bytes.now < 2 ^ 32 }
    ensures topology { MatchResult result
        (λ topology. topology_of bytes.now ≡ Ok topology)
        (λ halt. HaltsAtTopology halt (topology_of bytes.now)) }
    ensures widgets { IfOk result (λ t. length (entries_of t) < 2 ^ 32) }
    ensures routes { IfOk result (λ t. length (ends_in t) < 2 ^ 32) }
{
    match read(alloc, bytes) {
        Ok(topology) => Ok(topology),
        Err(fault) => Err(halt_of(fault)),
    }
}

/// The plan of a topology that is well-formed.
#[tactic(auto, using(tplg_rules::proofs::RuleTests::whole_none, tplg_rules::proofs::RuleTests::breaks_some))]
pub fn ruled_plan(alloc: Global, topology: &Topology) -> Result<Plan, Halt>
    requires widgets { length (entries_of topology.now) < 2 ^ 32 }
    requires routes { length (ends_in topology.now) < 2 ^ 32 }
    ensures plan { MatchResult result
        (λ p. (ruling_of topology.now ≡ None) × (p ≡ plan_of topology.now))
        (λ halt. HaltsAtRules halt (ruling_of topology.now)) }
    ensures sound { IfOk result (λ p. IsSound p) }
    ensures small { IfOk result (λ p. IsSmall p.graph) }
    ensures need { IfOk result (λ p. need_on p.graph ≡ need_of topology.now) }
{
    match plan(alloc, topology) {
        Ok(plan) => Ok(plan),
        Err(PlanFault::Rule { rule, item }) => Err(Halt::Rule { rule, item }),
        Err(PlanFault::OutOfMemory) => Err(Halt::OutOfMemory),
    }
}

// A plan with a script of right bindings.
fn ready_for(plan: Plan, script: Script) -> Result<Ready, Halt>
    requires { IsSound plan }
    ensures { MatchResult result
        (λ ready. (ready.plan ≡ plan) × IsCarriable ready.plan (script_read ready.script) × (prepared_bindings plan (script_read script) (wrong_of plan (script_read script).bindings) ≡ IsReady ready.plan (script_read ready.script)))
        (λ halt. Halts halt (prepared_bindings plan (script_read script) (wrong_of plan (script_read script).bindings))) }
{
    if let Some(line) = wrong_binding(&plan, script.bindings.items()) {
        return Err(Halt::Binding { line });
    }
    Ok(Ready { plan, script })
}

// A script over a topology, whose rules come first.
fn prepare_rules(alloc: Global, topology: &Topology, script: Script) -> Result<Ready, Halt>
    requires widgets { length (entries_of topology.now) < 2 ^ 32 }
    requires routes { length (ends_in topology.now) < 2 ^ 32 }
    ensures { MatchResult result
        (λ ready. (prepared_rules topology.now (script_read script) (ruling_of topology.now) ≡ IsReady ready.plan (script_read ready.script)) × IsCarriable ready.plan (script_read ready.script))
        (λ halt. Halts halt (prepared_rules topology.now (script_read script) (ruling_of topology.now))) }
{
    let plan = ruled_plan(alloc, topology)?;
    ready_for(plan, script)
}

// A script of which neither line is at fault, over a topology's bytes.
fn prepare_script(alloc: Global, topology: &[u8], script: Script) -> Result<Ready, Halt>
    requires topology { length topology.now < 2 ^ 32 }
    requires script { length script.commands < 2 ^ 32 }
    ensures { MatchResult result
        (λ ready. (prepared_script topology.now (Ok (script_read script)) ≡ IsReady ready.plan (script_read ready.script)) × IsCarriable ready.plan (script_read ready.script))
        (λ halt. Halts halt (prepared_script topology.now (Ok (script_read script)))) }
{
    let sum = ticks(&script);
    if sum > MOST_TICKS {
        return Err(Halt::Ticks(sum));
    }
    let topology = topology_in(alloc, topology)?;
    prepare_rules(alloc, &topology, script)
}

/// What the bytes of a topology and of a script come to. The script's lines are looked at first, then its ticks, then the
/// topology and its rules, and last the bindings.
pub fn prepare(alloc: Global, topology: &[u8], script: &[u8]) -> Result<Ready, Halt>
    requires topology { length topology.now < 2 ^ 32 }
    requires script { length script.now < 2 ^ 32 - 1 }
    ensures { MatchResult result
        (λ ready. (prepared topology.now script.now ≡ IsReady ready.plan (script_read ready.script)) × IsCarriable ready.plan (script_read ready.script))
        (λ halt. Halts halt (prepared topology.now script.now)) }
{
    match parse(alloc, script) {
        Ok(script) => prepare_script(alloc, topology, script),
        Err(ScriptFault::Line { line, cause }) => Err(Halt::Script { line, cause }),
        Err(ScriptFault::OutOfMemory) => Err(Halt::OutOfMemory),
    }
}
