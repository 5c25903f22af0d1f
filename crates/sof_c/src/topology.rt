// The check of a topology file for C.
ghost use Rattle.std.specs.Prelude.{◌≡◌, ◌<◌, ◌^◌, length};
ghost use Rattle.tplg_plan.specs.HeapNeed.{IsSmall, need_on};
ghost use Rattle.tplg_widgets.specs.Entries.{entries_of};
ghost use Rattle.tplg_widgets.specs.Ends.{ends_in};
ghost use Rattle.tplg_rules.specs.RuleTest.{ruling_of};
ghost use Rattle.sof_c.specs.Verdicts as law;

use crate::status::{BROKEN, DONE, NO_MEMORY, RULE, TOO_LARGE};
use std::alloc::Global;
use tplg_graph::{Plan, PlanFault, need, plan};
use tplg_model::Topology;
use tplg_read::{TplgFault, read};

/// What a check finds. `DONE`: `need` is the heap that the topology needs, and the six numbers after it are what its plan has of each.
/// `BROKEN`: `cause` is the row of the first fault, `at` its place in the file, and `number` what was found there, if the fault has one.
/// `RULE`: `cause` is the first rule that is broken, and `at` its least item. All else is 0.
#[repr(C)]
#[derive(Clone, Copy, Debug)]
pub struct Verdict {
    pub status: u32,
    pub cause: u32,
    pub number: u32,
    pub reserved: u32,
    pub at: u64,
    pub need: u64,
    pub pipelines: u64,
    pub components: u64,
    pub buffers: u64,
    pub routes: u64,
    pub streams: u64,
    pub controls: u64,
}

fn refusal(status: u32, cause: u32, at: u64, number: u32) -> Verdict
    ensures { result ≡ law.refusal status cause at number }
{
    Verdict {
        status,
        cause,
        number,
        reserved: 0,
        at,
        need: 0,
        pipelines: 0,
        components: 0,
        buffers: 0,
        routes: 0,
        streams: 0,
        controls: 0,
    }
}

fn approval(plan: &Plan) -> Verdict
    requires { IsSmall plan.now.graph }
    ensures { result ≡ law.approval plan.now (need_on plan.now.graph) }
{
    let graph = &plan.graph;
    Verdict {
        status: DONE,
        cause: 0,
        number: 0,
        reserved: 0,
        at: 0,
        need: need(plan),
        pipelines: graph.pipes.items().len() as u64,
        components: graph.comps.items().len() as u64,
        buffers: graph.edges.items().len() as u64,
        routes: graph.joins.items().len() as u64,
        streams: plan.streams.items().len() as u64,
        controls: plan.controls.items().len() as u64,
    }
}

// A fault of a file, at a place.
fn broken(cause: u32, at: usize, number: u32) -> Verdict
    ensures { result ≡ law.refusal BROKEN cause at number }
{
    refusal(BROKEN, cause, at as u64, number)
}

fn memory_refusal() -> Verdict
    ensures { result ≡ law.memory_refusal }
{
    refusal(NO_MEMORY, 0, 0, 0)
}

fn of_fault(fault: TplgFault) -> Verdict
    ensures { result ≡ law.of_fault fault }
{
    match fault {
        TplgFault::Truncated(at) => broken(1, at, 0),
        TplgFault::Magic(at) => broken(2, at, 0),
        TplgFault::Abi(at, number) => broken(3, at, number),
        TplgFault::HeaderSize(at) => broken(4, at, 0),
        TplgFault::Payload(at) => broken(5, at, 0),
        TplgFault::Name(at) => broken(6, at, 0),
        TplgFault::ControlKind(at, number) => broken(7, at, number),
        TplgFault::Tokens(at) => broken(8, at, 0),
        TplgFault::OutOfMemory => memory_refusal(),
    }
}

// A rule that is broken, and its least item.
fn of_rule(rule: u8, item: u32) -> Verdict
    ensures { result ≡ law.refusal RULE rule item 0 }
{
    refusal(RULE, u32::from(rule), u64::from(item), 0)
}

#[tactic(auto, using(tplg_rules::proofs::RuleTests::whole_none))]
fn of_rules(alloc: Global, topology: &Topology) -> Verdict
    requires widgets { length (entries_of topology.now) < 2 ^ 32 }
    requires routes { length (ends_in topology.now) < 2 ^ 32 }
    ensures { law.IsVerdict (law.of_rules topology.now (ruling_of topology.now)) result }
{
    match plan(alloc, topology) {
        Ok(plan) => approval(&plan),
        Err(PlanFault::Rule { rule, item }) => of_rule(rule, item),
        Err(PlanFault::OutOfMemory) => memory_refusal(),
    }
}

/// Reads a topology file, and tests the rules of a topology. `TOO_LARGE` where it has 4 GiB or more.
#[unsafe(no_mangle)]
pub extern "C" fn sof_c_check_unchecked(alloc: Global, bytes: &[u8]) -> Verdict
    ensures { law.IsVerdict (law.verdict_of bytes.now) result }
{
    if bytes.len() > u32::MAX as usize {
        return refusal(TOO_LARGE, 0, 0, 0);
    }
    match read(alloc, bytes) {
        Ok(topology) => of_rules(alloc, &topology),
        Err(fault) => of_fault(fault),
    }
}
