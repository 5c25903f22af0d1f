// All of `check`.
ghost use Rattle.std.specs.Prelude.{◌≡◌, ◌<◌, ◌^◌, [], length, is_ok, Ok, MatchResult};
ghost use Rattle.tplg_model.specs.declared.block.Topology.{Topology};
ghost use Rattle.tplg_plan.specs.HeapNeed.{IsSmall, need_on};
ghost use Rattle.run_desk.specs.Todo.{DeskPhase, Played};
ghost use Rattle.run_desk.specs.LinesTodo.{lines_todo};
ghost use Rattle.run_desk.specs.Halts.{HaltsAtCheck};
ghost use Rattle.run_desk.specs.Prepared as law;
ghost use Rattle.run_tools.specs.Checking.{count_lines, counts_of, counts_on};
ghost use Rattle.run_tools.specs.CheckTodo.{check};

use run_desk::{Halt, LIMIT, fetch, ruled_plan, say_count, status_of, stop_for, topology_in};
use sof_desk::{Desk, DeskFailed};
use std::alloc::Global;
use tplg_graph::{Plan, need};

// The plan of the topology of these bytes.
fn checked(alloc: Global, bytes: &[u8]) -> Result<Plan, Halt>
    requires { length bytes.now < 2 ^ 32 }
    ensures { MatchResult result
        (λ p. IsSmall p.graph × ((t : Topology) × (law.checked bytes.now ≡ Ok t) × (counts_on p (need_on p.graph) ≡ counts_of t)))
        (λ halt. HaltsAtCheck halt (law.checked bytes.now)) }
{
    let topology = topology_in(alloc, bytes)?;
    ruled_plan(alloc, &topology)
}

// Says what a plan has of each and needs, line by line.
fn say_counts<D: Desk>(desk: &mut D, plan: &Plan) -> Result<(), DeskFailed>
    requires { IsSmall plan.now.graph }
    ensures { DeskPhase D.means (lines_todo (counts_on plan.now (need_on plan.now.graph))) (is_ok result) desk.old desk.new }
{
    let graph = &plan.graph;
    say_count(desk, b"pipelines ", graph.pipes.items().len() as u64)?;
    say_count(desk, b"components ", graph.comps.items().len() as u64)?;
    say_count(desk, b"buffers ", graph.edges.items().len() as u64)?;
    say_count(desk, b"routes ", graph.joins.items().len() as u64)?;
    say_count(desk, b"streams ", plan.streams.items().len() as u64)?;
    say_count(desk, b"controls ", plan.controls.items().len() as u64)?;
    say_count(desk, b"need ", need(plan))
}

/// Loads the topology file of this name, and says its counts where it is right, or else why it is not.
pub fn do_check<D: Desk>(alloc: Global, name: &str, desk: &mut D) -> u8
    ensures { Played D.means (check count_lines name.now) desk.old [] result desk.new }
{
    let bytes = match fetch(alloc, desk, name, LIMIT, b"too long topology\n") {
        Ok(bytes) => bytes,
        Err(status) => return status,
    };
    match checked(alloc, &bytes) {
        Ok(plan) => status_of(say_counts(desk, &plan).is_ok()),
        Err(halt) => stop_for(desk, halt),
    }
}
