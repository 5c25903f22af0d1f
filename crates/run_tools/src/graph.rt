// All of `graph`.
ghost use Rattle.std.specs.Prelude.{◌≡◌, ◌<◌, ◌^◌, [], length, Ok, MatchResult};
ghost use Rattle.sof_desk.specs.Desk.{Acted, Put, Spoken};
ghost use Rattle.tplg_model.specs.declared.block.Topology.{Topology};
ghost use Rattle.run_desk.specs.Todo.{DeskPhase, Played};
ghost use Rattle.run_desk.specs.Halts.{HaltsAtCheck};
ghost use Rattle.run_desk.specs.Prepared as law;
ghost use Rattle.run_tools.specs.Picturing.{picture_lines};
ghost use Rattle.run_tools.specs.CheckTodo.{said_todo, check};

use run_desk::{Halt, LIMIT, fetch, ruled_plan, status_of, stop_for, topology_in};
use sof_base::Items;
use sof_desk::Desk;
use std::alloc::Global;
use tplg_picture::picture;

// The lines of the picture of the topology of these bytes, each with its newline.
fn pictured(alloc: Global, bytes: &[u8]) -> Result<Items<Items<u8>>, Halt>
    requires { length bytes.now < 2 ^ 32 }
    ensures { MatchResult result
        (λ lines. (t : Topology) × (law.checked bytes.now ≡ Ok t) × (lines ≡ picture_lines t))
        (λ halt. HaltsAtCheck halt (law.checked bytes.now)) }
{
    let topology = topology_in(alloc, bytes)?;
    let plan = ruled_plan(alloc, &topology)?;
    match picture(alloc, &topology, &plan) {
        Ok(lines) => Ok(lines),
        Err(_) => Err(Halt::OutOfMemory),
    }
}

// Says a line that has its newline.
fn say_line<D: Desk>(desk: &mut D, line: &Items<u8>) -> bool
    ensures { Acted D.means (Put Spoken line.now) result desk.old desk.new }
{
    desk.say(line.items()).is_ok()
}

// Says lines, each of which has its newline.
fn say_all<D: Desk>(desk: &mut D, lines: &[Items<u8>]) -> bool
    ensures { DeskPhase D.means (said_todo lines.now) result desk.old desk.new }
{
    for line in lines {
        if !say_line(desk, line) {
            return false;
        }
    }
    true
}

/// Loads the topology file of this name, and says its picture where it is right, or else why it is not. All lines are made before
/// the first is said.
pub fn do_graph<D: Desk>(alloc: Global, name: &str, desk: &mut D) -> u8
    ensures { Played D.means (check picture_lines name.now) desk.old [] result desk.new }
{
    let bytes = match fetch(alloc, desk, name, LIMIT, b"too long topology\n") {
        Ok(bytes) => bytes,
        Err(status) => return status,
    };
    match pictured(alloc, &bytes) {
        Ok(lines) => status_of(say_all(desk, lines.items())),
        Err(halt) => stop_for(desk, halt),
    }
}
