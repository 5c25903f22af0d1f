// All of `source`.
ghost use Rattle.std.specs.Prelude.{◌≡◌, ◌<◌, ◌^◌, [], length, Ok, option_map, MatchResult};
ghost use Rattle.tplg_model.specs.declared.block.Topology.{Topology};
ghost use Rattle.tplg_source.specs.Outcome.{source_for};
ghost use Rattle.run_desk.specs.Todo.{Played};
ghost use Rattle.run_desk.specs.Halts.{HaltsAtCheck};
ghost use Rattle.run_desk.specs.Prepared as law;
ghost use Rattle.run_words.specs.FormParts.{source_files};
ghost use Rattle.run_tools.specs.SourceTodo.{make_source};

use crate::compile::make_file;
use run_desk::{Halt, LIMIT, fetch, ruled_plan, status_of, stop, stop_for, topology_in};
use run_words::SourceFiles;
use sof_desk::Desk;
use std::alloc::Global;
use tplg_source::{NoSource, source};

// The source of the topology of these bytes, where it has one.
#[tactic(auto, using(tplg_source::proofs::KeptPlans::source_found))]
fn sourced(alloc: Global, bytes: &[u8]) -> Result<Option<Vec<u8>>, Halt>
    requires { length bytes.now < 2 ^ 32 }
    ensures { MatchResult result
        (λ text. (t : Topology) × (law.checked bytes.now ≡ Ok t) × (source_for t ≡ option_map (λ x. x.items) text))
        (λ halt. HaltsAtCheck halt (law.checked bytes.now)) }
{
    let topology = topology_in(alloc, bytes)?;
    let plan = ruled_plan(alloc, &topology)?;
    match source(alloc, &topology, &plan) {
        Ok(text) => Ok(Some(text)),
        Err(NoSource::Lost) => Ok(None),
        Err(NoSource::OutOfMemory) => Err(Halt::OutOfMemory),
    }
}

/// Loads the topology file of this name, makes the file of its source and says how many bytes it has; or says why there is none.
/// Nothing is made where there is none, nor where there is no memory.
pub fn do_source<D: Desk>(alloc: Global, files: SourceFiles<'_>, desk: &mut D) -> u8
    ensures { Played D.means (make_source (source_files files.entry.topology.now files.entry.out.now)) desk.old [] result desk.new }
{
    let bytes = match fetch(alloc, desk, files.topology, LIMIT, b"too long topology\n") {
        Ok(bytes) => bytes,
        Err(status) => return status,
    };
    match sourced(alloc, &bytes) {
        Ok(Some(text)) => status_of(make_file(desk, files.out, &text).is_ok()),
        Ok(None) => stop(desk, b"topology no source\n", 2),
        Err(halt) => stop_for(desk, halt),
    }
}
