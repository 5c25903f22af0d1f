// All of `compile`.
ghost use Rattle.std.specs.Prelude.{◌≡◌, ◌≤◌, ℕ, List, [], length, is_ok, Ok, Some, MatchResult};
ghost use Rattle.tplg_model.specs.declared.block.Topology.{Topology};
ghost use Rattle.tplg_model.specs.File.{IsTopology, spelling};
ghost use Rattle.tplg_compile.specs.Results.{FaultIs};
ghost use Rattle.tplg_compile.specs.InOrder.{compiled_of};
ghost use Rattle.run_desk.specs.Todo.{DeskPhase, Played, Stop};
ghost use Rattle.run_tools.specs.Compiling.{source_line, source_status};
ghost use Rattle.run_words.specs.FormParts.{names as names_of};
ghost use Rattle.run_tools.specs.CompileTodo.{compile as compile_todo, file_todo};

use crate::source_lines::write_source;
use run_desk::{LIMIT, fetch, say_count, status_of, stop};
use run_words::Names;
use sof_desk::{Desk, DeskFailed};
use sof_script::Line;
use std::alloc::Global;
use tplg_compile::{SourceFault, compile};
use tplg_write::write;

// The bytes of the topology that a text is the source of.
fn compiled(alloc: Global, text: &[u8]) -> Result<Vec<u8>, SourceFault>
    requires { length text.now ≤ 1048576 }
    ensures { MatchResult result
        (λ bytes. (t : Topology) × (compiled_of text.now ≡ Ok t) × (bytes.items ≡ spelling t) × IsTopology t)
        (λ fault. FaultIs fault (compiled_of text.now)) }
{
    let topology = compile(alloc, text)?;
    let mut bytes = Vec::new(alloc);
    match write(&topology, &mut bytes) {
        Ok(()) => Ok(bytes),
        Err(_) => Err(SourceFault::OutOfMemory),
    }
}

/// Creates the file of a name in slot 0, appends all its bytes at once, and says how many they are.
pub fn make_file<D: Desk>(desk: &mut D, out: &str, bytes: &[u8]) -> Result<(), DeskFailed>
    ensures { DeskPhase D.means (file_todo out.now bytes.now) (is_ok result) desk.old desk.new }
{
    desk.create(0, out)?;
    desk.append(0, bytes)?;
    say_count(desk, b"wrote ", bytes.len() as u64)
}

// Says why a source is refused.
fn refuse<D: Desk>(desk: &mut D, fault: SourceFault) -> u8
    ensures { Played D.means (Stop (source_line fault) (source_status fault)) desk.old [] result desk.new }
{
    let mut line = Line::new();
    write_source(fault, &mut line);
    let status = match fault {
        SourceFault::OutOfMemory => 7,
        _ => 4,
    };
    stop(desk, line.bytes(), status)
}

/// Loads the source of this name, makes the file of its topology and says how many bytes it has; or says why the source is
/// refused. Nothing is made of a source that is refused, nor where there is no memory.
pub fn do_compile<D: Desk>(alloc: Global, names: Names<'_>, desk: &mut D) -> u8
    ensures played { Played D.means (compile_todo (names_of names.entry.source.now names.entry.out.now)) desk.old [] result desk.new }
    // What is made is the file of a topology.
    ensures sound { result ≡ 0 → (text : List ℕ) (t : Topology) → D.means.holds desk.old names.entry.source.now ≡ Some text → compiled_of text ≡ Ok t → IsTopology t }
{
    let text = match fetch(alloc, desk, names.source, LIMIT, b"too long source\n") {
        Ok(bytes) => bytes,
        Err(status) => return status,
    };
    match compiled(alloc, &text) {
        Ok(bytes) => status_of(make_file(desk, names.out, &bytes).is_ok()),
        Err(fault) => refuse(desk, fault),
    }
}
