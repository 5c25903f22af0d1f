// Calls on a desk alone.
ghost use Rattle.std.specs.Prelude.{[], ◌≡◌, ℕ, List, MatchResult, if◌then◌else◌};
ghost use Rattle.run_desk.specs.Todo.{Played, Stop, Todo, Ask};
ghost use Rattle.sof_desk.specs.Desk.{Loaded};
ghost use Rattle.run_desk.specs.TopologyBytes.{AreBytes};
ghost use Rattle.run_desk.specs.Lines.{halt_line, halt_status};

use crate::lines::write_halt;
use crate::preparing::Halt;
use sof_desk::{Desk, LoadFault};
use sof_script::Line;
use std::alloc::Global;

/// The most bytes of a topology, and of a script.
pub const LIMIT: usize = 1048576;

/// The most bytes of a trace.
pub const TRACE_LIMIT: usize = 16777216;

/// Says a line, which has its newline, and gives the status: 3 where the desk failed.
pub fn stop<D: Desk>(desk: &mut D, line: &[u8], status: u8) -> u8
    ensures { Played D.means (Stop line.now status) desk.old [] result desk.new }
{
    if desk.say(line).is_ok() { status } else { 3 }
}

// What a slice of `u8`s holds is bytes. Nothing runs here.
fn are_bytes(bytes: &[u8])
    ensures { AreBytes bytes.now }
{}

/// A file's bytes, at most `limit`; or the status, once the line for it was said. `long` is said of a file that is too long.
pub fn fetch<D: Desk>(
    alloc: Global,
    desk: &mut D,
    name: &str,
    limit: usize,
    long: &[u8],
) -> Result<Vec<u8>, u8>
    ensures { MatchResult result
        (λ bytes. Loaded D.means name.now limit (Ok bytes.items) desk.old desk.new × AreBytes bytes.items)
        (λ status. (next : List ℕ → Todo) → Played D.means (Ask name.now limit long.now next) desk.old [] status desk.new) }
{
    match desk.load(alloc, name, limit) {
        Ok(bytes) => {
            are_bytes(&bytes);
            Ok(bytes)
        }
        Err(LoadFault::Failed) => Err(3),
        Err(LoadFault::TooLong) => Err(stop(desk, long, 5)),
        Err(LoadFault::OutOfMemory) => Err(stop(desk, b"no memory\n", 7)),
    }
}

/// The status of a run whose commands were all done, or whose desk failed.
pub fn status_of(done: bool) -> u8
    ensures { result ≡ (if done then 0 else 3) }
{
    if done { 0 } else { 3 }
}

/// Says why the files make no run.
pub fn stop_for<D: Desk>(desk: &mut D, halt: Halt) -> u8
    ensures { Played D.means (Stop (halt_line halt) (halt_status halt)) desk.old [] result desk.new }
{
    let mut line = Line::new();
    write_halt(halt, &mut line);
    stop(desk, line.bytes(), halt.status())
}
