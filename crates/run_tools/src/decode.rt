// All of `decode`.
ghost use Rattle.std.specs.Prelude.{[], ◌∷◌, ◌≡◌};
ghost use Rattle.ipc3_trace.specs.EntryLines.{entry_line};
ghost use Rattle.ipc3_trace.specs.Reading.{trace_in};
ghost use Rattle.ipc3_trace.specs.FaultLines.{trace_fault_line};
ghost use Rattle.run_desk.specs.Todo.{DeskPhase, Played, Stop};
ghost use Rattle.run_desk.specs.LinesTodo.{lines_todo};
ghost use Rattle.run_tools.specs.DecodeTodo.{decode, decoded_todo};

use ipc3_trace::{Entry, Next, ReplayFault, TraceFault, describe, record_at, write_replay_fault};
use run_desk::{TRACE_LIMIT, fetch, stop};
use sof_desk::Desk;
use sof_script::Line;
use std::alloc::Global;

// Says the line of a record; answers whether that was done.
fn say_record<D: Desk>(desk: &mut D, entry: &Entry, line: &mut Line) -> bool
    ensures { DeskPhase D.means (lines_todo (entry_line entry.now ∷ [])) result desk.old desk.new }
{
    describe(entry, line);
    line.say(b"\n");
    desk.say(line.bytes()).is_ok()
}

// Says the first fault of a trace, and gives the status.
fn stop_at<D: Desk>(desk: &mut D, fault: TraceFault, line: &mut Line) -> u8
    ensures { Played D.means (Stop (trace_fault_line fault) 2) desk.old [] result desk.new }
{
    write_replay_fault(ReplayFault::Broken(fault), line);
    stop(desk, line.bytes(), 2)
}

// Says a line for each record up to the end or the first fault, and then that of the fault.
fn say_records<D: Desk>(desk: &mut D, bytes: &[u8]) -> u8
    ensures { Played D.means (decoded_todo (trace_in bytes.now).0 (trace_in bytes.now).1) desk.old [] result desk.new }
{
    let mut line = Line::new();
    let mut at = 0;
    'records: loop {
        match record_at(bytes, at) {
            Ok(Next::One { entry, next }) => {
                if !say_record(desk, &entry, &mut line) {
                    return 3;
                }
                at = next;
            }
            Ok(Next::End) => return 0,
            Err(fault) => return stop_at(desk, fault, &mut line),
        }
    }
}

/// Loads the trace of this name, and says a line for each record up to the first fault, and then that of the fault.
pub fn do_decode<D: Desk>(alloc: Global, name: &str, desk: &mut D) -> u8
    ensures { Played D.means (decode name.now) desk.old [] result desk.new }
{
    match fetch(alloc, desk, name, TRACE_LIMIT, b"too long trace\n") {
        Ok(bytes) => say_records(desk, &bytes),
        Err(status) => status,
    }
}
