// The line of a record at fault.
ghost use Rattle.std.specs.Prelude.{◌≡◌};
ghost use Rattle.run_serve.specs.ServeWords.{fault_at, wrong_line};

use ipc3_trace::{ReplayFault, TraceFault, write_replay_fault};
use sof_base::Line;

/// What is wrong with a record of a driver.
#[derive(Clone, Copy, Debug, PartialEq, Eq)]
pub enum Wrong {
    /// Its bytes are no record.
    Broken(TraceFault),
    /// It can't come there.
    Order,
}

// A fault whose record stands at a place of the file.
fn fault_at(at: usize, fault: TraceFault) -> TraceFault
    ensures { result ≡ fault_at at fault }
{
    match fault {
        TraceFault::Short(_) => TraceFault::Short(at),
        TraceFault::Kind(_, number) => TraceFault::Kind(at, number),
        TraceFault::Size(_) => TraceFault::Size(at),
    }
}

/// Writes the line of a record at fault, which stands at a place, with its newline.
pub fn write_wrong(wrong: Wrong, at: usize, line: &mut Line)
    ensures { line.new ≡ wrong_line wrong at }
{
    match wrong {
        Wrong::Broken(fault) => write_replay_fault(ReplayFault::Broken(fault_at(at, fault)), line),
        Wrong::Order => write_replay_fault(ReplayFault::Order(at), line),
    }
}
