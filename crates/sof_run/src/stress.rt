// All of `stress`.
ghost use Rattle.std.specs.Prelude.{◌≡◌, ◌≤◌, None, is_ok};
ghost use Rattle.run_desk.specs.Todo.{DeskPhase};
ghost use Rattle.run_desk.specs.LinesTodo.{lines_todo};
ghost use Rattle.sof_run.specs.Forms.{StressGave};
ghost use Rattle.sof_run.specs.Stressing.{stress_lines};

use mbox_link::Dsp;
use run_desk::{Ended, Halt, say_count, status_of, stop_for};
use sof_desk::{Desk, DeskFailed};
use sof_stress::{Counts, stress};
use std::alloc::Global;

// Says the five numbers, line by line.
fn say_numbers<D: Desk>(desk: &mut D, counts: &Counts) -> Result<(), DeskFailed>
    ensures { DeskPhase D.means (lines_todo (stress_lines counts.now)) (is_ok result) desk.old desk.new }
{
    say_count(desk, b"messages ", counts.messages)?;
    say_count(desk, b"ticks ", counts.ticks)?;
    say_count(desk, b"done ", counts.done)?;
    say_count(desk, b"refused ", counts.refused)?;
    say_count(desk, b"bytes ", counts.bytes)
}

/// Carries out the stress of a number over the device, and says its five numbers.
pub fn do_stress<D: Desk, P: Dsp>(alloc: Global, seed: u32, desk: &mut D, dsp: P) -> Ended<P>
    requires off { P.means.on dsp ≡ None }
    requires pending { P.means.pending dsp ≡ 0 }
    requires most { seed ≤ 1000 }
    ensures { StressGave D.means P.means seed desk.old dsp result.status desk.new result.dsp }
{
    match stress(alloc, seed, dsp) {
        Ok(stressed) => {
            let said = say_numbers(desk, &stressed.counts);
            Ended {
                status: status_of(said.is_ok()),
                dsp: stressed.dsp,
            }
        }
        Err(refused) => Ended {
            status: stop_for(desk, Halt::OutOfMemory),
            dsp: refused.dsp,
        },
    }
}
