// How a run ends.
ghost use Rattle.std.specs.Prelude.{◌≡◌, []};
ghost use Rattle.run_desk.specs.Todo.{Todo, Free, Played};

use crate::files::stop_for;
use crate::preparing::Halt;
use mbox_link::Dsp;
use sof_desk::Desk;

/// How a run ended, and the device as it stands.
#[derive(Drop)]
pub struct Ended<P: Dsp> {
    pub status: u8,
    pub dsp: P,
}

/// Says that there is no memory for what comes next, and hands the device back.
pub fn fail_no_memory<D: Desk, P: Dsp>(desk: &mut D, dsp: P) -> Ended<P>
    ensures said { (next : Todo) → Played D.means (Free next) desk.old [] result.status desk.new }
    ensures same { result.dsp ≡ dsp }
{
    Ended {
        status: stop_for(desk, Halt::OutOfMemory),
        dsp,
    }
}
