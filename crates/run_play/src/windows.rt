// The windows of the inputs, which are filled from their files.
ghost use Rattle.std.specs.Prelude.{◌≡◌};
ghost use Rattle.sof_io.specs.Takes.{input_slots};
ghost use Rattle.run_play.specs.Opening.{AreOpened, SameFiles};
ghost use Rattle.run_play.specs.Refills.{Refilled};

use sof_desk::Desk;
use sof_io::Inputs;

/// The most bytes of one read.
pub const READ_BYTES: usize = 65536;

/// The most bytes that one unit takes of an input: those of 16 ticks.
const UNIT_BYTES: usize = 983040;

/// Reads the inputs' files until each input holds enough for one unit or has ended; answers whether all reads were done. The files
/// of the inputs are open.
pub fn refill<D: Desk>(desk: &mut D, inputs: &mut Inputs, buffer: &mut [u8; READ_BYTES]) -> bool
    requires { AreOpened D.means (input_slots inputs.old) desk.old }
    ensures filled { Refilled D.means result inputs.old inputs.new desk.old desk.new }
    ensures slots { input_slots inputs.new ≡ input_slots inputs.old }
    ensures same { SameFiles D.means desk.old desk.new }
{
    // What the type keeps is known of inputs that are counted.
    let _count = inputs.len();
    while let Some(slot) = inputs.wanting(UNIT_BYTES) {
        match desk.read(slot, buffer) {
            Ok(0) => inputs.end(slot),
            Ok(count) => inputs.fill(slot, &buffer[..count]),
            Err(_) => return false,
        }
    }
    true
}
