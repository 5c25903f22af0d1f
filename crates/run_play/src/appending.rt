// The bytes of the outputs, which are appended to their files.
ghost use Rattle.std.specs.Prelude.{◌≡◌, [], true};
ghost use Rattle.sof_io.specs.Bound.{output_slots};
ghost use Rattle.sof_session.specs.Written.{with_bytes, written_in};
ghost use Rattle.run_desk.specs.Todo.{DeskPhase};
ghost use Rattle.run_play.specs.Play.{flush_todo};
ghost use Rattle.run_play.specs.Opening.{AreCreated, SameFiles};

use sof_desk::Desk;
use sof_io::Outputs;

/// Appends bytes to the file of a slot, where there are any.
pub fn write_output<D: Desk>(desk: &mut D, slot: u32, bytes: &[u8]) -> bool
    requires { (bytes.now ≡ [] → ⊥) → D.means.created desk.old slot ≡ true }
    ensures phase { DeskPhase D.means (flush_todo (with_bytes slot bytes.now [])) result desk.old desk.new }
    ensures same { SameFiles D.means desk.old desk.new }
{
    if bytes.is_empty() {
        return true;
    }
    desk.append(slot, bytes).is_ok()
}

/// Appends the bytes of each output that has any, by ascending slot; answers whether all was done.
pub fn write_outputs<D: Desk>(desk: &mut D, outputs: &Outputs) -> bool
    requires { AreCreated D.means (output_slots outputs.now) desk.old }
    ensures phase { DeskPhase D.means (flush_todo (written_in outputs.now)) result desk.old desk.new }
    ensures same { SameFiles D.means desk.old desk.new }
{
    let mut place = 0;
    while place < outputs.len() {
        let (slot, bytes) = outputs.at(place);
        if !write_output(desk, slot, bytes) {
            return false;
        }
        place += 1;
    }
    true
}
