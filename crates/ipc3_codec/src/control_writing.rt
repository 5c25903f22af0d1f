// ctrl_data as bytes, in messages and replies, and the values or the part after it.
ghost use Rattle.std.specs.Prelude.{◌≡◌, ◌≤◌, ◌+◌, ◌*◌, ◌++◌, ◌∷◌, length, take};
ghost use Rattle.sof_base.specs.Cells.{written};
ghost use Rattle.sof_base.specs.Slots.{Word, slots_cells};
ghost use Rattle.ipc3_model.specs.ControlWords.{control_slots, value_slots, part_slots};
ghost use Rattle.ipc3_model.specs.declared.control_kind.ControlKind.TheVariants as kinds;

use crate::control_reading::Control;
use crate::written_words::{put, put_bytes, put_values};
use ipc3_model::control_kind::{CTRL_BINARY, ControlKind};
use sof_base::Part;

/// The first words of a message or a reply on a control.
#[derive(Clone, Copy)]
pub struct Head {
    pub size: u32,
    pub command: u32,
    pub error: u32,
    pub id: u32,
}

/// ctrl_data, 92 bytes.
#[tactic(auto, unfolding(sof_base::specs::Slots::words_bytes, sof_base::specs::Slots::slots_cells, sof_base::specs::Slots::slot_cells))]
pub fn put_control(out: &mut [u8; 384], head: Head, kind: ControlKind, control: Control) -> usize
    ensures end { result ≡ 92 }
    ensures bytes { take result out.new ≡ written (slots_cells (Word head.size ∷ Word head.command ∷ control_slots (Word head.error) (Word head.id) kind (Word control.command) (Word control.count) (Word control.remaining) (Word control.index))) }
{
    let at = put(out, 0, &[head.size, head.command, head.error, head.id]);
    let at = put(out, at, &[kind.type_word(), control.command, 0]);
    let at = put(out, at, &[28, 0, 0, 0, 0, 0, 0]);
    let at = put(out, at, &[control.count, control.remaining, control.index]);
    put(out, at, &[0; 6])
}

/// ctrl_data with values after it: 92 bytes and 8 for each.
#[tactic(auto, unfolding(sof_base::specs::Slots::slots_cells, sof_base::specs::Slots::slot_cells))]
pub fn put_value_control(
    out: &mut [u8; 384],
    command: u32,
    error: u32,
    id: u32,
    control_command: u32,
    values: &[u32],
) -> usize
    requires { length values.now ≤ 8 }
    ensures end { result ≡ 92 + 8 * length values.now }
    ensures bytes { take result out.new ≡ written (slots_cells (Word (92 + 8 * length values.now) ∷ Word command ∷ (control_slots (Word error) (Word id) kinds.SetValue (Word control_command) (Word (length values.now)) (Word 0) (Word 0) ++ value_slots 0 values.now))) }
{
    let count = values.len() as u32;
    let head = Head {
        size: 92 + 8 * count,
        command,
        error,
        id,
    };
    let control = Control {
        command: control_command,
        count,
        remaining: 0,
        index: 0,
    };
    let at = put_control(out, head, ControlKind::SetValue, control);
    put_values(out, at, values)
}

/// ctrl_data with a part after it: 124 bytes and those of the part.
#[tactic(auto, unfolding(sof_base::specs::Slots::slots_cells, sof_base::specs::Slots::slot_cells))]
pub fn put_part_control(
    out: &mut [u8; 384],
    command: u32,
    error: u32,
    id: u32,
    part: &Part,
) -> usize
    ensures end { result ≡ 124 + length part.now.bytes }
    ensures room { length part.now.bytes ≤ 260 }
    ensures bytes { take result out.new ≡ written (slots_cells (Word (124 + length part.now.bytes) ∷ Word command ∷ (control_slots (Word error) (Word id) kinds.SetData (Word 3) (Word (length part.now.bytes)) (Word part.now.remaining) (Word part.now.index) ++ part_slots part.now))) }
{
    let bytes = part.bytes.items();
    let count = bytes.len() as u32;
    let head = Head {
        size: 124 + count,
        command,
        error,
        id,
    };
    let control = Control {
        command: CTRL_BINARY,
        count,
        remaining: part.remaining,
        index: part.index,
    };
    let at = put_control(out, head, ControlKind::SetData, control);
    put_part(out, at, part)
}

/// Writes a part: the blob's header and the part's bytes.
#[tactic(auto, using(crate::proofs::WordList::part_bytes), unfolding(sof_base::specs::Slots::slots_cells))]
fn put_part(out: &mut [u8; 384], at: usize, part: &Part) -> usize
    requires { at ≤ 92 }
    ensures end { result ≡ at + 32 + length part.now.bytes }
    ensures bytes { take result out.new ≡ take at out.old ++ written (slots_cells (part_slots part.now)) }
{
    let at = put_bytes(out, at, &part.header);
    put_bytes(out, at, part.bytes.items())
}
