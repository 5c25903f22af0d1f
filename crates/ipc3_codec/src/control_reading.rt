// ctrl_data in messages and replies, and the values or the part after it.
ghost use Rattle.std.specs.Prelude.{◌≡◌, ◌≤◌, ◌<◌, ◌+◌, ◌*◌, true, IfOk};
ghost use Rattle.sof_base.specs.Slots.{word_at};
ghost use Rattle.ipc3_model.specs.ControlWords.{takes_count};
ghost use Rattle.ipc3_codec.specs.Reading.{target_in, control_in, pair_in, values_read, part_read};

use crate::frame::Frame;
use ipc3_model::CodecFault;
use ipc3_model::control_kind::ControlKind;
use sof_base::{Bounded, Part};

/// The words of ctrl_data after its type that carry something.
#[derive(Clone, Copy)]
pub struct Control {
    pub command: u32,
    pub count: u32,
    pub remaining: u32,
    pub index: u32,
}

/// The words of ctrl_data up to its type: error, the component's id, and the type.
#[tactic(auto, unfolding(crate::specs::Reading::target_in))]
pub fn target(frame: &Frame, kind: ControlKind) -> Result<u32, CodecFault>
    ensures { result ≡ target_in frame.now kind }
{
    let _error = frame.word(8)?;
    let id = frame.word(12)?;
    let _type = frame.control_type(16, kind)?;
    Ok(id)
}

/// The words after the type, up to byte 92.
#[tactic(auto, unfolding(crate::specs::Reading::control_in))]
pub fn control_words(frame: &Frame, kind: ControlKind) -> Result<Control, CodecFault>
    ensures read { result ≡ control_in frame.now kind }
    ensures count { IfOk result (λ c. (c.count ≡ word_at frame.now 56) × (takes_count kind c.count ≡ true)) }
    ensures part { IfOk result (λ c. (c.remaining ≡ word_at frame.now 60) × (c.index ≡ word_at frame.now 64)) }
{
    let command = frame.control_command(20, kind)?;
    // index and host buffer
    frame.run(4, 24, 8)?;
    let count = frame.count(56, kind)?;
    let remaining = frame.remaining(60, kind, count)?;
    let index = frame.word(64)?;
    // six reserved words
    frame.run(4, 68, 6)?;
    Ok(Control {
        command,
        count,
        remaining,
        index,
    })
}

/// The values after ctrl_data: so many pairs of a channel, in order, and its value.
pub fn values(frame: &Frame, count: u32) -> Result<Bounded<u32, 8>, CodecFault>
    requires small { count ≤ 8 }
    requires count { count ≡ word_at frame.now 56 }
    ensures { result ≡ values_read frame.now }
{
    let mut values = [0; 8];
    for i in 0..count as usize {
        values[i] = value(frame, i)?;
    }
    Bounded::new(&values[..count as usize]).ok_or(CodecFault::Field(56))
}

/// The value of this number, after its channel.
#[tactic(auto, unfolding(crate::specs::Reading::pair_in))]
fn value(frame: &Frame, number: usize) -> Result<u32, CodecFault>
    requires { number < 8 }
    ensures read { result ≡ pair_in frame.now number }
    ensures value { IfOk result (λ v. v ≡ word_at frame.now (96 + 8 * number)) }
{
    let _channel = frame.channel(92 + 8 * number, number as u32)?;
    frame.word(96 + 8 * number)
}

/// The part after ctrl_data: the blob's header and the part's bytes.
#[tactic(auto, unfolding(crate::specs::Reading::part_read))]
pub fn part(frame: &Frame, control: Control) -> Result<Part, CodecFault>
    requires small { control.count ≤ 260 }
    requires count { control.count ≡ word_at frame.now 56 }
    requires remaining { control.remaining ≡ word_at frame.now 60 }
    requires index { control.index ≡ word_at frame.now 64 }
    ensures { result ≡ part_read frame.now }
{
    frame.run(4, 92, 8)?;
    let bytes = frame.part_bytes(124, control.count as usize)?;
    Ok(Part {
        header: frame.blob_header(92),
        remaining: control.remaining,
        index: control.index,
        bytes,
    })
}
