// The controls of a widget.
ghost use Rattle.std.specs.Prelude.{◌≡◌, ◌≤◌, ◌*◌, true, length, map, IfOk};
ghost use Rattle.std.specs.List.{flat_map, list_all};
ghost use Rattle.std.specs.Int.{w32, cast_unsigned};
ghost use Rattle.tplg_model.specs.Arrays.{Each};
ghost use Rattle.tplg_model.specs.Spelling.{IsControl, items_cells, control_cells};
ghost use Rattle.tplg_build.specs.SmallSource.{is_small_control};
ghost use Rattle.tplg_build.specs.WidgetForm as form;

use crate::choices::Choices;
use crate::names::copied;
use crate::source::SourceControl;
use crate::tokens::{field, text_bytes};
use sof_base::{Items, Name44, NoMemory};
use std::alloc::Global;
use tplg_model::{Control, ControlHead};

/// Eight channel records: a size of 16, and zeros.
const CHANNELS: [u32; 32] = [
    16, 0, 0, 0, 16, 0, 0, 0, 16, 0, 0, 0, 16, 0, 0, 0, 16, 0, 0, 0, 16, 0, 0, 0, 16, 0, 0, 0, 16,
    0, 0, 0,
];

// A head without a scale.
fn plain_head(type_word: u32, name: Name44) -> ControlHead
    ensures { result ≡ form.plain_head type_word name }
{
    ControlHead {
        type_word,
        name,
        access: 0,
        get: 0,
        put: 0,
        tlv_size: 0,
        tlv_type: 0,
        tlv: [0; 32],
    }
}

// A head with a dB scale.
fn scaled_head(type_word: u32, name: Name44, min: i32, step: u32, mute: u32) -> ControlHead
    ensures { result ≡ form.scaled_head type_word name (cast_unsigned w32 min) step mute }
{
    let mut tlv = [0; 32];
    tlv[0] = min.cast_unsigned();
    tlv[1] = step;
    tlv[2] = mute;
    ControlHead {
        type_word,
        name,
        access: 0,
        get: 0,
        put: 0,
        tlv_size: 136,
        tlv_type: 1,
        tlv,
    }
}

// The texts in fields of 44 bytes, one after the other.
fn fields(alloc: Global, texts: &[Name44]) -> Result<Vec<u8>, NoMemory>
    ensures value { IfOk result (λ x. x.items ≡ flat_map (form.padded 44) texts.now) }
    ensures size { IfOk result (λ x. length x.items ≡ 44 * length texts.now) }
{
    let mut bytes = Vec::new(alloc);
    for text in texts {
        bytes.extend_from_slice(text_bytes(text).as_slice())?;
    }
    Ok(bytes)
}

// An enum control of these texts.
fn choice(alloc: Global, name: &Name44, items: &Choices) -> Result<Control, NoMemory>
    ensures value { IfOk result (λ x. x ≡ form.control_record (SourceControl.Choice name.now items.now)) }
    ensures is { IfOk result IsControl }
    ensures short { IfOk result (λ x. length (control_cells x) ≤ 1764) }
{
    let items = items.items();
    let count = items.len() as u32;
    let texts = fields(alloc, items)?;
    Ok(Control::Enum {
        head: plain_head(3, copied(name)),
        num_channels: 1,
        channels: CHANNELS,
        items: count,
        mask: 0,
        count,
        texts: field(texts.as_slice()),
        values: [0; 176],
        private: Items::new(alloc),
    })
}

// A bytes control with this blob.
fn data(alloc: Global, name: &Name44, max: u32, blob: &[u8]) -> Result<Control, NoMemory>
    requires { length blob.now ≤ 4000000 }
    ensures value { IfOk result (λ x. x ≡ form.control_record (SourceControl.Blob name.now max blob.now)) }
    ensures is { IfOk result IsControl }
    ensures short { IfOk result (λ x. length (control_cells x) ≤ 4001764) }
{
    Ok(Control::Bytes {
        head: plain_head(2, copied(name)),
        max,
        mask: 0,
        base: 0,
        num_regs: 0,
        ext_ops: [0; 3],
        private: Items::from_vec(Vec::from_slice(alloc, blob)?),
    })
}

// The control that a source states.
fn control(alloc: Global, control: &SourceControl) -> Result<Control, NoMemory>
    requires { is_small_control control.now ≡ true }
    ensures value { IfOk result (λ x. x ≡ form.control_record control.now) }
    ensures is { IfOk result IsControl }
    ensures short { IfOk result (λ x. length (control_cells x) ≤ 4001764) }
{
    match control {
        SourceControl::Volume {
            name,
            channels,
            min,
            max,
            tlv_min,
            tlv_step,
            tlv_mute,
        } => Ok(Control::Mixer {
            head: scaled_head(1, copied(name), *tlv_min, *tlv_step, *tlv_mute),
            min: *min,
            max: *max,
            platform_max: *max,
            invert: 0,
            num_channels: *channels,
            channels: CHANNELS,
            private: Items::new(alloc),
        }),
        SourceControl::Choice { name, items } => choice(alloc, name, items),
        SourceControl::Blob { name, max, blob } => data(alloc, name, *max, blob.items()),
    }
}

/// The controls that a source states, in their order.
pub fn controls(alloc: Global, stated: &[SourceControl]) -> Result<Items<Control>, NoMemory>
    requires few { length stated.now ≤ 1000 }
    requires small { list_all is_small_control stated.now ≡ true }
    ensures value { IfOk result (λ x. x ≡ map form.control_record stated.now) }
    ensures are { IfOk result (Each IsControl) }
    ensures few { IfOk result (λ x. length x ≤ 1000) }
    ensures short { IfOk result (λ x. length (items_cells control_cells x) ≤ 4001764000) }
{
    let mut controls = Items::new(alloc);
    for one in stated {
        controls.push(control(alloc, one)?)?;
    }
    Ok(controls)
}
