// A widget's controls, by their kinds.
ghost use Rattle.std.specs.Prelude.{◌≡◌, ◌≤◌, length, IfOk};
ghost use Rattle.tplg_model.specs.Outcomes.{Gives};
ghost use Rattle.tplg_model.specs.Reading as reading;

use crate::fields::{kept, name_at, tail_size};
use crate::items::Item;
use sof_base::{Name44, bytes_at, word, words_at};
use std::alloc::Global;
use tplg_model::{Control, ControlHead, TplgFault, control_kind};

/// The head of a control, whose name was read.
#[tactic(auto, unfolding(tplg_model::specs::Reading::control_head_with))]
fn head_with(name: Name44, bytes: &[u8]) -> ControlHead
    requires { 204 ≤ length bytes.now }
    ensures { result ≡ reading.control_head_with name bytes.now }
{
    ControlHead {
        type_word: word(bytes, 4),
        name,
        access: word(bytes, 52),
        get: word(bytes, 56),
        put: word(bytes, 60),
        tlv_size: word(bytes, 68),
        tlv_type: word(bytes, 72),
        tlv: words_at(bytes, 76),
    }
}

#[tactic(auto, unfolding(tplg_model::specs::Reading::mixer_step))]
fn mixer_at(alloc: Global, at: usize, bytes: &[u8]) -> Result<(Control, usize), TplgFault>
    ensures gives { Gives (λ x. x) result (reading.mixer_step at bytes.now) }
    ensures within { IfOk result (λ x. x.1 ≤ length bytes.now) }
{
    let size = tail_size(360, at, bytes)?;
    let name = name_at(at, bytes, 8)?;
    let private = kept(alloc, &bytes[360..360 + size])?;
    let mixer = Control::Mixer {
        head: head_with(name, bytes),
        min: word(bytes, 208).cast_signed(),
        max: word(bytes, 212).cast_signed(),
        platform_max: word(bytes, 216).cast_signed(),
        invert: word(bytes, 220),
        num_channels: word(bytes, 224),
        channels: words_at(bytes, 228),
        private,
    };
    Ok((mixer, 360 + size))
}

#[tactic(auto, unfolding(tplg_model::specs::Reading::enum_step))]
fn enum_at(alloc: Global, at: usize, bytes: &[u8]) -> Result<(Control, usize), TplgFault>
    ensures gives { Gives (λ x. x) result (reading.enum_step at bytes.now) }
    ensures within { IfOk result (λ x. x.1 ≤ length bytes.now) }
{
    let size = tail_size(1764, at, bytes)?;
    let name = name_at(at, bytes, 8)?;
    let private = kept(alloc, &bytes[1764..1764 + size])?;
    let control = Control::Enum {
        head: head_with(name, bytes),
        num_channels: word(bytes, 208),
        channels: words_at(bytes, 212),
        items: word(bytes, 340),
        mask: word(bytes, 344),
        count: word(bytes, 348),
        texts: bytes_at(bytes, 352),
        values: words_at(bytes, 1056),
        private,
    };
    Ok((control, 1764 + size))
}

#[tactic(auto, unfolding(tplg_model::specs::Reading::bytes_step))]
fn bytes_control_at(alloc: Global, at: usize, bytes: &[u8]) -> Result<(Control, usize), TplgFault>
    ensures gives { Gives (λ x. x) result (reading.bytes_step at bytes.now) }
    ensures within { IfOk result (λ x. x.1 ≤ length bytes.now) }
{
    let size = tail_size(240, at, bytes)?;
    let name = name_at(at, bytes, 8)?;
    let private = kept(alloc, &bytes[240..240 + size])?;
    let control = Control::Bytes {
        head: head_with(name, bytes),
        max: word(bytes, 208),
        mask: word(bytes, 212),
        base: word(bytes, 216),
        num_regs: word(bytes, 220),
        ext_ops: words_at(bytes, 224),
        private,
    };
    Ok((control, 240 + size))
}

/// The fault of a control of none of the three kinds.
#[tactic(auto, unfolding(tplg_model::specs::Reading::unknown_step))]
fn unknown_at(at: usize, bytes: &[u8]) -> Result<(Control, usize), TplgFault>
    requires { 204 ≤ length bytes.now }
    ensures gives { Gives (λ x. x) result (reading.unknown_step at bytes.now) }
    ensures within { IfOk result (λ x. x.1 ≤ length bytes.now) }
{
    let _name = name_at(at, bytes, 8)?;
    Err(TplgFault::ControlKind(at, word(bytes, 64)))
}

impl Item for Control {
    ghost step = { reading.control_step };

    #[tactic(auto, unfolding(tplg_model::specs::Reading::control_step))]
    fn read(alloc: Global, at: usize, bytes: &[u8]) -> Result<(Self, usize), TplgFault>
        ensures gives { Gives (λ x. x) result (reading.control_step at bytes.now) }
        ensures within { IfOk result (λ x. x.1 ≤ length bytes.now) }
    {
        if bytes.len() < 204 {
            return Err(TplgFault::Payload(at));
        }
        match word(bytes, 64) {
            control_kind::MIXER => mixer_at(alloc, at, bytes),
            control_kind::ENUM => enum_at(alloc, at, bytes),
            control_kind::BYTES => bytes_control_at(alloc, at, bytes),
            _ => unknown_at(at, bytes),
        }
    }
}
