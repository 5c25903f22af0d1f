// A widget's controls: a head, and what each kind has after it.
ghost use Rattle.std.specs.Prelude.{◌≡◌, ◌<◌, ◌^◌, OnOk, length};
ghost use Rattle.sof_base.specs.Slots.{AreSlots};
ghost use Rattle.tplg_model.specs.Spelling.{IsControl, HasLengths, control_head_slots, kcontrol_slots, control_cells};
ghost use Rattle.tplg_write.specs.Sinks.{with_fields, with_cells};

use crate::items::Spelled;
use crate::sink::Sink;
use sof_base::NoMemory;
use tplg_model::{Control, ControlHead, control_kind};

// A control's head, with the number of its kind.
#[tactic(auto, unfolding(sof_base::specs::Slots::AreSlots, sof_base::specs::Slots::IsSlot))]
fn put_control_head(kind: u32, head: &ControlHead, sink: &mut Sink) -> Result<(), NoMemory>
    ensures ok { OnOk result (sink.new ≡ with_fields sink.old (control_head_slots kind head.now)) }
    ensures is { OnOk result (AreSlots (control_head_slots kind head.now)) }
    ensures tlv { OnOk result (length head.now.tlv ≡ 32) }
    ensures front { sink.new.front ≡ sink.old.front }
{
    sink.size(204)?;
    sink.word(head.type_word)?;
    sink.label(&head.name)?;
    sink.word(head.access)?;
    sink.word(head.get)?;
    sink.word(head.put)?;
    sink.word(kind)?;
    sink.word(head.tlv_size)?;
    sink.word(head.tlv_type)?;
    sink.words(&head.tlv)?;
    Ok(())
}

// The words of a control. Its private data has fewer than 2^32 bytes.
#[tactic(auto, unfolding(sof_base::specs::Slots::AreSlots, sof_base::specs::Slots::IsSlot))]
fn put_control(control: &Control, sink: &mut Sink) -> Result<(), NoMemory>
    requires { length (control_cells control.now) < 2 ^ 32 }
    ensures ok { OnOk result (sink.new ≡ with_fields sink.old (kcontrol_slots control.now)) }
    ensures is { OnOk result (IsControl control.now) }
    ensures front { sink.new.front ≡ sink.old.front }
{
    match control {
        Control::Mixer {
            head,
            min,
            max,
            platform_max,
            invert,
            num_channels,
            channels,
            private,
        } => {
            put_control_head(control_kind::MIXER, head, sink)?;
            sink.size(360)?;
            sink.word(min.cast_unsigned())?;
            sink.word(max.cast_unsigned())?;
            sink.word(platform_max.cast_unsigned())?;
            sink.word(*invert)?;
            sink.word(*num_channels)?;
            sink.words(channels)?;
            sink.word(private.items().len() as u32)?;
            sink.raw(private.items())?;
            Ok(())
        }
        Control::Enum {
            head,
            num_channels,
            channels,
            items,
            mask,
            count,
            texts,
            values,
            private,
        } => {
            put_control_head(control_kind::ENUM, head, sink)?;
            sink.size(1764)?;
            sink.word(*num_channels)?;
            sink.words(channels)?;
            sink.word(*items)?;
            sink.word(*mask)?;
            sink.word(*count)?;
            sink.raw(texts)?;
            sink.words(values)?;
            sink.word(private.items().len() as u32)?;
            sink.raw(private.items())?;
            Ok(())
        }
        Control::Bytes {
            head,
            max,
            mask,
            base,
            num_regs,
            ext_ops,
            private,
        } => {
            put_control_head(control_kind::BYTES, head, sink)?;
            sink.size(240)?;
            sink.word(*max)?;
            sink.word(*mask)?;
            sink.word(*base)?;
            sink.word(*num_regs)?;
            sink.words(ext_ops)?;
            sink.word(private.items().len() as u32)?;
            sink.raw(private.items())?;
            Ok(())
        }
    }
}

impl Spelled for Control {
    ghost cells = { control_cells };

    ghost is = { IsControl };

    #[tactic(auto, using(sof_base::proofs::WriteLaws::part_slots), unfolding(sof_base::specs::Slots::AreSlots, sof_base::specs::Slots::IsSlot))]
    fn put(&self, sink: &mut Sink) -> Result<(), NoMemory> {
        put_control(self, sink)?;
        Ok(())
    }
}
