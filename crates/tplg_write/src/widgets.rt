// A widget: its words and names, its vendor arrays as private data, and its controls.
ghost use Rattle.std.specs.Prelude.{◌≡◌, ◌<◌, ◌^◌, OnOk, [], ◌∷◌, length};
ghost use Rattle.sof_base.specs.Slots.{Word, Raw};
ghost use Rattle.tplg_model.specs.Arrays.{AreArrays, arrays_spelling};
ghost use Rattle.tplg_model.specs.Spelling.{IsWidget, IsWidgetHead, widget_cells, widget_head_slots, head_of};
ghost use Rattle.tplg_write.specs.Sinks.{with_fields, with_cells};

use crate::items::{Spelled, put_items};
use crate::sink::Sink;
use sof_base::NoMemory;
use tplg_model::{TokenArray, Widget};

// Vendor arrays as private data: the number of their bytes, and their bytes.
fn put_tokens(tokens: &[TokenArray], sink: &mut Sink) -> Result<(), NoMemory>
    requires room { length (arrays_spelling tokens.now) < 2 ^ 32 }
    ensures ok { OnOk result (sink.new ≡ with_fields sink.old (Word (length (arrays_spelling tokens.now)) ∷ Raw (arrays_spelling tokens.now) ∷ [])) }
    ensures are { OnOk result (AreArrays tokens.now) }
    ensures front { sink.new.front ≡ sink.old.front }
{
    let place = sink.len();
    sink.word(0)?;
    sink.arrays(tokens)?;
    let size = sink.len() - place - 4;
    sink.patch(place, size as u32);
    Ok(())
}

// A widget up to its controls, of which it says only the number.
#[tactic(auto, unfolding(sof_base::specs::Slots::AreSlots, sof_base::specs::Slots::IsSlot))]
fn put_widget_head(widget: &Widget, sink: &mut Sink) -> Result<(), NoMemory>
    requires room { length (widget_cells widget.now) < 2 ^ 32 }
    ensures ok { OnOk result (sink.new ≡ with_fields sink.old (widget_head_slots (head_of widget.now))) }
    ensures is { OnOk result (IsWidgetHead (head_of widget.now)) }
    ensures front { sink.new.front ≡ sink.old.front }
{
    sink.size(132)?;
    sink.word(widget.id)?;
    sink.label(&widget.name)?;
    sink.label(&widget.sname)?;
    sink.words(&widget.words)?;
    sink.half(widget.event_flags)?;
    sink.half(widget.event_type)?;
    sink.word(widget.controls.items().len() as u32)?;
    put_tokens(widget.tokens.items(), sink)?;
    Ok(())
}

impl Spelled for Widget {
    ghost cells = { widget_cells };

    ghost is = { IsWidget };

    fn put(&self, sink: &mut Sink) -> Result<(), NoMemory> {
        put_widget_head(self, sink)?;
        put_items(self.controls.items(), sink)?;
        Ok(())
    }
}
