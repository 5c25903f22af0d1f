// Records of a fixed form: routes, manifests and PCMs, field by field in the order of their tables.
ghost use Rattle.std.specs.Prelude.{◌≡◌, ◌<◌, ◌^◌, OnOk, List, [], ◌∷◌, length};
ghost use Rattle.sof_base.specs.Cells.{fixed};
ghost use Rattle.sof_base.specs.Slots.{Word, slots_cells, AreSlots};
ghost use Rattle.tplg_model.specs.Spelling.{IsRoute, route_cells, IsManifest, manifest_cells, stream_record_slots, IsPcm, caps_slots, pcm_head_slots, pcm_tail_slots, pcm_cells, items_cells};
ghost use Rattle.tplg_model.specs.Storable.{stream_cells, caps_cells};
ghost use Rattle.tplg_write.specs.Sinks.{with_fields, with_cells};

use crate::items::{Spelled, put_items};
use crate::sink::Sink;
use sof_base::NoMemory;
use tplg_model::{Caps, Manifest, Pcm, Route, StreamRecord};

impl Spelled for Route {
    ghost cells = { route_cells };

    ghost is = { IsRoute };

    #[tactic(auto, using(sof_base::proofs::WriteLaws::part_slots), unfolding(sof_base::specs::Slots::AreSlots, sof_base::specs::Slots::IsSlot))]
    fn put(&self, sink: &mut Sink) -> Result<(), NoMemory> {
        sink.label(&self.sink)?;
        sink.label(&self.control)?;
        sink.label(&self.source)?;
        Ok(())
    }
}

impl Spelled for Manifest {
    ghost cells = { manifest_cells };

    ghost is = { IsManifest };

    #[tactic(auto, using(sof_base::proofs::WriteLaws::part_slots), unfolding(sof_base::specs::Slots::AreSlots, sof_base::specs::Slots::IsSlot))]
    fn put(&self, sink: &mut Sink) -> Result<(), NoMemory> {
        sink.size(112)?;
        sink.words(&self.words)?;
        sink.word(self.private.items().len() as u32)?;
        sink.raw(self.private.items())?;
        Ok(())
    }
}

impl Spelled for StreamRecord {
    ghost cells = { stream_cells };

    ghost is = { λ s. AreSlots (stream_record_slots s) };

    #[tactic(auto, using(sof_base::proofs::WriteLaws::part_slots), unfolding(sof_base::specs::Slots::AreSlots, sof_base::specs::Slots::IsSlot))]
    fn put(&self, sink: &mut Sink) -> Result<(), NoMemory> {
        sink.size(72)?;
        sink.label(&self.name)?;
        sink.long(self.format)?;
        sink.word(self.rate)?;
        sink.word(self.period_bytes)?;
        sink.word(self.buffer_bytes)?;
        sink.word(self.channels)?;
        Ok(())
    }
}

// The words of caps.
#[tactic(auto, unfolding(sof_base::specs::Slots::AreSlots, sof_base::specs::Slots::IsSlot))]
fn put_caps(caps: &Caps, sink: &mut Sink) -> Result<(), NoMemory>
    ensures ok { OnOk result (sink.new ≡ with_fields sink.old (caps_slots caps.now)) }
    ensures is { OnOk result (AreSlots (caps_slots caps.now)) }
    ensures front { sink.new.front ≡ sink.old.front }
{
    sink.size(104)?;
    sink.label(&caps.name)?;
    sink.long(caps.formats)?;
    sink.word(caps.rates)?;
    sink.word(caps.rate_min)?;
    sink.word(caps.rate_max)?;
    sink.word(caps.channels_min)?;
    sink.word(caps.channels_max)?;
    sink.word(caps.periods_min)?;
    sink.word(caps.periods_max)?;
    sink.word(caps.period_size_min)?;
    sink.word(caps.period_size_max)?;
    sink.word(caps.buffer_size_min)?;
    sink.word(caps.buffer_size_max)?;
    sink.word(caps.sig_bits)?;
    Ok(())
}

impl Spelled for Caps {
    ghost cells = { caps_cells };

    ghost is = { λ c. AreSlots (caps_slots c) };

    #[tactic(auto, using(sof_base::proofs::WriteLaws::part_slots), unfolding(sof_base::specs::Slots::AreSlots, sof_base::specs::Slots::IsSlot))]
    fn put(&self, sink: &mut Sink) -> Result<(), NoMemory> {
        put_caps(self, sink)?;
        Ok(())
    }
}

// A PCM, up to its stream records.
#[tactic(auto, using(sof_base::proofs::WriteLaws::part_slots), unfolding(sof_base::specs::Slots::AreSlots, sof_base::specs::Slots::IsSlot))]
fn put_pcm_head(pcm: &Pcm, sink: &mut Sink) -> Result<(), NoMemory>
    ensures ok { OnOk result (sink.new ≡ with_cells sink.old (slots_cells (pcm_head_slots pcm.now))) }
    ensures is { OnOk result (AreSlots (pcm_head_slots pcm.now)) }
    ensures front { sink.new.front ≡ sink.old.front }
{
    sink.size(912)?;
    sink.label(&pcm.name)?;
    sink.label(&pcm.dai_name)?;
    sink.word(pcm.pcm_id)?;
    sink.word(pcm.dai_id)?;
    sink.word(pcm.playback)?;
    sink.word(pcm.capture)?;
    sink.word(pcm.compress)?;
    Ok(())
}

// The number of its stream records that count.
#[tactic(auto, using(sof_base::proofs::WriteLaws::part_slots), unfolding(sof_base::specs::Slots::AreSlots, sof_base::specs::Slots::IsSlot))]
fn put_number(number: u32, sink: &mut Sink) -> Result<(), NoMemory>
    ensures ok { OnOk result (sink.new ≡ with_cells sink.old (slots_cells (Word number ∷ []))) }
    ensures is { AreSlots (Word number ∷ []) }
    ensures front { sink.new.front ≡ sink.old.front }
{
    sink.word(number)?;
    Ok(())
}

// From its flags on, up to its private data.
#[tactic(auto, using(sof_base::proofs::WriteLaws::part_slots), unfolding(sof_base::specs::Slots::AreSlots, sof_base::specs::Slots::IsSlot))]
fn put_pcm_tail(pcm: &Pcm, sink: &mut Sink) -> Result<(), NoMemory>
    requires { length pcm.now.private < 2 ^ 32 }
    ensures ok { OnOk result (sink.new ≡ with_cells sink.old (slots_cells (pcm_tail_slots pcm.now))) }
    ensures is { OnOk result (AreSlots (pcm_tail_slots pcm.now)) }
    ensures front { sink.new.front ≡ sink.old.front }
{
    sink.word(pcm.flag_mask)?;
    sink.word(pcm.flags)?;
    sink.word(pcm.private.items().len() as u32)?;
    Ok(())
}

// Bytes as they are.
#[tactic(auto, using(sof_base::proofs::WriteLaws::part_fixed))]
pub fn put_fixed(bytes: &[u8], sink: &mut Sink) -> Result<(), NoMemory>
    ensures ok { OnOk result (sink.new ≡ with_cells sink.old (fixed bytes.now)) }
    ensures front { sink.new.front ≡ sink.old.front }
{
    sink.raw(bytes)?;
    Ok(())
}

impl Spelled for Pcm {
    ghost cells = { pcm_cells };

    ghost is = { IsPcm };

    fn put(&self, sink: &mut Sink) -> Result<(), NoMemory> {
        put_pcm_head(self, sink)?;
        put_items(self.streams.items(), sink)?;
        put_number(self.num_streams, sink)?;
        self.play.put(sink)?;
        self.cap.put(sink)?;
        put_pcm_tail(self, sink)?;
        put_fixed(self.private.items(), sink)?;
        Ok(())
    }
}
