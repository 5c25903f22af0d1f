// PCMs: a block each.
ghost use Rattle.std.specs.Prelude.{◌≡◌, IfOk};
ghost use Rattle.sof_base.specs.Slots.{AreSlots};
ghost use Rattle.tplg_model.specs.Spelling.{caps_slots, IsPcm, IsBlock};
ghost use Rattle.tplg_build.specs.PcmForm as form;
ghost use Rattle.tplg_build.specs.TopologyForm as topology;
ghost use Rattle.tplg_build.specs.Payloads.{empty_stream};

use crate::blocks::block;
use crate::names::{copied, empty_name};
use crate::source::{PcmLimits, SourcePcm};
use sof_base::{Items, Name44, NoMemory};
use std::alloc::Global;
use tplg_model::{Block, Body, Caps, Pcm, StreamRecord, Streams};

// Caps of a name, with these limits.
fn caps_with(name: &Name44, limits: PcmLimits) -> Caps
    ensures value { result ≡ form.caps_with name.now limits }
    ensures is { AreSlots (caps_slots result) }
{
    Caps {
        name: copied(name),
        formats: limits.formats,
        rates: 0,
        rate_min: limits.rate_min,
        rate_max: limits.rate_max,
        channels_min: limits.channels_min,
        channels_max: limits.channels_max,
        periods_min: 0,
        periods_max: 0,
        period_size_min: 0,
        period_size_max: 0,
        buffer_size_min: 0,
        buffer_size_max: 0,
        sig_bits: 0,
    }
}

// The word that tells whether a direction is there, and its caps: zero caps where it is absent.
fn direction(name: &Option<Name44>, limits: PcmLimits) -> (u32, Caps)
    ensures flag { result.0 ≡ form.flag_of name.now }
    ensures caps { result.1 ≡ form.caps_of limits name.now }
    ensures is { AreSlots (caps_slots result.1) }
{
    match name {
        Some(name) => (1, caps_with(name, limits)),
        None => {
            let nothing = PcmLimits {
                formats: 0,
                rate_min: 0,
                rate_max: 0,
                channels_min: 0,
                channels_max: 0,
            };
            (0, caps_with(&empty_name(), nothing))
        }
    }
}

// An empty stream record.
fn empty_stream() -> StreamRecord
    ensures { result ≡ empty_stream }
{
    StreamRecord {
        name: empty_name(),
        format: 0,
        rate: 0,
        period_bytes: 0,
        buffer_bytes: 0,
        channels: 0,
    }
}

// Eight empty stream records.
fn streams(alloc: Global) -> Result<Streams, NoMemory>
    ensures { IfOk result (λ x. x ≡ form.empty_streams) }
{
    let mut streams = Items::new(alloc);
    for _ in 0..8usize {
        streams.push(empty_stream())?;
    }
    Ok(Streams::of(streams))
}

// The PCM that a source states.
fn pcm(alloc: Global, stated: &SourcePcm) -> Result<Pcm, NoMemory>
    ensures value { IfOk result (λ x. x ≡ form.pcm_of stated.now) }
    ensures is { IfOk result IsPcm }
{
    let SourcePcm { id, .. } = stated;
    let (playback, play) = direction(&stated.playback, stated.limits);
    let (capture, cap) = direction(&stated.capture, stated.limits);
    Ok(Pcm {
        name: copied(&stated.name),
        dai_name: copied(&stated.name),
        pcm_id: *id,
        dai_id: *id,
        playback,
        capture,
        compress: 0,
        streams: streams(alloc)?,
        num_streams: 0,
        play,
        cap,
        flag_mask: 0,
        flags: 0,
        private: Items::new(alloc),
    })
}

/// The block of a PCM.
pub fn pcm_block(alloc: Global, stated: &SourcePcm) -> Result<Block, NoMemory>
    ensures value { IfOk result (λ x. x ≡ topology.pcm_block stated.now) }
    ensures is { IfOk result IsBlock }
{
    let mut pcms = Items::new(alloc);
    pcms.push(pcm(alloc, stated)?)?;
    Ok(block(0, Body::Pcms(pcms)))
}
