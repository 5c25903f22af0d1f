// PCMs, with their stream records and caps.
ghost use Rattle.std.specs.Prelude.{◌≡◌, ◌≤◌, ◌+◌, length, IfOk};
ghost use Rattle.tplg_model.specs.Outcomes.{Gives};
ghost use Rattle.tplg_model.specs.Reading as reading;

use crate::fields::{kept, name_at, tail_size};
use crate::items::Item;
use sof_base::{Items, long, word};
use std::alloc::Global;
use tplg_model::{Caps, Pcm, StreamRecord, Streams, TplgFault};

#[tactic(auto, unfolding(tplg_model::specs::Reading::stream_step))]
fn stream_at(at: usize, bytes: &[u8], off: usize) -> Result<StreamRecord, TplgFault>
    requires { off + 72 ≤ length bytes.now }
    ensures { Gives (λ x. x) result (reading.stream_step at bytes.now off) }
{
    let name = name_at(at, bytes, off + 4)?;
    Ok(StreamRecord {
        name,
        format: long(bytes, off + 48),
        rate: word(bytes, off + 56),
        period_bytes: word(bytes, off + 60),
        buffer_bytes: word(bytes, off + 64),
        channels: word(bytes, off + 68),
    })
}

#[tactic(auto, unfolding(tplg_model::specs::Reading::caps_step))]
fn caps_at(at: usize, bytes: &[u8], off: usize) -> Result<Caps, TplgFault>
    requires { off + 104 ≤ length bytes.now }
    ensures { Gives (λ x. x) result (reading.caps_step at bytes.now off) }
{
    let name = name_at(at, bytes, off + 4)?;
    Ok(Caps {
        name,
        formats: long(bytes, off + 48),
        rates: word(bytes, off + 56),
        rate_min: word(bytes, off + 60),
        rate_max: word(bytes, off + 64),
        channels_min: word(bytes, off + 68),
        channels_max: word(bytes, off + 72),
        periods_min: word(bytes, off + 76),
        periods_max: word(bytes, off + 80),
        period_size_min: word(bytes, off + 84),
        period_size_max: word(bytes, off + 88),
        buffer_size_min: word(bytes, off + 92),
        buffer_size_max: word(bytes, off + 96),
        sig_bits: word(bytes, off + 100),
    })
}

fn streams_at(alloc: Global, at: usize, bytes: &[u8]) -> Result<Streams, TplgFault>
    requires { 912 ≤ length bytes.now }
    ensures { Gives (λ x. x) result (reading.streams_step at bytes.now) }
{
    let mut streams = Items::new(alloc);
    for k in 0..8 {
        let stream = stream_at(at, bytes, 112 + 72 * k)?;
        streams.push(stream)?;
    }
    Ok(Streams::of(streams))
}

impl Item for Pcm {
    ghost step = { reading.pcm_step };

    #[tactic(auto, unfolding(tplg_model::specs::Reading::pcm_step))]
    fn read(alloc: Global, at: usize, bytes: &[u8]) -> Result<(Self, usize), TplgFault>
        ensures gives { Gives (λ x. x) result (reading.pcm_step at bytes.now) }
        ensures within { IfOk result (λ x. x.1 ≤ length bytes.now) }
    {
        let size = tail_size(912, at, bytes)?;
        let name = name_at(at, bytes, 4)?;
        let dai_name = name_at(at, bytes, 48)?;
        let streams = streams_at(alloc, at, bytes)?;
        let play = caps_at(at, bytes, 692)?;
        let cap = caps_at(at, bytes, 796)?;
        let private = kept(alloc, &bytes[912..912 + size])?;
        Ok((
            Pcm {
                name,
                dai_name,
                pcm_id: word(bytes, 92),
                dai_id: word(bytes, 96),
                playback: word(bytes, 100),
                capture: word(bytes, 104),
                compress: word(bytes, 108),
                streams,
                num_streams: word(bytes, 688),
                play,
                cap,
                flag_mask: word(bytes, 900),
                flags: word(bytes, 904),
                private,
            },
            912 + size,
        ))
    }
}
