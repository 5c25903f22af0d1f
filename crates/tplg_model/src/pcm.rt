// A PCM: what user space opens.
ghost use Rattle.std.specs.Prelude.{◌≡◌, length};

use sof_base::{Items, Name44};
use std::marker::Model;

/// What a direction of a PCM can do. Bits of `formats`: 2 for S16_LE, 6 for S24_LE and 10 for S32_LE. Rates are frames a
/// second, sizes bytes.
#[derive(Debug, Drop)]
pub struct Caps {
    pub name: Name44,
    pub formats: u64,
    pub rates: u32,
    pub rate_min: u32,
    pub rate_max: u32,
    pub channels_min: u32,
    pub channels_max: u32,
    pub periods_min: u32,
    pub periods_max: u32,
    pub period_size_min: u32,
    pub period_size_max: u32,
    pub buffer_size_min: u32,
    pub buffer_size_max: u32,
    pub sig_bits: u32,
}

/// A stream's parameters as a file proposes them.
#[derive(Debug, Drop)]
pub struct StreamRecord {
    pub name: Name44,
    pub format: u64,
    pub rate: u32,
    pub period_bytes: u32,
    pub buffer_bytes: u32,
    pub channels: u32,
}

/// The eight stream records of a PCM.
#[derive(Debug, Drop)]
pub struct Streams {
    list: Items<StreamRecord>,
}

impl Model for Streams {
    ghost use Rattle.std.specs.Prelude.{List, length, ◌≡◌};
    ghost use Rattle.tplg_model.specs.declared.pcm.StreamRecord.{StreamRecord};

    ghost Value = { List StreamRecord };

    ghost view = { λ a. a.list };

    ghost invariant = { λ a. length a.list ≡ 8 };
}

impl Streams {
    /// The stream records of a PCM: eight.
    pub fn of(list: Items<StreamRecord>) -> Streams
        requires { length list ≡ 8 }
        ensures { result ≡ list }
    {
        Streams { list }
    }

    pub fn items(&self) -> &[StreamRecord]
        ensures value { result.now ≡ self.now }
        ensures eight { length self.now ≡ 8 }
    {
        self.list.items()
    }
}

/// A PCM, with eight stream records and the caps of playback and of capture.
#[derive(Debug, Drop)]
pub struct Pcm {
    pub name: Name44,
    pub dai_name: Name44,
    pub pcm_id: u32,
    pub dai_id: u32,
    pub playback: u32,
    pub capture: u32,
    pub compress: u32,
    pub streams: Streams,
    pub num_streams: u32,
    pub play: Caps,
    pub cap: Caps,
    pub flag_mask: u32,
    pub flags: u32,
    pub private: Items<u8>,
}
