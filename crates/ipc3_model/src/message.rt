// What host and firmware say to each other.
ghost use Rattle.std.specs.Prelude.{◌≡◌};
ghost use Rattle.ipc3_model.specs.Messages as messages;

use crate::component_type::CompType;
use sof_base::{Bounded, Params, Part};

/// The words of a COMP_NEW that its component's type has. A direction is 0 for playback and 1 for capture; gains are in
/// units of 1 / 65536; a ramp is its type, of which 0 is a straight line, and an initial ramp its milliseconds.
#[derive(Clone, Copy, Debug, PartialEq, Eq)]
pub enum CompWords {
    Host {
        direction: u32,
    },
    Dai {
        direction: u32,
        index: u32,
    },
    Volume {
        channels: u32,
        min_value: u32,
        max_value: u32,
        ramp: u32,
        initial_ramp: u32,
    },
    Mixer,
    Mux,
    Eq,
    Demux,
}

impl CompWords {
    /// The type of the component.
    pub fn comp_type(self) -> CompType
        ensures { result ≡ messages.comp_type self }
    {
        match self {
            CompWords::Host { .. } => CompType::Host,
            CompWords::Dai { .. } => CompType::Dai,
            CompWords::Volume { .. } => CompType::Volume,
            CompWords::Mixer => CompType::Mixer,
            CompWords::Mux => CompType::Mux,
            CompWords::Eq => CompType::EqIir,
            CompWords::Demux => CompType::Demux,
        }
    }

    /// How many bytes its COMP_NEW has.
    pub fn comp_size(self) -> u32
        ensures { result ≡ messages.comp_size self }
    {
        match self {
            CompWords::Host { .. } => 76,
            CompWords::Dai { .. } => 80,
            CompWords::Volume { .. } => 84,
            CompWords::Mixer => 64,
            CompWords::Mux => 64,
            CompWords::Eq => 100,
            CompWords::Demux => 100,
        }
    }
}

/// A message of the host, with the words that carry something; all other words are written as the profile says and not
/// looked at when they are read.
#[derive(Debug, Drop)]
pub enum Message {
    /// A component with this id in the pipeline of this index. A DAI's frame format is 0 (S16_LE), 1 (S24_4LE) or 2 (S32_LE).
    CompNew {
        id: u32,
        pipe: u32,
        periods_sink: u32,
        periods_source: u32,
        frame_fmt: u32,
        kind: CompWords,
    },
    /// A component is taken away.
    CompFree {
        id: u32,
    },
    /// A buffer and a component are joined.
    Connect {
        source: u32,
        sink: u32,
    },
    /// A pipeline of this index, whose period in µs is a multiple of 1000 from 1000 to 10000.
    PipeNew {
        id: u32,
        pipe: u32,
        sched: u32,
        period: u32,
        priority: u32,
        mips: u32,
        frames: u32,
        time_domain: u32,
    },
    /// A pipeline is taken away.
    PipeFree {
        id: u32,
    },
    /// All of a pipeline is there.
    PipeComplete {
        id: u32,
    },
    /// A buffer of this many bytes, from 16 to 16777184.
    BufferNew {
        id: u32,
        pipe: u32,
        size: u32,
        caps: u32,
    },
    /// A buffer is taken away.
    BufferFree {
        id: u32,
    },
    /// The power will be cut.
    CtxSave,
    /// The gains of a volume by channel (command 0), the choice of a mux (command 1), or the masks of a demux by output (command 2): 1 to
    /// 8 values.
    SetValue {
        id: u32,
        command: u32,
        values: Bounded<u32, 8>,
    },
    /// Those values are asked for.
    GetValue {
        id: u32,
        command: u32,
    },
    /// A part of an equaliser's blob.
    SetData {
        id: u32,
        part: Part,
    },
    /// The part of this number is asked for, counted from 0.
    GetData {
        id: u32,
        index: u32,
    },
    /// A stream's parameters, by its host component and its direction.
    PcmParams {
        host: u32,
        direction: u32,
        params: Params,
    },
    /// A stream is without parameters.
    PcmFree {
        id: u32,
    },
    TrigStart {
        id: u32,
    },
    TrigStop {
        id: u32,
    },
    TrigPause {
        id: u32,
    },
    TrigRelease {
        id: u32,
    },
}
