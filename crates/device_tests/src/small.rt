// Messages of small parts, and the states that some of them lead to from a boot.
use ipc3_codec::{CompWords, Message};
use sof_base::{Bounded, Format, Params, Part};

// ---- messages

pub fn component(id: u32, pipe: u32, kind: CompWords) -> Message {
    Message::CompNew {
        id,
        pipe,
        periods_sink: 0,
        periods_source: 0,
        frame_fmt: 2,
        kind,
    }
}

// A playback host, or a capture host.
pub fn host(id: u32, pipe: u32, direction: u32) -> Message {
    component(id, pipe, CompWords::Host { direction })
}

// A DAI that plays, or one that captures.
pub fn dai(id: u32, pipe: u32, direction: u32) -> Message {
    component(
        id,
        pipe,
        CompWords::Dai {
            direction,
            index: 0,
        },
    )
}

// A volume of two channels.
pub fn volume(id: u32, pipe: u32) -> Message {
    component(
        id,
        pipe,
        CompWords::Volume {
            channels: 2,
            min_value: 0,
            max_value: 65536,
            ramp: 0,
            initial_ramp: 0,
        },
    )
}

pub fn mixer(id: u32, pipe: u32) -> Message {
    component(id, pipe, CompWords::Mixer)
}

pub fn buffer(id: u32, pipe: u32) -> Message {
    sized(id, pipe, 16)
}

// A buffer of so many bytes.
pub fn sized(id: u32, pipe: u32, size: u32) -> Message {
    Message::BufferNew {
        id,
        pipe,
        size,
        caps: 0,
    }
}

pub fn pipeline(id: u32, pipe: u32, sched: u32) -> Message {
    Message::PipeNew {
        id,
        pipe,
        sched,
        period: 1000,
        priority: 0,
        mips: 0,
        frames: 0,
        time_domain: 0,
    }
}

pub fn join(source: u32, sink: u32) -> Message {
    Message::Connect { source, sink }
}

// Parameters of two channels of 16 bits.
pub fn params(host: u32, direction: u32, rate: u32) -> Message {
    Message::PcmParams {
        host,
        direction,
        params: Params {
            rate,
            channels: 2,
            format: Format::S16,
        },
    }
}

pub fn set_value(id: u32, command: u32, values: &[u32]) -> Message {
    Message::SetValue {
        id,
        command,
        values: Bounded::new(values).unwrap_or(Bounded::empty()),
    }
}

// A part of one byte, the first of a blob and the last.
pub fn set_data(id: u32) -> Message {
    Message::SetData {
        id,
        part: Part {
            header: [0; 32],
            remaining: 0,
            index: 0,
            bytes: Bounded::new(&[0]).unwrap_or(Bounded::empty()),
        },
    }
}

// ---- states

// A host, a buffer and a DAI in a pipeline that is not complete, joined to nothing.
pub fn parts() -> [Message; 4] {
    [host(0, 1, 0), buffer(1, 1), dai(2, 1, 0), pipeline(3, 1, 2)]
}

// They are joined, and the pipeline is complete.
pub fn thin() -> [Message; 7] {
    [
        host(0, 1, 0),
        buffer(1, 1),
        dai(2, 1, 0),
        pipeline(3, 1, 2),
        join(0, 1),
        join(1, 2),
        Message::PipeComplete { id: 3 },
    ]
}
