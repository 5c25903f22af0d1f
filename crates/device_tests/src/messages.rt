// Messages of the tests, and the graphs that they make.
use ipc3_codec::{CompWords, Message};
use sof_base::{Bounded, Format, Params};

pub(crate) const HOST: CompWords = CompWords::Host { direction: 0 };

pub(crate) const CAPTURE_HOST: CompWords = CompWords::Host { direction: 1 };

pub(crate) const DAI: CompWords = CompWords::Dai {
    direction: 0,
    index: 0,
};

pub(crate) const CAPTURE_DAI: CompWords = CompWords::Dai {
    direction: 1,
    index: 0,
};

pub(crate) const VOLUME: CompWords = CompWords::Volume {
    channels: 2,
    min_value: 0,
    max_value: 65536,
    ramp: 0,
    initial_ramp: 0,
};

/// The frame formats of 16 and of 32 bits.
pub(crate) const S16: u32 = 0;

pub(crate) const S32: u32 = 2;

pub(crate) fn component(id: u32, frame_fmt: u32, kind: CompWords) -> Message {
    Message::CompNew {
        id,
        pipe: 1,
        periods_sink: 0,
        periods_source: 0,
        frame_fmt,
        kind,
    }
}

pub(crate) fn buffer(id: u32, size: u32) -> Message {
    Message::BufferNew {
        id,
        pipe: 1,
        size,
        caps: 0,
    }
}

/// A pipeline whose period is so many µs.
pub(crate) fn pipeline(id: u32, sched: u32, period: u32) -> Message {
    Message::PipeNew {
        id,
        pipe: 1,
        sched,
        period,
        priority: 0,
        mips: 0,
        frames: 0,
        time_domain: 0,
    }
}

pub(crate) fn connect(source: u32, sink: u32) -> Message {
    Message::Connect { source, sink }
}

/// Sets the gains of the two channels of a volume.
pub(crate) fn gains(id: u32, first: u32, second: u32) -> Message {
    Message::SetValue {
        id,
        command: 0,
        values: Bounded::new(&[first, second]).unwrap_or(Bounded::empty()),
    }
}

/// Parameters of a playback stream of two channels of 16 bits.
pub(crate) fn stereo(host: u32, rate: u32) -> Message {
    Message::PcmParams {
        host,
        direction: 0,
        params: Params {
            rate,
            channels: 2,
            format: Format::S16,
        },
    }
}

/// Parameters of a capture stream of one channel of 32 bits.
pub(crate) fn mono(host: u32) -> Message {
    Message::PcmParams {
        host,
        direction: 1,
        params: Params {
            rate: 48000,
            channels: 1,
            format: Format::S32,
        },
    }
}

// Component 0, buffer 1 of so many bytes and component 2, joined in this order, in the pipeline 3 of this period in µs.
fn piped(first: Message, size: u32, last: Message, period: u32) -> [Message; 7] {
    [
        first,
        buffer(1, size),
        last,
        pipeline(3, 2, period),
        connect(0, 1),
        connect(1, 2),
        Message::PipeComplete { id: 3 },
    ]
}

/// Host 0, buffer 1 of 768 bytes and DAI 2, in the pipeline 3 of a period of 1 ms.
pub(crate) fn thin() -> [Message; 7] {
    piped(component(0, S32, HOST), 768, component(2, S32, DAI), 1000)
}

/// The same with a buffer of 3840 bytes and a period of 10 ms.
pub(crate) fn slow() -> [Message; 7] {
    piped(component(0, S32, HOST), 3840, component(2, S32, DAI), 10000)
}

/// DAI 0, which captures 16 bits, buffer 1 and host 2, in the pipeline 3.
pub(crate) fn capture() -> [Message; 7] {
    let dai = component(0, S16, CAPTURE_DAI);
    piped(dai, 768, component(2, S32, CAPTURE_HOST), 1000)
}

/// Host 0, volume 2 of the gain 1 and DAI 4 of this frame format, with buffers 1 and 3 between them, in the pipeline 5.
pub(crate) fn amplified(frame_fmt: u32) -> [Message; 12] {
    [
        component(0, S32, HOST),
        buffer(1, 768),
        component(2, S32, VOLUME),
        buffer(3, 768),
        component(4, frame_fmt, DAI),
        pipeline(5, 4, 1000),
        connect(0, 1),
        connect(1, 2),
        connect(2, 3),
        connect(3, 4),
        gains(2, 65536, 65536),
        Message::PipeComplete { id: 5 },
    ]
}

/// Hosts 0 and 6, which the mixer 4 takes frames from by buffers 1 and 7, and DAI 2, which it feeds by buffer 5.
pub(crate) fn mixed() -> [Message; 15] {
    [
        component(0, S32, HOST),
        component(6, S32, HOST),
        component(4, S32, CompWords::Mixer),
        component(2, S32, DAI),
        buffer(1, 768),
        buffer(7, 768),
        buffer(5, 768),
        pipeline(3, 2, 1000),
        connect(0, 1),
        connect(1, 4),
        connect(6, 7),
        connect(7, 4),
        connect(4, 5),
        connect(5, 2),
        Message::PipeComplete { id: 3 },
    ]
}
