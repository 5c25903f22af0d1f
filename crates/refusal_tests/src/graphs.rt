// Messages, and lists of them that build graphs and meet reasons on the way.
use crate::parts::{longer, no_blob, of_another, part, short};
use ipc3_codec::{CompWords, Message};
use sof_base::{Bounded, Format, Params};

pub(crate) const HOST: CompWords = CompWords::Host { direction: 0 };

pub(crate) const CAPTURE_HOST: CompWords = CompWords::Host { direction: 1 };

pub(crate) const DAI: CompWords = CompWords::Dai {
    direction: 0,
    index: 0,
};

pub(crate) const CAPTURE_DAI: CompWords = CompWords::Dai {
    direction: 1,
    index: 0,
};

pub(crate) const VOLUME: CompWords = CompWords::Volume {
    channels: 2,
    min_value: 0,
    max_value: 65536,
    ramp: 0,
    initial_ramp: 0,
};

// ---- messages

pub(crate) fn component(id: u32, pipe: u32, kind: CompWords) -> Message {
    Message::CompNew {
        id,
        pipe,
        periods_sink: 0,
        periods_source: 0,
        frame_fmt: 2,
        kind,
    }
}

pub(crate) fn buffer(id: u32, pipe: u32, size: u32) -> Message {
    Message::BufferNew {
        id,
        pipe,
        size,
        caps: 0,
    }
}

pub(crate) fn pipeline(id: u32, pipe: u32, sched: u32) -> Message {
    Message::PipeNew {
        id,
        pipe,
        sched,
        period: 1000,
        priority: 0,
        mips: 0,
        frames: 0,
        time_domain: 0,
    }
}

/// Parameters of two channels of 16 bits.
pub(crate) fn parameters(host: u32, direction: u32, rate: u32) -> Message {
    Message::PcmParams {
        host,
        direction,
        params: Params {
            rate,
            channels: 2,
            format: Format::S16,
        },
    }
}

/// So many values, which are all the same; one at least, and eight at most.
pub(crate) fn values(id: u32, command: u32, count: u32, value: u32) -> Message {
    let all = [value; 8];
    let some = &all[..count.clamp(1, 8) as usize];
    Message::SetValue {
        id,
        command,
        values: Bounded::new(some).unwrap_or(Bounded::empty()),
    }
}

// ---- lists

/// A message of a list.
#[derive(Clone, Copy)]
enum Planned {
    /// Its id, its index and its kind.
    Comp(u32, u32, CompWords),
    /// Its id and its index.
    Buffer(u32, u32),
    /// Its id, its index and what schedules it.
    Pipe(u32, u32, u32),
    Join(u32, u32),
    Complete(u32),
    FreeComp(u32),
    FreeBuffer(u32),
    FreePipe(u32),
    /// The host, its direction and the rate.
    Params(u32, u32, u32),
    Free(u32),
    Start(u32),
    Stop(u32),
    Pause(u32),
    Release(u32),
    /// An id, a command, a number of values and their value.
    Values(u32, u32, u32, u32),
    /// An id and a command.
    Asked(u32, u32),
    /// Part 0, 1 or 2 of a blob.
    First(u32),
    Second(u32),
    Third(u32),
    /// Part 0 with one byte; part 1 with one more byte after it; part 1 of another header; the only part of no blob.
    Short(u32),
    Longer(u32),
    OfAnother(u32),
    NoBlob(u32),
    /// An id, and the number of a part that is asked for.
    Got(u32, u32),
}

fn message_of(planned: Planned) -> Message {
    match planned {
        Planned::Comp(id, pipe, kind) => component(id, pipe, kind),
        Planned::Buffer(id, pipe) => buffer(id, pipe, 64),
        Planned::Pipe(id, pipe, sched) => pipeline(id, pipe, sched),
        Planned::Join(source, sink) => Message::Connect { source, sink },
        Planned::Complete(id) => Message::PipeComplete { id },
        Planned::FreeComp(id) => Message::CompFree { id },
        Planned::FreeBuffer(id) => Message::BufferFree { id },
        Planned::FreePipe(id) => Message::PipeFree { id },
        Planned::Params(host, direction, rate) => parameters(host, direction, rate),
        Planned::Free(id) => Message::PcmFree { id },
        Planned::Start(id) => Message::TrigStart { id },
        Planned::Stop(id) => Message::TrigStop { id },
        Planned::Pause(id) => Message::TrigPause { id },
        Planned::Release(id) => Message::TrigRelease { id },
        Planned::Values(id, command, count, value) => values(id, command, count, value),
        Planned::Asked(id, command) => Message::GetValue { id, command },
        Planned::First(id) => Message::SetData { id, part: part(0) },
        Planned::Second(id) => Message::SetData { id, part: part(1) },
        Planned::Third(id) => Message::SetData { id, part: part(2) },
        Planned::Short(id) => Message::SetData { id, part: short(0) },
        Planned::Longer(id) => Message::SetData {
            id,
            part: longer(1),
        },
        Planned::OfAnother(id) => Message::SetData {
            id,
            part: of_another(1),
        },
        Planned::NoBlob(id) => Message::SetData {
            id,
            part: no_blob(),
        },
        Planned::Got(id, index) => Message::GetData { id, index },
    }
}

// Host 0, buffer 1 and DAI 2 in the pipeline 3, and what moves their stream.
fn thin() -> [Planned; 18] {
    [
        Planned::Comp(0, 1, HOST),
        Planned::Buffer(1, 1),
        Planned::Comp(2, 1, DAI),
        Planned::Pipe(3, 1, 2),
        Planned::Join(0, 1),
        Planned::Join(1, 2),
        Planned::Complete(3),
        Planned::Params(0, 0, 44101),
        Planned::Params(0, 1, 48000),
        Planned::Params(0, 0, 48000),
        Planned::FreePipe(3),
        Planned::Start(0),
        Planned::Params(0, 0, 16000),
        Planned::Pause(0),
        Planned::Release(0),
        Planned::Stop(0),
        Planned::Stop(0),
        Planned::Free(0),
    ]
}

// The same, where parameters are given after each step before the way is whole.
fn opened_early() -> [Planned; 14] {
    [
        Planned::Comp(0, 1, HOST),
        Planned::Buffer(1, 2),
        Planned::Comp(2, 1, DAI),
        Planned::Params(0, 0, 48000),
        Planned::Pipe(3, 1, 2),
        Planned::Params(0, 0, 48000),
        Planned::Complete(3),
        Planned::Params(0, 0, 48000),
        Planned::Join(0, 1),
        Planned::Pipe(4, 2, 2),
        Planned::Complete(4),
        Planned::Params(0, 0, 48000),
        Planned::Join(1, 2),
        Planned::Params(0, 0, 48000),
    ]
}

// The same of a capture: DAI 0, buffer 1 and host 2.
fn captured_early() -> [Planned; 10] {
    [
        Planned::Comp(0, 1, CAPTURE_DAI),
        Planned::Buffer(1, 1),
        Planned::Comp(2, 1, CAPTURE_HOST),
        Planned::Pipe(3, 1, 2),
        Planned::Complete(3),
        Planned::Params(2, 1, 48000),
        Planned::Join(1, 2),
        Planned::Params(2, 1, 48000),
        Planned::Join(0, 1),
        Planned::Params(2, 1, 48000),
    ]
}

// Hosts 0 and 6 into the mixer 4 by buffers 1 and 7, and out of DAI 2 by buffer 5. The second stream has another rate.
fn mixed() -> [Planned; 18] {
    [
        Planned::Comp(0, 1, HOST),
        Planned::Comp(6, 1, HOST),
        Planned::Comp(4, 1, CompWords::Mixer),
        Planned::Comp(2, 1, DAI),
        Planned::Buffer(1, 1),
        Planned::Buffer(7, 1),
        Planned::Buffer(5, 1),
        Planned::Pipe(3, 1, 2),
        Planned::Join(0, 1),
        Planned::Join(1, 4),
        Planned::Join(6, 7),
        Planned::Join(7, 4),
        Planned::Join(4, 5),
        Planned::Join(5, 2),
        Planned::Complete(3),
        Planned::Params(0, 0, 48000),
        Planned::Params(6, 0, 16000),
        Planned::FreeBuffer(7),
    ]
}

// Host 0 into the demux 2, which gets one more output once the stream has parameters.
fn split_late() -> [Planned; 14] {
    [
        Planned::Comp(0, 1, HOST),
        Planned::Buffer(1, 1),
        Planned::Comp(2, 1, CompWords::Demux),
        Planned::Buffer(3, 1),
        Planned::Comp(4, 1, DAI),
        Planned::Pipe(5, 1, 4),
        Planned::Join(0, 1),
        Planned::Join(1, 2),
        Planned::Join(2, 3),
        Planned::Join(3, 4),
        Planned::Complete(5),
        Planned::Params(0, 0, 48000),
        Planned::Buffer(6, 2),
        Planned::Join(2, 6),
    ]
}

// Host 0 into the capture's host 2.
fn crossed() -> [Planned; 8] {
    [
        Planned::Comp(0, 1, HOST),
        Planned::Buffer(1, 1),
        Planned::Comp(2, 1, CAPTURE_HOST),
        Planned::Pipe(3, 1, 2),
        Planned::Join(0, 1),
        Planned::Join(1, 2),
        Planned::Complete(3),
        Planned::Params(0, 0, 48000),
    ]
}

// Volumes 0 and 2, each into the other, and ends that are taken already.
fn ringed() -> [Planned; 19] {
    [
        Planned::Comp(0, 1, VOLUME),
        Planned::Buffer(1, 1),
        Planned::Comp(2, 1, VOLUME),
        Planned::Buffer(3, 1),
        Planned::Buffer(4, 1),
        Planned::Join(0, 1),
        Planned::Join(1, 2),
        Planned::Join(2, 3),
        Planned::Join(3, 0),
        Planned::Join(0, 3),
        Planned::Join(1, 0),
        Planned::Join(0, 4),
        Planned::Join(4, 2),
        Planned::Join(0, 2),
        Planned::FreeComp(0),
        Planned::FreeComp(1),
        Planned::FreeBuffer(0),
        Planned::Pipe(5, 1, 1),
        Planned::Complete(5),
    ]
}

// A volume, a mux, a demux and an equaliser, with their values and parts.
fn controlled() -> [Planned; 28] {
    [
        Planned::Comp(0, 1, VOLUME),
        Planned::Comp(1, 1, CompWords::Mux),
        Planned::Comp(2, 1, CompWords::Demux),
        Planned::Comp(3, 1, CompWords::Eq),
        Planned::Comp(4, 1, HOST),
        Planned::Values(0, 0, 2, 65536),
        Planned::Values(0, 0, 3, 65536),
        Planned::Values(0, 0, 2, 16_777_217),
        Planned::Values(1, 1, 1, 3),
        Planned::Values(1, 0, 1, 3),
        Planned::Values(2, 2, 8, 256),
        Planned::Values(4, 0, 1, 0),
        Planned::Asked(0, 0),
        Planned::Asked(0, 1),
        Planned::Asked(3, 0),
        Planned::Got(3, 0),
        Planned::Second(3),
        Planned::Short(3),
        Planned::First(3),
        Planned::Third(3),
        Planned::OfAnother(3),
        Planned::Longer(3),
        Planned::NoBlob(3),
        Planned::Second(3),
        Planned::Third(3),
        Planned::Got(3, 2),
        Planned::Got(3, 3),
        Planned::First(4),
    ]
}

fn nth(list: &[Planned], place: u32) -> Option<Message> {
    match list.get(place as usize) {
        Some(planned) => Some(message_of(*planned)),
        None => None,
    }
}

// Up to so many places.
fn until(place: u32, end: u32, planned: Planned) -> Option<Message> {
    if place < end {
        Some(message_of(planned))
    } else {
        None
    }
}

/// How many lists there are. Of the last three, which fill a table each, only the last message is refused.
pub(crate) const LISTS: u32 = 11;

/// The lists that fill a table are those from this one on.
pub(crate) const FULL: u32 = 8;

/// The message of a list at a place; none after its last.
pub(crate) fn message_at(list: u32, place: u32) -> Option<Message> {
    match list {
        0 => nth(&thin(), place),
        1 => nth(&opened_early(), place),
        2 => nth(&captured_early(), place),
        3 => nth(&mixed(), place),
        4 => nth(&split_late(), place),
        5 => nth(&crossed(), place),
        6 => nth(&ringed(), place),
        7 => nth(&controlled(), place),
        8 => until(place, 129, Planned::Comp(place, 1, CompWords::Mixer)),
        9 => until(place, 129, Planned::Buffer(place, 1)),
        10 => until(place, 33, Planned::Pipe(place, place, 99)),
        _ => None,
    }
}
