// Messages and replies of each kind, cut at each length: what their readers say.
use crate::same::same;
use ipc3_codec::{
    Body, CodecFault, CompWords, Message, Reply, decode, decode_reply, encode, encode_reply,
};
use sof_base::{Bounded, Format, Params, Part};
use std::process::Abort;

// How the words of a message lie.
#[derive(Clone, Copy)]
enum Words {
    /// Four bytes each.
    Whole,
    /// The same, but that words of two bytes stand from byte 72 to byte 79, and from byte 92 on.
    Params,
    /// The same, but that all bytes from byte 124 on are one word.
    Part,
}

impl Words {
    // The place of the word that is cut where only so many bytes are there.
    fn cut_at(self, length: usize) -> usize {
        let whole = length - length % 4;
        match self {
            Words::Whole => whole,
            Words::Params if length < 72 || (80..92).contains(&length) => whole,
            Words::Params => length - length % 2,
            Words::Part => whole.min(124),
        }
    }
}

/// What is said of bytes; none where they are a message.
pub fn fault(bytes: &[u8]) -> Option<CodecFault> {
    match decode(bytes) {
        Ok(_message) => None,
        Err(fault) => Some(fault),
    }
}

// The first bytes.
fn front(bytes: &[u8; 384], length: usize) -> &[u8] {
    bytes.get(..length).unwrap_or(&[])
}

// The size word says so many bytes, at most 384.
fn put_size(bytes: &mut [u8; 384], size: usize) {
    let word = size.min(384) as u32;
    bytes[..4].copy_from_slice(&word.to_le_bytes());
}

// The bytes end before a message of this size.
fn each_front_is_short(rt: &impl Abort, kind: &&'static str, size: usize, bytes: &[u8; 384]) {
    for length in 0..size {
        let want = if length < 8 {
            CodecFault::Short
        } else {
            CodecFault::SizeWord
        };
        let said = (length, fault(front(bytes, length)));
        same(rt, kind, &said, &(length, Some(want)));
    }
    same(rt, kind, &fault(front(bytes, size)), &None);
}

// The size word says less than a message of this size needs.
fn each_size_is_small(
    rt: &impl Abort,
    kind: &&'static str,
    size: usize,
    words: Words,
    bytes: &mut [u8; 384],
) {
    for length in 0..size {
        let want = if length < 8 {
            CodecFault::SizeWord
        } else {
            CodecFault::Field(words.cut_at(length))
        };
        put_size(bytes, length);
        let said = (length, fault(bytes));
        same(rt, kind, &said, &(length, Some(want)));
    }
}

// A message of this size, whose words lie so, is cut at each length.
fn cut(rt: &impl Abort, kind: &'static str, message: &Message, size: usize, words: Words) {
    let mut bytes = [0; 384];
    same(rt, &kind, &encode(message, &mut bytes), &size);
    each_front_is_short(rt, &kind, size, &bytes);
    each_size_is_small(rt, &kind, size, words, &mut bytes);
}

// A component of a type is cut at each length.
fn cut_component(rt: &impl Abort, name: &'static str, kind: CompWords, size: usize) {
    let message = Message::CompNew {
        id: 1,
        pipe: 2,
        periods_sink: 3,
        periods_source: 4,
        frame_fmt: 2,
        kind,
    };
    cut(rt, name, &message, size, Words::Whole);
}

#[test]
fn a_component_that_is_cut_is_told(rt: HostRuntime) {
    let volume = CompWords::Volume {
        channels: 2,
        min_value: 0,
        max_value: 65536,
        ramp: 0,
        initial_ramp: 0,
    };
    let dai = CompWords::Dai {
        direction: 1,
        index: 5,
    };
    cut_component(&rt, "a host", CompWords::Host { direction: 1 }, 76);
    cut_component(&rt, "a DAI", dai, 80);
    cut_component(&rt, "a volume", volume, 84);
    cut_component(&rt, "a mixer", CompWords::Mixer, 64);
    cut_component(&rt, "a mux", CompWords::Mux, 64);
    cut_component(&rt, "an equaliser", CompWords::Eq, 100);
}

#[test]
fn a_buffer_or_a_pipeline_that_is_cut_is_told(rt: HostRuntime) {
    let buffer = Message::BufferNew {
        id: 1,
        pipe: 2,
        size: 768,
        caps: 0,
    };
    cut(&rt, "a buffer", &buffer, 44, Words::Whole);
    let pipeline = Message::PipeNew {
        id: 1,
        pipe: 2,
        sched: 3,
        period: 1000,
        priority: 0,
        mips: 0,
        frames: 0,
        time_domain: 0,
    };
    cut(&rt, "a pipeline", &pipeline, 48, Words::Whole);
}

// A message of one id, or of none, is cut at each length.
fn cut_short(rt: &impl Abort, kind: &'static str, message: Message, size: usize) {
    cut(rt, kind, &message, size, Words::Whole);
}

#[test]
fn a_change_of_a_graph_that_is_cut_is_told(rt: HostRuntime) {
    cut_short(&rt, "a join", Message::Connect { source: 1, sink: 2 }, 16);
    cut_short(&rt, "complete", Message::PipeComplete { id: 1 }, 12);
    cut_short(&rt, "a component's end", Message::CompFree { id: 1 }, 12);
    cut_short(&rt, "a buffer's end", Message::BufferFree { id: 1 }, 12);
    cut_short(&rt, "a pipeline's end", Message::PipeFree { id: 1 }, 12);
    cut_short(&rt, "a saved context", Message::CtxSave, 8);
}

#[test]
fn a_message_of_a_stream_that_is_cut_is_told(rt: HostRuntime) {
    let params = Params {
        rate: 48_000,
        channels: 2,
        format: Format::S24,
    };
    let message = Message::PcmParams {
        host: 1,
        direction: 1,
        params,
    };
    cut(&rt, "parameters", &message, 108, Words::Params);
    cut_short(&rt, "without parameters", Message::PcmFree { id: 1 }, 12);
    cut_short(&rt, "a start", Message::TrigStart { id: 1 }, 12);
    cut_short(&rt, "a stop", Message::TrigStop { id: 1 }, 12);
    cut_short(&rt, "a pause", Message::TrigPause { id: 1 }, 12);
    cut_short(&rt, "a release", Message::TrigRelease { id: 1 }, 12);
}

// A part of 9 bytes.
fn part() -> Part {
    Part {
        header: [5; 32],
        remaining: 4,
        index: 1,
        bytes: Bounded::new(&[7; 9]).unwrap_or(Bounded::empty()),
    }
}

#[test]
fn a_message_of_values_that_is_cut_is_told(rt: HostRuntime) {
    let message = Message::SetValue {
        id: 1,
        command: 0,
        values: Bounded::new(&[31, 33]).unwrap_or(Bounded::empty()),
    };
    cut(&rt, "two values", &message, 108, Words::Whole);
    cut_short(
        &rt,
        "the values",
        Message::GetValue { id: 1, command: 1 },
        92,
    );
}

#[test]
fn a_message_of_a_part_that_is_cut_is_told(rt: HostRuntime) {
    let message = Message::SetData {
        id: 1,
        part: part(),
    };
    cut(&rt, "a part", &message, 133, Words::Part);
    cut_short(&rt, "the part", Message::GetData { id: 1, index: 2 }, 92);
}

/// What is said of bytes that are no reply; none where they are one.
pub fn reply_fault(bytes: &[u8]) -> Option<CodecFault> {
    match decode_reply(bytes) {
        Ok(_reply) => None,
        Err(fault) => Some(fault),
    }
}

// The reply's bytes end before its size.
fn each_front_of_a_reply_is_short(rt: &impl Abort, size: usize, bytes: &[u8; 384]) {
    for length in 0..size {
        let want = if length < 12 {
            CodecFault::Short
        } else {
            CodecFault::SizeWord
        };
        let said = (length, reply_fault(front(bytes, length)));
        same(rt, &size, &said, &(length, Some(want)));
    }
    same(rt, &size, &reply_fault(front(bytes, size)), &None);
}

// What a size word says that is less than the reply needs: with 12 there is no body.
fn small_size_fault(words: Words, length: usize) -> Option<CodecFault> {
    if length == 12 {
        None
    } else if length < 12 {
        Some(CodecFault::SizeWord)
    } else {
        Some(CodecFault::Field(words.cut_at(length)))
    }
}

fn each_size_of_a_reply_is_small(
    rt: &impl Abort,
    size: usize,
    words: Words,
    bytes: &mut [u8; 384],
) {
    for length in 0..size {
        put_size(bytes, length);
        let said = (length, reply_fault(bytes));
        same(rt, &size, &said, &(length, small_size_fault(words, length)));
    }
}

fn each_cut_of_a_reply_is_told(rt: &impl Abort, body: Body, size: usize, words: Words) {
    let mut bytes = [0; 384];
    let reply = Reply { error: 0, body };
    same(rt, &"its size", &encode_reply(&reply, &mut bytes), &size);
    each_front_of_a_reply_is_short(rt, size, &bytes);
    each_size_of_a_reply_is_small(rt, size, words, &mut bytes);
}

#[test]
fn a_reply_that_is_cut_is_told(rt: HostRuntime) {
    let values = Bounded::new(&[31, 33]).unwrap_or(Bounded::empty());
    each_cut_of_a_reply_is_told(&rt, Body::Nothing, 12, Words::Whole);
    each_cut_of_a_reply_is_told(&rt, Body::Values(values), 108, Words::Whole);
    each_cut_of_a_reply_is_told(&rt, Body::Part(part()), 133, Words::Part);
}
