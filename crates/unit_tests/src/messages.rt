// Worked rows of messages and replies as bytes.
use crate::cuts::{fault, reply_fault};
use crate::same::{same, shows};
use ipc3_codec::{Body, CodecFault, Message, Reply, decode, decode_reply, encode, encode_reply};
use sof_base::{Bounded, Format, Params, Part, PartBytes};
use std::process::Abort;

/// The word at a place.
fn word(out: &[u8; 384], at: usize) -> u32 {
    if at > 380 {
        return 0;
    }
    u32::from_le_bytes([out[at], out[at + 1], out[at + 2], out[at + 3]])
}

/// These bytes come first.
fn begins(rt: &impl Abort, out: &[u8; 384], want: &[u8]) {
    same(rt, &"the front", &out.get(..want.len()), &Some(want));
}

/// Words at their places.
fn has_words(rt: &impl Abort, out: &[u8; 384], words: &[(usize, u32)]) {
    for &(at, want) in words {
        same(rt, &at, &word(out, at), &want);
    }
}

/// The bytes of a message, which are so many and are read as a message that has them.
fn spelled(rt: &impl Abort, message: &Message, size: usize) -> [u8; 384] {
    let mut out = [255; 384];
    same(rt, &"its size", &encode(message, &mut out), &size);
    let mut again = [255; 384];
    let long = match decode(&out) {
        Ok(read) => encode(&read, &mut again),
        Err(_) => 0,
    };
    same(rt, &"its size again", &long, &size);
    begins(rt, &again, out.get(..size).unwrap_or(&[]));
    out
}

/// The bytes of a reply, which are so many and are read as a reply that has them.
fn spelled_reply(rt: &impl Abort, reply: &Reply, size: usize) -> [u8; 384] {
    let mut out = [255; 384];
    same(rt, &"its size", &encode_reply(reply, &mut out), &size);
    let mut again = [255; 384];
    let long = match decode_reply(&out) {
        Ok(read) => encode_reply(&read, &mut again),
        Err(_) => 0,
    };
    same(rt, &"its size again", &long, &size);
    begins(rt, &again, out.get(..size).unwrap_or(&[]));
    out
}

#[test]
fn a_connection_is_spelled(rt: HostRuntime) {
    let out = spelled(&rt, &Message::Connect { source: 0, sink: 1 }, 16);
    let want = [0x10, 0, 0, 0, 0, 0, 0x03, 0x30, 0, 0, 0, 0, 1, 0, 0, 0];
    begins(&rt, &out, &want);
}

#[test]
fn a_trigger_is_spelled(rt: HostRuntime) {
    let out = spelled(&rt, &Message::TrigStart { id: 0 }, 12);
    let want = [0x0C, 0, 0, 0, 0, 0, 0x04, 0x60, 0, 0, 0, 0];
    begins(&rt, &out, &want);
}

// Size, command, host; the stream's size and host buffer; direction, format, rate.
const PARAMS: [(usize, u32); 15] = [
    (0, 108),
    (4, 0x6001_0000),
    (8, 7),
    (24, 84),
    (28, 28),
    (56, 1),
    (60, 1),
    (64, 0),
    (68, 48_000),
    // stream_tag 0 and 2 channels; 3 valid bytes in 4
    (72, 0x0002_0000),
    (76, 0x0004_0003),
    // 48 frames of 2 samples of 4 bytes
    (80, 384),
    // channels 0 and 1, then zeros
    (92, 0x0001_0000),
    (96, 0),
    (104, 0),
];

#[test]
fn parameters_are_spelled(rt: HostRuntime) {
    let params = Params {
        rate: 48_000,
        channels: 2,
        format: Format::S24,
    };
    let message = Message::PcmParams {
        host: 7,
        direction: 1,
        params,
    };
    let mut out = spelled(&rt, &message, 108);
    has_words(&rt, &out, &PARAMS);
    // 9 channels
    out[74] = 9;
    same(&rt, &74, &fault(&out), &Some(CodecFault::Field(74)));
}

const VALUES: [(usize, u32); 13] = [
    (0, 108),
    (4, 0x5001_0000),
    (8, 0),
    (12, 2),
    (16, 1),
    (20, 0),
    (28, 28),
    (56, 2),
    (60, 0),
    (92, 0),
    (96, 31),
    (100, 1),
    (104, 33),
];

#[test]
fn values_are_spelled(rt: HostRuntime) {
    let message = Message::SetValue {
        id: 2,
        command: 0,
        values: Bounded::new(&[31, 33]).expect(&rt, "two values"),
    };
    let mut out = spelled(&rt, &message, 108);
    has_words(&rt, &out, &VALUES);
    out[100] = 2;
    same(&rt, &100, &fault(&out), &Some(CodecFault::Field(100)));
    out[56] = 9;
    same(&rt, &56, &fault(&out), &Some(CodecFault::Field(56)));
}

const PART: [(usize, u32); 10] = [
    (0, 384),
    (4, 0x5003_0000),
    (16, 5),
    (20, 3),
    (56, 260),
    (60, 408),
    (92, 0x0505_0505),
    (120, 0x0505_0505),
    (124, 0x0909_0909),
    (380, 0x0909_0909),
];

#[test]
fn a_part_is_spelled(rt: HostRuntime) {
    let part = Part {
        header: [5; 32],
        remaining: 408,
        index: 0,
        bytes: PartBytes::new(&[9; 260]).expect(&rt, "260 bytes"),
    };
    let mut out = spelled(&rt, &Message::SetData { id: 2, part }, 384);
    has_words(&rt, &out, &PART);
    // The payload's first byte is the place of a part that is too short.
    out[0] = 127;
    same(&rt, &124, &fault(&out), &Some(CodecFault::Field(124)));
}

#[test]
fn a_refusal_is_spelled(rt: HostRuntime) {
    let refusal = Reply {
        error: -22,
        body: Body::Nothing,
    };
    let out = spelled_reply(&rt, &refusal, 12);
    let want = [0x0C, 0, 0, 0, 0, 0, 0, 0x10, 0xEA, 0xFF, 0xFF, 0xFF];
    begins(&rt, &out, &want);
}

const ANSWER: [(usize, u32); 6] = [
    (0, 100),
    (4, 0x1000_0000),
    (12, 0),
    (16, 1),
    (56, 1),
    (96, 32),
];

#[test]
fn a_reply_with_a_value_is_spelled(rt: HostRuntime) {
    let answer = Reply {
        error: 0,
        body: Body::Values(Bounded::new(&[32]).expect(&rt, "a value")),
    };
    has_words(&rt, &spelled_reply(&rt, &answer, 100), &ANSWER);
}

#[test]
fn faults_are_named_at_their_place(rt: HostRuntime) {
    // A COMP_NEW of id 0 and type 0.
    let comp = [
        20, 0, 0, 0, 0, 0, 0x01, 0x30, 0, 0, 0, 0, 0, 0, 0, 0, 0, 0, 0, 0,
    ];
    let unknown = [12, 0, 0, 0, 0, 0, 0xFF, 0x30, 0, 0, 0, 0];
    let reply = [16, 0, 0, 0, 0, 0, 0, 0x10, 0, 0, 0, 0, 7, 0, 0, 0];
    let command = CodecFault::Command(0x30FF_0000);
    same(&rt, &20, &fault(&comp), &Some(CodecFault::Field(12)));
    same(&rt, &19, &fault(&comp[..19]), &Some(CodecFault::SizeWord));
    same(&rt, &7, &fault(&comp[..7]), &Some(CodecFault::Short));
    same(&rt, &12, &fault(&unknown), &Some(command));
    same(&rt, &16, &reply_fault(&reply), &Some(CodecFault::Field(16)));
    same(
        &rt,
        &11,
        &reply_fault(&reply[..11]),
        &Some(CodecFault::Short),
    );
}

#[test]
fn faults_have_their_numbers(rt: HostRuntime) {
    let command = CodecFault::Command(0x30FF_0000);
    let field = CodecFault::Field(12);
    same(&rt, &1, &CodecFault::Short.number(), &1);
    same(&rt, &2, &CodecFault::SizeWord.number(), &2);
    same(&rt, &3, &command.number(), &3);
    same(&rt, &4, &field.number(), &4);
}

#[test]
fn faults_are_told_by_their_place(rt: HostRuntime) {
    let command = CodecFault::Command(0x30FF_0000);
    let want = "byte 4: 0x30ff0000 is no command";
    shows(&rt, rt.alloc(), &command, want);
    let want = "byte 12: the word is missing or not allowed";
    shows(&rt, rt.alloc(), &CodecFault::Field(12), want);
}
