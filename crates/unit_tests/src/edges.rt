// The words of messages that have some values alone: the least and the greatest of these, and what lies beside them.
use crate::cuts::fault;
use crate::same::same;
use ipc3_codec::{CodecFault, CompWords, Message, encode};
use sof_base::{Bounded, Format, Params, Part, PartBytes};
use std::process::Abort;

// A word of four bytes at a place.
fn put(bytes: &mut [u8; 384], at: usize, word: u32) {
    if at <= 380 {
        bytes[at..at + 4].copy_from_slice(&word.to_le_bytes());
    }
}

// What is said of a message once the word at this place has a value.
fn said(message: &Message, at: usize, value: u32) -> Option<CodecFault> {
    let mut bytes = [0; 384];
    let _size = encode(message, &mut bytes);
    put(&mut bytes, at, value);
    fault(&bytes)
}

// The word at this place may have these values, and none of those: the fault is at the place beside the word's.
fn takes(
    rt: &impl Abort,
    message: &Message,
    place: (usize, usize),
    allowed: &[u32],
    refused: &[u32],
) {
    let (at, told) = place;
    for &value in allowed {
        same(
            rt,
            &told,
            &(value, said(message, at, value)),
            &(value, None),
        );
    }
    let want = Some(CodecFault::Field(told));
    for &value in refused {
        same(
            rt,
            &told,
            &(value, said(message, at, value)),
            &(value, want),
        );
    }
}

fn component(frame_fmt: u32, kind: CompWords) -> Message {
    Message::CompNew {
        id: 1,
        pipe: 1,
        periods_sink: 0,
        periods_source: 0,
        frame_fmt,
        kind,
    }
}

// Type, direction, frame format and channels. A host may have any frame format.
#[test]
fn words_of_components_have_their_edges(rt: HostRuntime) {
    let equaliser = component(0, CompWords::Eq);
    let types = [0, 3, 4, 8, 12, 14, 17, 19, u32::MAX];
    takes(&rt, &equaliser, (12, 12), &[1, 2, 6, 7, 13, 18], &types);
    let host = component(0, CompWords::Host { direction: 0 });
    takes(&rt, &host, (64, 64), &[0, 1], &[2, u32::MAX]);
    takes(&rt, &host, (48, 48), &[0, 2, 3, u32::MAX], &[]);
    let dai = CompWords::Dai {
        direction: 0,
        index: 0,
    };
    let dai = component(0, dai);
    takes(&rt, &dai, (64, 64), &[0, 1], &[2, u32::MAX]);
    takes(&rt, &dai, (48, 48), &[0, 1, 2], &[3, u32::MAX]);
    let volume = CompWords::Volume {
        channels: 1,
        min_value: 0,
        max_value: 0,
        ramp: 0,
        initial_ramp: 0,
    };
    let volume = component(0, volume);
    takes(&rt, &volume, (64, 64), &[1, 8], &[0, 9, u32::MAX]);
    takes(&rt, &volume, (12, 12), &[5], &[4]);
}

// The type and the size of a buffer, and the period of a pipeline.
#[test]
fn words_of_buffers_and_pipelines_have_their_edges(rt: HostRuntime) {
    let buffer = Message::BufferNew {
        id: 1,
        pipe: 1,
        size: 16,
        caps: 0,
    };
    takes(&rt, &buffer, (12, 12), &[12], &[0, 11, 13, u32::MAX]);
    let sizes = [0, 15, 16_777_185, u32::MAX];
    takes(&rt, &buffer, (28, 28), &[16, 16_777_184], &sizes);
    let pipeline = Message::PipeNew {
        id: 1,
        pipe: 1,
        sched: 1,
        period: 1000,
        priority: 0,
        mips: 0,
        frames: 0,
        time_domain: 0,
    };
    let periods = [0, 999, 1001, 9999, 10_001, 11_000, u32::MAX];
    takes(&rt, &pipeline, (24, 24), &[1000, 10_000], &periods);
}

// Direction, frame format and channels of a stream: the channels are the second half of a word. A rate may be any.
#[test]
fn words_of_parameters_have_their_edges(rt: HostRuntime) {
    let params = Params {
        rate: 48_000,
        channels: 2,
        format: Format::S16,
    };
    let message = Message::PcmParams {
        host: 1,
        direction: 0,
        params,
    };
    takes(&rt, &message, (56, 56), &[0, 1], &[2, u32::MAX]);
    takes(&rt, &message, (60, 60), &[0, 1, 2], &[3, u32::MAX]);
    takes(&rt, &message, (68, 68), &[0, u32::MAX], &[]);
    let channels: [u32; 4] = [0, 0xFFFF, 0x0009_0000, 0xFFFF_0000];
    takes(
        &rt,
        &message,
        (72, 74),
        &[0x0001_0000, 0x0008_FFFF],
        &channels,
    );
}

// Type, cmd, num_elems and the channels of values.
#[test]
fn words_of_values_have_their_edges(rt: HostRuntime) {
    let message = Message::SetValue {
        id: 1,
        command: 0,
        values: Bounded::new(&[7; 8]).expect(&rt, "eight values"),
    };
    takes(&rt, &message, (16, 16), &[1], &[0, 2, 4, 5, u32::MAX]);
    takes(&rt, &message, (20, 20), &[0, 1, 2], &[3, u32::MAX]);
    takes(&rt, &message, (56, 56), &[1, 8], &[0, 9, u32::MAX]);
    takes(&rt, &message, (92, 92), &[0], &[1, u32::MAX]);
    takes(&rt, &message, (148, 148), &[7], &[6, 8]);
    let message = Message::GetValue { id: 1, command: 0 };
    takes(&rt, &message, (16, 16), &[0], &[1, 4, u32::MAX]);
    takes(&rt, &message, (20, 20), &[0, 1, 2], &[3, u32::MAX]);
}

// Type, cmd, num_elems and elems_remaining of a part. With 260 bytes 732 may remain.
#[test]
fn words_of_parts_have_their_edges(rt: HostRuntime) {
    let part = Part {
        header: [0; 32],
        remaining: 0,
        index: 0,
        bytes: PartBytes::new(&[9; 260]).expect(&rt, "260 bytes"),
    };
    let message = Message::SetData { id: 1, part };
    takes(&rt, &message, (16, 16), &[5], &[0, 4, 6, u32::MAX]);
    takes(&rt, &message, (20, 20), &[3], &[0, 2, 4, u32::MAX]);
    takes(&rt, &message, (56, 56), &[1, 260], &[0, 261, u32::MAX]);
    takes(&rt, &message, (60, 60), &[0, 732], &[733, u32::MAX]);
    let message = Message::GetData { id: 1, index: 0 };
    takes(&rt, &message, (16, 16), &[4], &[0, 5, u32::MAX]);
    takes(&rt, &message, (20, 20), &[3], &[0, 2, 4, u32::MAX]);
}
