// Lists of drawn messages: each message is answered by a reply, and by the same one on another device.
use crate::messages::{HOST, S32, buffer, component, connect, gains, pipeline};
use crate::same::same;
use fw_core::Firmware;
use ipc3_codec::{Message, decode_reply, encode};
use mbox_link::Dsp;
use sof_io::{Inputs, Outputs};
use std::alloc::Global;
use std::process::Abort;
use std::test::Fail;

// A message of a row, by its id.
#[derive(Drop)]
enum Drawn {
    /// With the other words of the first such message that a load of the graph with a volume sends.
    Sent(Message),
    /// A load sends none. Its command word, its size and the place of its id, if it has one; its other words are 0.
    Bare(u32, u32, Option<usize>),
}

// The rows, in the order of the table of messages.
fn rows(id: u32) -> [Drawn; 19] {
    [
        Drawn::Sent(component(id, S32, HOST)),
        Drawn::Sent(buffer(id, 768)),
        Drawn::Sent(pipeline(id, id, 1000)),
        Drawn::Sent(connect(id, id)),
        Drawn::Sent(Message::PipeComplete { id }),
        // COMP_FREE, BUFFER_FREE, PIPE_FREE
        Drawn::Bare(0x3002_0000, 12, Some(8)),
        Drawn::Bare(0x3021_0000, 12, Some(8)),
        Drawn::Bare(0x3011_0000, 12, Some(8)),
        Drawn::Sent(gains(id, 65536, 65536)),
        // GET_VALUE, SET_DATA, GET_DATA
        Drawn::Bare(0x5002_0000, 92, Some(12)),
        Drawn::Bare(0x5003_0000, 92, Some(12)),
        Drawn::Bare(0x5004_0000, 92, Some(12)),
        // PCM_PARAMS, PCM_FREE
        Drawn::Bare(0x6001_0000, 108, Some(8)),
        Drawn::Bare(0x6003_0000, 12, Some(8)),
        // TRIG_START, TRIG_STOP, TRIG_PAUSE, TRIG_RELEASE
        Drawn::Bare(0x6004_0000, 12, Some(8)),
        Drawn::Bare(0x6005_0000, 12, Some(8)),
        Drawn::Bare(0x6006_0000, 12, Some(8)),
        Drawn::Bare(0x6007_0000, 12, Some(8)),
        // CTX_SAVE
        Drawn::Bare(0x4001_0000, 8, None),
    ]
}

fn put(out: &mut [u8; 384], at: usize, word: u32) {
    if at <= 380 {
        out[at..at + 4].copy_from_slice(&word.to_le_bytes());
    }
}

// The message's bytes, which stand in front, and their number.
fn spelled(drawn: &Drawn, id: u32) -> ([u8; 384], usize) {
    let mut out = [0; 384];
    match drawn {
        Drawn::Sent(message) => {
            let size = encode(message, &mut out);
            (out, size)
        }
        Drawn::Bare(command, size, place) => {
            put(&mut out, 0, *size);
            put(&mut out, 4, *command);
            if let Some(at) = place {
                put(&mut out, *at, id);
            }
            (out, *size as usize)
        }
    }
}

// The bytes of the message that a number gives: its row, and its id from 0 to 5.
fn message_of(alloc: Global, number: u32) -> Result<Vec<u8>, Fail> {
    let id = number / 19 % 6;
    let rows = rows(id);
    let drawn = rows.get((number % 19) as usize).ok_or("no row")?;
    let (bytes, size) = spelled(drawn, id);
    let front = bytes.get(..size).ok_or("too long")?;
    Ok(Vec::from_slice(alloc, front)?)
}

// The number that is drawn after another.
fn next(number: u32) -> u32 {
    number.wrapping_mul(1103515245).wrapping_add(12345) % 2147483648
}

// A device that is on, with the heap that the graph with a volume needs.
fn booted(alloc: Global) -> Result<Firmware, Fail> {
    let mut firmware = Firmware::new(alloc, 1856)?;
    firmware.boot(1856);
    Ok(firmware)
}

// The reply of a device to these bytes.
fn reply_of(alloc: Global, firmware: &mut Firmware, request: &[u8]) -> Result<Vec<u8>, Fail> {
    let mut reply = [0; 384];
    let mut io = Inputs::new(alloc)?;
    let mut out = Outputs::new(alloc)?;
    if !firmware.on() {
        Err("it is off")?;
    }
    let Ok(size) = firmware.exchange(request, &mut reply, &mut io, &mut out) else {
        return Err("the link failed")?;
    };
    Ok(Vec::from_slice(alloc, reply.get(..size).ok_or("too long")?)?)
}

// The error of a reply; none where the bytes are no reply.
fn error_of(reply: &[u8]) -> Option<i32> {
    match decode_reply(reply) {
        Ok(reply) => Some(reply.error),
        Err(_fault) => None,
    }
}

// The errors that are counted.
const ERRORS: [i32; 5] = [0, -12, -16, -19, -22];

fn count(counts: &mut [u32; 5], error: Option<i32>) {
    for k in 0..5 {
        if error == Some(ERRORS[k]) {
            counts[k] = counts[k].saturating_add(1);
        }
    }
}

// The replies of a device to the 40 messages of a list, one after the other. Each is a reply, and its error is counted.
fn replies(
    rt: &impl Abort,
    alloc: Global,
    list: u32,
    counts: &mut [u32; 5],
) -> Result<Vec<u8>, Fail> {
    let mut firmware = booted(alloc)?;
    let mut told = Vec::new(alloc);
    let mut number = list;
    for place in 0..40 {
        number = next(number);
        let request = message_of(alloc, number / 65536)?;
        let reply = reply_of(alloc, &mut firmware, &request)?;
        let error = error_of(&reply);
        same(rt, &list, &(place, error.is_some()), &(place, true));
        count(counts, error);
        told.extend_from_slice(&reply)?;
    }
    Ok(told)
}

// A list begins with its number. How many replies have each error was counted apart from the firmware, by a model of ids, pieces and
// holes.
#[test]
fn drawn_messages_are_answered_alike(rt: HostRuntime) -> Result<(), Fail> {
    let mut counts = [0; 5];
    let mut again = [0; 5];
    for list in 1..201 {
        let told = replies(&rt, rt.alloc(), list, &mut counts)?;
        let other = replies(&rt, rt.alloc(), list, &mut again)?;
        same(&rt, &list, &other.as_slice(), &told.as_slice());
    }
    same(&rt, &"its errors", &counts, &[1244, 17, 502, 3486, 2751]);
    Ok(())
}
