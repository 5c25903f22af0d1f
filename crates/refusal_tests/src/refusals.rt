// Drawn messages: each is refused exactly if there is a refusal, and with its error.
ghost use Rattle.std.specs.Prelude.{◌≤◌};

use crate::drawing::{Draw, any_message};
use crate::graphs::{FULL, LISTS, message_at};
use crate::numbers::{REASONS, number};
use crate::same::same;
use fw_core::Firmware;
use fw_refusal::refusal;
use ipc3_codec::{Message, decode_reply, encode};
use mbox_link::Dsp;
use row_reasons::Refusal;
use sof_io::{Inputs, Outputs};
use std::alloc::Global;
use std::process::Abort;
use std::test::Fail;

// The greatest heap of a device, in bytes: 129 components fit.
const ROOM: u32 = 65536;

// How often there was each reason, a message that was done, and a fault of bytes that are no message.
#[derive(Drop)]
struct Counts {
    reasons: [u32; REASONS],
    done: u32,
    broken: u32,
}

// The heap of a device: that of each fifth is too small for most graphs.
fn heap_of(device: u32) -> u32
    ensures { result ≤ 65536 }
{
    if device % 5 == 4 { 992 } else { ROOM }
}

// The next message of a list, or any message: after its last one, and instead of one of eight before that.
fn next(draw: &mut Draw, list: u32, place: &mut u32) -> Message {
    if list < FULL && draw.below(8) == 0 {
        return any_message(draw);
    }
    match message_at(list, *place) {
        Some(message) => {
            *place = place.wrapping_add(1);
            message
        }
        None => any_message(draw),
    }
}

// Of one message in sixteen one byte is another.
fn spoil(draw: &mut Draw, request: &mut [u8; 384], size: usize) {
    if draw.below(16) == 0 {
        let at = draw.below(384) as usize;
        if at < size {
            request[at] = draw.below(256) as u8;
        }
    }
}

// The error of what the device answers to these bytes.
fn error_of(alloc: Global, firmware: &mut Firmware, request: &[u8]) -> Result<i32, Fail> {
    let mut io = Inputs::new(alloc)?;
    let mut out = Outputs::new(alloc)?;
    let mut reply = [0; 384];
    if !firmware.on() {
        Err("it is off")?;
    }
    let Ok(size) = firmware.exchange(request, &mut reply, &mut io, &mut out) else {
        return Err("the link failed")?;
    };
    match decode_reply(reply.get(..size).ok_or("too long")?) {
        Ok(reply) => Ok(reply.error),
        Err(_fault) => Err("no reply")?,
    }
}

// Why a device refuses these bytes.
fn refusal_of(firmware: &Firmware, request: &[u8]) -> Result<Option<Refusal>, Fail> {
    if !firmware.on() {
        Err("it is off")?;
    }
    Ok(refusal(firmware, request))
}

// The error of a refusal, 0 if there is none. It is counted.
fn counted(counts: &mut Counts, refusal: &Option<Refusal>) -> i32 {
    match refusal {
        Some(refusal) => {
            match refusal {
                Refusal::Refused(reason) => {
                    let at = number(reason);
                    counts.reasons[at] = counts.reasons[at].wrapping_add(1);
                }
                Refusal::Broken(_fault) => counts.broken = counts.broken.wrapping_add(1),
            }
            refusal.errno().0
        }
        None => {
            counts.done = counts.done.wrapping_add(1);
            0
        }
    }
}

// The 150 messages of a device.
fn play(rt: &impl Abort, alloc: Global, device: u32, counts: &mut Counts) -> Result<(), Fail> {
    let mut draw = Draw { number: device };
    let mut firmware = Firmware::new(alloc, ROOM)?;
    firmware.boot(heap_of(device));
    let mut place = 0;
    for at in 0..150 {
        let message = next(&mut draw, device % LISTS, &mut place);
        let mut request = [0; 384];
        let size = encode(&message, &mut request);
        spoil(&mut draw, &mut request, size);
        let bytes = request.get(..size).ok_or("too long")?;
        let wanted = counted(counts, &refusal_of(&firmware, bytes)?);
        let error = error_of(alloc, &mut firmware, bytes)?;
        same(rt, &device, &(at, error), &(at, wanted));
    }
    Ok(())
}

// How many reasons there were.
fn seen(counts: &Counts) -> u32 {
    let mut seen: u32 = 0;
    for count in counts.reasons.iter() {
        if *count > 0 {
            seen = seen.wrapping_add(1);
        }
    }
    seen
}

// 400 devices of 150 messages. No message shows three reasons of the 51: what the codec takes has no blob that is too long, each host
// has a stream, and the buffers on the way of a stream with parameters are of complete pipelines.
#[test]
fn each_refusal_has_its_error(rt: HostRuntime) -> Result<(), Fail> {
    let mut counts = Counts {
        reasons: [0; REASONS],
        done: 0,
        broken: 0,
    };
    for device in 0..400 {
        play(&rt, rt.alloc(), device, &mut counts)?;
    }
    same(&rt, &"its reasons", &seen(&counts), &48);
    same(
        &rt,
        &"some are done, and some broken",
        &(counts.done > 0, counts.broken > 0),
        &(true, true),
    );
    Ok(())
}
