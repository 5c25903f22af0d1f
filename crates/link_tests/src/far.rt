// A device that a far side is compared with, over replies in memory.
use crate::same::same;
use fw_core::Firmware;
use ipc3_far::{Far, FarAnswer};
use mbox_link::{Dsp, LinkFault};
use sof_io::{Inputs, Outputs};
use std::alloc::Global;
use std::process::Abort;

/// The greatest heap of the firmware, in bytes.
const ROOM: u32 = 4096;

// A reply of -22 as a record.
const REPLY: [u8; 20] = [
    4, 0, 0, 0, 12, 0, 0, 0, 12, 0, 0, 0, 0, 0, 0, 0x10, 0xEA, 0xFF, 0xFF, 0xFF,
];

// What is there of the first message in which the far side failed: its number, and how it failed.
fn failure(far: Far<Firmware, &[u8], Vec<u8>>) -> (u64, &'static str) {
    let Some(fault) = far.into_fault() else {
        return (0, "none");
    };
    let how = match fault.answer {
        FarAnswer::Reply(_) => "another reply",
        FarAnswer::Other(_) => "no reply",
        FarAnswer::End => "an end",
        FarAnswer::Unsent(_) => "nothing went out",
        FarAnswer::Unread(_) => "nothing came",
    };
    (fault.message, how)
}

// Whether an empty message has a reply.
fn is_answered(rt: &impl Abort, alloc: Global, far: &mut Far<Firmware, &[u8], Vec<u8>>) -> bool {
    let Ok(mut inputs) = Inputs::new(alloc) else {
        panic!(rt; "there is no memory")
    };
    let Ok(mut outputs) = Outputs::new(alloc) else {
        panic!(rt; "there is no memory")
    };
    let mut reply = [0; 384];
    far.on() && far.exchange(&[], &mut reply, &mut inputs, &mut outputs) != Err(LinkFault)
}

// Two empty messages to a firmware that was booted, over these bytes of a far side: whether each has a reply, and the first failure.
fn expect(
    rt: &impl Abort,
    alloc: Global,
    bytes: &[u8],
    passed: (bool, bool),
    message: u64,
    how: &'static str,
) {
    let Ok(dsp) = Firmware::new(alloc, ROOM) else {
        panic!(rt; "there is no memory")
    };
    let mut far = Far::new(dsp, bytes, Vec::new(alloc));
    far.boot(992);
    same(rt, &how, &is_answered(rt, alloc, &mut far), &passed.0);
    same(rt, &how, &is_answered(rt, alloc, &mut far), &passed.1);
    same(rt, &how, &failure(far), &(message, how));
}

// The right reply passes. All else is a failure of the link, at each length at which the record is cut, and the first one is kept.
#[test]
fn a_far_reply_has_to_be_right(rt: HostRuntime) {
    let alloc = rt.alloc();
    let mut twice = [0; 40];
    twice[..20].copy_from_slice(&REPLY);
    twice[20..].copy_from_slice(&REPLY);
    expect(&rt, alloc, &twice, (true, true), 0, "none");
    expect(&rt, alloc, &twice[..20], (true, false), 2, "an end");
    for cut in 1..20 {
        expect(&rt, alloc, &twice[..20 + cut], (true, false), 2, "no reply");
    }
    twice[16] = 0xEB;
    expect(&rt, alloc, &twice, (false, true), 1, "another reply");
    twice[0] = 9;
    expect(&rt, alloc, &twice, (false, false), 1, "no reply");
    expect(&rt, alloc, &[], (false, false), 1, "an end");
}
