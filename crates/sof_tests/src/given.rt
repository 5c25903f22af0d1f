// Replays of a trace that is cut or changed, over a desk in memory and the firmware.
use crate::played::ends;
use sof_desk::MemDesk;
use std::alloc::Global;
use std::process::Abort;

// A boot with 992 bytes, COMP_NEW of a host and its reply, CONNECT of two ids that name nothing and its reply of -19, a tick and a cut.
const TRACE: [u8; 176] = [
    1, 0, 0, 0, 4, 0, 0, 0, 0xE0, 3, 0, 0, 3, 0, 0, 0, 76, 0, 0, 0, 76, 0, 0, 0, 0, 0, 1, 0x30, 0,
    0, 0, 0, 1, 0, 0, 0, 1, 0, 0, 0, 0, 0, 0, 0, 0, 0, 0, 0, 36, 0, 0, 0, 0, 0, 0, 0, 0, 0, 0, 0,
    0, 0, 0, 0, 0, 0, 0, 0, 2, 0, 0, 0, 0, 0, 0, 0, 0, 0, 0, 0, 0, 0, 0, 0, 0, 0, 0, 0, 0, 0, 0, 0,
    0, 0, 0, 0, 4, 0, 0, 0, 12, 0, 0, 0, 12, 0, 0, 0, 0, 0, 0, 0x10, 0, 0, 0, 0, 3, 0, 0, 0, 16, 0,
    0, 0, 16, 0, 0, 0, 0, 0, 3, 0x30, 8, 0, 0, 0, 9, 0, 0, 0, 4, 0, 0, 0, 12, 0, 0, 0, 12, 0, 0, 0,
    0, 0, 0, 0x10, 0xED, 0xFF, 0xFF, 0xFF, 5, 0, 0, 0, 0, 0, 0, 0, 2, 0, 0, 0, 0, 0, 0, 0,
];

const ALL: &[u8] = b"boots 1\nmessages 2\nticks 1\npower off\n";

// What is said of the first bytes of the trace, from so many on.
const FRONTS: [(usize, &[u8]); 15] = [
    (0, b"boots 0\nmessages 0\nticks 0\npower off\n"),
    (1, b"trace short 0\n"),
    (12, b"boots 1\nmessages 0\nticks 0\npower on\n"),
    (13, b"trace short 12\n"),
    (96, b"trace order 96\n"),
    (97, b"trace short 96\n"),
    (116, b"boots 1\nmessages 1\nticks 0\npower on\n"),
    (117, b"trace short 116\n"),
    (140, b"trace order 140\n"),
    (141, b"trace short 140\n"),
    (160, b"boots 1\nmessages 2\nticks 0\npower on\n"),
    (161, b"trace short 160\n"),
    (168, b"boots 1\nmessages 2\nticks 1\npower on\n"),
    (169, b"trace short 168\n"),
    (176, ALL),
];

fn said_of_a_front(length: usize) -> &'static [u8] {
    let mut last: &[u8] = &[];
    for (from, said) in FRONTS {
        if from <= length {
            last = said;
        }
    }
    last
}

// What is said of the trace with a word of ones at a place. The device looks at four words of the first message, and at none of what
// the second one joins.
const ONES: [(usize, &[u8]); 27] = [
    (0, b"trace kind 0 4294967295\n"),
    (4, b"trace size 0\n"),
    (8, b"trace order 0\n"),
    (12, b"trace kind 12 4294967295\n"),
    (16, b"trace size 12\n"),
    (20, b"trace reply 96\n"),
    (24, b"trace reply 96\n"),
    (32, b"trace reply 96\n"),
    (84, b"trace reply 96\n"),
    (96, b"trace kind 96 4294967295\n"),
    (100, b"trace size 96\n"),
    (104, b"trace reply 96\n"),
    (108, b"trace reply 96\n"),
    (112, b"trace reply 96\n"),
    (116, b"trace kind 116 4294967295\n"),
    (120, b"trace size 116\n"),
    (124, b"trace reply 140\n"),
    (128, b"trace reply 140\n"),
    (140, b"trace kind 140 4294967295\n"),
    (144, b"trace size 140\n"),
    (148, b"trace reply 140\n"),
    (152, b"trace reply 140\n"),
    (156, b"trace reply 140\n"),
    (160, b"trace kind 160 4294967295\n"),
    (164, b"trace size 160\n"),
    (168, b"trace kind 168 4294967295\n"),
    (172, b"trace size 168\n"),
];

fn said_of_ones(place: usize) -> &'static [u8] {
    for (at, said) in ONES {
        if at == place {
            return said;
        }
    }
    ALL
}

// A replay of these bytes says so.
fn replay_says(rt: &impl Abort, alloc: Global, row: usize, bytes: &[u8], want: &[u8]) {
    let mut desk = MemDesk::new(alloc, 4096).expect(rt, "there is memory");
    desk.put_file("x.trace", bytes)
        .expect(rt, "there is memory");
    let status: u8 = if want.starts_with(b"boots") { 0 } else { 2 };
    let words = ["replay", "x.trace"];
    ends(rt, alloc, row, &words, &mut desk, status, Some(want));
}

#[test]
fn a_replay_of_a_trace_that_is_cut_is_told(rt: HostRuntime) {
    for length in 0..177 {
        let bytes = TRACE.get(..length).unwrap_or(&[]);
        replay_says(&rt, rt.alloc(), length, bytes, said_of_a_front(length));
    }
}

#[test]
fn a_replay_of_a_word_that_is_changed_is_told(rt: HostRuntime) {
    for k in 0..44 {
        let place = 4 * k;
        let mut bytes = TRACE;
        bytes[place..place + 4].copy_from_slice(&[0xFF; 4]);
        replay_says(&rt, rt.alloc(), place, &bytes, said_of_ones(place));
    }
}
