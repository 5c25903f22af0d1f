// Records of a trace and their lines, and traces that are cut or changed.
use ipc3_codec::{CompWords, Message, encode};
use ipc3_trace::{Entry, Next, TraceFault, describe, first_fault, record_at};
use sof_base::{Bounded, Line};
use std::fmt::Debug;
use std::process::Abort;

// A boot with 992 bytes, CONNECT of component 0 and buffer 1, its reply, a tick, an empty message that is lost, and a cut.
const TRACE: [u8; 88] = [
    1, 0, 0, 0, 4, 0, 0, 0, 0xE0, 3, 0, 0, 3, 0, 0, 0, 16, 0, 0, 0, 16, 0, 0, 0, 0, 0, 3, 0x30, 0,
    0, 0, 0, 1, 0, 0, 0, 4, 0, 0, 0, 12, 0, 0, 0, 12, 0, 0, 0, 0, 0, 0, 0x10, 0, 0, 0, 0, 5, 0, 0,
    0, 0, 0, 0, 0, 3, 0, 0, 0, 0, 0, 0, 0, 6, 0, 0, 0, 0, 0, 0, 0, 2, 0, 0, 0, 0, 0, 0, 0,
];

// Of a place: how many of these records end before it, and where the next one begins.
fn record_of(place: usize) -> (usize, usize) {
    match place {
        0..12 => (0, 0),
        12..36 => (1, 12),
        36..56 => (2, 36),
        56..64 => (3, 56),
        64..72 => (4, 64),
        72..80 => (5, 72),
        80..88 => (6, 80),
        _ => (7, 88),
    }
}

// How many records bytes have up to their end or their first fault, and that.
fn records(bytes: &[u8]) -> (usize, Option<TraceFault>) {
    let mut at = 0;
    for count in 0..8 {
        if at > bytes.len() {
            return (count, None);
        }
        match record_at(bytes, at) {
            Ok(Next::One { next, .. }) => at = next,
            Ok(Next::End) => return (count, None),
            Err(fault) => return (count, Some(fault)),
        }
    }
    (8, None)
}

fn same<T: PartialEq + Debug>(rt: &impl Abort, at: usize, is: &T, want: &T) {
    assert_eq!(rt; is, want, "at {at}");
}

#[test]
fn a_trace_that_is_cut_is_told(rt: HostRuntime) {
    for length in 0..89 {
        let (count, start) = record_of(length);
        let want = if length == start {
            None
        } else {
            Some(TraceFault::Short(start))
        };
        let bytes = TRACE.get(..length).unwrap_or(&[]);
        same(&rt, length, &records(bytes), &(count, want));
        same(&rt, length, &first_fault(bytes), &want);
    }
}

// What is reported of the trace with this word, which is no kind's number and no size, at a place.
fn told(at: usize, word: u32) -> (usize, Option<TraceFault>) {
    let (count, start) = record_of(at);
    match at.saturating_sub(start) {
        0 => (count, Some(TraceFault::Kind(start, word))),
        4 => (count, Some(TraceFault::Size(start))),
        _ => (7, None),
    }
}

fn each_word_changed(rt: &impl Abort, word: u32) {
    for k in 0..22 {
        let at = 4 * k;
        let mut bytes = TRACE;
        bytes[at..at + 4].copy_from_slice(&word.to_le_bytes());
        same(rt, at, &records(&bytes), &told(at, word));
    }
}

#[test]
fn a_word_that_is_changed_is_told(rt: HostRuntime) {
    each_word_changed(&rt, 385);
    each_word_changed(&rt, u32::MAX);
}

fn line_is(rt: &impl Abort, entry: Entry, want: &str) {
    let mut line = Line::new();
    describe(&entry, &mut line);
    assert_eq!(rt; line.bytes(), want.as_bytes());
}

// The bytes from a place on, as those of a record.
fn message(bytes: &[u8]) -> Bounded<u8, 384> {
    Bounded::new(bytes).unwrap_or(Bounded::empty())
}

#[test]
fn each_kind_has_its_line(rt: HostRuntime) {
    line_is(&rt, Entry::Boot(992), "boot 992");
    line_is(&rt, Entry::Cut, "cut");
    line_is(&rt, Entry::Tick, "tick");
    line_is(&rt, Entry::Lost, "lost");
    line_is(
        &rt,
        Entry::Request(message(&TRACE[20..36])),
        "request CONNECT 8=0 12=1",
    );
    line_is(
        &rt,
        Entry::Request(message(&TRACE[20..35])),
        "request bad 2",
    );
    line_is(&rt, Entry::Request(Bounded::empty()), "request bad 1");
    line_is(&rt, Entry::Reply(message(&TRACE[44..56])), "reply 0");
    let refused = [12, 0, 0, 0, 0, 0, 0, 0x10, 0xF4, 0xFF, 0xFF, 0xFF];
    line_is(&rt, Entry::Reply(message(&refused)), "reply -12");
}

#[test]
fn a_volume_with_a_ramp_has_its_words(rt: HostRuntime) {
    let volume = Message::CompNew {
        id: 2,
        pipe: 1,
        periods_sink: 3,
        periods_source: 4,
        frame_fmt: 2,
        kind: CompWords::Volume {
            channels: 2,
            min_value: 0,
            max_value: 65536,
            ramp: 2,
            initial_ramp: 20,
        },
    };
    let mut bytes = [0; 384];
    let size = encode(&volume, &mut bytes);
    line_is(
        &rt,
        Entry::Request(message(bytes.get(..size).unwrap_or(&[]))),
        "request COMP_NEW 8=2 12=5 16=1 20=0 24=0 28=36 32=0 36=3 40=4 44=0 48=2 52=0 56=0 60=0 64=2 68=0 72=65536 76=2 80=20",
    );
}
