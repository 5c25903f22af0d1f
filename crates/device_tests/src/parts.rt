// Blobs that come in parts, and are read in parts.
ghost use Rattle.std.specs.Prelude.{◌≤◌};

use crate::messages::{HOST, S32, component};
use crate::steps::{INVALID, NO_DEVICE, Step, done, played};
use ipc3_codec::{CompWords, Message};
use sof_base::{Bounded, Part};
use std::test::Fail;

// The words of a blob of one channel and one section. The bytes after them, by which it has three parts, mean nothing.
const WORDS: [u32; 29] = [
    0x0046_4F53,
    0,
    668,
    0,
    0,
    0,
    0,
    0,
    0,
    1,
    1,
    0,
    0,
    0,
    0,
    0,
    1,
    1,
    0,
    0,
    0,
    0,
    0,
    0,
    0,
    0,
    0x4000_0000,
    0,
    16384,
];

fn blob() -> [u8; 700] {
    let mut blob = [7; 700];
    for at in 0..29 {
        let word = WORDS[at].to_le_bytes();
        blob[4 * at..4 * at + 4].copy_from_slice(&word);
    }
    blob
}

// The part of this number.
fn part(index: u32) -> Part
    requires { index ≤ 2 }
{
    let blob = blob();
    let at = 32 + 260 * index as usize;
    let end = (at + 260).min(700);
    let mut header = [0; 32];
    for k in 0..32 {
        header[k] = blob[k];
    }
    Part {
        header,
        remaining: (700 - end) as u32,
        index,
        bytes: Bounded::new(&blob[at..end]).unwrap_or(Bounded::empty()),
    }
}

// The same without its bytes.
fn empty(index: u32) -> Part
    requires { index ≤ 2 }
{
    let mut part = part(index);
    part.bytes = Bounded::empty();
    part
}

// The same with so many more bytes after it.
fn longer(index: u32, more: u32) -> Part
    requires { index ≤ 2 }
{
    let mut part = part(index);
    part.remaining = part.remaining.saturating_add(more);
    part
}

// The same of a blob with another header.
fn of_another(index: u32) -> Part
    requires { index ≤ 2 }
{
    let mut part = part(index);
    part.header[8] = 0;
    part
}

// The only part of what has another first word than a blob.
fn no_blob() -> Part {
    Part {
        header: [0; 32],
        remaining: 0,
        index: 0,
        bytes: Bounded::new(&[0; 28]).unwrap_or(Bounded::empty()),
    }
}

// Sets a part at the equaliser.
fn set(part: Part) -> Message {
    Message::SetData { id: 7, part }
}

// A part that is not taken.
fn refused(part: Part) -> Step {
    Step::Told(set(part), INVALID)
}

// There is no part of this number in force.
fn without(index: u32) -> Step {
    Step::Told(Message::GetData { id: 7, index }, INVALID)
}

// The equaliser.
fn equaliser() -> [Message; 1] {
    [component(7, S32, CompWords::Eq)]
}

#[test]
fn a_blob_is_in_force_with_its_last_part(rt: HostRuntime) -> Result<(), Fail> {
    let steps = [
        without(0),
        done(set(part(0))),
        without(0),
        done(set(part(1))),
        without(0),
        done(set(part(2))),
        Step::Part(7, part(0)),
        Step::Part(7, part(1)),
        Step::Part(7, part(2)),
        without(3),
        Step::Holds(4160, 1),
    ];
    played(&rt, rt.alloc(), 4160, &equaliser(), &steps)
}

#[test]
fn what_breaks_the_order_leaves_what_is_staged(rt: HostRuntime) -> Result<(), Fail> {
    let steps = [
        refused(part(1)),
        refused(empty(0)),
        refused(longer(0, 325)),
        done(set(part(0))),
        refused(part(2)),
        refused(empty(1)),
        refused(longer(1, 1)),
        refused(of_another(1)),
        done(set(part(1))),
        refused(empty(2)),
        done(set(part(2))),
        refused(part(2)),
        Step::Part(7, part(2)),
    ];
    played(&rt, rt.alloc(), 4160, &equaliser(), &steps)
}

#[test]
fn what_is_no_blob_leaves_what_is_staged(rt: HostRuntime) -> Result<(), Fail> {
    let steps = [
        done(set(part(0))),
        done(set(part(1))),
        refused(no_blob()),
        done(set(part(2))),
        Step::Part(7, part(0)),
        refused(no_blob()),
        Step::Part(7, part(2)),
    ];
    played(&rt, rt.alloc(), 4160, &equaliser(), &steps)
}

#[test]
fn part_0_begins_anew(rt: HostRuntime) -> Result<(), Fail> {
    let steps = [
        done(set(part(0))),
        done(set(part(1))),
        done(set(part(0))),
        refused(part(2)),
        done(set(part(1))),
        done(set(part(2))),
        done(set(of_another(0))),
        refused(part(1)),
        Step::Part(7, part(0)),
    ];
    played(&rt, rt.alloc(), 4160, &equaliser(), &steps)
}

#[test]
fn parts_are_an_equalisers(rt: HostRuntime) -> Result<(), Fail> {
    let steps = [
        Step::Told(
            Message::SetData {
                id: 0,
                part: part(0),
            },
            INVALID,
        ),
        Step::Told(
            Message::SetData {
                id: 9,
                part: part(0),
            },
            NO_DEVICE,
        ),
        Step::Told(Message::GetData { id: 0, index: 0 }, INVALID),
        Step::Told(Message::GetData { id: 9, index: 0 }, NO_DEVICE),
    ];
    played(&rt, rt.alloc(), 64, &[component(0, S32, HOST)], &steps)
}
