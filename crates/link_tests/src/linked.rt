// Runs over a device that fails of its own accord: a firmware after a link of its own, which refuses a message or loses it.
use crate::device::{Failing, device, run_over};
use crate::same::same;
use crate::thin::thin;
use mbox_link::Dsp;
use run_serve::{ServeFiles, serve};
use sof_desk::MemDesk;
use std::alloc::Global;
use std::process::Abort;

const SCRIPT: &[u8] = b"load
open PCM0P
params PCM0P 48000 2 s16
start PCM0P
";

// Plays the script over such a device: the run ends with 0, the device is on or off, and its link holds so many plans.
fn expect(rt: &impl Abort, alloc: Global, failing: Failing, on: bool, held: u32, said: &[u8]) {
    let topology = thin(rt, alloc);
    let mut desk = MemDesk::new(alloc, 4096).expect(rt, "there is memory");
    desk.put_file("a.tplg", &topology)
        .expect(rt, "there is memory");
    desk.put_file("s.txt", SCRIPT).expect(rt, "there is memory");
    let words = ["play", "992", "a.tplg", "s.txt"];
    let (status, dsp) = run_over(rt, alloc, &words, failing, &mut desk);
    same(rt, &"a status", &status, &0);
    same(rt, &"the power", &dsp.on(), &on);
    same(rt, &"what is planned", &dsp.into_dsp().held(), &held);
    same(rt, &"what is said", &desk.said(), &said);
}

// The script alone plans nothing: a refusal and a link down are the device's own. A load of the thin graph has seven messages;
// parameters are the eighth and a start the ninth.
#[test]
fn a_device_refuses_and_loses_messages(rt: HostRuntime) {
    let alloc = rt.alloc();
    let refused = b"1 refused -5\n2 not loaded\n3 not loaded\n4 not loaded\n";
    let down = b"1 link down\n2 not loaded\n3 not loaded\n4 not loaded\n";
    expect(&rt, alloc, Failing::Refuses(1), false, 0, refused);
    expect(&rt, alloc, Failing::Drops(1), false, 0, down);
    expect(&rt, alloc, Failing::Loses(7), false, 0, down);
    let said = b"1 ok\n2 ok\n3 refused -5\n4 state open\n";
    expect(&rt, alloc, Failing::Refuses(8), true, 0, said);
    let said = b"1 ok\n2 ok\n3 ok\n4 link down\n";
    expect(&rt, alloc, Failing::Drops(9), false, 0, said);
    let said = b"1 ok\n2 ok\n3 ok\n4 ok\n";
    expect(&rt, alloc, Failing::Drops(10), true, 1, said);
}

// A boot with 992 bytes, and an empty message with its reply of -22.
const TRACE: [u8; 40] = [
    1, 0, 0, 0, 4, 0, 0, 0, 0xE0, 3, 0, 0, 3, 0, 0, 0, 0, 0, 0, 0, 4, 0, 0, 0, 12, 0, 0, 0, 12, 0,
    0, 0, 0, 0, 0, 0x10, 0xEA, 0xFF, 0xFF, 0xFF,
];

// Replays the trace over such a device: the run ends with this status, and says so.
fn expect_replay(rt: &impl Abort, alloc: Global, failing: Failing, status: u8, said: &[u8]) {
    let mut desk = MemDesk::new(alloc, 4096).expect(rt, "there is memory");
    desk.put_file("x.trace", &TRACE)
        .expect(rt, "there is memory");
    let words = ["replay", "x.trace"];
    let (ended, _) = run_over(rt, alloc, &words, failing, &mut desk);
    same(rt, &"a status", &ended, &status);
    same(rt, &"what is said", &desk.said(), &said);
}

// A message that the device drops ends a replay; its own refusal is another reply than the recorded one.
#[test]
fn a_device_that_fails_ends_a_replay(rt: HostRuntime) {
    let alloc = rt.alloc();
    expect_replay(&rt, alloc, Failing::Drops(1), 10, b"device\n");
    let said = b"trace reply 20\n";
    expect_replay(&rt, alloc, Failing::Refuses(1), 2, said);
    let said = b"boots 1\nmessages 1\nticks 0\npower on\n";
    expect_replay(&rt, alloc, Failing::Drops(10), 0, said);
}

// A boot with 992 bytes, two empty messages and a tick.
const REQUESTS: [u8; 36] = [
    1, 0, 0, 0, 4, 0, 0, 0, 0xE0, 3, 0, 0, 3, 0, 0, 0, 0, 0, 0, 0, 3, 0, 0, 0, 0, 0, 0, 0, 5, 0, 0,
    0, 0, 0, 0, 0,
];

// A loss, and a reply of -22.
const LOST_FIRST: [u8; 28] = [
    6, 0, 0, 0, 0, 0, 0, 0, 4, 0, 0, 0, 12, 0, 0, 0, 12, 0, 0, 0, 0, 0, 0, 0x10, 0xEA, 0xFF, 0xFF,
    0xFF,
];

// Replies of -5 and of -22.
const REFUSED_FIRST: [u8; 40] = [
    4, 0, 0, 0, 12, 0, 0, 0, 12, 0, 0, 0, 0, 0, 0, 0x10, 0xFB, 0xFF, 0xFF, 0xFF, 4, 0, 0, 0, 12, 0,
    0, 0, 12, 0, 0, 0, 0, 0, 0, 0x10, 0xEA, 0xFF, 0xFF, 0xFF,
];

// Serves the records over such a device and a desk whose reads give at most so many bytes, and whose call of a number fails, if any
// does, once so many bytes passed: it ends with this status, and the file of replies has these bytes.
fn expect_served(
    rt: &impl Abort,
    alloc: Global,
    failing: Failing,
    most: u32,
    fails: Option<(u32, u32)>,
    status: u8,
    replies: &[u8],
) {
    let mut desk = MemDesk::new(alloc, 4096).expect(rt, "there is memory");
    desk.put_file("requests", REQUESTS.as_slice())
        .expect(rt, "there is memory");
    desk.put_out("replies", 4096).expect(rt, "there is memory");
    desk.read_at_most(most.max(1));
    let mut at = 0;
    if let Some((call, passes)) = fails {
        desk.fail_call(call, passes).expect(rt, "there is memory");
        at = call;
    }
    let Ok(dsp) = device(alloc, failing) else {
        panic!(rt; "there is no memory")
    };
    let files = ServeFiles {
        requests: "requests",
        replies: "replies",
    };
    let served = serve(alloc, files, &mut desk, dsp);
    same(rt, &at, &served.status, &status);
    same(rt, &at, &desk.file("replies"), &Some(replies));
    same(rt, &at, &desk.said(), &b"".as_slice());
}

// A message that the device drops has a loss, and the next one its reply. However few bytes a read gives, the replies are the same.
#[test]
fn a_device_that_fails_serves_on(rt: HostRuntime) {
    let alloc = rt.alloc();
    for most in [1u32, 3, 392] {
        let lost = LOST_FIRST.as_slice();
        expect_served(&rt, alloc, Failing::Drops(1), most, None, 0, lost);
        let refused = REFUSED_FIRST.as_slice();
        expect_served(&rt, alloc, Failing::Refuses(1), most, None, 0, refused);
    }
}

// The calls in their order: the file of the records is opened (1), and that of the replies made (2). Kind and size of the boot are read (3),
// then its heap (4). The first message is read (5), its loss appended (6) and let out (7). Then come those of the second message (8 to 10), the
// tick (11), the end (12), and then all is let out once more (13).
#[test]
fn each_call_of_serving_that_fails_leaves_a_front(rt: HostRuntime) {
    let alloc = rt.alloc();
    for (call, passes, status, length) in [
        (1u32, 0u32, 3u8, 0usize),
        (2, 0, 3, 0),
        (3, 0, 3, 0),
        (4, 0, 3, 0),
        (5, 0, 3, 0),
        (6, 0, 3, 0),
        (6, 5, 3, 5),
        (7, 0, 3, 8),
        (8, 0, 3, 8),
        (9, 7, 3, 15),
        (10, 0, 3, 28),
        (11, 0, 3, 28),
        (12, 0, 3, 28),
        (13, 0, 3, 28),
        (14, 0, 0, 28),
    ] {
        let replies = LOST_FIRST.get(..length).unwrap_or(&[]);
        let fails = Some((call, passes));
        expect_served(&rt, alloc, Failing::Drops(1), 392, fails, status, replies);
    }
}
