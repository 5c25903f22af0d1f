// How often a device is booted, by the records that it leaves of its own.
use crate::device::{Device, Failing, run_over};
use crate::same::same;
use crate::thin::thin;
use sof_desk::MemDesk;
use std::alloc::Global;
use std::process::Abort;

/// The record of a boot with 992 bytes.
const BOOT: [u8; 12] = [1, 0, 0, 0, 4, 0, 0, 0, 0xE0, 3, 0, 0];

// How often it stands in what a device left.
fn boots(dsp: &Device) -> usize {
    let bytes = dsp.bytes();
    let mut boots = 0usize;
    for at in 0..bytes.len() {
        if bytes.get(at..).unwrap_or(&[]).starts_with(&BOOT) {
            boots = boots.saturating_add(1);
        }
    }
    boots
}

// A replay of these bytes ends with this status, and leaves so many bytes of them as the device's own records, with so many boots.
fn expect_replay(
    rt: &impl Abort,
    alloc: Global,
    trace: &[u8],
    status: u8,
    left: usize,
    booted: usize,
) {
    let mut desk = MemDesk::new(alloc, 4096).expect(rt, "there is memory");
    desk.put_file("x.trace", trace)
        .expect(rt, "there is memory");
    let words = ["replay", "x.trace"];
    let (ended, dsp) = run_over(rt, alloc, &words, Failing::Nothing, &mut desk);
    same(rt, &left, &ended, &status);
    same(rt, &left, &dsp.bytes(), &trace.get(..left).unwrap_or(&[]));
    same(rt, &left, &boots(&dsp), &booted);
}

// A boot with 992 bytes, a cut, a boot and a tick.
const TWICE: [u8; 40] = [
    1, 0, 0, 0, 4, 0, 0, 0, 0xE0, 3, 0, 0, 2, 0, 0, 0, 0, 0, 0, 0, 1, 0, 0, 0, 4, 0, 0, 0, 0xE0, 3,
    0, 0, 5, 0, 0, 0, 0, 0, 0, 0,
];

// A boot of a device that is on: the second record is at fault, and is not given.
const AGAIN: [u8; 24] = [
    1, 0, 0, 0, 4, 0, 0, 0, 0xE0, 3, 0, 0, 1, 0, 0, 0, 4, 0, 0, 0, 0xE0, 3, 0, 0,
];

#[test]
fn a_replay_boots_as_often_as_its_records_say(rt: HostRuntime) {
    let alloc = rt.alloc();
    expect_replay(&rt, alloc, &TWICE, 0, 40, 2);
    expect_replay(&rt, alloc, &AGAIN, 2, 12, 1);
    expect_replay(&rt, alloc, &[], 0, 0, 0);
}

// A load and a resume boot it, in either mode; no other command does, and none whose test fails.
#[test]
fn a_load_and_a_resume_boot(rt: HostRuntime) {
    let alloc = rt.alloc();
    let topology = thin(&rt, alloc);
    for mode in ["play", "dynamic"] {
        let mut desk = MemDesk::new(alloc, 4096).expect(&rt, "there is memory");
        desk.put_file("a.tplg", &topology)
            .expect(&rt, "there is memory");
        let script = b"load\nload\nresume\nsuspend\nresume\ntick 2\nunload\n";
        desk.put_file("s.txt", script)
            .expect(&rt, "there is memory");
        let words = [mode, "992", "a.tplg", "s.txt"];
        let (status, dsp) = run_over(&rt, alloc, &words, Failing::Nothing, &mut desk);
        same(&rt, &mode, &status, &0);
        same(&rt, &mode, &boots(&dsp), &2);
    }
}
