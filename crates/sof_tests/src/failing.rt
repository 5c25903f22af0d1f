// Runs over a desk that fails: a front of the whole run is left, and the status is 3.
use crate::graphs::{THIN, graph};
use crate::played::{Failing, desk_with, ends};
use crate::same::same;
use std::alloc::Global;
use std::process::Abort;

const SHOWN: &[u8] = b"1 ok
2 show
power on
comp 0 host-play pipe 1 PCM0P
buffer 1 size 768 pipe 1 B0
comp 2 dai-play s32 pipe 1 DAI0
pipe 3 index 1 period 1000 PIPE1
edge 0 1 2
stream PCM0P closed
";

// A load and a show over the thin graph, whose file is `topology`, end so where a call fails.
fn load_and_show_ends(
    rt: &impl Abort,
    alloc: Global,
    topology: &[u8],
    failing: Failing,
    want: (u8, bool),
    length: usize,
) {
    let words = ["play", "992", "a.tplg", "s.txt"];
    let mut desk = desk_with(rt, alloc, topology, b"load\nshow\n", failing);
    let (call, said) = (failing.0 as usize, SHOWN.get(..length));
    let on = ends(rt, alloc, call, &words, &mut desk, want.0, said);
    same(rt, &call, &on, &want.1);
}

// The first two calls load the topology and the script, and then each line is one. A twelfth call never comes.
#[test]
fn each_call_of_a_load_and_show_that_fails_leaves_a_front(rt: HostRuntime) {
    let topology = graph(&rt, rt.alloc(), THIN);
    for (call, passes, status, on, length) in [
        (1u32, 0u32, 3u8, false, 0usize),
        (2, 0, 3, false, 0),
        (3, 0, 3, true, 0),
        (4, 0, 3, true, 5),
        (5, 0, 3, true, 12),
        (6, 0, 3, true, 21),
        (7, 0, 3, true, 51),
        (8, 0, 3, true, 79),
        (9, 0, 3, true, 111),
        (10, 0, 3, true, 144),
        (11, 0, 3, true, 155),
        (4, 2, 3, true, 7),
        (5, 3, 3, true, 15),
        (12, 0, 0, true, 175),
    ] {
        let failing = (call, passes);
        load_and_show_ends(&rt, rt.alloc(), &topology, failing, (status, on), length);
    }
}

// The third call of a broken topology says its fault.
#[test]
fn a_fault_that_is_cut_is_a_failure(rt: HostRuntime) {
    let words = ["play", "992", "a.tplg", "s.txt"];
    let mut desk = desk_with(&rt, rt.alloc(), b"CoS", b"load\n", (3, 6));
    let said = Some(b"topolo".as_slice());
    ends(&rt, rt.alloc(), 3, &words, &mut desk, 3, said);
}

const COUNTS: &[u8] = b"pipelines 1
components 2
buffers 1
routes 2
streams 1
controls 0
need 992
";

// A check of the thin graph ends so where a call fails.
fn check_ends(
    rt: &impl Abort,
    alloc: Global,
    topology: &[u8],
    failing: Failing,
    status: u8,
    length: usize,
) {
    let mut desk = desk_with(rt, alloc, topology, b"", failing);
    let words = ["check", "a.tplg"];
    let (call, said) = (failing.0 as usize, COUNTS.get(..length));
    let on = ends(rt, alloc, call, &words, &mut desk, status, said);
    same(rt, &call, &on, &false);
}

// The load is the first call of a check, and then each line is one. A ninth call never comes.
#[test]
fn a_check_that_fails_leaves_a_front_of_its_lines(rt: HostRuntime) {
    let topology = graph(&rt, rt.alloc(), THIN);
    for (call, passes, status, length) in [
        (1u32, 0u32, 3u8, 0usize),
        (2, 0, 3, 0),
        (3, 0, 3, 12),
        (4, 0, 3, 25),
        (5, 0, 3, 35),
        (6, 0, 3, 44),
        (7, 0, 3, 54),
        (8, 0, 3, 65),
        (4, 3, 3, 28),
        (8, 8, 3, 73),
        (9, 0, 0, 74),
    ] {
        let failing = (call, passes);
        check_ends(&rt, rt.alloc(), &topology, failing, status, length);
    }
}

const RECORDS: &[u8] =
    b"\x01\x00\x00\x00\x04\x00\x00\x00\xe0\x03\x00\x00\x05\x00\x00\x00\x00\x00\x00\x00";

// Words over a file of these bytes, where a call fails.
fn file_ends(
    rt: &impl Abort,
    alloc: Global,
    words: &[&str],
    failing: Failing,
    want: (u8, bool),
    said: Option<&[u8]>,
) {
    let mut desk = desk_with(rt, alloc, RECORDS, b"", failing);
    let call = failing.0 as usize;
    let on = ends(rt, alloc, call, words, &mut desk, want.0, said);
    same(rt, &call, &on, &want.1);
}

// The load is the first call, and then each record has a line. A fourth call never comes.
#[test]
fn a_decode_that_fails_leaves_a_front_of_its_lines(rt: HostRuntime) {
    let lines = b"boot 992\ntick\n".as_slice();
    for (call, passes, status, length) in [
        (1u32, 0u32, 3u8, 0usize),
        (2, 0, 3, 0),
        (3, 0, 3, 9),
        (2, 4, 3, 4),
        (4, 0, 0, 14),
    ] {
        let failing = (call, passes);
        let words = ["decode", "a.tplg"];
        file_ends(
            &rt,
            rt.alloc(),
            &words,
            failing,
            (status, false),
            lines.get(..length),
        );
    }
}

// The load is the first call, and then each of four lines is one, once all records were given. A sixth call never comes.
#[test]
fn a_replay_that_fails_leaves_a_front_of_its_lines(rt: HostRuntime) {
    let lines = b"boots 1\nmessages 0\nticks 1\npower on\n".as_slice();
    for (call, passes, status, on, length) in [
        (1u32, 0u32, 3u8, false, 0usize),
        (2, 0, 3, true, 0),
        (3, 0, 3, true, 8),
        (4, 0, 3, true, 19),
        (5, 0, 3, true, 27),
        (3, 5, 3, true, 13),
        (6, 0, 0, true, 36),
    ] {
        let failing = (call, passes);
        let words = ["replay", "a.tplg"];
        file_ends(
            &rt,
            rt.alloc(),
            &words,
            failing,
            (status, on),
            lines.get(..length),
        );
    }
}

// The first two calls load the topology and the script, the third creates the trace, the fourth appends the records of the load, and the fifth
// is its line. A sixth call never comes.
#[test]
fn each_call_of_a_trace_that_fails_leaves_a_front(rt: HostRuntime) {
    let topology = graph(&rt, rt.alloc(), THIN);
    for (call, passes, status, on, length) in [
        (1u32, 0u32, 3u8, false, 0usize),
        (2, 0, 3, false, 0),
        (3, 0, 3, false, 0),
        (4, 0, 3, true, 0),
        (5, 0, 3, true, 0),
        (5, 3, 3, true, 3),
        (6, 0, 0, true, 5),
    ] {
        let words = ["trace", "992", "a.tplg", "s.txt", "x.trace"];
        let mut desk = desk_with(&rt, rt.alloc(), &topology, b"load\n", (call, passes));
        desk.put_out("x.trace", 8192).expect(&rt, "there is memory");
        let said = b"1 ok\n".as_slice();
        let was_on = ends(
            &rt,
            rt.alloc(),
            call as usize,
            &words,
            &mut desk,
            status,
            said.get(..length),
        );
        same(&rt, &call, &was_on, &on);
    }
}
