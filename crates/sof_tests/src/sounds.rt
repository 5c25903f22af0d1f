// Runs that play an input's file into an output's file over the volume graph and a desk that fails.
use crate::graphs::{VOLUME, graph};
use crate::played::{Failing, desk_with, ends};
use crate::same::same;
use sof_desk::MemDesk;
use std::alloc::Global;
use std::process::Abort;

const TEN_TICKS: &[u8] = b"in PCM0P in.raw
out DAI0 out.raw
load
open PCM0P
params PCM0P 48000 2 s16
start PCM0P
tick 10
stop PCM0P
close PCM0P
";

const SAID: &[u8] = b"3 ok\n4 ok\n5 ok\n6 ok\n7 ok\n8 ok\n9 ok\n";

// So many times the same bytes.
fn repeated(rt: &impl Abort, alloc: Global, bytes: &[u8], times: usize) -> Vec<u8> {
    let mut out = Vec::new(alloc);
    for _ in 0..times {
        out.extend_from_slice(bytes).expect(rt, "there is memory");
    }
    out
}

// The ten-tick script over the volume graph, whose file is `topology`, with 1920 bytes of the greatest sample as `in.raw`.
fn laid_out(rt: &impl Abort, alloc: Global, topology: &[u8], failing: Failing) -> MemDesk {
    let mut desk = desk_with(rt, alloc, topology, TEN_TICKS, failing);
    let input = repeated(rt, alloc, &[0xff, 0x7f], 960);
    desk.put_file("in.raw", &input)
        .expect(rt, "there is memory");
    desk.put_out("out.raw", 8192).expect(rt, "there is memory");
    desk
}

// A run over a desk that is laid out, of which these fronts of the lines and of the output are left.
fn leaves(
    rt: &impl Abort,
    alloc: Global,
    row: usize,
    desk: &mut MemDesk,
    status: u8,
    said: usize,
    appended: usize,
) {
    let words = ["play", "1856", "a.tplg", "s.txt"];
    ends(rt, alloc, row, &words, desk, status, SAID.get(..said));
    let whole = repeated(rt, alloc, &[0, 0, 0xff, 0x7f], 960);
    same(rt, &row, &desk.file("out.raw"), &whole.get(..appended));
}

#[test]
fn ten_ticks_are_played(rt: HostRuntime) {
    let topology = graph(&rt, rt.alloc(), VOLUME);
    let mut desk = laid_out(&rt, rt.alloc(), &topology, (0, 0));
    leaves(&rt, rt.alloc(), 0, &mut desk, 0, 35, 3840);
}

// Each read gives one byte, and the same is played.
#[test]
fn reads_of_one_byte_play_the_same(rt: HostRuntime) {
    let topology = graph(&rt, rt.alloc(), VOLUME);
    let mut desk = laid_out(&rt, rt.alloc(), &topology, (0, 0));
    desk.read_at_most(1);
    leaves(&rt, rt.alloc(), 0, &mut desk, 0, 35, 3840);
}

// The thirteenth call appends the third tick's bytes: two reads come before the first line.
#[test]
fn an_append_that_fails_leaves_a_front_of_the_sound(rt: HostRuntime) {
    let topology = graph(&rt, rt.alloc(), VOLUME);
    let mut desk = laid_out(&rt, rt.alloc(), &topology, (13, 100));
    leaves(&rt, rt.alloc(), 13, &mut desk, 3, 20, 868);
}

// How many bytes were said and appended before a call. Two loads, an open, a create and two reads come first; then four lines of five
// bytes, ten appends of 384 bytes and three lines more.
fn before(call: u32) -> (usize, usize) {
    let done = call.saturating_sub(1) as usize;
    let lines = done.saturating_sub(6).min(4) + done.saturating_sub(20).min(3);
    let ticks = done.saturating_sub(10).min(10);
    (5 * lines, 384 * ticks)
}

// A call that fails and writes nothing leaves what stands before it.
fn leaves_fronts(rt: &impl Abort, alloc: Global, topology: &[u8], call: u32) {
    let mut desk = laid_out(rt, alloc, topology, (call, 0));
    let (said, appended) = before(call);
    let status: u8 = if call < 24 { 3 } else { 0 };
    leaves(rt, alloc, call as usize, &mut desk, status, said, appended);
}

// The run makes 23 calls.
#[test]
fn each_call_that_fails_leaves_fronts(rt: HostRuntime) {
    let topology = graph(&rt, rt.alloc(), VOLUME);
    for call in 1..25u32 {
        leaves_fronts(&rt, rt.alloc(), &topology, call);
    }
}
