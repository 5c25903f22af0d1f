// Pipelines that are made on use: the records that a run leaves, by their number of bytes and a sum over them, which stand as they were
// before the host made its pipelines in both modes by one code. What is said is summed too.
use crate::device::{Failing, run_over};
use crate::graphs::{ECHO_PIPES, EQUALISER, MIX};
use crate::same::same;
use sof_desk::MemDesk;
use std::alloc::Global;
use std::process::Abort;
use test_graphs::{VOLUME, graph};

/// The sum of no bytes: FNV-1a of 64 bits.
const BEGIN: u64 = 0xcbf29ce484222325;

// The sum goes on over these bytes.
fn summed(from: u64, bytes: &[u8]) -> u64 {
    let mut sum = from;
    for byte in bytes {
        sum = (sum ^ u64::from(*byte)).wrapping_mul(0x100000001b3);
    }
    sum
}

/// What a run left: its status, how many messages came to the device's link, how many bytes of records there are, the sum over them,
/// and the sum over what was said.
#[derive(Clone, Copy, PartialEq, Debug)]
struct Left {
    status: u8,
    sent: u64,
    length: usize,
    records: u64,
    said: u64,
}

// What a script leaves that is played over a topology's file with a heap of so many bytes, where pipelines are made on use.
fn left_by(
    rt: &impl Abort,
    alloc: Global,
    heap: &str,
    topology: &[u8],
    script: &[u8],
    failing: Failing,
) -> Left {
    let mut desk = MemDesk::new(alloc, 65536).expect(rt, "there is memory");
    desk.put_file("a.tplg", topology)
        .expect(rt, "there is memory");
    desk.put_file("s.txt", script).expect(rt, "there is memory");
    let words = ["dynamic", heap, "a.tplg", "s.txt"];
    let (status, dsp) = run_over(rt, alloc, &words, failing, &mut desk);
    same(rt, &"all records are held", &dsp.cut_short(), &false);
    let bytes = dsp.bytes();
    let (length, records) = (bytes.len(), summed(BEGIN, bytes));
    let said = summed(BEGIN, desk.said());
    let sent = dsp.into_dsp().sent();
    Left {
        status,
        sent,
        length,
        records,
        said,
    }
}

// The file of a source.
fn file(rt: &impl Abort, alloc: Global, source: &[u8]) -> Vec<u8> {
    graph(alloc, source).expect(rt, "a source of a graph")
}

// A script leaves this with no message that fails of its own accord.
fn expect(rt: &impl Abort, alloc: Global, heap: &str, source: &[u8], script: &[u8], want: Left) {
    let topology = file(rt, alloc, source);
    let left = left_by(rt, alloc, heap, &topology, script, Failing::Nothing);
    same(rt, &heap, &left, &want);
}

// Two streams share the pipeline of a mixer: each opens first, is opened beside the other and again, and closes while the other is there
// and last. They play, pause, and are suspended; messages of opens, closes and resumes are refused, dropped, lost and late.
const SHARED: &[u8] = b"load
refuse 14 -9
open PCM0P
open PCM1P
refuse 7 -9
open PCM1P
params PCM0P 48000 2 s16
params PCM1P 48000 2 s32
start PCM0P
start PCM1P
tick 5
stop PCM1P
start PCM1P
pause PCM0P
tick 1
release PCM0P
lag 2 3
close PCM1P
open PCM1P
suspend
resume
params PCM1P 44100 1 s16
start PCM0P
start PCM1P
tick 4
close PCM0P
drop 4
open PCM0P
resume
lose 6
open PCM0P
resume
open PCM0P
show
suspend
lose 9
resume
refuse 12 -7
resume
lag 5 2
resume
refuse 2 -5
close PCM1P
resume
open PCM1P
refuse 9 -5
lose 11
close PCM1P
resume
close PCM0P
unload
load
open PCM1P
close PCM1P
suspend
open PCM0P
open PCM1P
close PCM0P
resume
show
unload
";

// A capture needs all that its demux reaches, and so does a playback.
const ECHOED: &[u8] = b"load
refuse 20 -9
open PCM0C
params PCM0C 48000 2 s16
start PCM0C
tick 1
refuse 1 -9
open PCM0P
params PCM0P 48000 2 s16
params PCM0P 48000 2 s16
start PCM0P
tick 2
close PCM0P
tick 1
open PCM0P
params PCM0P 48000 2 s16
start PCM0P
suspend
resume
start PCM0P
tick 1
close PCM0C
drop 1
close PCM0P
resume
close PCM0P
show
lose 18
open PCM0C
resume
open PCM0C
refuse 5 -3
close PCM0C
resume
show
";

// Gains before an open, among its messages, and after its close.
const VALUED: &[u8] = b"load
set VOL0 0
get VOL0
read VOL0
refuse 11 -5
open PCM0P
open PCM0P
set VOL0 20
read VOL0
refuse 1 -5
set VOL0 8
lose 1
set VOL0 9
resume
params PCM0P 48000 2 s16
start PCM0P
tick 2
suspend
set VOL0 12 14
resume
read VOL0
close PCM0P
set VOL0 3
drop 11
open PCM0P
resume
open PCM0P
read VOL0
show
";

// A blob before an open, among its messages, and with the power off.
const SHAPED: &[u8] = b"load
bytes EQ0 534f460000000000540000000000000000000000000000000000000000000000540000000100000001000000000000000000000000000000000000000000000001000000010000000000000000000000000000000000000000000000000000200000000000000000000000200000000000400000
read EQ0
refuse 11 -11
open PCM0P
open PCM0P
read EQ0
bytes EQ0 -
refuse 1 -5
bytes EQ0 534f460000000000540000000000000000000000000000000000000000000000540000000100000001000000000000000000000000000000000000000000000001000000010000000000000000000000000000000000000000000000000000200000000000000000000000200000000000400000
bytes EQ0 534f460000000000540000000000000000000000000000000000000000000000540000000100000001000000000000000000000000000000000000000000000001000000010000000000000000000000000000000000000000000000000000200000000000000000000000200000000000400000
params PCM0P 48000 2 s16
start PCM0P
tick 2
suspend
resume
read EQ0
close PCM0P
lose 11
open PCM0P
resume
open PCM0P
show
";

#[test]
fn the_records_of_shared_pipelines(rt: HostRuntime) {
    let want = Left {
        status: 0,
        sent: 186,
        length: 12664,
        records: 12673716010430077712,
        said: 2688435263427123367,
    };
    expect(&rt, rt.alloc(), "4352", MIX, SHARED, want);
}

#[test]
fn the_records_of_a_demux(rt: HostRuntime) {
    let want = Left {
        status: 0,
        sent: 120,
        length: 7872,
        records: 14657473497717901165,
        said: 10060019703429635192,
    };
    expect(&rt, rt.alloc(), "2816", ECHO_PIPES, ECHOED, want);
}

#[test]
fn the_records_of_values(rt: HostRuntime) {
    let want = Left {
        status: 0,
        sent: 91,
        length: 6940,
        records: 950082347305852153,
        said: 17905360991853168788,
    };
    expect(&rt, rt.alloc(), "1856", VOLUME, VALUED, want);
}

#[test]
fn the_records_of_a_blob(rt: HostRuntime) {
    let want = Left {
        status: 0,
        sent: 78,
        length: 6588,
        records: 12585549904716184282,
        said: 5638001683193212954,
    };
    expect(&rt, rt.alloc(), "5952", EQUALISER, SHAPED, want);
}

// The number of messages before and after each command: a first open makes two pipelines by 13 messages, a second one by 6, a close
// takes 3 and another open 6.
#[test]
fn the_messages_of_each_command(rt: HostRuntime) {
    let alloc = rt.alloc();
    let topology = file(&rt, alloc, MIX);
    let script = b"load\nopen PCM0P\nopen PCM1P\nclose PCM0P\nopen PCM0P\n";
    for (end, sent) in [(5usize, 0u64), (16, 13), (27, 19), (39, 22), (50, 28)] {
        let front = script.get(..end).unwrap_or(&[]);
        let left = left_by(&rt, alloc, "4352", &topology, front, Failing::Nothing);
        same(&rt, &end, &left.sent, &sent);
        same(&rt, &end, &left.status, &0);
    }
}

// Opens, closes, a suspend and resumes, of which a message fails.
const MADE: &[u8] = b"load
open PCM0P
open PCM1P
params PCM0P 48000 2 s16
close PCM1P
open PCM1P
suspend
resume
close PCM0P
resume
open PCM0P
close PCM1P
close PCM0P
resume
open PCM1P
show
";

// The sum over what all runs leave of which the message of a number from 1 fails.
fn all_left(rt: &impl Abort, alloc: Global, topology: &[u8], kind: Failing) -> (usize, u64) {
    let mut length = 0usize;
    let mut sum = BEGIN;
    for number in 1..81u32 {
        let left = left_by(rt, alloc, "4352", topology, MADE, kind.at(number));
        length = length.wrapping_add(left.length);
        sum = summed(sum, &left.records.to_le_bytes());
        sum = summed(sum, &left.said.to_le_bytes());
    }
    (length, sum)
}

// Each message of a script is refused by the device, and dropped on the way to it. A reply that is lost leaves the same records.
#[test]
fn the_records_where_each_message_fails(rt: HostRuntime) {
    let alloc = rt.alloc();
    let topology = file(&rt, alloc, MIX);
    let refused = all_left(&rt, alloc, &topology, Failing::Refuses(0));
    let dropped = all_left(&rt, alloc, &topology, Failing::Drops(0));
    let want = [
        (408608, 3889305462597222463),
        (370436, 13283690633271349294),
    ];
    same(&rt, &"each kind", &[refused, dropped], &want);
}
