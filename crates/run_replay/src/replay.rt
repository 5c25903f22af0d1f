// All of `replay`.
ghost use Rattle.std.specs.Prelude.{◌≡◌, ◌≤◌, ◌-◌, ◌^◌, [], ◌∷◌, take, List, ℕ, Option, None, true, is_ok, is_some, IfOk};
ghost use Rattle.mbox_link.specs.Calls.{Exchanged, world};
ghost use Rattle.ipc3_trace.specs.Reading.{trace_in};
ghost use Rattle.sof_session.specs.Lives.{Bare, Turned};
ghost use Rattle.run_desk.specs.Todo.{DeskPhase, Played, RanOn};
ghost use Rattle.run_desk.specs.LinesTodo.{lines_todo};
ghost use Rattle.run_replay.specs.Replaying as law;
ghost use Rattle.run_replay.specs.Replaying.{record_fault, tallied, replay_lines, on_words};
ghost use Rattle.run_replay.specs.ReplayTodo.{replay, replayed_todo, stopped_todo};
ghost use Rattle.run_replay.specs.GivenRecords.{GaveRecord, WentOn, IsBelow, WentThrough, FoundFault};

use crate::replay_fault::{Stopped, Tally};
use ipc3_trace::{Entry, Next, ReplayFault, record_at, write_replay_fault};
use mbox_link::{Dsp, LinkFault};
use run_desk::{Ended, TRACE_LIMIT, fail_no_memory, fetch, say_count, status_of, stop};
use sof_base::{Bounded, NoMemory};
use sof_desk::{Desk, DeskFailed};
use sof_io::{Inputs, Outputs};
use sof_script::Line;
use std::alloc::Global;

// A record out of order, where it is.
fn order_where(wrong: bool, at: usize) -> Option<ReplayFault>
    ensures { result ≡ law.order_where wrong at }
{
    if wrong {
        Some(ReplayFault::Order(at))
    } else {
        None
    }
}

// What is at fault with a record where a reply is awaited.
fn back_fault(entry: &Entry, at: usize, reply: &Bounded<u8, 384>) -> Option<ReplayFault>
    ensures { result ≡ law.back_fault reply.now at entry.now }
{
    match entry {
        Entry::Reply(other) => {
            if other.items() == reply.items() {
                None
            } else {
                Some(ReplayFault::Replied(at))
            }
        }
        Entry::Lost => Some(ReplayFault::Lost(at)),
        _ => Some(ReplayFault::Order(at)),
    }
}

// What is at fault with a record where no reply is awaited.
fn call_fault(entry: &Entry, at: usize, on: bool, room: u32) -> Option<ReplayFault>
    ensures { result ≡ law.call_fault room at on entry.now }
{
    match entry {
        Entry::Boot(heap) => order_where(on || *heap > room, at),
        Entry::Cut | Entry::Request(_) | Entry::Tick => order_where(!on, at),
        Entry::Reply(_) | Entry::Lost => Some(ReplayFault::Order(at)),
    }
}

// What is at fault with a record.
fn fault_of(
    entry: &Entry,
    at: usize,
    on: bool,
    room: u32,
    awaited: &Option<Bounded<u8, 384>>,
) -> Option<ReplayFault>
    ensures { result ≡ record_fault room on awaited.now at entry.now }
{
    match awaited {
        Some(reply) => back_fault(entry, at, reply),
        None => call_fault(entry, at, on, room),
    }
}

// So many bytes at the front of a reply.
fn front(reply: &[u8; 384], long: usize) -> Bounded<u8, 384>
    requires { long ≤ 384 }
    ensures { result ≡ take long reply.now }
{
    Bounded::new(&reply[..long]).unwrap_or(Bounded::empty())
}

// Delivers a message and takes the reply, none where the device failed.
fn send<P: Dsp>(
    dsp: &mut P,
    message: &[u8],
    inputs: &mut Inputs,
    outputs: &mut Outputs,
) -> Option<Bounded<u8, 384>>
    requires on { is_some (P.means.on dsp.old) ≡ true }
    requires inputs { inputs.old ≡ [] }
    requires outputs { outputs.old ≡ [] }
    ensures did { Exchanged P.means message.now result (world dsp.old [] []) (world dsp.new [] []) }
    ensures inputs { inputs.new ≡ [] }
    ensures outputs { outputs.new ≡ [] }
{
    let mut reply = [0; 384];
    match dsp.exchange(message, &mut reply, inputs, outputs) {
        Ok(long) => Some(front(&reply, long)),
        Err(LinkFault) => None,
    }
}

// Gives a record that is not at fault to the device, and answers the reply that is awaited then, if any.
fn give<P: Dsp>(
    entry: &Entry,
    tally: &mut Tally,
    dsp: &mut P,
    inputs: &mut Inputs,
    outputs: &mut Outputs,
) -> Result<Option<Bounded<u8, 384>>, Stopped>
    requires right { (awaited : Option (List ℕ)) × (at : ℕ) × (record_fault (P.means.most dsp.old) (is_some (P.means.on dsp.old)) awaited at entry.now ≡ None) }
    requires few { IsBelow (2 ^ 64 - 1) tally.old }
    requires inputs { inputs.old ≡ [] }
    requires outputs { outputs.old ≡ [] }
    ensures gave { GaveRecord P.means entry.now dsp.old result dsp.new }
    ensures tally { tally.new ≡ tallied entry.now tally.old }
    ensures inputs { inputs.new ≡ [] }
    ensures outputs { outputs.new ≡ [] }
{
    match entry {
        Entry::Boot(heap) => {
            dsp.boot(*heap);
            tally.boots += 1;
        }
        Entry::Cut => dsp.cut(),
        Entry::Request(message) => {
            tally.messages += 1;
            return match send(dsp, message.items(), inputs, outputs) {
                Some(reply) => Ok(Some(reply)),
                None => Err(Stopped::Device),
            };
        }
        Entry::Tick => {
            dsp.tick(inputs, outputs);
            tally.ticks += 1;
        }
        Entry::Reply(_) => {}
        Entry::Lost => {}
    }
    Ok(None)
}

// Gives a record to the device, unless it is at fault, and answers the reply that is awaited then, if any.
fn give_record<P: Dsp>(
    entry: &Entry,
    at: usize,
    awaited: &Option<Bounded<u8, 384>>,
    tally: &mut Tally,
    dsp: &mut P,
    inputs: &mut Inputs,
    outputs: &mut Outputs,
) -> Result<Option<Bounded<u8, 384>>, Stopped>
    requires few { IsBelow (2 ^ 64 - 1) tally.old }
    requires inputs { inputs.old ≡ [] }
    requires outputs { outputs.old ≡ [] }
    ensures went { WentOn P.means entry.now at awaited.now dsp.old result dsp.new }
    ensures tally { is_ok result ≡ true → tally.new ≡ tallied entry.now tally.old }
    ensures inputs { inputs.new ≡ [] }
    ensures outputs { outputs.new ≡ [] }
{
    if let Some(fault) = fault_of(entry, at, dsp.on(), dsp.room(), awaited) {
        return Err(Stopped::At(fault));
    }
    give(entry, tally, dsp, inputs, outputs)
}

// Gives each record to the device, up to the end, the first at fault or a failure of the device.
fn give_records<P: Dsp>(
    bytes: &[u8],
    dsp: &mut P,
    inputs: &mut Inputs,
    outputs: &mut Outputs,
) -> Result<Tally, Stopped>
    requires off { P.means.on dsp.old ≡ None }
    requires inputs { inputs.old ≡ [] }
    requires outputs { outputs.old ≡ [] }
    ensures { WentThrough P.means (trace_in bytes.now).0 (trace_in bytes.now).1 dsp.old result dsp.new }
{
    let mut tally = Tally {
        boots: 0,
        messages: 0,
        ticks: 0,
    };
    let mut awaited = None;
    let mut at = 0;
    'records: loop {
        match record_at(bytes, at) {
            Ok(Next::One { entry, next }) => {
                awaited = give_record(&entry, at, &awaited, &mut tally, dsp, inputs, outputs)?;
                at = next;
            }
            Ok(Next::End) => {
                if awaited.is_some() {
                    return Err(Stopped::At(ReplayFault::Order(at)));
                }
                return Ok(tally);
            }
            Err(fault) => return Err(Stopped::At(ReplayFault::Broken(fault))),
        }
    }
}

// Says whether the device is on.
fn say_power<D: Desk>(desk: &mut D, on: bool) -> Result<(), DeskFailed>
    ensures { DeskPhase D.means (lines_todo (on_words on ∷ [])) (is_ok result) desk.old desk.new }
{
    if on {
        desk.say(b"power on\n")
    } else {
        desk.say(b"power off\n")
    }
}

// Says how many records were given, and whether the device is on.
fn say_tally<D: Desk>(desk: &mut D, tally: &Tally, on: bool) -> Result<(), DeskFailed>
    ensures { DeskPhase D.means (lines_todo (replay_lines tally.now on)) (is_ok result) desk.old desk.new }
{
    say_count(desk, b"boots ", tally.boots)?;
    say_count(desk, b"messages ", tally.messages)?;
    say_count(desk, b"ticks ", tally.ticks)?;
    say_power(desk, on)
}

// Says why no more records were given, and gives the status.
fn stop_given<D: Desk>(desk: &mut D, why: Stopped) -> u8
    ensures { Played D.means (stopped_todo why) desk.old [] result desk.new }
{
    match why {
        Stopped::At(fault) => {
            let mut line = Line::new();
            write_replay_fault(fault, &mut line);
            stop(desk, line.bytes(), 2)
        }
        Stopped::Device => stop(desk, b"device\n", 10),
    }
}

// Gives each record to the device, and says how many there were; or says which is the first at fault. Gives the status.
fn replay_records<D: Desk, P: Dsp>(
    bytes: &[u8],
    desk: &mut D,
    dsp: &mut P,
    inputs: &mut Inputs,
    outputs: &mut Outputs,
) -> u8
    requires off { P.means.on dsp.old ≡ None }
    requires inputs { inputs.old ≡ [] }
    requires outputs { outputs.old ≡ [] }
    ensures { RanOn D.means (Turned P.means) (replayed_todo (P.means.most dsp.old) (trace_in bytes.now).0 (trace_in bytes.now).1) desk.old (Bare dsp.old) result desk.new (Bare dsp.new) }
{
    match give_records(bytes, dsp, inputs, outputs) {
        Ok(tally) => status_of(say_tally(desk, &tally, dsp.on()).is_ok()),
        Err(why) => stop_given(desk, why),
    }
}

/// Loads the trace of this name, gives each record to the device, and says how many there were; or says which is the first at fault.
pub fn do_replay<D: Desk, P: Dsp>(alloc: Global, name: &str, desk: &mut D, dsp: P) -> Ended<P>
    requires off { P.means.on dsp ≡ None }
    ensures { RanOn D.means (Turned P.means) (replay (P.means.most dsp) name.now) desk.old (Bare dsp) result.status desk.new (Bare result.dsp) }
{
    let bytes = match fetch(alloc, desk, name, TRACE_LIMIT, b"too long trace\n") {
        Ok(bytes) => bytes,
        Err(status) => return Ended { status, dsp },
    };
    let Ok(mut inputs) = Inputs::new(alloc) else {
        return fail_no_memory(desk, dsp);
    };
    let Ok(mut outputs) = Outputs::new(alloc) else {
        return fail_no_memory(desk, dsp);
    };
    let mut dsp = dsp;
    let status = replay_records(&bytes, desk, &mut dsp, &mut inputs, &mut outputs);
    Ended { status, dsp }
}

/// The first record at fault of a trace whose records are given to a device that is off, in order, if one is before the device fails.
///
/// Endpoints without slots take no memory: `NoMemory` does not come.
pub fn record_at_fault<P: Dsp>(
    alloc: Global,
    bytes: &[u8],
    dsp: P,
) -> Result<Option<ReplayFault>, NoMemory>
    requires off { P.means.on dsp ≡ None }
    ensures { IfOk result (λ found. FoundFault P.means (trace_in bytes.now).0 (trace_in bytes.now).1 dsp found) }
{
    let mut inputs = Inputs::new(alloc)?;
    let mut outputs = Outputs::new(alloc)?;
    let mut dsp = dsp;
    match give_records(bytes, &mut dsp, &mut inputs, &mut outputs) {
        Err(Stopped::At(fault)) => Ok(Some(fault)),
        Err(Stopped::Device) => Ok(None),
        Ok(_) => Ok(None),
    }
}
