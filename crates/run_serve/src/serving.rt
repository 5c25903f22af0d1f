// All of `serve`.
ghost use Rattle.std.specs.Prelude.{◌≡◌, ◌≤◌, List, [], None, true, is_some, IfOk, MatchResult};
ghost use Rattle.run_desk.specs.Todo.{Played, Stop};
ghost use Rattle.run_serve.specs.ServeWords.{serve_names, wrong_line};
ghost use Rattle.run_serve.specs.AnyCalls.{AnyCall, LedByCalls};
ghost use Rattle.run_serve.specs.Reads.{requests_slot, SameSlots};
ghost use Rattle.run_serve.specs.Serving.{replies_slot, ServedFrom};
ghost use Rattle.run_serve.specs.Opened.{OpenedBoth, NotOpened};
ghost use Rattle.run_serve.specs.Sent.{LetOut};
ghost use Rattle.run_serve.specs.Served.{Serves};
ghost use Rattle.run_serve.specs.Halted.{ServedOne, HaltedAt};

use crate::answering::{REPLIES, answer, let_out};
use crate::giving::{Given, give};
use crate::lines::{Wrong, write_wrong};
use crate::reading::{REQUESTS, read_record};
use crate::words::ServeFiles;
use ipc3_trace::{Next, record_at};
use mbox_link::Dsp;
use run_desk::stop;
use sof_base::{Bounded, Line};
use sof_desk::{Desk, DeskFailed};
use sof_io::{Inputs, Outputs};
use std::alloc::Global;

/// So many bytes of records are too many.
const LIMIT: usize = 1152921504606846976;

/// The record at which serving stopped: how many stand before it, its place in bytes, and what there is of its bytes.
#[derive(Debug, Drop)]
pub struct Stopped {
    pub before: usize,
    pub at: usize,
    pub record: Bounded<u8, 392>,
}

/// How serving ended: its status, the record at fault where one is (status 2, or 3 where its line was not said), and the device as it
/// stands.
#[derive(Drop)]
pub struct Served<P: Dsp> {
    pub status: u8,
    pub stopped: Option<Stopped>,
    pub dsp: P,
}

// Why no more records are served.
#[derive(Clone, Copy, Debug)]
enum Halt {
    // So many bytes of the next record are there, and it is at fault.
    Wrong(usize, Wrong),
    Desk,
}

// Reads the next record into the front of `bytes`, gives it to the device, and writes what came back. Tells how many bytes it has, and
// 0 at the end.
fn serve_record<D: Desk, P: Dsp>(
    desk: &mut D,
    dsp: &mut P,
    bytes: &mut [u8; 392],
    inputs: &mut Inputs,
    outputs: &mut Outputs,
) -> Result<usize, Halt>
    requires opened { D.means.opened desk.old requests_slot ≡ true }
    requires created { D.means.created desk.old replies_slot ≡ true }
    requires inputs { inputs.old ≡ [] }
    requires outputs { outputs.old ≡ [] }
    ensures did { MatchResult result
        (λ size. ServedOne D.means P.means size desk.old dsp.old desk.new dsp.new)
        (λ halt. HaltedAt D.means P.means bytes.new halt desk.old dsp.old desk.new dsp.new) }
    ensures within { IfOk result (λ size. size ≤ 392) }
    ensures inputs { inputs.new ≡ [] }
    ensures outputs { outputs.new ≡ [] }
    ensures same { SameSlots D.means desk.old desk.new }
{
    let Ok(there) = read_record(desk, bytes) else {
        return Err(Halt::Desk);
    };
    let entry = match record_at(&bytes[..there], 0) {
        Ok(Next::One { entry, next: _next }) => entry,
        Ok(Next::End) => return Ok(0),
        Err(fault) => return Err(Halt::Wrong(there, Wrong::Broken(fault))),
    };
    let given = give(&entry, dsp, inputs, outputs);
    if let Given::Misplaced = &given {
        return Err(Halt::Wrong(there, Wrong::Order));
    }
    match answer(desk, &given) {
        Ok(()) => Ok(there),
        Err(DeskFailed) => Err(Halt::Desk),
    }
}

// Says which record is at fault, and gives the status.
fn stop_at<D: Desk>(desk: &mut D, wrong: Wrong, at: usize) -> u8
    ensures { Played D.means (Stop (wrong_line wrong at) 2) desk.old [] result desk.new }
{
    let mut line = Line::new();
    write_wrong(wrong, at, &mut line);
    stop(desk, line.bytes(), 2)
}

// The status, and the record at fault, where that is why no more are served.
#[derive(Drop)]
struct Ending {
    status: u8,
    stopped: Option<Stopped>,
}

fn end_with(status: u8) -> Ending
    ensures { result.status ≡ status }
{
    Ending {
        status,
        stopped: None,
    }
}

// Lets REPLIES out once more, which is emptied where nothing came back, and gives the status.
fn end_all<D: Desk>(desk: &mut D) -> u8
    ensures { LetOut D.means result desk.old desk.new }
{
    match let_out(desk) {
        Ok(()) => 0,
        Err(DeskFailed) => 3,
    }
}

// Serves records up to the end of their file, the first at fault or a failure.
fn serve_records<D: Desk, P: Dsp>(
    desk: &mut D,
    dsp: &mut P,
    inputs: &mut Inputs,
    outputs: &mut Outputs,
) -> Ending
    requires opened { D.means.opened desk.old requests_slot ≡ true }
    requires created { D.means.created desk.old replies_slot ≡ true }
    requires inputs { inputs.old ≡ [] }
    requires outputs { outputs.old ≡ [] }
    ensures { (calls : List AnyCall) × LedByCalls D.means P.means desk.old dsp.old calls desk.new dsp.new
        × ServedFrom (P.means.most dsp.old) 0 (is_some (P.means.on dsp.old)) calls result.status }
{
    let mut bytes = [0; 392];
    let mut before = 0;
    let mut at = 0;
    'records: while at < LIMIT {
        match serve_record(desk, dsp, &mut bytes, inputs, outputs) {
            Ok(0) => return end_with(end_all(desk)),
            Ok(size) => {
                before += 1;
                at += size;
            }
            Err(Halt::Wrong(there, wrong)) => {
                return Ending {
                    status: stop_at(desk, wrong, at),
                    stopped: Some(Stopped {
                        before,
                        at,
                        record: Bounded::new(&bytes[..there]).unwrap_or(Bounded::empty()),
                    }),
                };
            }
            Err(Halt::Desk) => return end_with(3),
        }
    }
    end_with(stop(desk, b"too long trace\n", 5))
}

// Opens the file of the driver's records and creates that of what comes back, which stands as it was until something does.
fn open_both<D: Desk>(files: ServeFiles<'_>, desk: &mut D) -> Result<(), DeskFailed>
    ensures { MatchResult result
        (λ done. OpenedBoth D.means (serve_names files.entry.requests.now files.entry.replies.now) desk.old desk.new)
        (λ fault. NotOpened D.means (serve_names files.entry.requests.now files.entry.replies.now) desk.old desk.new) }
{
    desk.open(REQUESTS, files.requests)?;
    desk.create(REPLIES, files.replies)
}

/// Serves a driver: reads its records one by one, gives each to the device, and writes what comes back of a message, before it reads
/// the next. Nothing is let out before that, but at the end of the records. The statuses: 0 all records were given; 2 a record is at
/// fault; 3 the desk failed; 5 the file is too long.
pub fn serve<D: Desk, P: Dsp>(
    alloc: Global,
    files: ServeFiles<'_>,
    desk: &mut D,
    dsp: P,
) -> Served<P>
    requires off { P.means.on dsp ≡ None }
    requires pending { P.means.pending dsp ≡ 0 }
    ensures { Serves D.means P.means (serve_names files.entry.requests.now files.entry.replies.now) desk.old dsp result.status desk.new result.dsp }
{
    let mut inputs = Inputs::new(alloc).unwrap();
    let mut outputs = Outputs::new(alloc).unwrap();
    let mut dsp = dsp;
    let Ok(()) = open_both(files, desk) else {
        return Served {
            status: 3,
            stopped: None,
            dsp,
        };
    };
    let ended = serve_records(desk, &mut dsp, &mut inputs, &mut outputs);
    Served {
        status: ended.status,
        stopped: ended.stopped,
        dsp,
    }
}
