// Records to a far side, and what comes back.
ghost use Rattle.std.specs.Prelude.{◌≡◌, ◌≤◌, ◌<◌, [], take, length, IfOk, OnOk};
ghost use Rattle.std.specs.Io.KnownBytes.{Appends, IsAtEnd};
ghost use Rattle.ipc3_trace.specs.Records.{spelled, record_bytes};
ghost use Rattle.ipc3_far.specs.declared.answer.FarAnswer.TheVariants as answers;
ghost use Rattle.ipc3_far.specs.FarEnds.{new_ends, Sends, SendsWhere, Asks, LetsOut, ReadsOn, IsAtMostRecord, ReadsRecord, IsAnswer, WasReadAs};

use crate::answer::FarAnswer;
use ipc3_trace::{Entry, Next, RecordKind, put_record, record_at, size_after};
use sof_base::Bounded;
use std::io;
use std::io::{ErrorKind, Read, Write};
use std::marker::Model;

/// What a far side writes, and what it reads.
#[derive(Drop)]
pub struct Talk<R: Read + Drop, W: Write + Drop> {
    replies: R,
    requests: W,
    // Why the last record did not go out, if it didn't.
    unsent: Option<io::Error>,
}

impl<R: Read + Drop, W: Write + Drop> Model for Talk<R, W> {
    ghost use Rattle.std.specs.Prelude.{is_some};
    ghost use Rattle.ipc3_far.specs.FarEnds.{FarEnds};

    ghost Value = { FarEnds };

    ghost view = { λ t. record { sent = W.contents t.requests; unread = R.remaining t.replies; stuck = is_some t.unsent } };
}

impl<R: Read + Drop, W: Write + Drop> Talk<R, W> {
    pub fn new(replies: R, requests: W) -> Talk<R, W>
        ensures { result ≡ new_ends (W.contents requests) (R.remaining replies) }
    {
        Talk {
            replies,
            requests,
            unsent: None,
        }
    }

    /// Sends a record of which nothing comes back. Where that fails, nothing more goes out before the next message, which fails too.
    pub fn send(&mut self, kind: RecordKind, body: &[u8])
        ensures { Sends (spelled kind body.now) self.old self.new }
    {
        if self.unsent.is_none() {
            self.unsent = write_record(&mut self.requests, kind, body).err();
        }
    }

    /// Sends a record without bytes, where one is due.
    pub fn tell(&mut self, due: bool, kind: RecordKind)
        ensures { SendsWhere due (spelled kind []) self.old self.new }
    {
        if due {
            self.send(kind, &[]);
        }
    }

    /// Lets all go out that was sent.
    pub fn let_out(&mut self) -> io::Result<()>
        ensures { LetsOut self.old self.new }
    {
        self.requests.flush()
    }

    /// Sends a message, and waits for what comes back.
    pub fn ask(&mut self, message: &[u8]) -> FarAnswer
        ensures { Asks message.now result self.old self.new }
    {
        self.send(RecordKind::Request, message);
        match self.unsent.take() {
            Some(reason) => FarAnswer::Unsent(reason),
            None => read_answer(&mut self.replies),
        }
    }
}

// Writes a record whole, and nothing of it stays in a buffer. None has more than 384 bytes after its kind and size.
fn write_record<W: Write>(to: &mut W, kind: RecordKind, body: &[u8]) -> io::Result<()>
    ensures { OnOk result (Appends (W.contents to.old) (W.contents to.new) (spelled kind body.now)) }
{
    if body.len() > 384 {
        return Err(io::Error::from(ErrorKind::InvalidInput));
    }
    let mut bytes = [0; 392];
    let long = put_record(kind, body, &mut bytes);
    to.write_all(&bytes[..long])?;
    to.flush()
}

// Reads from one place of `bytes` up to another, or to the end; tells the place after the last byte that was read.
fn fill<R: Read>(from: &mut R, bytes: &mut [u8; 392], start: usize, to: usize) -> io::Result<usize>
    requires within { (start ≤ to) × (to ≤ 392) }
    ensures within { IfOk result (λ there. there ≤ to) }
    ensures read { IfOk result (λ there. ReadsOn start there bytes.old bytes.new (R.remaining from.old) (R.remaining from.new)) }
    ensures end { IfOk result (λ there. there < to → IsAtEnd (R.remaining from.new)) }
{
    let mut there = start;
    while there < to {
        let count = from.read(&mut bytes[there..to])?;
        if count == 0 {
            return Ok(there);
        }
        there += count;
    }
    Ok(there)
}

// Reads the next record into the front of `bytes`, and no byte after it; tells how many bytes of it there are.
fn read_record<R: Read>(from: &mut R, bytes: &mut [u8; 392]) -> io::Result<usize>
    ensures within { IfOk result (λ there. there ≤ 392) }
    ensures read { IfOk result (λ there. ReadsRecord (take there bytes.new) (R.remaining from.old) (R.remaining from.new)) }
    ensures end { IfOk result (λ there. there ≡ 0 → IsAtEnd (R.remaining from.new)) }
{
    let there = fill(from, bytes, 0, 8)?;
    if there < 8 {
        return Ok(there);
    }
    let size = size_after(bytes);
    fill(from, bytes, 8, 8 + size)
}

// Bytes that are no reply.
fn no_reply(bytes: &[u8]) -> FarAnswer
    requires { length bytes.now ≤ 392 }
    ensures { result ≡ answers.Other bytes.now }
{
    FarAnswer::Other(Bounded::new(bytes).unwrap_or(Bounded::empty()))
}

// What a record is that has these bytes.
fn answer_in(entry: Entry, bytes: &[u8]) -> FarAnswer
    requires few { length bytes.now ≤ 392 }
    requires whole { bytes.now ≡ record_bytes entry }
    ensures { IsAnswer bytes.now result }
{
    match entry {
        Entry::Reply(reply) => FarAnswer::Reply(reply),
        Entry::Boot(_) | Entry::Cut | Entry::Request(_) | Entry::Tick | Entry::Lost => {
            no_reply(bytes)
        }
    }
}

// What these bytes are.
fn answer_of(bytes: &[u8]) -> FarAnswer
    requires few { length bytes.now ≤ 392 }
    requires whole { IsAtMostRecord bytes.now }
    ensures { IsAnswer bytes.now result }
{
    match record_at(bytes, 0) {
        Ok(Next::One { entry, next: _next }) => answer_in(entry, bytes),
        Ok(Next::End) => FarAnswer::End,
        Err(_fault) => no_reply(bytes),
    }
}

// Reads what comes back of a message.
fn read_answer<R: Read>(from: &mut R) -> FarAnswer
    ensures { WasReadAs result (R.remaining from.old) (R.remaining from.new) }
{
    let mut bytes = [0; 392];
    match read_record(from, &mut bytes) {
        Ok(there) => answer_of(&bytes[..there]),
        Err(reason) => FarAnswer::Unread(reason),
    }
}
