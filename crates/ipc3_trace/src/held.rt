// The records that a tracer holds.
ghost use Rattle.std.specs.Prelude.{◌≡◌, ◌≤◌, ◌+◌, ◌^◌, ◌++◌, ◌&&◌, [], true, false, length, nat_le, vec_len, vec_capacity, IfOk};
ghost use Rattle.std.specs.Int.{w32, to_le_bytes};
ghost use Rattle.ipc3_trace.specs.Records.{spelled};
ghost use Rattle.ipc3_trace.specs.HeldRecords.{kept, kept_exchange};

use crate::kind::RecordKind;
use sof_base::NoMemory;
use std::alloc::Global;
use std::marker::Model;

/// The most bytes of records that are held.
pub const HELD_BYTES: usize = 1048576;

/// Records in memory that was reserved for them, and whether one did not fit. Contracts see their bytes and that.
#[derive(Debug, Drop)]
pub struct Held {
    bytes: Vec<u8>,
    cut_short: bool,
}

impl Model for Held {
    ghost use Rattle.std.specs.Prelude.{◌≤◌, vec_len, vec_capacity};
    ghost use Rattle.ipc3_trace.specs.HeldRecords.{HeldRecords};

    ghost Value = { HeldRecords };

    ghost view = { λ h. record { bytes = h.bytes.items; cut_short = h.cut_short } };

    ghost invariant = { λ h. record {
      bound : vec_len h.bytes ≤ 1048576;
      room : 1048576 ≤ vec_capacity h.bytes;
    } };
}

impl Held {
    /// No records, and memory for [`HELD_BYTES`].
    pub fn new(alloc: Global) -> Result<Held, NoMemory>
        ensures { IfOk result (λ held. held ≡ record { bytes = []; cut_short = false }) }
    {
        Ok(Held {
            bytes: Vec::with_capacity(alloc, HELD_BYTES)?,
            cut_short: false,
        })
    }

    /// The bytes of the records that are held.
    pub fn bytes(&self) -> &[u8]
        ensures { result.now ≡ self.now.bytes }
    {
        self.bytes.as_slice()
    }

    /// Whether a record did not fit.
    pub fn cut_short(&self) -> bool
        ensures { result ≡ self.now.cut_short }
    {
        self.cut_short
    }

    /// Drops the records and keeps their memory.
    pub fn clear(&mut self)
        ensures { self.new ≡ record { bytes = []; cut_short = false } }
    {
        self.bytes.clear();
        self.cut_short = false;
    }

    /// Holds a record of this kind with these bytes, where there is room for it. This takes no memory.
    pub fn keep(&mut self, kind: RecordKind, body: &[u8])
        requires { length body.now ≤ 384 }
        ensures { self.new ≡ kept (spelled kind body.now) self.old }
    {
        if fits(&self.bytes, 8 + body.len()) {
            put_record(&mut self.bytes, kind, body);
        } else {
            self.cut_short = true;
        }
    }

    /// Holds a message's record and the record of what came back, where the message has at most 384 bytes and there is room for both.
    /// This takes no memory.
    pub fn keep_exchange(&mut self, request: &[u8], kind: RecordKind, back: &[u8])
        requires { length back.now ≤ 384 }
        ensures { self.new ≡ kept_exchange request.now (spelled kind back.now) self.old }
    {
        if exchange_fits(&self.bytes, request, back) {
            put_record(&mut self.bytes, RecordKind::Request, request);
            put_record(&mut self.bytes, kind, back);
        } else {
            self.cut_short = true;
        }
    }
}

// Whether there is room for so many bytes more.
fn fits(bytes: &Vec<u8>, more: usize) -> bool
    requires { more ≤ 2 ^ 20 }
    ensures fits { result ≡ nat_le (length bytes.now.items + more) 1048576 }
    ensures len { vec_len bytes.now ≡ length bytes.now.items }
{
    let held = bytes.as_slice().len();
    held <= HELD_BYTES && more <= HELD_BYTES - held
}

// Whether there is room for a message's record and the record of what came back; a longer message has no record.
fn exchange_fits(bytes: &Vec<u8>, request: &[u8], back: &[u8]) -> bool
    requires { length back.now ≤ 384 }
    ensures short { result ≡ true → length request.now ≤ 384 }
    ensures fits { result ≡ (nat_le (length request.now) 384 && nat_le (length bytes.now.items + (16 + length request.now + length back.now)) 1048576) }
    ensures len { vec_len bytes.now ≡ length bytes.now.items }
{
    if request.len() > 384 {
        let _held = bytes.as_slice();
        return false;
    }
    fits(bytes, 16 + request.len() + back.len())
}

// Bytes after those that are there; they fit in the memory that was reserved, so they are never refused.
fn put(bytes: &mut Vec<u8>, piece: &[u8])
    requires { vec_len bytes.old + length piece.now ≤ vec_capacity bytes.old }
    ensures bytes { bytes.new.items ≡ bytes.old.items ++ piece.now }
    ensures len { vec_len bytes.new ≡ vec_len bytes.old + length piece.now }
    ensures capacity { vec_capacity bytes.old ≤ vec_capacity bytes.new }
{
    let _fits = bytes.extend_from_slice(piece);
}

// A number in four bytes, the low one first.
fn put_word(bytes: &mut Vec<u8>, number: u32)
    requires { vec_len bytes.old + 4 ≤ vec_capacity bytes.old }
    ensures bytes { bytes.new.items ≡ bytes.old.items ++ to_le_bytes w32 number }
    ensures len { vec_len bytes.new ≡ vec_len bytes.old + 4 }
    ensures capacity { vec_capacity bytes.old ≤ vec_capacity bytes.new }
{
    put(bytes, &number.to_le_bytes());
}

// A record: its kind, its size and its bytes.
#[tactic(auto, unfolding(crate::specs::Records::spelled))]
fn put_record(bytes: &mut Vec<u8>, kind: RecordKind, body: &[u8])
    requires few { length body.now ≤ 384 }
    requires room { vec_len bytes.old + (8 + length body.now) ≤ vec_capacity bytes.old }
    ensures bytes { bytes.new.items ≡ bytes.old.items ++ spelled kind body.now }
    ensures len { vec_len bytes.new ≡ vec_len bytes.old + (8 + length body.now) }
    ensures capacity { vec_capacity bytes.old ≤ vec_capacity bytes.new }
{
    put_word(bytes, kind.number());
    put_word(bytes, body.len() as u32);
    put(bytes, body);
}
