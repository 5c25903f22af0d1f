// One input.
ghost use Rattle.std.specs.Prelude.{◌≡◌, ◌+◌, ◌≤◌, length, IfOk};
ghost use Rattle.sof_io.specs.Takes.{after_input, next_bytes};
ghost use Rattle.sof_io.specs.Fills.{new_input};
ghost use Rattle.sof_io.specs.Takes.{fuller_input, ended_input};

use crate::round::{after, copy_in, copy_out, grow};
use sof_base::{INPUT_BYTES, NoMemory};
use std::alloc::Global;
use std::marker::Model;

/// The bytes of one input, in memory that was reserved for them: the `held` bytes from `start` on, round the end. Contracts see
/// its slot, its position, the bytes that are left and whether it has ended.
#[derive(Debug, Drop)]
pub struct Input {
    slot: u32,
    bytes: Vec<u8>,
    start: usize,
    held: usize,
    position: usize,
    ended: bool,
}

impl Model for Input {
    ghost use Rattle.std.specs.Prelude.{◌≤◌, vec_len, vec_capacity};
    ghost use Rattle.sof_base.specs.Ports.{InputView};
    ghost use Rattle.sof_base.specs.declared.limits.TheConstants.{INPUT_BYTES};
    ghost use Rattle.sof_io.specs.Round.{round_bytes, IsHeld};

    ghost Value = { InputView };

    ghost view = { λ s. record { slot = s.slot; position = s.position; left = round_bytes s.start s.held s.bytes.items; ended = s.ended } };

    ghost invariant = { λ s. IsHeld s.start s.held (vec_len s.bytes) × (INPUT_BYTES ≤ vec_capacity s.bytes) };
}

impl Input {
    /// An input with no bytes, and memory for [`INPUT_BYTES`].
    pub fn new(alloc: Global, slot: u32) -> Result<Input, NoMemory>
        ensures { IfOk result (λ input. input ≡ new_input slot) }
    {
        Ok(Input {
            slot,
            bytes: Vec::with_capacity(alloc, INPUT_BYTES)?,
            start: 0,
            held: 0,
            position: 0,
            ended: false,
        })
    }

    /// The id of its endpoint's component.
    pub fn slot(&self) -> u32
        ensures { result ≡ self.now.slot }
    {
        self.slot
    }

    /// How many bytes are left.
    pub fn held(&self) -> usize
        ensures { result ≡ length self.now.left }
    {
        self.held
    }

    /// Whether no more bytes come.
    pub fn ended(&self) -> bool
        ensures { result ≡ self.now.ended }
    {
        self.ended
    }

    /// Puts a piece after the bytes that are left. The memory is first written up to its end, and then again from its beginning.
    pub fn fill(&mut self, piece: &[u8])
        requires { length self.old.left + length piece.now ≤ INPUT_BYTES }
        ensures { self.new ≡ fuller_input piece.now self.old }
    {
        let count = piece.len().min(INPUT_BYTES - self.bytes.len());
        let (front, back) = piece.split_at(count);
        grow(&mut self.bytes, front);
        copy_in(
            self.bytes.as_mut_slice(),
            self.start,
            self.held + count,
            back,
        );
        self.held += piece.len();
    }

    /// No more bytes come.
    pub fn end(&mut self)
        ensures { self.new ≡ ended_input self.old }
    {
        self.ended = true;
    }

    /// Fills `out` with the next bytes, and with zeros past the end. The position, in bytes, moves by the length of `out`, and stays at the greatest `usize`.
    pub fn take(&mut self, out: &mut [u8])
        ensures moved { self.new ≡ after_input (length out.old) self.old }
        ensures bytes { out.new ≡ next_bytes (length out.old) self.old.left }
    {
        self.copy(out);
        self.skip(out.len());
    }

    /// The next bytes, as many as `room` has: where they lie, if they lie in one piece, and else copied into `room`, with zeros past
    /// the end.
    pub fn peek<'a>(&'a self, room: &'a mut [u8]) -> &'a [u8]
        ensures { result.now ≡ next_bytes (length room.old) self.now.left }
    {
        let n = room.len();
        if n <= self.held && n <= self.bytes.len() - self.start {
            return &self.bytes.as_slice()[self.start..self.start + n];
        }
        self.copy(room);
        room
    }

    /// Moves on by `n` bytes.
    pub fn skip(&mut self, n: usize)
        ensures { self.new ≡ after_input n self.old }
    {
        let count = self.held.min(n);
        self.start = after(self.bytes.len(), self.start, count);
        self.held -= count;
        self.position = self.position.saturating_add(n);
    }

    // Fills `out` with the next bytes, and with zeros past the end.
    fn copy(&self, out: &mut [u8])
        ensures { out.new ≡ next_bytes (length out.old) self.now.left }
    {
        let count = self.held.min(out.len());
        copy_out(self.bytes.as_slice(), self.start, &mut out[..count]);
        out[count..].fill(0);
    }
}
