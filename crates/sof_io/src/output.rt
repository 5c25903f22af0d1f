// One output.
ghost use Rattle.std.specs.Prelude.{◌≡◌, ◌+◌, ◌-◌, ◌*◌, ◌≤◌, ◌++◌, ℕ, length, take, vec_len, vec_capacity, IfOk};
ghost use Rattle.sof_base.specs.Samples.{width, frame_out};
ghost use Rattle.sof_io.specs.Puts.{longer_output};
ghost use Rattle.sof_io.specs.Bound.{new_output};

use crate::samples::write_both;
use sof_base::{Format, NoMemory, OUTPUT_BYTES, Sample};
use std::alloc::Global;
use std::marker::Model;

/// The bytes of one output: the first `held` of those in memory that was reserved for them. What lies after them means nothing.
/// Contracts see its slot and its bytes.
#[derive(Debug, Drop)]
pub struct Output {
    slot: u32,
    bytes: Vec<u8>,
    held: usize,
}

impl Model for Output {
    ghost use Rattle.std.specs.Prelude.{◌≤◌, take, vec_len, vec_capacity};
    ghost use Rattle.sof_base.specs.Ports.{OutputView};
    ghost use Rattle.sof_base.specs.declared.limits.TheConstants.{OUTPUT_BYTES};

    ghost Value = { OutputView };

    ghost view = { λ s. record { slot = s.slot; bytes = take s.held s.bytes.items } };

    ghost invariant = { λ s. record {
      held : s.held ≤ vec_len s.bytes;
      bound : vec_len s.bytes ≤ OUTPUT_BYTES;
      room : OUTPUT_BYTES ≤ vec_capacity s.bytes;
    } };
}

impl Output {
    /// An output with no bytes, and memory for [`OUTPUT_BYTES`].
    pub fn new(alloc: Global, slot: u32) -> Result<Output, NoMemory>
        ensures { IfOk result (λ output. output ≡ new_output slot) }
    {
        Ok(Output {
            slot,
            bytes: Vec::with_capacity(alloc, OUTPUT_BYTES)?,
            held: 0,
        })
    }

    /// The id of its endpoint's component.
    pub fn slot(&self) -> u32
        ensures { result ≡ self.now.slot }
    {
        self.slot
    }

    /// The bytes that were put and not yet drained, at most [`OUTPUT_BYTES`].
    pub fn bytes(&self) -> &[u8]
        ensures bytes { result.now ≡ self.now.bytes }
        ensures bound { length self.now.bytes ≤ OUTPUT_BYTES }
    {
        &self.bytes.as_slice()[..self.held]
    }

    /// How many more bytes it can hold.
    pub fn room(&self) -> usize
        ensures { result ≡ OUTPUT_BYTES - length self.now.bytes }
    {
        OUTPUT_BYTES - self.held
    }

    /// Puts a piece after its bytes.
    pub fn put(&mut self, piece: &[u8])
        requires { length self.old.bytes + length piece.now ≤ OUTPUT_BYTES }
        ensures { self.new ≡ longer_output piece.now self.old }
    {
        let end = self.held + piece.len();
        reach(&mut self.bytes, end);
        self.bytes.as_mut_slice()[self.held..end].copy_from_slice(piece);
        self.held = end;
    }

    /// Puts the samples of words, and of those after them, after its bytes, in a format.
    pub fn put_samples(&mut self, format: Format, front: &[Sample], back: &[Sample])
        requires { length self.old.bytes + (length front.now + length back.now) * width format ≤ OUTPUT_BYTES }
        ensures { self.new ≡ longer_output (frame_out format (front.now ++ back.now)) self.old }
    {
        let end = self.held + (front.len() + back.len()) * format.width();
        reach(&mut self.bytes, end);
        write_both(
            format,
            front,
            back,
            &mut self.bytes.as_mut_slice()[self.held..end],
        );
        self.held = end;
    }

    /// Drops its bytes and keeps their memory.
    pub fn drain(&mut self)
        ensures { self.new ≡ new_output self.old.slot }
    {
        self.held = 0;
    }
}

// There are so many bytes at least, of which the first are those that there were. Bytes that are there are not written again.
fn reach(bytes: &mut Vec<u8>, end: usize)
    requires { end ≤ vec_capacity bytes.old }
    ensures kept { take (vec_len bytes.old) bytes.new.items ≡ bytes.old.items }
    ensures reached { (vec_len bytes.old ≤ vec_len bytes.new) × (end ≤ vec_len bytes.new) }
    ensures bound { (n : ℕ) → vec_len bytes.old ≤ n → end ≤ n → vec_len bytes.new ≤ n }
    ensures capacity { vec_capacity bytes.old ≤ vec_capacity bytes.new }
{
    if bytes.len() < end {
        // They fit in the memory that was reserved, so they are never refused.
        let _fits = bytes.resize(end, 0);
    }
}
