// All outputs.
ghost use Rattle.std.specs.Prelude.{◌≡◌, ◌==◌, ◌+◌, ◌*◌, ◌<◌, ◌≤◌, ◌++◌, [], false, length, nat_eq, slice_get, nat_lt, OnOk, OnErr, Ok, Some, position};
ghost use Rattle.std.specs.List.Sorted.{IsStrictlyIncreasing};
ghost use Rattle.sof_base.specs.Ports.{HasRoom};
ghost use Rattle.sof_base.specs.DrainedOutputs.{drained};
ghost use Rattle.sof_base.specs.Samples.{width, frame_out};
ghost use Rattle.sof_io.specs.Bound.{output_slots, has_slot};
ghost use Rattle.sof_io.specs.Puts.{bytes_at, room_at, with_piece};
ghost use Rattle.sof_io.specs.Bound.{with_slot};

use crate::output::Output;
use sof_base::{Format, NoMemory, Sample};
use std::alloc::Global;
use std::marker::Model;

/// The outputs, by ascending slot. Each holds at most 1048576 bytes, in memory that was reserved for it.
#[derive(Debug, Drop)]
pub struct Outputs {
    outputs: Vec<Output>,
}

impl Model for Outputs {
    ghost use Rattle.std.specs.Prelude.{List};
    ghost use Rattle.std.specs.List.Sorted.{IsStrictlyIncreasing};
    ghost use Rattle.sof_base.specs.Ports.{OutputView, HasRoom};
    ghost use Rattle.sof_io.specs.Bound.{output_slots};

    ghost Value = { List OutputView };

    ghost view = { λ s. s.outputs.items };

    ghost invariant = { λ s. IsStrictlyIncreasing (output_slots s.outputs.items) × HasRoom 0 s.outputs.items };
}

impl Outputs {
    /// No outputs. This takes no memory.
    pub fn new(alloc: Global) -> Result<Outputs, NoMemory>
        ensures { result ≡ Ok [] }
    {
        Ok(Outputs {
            outputs: Vec::new(alloc),
        })
    }

    /// How many outputs there are.
    pub fn len(&self) -> usize
        ensures len { result ≡ length self.now }
        ensures ascending { IsStrictlyIncreasing (output_slots self.now) }
        ensures within { HasRoom 0 self.now }
    {
        self.outputs.len()
    }

    /// Whether there are none.
    pub fn is_empty(&self) -> bool
        ensures { result ≡ (length self.now == 0) }
    {
        self.outputs.is_empty()
    }

    /// The slot and the bytes of the output at a place, counted by ascending slot from 0.
    pub fn at(&self, place: usize) -> (u32, &[u8])
        requires { place < length self.now }
        ensures { slice_get self.now place ≡ Some (record { slot = result.0; bytes = result.1.now }) }
    {
        let output = &self.outputs[place];
        (output.slot(), output.bytes())
    }

    /// Whether a slot is there.
    pub fn has(&self, slot: u32) -> bool
        ensures { result ≡ has_slot slot (output_slots self.now) }
    {
        place_of(self.outputs.as_slice(), slot).is_some()
    }

    /// One more output, with memory for 1048576 bytes; its slot must not be there yet. Where there is no memory, the outputs stay as they are.
    pub fn add(&mut self, slot: u32) -> Result<(), NoMemory>
        requires { has_slot slot (output_slots self.old) ≡ false }
        ensures ok { OnOk result (self.new ≡ with_slot slot self.old) }
        ensures err { OnErr result (self.new ≡ self.old) }
    {
        let output = Output::new(*self.outputs.allocator(), slot)?;
        let place = place_above(self.outputs.as_slice(), slot).unwrap_or(self.outputs.len());
        self.outputs.insert(place, output)?;
        Ok(())
    }

    /// How many more bytes a slot can hold, of 1048576; the greatest `usize` for an unknown slot.
    pub fn room(&self, slot: u32) -> usize
        ensures { result ≡ room_at slot self.now }
    {
        match place_of(self.outputs.as_slice(), slot) {
            Some(k) => self.outputs[k].room(),
            None => usize::MAX,
        }
    }

    /// Puts a piece, of at most `room` bytes, after a slot's bytes. An unknown slot drops it. This takes no memory.
    pub fn put(&mut self, slot: u32, piece: &[u8])
        requires { length piece.now ≤ room_at slot self.old }
        ensures { self.new ≡ with_piece slot piece.now self.old }
    {
        if let Some(k) = place_of(self.outputs.as_slice(), slot) {
            self.outputs[k].put(piece);
        }
    }

    /// Puts samples, and those after them, in a format after a slot's bytes; it has room for theirs. An unknown slot drops them. This
    /// takes no memory.
    pub fn put_samples(&mut self, slot: u32, format: Format, front: &[Sample], back: &[Sample])
        requires { (length front.now + length back.now) * width format ≤ room_at slot self.old }
        ensures { self.new ≡ with_piece slot (frame_out format (front.now ++ back.now)) self.old }
    {
        if let Some(k) = place_of(self.outputs.as_slice(), slot) {
            self.outputs[k].put_samples(format, front, back);
        }
    }

    /// The bytes of a slot that were put and not yet drained; none for an unknown slot.
    pub fn bytes(&self, slot: u32) -> &[u8]
        ensures { result.now ≡ bytes_at slot self.now }
    {
        match place_of(self.outputs.as_slice(), slot) {
            Some(k) => self.outputs[k].bytes(),
            None => &[],
        }
    }

    /// Drops the bytes of all outputs and keeps their memory.
    pub fn drain(&mut self)
        ensures { self.new ≡ drained self.old }
    {
        drain_all(self.outputs.as_mut_slice());
    }
}

// The place of a slot among the outputs.
fn place_of(outputs: &[Output], slot: u32) -> Option<usize>
    ensures { result ≡ position (λ output. nat_eq output.slot slot) outputs.now }
{
    outputs.iter().position(|output| output.slot() == slot)
}

// The place of the first output whose slot is above a slot.
fn place_above(outputs: &[Output], slot: u32) -> Option<usize>
    ensures { result ≡ position (λ output. nat_lt slot output.slot) outputs.now }
{
    outputs.iter().position(|output| slot < output.slot())
}

fn drain_all(outputs: &mut [Output])
    ensures { outputs.new ≡ drained outputs.old }
{
    for output in outputs.iter_mut() {
        output.drain();
    }
}
