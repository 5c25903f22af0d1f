// All inputs.
ghost use Rattle.std.specs.Prelude.{◌≡◌, ◌==◌, ◌+◌, ◌≤◌, [], true, false, length, nat_eq, nat_lt, All, OnOk, OnErr, Ok, position};
ghost use Rattle.std.specs.List.{IsDistinct};
ghost use Rattle.std.specs.List.Sorted.{IsStrictlyIncreasing};
ghost use Rattle.sof_io.specs.Bound.{has_slot};
ghost use Rattle.sof_io.specs.Takes.{input_slots, HasPosition};
ghost use Rattle.sof_io.specs.Takes.{bytes_given, taken};
ghost use Rattle.sof_io.specs.Fills as fills;
ghost use Rattle.sof_io.specs.Fills.{with_input, filled_at, ended_at};
ghost use Rattle.sof_io.specs.Takes.{is_wanting};
ghost use Rattle.sof_io.specs.Takes.{held_at, has_ended};

use crate::input::Input;
use sof_base::{INPUT_BYTES, NoMemory};
use std::alloc::Global;
use std::marker::Model;

/// The inputs, by ascending slot. Each holds at most 1048576 bytes, in memory that was reserved for it. By the last byte of a slot the
/// place at which it was seen: a guess, which is tested.
#[derive(Debug, Drop)]
pub struct Inputs {
    inputs: Vec<Input>,
    seen: [u8; 256],
}

impl Model for Inputs {
    ghost use Rattle.std.specs.Prelude.{List, All};
    ghost use Rattle.std.specs.List.Sorted.{IsStrictlyIncreasing};
    ghost use Rattle.sof_base.specs.Ports.{InputView};
    ghost use Rattle.sof_io.specs.Takes.{input_slots, HasPosition};

    ghost Value = { List InputView };

    ghost view = { λ s. s.inputs.items };

    ghost invariant = { λ s. IsStrictlyIncreasing (input_slots s.inputs.items) × All HasPosition s.inputs.items };
}

impl Inputs {
    /// No inputs. This takes no memory.
    pub fn new(alloc: Global) -> Result<Inputs, NoMemory>
        ensures { result ≡ Ok [] }
    {
        Ok(Inputs {
            inputs: Vec::new(alloc),
            seen: [0; 256],
        })
    }

    /// How many inputs there are.
    pub fn len(&self) -> usize
        ensures len { result ≡ length self.now }
        ensures ascending { IsStrictlyIncreasing (input_slots self.now) }
        ensures distinct { IsDistinct nat_eq (input_slots self.now) }
        ensures within { All HasPosition self.now }
    {
        self.inputs.len()
    }

    /// Whether there is none.
    pub fn is_empty(&self) -> bool
        ensures { result ≡ (length self.now == 0) }
    {
        self.inputs.is_empty()
    }

    /// Whether a slot is there.
    pub fn has(&self, slot: u32) -> bool
        ensures has { result ≡ has_slot slot (input_slots self.now) }
        ensures distinct { IsDistinct nat_eq (input_slots self.now) }
    {
        place_of(self.inputs.as_slice(), slot).is_some()
    }

    /// One more input, with memory for 1048576 bytes; its slot must not be there yet. Where there is no memory, the inputs stay as they are.
    pub fn add(&mut self, slot: u32) -> Result<(), NoMemory>
        requires { has_slot slot (input_slots self.old) ≡ false }
        ensures ok { OnOk result (self.new ≡ with_input slot self.old) }
        ensures err { OnErr result (self.new ≡ self.old) }
        ensures distinct { IsDistinct nat_eq (input_slots self.new) }
    {
        let input = Input::new(*self.inputs.allocator(), slot)?;
        let place = place_above(self.inputs.as_slice(), slot).unwrap_or(self.inputs.len());
        self.inputs.insert(place, input)?;
        note(self.inputs.as_slice(), &mut self.seen);
        Ok(())
    }

    /// How many bytes are left of a slot; none of an unknown slot.
    pub fn held(&self, slot: u32) -> usize
        ensures { result ≡ held_at slot self.now }
    {
        match place_of(self.inputs.as_slice(), slot) {
            Some(k) => self.inputs[k].held(),
            None => 0,
        }
    }

    /// Puts a piece after the bytes that are left of a slot. This takes no memory.
    pub fn fill(&mut self, slot: u32, piece: &[u8])
        requires there { has_slot slot (input_slots self.old) ≡ true }
        requires open { has_ended slot self.old ≡ false }
        requires fits { held_at slot self.old + length piece.now ≤ INPUT_BYTES }
        ensures { self.new ≡ filled_at slot piece.now self.old }
    {
        if let Some(k) = place_of(self.inputs.as_slice(), slot) {
            self.inputs[k].fill(piece);
        }
    }

    /// No more bytes come of a slot; those that are left stay.
    pub fn end(&mut self, slot: u32)
        requires { has_slot slot (input_slots self.old) ≡ true }
        ensures { self.new ≡ ended_at slot self.old }
    {
        if let Some(k) = place_of(self.inputs.as_slice(), slot) {
            self.inputs[k].end();
        }
    }

    /// Whether no more bytes come of a slot.
    pub fn ended(&self, slot: u32) -> bool
        requires { has_slot slot (input_slots self.now) ≡ true }
        ensures { result ≡ has_ended slot self.now }
    {
        match place_of(self.inputs.as_slice(), slot) {
            Some(k) => self.inputs[k].ended(),
            None => false,
        }
    }

    /// The first slot, by ascending slots, that holds fewer bytes than a level and has not ended.
    pub fn wanting(&self, level: usize) -> Option<u32>
        ensures { result ≡ fills.wanting level self.now }
    {
        match place_wanting(self.inputs.as_slice(), level) {
            Some(k) => Some(self.inputs[k].slot()),
            None => None,
        }
    }

    /// Fills `out` with the slot's next bytes and moves on by its length. Past the end, and for an unknown slot, the bytes are zeros. This takes no memory.
    pub fn take(&mut self, slot: u32, out: &mut [u8])
        ensures inputs { self.new ≡ taken slot (length out.old) self.old }
        ensures bytes { out.new ≡ bytes_given slot (length out.old) self.old }
    {
        match place_of(self.inputs.as_slice(), slot) {
            Some(k) => self.inputs[k].take(out),
            None => out.fill(0),
        }
    }

    /// The next bytes of a slot, as many as `room` has: where they lie, if they lie in one piece, and else in `room`. Past the end, and
    /// for an unknown slot, the bytes are zeros. Nothing is taken yet.
    pub fn peek<'a>(&'a self, slot: u32, room: &'a mut [u8]) -> &'a [u8]
        ensures { result.now ≡ bytes_given slot (length room.old) self.now }
    {
        match place_by(self.inputs.as_slice(), &self.seen, slot) {
            Some(k) => self.inputs[k].peek(room),
            None => {
                room.fill(0);
                room
            }
        }
    }

    /// Moves on by `n` bytes of a slot, as where they are taken. This takes no memory.
    pub fn skip(&mut self, slot: u32, n: usize)
        ensures { self.new ≡ taken slot n self.old }
    {
        if let Some(k) = place_by(self.inputs.as_slice(), &self.seen, slot) {
            self.inputs[k].skip(n);
        }
    }
}

// The place of a slot among the inputs.
fn place_of(inputs: &[Input], slot: u32) -> Option<usize>
    ensures { result ≡ position (λ input. nat_eq input.slot slot) inputs.now }
{
    inputs.iter().position(|input| input.slot() == slot)
}

// The same, where it was seen or else by a search.
fn place_by(inputs: &[Input], seen: &[u8; 256], slot: u32) -> Option<usize>
    requires { IsStrictlyIncreasing (input_slots inputs.now) }
    ensures { result ≡ position (λ input. nat_eq input.slot slot) inputs.now }
{
    let at = usize::from(seen[(slot % 256) as usize]);
    if at < inputs.len() && inputs[at].slot() == slot {
        return Some(at);
    }
    place_of(inputs, slot)
}

// Notes where each input stands.
fn note(inputs: &[Input], seen: &mut [u8; 256]) {
    for (i, input) in inputs.iter().enumerate() {
        seen[(input.slot() % 256) as usize] = (i % 256) as u8;
    }
}

// The place of the first input whose slot is above a slot.
fn place_above(inputs: &[Input], slot: u32) -> Option<usize>
    ensures { result ≡ position (λ input. nat_lt slot input.slot) inputs.now }
{
    inputs.iter().position(|input| slot < input.slot())
}

// The place of the first input that holds fewer bytes than a level and has not ended.
fn place_wanting(inputs: &[Input], level: usize) -> Option<usize>
    ensures { result ≡ position (is_wanting level) inputs.now }
{
    inputs
        .iter()
        .position(|input| input.held() < level && !input.ended())
}
