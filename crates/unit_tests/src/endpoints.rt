// Inputs and outputs as lists of bytes.
use crate::same::same;
use sof_base::INPUT_BYTES;
use sof_io::{Inputs, Outputs};
use std::process::Abort;

// A slot has an input, from now on.
fn add_input(rt: &impl Abort, inputs: &mut Inputs, slot: u32) {
    assert!(rt; !inputs.has(slot), "at {slot}");
    inputs.add(slot).expect(rt, "there is memory");
}

// Puts a piece after the bytes of a slot; whether it could.
fn fill(inputs: &mut Inputs, slot: u32, piece: &[u8]) -> bool {
    if !inputs.has(slot) || inputs.ended(slot) {
        return false;
    }
    let held = inputs.held(slot);
    if held > INPUT_BYTES || piece.len() > INPUT_BYTES - held {
        return false;
    }
    inputs.fill(slot, piece);
    true
}

fn fills(rt: &impl Abort, inputs: &mut Inputs, slot: u32, piece: &[u8]) {
    same(rt, &slot, &fill(inputs, slot, piece), &true);
}

// No more bytes come of a slot; whether it is there.
fn end(inputs: &mut Inputs, slot: u32) -> bool {
    if !inputs.has(slot) {
        return false;
    }
    inputs.end(slot);
    true
}

fn ends(rt: &impl Abort, inputs: &mut Inputs, slot: u32) {
    same(rt, &slot, &end(inputs, slot), &true);
}

// A slot has an input that holds so many bytes; whether more come.
fn holds(rt: &impl Abort, inputs: &Inputs, slot: u32, held: usize, ended: bool) {
    assert!(rt; inputs.has(slot), "at {slot}");
    same(rt, &slot, &inputs.held(slot), &held);
    same(rt, &slot, &inputs.ended(slot), &ended);
}

// A slot gives these bytes, and then holds so many.
fn takes(
    rt: &impl Abort,
    inputs: &mut Inputs,
    slot: u32,
    out: &mut [u8],
    want: &[u8],
    held: usize,
) {
    inputs.take(slot, out);
    same(rt, &slot, &&*out, &want);
    same(rt, &slot, &inputs.held(slot), &held);
}

#[test]
fn an_input_gives_its_bytes_and_then_zeros(rt: HostRuntime) {
    let mut inputs = Inputs::new(rt.alloc()).expect(&rt, "there is memory");
    same(&rt, &7, &inputs.has(7), &false);
    add_input(&rt, &mut inputs, 7);
    holds(&rt, &inputs, 7, 0, false);
    fills(&rt, &mut inputs, 7, &[1, 2, 3]);
    fills(&rt, &mut inputs, 7, &[4, 5]);
    holds(&rt, &inputs, 7, 5, false);
    ends(&rt, &mut inputs, 7);
    holds(&rt, &inputs, 7, 5, true);
    let mut bytes = [9u8; 4];
    takes(&rt, &mut inputs, 7, &mut bytes, &[1, 2, 3, 4], 1);
    takes(&rt, &mut inputs, 7, &mut bytes, &[5, 0, 0, 0], 0);
    takes(&rt, &mut inputs, 7, &mut bytes, &[0, 0, 0, 0], 0);
}

// The slot that wants bytes of which an input is to hold so many.
fn wants(rt: &impl Abort, inputs: &Inputs, level: usize, want: Option<u32>) {
    same(rt, &level, &inputs.wanting(level), &want);
}

#[test]
fn the_first_input_wants_that_holds_too_little(rt: HostRuntime) {
    let mut inputs = Inputs::new(rt.alloc()).expect(&rt, "there is memory");
    wants(&rt, &inputs, 4, None);
    add_input(&rt, &mut inputs, 9);
    add_input(&rt, &mut inputs, 2);
    add_input(&rt, &mut inputs, 5);
    same(&rt, &"the end", &inputs.len(), &3);
    wants(&rt, &inputs, 4, Some(2));
    fills(&rt, &mut inputs, 2, &[1, 2, 3, 4]);
    wants(&rt, &inputs, 4, Some(5));
    wants(&rt, &inputs, 5, Some(2));
    ends(&rt, &mut inputs, 5);
    wants(&rt, &inputs, 4, Some(9));
    ends(&rt, &mut inputs, 9);
    wants(&rt, &inputs, 4, None);
    takes(&rt, &mut inputs, 2, &mut [9u8], &[1], 3);
    wants(&rt, &inputs, 4, Some(2));
}

// A slot has an output, from now on.
fn add_output(rt: &impl Abort, outputs: &mut Outputs, slot: u32) {
    assert!(rt; !outputs.has(slot), "at {slot}");
    outputs.add(slot).expect(rt, "there is memory");
}

fn puts(rt: &impl Abort, outputs: &mut Outputs, slot: u32, piece: &[u8]) {
    assert!(rt; piece.len() <= outputs.room(slot), "at {slot}");
    outputs.put(slot, piece);
}

// A slot's output has these bytes, and room for so many.
fn has_bytes(rt: &impl Abort, outputs: &Outputs, slot: u32, want: &[u8], room: usize) {
    same(rt, &slot, &outputs.bytes(slot), &want);
    same(rt, &slot, &outputs.room(slot), &room);
}

#[test]
fn an_output_holds_its_pieces_until_it_is_drained(rt: HostRuntime) {
    let mut outputs = Outputs::new(rt.alloc()).expect(&rt, "there is memory");
    same(&rt, &"the start", &outputs.is_empty(), &true);
    add_output(&rt, &mut outputs, 5);
    has_bytes(&rt, &outputs, 5, &[], 1048576);
    puts(&rt, &mut outputs, 5, &[1, 2]);
    puts(&rt, &mut outputs, 5, &[3]);
    has_bytes(&rt, &outputs, 5, &[1, 2, 3], 1048573);
    outputs.drain();
    has_bytes(&rt, &outputs, 5, &[], 1048576);
}

// At a place stands the output of a slot, with so many bytes.
fn stands(rt: &impl Abort, outputs: &Outputs, place: usize, slot: u32, bytes: usize) {
    assert!(rt; place < outputs.len(), "at {place}");
    let output = outputs.at(place);
    same(rt, &place, &output.0, &slot);
    same(rt, &place, &output.1.len(), &bytes);
}

#[test]
fn outputs_stand_by_ascending_slot(rt: HostRuntime) {
    let mut outputs = Outputs::new(rt.alloc()).expect(&rt, "there is memory");
    add_output(&rt, &mut outputs, 9);
    add_output(&rt, &mut outputs, 2);
    puts(&rt, &mut outputs, 9, &[4, 4]);
    same(&rt, &"the end", &outputs.len(), &2);
    stands(&rt, &outputs, 0, 2, 0);
    stands(&rt, &outputs, 1, 9, 2);
}
