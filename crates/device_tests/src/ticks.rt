// A tick by itself, over a registry with the graph of one stream, which runs: a host feeds a buffer, and a DAI takes from it.
ghost use Rattle.std.specs.Prelude.{◌≡◌, true, false};
ghost use Rattle.sof_base.specs.Holes.{first_fit, fresh_holes};
ghost use Rattle.fw_heap.specs.Regions.{carves};
ghost use Rattle.fw_components.specs.Changes.{IsNew, added, has_new_index, is_there};
ghost use Rattle.fw_core.specs.Laid.{no_tables};
ghost use Rattle.fw_core.specs.Held.{IsPieceHeld};

use crate::same::same;
use fw_components::{Component, Registry, Unit};
use fw_heap::{Piece, Region};
use fw_ring::Ring;
use fw_schedule::tick;
use sof_base::{Format, Params};
use sof_io::{Inputs, Outputs};
use std::alloc::Global;
use std::process::Abort;
use stream_law::Phase;

/// A stream of eight frames a tick, of two bytes each.
const PARAMS: Params = Params {
    rate: 8000,
    channels: 1,
    format: Format::S16,
};

/// Ten such frames.
const BYTES: [u8; 20] = [
    1, 2, 3, 4, 5, 6, 7, 8, 9, 10, 11, 12, 13, 14, 15, 16, 17, 18, 19, 20,
];

// A piece of 64 bytes.
fn carved(rt: &impl Abort, region: &mut Region) -> Piece
    ensures piece { (result.home ≡ region.old.home) × (result.size ≡ 64) × (result.place ≡ first_fit 64 region.old.holes) }
    ensures region { region.new ≡ carves 64 region.old }
{
    match region.carve(64) {
        Ok(piece) => piece,
        Err(_full) => panic!(rt; "there is no hole"),
    }
}

// Adds a component, a buffer or the pipeline.
fn put(rt: &impl Abort, registry: &mut Registry, id: u32, unit: Unit)
    requires id { is_there registry.old id ≡ false }
    requires unit { IsNew unit }
    requires index { has_new_index (record { id = id; pipe = 1; channels = 1; unit = unit }) registry.old ≡ true }
    ensures { registry.new ≡ added (record { id = id; pipe = 1; channels = 1; unit = unit }) registry.old }
{
    let component = Component {
        id,
        pipe: 1,
        channels: 1,
        unit,
    };
    match registry.add(component) {
        Ok(()) => (),
        Err(_full) => panic!(rt; "there is no place"),
    }
}

// The graph of one stream, which runs, in an empty registry.
fn begin(rt: &impl Abort, registry: &mut Registry, region: &mut Region)
    requires empty { registry.old ≡ no_tables }
    requires fresh { (region.old.holes ≡ fresh_holes 256) × (region.old.usable ≡ 256) }
    ensures held { IsPieceHeld registry.new region.new }
{
    let piece = carved(rt, region);
    let host = Unit::Host {
        capture: false,
        phase: Phase::Idle,
        params: None,
        piece,
    };
    put(rt, registry, 1, host);
    let piece = carved(rt, region);
    let buffer = Unit::Buffer {
        size: 32,
        ring: Ring::over(piece, 8, 1),
        source: None,
        sink: None,
    };
    put(rt, registry, 2, buffer);
    let piece = carved(rt, region);
    let dai = Unit::Dai {
        capture: false,
        format: Format::S16,
        piece,
    };
    put(rt, registry, 3, dai);
    let piece = carved(rt, region);
    let pipeline = Unit::Pipeline {
        sched: 3,
        period: 1000,
        complete: false,
        piece,
    };
    put(rt, registry, 4, pipeline);
    registry.join(1, 2);
    registry.join(2, 3);
    registry.set_complete(4);
    registry.set_stream(1, Phase::Running, Some(PARAMS));
}

// Whether a tick brings eight frames from the host's file to the DAI's, and two are left.
fn moves(rt: &impl Abort, alloc: Global) -> bool {
    let mut inputs = Inputs::new(alloc).expect(rt, "there is memory");
    let mut outputs = Outputs::new(alloc).expect(rt, "there is memory");
    inputs.add(1).expect(rt, "there is memory");
    inputs.fill(1, &BYTES);
    outputs.add(3).expect(rt, "there is memory");
    let mut region = Region::new(alloc, 256).expect(rt, "there is memory");
    let mut registry = Registry::new(alloc).expect(rt, "there is memory");
    begin(rt, &mut registry, &mut region);
    tick(&mut registry, &mut inputs, &mut outputs, 1);
    let right = outputs.bytes(3) == &BYTES[..16] && inputs.held(1) == 4;
    registry.remove_all(&mut region);
    registry.close();
    region.close();
    right
}

#[test]
fn a_tick_moves_frames_to_the_dai(rt: HostRuntime) {
    let moved = moves(&rt, rt.alloc());
    same(&rt, &"a tick", &moved, &true);
}
