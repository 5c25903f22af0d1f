// A blob of three parts, which an equaliser of a registry takes in order.
ghost use Rattle.std.specs.Prelude.{◌≡◌};
ghost use Rattle.fw_heap.specs.Pieces.{PieceState};
ghost use Rattle.fw_units.specs.declared.component.Unit.TheVariants.{Eq as Equaliser};
ghost use Rattle.fw_tests.specs.Alone.{IsAlone};

use crate::blobs::three_responses;
use eq_biquad::Eq;
use fw_components::{Component, Registry, RegistryFull, Unit};
use fw_heap::Region;
use sof_base::{Bounded, Errno, NoMemory, Part};
use std::alloc::Global;

// The part of this number of a blob: 668 bytes are after the header, and 260 of them come with each part but the last.
fn cut(blob: &[u8; 700], index: u32) -> Option<Part> {
    let mut header = [0; 32];
    header.copy_from_slice(&blob[..32]);
    let (bytes, remaining) = if index == 0 {
        (&blob[32..292], 408)
    } else if index == 1 {
        (&blob[292..552], 148)
    } else {
        (&blob[552..], 0)
    };
    match Bounded::new(bytes) {
        Some(bytes) => Some(Part {
            header,
            remaining,
            index,
            bytes,
        }),
        None => None,
    }
}

fn part_of(index: u32) -> Option<Part> {
    cut(&three_responses(), index)
}

// Whether the part of this number is taken.
fn is_taken(registry: &mut Registry, index: u32) -> bool
    ensures { (piece : PieceState) → IsAlone piece registry.old → IsAlone piece registry.new }
{
    match part_of(index) {
        Some(part) => registry.set_part(3, &part).is_ok(),
        None => false,
    }
}

// Whether the part of this number comes back as it was sent.
fn comes_back(registry: &Registry, index: u32) -> bool {
    let Some(sent) = part_of(index) else {
        return false;
    };
    let Ok(part) = registry.part(3, index) else {
        return false;
    };
    part.header == sent.header
        && part.remaining == sent.remaining
        && part.index == index
        && part.bytes.items() == sent.bytes.items()
}

// Whether there is no part of this number.
fn has_none(registry: &Registry, index: u32) -> bool {
    matches!(registry.part(3, index), Err(Errno::INVALID))
}

// Parts are taken in order alone, and the blob is in force with the last one.
fn takes_its_parts(registry: &mut Registry) -> bool
    ensures { (piece : PieceState) → IsAlone piece registry.old → IsAlone piece registry.new }
{
    let early = is_taken(registry, 1);
    let first = is_taken(registry, 0);
    let last_early = is_taken(registry, 2);
    let second = is_taken(registry, 1);
    let not_in_force = has_none(registry, 0);
    let last = is_taken(registry, 2);
    let last_again = is_taken(registry, 2);
    let back = [
        comes_back(registry, 0),
        comes_back(registry, 1),
        comes_back(registry, 2),
    ];
    let three = has_none(registry, 3);
    [
        early,
        first,
        last_early,
        second,
        not_in_force,
        last,
        last_again,
        three,
    ] == [false, true, false, true, true, true, false, true]
        && back == [true; 3]
}

// An equaliser with nothing staged.
fn equaliser(eq: Eq) -> Component
    ensures { result ≡ record { id = 3; pipe = 1; channels = 2; unit = Equaliser eq 0 0 } }
{
    Component {
        id: 3,
        pipe: 1,
        channels: 2,
        unit: Unit::Eq {
            eq,
            next: 0,
            remaining: 0,
        },
    }
}

fn in_parts(alloc: Global) -> Result<bool, NoMemory> {
    let mut registry = Registry::new(alloc)?;
    let mut region = match Region::new(alloc, 4160) {
        Ok(region) => region,
        Err(e) => {
            registry.close();
            return Err(e);
        }
    };
    let Ok(piece) = region.carve(4160) else {
        registry.close();
        region.close();
        return Ok(false);
    };
    match registry.add(equaliser(Eq::in_piece(piece))) {
        Ok(()) => (),
        Err(RegistryFull { component }) => {
            region.give(component.into_piece());
            registry.close();
            region.close();
            return Ok(false);
        }
    }
    let right = takes_its_parts(&mut registry);
    registry.remove(3, &mut region);
    registry.close();
    region.close();
    Ok(right)
}

#[test]
fn a_blob_comes_in_parts(rt: HostRuntime) {
    let right = in_parts(rt.alloc());
    assert!(rt; matches!(right, Ok(true)));
}
