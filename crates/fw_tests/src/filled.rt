// A registry that is filled, and what it has no room for.
ghost use Rattle.std.specs.Prelude.{◌≡◌, ◌≤◌};
ghost use Rattle.fw_units.specs.declared.component.Unit.TheVariants.{Mixer};
ghost use Rattle.fw_tests.specs.Filled.{IsFilled, rest_behind};

use fw_components::{Component, Registry, RegistryFull, Unit};
use fw_heap::{Piece, Region};
use sof_base::NoMemory;
use std::alloc::Global;

// A mixer in a piece.
fn mixer(id: u32, piece: Piece) -> Component
    ensures { result ≡ record { id = id; pipe = 1; channels = 2; unit = Mixer piece } }
{
    Component {
        id,
        pipe: 1,
        channels: 2,
        unit: Unit::Mixer { piece },
    }
}

// Adds mixers, of this id and of those after it, until there are 128, and then one more. It tells whether that one came back with its
// id and its piece. All are removed again, and their pieces given back.
fn is_filled(registry: &mut Registry, region: &mut Region, id: u32) -> bool
    requires registry { IsFilled id registry.old }
    requires region { region.old.holes ≡ rest_behind id }
    ensures registry { registry.new ≡ registry.old }
    ensures region { region.new ≡ region.old }
{
    if id > 128 {
        return false;
    }
    let Ok(piece) = region.carve(16) else {
        return false;
    };
    match registry.add(mixer(id, piece)) {
        Ok(()) => {
            let right = is_filled(registry, region, id + 1);
            registry.remove(id, region);
            right
        }
        Err(RegistryFull { component }) => {
            let right = id == 128 && component.id == 128 && registry.len() == 128;
            let piece = component.into_piece();
            let back = piece.place() == 2048 && piece.size() == 16;
            region.give(piece);
            right && back && region.used() == 2048
        }
    }
}

// A registry is filled with 128 components, and is empty again.
fn filled(alloc: Global) -> Result<bool, NoMemory> {
    let mut registry = Registry::new(alloc)?;
    let mut region = match Region::new(alloc, 2080) {
        Ok(region) => region,
        Err(e) => {
            registry.close();
            return Err(e);
        }
    };
    let right = is_filled(&mut registry, &mut region, 0);
    registry.close();
    region.close();
    Ok(right)
}

#[test]
fn a_full_registry_hands_back_what_is_added(rt: HostRuntime) {
    let right = filled(rt.alloc());
    assert!(rt; matches!(right, Ok(true)));
}
