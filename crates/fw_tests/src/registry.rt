// A registry with nothing in it, one with a host, one with a host and a buffer that it feeds and pulls from, and one with a mixer between
// two buffers.
ghost use Rattle.std.specs.Prelude.{◌≡◌, ◌≤◌, None, true, false, [], if◌then◌else◌};
ghost use Rattle.stream_law.specs.declared.stream.Phase.TheVariants.{Idle};
ghost use Rattle.fw_units.specs.declared.component.Unit.TheVariants.{Host, Buffer, Mixer};
ghost use Rattle.fw_units.specs.Changes.{IsOfHome, given_by};
ghost use Rattle.fw_components.specs.Changes.{added, is_there, IsNew, has_new_index};

use fw_components::{Component, Registry, RegistryFull, Unit};
use fw_heap::{Piece, Region};
use fw_ring::Ring;
use sof_base::{Errno, Format, NoMemory, Params};
use std::alloc::Global;
use stream_law::Phase;

// Nothing is found, read or set in an empty registry.
fn nothing(alloc: Global) -> Result<bool, NoMemory> {
    let mut registry = Registry::new(alloc)?;
    let mut right = registry.len() == 0 && registry.find(1).is_none();
    right = right && registry.join_at(0).is_none();
    right = right && matches!(registry.values(1, 0), Err(Errno::NO_DEVICE));
    right = right && matches!(registry.set_values(1, 0, &[1]), Err(Errno::NO_DEVICE));
    registry.close();
    Ok(right)
}

// A host in a piece of 64 bytes.
fn host(piece: Piece) -> Component
    ensures { result ≡ record { id = 3; pipe = 1; channels = 2; unit = Host false Idle None piece } }
{
    Component {
        id: 3,
        pipe: 1,
        channels: 2,
        unit: Unit::Host {
            capture: false,
            phase: Phase::Idle,
            params: None,
            piece,
        },
    }
}

// A mixer in a piece of 64 bytes.
fn mixer(piece: Piece) -> Component
    ensures { result ≡ record { id = 4; pipe = 1; channels = 2; unit = Mixer piece } }
{
    Component {
        id: 4,
        pipe: 1,
        channels: 2,
        unit: Unit::Mixer { piece },
    }
}

// A buffer of 32 bytes in a piece of 64: there is room for four frames of two channels.
fn buffer(id: u32, piece: Piece) -> Component
    requires { 64 ≤ piece.size }
    ensures { result ≡ record { id = id; pipe = 1; channels = 2; unit = Buffer 32 (record { frames = []; words = 8; channels = 2; start = 0; piece = piece }) None None } }
{
    Component {
        id,
        pipe: 1,
        channels: 2,
        unit: Unit::Buffer {
            size: 32,
            ring: Ring::over(piece, 8, 2),
            source: None,
            sink: None,
        },
    }
}

// Adds a component, or gives its piece back to the region.
fn add_or_give_back(registry: &mut Registry, region: &mut Region, component: Component) -> bool
    requires id { is_there registry.old component.id ≡ false }
    requires unit { IsNew component.unit }
    requires index { has_new_index component registry.old ≡ true }
    requires piece { IsOfHome region.old.home component }
    ensures tables { registry.new ≡ (if result then added component registry.old else registry.old) }
    ensures region { region.new ≡ (if result then region.old else record region.old { holes = given_by component region.old.holes }) }
{
    match registry.add(component) {
        Ok(()) => true,
        Err(RegistryFull { component }) => {
            region.give(component.into_piece());
            false
        }
    }
}

// A host is added, found, paused, counted and removed, and its piece comes back.
fn one_host(alloc: Global) -> Result<bool, NoMemory> {
    let mut registry = Registry::new(alloc)?;
    let mut region = match Region::new(alloc, 64) {
        Ok(region) => region,
        Err(e) => {
            registry.close();
            return Err(e);
        }
    };
    let Ok(piece) = region.carve(64) else {
        registry.close();
        region.close();
        return Ok(false);
    };
    let params = Params {
        rate: 48000,
        channels: 4,
        format: Format::S16,
    };
    let mut right = false;
    if add_or_give_back(&mut registry, &mut region, host(piece)) {
        right = registry.len() == 1 && registry.find(3) == Some(0);
        registry.set_stream(3, Phase::Paused, Some(params));
        right = right && registry.at(0).id == 3;
        right = right && registry.counts(3) == (0, 1);
        right = right && registry.live_params(3) == Some(params);
        registry.remove(3, &mut region);
    }
    right = right && registry.len() == 0 && region.used() == 0;
    registry.close();
    region.close();
    Ok(right)
}

// Four frames of two channels, of 32 bits: 1 and 2, 3 and 4, and so on.
static FRAMES: [u8; 32] = [
    1, 0, 0, 0, 2, 0, 0, 0, 3, 0, 0, 0, 4, 0, 0, 0, 5, 0, 0, 0, 6, 0, 0, 0, 7, 0, 0, 0, 8, 0, 0, 0,
];

// Four frames of two channels are put into a buffer, the first is taken, and the buffer is empty once it ends.
fn fed_by_a_host(alloc: Global) -> Result<bool, NoMemory> {
    let mut registry = Registry::new(alloc)?;
    let mut region = match Region::new(alloc, 128) {
        Ok(region) => region,
        Err(e) => {
            registry.close();
            return Err(e);
        }
    };
    let Ok(first) = region.carve(64) else {
        registry.close();
        region.close();
        return Ok(false);
    };
    let Ok(second) = region.carve(64) else {
        region.give(first);
        registry.close();
        region.close();
        return Ok(false);
    };
    let params = Params {
        rate: 48000,
        channels: 2,
        format: Format::S16,
    };
    if !add_or_give_back(&mut registry, &mut region, host(first)) {
        region.give(second);
        registry.close();
        region.close();
        return Ok(false);
    }
    if !add_or_give_back(&mut registry, &mut region, buffer(5, second)) {
        registry.remove(3, &mut region);
        registry.close();
        region.close();
        return Ok(false);
    }
    registry.join(3, 5);
    registry.begin(5, params);
    registry.push_bytes(5, 0, Format::S32, 4, &FRAMES);
    let (front, back) = registry.spans(5, 0, 1);
    let right = front == [1, 2].as_slice() && back.is_empty();
    registry.shorten(5, 0, 1);
    let held = registry.held(5);
    let free = registry.free(5);
    registry.end(5);
    let left = registry.held(5);
    registry.remove(5, &mut region);
    registry.remove(3, &mut region);
    registry.close();
    region.close();
    Ok(right && held == 3 && free == 1 && left == 0)
}

// A buffer comes from a host and goes back to it. The host feeds three frames of two channels, and pulls the first two of them.
fn fed_and_pulled(alloc: Global) -> Result<(bool, bool), NoMemory> {
    let mut registry = Registry::new(alloc)?;
    let mut region = match Region::new(alloc, 128) {
        Ok(region) => region,
        Err(e) => {
            registry.close();
            return Err(e);
        }
    };
    let Ok(first) = region.carve(64) else {
        registry.close();
        region.close();
        return Ok((false, false));
    };
    let Ok(second) = region.carve(64) else {
        region.give(first);
        registry.close();
        region.close();
        return Ok((false, false));
    };
    let params = Params {
        rate: 48000,
        channels: 2,
        format: Format::S16,
    };
    if !add_or_give_back(&mut registry, &mut region, host(first)) {
        region.give(second);
        registry.close();
        region.close();
        return Ok((false, false));
    }
    if !add_or_give_back(&mut registry, &mut region, buffer(5, second)) {
        registry.remove(3, &mut region);
        registry.close();
        region.close();
        return Ok((false, false));
    }
    registry.join(3, 5);
    registry.join(5, 3);
    registry.begin(5, params);
    registry.feed(3, &[1, 2, 3, 4, 5, 6]);
    let (front, back) = registry.spans(5, 0, 3);
    let fed = front == [1, 2, 3, 4, 5, 6].as_slice() && back.is_empty();
    let mut samples = [0; 4];
    registry.pull(3, &mut samples);
    let pulled = samples == [1, 2, 3, 4] && registry.held(5) == 1;
    registry.remove(5, &mut region);
    registry.remove(3, &mut region);
    registry.close();
    region.close();
    Ok((fed, pulled))
}

// A mixer takes two frames of three from one buffer, and puts them into another.
fn moved_by_a_mixer(alloc: Global) -> Result<bool, NoMemory> {
    let mut registry = Registry::new(alloc)?;
    let mut region = match Region::new(alloc, 192) {
        Ok(region) => region,
        Err(e) => {
            registry.close();
            return Err(e);
        }
    };
    let Ok(first) = region.carve(64) else {
        registry.close();
        region.close();
        return Ok(false);
    };
    let Ok(second) = region.carve(64) else {
        region.give(first);
        registry.close();
        region.close();
        return Ok(false);
    };
    let Ok(third) = region.carve(64) else {
        region.give(first);
        region.give(second);
        registry.close();
        region.close();
        return Ok(false);
    };
    let params = Params {
        rate: 48000,
        channels: 2,
        format: Format::S16,
    };
    if !add_or_give_back(&mut registry, &mut region, mixer(first)) {
        region.give(second);
        region.give(third);
        registry.close();
        region.close();
        return Ok(false);
    }
    if !add_or_give_back(&mut registry, &mut region, buffer(5, second)) {
        region.give(third);
        registry.remove(4, &mut region);
        registry.close();
        region.close();
        return Ok(false);
    }
    if !add_or_give_back(&mut registry, &mut region, buffer(6, third)) {
        registry.remove(5, &mut region);
        registry.remove(4, &mut region);
        registry.close();
        region.close();
        return Ok(false);
    }
    registry.begin(5, params);
    registry.begin(6, params);
    registry.push_bytes(5, 0, Format::S32, 3, &FRAMES[..24]);
    registry.process(4, &[5], &[6], 2);
    let (front, back) = registry.spans(6, 1, 2);
    let moved = front == [1, 2, 3, 4].as_slice() && back.is_empty();
    let left = registry.held(5) == 1 && registry.held(6) == 2;
    registry.remove_all(&mut region);
    registry.close();
    region.close();
    Ok(moved && left)
}

#[test]
fn an_empty_registry_tells_nothing(rt: HostRuntime) {
    let right = nothing(rt.alloc());
    assert!(rt; matches!(right, Ok(true)));
}

#[test]
fn a_host_comes_and_goes(rt: HostRuntime) {
    let right = one_host(rt.alloc());
    assert!(rt; matches!(right, Ok(true)));
}

#[test]
fn a_host_feeds_a_buffer(rt: HostRuntime) {
    let right = fed_by_a_host(rt.alloc());
    assert!(rt; matches!(right, Ok(true)));
}

#[test]
fn what_is_fed_stands_in_the_buffer(rt: HostRuntime) {
    let moved = fed_and_pulled(rt.alloc());
    assert!(rt; matches!(moved, Ok((true, _))));
}

#[test]
fn what_is_pulled_leaves_the_buffer(rt: HostRuntime) {
    let moved = fed_and_pulled(rt.alloc());
    assert!(rt; matches!(moved, Ok((_, true))));
}

#[test]
fn a_mixer_moves_frames_from_one_buffer_into_another(rt: HostRuntime) {
    let moved = moved_by_a_mixer(rt.alloc());
    assert!(rt; matches!(moved, Ok(true)));
}
