// The first buffers that come from a component and go to it.
ghost use Rattle.std.specs.Prelude.{◌≡◌, find, position, option_map};
ghost use Rattle.fw_units.specs.Frames.{comes_from, goes_to};

use crate::component::Component;

// The place of the first buffer that comes from this component.
fn place_from(buffers: &[Component], id: u32) -> Option<usize>
    ensures { result ≡ position (comes_from id) buffers.now }
{
    buffers.iter().position(|buffer| buffer.comes_from(id))
}

// The place of the first buffer that goes to this component.
fn place_to(buffers: &[Component], id: u32) -> Option<usize>
    ensures { result ≡ position (goes_to id) buffers.now }
{
    buffers.iter().position(|buffer| buffer.goes_to(id))
}

/// The id of the first buffer that comes from this component.
pub fn out_of(buffers: &[Component], id: u32) -> Option<u32>
    ensures { result ≡ option_map (λ c. c.id) (find (comes_from id) buffers.now) }
{
    match place_from(buffers, id) {
        Some(at) => Some(buffers[at].id),
        None => None,
    }
}

/// The id of the first buffer that goes to this component.
pub fn in_of(buffers: &[Component], id: u32) -> Option<u32>
    ensures { result ≡ option_map (λ c. c.id) (find (goes_to id) buffers.now) }
{
    match place_to(buffers, id) {
        Some(at) => Some(buffers[at].id),
        None => None,
    }
}
