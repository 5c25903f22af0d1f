// Where the components of a table were seen: guesses that a lookup tests, since a table may have changed.
ghost use Rattle.std.specs.Prelude.{◌≡◌, ◌==◌, ◌<◌, true, Some, length, position};
ghost use Rattle.stream_law.specs.Placed.{Ascends};
ghost use Rattle.fw_units.specs.Changes.{has_id};

use crate::component::Component;
use crate::table::place_by_halves;

/// By the last byte of an id the place at which it was seen. Any place will do: one that is wrong costs a search.
#[derive(Drop)]
pub struct Hints {
    places: [u8; 256],
}

impl Hints {
    pub fn new() -> Hints {
        Hints { places: [0; 256] }
    }

    /// Notes where each component stands.
    pub fn renew(&mut self, components: &[Component]) {
        for (i, component) in components.iter().enumerate() {
            self.places[(component.id % 256) as usize] = (i % 256) as u8;
        }
    }

    /// The place of the component of an id.
    #[inline]
    pub fn place_of(&self, components: &[Component], id: u32) -> Option<usize>
        requires { Ascends (λ c. c.id) components.now }
        ensures { result ≡ position (λ c. c.id == id) components.now }
    {
        let seen = usize::from(self.places[(id % 256) as usize]);
        if seen < components.len() && components[seen].id == id {
            return Some(seen);
        }
        place_by_halves(components, id)
    }
    /// The place of the component of an id that is there.
    #[inline]
    pub fn place(&self, components: &[Component], id: u32) -> usize
        requires ascends { Ascends (λ c. c.id) components.now }
        requires there { has_id components.now id ≡ true }
        ensures place { Some result ≡ position (λ c. c.id == id) components.now }
        ensures within { result < length components.now }
    {
        match self.place_of(components, id) {
            Some(at) => at,
            None => unreachable!(),
        }
    }
}
