// A list of a greatest length.
ghost use Rattle.std.specs.Prelude.{◌≡◌, ◌≤◌, length, nat_le, Some, None, [], if◌then◌else◌};

use arrayvec::ArrayVec;
use std::marker::Model;

/// At most `MOST` items, in memory of its own. Contracts see the list of its items.
#[derive(Debug, Drop)]
pub struct Bounded<T: Copy + Default, const MOST: usize> {
    items: ArrayVec<T, MOST>,
}

impl<T: Copy + Default, const MOST: usize> Model for Bounded<T, MOST> {
    ghost use Rattle.std.specs.Prelude.{List, ◌≤◌, length};

    ghost Value = { List T };

    ghost view = { λ a. a.items.items };

    ghost invariant = { λ a. length a.items.items ≤ MOST };
}

impl<T: Copy + Default, const MOST: usize> Bounded<T, MOST> {
    /// These items; none where there are more than `MOST` of them.
    pub fn new(items: &[T]) -> Option<Bounded<T, MOST>>
        ensures { result ≡ (if nat_le (length items.now) MOST then Some items.now else None) }
    {
        let mut list = ArrayVec::new();
        match list.try_extend_from_slice(items) {
            Ok(()) => Some(Bounded { items: list }),
            Err(_) => None,
        }
    }

    /// No items.
    pub fn empty() -> Bounded<T, MOST>
        ensures { result ≡ [] }
    {
        Bounded {
            items: ArrayVec::new(),
        }
    }

    pub fn items(&self) -> &[T]
        ensures value { result.now ≡ self.now }
        ensures fits { length self.now ≤ MOST }
    {
        self.items.as_slice()
    }

    /// The same items again.
    pub fn copied(&self) -> Bounded<T, MOST>
        ensures { result ≡ self.now }
    {
        let mut items = ArrayVec::new();
        for item in self.items.as_slice() {
            items.push(*item);
        }
        Bounded { items }
    }
}
