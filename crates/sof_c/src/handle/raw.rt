// A box as its pointer.
ghost use Rattle.std.specs.Prelude.{◌≡◌};

use std::marker::Model;

/// The pointer of a box, with what the box owned.
pub struct Raw<T> {
    pub(super) at: *mut T,
    pub ghost value: { T },
}

impl<T> Model for Raw<T> {
    ghost use Rattle.sof_c.specs.Owned.{boxed_at};

    ghost also_owns = { λ r. boxed_at T.row r.at r.value };
}

impl<T> Raw<T> {
    /// Takes a box apart.
    pub fn of(whole: Box<T>) -> Raw<T>
    where
        T: Drop,
        ensures { result.value ≡ whole.value }
    {
        let at = Box::into_raw(whole);
        Raw { at }
    }
}
