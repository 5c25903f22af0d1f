// Whether two lists are the same, item by item.
ghost use Rattle.std.specs.Prelude.{◌≡◌, Bool};
ghost use Rattle.tplg_same.specs.SameTest as law;

/// Items that can be compared.
pub trait Same {
    ghost same: { Self → Self → Bool };

    fn same(&self, other: &Self) -> bool
        ensures { result ≡ same self.now other.now };
}

/// Whether two lists are the same, item by item.
pub fn same_items<T: Same>(ones: &[T], others: &[T]) -> bool
    ensures { result ≡ law.same_list T.same ones.now others.now }
{
    if ones.len() != others.len() {
        return false;
    }
    for place in 0..ones.len() {
        if !ones[place].same(&others[place]) {
            return false;
        }
    }
    true
}
