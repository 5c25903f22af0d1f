// Walks along joins between places: what is marked is what they reach.
ghost use Rattle.std.specs.Prelude.{◌≡◌, ◌<◌, ◌≤◌, ℕ, [], Bool, true, false, length, slice_index_or};
ghost use Rattle.std.specs.List.{AllByRecursion};
ghost use Rattle.fw_places.specs.Walks.{near_of, far_of, IsClosed, IsWithin};
ghost use Rattle.fw_places.specs.Leaving.{no_join, last_from, HasLinks, AreFound, GoOn};

use arrayvec::ArrayVec;
use stream_law::Join;

/// Marks all places that walks reach along joins from those that are marked, or against them where they go back. Those that are marked
/// are those that are found so far.
pub(crate) fn spread(marks: &mut [bool], found: &mut ArrayVec<u16, 257>, joins: &[Join], back: bool)
    requires size { length marks.old ≡ 257 }
    requires few { length joins.now ≤ 256 }
    requires within { AllByRecursion (IsWithin 257) joins.now }
    requires found { AreFound marks.old found.old.items }
    ensures kept { (k : ℕ) → slice_index_or marks.old k false ≡ true → slice_index_or marks.new k false ≡ true }
    ensures closed { IsClosed back joins.now (λ k. slice_index_or marks.new k false) }
    ensures least { (p : ℕ → Bool) → IsClosed back joins.now p → ((k : ℕ) → slice_index_or marks.old k false ≡ true → p k ≡ true) → (k : ℕ) → slice_index_or marks.new k false ≡ true → p k ≡ true }
{
    if joins.is_empty() {
        return;
    }
    leave_all(marks, found, joins, back);
}

// The same by tables of the joins: each place that is found is left once, along each join that leaves it. Not inlined, since the caller
// would zero the tables even where there are no joins.
#[inline(never)]
fn leave_all(marks: &mut [bool], found: &mut ArrayVec<u16, 257>, joins: &[Join], back: bool)
    requires size { length marks.old ≡ 257 }
    requires few { length joins.now ≤ 256 }
    requires within { AllByRecursion (IsWithin 257) joins.now }
    requires found { AreFound marks.old found.old.items }
    ensures kept { (k : ℕ) → slice_index_or marks.old k false ≡ true → slice_index_or marks.new k false ≡ true }
    ensures closed { IsClosed back joins.now (λ k. slice_index_or marks.new k false) }
    ensures least { (p : ℕ → Bool) → IsClosed back joins.now p → ((k : ℕ) → slice_index_or marks.old k false ≡ true → p k ≡ true) → (k : ℕ) → slice_index_or marks.new k false ≡ true → p k ≡ true }
{
    let mut last = [0; 257];
    let mut before = [0; 256];
    link(joins, back, &mut last, &mut before);
    let mut i = 0;
    while i < found.len() {
        let place = found.as_slice()[i];
        let first = last[place as usize];
        leave(marks, found, joins, back, place, first, &before);
        i += 1;
    }
}

// Of each place the number of the last join that leaves it, from 1, and of each join that of the one before it that leaves the same
// place; 0 where there is none.
fn link(joins: &[Join], back: bool, last: &mut [u16], before: &mut [u16])
    requires few { length joins.now ≤ 256 }
    requires room { length joins.now ≤ length before.old }
    requires within { AllByRecursion (IsWithin (length last.old)) joins.now }
    requires none { (x : ℕ) → slice_index_or last.old x 0 ≡ 0 }
    ensures last { (x : ℕ) → slice_index_or last.new x 0 ≡ last_from back joins.now (length joins.now) x }
    ensures links { HasLinks back joins.now before.new }
{
    for k in 0..joins.len() {
        let from = near(joins[k], back) as usize;
        before[k] = last[from];
        last[from] = k as u16 + 1;
    }
}

/// Finds the places that are marked.
pub(crate) fn find_marked(marks: &[bool], found: &mut ArrayVec<u16, 257>)
    requires size { length marks.now ≡ 257 }
    requires none { found.old.items ≡ [] }
    ensures { AreFound marks.now found.new.items }
{
    for k in 0..marks.len() {
        if marks[k] {
            found.push(k as u16);
        }
    }
}

// Marks where the joins lead that leave a place.
fn leave(
    marks: &mut [bool],
    found: &mut ArrayVec<u16, 257>,
    joins: &[Join],
    back: bool,
    place: u16,
    first: u16,
    before: &[u16],
)
    requires size { length marks.old ≡ 257 }
    requires room { length joins.now ≤ length before.now }
    requires within { AllByRecursion (IsWithin 257) joins.now }
    requires links { HasLinks back joins.now before.now }
    requires first { first ≡ last_from back joins.now (length joins.now) place }
    requires place { slice_index_or marks.old place false ≡ true }
    requires found { AreFound marks.old found.old.items }
    ensures found { AreFound marks.new found.new.items }
    ensures on { GoOn marks.old marks.new found.old.items found.new.items }
    ensures left { (n : ℕ) → n < length joins.now → near_of back (slice_index_or joins.now n no_join) ≡ place → slice_index_or marks.new (far_of back (slice_index_or joins.now n no_join)) false ≡ true }
    ensures least { (p : ℕ → Bool) → IsClosed back joins.now p → ((k : ℕ) → slice_index_or marks.old k false ≡ true → p k ≡ true) → (k : ℕ) → slice_index_or marks.new k false ≡ true → p k ≡ true }
{
    let mut at = first;
    while at > 0 {
        let k = at as usize - 1;
        find(marks, found, far(joins[k], back));
        at = before[k];
    }
}

// Marks a place, which is found then, unless it is marked.
fn find(marks: &mut [bool], found: &mut ArrayVec<u16, 257>, place: u32)
    requires size { length marks.old ≡ 257 }
    requires place { place < 257 }
    requires found { AreFound marks.old found.old.items }
    ensures found { AreFound marks.new found.new.items }
    ensures on { GoOn marks.old marks.new found.old.items found.new.items }
    ensures place { slice_index_or marks.new place false ≡ true }
    ensures least { (p : ℕ → Bool) → p place ≡ true → ((k : ℕ) → slice_index_or marks.old k false ≡ true → p k ≡ true) → (k : ℕ) → slice_index_or marks.new k false ≡ true → p k ≡ true }
{
    if !marks[place as usize] {
        marks[place as usize] = true;
        found.push(place as u16);
    }
}

// The place that a join leaves.
fn near(join: Join, back: bool) -> u32
    ensures { result ≡ near_of back join }
{
    if back { join.sink } else { join.source }
}

// The place that it leads to.
fn far(join: Join, back: bool) -> u32
    ensures { result ≡ far_of back join }
{
    if back { join.source } else { join.sink }
}
