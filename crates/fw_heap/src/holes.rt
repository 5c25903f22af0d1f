//! The holes of a region, in ascending place. None touches the next.
ghost use Rattle.std.specs.Prelude.{◌≡◌, ℕ, ◌+◌, ◌*◌, ◌%◌, ◌^◌, ◌<◌, ◌≤◌, ◌++◌, Option, false, length, take, drop, slice_index_or, vec_len, vec_capacity, nat_lt, nat_le};
ghost use Rattle.std.specs.List.{position, insert};
ghost use denote.RawPtr.{Ptr};
ghost use Rattle.sof_base.specs.declared.hole.Hole.{Hole};
ghost use Rattle.sof_base.specs.Holes.{given, carved, shortened, fits};
ghost use Rattle.sof_base.specs.Spacing.{Spaced};
ghost use Rattle.fw_heap.specs.HoleList.{hole_at, span_of, spans, Ours, IsUnits, Clear, IsPlace, IsGap, IsFree};

use crate::free_run::FreeRun;
use crate::run::Run;

/// The first hole with `size` bytes.
pub(crate) fn find(holes: &Vec<FreeRun>, size: u32) -> Option<usize>
    ensures { result ≡ position (λ h. nat_le size h.size) holes.now.items }
{
    holes.iter().position(|h| size <= h.size)
}

/// Takes the first `size` bytes of the hole at `at`.
pub(crate) fn take_from(holes: &mut Vec<FreeRun>, at: usize, size: u32) -> (u32, Run)
    requires within { at < vec_len holes.old }
    requires size { (0 < size) × (size % 16 ≡ 0) × ((d : FreeRun) → size ≤ (slice_index_or holes.old.items at d).size) }
    ensures place { (d : FreeRun) → result.0 ≡ (slice_index_or holes.old.items at d).place }
    ensures run { (d : FreeRun) → (result.1.start ≡ (slice_index_or holes.old.items at d).run.start) × (result.1.first * 4 ≡ result.0) × (length result.1.items * 4 ≡ size) × (result.1.written ≡ false) }
    ensures spans { (d : Hole) → spans holes.new.items ≡ take at (spans holes.old.items) ++ shortened size (slice_index_or (spans holes.old.items) at d) (drop (at + 1) (spans holes.old.items)) }
    ensures spaced { (high : ℕ) → Spaced 0 high (spans holes.old.items) → Spaced 0 high (spans holes.new.items) }
    ensures ours { (p : Ptr) → Ours p holes.old.items → Ours p holes.new.items }
    ensures capacity { vec_capacity holes.new ≡ vec_capacity holes.old }
{
    if holes[at].size == size {
        let FreeRun {
            place,
            size: _,
            run,
        } = holes.remove(at);
        (place, run)
    } else {
        let hole = &mut holes[at];
        let place = hole.place;
        let run = hole.take_front(size);
        (place, run)
    }
}

/// The hole at `at` shares no word with the run. Nothing changes.
fn apart_at(holes: &mut Vec<FreeRun>, at: usize, run: &mut Run)
    requires within { at < vec_len holes.old }
    requires ours { Ours run.old.start holes.old.items }
    ensures same { (spans holes.new.items ≡ spans holes.old.items) × (vec_capacity holes.new ≡ vec_capacity holes.old) × (run.new ≡ run.old) }
    ensures ours { Ours run.old.start holes.new.items }
    ensures clear { (d : Hole) → Clear (hole_at (run.old.first * 4) (length run.old.items * 4)) (slice_index_or (spans holes.old.items) at d) }
{
    let other = &mut holes[at];
    run.apart(&mut other.run);
}

/// Joins `hole` to the hole before it, if they touch. What stands after it begins at the index that comes back.
fn join_before(holes: &mut Vec<FreeRun>, at: usize, hole: FreeRun) -> (usize, FreeRun)
    requires place { IsPlace at hole.place (spans holes.old.items) × Spaced 0 (2 ^ 32) (spans holes.old.items) × IsUnits (span_of hole) }
    requires ours { Ours hole.run.start holes.old.items }
    ensures same { given (span_of result.1) (spans holes.new.items) ≡ given (span_of hole) (spans holes.old.items) }
    ensures gap { IsGap result.0 (span_of result.1) (spans holes.new.items) × IsUnits (span_of result.1) × (result.1.place + result.1.size ≡ hole.place + hole.size) }
    ensures spaced { (high : ℕ) → Spaced 0 high (spans holes.old.items) → Spaced 0 high (spans holes.new.items) }
    ensures ours { (result.1.run.start ≡ hole.run.start) × Ours hole.run.start holes.new.items }
    ensures capacity { vec_capacity holes.new ≡ vec_capacity holes.old }
{
    if at == 0 {
        return (at, hole);
    }
    let mut hole = hole;
    apart_at(holes, at - 1, &mut hole.run);
    if holes[at - 1].end() < hole.place {
        return (at, hole);
    }
    let mut before = holes.remove(at - 1);
    before.append(hole);
    (at - 1, before)
}

/// Joins `hole` to the hole after it, if they touch.
fn join_after(holes: &mut Vec<FreeRun>, at: usize, hole: FreeRun) -> FreeRun
    requires gap { IsGap at (span_of hole) (spans holes.old.items) × Spaced 0 (2 ^ 32) (spans holes.old.items) × IsUnits (span_of hole) }
    requires ours { Ours hole.run.start holes.old.items }
    ensures same { given (span_of result) (spans holes.new.items) ≡ given (span_of hole) (spans holes.old.items) }
    ensures free { IsFree at (span_of result) (spans holes.new.items) × IsUnits (span_of result) × (result.place ≡ hole.place) }
    ensures ends { (high : ℕ) → Spaced 0 high (spans holes.old.items) → hole.place + hole.size ≤ high → Spaced 0 high (spans holes.new.items) × (result.place + result.size ≤ high) }
    ensures ours { (result.run.start ≡ hole.run.start) × Ours hole.run.start holes.new.items }
    ensures capacity { vec_capacity holes.new ≡ vec_capacity holes.old }
{
    if at == holes.len() {
        return hole;
    }
    let mut hole = hole;
    apart_at(holes, at, &mut hole.run);
    if hole.end() < holes[at].place {
        return hole;
    }
    let next = holes.remove(at);
    hole.append(next);
    hole
}

/// Puts `hole` at the index.
fn put(holes: &mut Vec<FreeRun>, at: usize, hole: FreeRun)
    requires free { IsFree at (span_of hole) (spans holes.old.items) }
    requires room { vec_len holes.old < vec_capacity holes.old }
    requires ours { Ours hole.run.start holes.old.items }
    ensures same { spans holes.new.items ≡ given (span_of hole) (spans holes.old.items) }
    ensures spans { spans holes.new.items ≡ insert (spans holes.old.items) at (span_of hole) }
    ensures ours { Ours hole.run.start holes.new.items }
    ensures capacity { vec_capacity holes.new ≡ vec_capacity holes.old }
{
    match holes.insert(at, hole) {
        Ok(()) => (),
        Err(_refused) => unreachable!(),
    }
}

/// The first hole that begins after `place`.
fn find_after(holes: &Vec<FreeRun>, place: u32) -> Option<usize>
    ensures { result ≡ position (λ h. nat_lt place h.place) holes.now.items }
{
    holes.iter().position(|h| place < h.place)
}

/// Its index, or else the number of holes.
fn index_after(holes: &Vec<FreeRun>, place: u32) -> usize
    ensures { IsPlace result place (spans holes.now.items) }
{
    match find_after(holes, place) {
        Some(at) => at,
        None => holes.len(),
    }
}

/// Adds `hole`, joined to the holes that it touches.
pub(crate) fn add(holes: &mut Vec<FreeRun>, hole: FreeRun)
    requires units { IsUnits (span_of hole) × Spaced 0 (2 ^ 32) (spans holes.old.items) }
    requires room { (high : ℕ) × Spaced 0 high (spans holes.old.items) × (hole.place + hole.size ≤ high) × (high + 46 ≤ 32 * vec_capacity holes.old) }
    requires ours { Ours hole.run.start holes.old.items }
    ensures same { spans holes.new.items ≡ given (span_of hole) (spans holes.old.items) }
    ensures spaced { (high : ℕ) → Spaced 0 high (spans holes.old.items) → hole.place + hole.size ≤ high → Spaced 0 high (spans holes.new.items) }
    ensures ours { Ours hole.run.start holes.new.items }
    ensures capacity { vec_capacity holes.new ≡ vec_capacity holes.old }
{
    let at = index_after(holes, hole.place);
    let (at, hole) = join_before(holes, at, hole);
    let hole = join_after(holes, at, hole);
    put(holes, at, hole);
}
