// The numbers of sections of two channels, in words and in 64 bits.
ghost use Rattle.std.specs.Prelude.{◌≡◌, ℕ, [], ◌∷◌, ◌+◌, ◌-◌, ◌*◌, ◌≤◌, ◌<◌, ◌^◌, ◌+ℤ◌, ◌-ℤ◌, pos, length, nat_abs, true, FitsSigned, IfSome};
ghost use Rattle.sof_base.specs.Blob as form;
ghost use Rattle.sof_base.specs.Samples.{sample_of};
ghost use Rattle.eq_biquad.specs.PieceWords.{numbers_at, AreNumbers};
ghost use Rattle.eq_blob.specs.Sections.{law_section};
ghost use Rattle.eq_biquad.specs.Stretches.{IsElsewhere};
ghost use Rattle.eq_biquad.specs.Pairs.{left_number, right_number};
ghost use Rattle.eq_biquad.specs.PairForms.{FitsBeside, AreBeside, ArePartsOf, AreNear, AreNearSeries, left_first, right_first, left_numbers, right_numbers, left_series, right_series};

use crate::arithmetic::fits_beside;
use crate::numbers::{Numbers, numbers_in, put_numbers};
use crate::pair_arithmetic::{wide_both, wide_parts};
use crate::side_by_side::{NearSeries, Series};
use crate::stages::NearPair;
use eq_blob::Section;

/// The parts of the numbers of two sections of each of two channels, where 64 bits hold all that comes of them. Those of the left
/// channel stand from a slot on, those of the right one eight slots after.
pub fn near_series(left: &Series, right: &Series, words: &[i32], slot: usize) -> Option<NearSeries>
    requires there { (slot + 10 ≤ 64) × (length words.now ≡ 512) }
    requires numbers { AreNumbers words.now }
    requires shifts { ((form.is_shift left.now.first.shift ≡ true) × (form.is_shift left.now.second.shift ≡ true)) × ((form.is_shift right.now.first.shift ≡ true) × (form.is_shift right.now.second.shift ≡ true)) }
    ensures left { IfSome result (λ near. left_series near ≡ numbers_at words.now (8 * slot) 2) }
    ensures right { IfSome result (λ near. right_series near ≡ numbers_at words.now (8 * slot + 64) 2) }
    ensures beside { IfSome result (λ near. AreBeside left.now right.now) }
    ensures near { IfSome result (λ near. AreNearSeries left.now right.now near) }
{
    let first = near_pair(&left.first, &right.first, words, slot)?;
    let second = near_pair(&left.second, &right.second, words, slot + 1)?;
    Some(NearSeries { first, second })
}

/// The same of one section of each.
fn near_pair(left: &Section, right: &Section, words: &[i32], slot: usize) -> Option<NearPair>
    requires there { (slot + 9 ≤ 64) × (length words.now ≡ 512) }
    requires numbers { AreNumbers words.now }
    requires shifts { (form.is_shift left.now.shift ≡ true) × (form.is_shift right.now.shift ≡ true) }
    ensures left { IfSome result (λ near. left_numbers near ≡ numbers_at words.now (8 * slot) 1) }
    ensures right { IfSome result (λ near. right_numbers near ≡ numbers_at words.now (8 * slot + 64) 1) }
    ensures beside { IfSome result (λ near. FitsBeside (law_section left.now) × FitsBeside (law_section right.now)) }
    ensures near { IfSome result (λ near. AreNear (law_section left.now) (law_section right.now) near) }
{
    let one = numbers_in(words, 8 * slot);
    let other = numbers_in(words, 8 * slot + 64);
    let left_fits = fits_beside(left, one);
    let right_fits = fits_beside(right, other);
    if left_fits && right_fits {
        return Some(parts_of(one, other));
    }
    None
}

/// Numbers in parts.
fn parts_of(left: Numbers, right: Numbers) -> NearPair
    requires firsts { (nat_abs left.first ≤ 2 ^ 63 - 2 ^ 30) × (nat_abs right.first ≤ 2 ^ 63 - 2 ^ 30) }
    requires seconds { (nat_abs left.second < 2 ^ 63) × (nat_abs right.second < 2 ^ 63) }
    ensures fed { result.fed ≡ pos 0 ∷ pos 0 ∷ [] }
    ensures ahead { result.ahead ≡ (left.first +ℤ pos 536870912) ∷ (right.first +ℤ pos 536870912) ∷ [] }
    ensures second { result.second ≡ left.second ∷ right.second ∷ [] }
{
    NearPair {
        fed: wide_both(0, 0),
        ahead: wide_both(ahead_of(left.first), ahead_of(right.first)),
        second: wide_both(left.second as i64, right.second as i64),
    }
}

/// A first number and the 2^29 that rounds.
fn ahead_of(first: i128) -> i64
    requires { nat_abs first ≤ 2 ^ 63 - 2 ^ 30 }
    ensures { result ≡ first +ℤ pos 536870912 }
{
    first as i64 + 536870912
}

/// Writes the numbers of two sections of each of two channels from a slot on, and eight slots after.
pub fn put_series(words: &mut [i32], slot: usize, near: NearSeries)
    requires there { (slot + 10 ≤ 64) × (length words.old ≡ 512) }
    requires numbers { AreNumbers words.old }
    requires first { ArePartsOf near.first }
    requires second { ArePartsOf near.second }
    ensures left { numbers_at words.new (8 * slot) 2 ≡ left_series near }
    ensures right { numbers_at words.new (8 * slot + 64) 2 ≡ right_series near }
    ensures others { (i : ℕ) → IsElsewhere slot 2 i → IsElsewhere (slot + 8) 2 i → sample_of words.new i ≡ sample_of words.old i }
    ensures within { AreNumbers words.new }
{
    put_pair(words, slot, near.first);
    put_pair(words, slot + 1, near.second);
}

/// The same of one section of each.
fn put_pair(words: &mut [i32], slot: usize, near: NearPair)
    requires there { (slot + 9 ≤ 64) × (length words.old ≡ 512) }
    requires numbers { AreNumbers words.old }
    requires near { ArePartsOf near }
    ensures left { numbers_at words.new (8 * slot) 1 ≡ left_numbers near }
    ensures right { numbers_at words.new (8 * slot + 64) 1 ≡ right_numbers near }
    ensures others { (i : ℕ) → IsElsewhere slot 1 i → IsElsewhere (slot + 8) 1 i → sample_of words.new i ≡ sample_of words.old i }
    ensures within { AreNumbers words.new }
{
    let numbers = numbers_of(near);
    put_numbers(words, 8 * slot, numbers.0);
    put_numbers(words, 8 * slot + 64, numbers.1);
}

/// The numbers of both from their parts.
fn numbers_of(near: NearPair) -> (Numbers, Numbers)
    requires { ArePartsOf near }
    ensures left { (result.0.first ≡ left_first near) × (result.0.second ≡ left_number near.second) }
    ensures right { (result.1.first ≡ right_first near) × (result.1.second ≡ right_number near.second) }
{
    let ahead = wide_parts(near.ahead);
    let fed = wide_parts(near.fed);
    let second = wide_parts(near.second);
    (
        joined(ahead[0], fed[0], second[0]),
        joined(ahead[1], fed[1], second[1]),
    )
}

/// Two numbers from their parts in 64 bits.
fn joined(ahead: i64, fed: i64, second: i64) -> Numbers
    ensures first { result.first ≡ (ahead +ℤ fed) -ℤ pos 536870912 }
    ensures second { result.second ≡ second }
{
    Numbers {
        first: i128::from(ahead) + i128::from(fed) - 536870912,
        second: i128::from(second),
    }
}
