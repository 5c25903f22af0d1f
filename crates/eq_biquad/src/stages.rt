// One section of each of two channels that lie side by side, for a sample of each.
ghost use Rattle.std.specs.Prelude.{◌≡◌, [], ◌∷◌, ◌+◌, ◌*◌, ◌≤◌, ◌^◌, ◌+ℤ◌, ◌*ℤ◌, pos, nat_abs, true, FitsSigned};
ghost use Rattle.std.specs.Int.{w32, w64};
ghost use Rattle.sof_base.specs.Blob as form;
ghost use Rattle.sof_base.specs.Equations.{section_output};
ghost use Rattle.stream_law.specs.Equaliser.{next_inner};
ghost use Rattle.eq_blob.specs.Sections.{law_section};
ghost use Rattle.eq_biquad.specs.Pairs.{left_number, right_number, BothAre, IsClear};
ghost use Rattle.eq_biquad.specs.PairForms.{FitsBeside, HaveUnitGains, AreNear, GoesThrough, left_first, right_first, left_numbers, right_numbers};

use crate::arithmetic::{bits_of, rescaled};
use crate::pair_arithmetic::{
    ahead_both, both, inner_both, inner_taken, parts, second_both, times_both,
};
use eq_blob::Section;
use std::simd::prelude::*;

/// The parts of two sections' numbers in 64 bits, as `Near` has those of one: the left ones are of a channel, the right ones of
/// the channel after it.
#[derive(Clone, Copy)]
pub struct NearPair {
    pub fed: i64x2,
    pub ahead: i64x2,
    pub second: i64x2,
}

/// The parts of the numbers after two inputs, each of its section, and the outputs.
#[inline(always)]
pub fn stage(
    left: Section,
    right: Section,
    plain: bool,
    near: NearPair,
    x: i32x2,
) -> (NearPair, i32x2)
    requires plain { plain ≡ true → HaveUnitGains (law_section left) (law_section right) }
    requires beside { FitsBeside (law_section left) × FitsBeside (law_section right) }
    requires near { AreNear (law_section left) (law_section right) near }
    requires inputs { BothAre (FitsSigned w32) x }
    ensures left { GoesThrough (law_section left ∷ []) (left_numbers near) (left_number x) (left_numbers result.0) (left_number result.1) }
    ensures right { GoesThrough (law_section right ∷ []) (right_numbers near) (right_number x) (right_numbers result.0) (right_number result.1) }
    ensures near { AreNear (law_section left) (law_section right) result.0 }
    ensures outputs { BothAre (FitsSigned w32) result.1 }
{
    let w = next_inners(left, right, near, x);
    (
        next_parts(left, right, near.second, x, w),
        outputs(left, right, plain, w),
    )
}

/// The same where no sum is held, and the marks that tell it.
#[inline(always)]
pub fn stage_taken(
    left: Section,
    right: Section,
    plain: bool,
    near: NearPair,
    x: i32x2,
) -> (NearPair, i32x2, i64x2)
    requires plain { plain ≡ true → HaveUnitGains (law_section left) (law_section right) }
    requires beside { FitsBeside (law_section left) × FitsBeside (law_section right) }
    requires near { AreNear (law_section left) (law_section right) near }
    requires inputs { BothAre (FitsSigned w32) x }
    ensures left { IsClear (left_number result.2) → GoesThrough (law_section left ∷ []) (left_numbers near) (left_number x) (left_numbers result.0) (left_number result.1) }
    ensures right { IsClear (right_number result.2) → GoesThrough (law_section right ∷ []) (right_numbers near) (right_number x) (right_numbers result.0) (right_number result.1) }
    ensures near { AreNear (law_section left) (law_section right) result.0 }
    ensures outputs { BothAre (FitsSigned w32) result.1 }
    ensures marks { BothAre (FitsSigned w64) result.2 }
{
    let inner = inners_taken(left, right, near, x);
    (
        next_parts(left, right, near.second, x, inner.0),
        outputs(left, right, plain, inner.0),
        inner.1,
    )
}

/// The next inner values.
#[inline(always)]
fn next_inners(left: Section, right: Section, near: NearPair, x: i32x2) -> i32x2
    requires beside { FitsBeside (law_section left) × FitsBeside (law_section right) }
    requires near { AreNear (law_section left) (law_section right) near }
    requires inputs { BothAre (FitsSigned w32) x }
    ensures { result ≡ next_inner (law_section left) (left_first near) (left_number x) ∷ next_inner (law_section right) (right_first near) (right_number x) ∷ [] }
{
    inner_both(both(left.b0, right.b0), near.fed, near.ahead, x)
}

/// The same where no sum is held, and their marks.
#[inline(always)]
fn inners_taken(left: Section, right: Section, near: NearPair, x: i32x2) -> (i32x2, i64x2)
    requires beside { FitsBeside (law_section left) × FitsBeside (law_section right) }
    requires near { AreNear (law_section left) (law_section right) near }
    requires inputs { BothAre (FitsSigned w32) x }
    ensures left { IsClear (left_number result.1) → left_number result.0 ≡ next_inner (law_section left) (left_first near) (left_number x) }
    ensures right { IsClear (right_number result.1) → right_number result.0 ≡ next_inner (law_section right) (right_first near) (right_number x) }
    ensures fit { BothAre (FitsSigned w32) result.0 }
    ensures marks { BothAre (FitsSigned w64) result.1 }
{
    inner_taken(both(left.b0, right.b0), near.fed, near.ahead, x)
}

/// The parts of the next numbers, from the second numbers, the inputs and the inner values.
#[inline(always)]
fn next_parts(left: Section, right: Section, second: i64x2, x: i32x2, w: i32x2) -> NearPair
    requires beside { FitsBeside (law_section left) × FitsBeside (law_section right) }
    requires second { BothAre (FitsSigned w64) second }
    requires within { (nat_abs (left_number second) ≤ (nat_abs left.b2 + nat_abs left.a2) * 2 ^ 31) × (nat_abs (right_number second) ≤ (nat_abs right.b2 + nat_abs right.a2) * 2 ^ 31) }
    requires inputs { BothAre (FitsSigned w32) x }
    requires inner { BothAre (FitsSigned w32) w }
    ensures ahead { result.ahead ≡ (((left.b1 *ℤ left_number x) +ℤ left_number second) +ℤ pos 536870912) ∷ (((right.b1 *ℤ right_number x) +ℤ right_number second) +ℤ pos 536870912) ∷ [] }
    ensures fed { result.fed ≡ (left.a1 *ℤ left_number w) ∷ (right.a1 *ℤ right_number w) ∷ [] }
    ensures second { result.second ≡ ((left.b2 *ℤ left_number x) +ℤ (left.a2 *ℤ left_number w)) ∷ ((right.b2 *ℤ right_number x) +ℤ (right.a2 *ℤ right_number w)) ∷ [] }
{
    NearPair {
        ahead: ahead_both(both(left.b1, right.b1), x, second),
        fed: times_both(both(left.a1, right.a1), w),
        second: second_both(both(left.b2, right.b2), x, both(left.a2, right.a2), w),
    }
}

/// The outputs of two inner values.
#[inline(always)]
fn outputs(left: Section, right: Section, plain: bool, w: i32x2) -> i32x2
    requires plain { plain ≡ true → HaveUnitGains (law_section left) (law_section right) }
    requires beside { FitsBeside (law_section left) × FitsBeside (law_section right) }
    requires inner { BothAre (FitsSigned w32) w }
    ensures { result ≡ section_output (law_section left) (left_number w) ∷ section_output (law_section right) (right_number w) ∷ [] }
{
    if plain {
        return w;
    }
    let inner = parts(w);
    let one = output(left, inner[0]);
    let other = output(right, inner[1]);
    both(one, other)
}

/// The output of an inner value.
#[inline(always)]
fn output(section: Section, w: i32) -> i32
    requires { form.is_shift section.shift ≡ true }
    ensures { result ≡ section_output (law_section section) w }
{
    rescaled(w, section.gain, bits_of(&section))
}
