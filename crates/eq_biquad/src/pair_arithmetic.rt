// Two numbers side by side, one of a channel and one of the channel after it. Each operation is one for both.
ghost use Rattle.std.specs.Prelude.{◌≡◌, [], ◌∷◌, ◌+◌, ◌*◌, ◌<◌, ◌≤◌, ◌^◌, ◌+ℤ◌, ◌*ℤ◌, pos, length, nat_abs, true, FitsSigned};
ghost use Rattle.std.specs.Int.{w32, w64};
ghost use Rattle.eq_biquad.specs.Pairs.{left_number, right_number, BothAre, BothMeet, inner_of_sum, HasRoomToRound, IsClear};

use std::simd::prelude::*;

/// Two numbers of 32 bits.
pub fn both(one: i32, two: i32) -> i32x2
    ensures { result ≡ one ∷ two ∷ [] }
{
    i32x2::from_array([one, two])
}

/// Two numbers of 64 bits.
pub fn wide_both(one: i64, two: i64) -> i64x2
    ensures { result ≡ one ∷ two ∷ [] }
{
    i64x2::from_array([one, two])
}

/// Both of two numbers of 32 bits.
pub fn parts(pair: i32x2) -> [i32; 2]
    requires { BothAre (FitsSigned w32) pair }
    ensures { result ≡ pair }
{
    pair.to_array()
}

/// Both of two numbers of 64 bits.
pub fn wide_parts(pair: i64x2) -> [i64; 2]
    requires { BothAre (FitsSigned w64) pair }
    ensures { result ≡ pair }
{
    pair.to_array()
}

/// The products of two pairs.
pub fn times_both(a: i32x2, b: i32x2) -> i64x2
    requires first { BothAre (FitsSigned w32) a }
    requires second { BothAre (FitsSigned w32) b }
    ensures { result ≡ (left_number a *ℤ left_number b) ∷ (right_number a *ℤ right_number b) ∷ [] }
{
    a.cast::<i64>() * b.cast::<i64>()
}

/// The sums of two pairs, where they fit.
pub fn add_both(a: i64x2, b: i64x2) -> i64x2
    requires first { BothAre (FitsSigned w64) a }
    requires second { BothAre (FitsSigned w64) b }
    requires sums { FitsSigned w64 (left_number a +ℤ left_number b) × FitsSigned w64 (right_number a +ℤ right_number b) }
    ensures { result ≡ (left_number a +ℤ left_number b) ∷ (right_number a +ℤ right_number b) ∷ [] }
{
    a + b
}

/// The sums of two pairs, without the 30 bits at their bottom, held to 32 bits. Sums are exact modulo 2^64; whether one left the range is
/// the sign of the sum and 2^61, and to which end the sign of the sum of its halves. A held sample costs as much as another.
pub fn hold_both(a: i64x2, b: i64x2) -> i32x2
    requires first { BothAre (FitsSigned w64) a }
    requires second { BothAre (FitsSigned w64) b }
    requires sums { (nat_abs (left_number a +ℤ left_number b) < 7 * 2 ^ 61) × (nat_abs (right_number a +ℤ right_number b) < 7 * 2 ^ 61) }
    ensures { result ≡ inner_of_sum (left_number a +ℤ left_number b) ∷ inner_of_sum (right_number a +ℤ right_number b) ∷ [] }
{
    let zero = i64x2::splat(0);
    let bit = i64x2::splat(1);
    let sum = a + b;
    // The sum of the halves fits, and has the sign of a sum that is held.
    let end = ((a >> bit) + (b >> bit))
        .simd_lt(zero)
        .select(i64x2::splat(-2147483648), i64x2::splat(2147483647));
    // A sum is not held where 2^61 more is below 2^62. One that wraps is far from there.
    let above = sum + i64x2::splat(2305843009213693952);
    let inner = (above + above)
        .simd_lt(zero)
        .select(end, sum >> i64x2::splat(30));
    above.simd_lt(zero).select(end, inner).cast::<i32>()
}

/// The sums of two pairs, without the 30 bits at their bottom, where they are not held, and two marks: a sum is not held where its mark is
/// neither below 0 nor from 2^62 on.
#[inline(always)]
pub fn take_both(a: i64x2, b: i64x2) -> (i32x2, i64x2)
    requires first { BothAre (FitsSigned w64) a }
    requires second { BothAre (FitsSigned w64) b }
    requires sums { (nat_abs (left_number a +ℤ left_number b) < 7 * 2 ^ 61) × (nat_abs (right_number a +ℤ right_number b) < 7 * 2 ^ 61) }
    ensures left { IsClear (left_number result.1) → left_number result.0 ≡ inner_of_sum (left_number a +ℤ left_number b) }
    ensures right { IsClear (right_number result.1) → right_number result.0 ≡ inner_of_sum (right_number a +ℤ right_number b) }
    ensures fit { BothAre (FitsSigned w32) result.0 }
    ensures marks { BothAre (FitsSigned w64) result.1 }
{
    let sum = a + b;
    let inner = (sum << i64x2::splat(2)) >> i64x2::splat(32);
    let marks = sum + i64x2::splat(2305843009213693952);
    (inner.cast::<i32>(), marks)
}

/// Marks joined to others. One is clear only where both of it were.
#[inline(always)]
pub fn join_both(a: i64x2, b: i64x2) -> i64x2
    requires first { BothAre (FitsSigned w64) a }
    requires second { BothAre (FitsSigned w64) b }
    ensures left { IsClear (left_number result) → IsClear (left_number a) × IsClear (left_number b) }
    ensures right { IsClear (right_number result) → IsClear (right_number a) × IsClear (right_number b) }
    ensures fit { BothAre (FitsSigned w64) result }
{
    a | b
}

/// Whether both marks are clear.
pub fn are_clear(marks: i64x2) -> bool
    requires { BothAre (FitsSigned w64) marks }
    ensures { result ≡ true → IsClear (left_number marks) × IsClear (right_number marks) }
{
    let marks = wide_parts(marks);
    is_clear(marks[0]) && is_clear(marks[1])
}

/// Whether a mark is clear.
fn is_clear(mark: i64) -> bool
    ensures { result ≡ true → IsClear mark }
{
    mark.cast_unsigned() < 4611686018427387904
}

/// The next inner values, from the two parts of the first numbers and the inputs.
pub fn inner_both(b0: i32x2, fed: i64x2, ahead: i64x2, x: i32x2) -> i32x2
    requires factors { BothAre (FitsSigned w32) b0 }
    requires inputs { BothAre (FitsSigned w32) x }
    requires fed { BothAre (FitsSigned w64) fed }
    requires ahead { BothAre (FitsSigned w64) ahead }
    requires even { BothMeet (λ b f. nat_abs b * 2 ^ 31 + nat_abs f < 2 ^ 63) b0 fed }
    requires sums { (nat_abs (left_number ahead +ℤ left_number fed) + nat_abs (left_number b0) * 2 ^ 31 < 7 * 2 ^ 61) × (nat_abs (right_number ahead +ℤ right_number fed) + nat_abs (right_number b0) * 2 ^ 31 < 7 * 2 ^ 61) }
    ensures { result ≡ inner_of_sum (((left_number b0 *ℤ left_number x) +ℤ left_number fed) +ℤ left_number ahead) ∷ inner_of_sum (((right_number b0 *ℤ right_number x) +ℤ right_number fed) +ℤ right_number ahead) ∷ [] }
{
    hold_both(add_both(times_both(b0, x), fed), ahead)
}

/// The same where they are not held, and their marks.
pub fn inner_taken(b0: i32x2, fed: i64x2, ahead: i64x2, x: i32x2) -> (i32x2, i64x2)
    requires factors { BothAre (FitsSigned w32) b0 }
    requires inputs { BothAre (FitsSigned w32) x }
    requires fed { BothAre (FitsSigned w64) fed }
    requires ahead { BothAre (FitsSigned w64) ahead }
    requires even { BothMeet (λ b f. nat_abs b * 2 ^ 31 + nat_abs f < 2 ^ 63) b0 fed }
    requires sums { (nat_abs (left_number ahead +ℤ left_number fed) + nat_abs (left_number b0) * 2 ^ 31 < 7 * 2 ^ 61) × (nat_abs (right_number ahead +ℤ right_number fed) + nat_abs (right_number b0) * 2 ^ 31 < 7 * 2 ^ 61) }
    ensures left { IsClear (left_number result.1) → left_number result.0 ≡ inner_of_sum (((left_number b0 *ℤ left_number x) +ℤ left_number fed) +ℤ left_number ahead) }
    ensures right { IsClear (right_number result.1) → right_number result.0 ≡ inner_of_sum (((right_number b0 *ℤ right_number x) +ℤ right_number fed) +ℤ right_number ahead) }
    ensures fit { BothAre (FitsSigned w32) result.0 }
    ensures marks { BothAre (FitsSigned w64) result.1 }
{
    take_both(add_both(times_both(b0, x), fed), ahead)
}

/// The first parts of the next first numbers, with the 2^29 that rounds.
pub fn ahead_both(b1: i32x2, x: i32x2, second: i64x2) -> i64x2
    requires factors { BothAre (FitsSigned w32) b1 }
    requires inputs { BothAre (FitsSigned w32) x }
    requires second { BothAre (FitsSigned w64) second }
    requires room { BothMeet HasRoomToRound b1 second }
    ensures { result ≡ (((left_number b1 *ℤ left_number x) +ℤ left_number second) +ℤ pos 536870912) ∷ (((right_number b1 *ℤ right_number x) +ℤ right_number second) +ℤ pos 536870912) ∷ [] }
{
    let sum = add_both(times_both(b1, x), second);
    add_both(sum, wide_both(536870912, 536870912))
}

/// The next second numbers.
pub fn second_both(b2: i32x2, x: i32x2, a2: i32x2, w: i32x2) -> i64x2
    requires factors { BothAre (FitsSigned w32) b2 × BothAre (FitsSigned w32) a2 }
    requires inputs { BothAre (FitsSigned w32) x × BothAre (FitsSigned w32) w }
    requires room { BothMeet (λ b a. nat_abs b + nat_abs a < 2 ^ 32) b2 a2 }
    ensures { result ≡ ((left_number b2 *ℤ left_number x) +ℤ (left_number a2 *ℤ left_number w)) ∷ ((right_number b2 *ℤ right_number x) +ℤ (right_number a2 *ℤ right_number w)) ∷ [] }
{
    add_both(times_both(b2, x), times_both(a2, w))
}
