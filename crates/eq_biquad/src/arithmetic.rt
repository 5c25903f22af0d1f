// The arithmetic of a section.
ghost use Rattle.std.specs.Prelude.{◌≡◌, ℤ, ◌+◌, ◌-◌, ◌*◌, ◌≤◌, ◌<◌, ◌^◌, ◌+ℤ◌, ◌*ℤ◌, pos, nat_abs, true, FitsSigned};
ghost use Rattle.std.specs.Int.{w32};
ghost use Rattle.sof_base.specs.Samples.{sat, rounded};
ghost use Rattle.sof_base.specs.Blob.{is_shift};
ghost use Rattle.stream_law.specs.Equaliser.{next_inner};
ghost use Rattle.eq_blob.specs.Sections.{law_section};
ghost use Rattle.eq_biquad.specs.NarrowSections.{IsNarrow};
ghost use Rattle.eq_biquad.specs.PairForms.{FitsBeside, HasUnitGain};

use crate::numbers::{Near, Numbers};
use eq_blob::Section;
use sof_base::{Sample, sat32};

/// The product of two numbers of 32 bits.
fn times(a: i32, b: i32) -> i64
    ensures value { result ≡ a *ℤ b }
    ensures within { nat_abs result ≤ 2 ^ 62 }
{
    i64::from(a) * i64::from(b)
}

/// The sum of two products.
pub fn products(a: i32, x: i32, b: i32, y: i32) -> i128
    ensures value { result ≡ (a *ℤ x) +ℤ (b *ℤ y) }
    ensures within { nat_abs result ≤ 2 ^ 63 }
{
    i128::from(times(a, x)) + i128::from(times(b, y))
}

/// The next inner value of a section, from its first number and its input.
pub fn inner(section: Section, first: i128, x: Sample) -> Sample
    requires { nat_abs first ≤ 2 ^ 64 }
    ensures { result ≡ next_inner (law_section section) first x }
{
    let sum = i128::from(times(section.b0, x)) + first;
    sat32(((sum + 536870912) >> 30) as i64)
}

/// The same from the parts of the first number, for sums that do not fit or are held. They are few.
#[cold]
#[inline(never)]
fn inner_again(section: &Section, ahead: i64, fed: i64, x: Sample) -> i64
    requires { nat_abs (ahead +ℤ fed) < 7 * 2 ^ 61 }
    ensures inner { (first : ℤ) → ahead +ℤ fed ≡ first +ℤ pos 536870912 → result ≡ next_inner (law_section section.now) first x }
    ensures held { FitsSigned w32 result }
{
    let first = i128::from(ahead) + i128::from(fed) - 536870912;
    i64::from(inner(*section, first, x))
}

/// Whether a section's sums stay below 7 * 2^61 from these numbers on, and the parts of its numbers within 64 bits.
pub fn is_narrow(section: &Section, numbers: Numbers) -> bool
    ensures { result ≡ true → IsNarrow (law_section section.now) numbers.first numbers.second }
{
    let far = size(section.b2) + size(section.a2);
    let ahead = size(section.b1) + far;
    let all = size(section.b0) + size(section.a1) + ahead;
    if ahead < 4294967296
        && all < 7516192768
        && numbers.first.unsigned_abs() <= 9223372035781033984
    {
        numbers.second.unsigned_abs() <= u128::from(far) * 2147483648
    } else {
        false
    }
}

/// Whether a section may go beside another, with these numbers to begin with.
pub fn fits_beside(section: &Section, numbers: Numbers) -> bool
    requires { is_shift section.now.shift ≡ true }
    ensures narrow { result ≡ true → IsNarrow (law_section section.now) numbers.first numbers.second }
    ensures beside { result ≡ true → FitsBeside (law_section section.now) }
{
    let even = size(section.b0) + size(section.a1);
    if even < 4294967296 {
        is_narrow(section, numbers)
    } else {
        false
    }
}

/// Whether the gain of a section is 1.
pub fn has_unit_gain(section: &Section) -> bool
    ensures { result ≡ true → HasUnitGain (law_section section.now) }
{
    section.shift == 0 && section.gain == 16384
}

/// How far a number is from 0.
fn size(a: i32) -> u64
    ensures size { result ≡ nat_abs a }
    ensures within { result ≤ 2 ^ 31 }
{
    u64::from(a.unsigned_abs())
}

/// The next inner value of a section, from the two parts of its first number and its input.
pub fn inner_near(section: &Section, ahead: i64, fed: i64, x: Sample) -> i64
    requires { nat_abs (ahead +ℤ fed) + nat_abs section.now.b0 * 2 ^ 31 < 7 * 2 ^ 61 }
    ensures inner { (first : ℤ) → ahead +ℤ fed ≡ first +ℤ pos 536870912 → result ≡ next_inner (law_section section.now) first x }
    ensures held { FitsSigned w32 result }
{
    // A sum of that size that does not fit in 64 bits wraps to one that is not within 2^61.
    let sum = times(section.b0, x).wrapping_add(ahead).wrapping_add(fed);
    let w = sum >> 30;
    if -2147483648 <= w && w <= 2147483647 {
        w
    } else {
        inner_again(section, ahead, fed, x)
    }
}

/// The parts of a section's numbers after an input and its inner value, from its second number.
pub fn next_near(section: Section, second: i64, x: Sample, w: i64) -> Near
    requires held { FitsSigned w32 w }
    requires narrow { nat_abs section.b1 + (nat_abs section.b2 + nat_abs section.a2) < 2 ^ 32 }
    requires second { nat_abs second ≤ (nat_abs section.b2 + nat_abs section.a2) * 2 ^ 31 }
    ensures first { result.ahead +ℤ result.fed ≡ (((section.b1 *ℤ x) +ℤ (section.a1 *ℤ w)) +ℤ second) +ℤ pos 536870912 }
    ensures second { result.second ≡ (section.b2 *ℤ x) +ℤ (section.a2 *ℤ w) }
    ensures within { (nat_abs (result.ahead +ℤ result.fed) ≤ (nat_abs section.b1 + nat_abs section.a1 + nat_abs section.b2 + nat_abs section.a2) * 2 ^ 31 + 2 ^ 29) × (nat_abs result.second ≤ (nat_abs section.b2 + nat_abs section.a2) * 2 ^ 31) }
{
    Near {
        ahead: times_held(section.b1, i64::from(x)) + second + 536870912,
        fed: times_held(section.a1, w),
        second: times_held(section.b2, i64::from(x)) + times_held(section.a2, w),
    }
}

/// The product of a number of 32 bits and one of 64 bits that 32 bits hold.
fn times_held(a: i32, b: i64) -> i64
    requires { FitsSigned w32 b }
    ensures { result ≡ a *ℤ b }
{
    i64::from(a) * b
}

/// How many bits the shift of a section drops.
pub fn bits_of(section: &Section) -> u32
    requires { is_shift section.now.shift ≡ true }
    ensures value { result ≡ nat_abs (pos 14 +ℤ section.now.shift) }
    ensures within { (1 ≤ result) × (result ≤ 45) }
{
    (14 + section.shift) as u32
}

/// A number times a gain, less these bits, rounded to the nearest and held to the range of samples.
pub fn scaled(w: Sample, gain: i32, bits: u32) -> Sample
    requires { (1 ≤ bits) × (bits ≤ 45) }
    ensures { result ≡ sat 32 (rounded bits (w *ℤ gain)) }
{
    if gain == 16384 && bits == 14 {
        w
    } else {
        rescaled(w, gain, bits)
    }
}

/// The same without a test.
#[inline(always)]
pub fn rescaled(w: Sample, gain: i32, bits: u32) -> Sample
    requires { (1 ≤ bits) × (bits ≤ 45) }
    ensures { result ≡ sat 32 (rounded bits (w *ℤ gain)) }
{
    sat32((times(w, gain) + half(bits)) >> bits)
}

/// Half of what so many bits are.
fn half(bits: u32) -> i64
    requires { (1 ≤ bits) × (bits ≤ 45) }
    ensures value { result ≡ pos (2 ^ (bits - 1)) }
    ensures within { 2 ^ (bits - 1) ≤ 2 ^ 44 }
{
    1 << (bits - 1)
}
