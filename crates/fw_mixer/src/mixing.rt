// Exact sums, held once to the range of samples.
ghost use Rattle.std.specs.Prelude.{◌≡◌, ℕ, ◌+◌, ◌≤◌, ◌<◌, map, length, get_or, pos, FitsSigned};
ghost use Rattle.std.specs.Int.{w32};
ghost use Rattle.std.specs.List.{AllByRecursion};
ghost use Rattle.sof_base.specs.Samples.{sat};
ghost use Rattle.sof_base.specs.Equations.{exact_sum, mixed};

use sof_base::{Sample, sat32};
use std::simd::prelude::*;

/// Writes at each place the exact sum of what these parts have there, held once to the range of samples. A part has as many
/// samples as are written, or more.
pub fn mix_parts(parts: &[&[Sample]], y: &mut [Sample])
    requires few { length parts.now ≤ 128 }
    requires long { AllByRecursion (λ part. length y.old ≤ length part.now) parts.now }
    ensures { y.new ≡ mixed (length y.old) (map (λ part. part.now) parts.now) }
{
    let whole = y.len() / 8 * 8;
    for k in 0..y.len() / 8 {
        mix_eight(parts, y, 8 * k);
    }
    for i in whole..y.len() {
        mix_one(parts, y, i);
    }
}

// Writes eight sums from a place on. Sums of 32 bits wrap, and the exact sums of the upper halves of the samples tell where.
fn mix_eight(parts: &[&[Sample]], y: &mut [Sample], at: usize)
    requires few { length parts.now ≤ 128 }
    requires long { AllByRecursion (λ part. at + 8 ≤ length part.now) parts.now }
    requires there { at + 8 ≤ length y.old }
    ensures before { (k : ℕ) → k < at → get_or y.new k (pos 0) ≡ get_or y.old k (pos 0) }
    ensures made { (k : ℕ) → at ≤ k → k < at + 8 → get_or y.new k (pos 0) ≡ sat 32 (exact_sum k (map (λ part. part.now) parts.now)) }
{
    let mut wrapped = i32x8::splat(0);
    let mut upper = i32x8::splat(0);
    for part in parts {
        are_samples(part);
        let eight = i32x8::from_slice(&part[at..]);
        wrapped = wrapped + eight;
        upper = upper + (eight >> i32x8::splat(16));
    }
    let lower = wrapped - (upper << i32x8::splat(16));
    let whole = upper + (lower >> i32x8::splat(16));
    let most = i32x8::splat(32767);
    let least = i32x8::splat(-32768);
    let low = whole
        .simd_lt(least)
        .select(i32x8::splat(-2147483648), wrapped);
    let held = most.simd_lt(whole).select(i32x8::splat(2147483647), low);
    held.copy_to_slice(&mut y[at..]);
}

// Writes the sum at a place.
fn mix_one(parts: &[&[Sample]], y: &mut [Sample], at: usize)
    requires few { length parts.now ≤ 128 }
    requires long { AllByRecursion (λ part. at < length part.now) parts.now }
    requires there { at < length y.old }
    ensures before { (k : ℕ) → k < at → get_or y.new k (pos 0) ≡ get_or y.old k (pos 0) }
    ensures made { get_or y.new at (pos 0) ≡ sat 32 (exact_sum at (map (λ part. part.now) parts.now)) }
{
    let mut sum = 0;
    for part in parts {
        are_samples(part);
        sum += i64::from(part[at]);
    }
    y[at] = sat32(sum);
}

// For the proof alone: each number of a slice of samples is a sample. Nothing is done, and no code is left of it.
fn are_samples(x: &[Sample])
    ensures { AllByRecursion (FitsSigned w32) x.now }
{
    for sample in x {
        let _value = *sample;
    }
}
