// Two channels that lie side by side, each through two sections of its own in one pass.
ghost use Rattle.std.specs.Prelude.{◌≡◌, ◌≢◌, ℕ, [], ◌∷◌, ◌+◌, ◌*◌, ◌≤◌, ◌<◌, length, take, true, false, FitsSigned};
ghost use Rattle.std.specs.Int.{w32, w64};
ghost use Rattle.sof_base.specs.Blob as form;
ghost use Rattle.sof_base.specs.Samples.{sample_of};
ghost use Rattle.eq_blob.specs.WordBytes.{bytes_of_words};
ghost use Rattle.eq_blob.specs.Sections.{law_section, sections_in};
ghost use Rattle.eq_biquad.specs.Pairs.{left_number, right_number, BothAre, IsClear};
ghost use Rattle.eq_biquad.specs.PairForms.{HaveUnitGains, AreBeside, AreNearSeries, BothGo, GoesThrough, series_of, left_series, right_series};

use crate::arithmetic::has_unit_gain;
use crate::lane::Lane;
use crate::pair_arithmetic::{are_clear, both, join_both, parts, wide_both};
use crate::stages::{NearPair, stage, stage_taken};
use eq_blob::{Section, section_at};
use sof_base::Sample;
use std::simd::prelude::*;

/// Two sections in series.
#[derive(Clone, Copy)]
pub struct Series {
    pub first: Section,
    pub second: Section,
}

/// The parts of the numbers of two sections in series, of both channels.
#[derive(Clone, Copy)]
pub struct NearSeries {
    pub first: NearPair,
    pub second: NearPair,
}

/// The two sections whose words begin at a place of a blob of so many bytes.
pub fn series_at(blob: &[i32], len: usize, place: usize) -> Series
    requires { (4 * place + 56 ≤ len) × (len ≤ 4 * length blob.now) }
    ensures sections { series_of result ≡ sections_in (take len (bytes_of_words blob.now)) (4 * place) 2 }
    ensures shifts { (result.first.shift ≡ form.signed_at (take len (bytes_of_words blob.now)) (4 * place + 20)) × (result.second.shift ≡ form.signed_at (take len (bytes_of_words blob.now)) (4 * place + 48)) }
{
    Series {
        first: section_at(blob, len, place),
        second: section_at(blob, len, place + 7),
    }
}

/// Passes a channel through two sections, and the channel after it through two others. The parts of their numbers after the last
/// frame come back. Where `quick` is set, a loop that holds no sum is tried first, which takes less time. A sum that has to be held
/// clears it.
pub fn pass_both(
    left: &Series,
    right: &Series,
    near: NearSeries,
    samples: &mut [Sample],
    at: Lane,
    quick: &mut bool,
) -> NearSeries
    requires beside { AreBeside left.now right.now }
    requires near { AreNearSeries left.now right.now near }
    requires lane { (at.channel + 1 < at.channels) × ((at.channels ≤ 8) × (at.frames * at.channels ≡ length samples.old)) }
    ensures { BothGo left.now right.now near result at samples.old samples.new }
{
    if *quick && samples.len() <= 128 {
        let tried = try_taken(left, right, near, samples, at);
        if tried.1 {
            return tried.0;
        }
        *quick = false;
    }
    pass_held(left, right, near, samples, at)
}

/// The same of few samples by a loop that holds no sum, and whether none had to be. Where one had to be, the samples are as before.
fn try_taken(
    left: &Series,
    right: &Series,
    near: NearSeries,
    samples: &mut [Sample],
    at: Lane,
) -> (NearSeries, bool)
    requires beside { AreBeside left.now right.now }
    requires near { AreNearSeries left.now right.now near }
    requires lane { (at.channel + 1 < at.channels) × ((at.channels ≤ 8) × (at.frames * at.channels ≡ length samples.old)) }
    requires few { length samples.old ≤ 128 }
    ensures goes { result.1 ≡ true → BothGo left.now right.now near result.0 at samples.old samples.new }
    ensures anew { result.1 ≡ false → samples.new ≡ samples.old }
{
    let mut block = [0; 128];
    let (kept, _rest) = block.split_at_mut(samples.len());
    kept.copy_from_slice(samples);
    let tried = pass_taken(left, right, near, samples, at);
    if tried.1 {
        return tried;
    }
    samples.copy_from_slice(kept);
    (tried.0, false)
}

/// The same where a sum may be held.
fn pass_held(
    left: &Series,
    right: &Series,
    near: NearSeries,
    samples: &mut [Sample],
    at: Lane,
) -> NearSeries
    requires beside { AreBeside left.now right.now }
    requires near { AreNearSeries left.now right.now near }
    requires lane { (at.channel + 1 < at.channels) × ((at.channels ≤ 8) × (at.frames * at.channels ≡ length samples.old)) }
    ensures { BothGo left.now right.now near result at samples.old samples.new }
{
    let first = have_unit_gains(&left.first, &right.first);
    let second = have_unit_gains(&left.second, &right.second);
    if second {
        if first {
            pass_plain(left, right, near, samples, at)
        } else {
            pass_scaled_first(left, right, near, samples, at)
        }
    } else {
        pass_scaled(left, right, near, samples, at)
    }
}

/// The same where no sum is held, and whether none was.
fn pass_taken(
    left: &Series,
    right: &Series,
    near: NearSeries,
    samples: &mut [Sample],
    at: Lane,
) -> (NearSeries, bool)
    requires beside { AreBeside left.now right.now }
    requires near { AreNearSeries left.now right.now near }
    requires lane { (at.channel + 1 < at.channels) × ((at.channels ≤ 8) × (at.frames * at.channels ≡ length samples.old)) }
    ensures goes { result.1 ≡ true → BothGo left.now right.now near result.0 at samples.old samples.new }
{
    let first = have_unit_gains(&left.first, &right.first);
    let second = have_unit_gains(&left.second, &right.second);
    if second {
        if first {
            take_plain(left, right, near, samples, at)
        } else {
            take_scaled_first(left, right, near, samples, at)
        }
    } else {
        take_scaled(left, right, near, samples, at)
    }
}

/// The same where the gain of all four sections is 1.
#[inline(never)]
fn take_plain(
    left: &Series,
    right: &Series,
    near: NearSeries,
    samples: &mut [Sample],
    at: Lane,
) -> (NearSeries, bool)
    requires first { HaveUnitGains (law_section left.now.first) (law_section right.now.first) }
    requires second { HaveUnitGains (law_section left.now.second) (law_section right.now.second) }
    requires beside { AreBeside left.now right.now }
    requires near { AreNearSeries left.now right.now near }
    requires lane { (at.channel + 1 < at.channels) × ((at.channels ≤ 8) × (at.frames * at.channels ≡ length samples.old)) }
    ensures goes { result.1 ≡ true → BothGo left.now right.now near result.0 at samples.old samples.new }
{
    take_frames(*left, *right, true, true, near, samples, at)
}

/// The same where the gains of the second sections are 1.
#[inline(never)]
fn take_scaled_first(
    left: &Series,
    right: &Series,
    near: NearSeries,
    samples: &mut [Sample],
    at: Lane,
) -> (NearSeries, bool)
    requires second { HaveUnitGains (law_section left.now.second) (law_section right.now.second) }
    requires beside { AreBeside left.now right.now }
    requires near { AreNearSeries left.now right.now near }
    requires lane { (at.channel + 1 < at.channels) × ((at.channels ≤ 8) × (at.frames * at.channels ≡ length samples.old)) }
    ensures goes { result.1 ≡ true → BothGo left.now right.now near result.0 at samples.old samples.new }
{
    take_frames(*left, *right, false, true, near, samples, at)
}

/// The same whatever the gains are.
#[inline(never)]
fn take_scaled(
    left: &Series,
    right: &Series,
    near: NearSeries,
    samples: &mut [Sample],
    at: Lane,
) -> (NearSeries, bool)
    requires beside { AreBeside left.now right.now }
    requires near { AreNearSeries left.now right.now near }
    requires lane { (at.channel + 1 < at.channels) × ((at.channels ≤ 8) × (at.frames * at.channels ≡ length samples.old)) }
    ensures goes { result.1 ≡ true → BothGo left.now right.now near result.0 at samples.old samples.new }
{
    take_frames(*left, *right, false, false, near, samples, at)
}

/// The same where a sum may be held, and the gain of all four sections is 1. Each of these stands alone so that its loop has the
/// registers, and no test in it.
#[inline(never)]
fn pass_plain(
    left: &Series,
    right: &Series,
    near: NearSeries,
    samples: &mut [Sample],
    at: Lane,
) -> NearSeries
    requires first { HaveUnitGains (law_section left.now.first) (law_section right.now.first) }
    requires second { HaveUnitGains (law_section left.now.second) (law_section right.now.second) }
    requires beside { AreBeside left.now right.now }
    requires near { AreNearSeries left.now right.now near }
    requires lane { (at.channel + 1 < at.channels) × ((at.channels ≤ 8) × (at.frames * at.channels ≡ length samples.old)) }
    ensures { BothGo left.now right.now near result at samples.old samples.new }
{
    pass_frames(*left, *right, true, true, near, samples, at)
}

/// The same where the gains of the second sections are 1.
#[inline(never)]
fn pass_scaled_first(
    left: &Series,
    right: &Series,
    near: NearSeries,
    samples: &mut [Sample],
    at: Lane,
) -> NearSeries
    requires second { HaveUnitGains (law_section left.now.second) (law_section right.now.second) }
    requires beside { AreBeside left.now right.now }
    requires near { AreNearSeries left.now right.now near }
    requires lane { (at.channel + 1 < at.channels) × ((at.channels ≤ 8) × (at.frames * at.channels ≡ length samples.old)) }
    ensures { BothGo left.now right.now near result at samples.old samples.new }
{
    pass_frames(*left, *right, false, true, near, samples, at)
}

/// The same whatever the gains are.
#[inline(never)]
fn pass_scaled(
    left: &Series,
    right: &Series,
    near: NearSeries,
    samples: &mut [Sample],
    at: Lane,
) -> NearSeries
    requires beside { AreBeside left.now right.now }
    requires near { AreNearSeries left.now right.now near }
    requires lane { (at.channel + 1 < at.channels) × ((at.channels ≤ 8) × (at.frames * at.channels ≡ length samples.old)) }
    ensures { BothGo left.now right.now near result at samples.old samples.new }
{
    pass_frames(*left, *right, false, false, near, samples, at)
}

/// Passes frame after frame.
#[inline(always)]
fn pass_frames(
    left: Series,
    right: Series,
    first_plain: bool,
    second_plain: bool,
    before: NearSeries,
    samples: &mut [Sample],
    at: Lane,
) -> NearSeries
    requires first { first_plain ≡ true → HaveUnitGains (law_section left.first) (law_section right.first) }
    requires second { second_plain ≡ true → HaveUnitGains (law_section left.second) (law_section right.second) }
    requires beside { AreBeside left right }
    requires near { AreNearSeries left right before }
    requires lane { (at.channel + 1 < at.channels) × ((at.channels ≤ 8) × (at.frames * at.channels ≡ length samples.old)) }
    ensures { BothGo left right before result at samples.old samples.new }
{
    let mut near = before;
    for frame in 0..at.frames {
        let place = frame * at.channels + at.channel;
        near = pass_frame(left, right, first_plain, second_plain, near, samples, place);
    }
    near
}

/// Passes frame after frame where no sum is held, and tells whether none was.
#[inline(always)]
fn take_frames(
    left: Series,
    right: Series,
    first_plain: bool,
    second_plain: bool,
    before: NearSeries,
    samples: &mut [Sample],
    at: Lane,
) -> (NearSeries, bool)
    requires first { first_plain ≡ true → HaveUnitGains (law_section left.first) (law_section right.first) }
    requires second { second_plain ≡ true → HaveUnitGains (law_section left.second) (law_section right.second) }
    requires beside { AreBeside left right }
    requires near { AreNearSeries left right before }
    requires lane { (at.channel + 1 < at.channels) × ((at.channels ≤ 8) × (at.frames * at.channels ≡ length samples.old)) }
    ensures goes { result.1 ≡ true → BothGo left right before result.0 at samples.old samples.new }
{
    let mut near = before;
    let mut marks = wide_both(0, 0);
    for frame in 0..at.frames {
        let place = frame * at.channels + at.channel;
        let taken = take_frame(left, right, first_plain, second_plain, near, samples, place);
        near = taken.0;
        marks = join_both(marks, taken.1);
    }
    (near, are_clear(marks))
}

/// Passes the samples at a place and after it.
#[inline(always)]
fn pass_frame(
    left: Series,
    right: Series,
    first_plain: bool,
    second_plain: bool,
    near: NearSeries,
    samples: &mut [Sample],
    place: usize,
) -> NearSeries
    requires first { first_plain ≡ true → HaveUnitGains (law_section left.first) (law_section right.first) }
    requires second { second_plain ≡ true → HaveUnitGains (law_section left.second) (law_section right.second) }
    requires beside { AreBeside left right }
    requires near { AreNearSeries left right near }
    requires there { place + 1 < length samples.old }
    ensures left { GoesThrough (series_of left) (left_series near) (sample_of samples.old place) (left_series result) (sample_of samples.new place) }
    ensures right { GoesThrough (series_of right) (right_series near) (sample_of samples.old (place + 1)) (right_series result) (sample_of samples.new (place + 1)) }
    ensures others { (i : ℕ) → i ≢ place → i ≢ place + 1 → sample_of samples.new i ≡ sample_of samples.old i }
    ensures near { AreNearSeries left right result }
{
    let x = samples_at(samples, place);
    let first = stage(left.first, right.first, first_plain, near.first, x);
    let second = stage(
        left.second,
        right.second,
        second_plain,
        near.second,
        first.1,
    );
    put_samples(samples, place, second.1);
    NearSeries {
        first: first.0,
        second: second.0,
    }
}

/// The same where no sum is held, and the marks that tell it.
#[inline(always)]
fn take_frame(
    left: Series,
    right: Series,
    first_plain: bool,
    second_plain: bool,
    near: NearSeries,
    samples: &mut [Sample],
    place: usize,
) -> (NearSeries, i64x2)
    requires first { first_plain ≡ true → HaveUnitGains (law_section left.first) (law_section right.first) }
    requires second { second_plain ≡ true → HaveUnitGains (law_section left.second) (law_section right.second) }
    requires beside { AreBeside left right }
    requires near { AreNearSeries left right near }
    requires there { place + 1 < length samples.old }
    ensures left { IsClear (left_number result.1) → GoesThrough (series_of left) (left_series near) (sample_of samples.old place) (left_series result.0) (sample_of samples.new place) }
    ensures right { IsClear (right_number result.1) → GoesThrough (series_of right) (right_series near) (sample_of samples.old (place + 1)) (right_series result.0) (sample_of samples.new (place + 1)) }
    ensures others { (i : ℕ) → i ≢ place → i ≢ place + 1 → sample_of samples.new i ≡ sample_of samples.old i }
    ensures near { AreNearSeries left right result.0 }
    ensures marks { BothAre (FitsSigned w64) result.1 }
{
    let x = samples_at(samples, place);
    let first = stage_taken(left.first, right.first, first_plain, near.first, x);
    let second = stage_taken(
        left.second,
        right.second,
        second_plain,
        near.second,
        first.1,
    );
    put_samples(samples, place, second.1);
    let after = NearSeries {
        first: first.0,
        second: second.0,
    };
    (after, join_both(first.2, second.2))
}

/// The samples at a place and after it.
#[inline(always)]
fn samples_at(samples: &[Sample], place: usize) -> i32x2
    requires { place + 1 < length samples.now }
    ensures samples { result ≡ sample_of samples.now place ∷ sample_of samples.now (place + 1) ∷ [] }
    ensures fit { BothAre (FitsSigned w32) result }
{
    both(samples[place], samples[place + 1])
}

/// Writes two samples at a place and after it.
#[inline(always)]
fn put_samples(samples: &mut [Sample], place: usize, y: i32x2)
    requires there { place + 1 < length samples.old }
    requires fit { BothAre (FitsSigned w32) y }
    ensures left { sample_of samples.new place ≡ left_number y }
    ensures right { sample_of samples.new (place + 1) ≡ right_number y }
    ensures others { (i : ℕ) → i ≢ place → i ≢ place + 1 → sample_of samples.new i ≡ sample_of samples.old i }
{
    let outputs = parts(y);
    samples[place] = outputs[0];
    samples[place + 1] = outputs[1];
}

/// Whether the gains of both sections are 1.
fn have_unit_gains(left: &Section, right: &Section) -> bool
    ensures { result ≡ true → HaveUnitGains (law_section left.now) (law_section right.now) }
{
    has_unit_gain(left) && has_unit_gain(right)
}
