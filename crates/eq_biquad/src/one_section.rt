// One channel through one section.
ghost use Rattle.std.specs.Prelude.{◌≡◌, ◌≢◌, ℕ, [], ◌∷◌, ◌+◌, ◌*◌, ◌≤◌, ◌<◌, ◌^◌, length, nat_abs, true};
ghost use Rattle.sof_base.specs.Samples.{sample_of};
ghost use Rattle.sof_base.specs.Blob as form;
ghost use Rattle.eq_biquad.specs.Lanes.{lane};
ghost use Rattle.eq_biquad.specs.Passing.{passed_samples, numbers_passed};
ghost use Rattle.eq_blob.specs.Sections.{law_section};
ghost use Rattle.eq_biquad.specs.NarrowSections.{IsNarrow};

use crate::arithmetic::{bits_of, inner, inner_near, is_narrow, next_near, products, scaled};
use crate::lane::Lane;
use crate::numbers::{Near, Numbers};
use eq_blob::Section;
use sof_base::Sample;

/// Passes one channel through a section with these numbers. Those after the last frame come back.
pub fn pass_section(
    section: &Section,
    numbers: Numbers,
    samples: &mut [Sample],
    at: Lane,
) -> Numbers
    requires shift { form.is_shift section.now.shift ≡ true }
    requires within { (nat_abs numbers.first ≤ 2 ^ 64) × (nat_abs numbers.second ≤ 2 ^ 63) }
    requires lane { (at.channel < at.channels) × (at.channels ≤ 8) × (at.frames * at.channels ≡ length samples.old) }
    ensures lane { lane at.channels at.channel at.frames samples.new ≡ passed_samples (law_section section.now ∷ []) (numbers.first ∷ numbers.second ∷ []) (lane at.channels at.channel at.frames samples.old) }
    ensures others { (j k : ℕ) → k < at.channels → k ≢ at.channel → sample_of samples.new (j * at.channels + k) ≡ sample_of samples.old (j * at.channels + k) }
    ensures numbers { result.first ∷ result.second ∷ [] ≡ numbers_passed (law_section section.now ∷ []) (numbers.first ∷ numbers.second ∷ []) (lane at.channels at.channel at.frames samples.old) }
    ensures within { (nat_abs result.first ≤ 2 ^ 64) × (nat_abs result.second ≤ 2 ^ 63) }
{
    if is_narrow(section, numbers) {
        pass_narrow(section, numbers, samples, at)
    } else {
        pass_wide(section, numbers, samples, at)
    }
}

/// The same in 64 bits. It stands alone so that its loop has the registers.
#[inline(never)]
fn pass_narrow(section: &Section, numbers: Numbers, samples: &mut [Sample], at: Lane) -> Numbers
    requires shift { form.is_shift section.now.shift ≡ true }
    requires narrow { IsNarrow (law_section section.now) numbers.first numbers.second }
    requires lane { (at.channel < at.channels) × (at.channels ≤ 8) × (at.frames * at.channels ≡ length samples.old) }
    ensures lane { lane at.channels at.channel at.frames samples.new ≡ passed_samples (law_section section.now ∷ []) (numbers.first ∷ numbers.second ∷ []) (lane at.channels at.channel at.frames samples.old) }
    ensures others { (j k : ℕ) → k < at.channels → k ≢ at.channel → sample_of samples.new (j * at.channels + k) ≡ sample_of samples.old (j * at.channels + k) }
    ensures numbers { result.first ∷ result.second ∷ [] ≡ numbers_passed (law_section section.now ∷ []) (numbers.first ∷ numbers.second ∷ []) (lane at.channels at.channel at.frames samples.old) }
    ensures within { (nat_abs result.first ≤ 2 ^ 64) × (nat_abs result.second ≤ 2 ^ 63) }
{
    let bits = bits_of(section);
    // A copy, so that its fields stay in registers while samples are written.
    let copy = *section;
    let mut near = Near {
        ahead: numbers.first as i64 + 536870912,
        fed: 0,
        second: numbers.second as i64,
    };
    for frame in 0..at.frames {
        let place = frame * at.channels + at.channel;
        let x = samples[place];
        let w = inner_near(section, near.ahead, near.fed, x);
        samples[place] = scaled(w as i32, copy.gain, bits);
        near = next_near(copy, near.second, x, w);
    }
    Numbers {
        first: i128::from(near.ahead) + i128::from(near.fed) - 536870912,
        second: i128::from(near.second),
    }
}

/// The same in 128 bits.
fn pass_wide(section: &Section, numbers: Numbers, samples: &mut [Sample], at: Lane) -> Numbers
    requires shift { form.is_shift section.now.shift ≡ true }
    requires within { (nat_abs numbers.first ≤ 2 ^ 64) × (nat_abs numbers.second ≤ 2 ^ 63) }
    requires lane { (at.channel < at.channels) × (at.channels ≤ 8) × (at.frames * at.channels ≡ length samples.old) }
    ensures lane { lane at.channels at.channel at.frames samples.new ≡ passed_samples (law_section section.now ∷ []) (numbers.first ∷ numbers.second ∷ []) (lane at.channels at.channel at.frames samples.old) }
    ensures others { (j k : ℕ) → k < at.channels → k ≢ at.channel → sample_of samples.new (j * at.channels + k) ≡ sample_of samples.old (j * at.channels + k) }
    ensures numbers { result.first ∷ result.second ∷ [] ≡ numbers_passed (law_section section.now ∷ []) (numbers.first ∷ numbers.second ∷ []) (lane at.channels at.channel at.frames samples.old) }
    ensures within { (nat_abs result.first ≤ 2 ^ 64) × (nat_abs result.second ≤ 2 ^ 63) }
{
    let bits = bits_of(section);
    let (mut first, mut second) = (numbers.first, numbers.second);
    for frame in 0..at.frames {
        let place = frame * at.channels + at.channel;
        let x = samples[place];
        let w = inner(*section, first, x);
        samples[place] = scaled(w, section.gain, bits);
        first = products(section.b1, x, section.a1, w) + second;
        second = products(section.b2, x, section.a2, w);
    }
    Numbers { first, second }
}
