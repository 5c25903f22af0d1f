// What a mixer makes of the frames of buffers: sums over all of them, as many samples at a time as lie in one piece in each ring.
ghost use Rattle.std.specs.Prelude.{◌≡◌, ◌+◌, ◌*◌, ◌≤◌, ◌<◌, ◌==◌, ℕ, Some, map, length, get_or, position, pos};
ghost use Rattle.std.specs.List.{AllByRecursion};
ghost use Rattle.sof_base.specs.Samples.{sat};
ghost use Rattle.sof_base.specs.Equations.{exact_sum, mixed};
ghost use Rattle.stream_law.specs.Placed.{Ascends};
ghost use Rattle.fw_units.specs.Frames.{buffer_frames, channels_in};
ghost use Rattle.fw_moves.specs.Moving.{AreAt, samples_in, IsWhole};

use crate::making::spans;
use arrayvec::ArrayVec;
use fw_mixer::mix_parts;
use fw_units::Component;
use sof_base::Sample;

/// Writes the sums of the samples of the first `n` frames of each of these buffers, each held once to the range of samples.
pub(crate) fn mix(
    looked: &[u32],
    from: &[u16],
    n: u32,
    buffers: &[Component],
    samples: &mut [Sample],
)
    requires few { length looked.now ≤ 128 }
    requires ascends { Ascends (λ c. c.id) buffers.now }
    requires places { AreAt buffers.now looked.now from.now }
    requires held { AllByRecursion (λ b. n ≤ length (buffer_frames buffers.now b)) looked.now }
    requires samples { AllByRecursion (λ b. length samples.old ≡ n * channels_in buffers.now b) looked.now }
    ensures samples { samples.new ≡ mixed (length samples.old) (map (samples_in buffers.now n) looked.now) }
    ensures frames { AllByRecursion (IsWhole buffers.now) looked.now }
{
    if looked.len() <= 8 {
        mix_by::<8>(looked, from, n, buffers, samples);
    } else {
        mix_many(looked, from, n, buffers, samples);
    }
}

// The same of more than eight. It stands apart, since few mixers have so many inputs, and room for all takes time to clear.
#[inline(never)]
fn mix_many(looked: &[u32], from: &[u16], n: u32, buffers: &[Component], samples: &mut [Sample])
    requires few { length looked.now ≤ 128 }
    requires ascends { Ascends (λ c. c.id) buffers.now }
    requires places { AreAt buffers.now looked.now from.now }
    requires held { AllByRecursion (λ b. n ≤ length (buffer_frames buffers.now b)) looked.now }
    requires samples { AllByRecursion (λ b. length samples.old ≡ n * channels_in buffers.now b) looked.now }
    ensures samples { samples.new ≡ mixed (length samples.old) (map (samples_in buffers.now n) looked.now) }
    ensures frames { AllByRecursion (IsWhole buffers.now) looked.now }
{
    mix_by::<128>(looked, from, n, buffers, samples);
}

// The same of at most `N`, piece by piece.
fn mix_by<const N: usize>(
    looked: &[u32],
    from: &[u16],
    n: u32,
    buffers: &[Component],
    samples: &mut [Sample],
)
    requires few { (length looked.now ≤ N) × (N ≤ 128) }
    requires ascends { Ascends (λ c. c.id) buffers.now }
    requires places { AreAt buffers.now looked.now from.now }
    requires held { AllByRecursion (λ b. n ≤ length (buffer_frames buffers.now b)) looked.now }
    requires samples { AllByRecursion (λ b. length samples.old ≡ n * channels_in buffers.now b) looked.now }
    ensures samples { samples.new ≡ mixed (length samples.old) (map (samples_in buffers.now n) looked.now) }
    ensures frames { AllByRecursion (IsWhole buffers.now) looked.now }
{
    let mut done = mix_piece::<N>(looked, from, n, buffers, 0, samples);
    while done < samples.len() {
        done = mix_piece::<N>(looked, from, n, buffers, done, samples);
    }
}

// Writes those of a piece, from sample `done` on, and answers where it ends.
fn mix_piece<const N: usize>(
    looked: &[u32],
    from: &[u16],
    n: u32,
    buffers: &[Component],
    done: usize,
    samples: &mut [Sample],
) -> usize
    requires few { (length looked.now ≤ N) × (N ≤ 128) }
    requires ascends { Ascends (λ c. c.id) buffers.now }
    requires places { AreAt buffers.now looked.now from.now }
    requires held { AllByRecursion (λ b. n ≤ length (buffer_frames buffers.now b)) looked.now }
    requires samples { AllByRecursion (λ b. length samples.old ≡ n * channels_in buffers.now b) looked.now }
    requires within { done ≤ length samples.old }
    ensures within { (done ≤ result) × (result ≤ length samples.old) }
    ensures more { done < length samples.old → done < result }
    ensures before { (k : ℕ) → k < done → get_or samples.new k (pos 0) ≡ get_or samples.old k (pos 0) }
    ensures made { (k : ℕ) → done ≤ k → k < result → get_or samples.new k (pos 0) ≡ sat 32 (exact_sum k (map (samples_in buffers.now n) looked.now)) }
    ensures frames { AllByRecursion (IsWhole buffers.now) looked.now }
{
    let mut parts: ArrayVec<&[Sample], N> = ArrayVec::new();
    let left = samples.len() - done;
    let more = gather(looked, from, n, buffers, done, left, &mut parts);
    mix_parts(parts.as_slice(), &mut samples[done..done + more]);
    done + more
}

// Gathers the samples of the first `n` frames of each of these buffers from sample `done` on, each up to the end of its ring. Answers how
// many of `left` samples the shortest part has.
fn gather<'a, const N: usize>(
    looked: &[u32],
    from: &[u16],
    n: u32,
    buffers: &'a [Component],
    done: usize,
    left: usize,
    parts: &mut ArrayVec<&'a [Sample], N>,
) -> usize
    requires few { (length parts.old.items + length looked.now ≤ N) × (N ≤ 128) }
    requires none { length parts.old.items ≡ 0 }
    requires ascends { Ascends (λ c. c.id) buffers.now }
    requires places { AreAt buffers.now looked.now from.now }
    requires held { AllByRecursion (λ b. n ≤ length (buffer_frames buffers.now b)) looked.now }
    requires size { AllByRecursion (λ b. done + left ≡ n * channels_in buffers.now b) looked.now }
    ensures count { result ≤ left }
    ensures some { 1 ≤ left → 1 ≤ result }
    ensures many { length parts.new.items ≡ length looked.now }
    ensures long { AllByRecursion (λ part. result ≤ length part.now) parts.new.items }
    ensures sums { (k : ℕ) → k < result → exact_sum k (map (λ part. part.now) parts.new.items) ≡ exact_sum (done + k) (map (samples_in buffers.now n) looked.now) }
    ensures frames { AllByRecursion (IsWhole buffers.now) looked.now }
{
    let mut count = left;
    for i in 0..looked.len() {
        let part = part_of(buffers, looked[i], usize::from(from[i]), n, done);
        count = count.min(part.len());
        parts.push(part);
    }
    count
}

// The samples of the first `n` frames of the buffer at `at` from sample `done` on, up to the end of its ring.
fn part_of<'a>(buffers: &'a [Component], inlet: u32, at: usize, n: u32, done: usize) -> &'a [Sample]
    requires ascends { Ascends (λ c. c.id) buffers.now }
    requires place { Some at ≡ position (λ c. c.id == inlet) buffers.now }
    requires held { n ≤ length (buffer_frames buffers.now inlet) }
    requires within { done ≤ n * channels_in buffers.now inlet }
    ensures some { done < n * channels_in buffers.now inlet → 1 ≤ length result.now }
    ensures are { (k : ℕ) → k < length result.now → get_or result.now k (pos 0) ≡ get_or (samples_in buffers.now n inlet) (done + k) (pos 0) }
    ensures frames { IsWhole buffers.now inlet }
{
    let (front, back) = spans(buffers, inlet, at, n);
    if done < front.len() {
        &front[done..]
    } else {
        &back[done - front.len()..]
    }
}
