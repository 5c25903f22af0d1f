// Samples through the sections of their channels.
ghost use Rattle.std.specs.Prelude.{◌≡◌, ℕ, ◌+◌, ◌-◌, ◌*◌, ◌/◌, ◌%◌, ◌≤◌, ◌<◌, ◌⊎◌, min, length, take, true};
ghost use Rattle.sof_base.specs.Samples.{sample_of};
ghost use Rattle.sof_base.specs.FrameLists.{frames_of, samples_of};
ghost use Rattle.sof_base.specs.BlobParts as blob_parts;
ghost use Rattle.stream_law.specs.Equaliser.{sections_of, passed_frames, numbers_after};
ghost use Rattle.eq_blob.specs.WordBytes.{bytes_of_words};
ghost use Rattle.eq_biquad.specs.PieceWords.{AreNumbers};
ghost use Rattle.eq_biquad.specs.Passing.{in_turn, channel_numbers};
ghost use Rattle.eq_blob.specs.Sections.{sections_in, AreWithin};
ghost use Rattle.eq_biquad.specs.Stretches.{LaneGoes, StretchGoes, IsElsewhere, OnlyChannel, OnlyChannels};

use crate::lane::Lane;
use crate::lookup::find_sections;
use crate::numbers::{numbers_in, put_numbers};
use crate::one_section::pass_section;
use crate::pair_numbers::{near_series, put_series};
use crate::side_by_side::{pass_both, series_at};
use crate::stretch::Stretch;
use eq_blob::{Found, section_at};
use sof_base::Sample;

/// Passes frames through the sections of their channels. A channel without sections passes unchanged. Where `quick` is set, it is
/// tried first whether no sum has to be held. It is clear after one that had to be.
pub fn pass_channels(
    blob: &[i32],
    len: usize,
    numbers: &mut [i32],
    samples: &mut [Sample],
    channels: usize,
    quick: &mut bool,
)
    requires words { (length blob.now ≡ 256) × (len ≤ 1024) × (length numbers.old ≡ 512) }
    requires blob { 0 < len → blob_parts.IsBlob (take len (bytes_of_words blob.now)) }
    requires numbers { AreNumbers numbers.old }
    requires channels { (1 ≤ channels) × (channels ≤ 8) }
    requires whole { length samples.old % channels ≡ 0 }
    ensures samples { samples.new ≡ samples_of (passed_frames (take len (bytes_of_words blob.now)) channels (in_turn 0 (channel_numbers (take len (bytes_of_words blob.now)) numbers.old) channels) (frames_of channels (length samples.old / channels) samples.old)) }
    ensures numbers { in_turn 0 (channel_numbers (take len (bytes_of_words blob.now)) numbers.new) channels ≡ numbers_after (take len (bytes_of_words blob.now)) channels (in_turn 0 (channel_numbers (take len (bytes_of_words blob.now)) numbers.old) channels) (frames_of channels (length samples.old / channels) samples.old) }
    ensures within { AreNumbers numbers.new }
{
    let frames = samples.len() / channels;
    for pair in 0..channels / 2 {
        let lane = Lane {
            channel: 2 * pair,
            channels,
            frames,
        };
        pass_pair(blob, len, numbers, samples, lane, quick);
    }
    if channels % 2 == 1 {
        let lane = Lane {
            channel: channels - 1,
            channels,
            frames,
        };
        pass_alone(blob, len, numbers, samples, lane);
    }
}

/// Passes a channel and the one after it through their sections, two of each in one pass.
fn pass_pair(
    blob: &[i32],
    len: usize,
    numbers: &mut [i32],
    samples: &mut [Sample],
    at: Lane,
    quick: &mut bool,
)
    requires words { (length blob.now ≡ 256) × (len ≤ 1024) × (length numbers.old ≡ 512) }
    requires blob { 0 < len → blob_parts.IsBlob (take len (bytes_of_words blob.now)) }
    requires numbers { AreNumbers numbers.old }
    requires lane { (at.channel + 1 < at.channels) × (at.channels ≤ 8) × (at.frames * at.channels ≡ length samples.old) }
    ensures left { LaneGoes (sections_of (take len (bytes_of_words blob.now)) at.channel) (64 * at.channel) (length (sections_of (take len (bytes_of_words blob.now)) at.channel)) at.channels at.channel at.frames numbers.old samples.old numbers.new samples.new }
    ensures right { LaneGoes (sections_of (take len (bytes_of_words blob.now)) (at.channel + 1)) (64 * (at.channel + 1)) (length (sections_of (take len (bytes_of_words blob.now)) (at.channel + 1))) at.channels (at.channel + 1) at.frames numbers.old samples.old numbers.new samples.new }
    ensures others { OnlyChannels at.channels at.channel samples.old samples.new }
    ensures elsewhere { (i : ℕ) → (i < 64 * at.channel) ⊎ (64 * at.channel + 128 ≤ i) → sample_of numbers.new i ≡ sample_of numbers.old i }
    ensures within { AreNumbers numbers.new }
{
    let left = sections_found(blob, len, at.channel);
    let right = sections_found(blob, len, at.channel + 1);
    for s in 0..4 {
        let one = two_of(left, 8 * at.channel, s);
        let other = two_of(right, 8 * at.channel + 8, s);
        pass_two(blob, len, one, other, numbers, samples, at, quick);
    }
}

/// Passes a channel through its sections.
fn pass_alone(blob: &[i32], len: usize, numbers: &mut [i32], samples: &mut [Sample], at: Lane)
    requires words { (length blob.now ≡ 256) × (len ≤ 1024) × (length numbers.old ≡ 512) }
    requires blob { 0 < len → blob_parts.IsBlob (take len (bytes_of_words blob.now)) }
    requires numbers { AreNumbers numbers.old }
    requires lane { (at.channel < at.channels) × (at.channels ≤ 8) × (at.frames * at.channels ≡ length samples.old) }
    ensures lane { LaneGoes (sections_of (take len (bytes_of_words blob.now)) at.channel) (64 * at.channel) (length (sections_of (take len (bytes_of_words blob.now)) at.channel)) at.channels at.channel at.frames numbers.old samples.old numbers.new samples.new }
    ensures others { OnlyChannel at.channels at.channel samples.old samples.new }
    ensures elsewhere { (i : ℕ) → (i < 64 * at.channel) ⊎ (64 * at.channel + 64 ≤ i) → sample_of numbers.new i ≡ sample_of numbers.old i }
    ensures within { AreNumbers numbers.new }
{
    let found = sections_found(blob, len, at.channel);
    let slot = 8 * at.channel;
    pass_stretch(blob, len, Stretch { found, slot }, numbers, samples, at);
}

/// The sections of a channel: their count is 0 where it has none.
fn sections_found(blob: &[i32], len: usize, channel: usize) -> Found
    requires words { (length blob.now ≡ 256) × (len ≤ 1024) }
    requires blob { 0 < len → blob_parts.IsBlob (take len (bytes_of_words blob.now)) }
    ensures sections { sections_in (take len (bytes_of_words blob.now)) (4 * result.place) result.count ≡ sections_of (take len (bytes_of_words blob.now)) channel }
    ensures within { AreWithin (take len (bytes_of_words blob.now)) result }
{
    if let Some(found) = find_sections(blob, len, channel) {
        return found;
    }
    Found { place: 0, count: 0 }
}

/// The sections 2s and 2s+1 of those that were found, as far as they are there. The numbers of the first one found stand in this slot.
fn two_of(found: Found, slot: usize, s: usize) -> Stretch
    requires { (found.count ≤ 8) × ((found.place ≤ 256) × ((slot ≤ 56) × (s ≤ 4))) }
    ensures place { result.found.place ≡ found.place + 7 * min found.count (2 * s) }
    ensures count { result.found.count ≡ min (found.count - min found.count (2 * s)) 2 }
    ensures slot { result.slot ≡ slot + min found.count (2 * s) }
{
    let before = found.count.min(2 * s);
    let place = found.place + 7 * before;
    let count = (found.count - before).min(2);
    Stretch {
        found: Found { place, count },
        slot: slot + before,
    }
}

/// Passes a channel through a stretch of its sections, and the channel after it through another.
fn pass_two(
    blob: &[i32],
    len: usize,
    left: Stretch,
    right: Stretch,
    numbers: &mut [i32],
    samples: &mut [Sample],
    at: Lane,
    quick: &mut bool,
)
    requires words { (length blob.now ≡ 256) × (len ≤ 1024) × (length numbers.old ≡ 512) }
    requires left { AreWithin (take len (bytes_of_words blob.now)) left.found }
    requires right { AreWithin (take len (bytes_of_words blob.now)) right.found }
    requires slots { (left.slot + left.found.count ≤ right.slot) × (right.slot + right.found.count ≤ 64) }
    requires numbers { AreNumbers numbers.old }
    requires lane { (at.channel + 1 < at.channels) × (at.channels ≤ 8) × (at.frames * at.channels ≡ length samples.old) }
    ensures left { StretchGoes (take len (bytes_of_words blob.now)) left at.channel at numbers.old samples.old numbers.new samples.new }
    ensures right { StretchGoes (take len (bytes_of_words blob.now)) right (at.channel + 1) at numbers.old samples.old numbers.new samples.new }
    ensures others { OnlyChannels at.channels at.channel samples.old samples.new }
    ensures elsewhere { (i : ℕ) → IsElsewhere left.slot left.found.count i → IsElsewhere right.slot right.found.count i → sample_of numbers.new i ≡ sample_of numbers.old i }
    ensures within { AreNumbers numbers.new }
{
    if are_pairs(left, right) {
        let one = series_at(blob, len, left.found.place);
        let other = series_at(blob, len, right.found.place);
        if let Some(near) = near_series(&one, &other, numbers, left.slot) {
            let after = pass_both(&one, &other, near, samples, at, quick);
            put_series(numbers, left.slot, after);
            return;
        }
    }
    pass_apart(blob, len, left, right, numbers, samples, at);
}

/// Whether both stretches have two sections, whose slots are eight apart.
fn are_pairs(left: Stretch, right: Stretch) -> bool
    requires { left.slot ≤ 64 }
    ensures { result ≡ true → (left.found.count ≡ 2) × ((right.found.count ≡ 2) × (right.slot ≡ left.slot + 8)) }
{
    left.found.count == 2 && right.found.count == 2 && right.slot == left.slot + 8
}

/// The same, one channel after the other.
fn pass_apart(
    blob: &[i32],
    len: usize,
    left: Stretch,
    right: Stretch,
    numbers: &mut [i32],
    samples: &mut [Sample],
    at: Lane,
)
    requires words { (length blob.now ≡ 256) × (len ≤ 1024) × (length numbers.old ≡ 512) }
    requires left { AreWithin (take len (bytes_of_words blob.now)) left.found }
    requires right { AreWithin (take len (bytes_of_words blob.now)) right.found }
    requires slots { (left.slot + left.found.count ≤ right.slot) × (right.slot + right.found.count ≤ 64) }
    requires numbers { AreNumbers numbers.old }
    requires lane { (at.channel + 1 < at.channels) × (at.channels ≤ 8) × (at.frames * at.channels ≡ length samples.old) }
    ensures left { StretchGoes (take len (bytes_of_words blob.now)) left at.channel at numbers.old samples.old numbers.new samples.new }
    ensures right { StretchGoes (take len (bytes_of_words blob.now)) right (at.channel + 1) at numbers.old samples.old numbers.new samples.new }
    ensures others { OnlyChannels at.channels at.channel samples.old samples.new }
    ensures elsewhere { (i : ℕ) → IsElsewhere left.slot left.found.count i → IsElsewhere right.slot right.found.count i → sample_of numbers.new i ≡ sample_of numbers.old i }
    ensures within { AreNumbers numbers.new }
{
    pass_stretch(blob, len, left, numbers, samples, at);
    let behind = Lane {
        channel: at.channel + 1,
        channels: at.channels,
        frames: at.frames,
    };
    pass_stretch(blob, len, right, numbers, samples, behind);
}

/// Passes one channel through a stretch of its sections, one after the other.
fn pass_stretch(
    blob: &[i32],
    len: usize,
    stretch: Stretch,
    numbers: &mut [i32],
    samples: &mut [Sample],
    at: Lane,
)
    requires words { (length blob.now ≡ 256) × (len ≤ 1024) × (length numbers.old ≡ 512) }
    requires found { AreWithin (take len (bytes_of_words blob.now)) stretch.found }
    requires slots { stretch.slot + stretch.found.count ≤ 64 }
    requires numbers { AreNumbers numbers.old }
    requires lane { (at.channel < at.channels) × (at.channels ≤ 8) × (at.frames * at.channels ≡ length samples.old) }
    ensures lane { StretchGoes (take len (bytes_of_words blob.now)) stretch at.channel at numbers.old samples.old numbers.new samples.new }
    ensures others { OnlyChannel at.channels at.channel samples.old samples.new }
    ensures elsewhere { (i : ℕ) → IsElsewhere stretch.slot stretch.found.count i → sample_of numbers.new i ≡ sample_of numbers.old i }
    ensures within { AreNumbers numbers.new }
{
    for s in 0..stretch.found.count {
        let section = section_at(blob, len, stretch.found.place + 7 * s);
        let place = 8 * stretch.slot + 8 * s;
        let after = pass_section(&section, numbers_in(numbers, place), samples, at);
        put_numbers(numbers, place, after);
    }
}
