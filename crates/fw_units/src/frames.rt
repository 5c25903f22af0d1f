// What begins with a stream, and frames in the ring of one buffer.
ghost use Rattle.std.specs.Prelude.{◌≡◌, ◌+◌, ◌*◌, ◌/◌, ◌%◌, ◌≤◌, ◌++◌, length, take};
ghost use Rattle.sof_base.specs.Samples.{width, frames_in};
ghost use Rattle.sof_base.specs.FrameLists.{frames_of, samples_of, AreFrames};
ghost use Rattle.fw_gain.specs.Kernels.{all_amplified};
ghost use Rattle.stream_law.specs.Ways.{is_end};
ghost use Rattle.sof_base.specs.Ramps.{ramp_frames};
ghost use Rattle.fw_units.specs.Units.{ramp_by, unit_frames, capacity_by};
ghost use Rattle.fw_units.specs.Frames.{kept_words, begun_by, IsFresh, staged_by, channels_by, taken_by, pushed_by, comes_from, goes_to};

use crate::component::{Component, Unit};
use sof_base::{Format, Sample};

impl Component {
    /// It has so many channels from now on, at so many frames a second; a ring is empty and has frames of them, an equaliser's epoch
    /// begins, and a volume has the gains that are set.
    pub fn begin(&mut self, channels: u8, rate: u32)
        requires channels { (1 ≤ channels) × (channels ≤ 8) }
        requires rate { rate ≤ 192000 }
        requires ramp { ramp_by self.old.unit ≤ 10000 }
        ensures begun { self.new ≡ begun_by channels rate (kept_words self.new) self.old }
        ensures fresh { IsFresh self.new.unit }
        ensures staged { staged_by self.new.unit ≡ staged_by self.old.unit }
    {
        self.channels = channels;
        match &mut self.unit {
            Unit::Eq { eq, .. } => eq.clear(),
            Unit::Buffer { ring, .. } => {
                ring.clear();
                ring.set_channels(channels);
            }
            Unit::Volume {
                gains,
                ramp,
                from,
                done,
                length,
                ..
            } => {
                *from = gains.copied();
                *done = 0;
                *length = frames_of_ramp(*ramp, rate);
            }
            _ => (),
        }
    }

    /// The ring of a buffer loses its first frames.
    pub fn take(&mut self, n: u32)
        requires { n ≤ length (unit_frames self.old.unit) }
        ensures { self.new ≡ taken_by n self.old }
    {
        if let Unit::Buffer { ring, .. } = &mut self.unit {
            ring.take(n);
        }
    }

    /// The ring of a buffer has the frames of these samples after its own.
    pub fn push(&mut self, samples: &[Sample])
        requires whole { length samples.now % channels_by self.old.unit ≡ 0 }
        requires fit { length (unit_frames self.old.unit) + length samples.now / channels_by self.old.unit ≤ capacity_by self.old.unit }
        ensures { self.new ≡ pushed_by (frames_of (channels_by self.old.unit) (length samples.now / channels_by self.old.unit) samples.now) (kept_words self.new) self.old }
    {
        if let Unit::Buffer { ring, .. } = &mut self.unit {
            ring.push_frames(samples);
        }
    }

    /// The ring of a buffer has the frames of these samples after its own, each times the gain of its channel.
    fn push_amplified(&mut self, samples: &[Sample], channels: u8, gains: &[u32])
        requires channels { channels_by self.old.unit ≡ channels }
        requires whole { length samples.now % channels_by self.old.unit ≡ 0 }
        requires fit { length (unit_frames self.old.unit) + length samples.now / channels_by self.old.unit ≤ capacity_by self.old.unit }
        ensures { self.new ≡ pushed_by (frames_of (channels_by self.old.unit) (length samples.now / channels_by self.old.unit) (all_amplified (channels_by self.old.unit) gains.now samples.now)) (kept_words self.new) self.old }
    {
        if let Unit::Buffer { ring, .. } = &mut self.unit {
            ring.push_amplified(samples, channels, gains);
        }
    }

    /// The ring of a buffer has the first `n` frames of another after its own, each sample times the gain of its channel.
    pub fn amplify_from(&mut self, from: &Component, n: u32, channels: u8, gains: &[u32])
        requires shape { channels_by from.now.unit ≡ channels }
        requires own { channels_by self.old.unit ≡ channels }
        requires held { n ≤ length (unit_frames from.now.unit) }
        requires fit { length (unit_frames self.old.unit) + n ≤ capacity_by self.old.unit }
        ensures pushed { self.new ≡ pushed_by (frames_of channels n (all_amplified channels gains.now (samples_of (take n (unit_frames from.now.unit))))) (kept_words self.new) self.old }
        ensures frames { AreFrames (channels_by from.now.unit) (unit_frames from.now.unit) }
        ensures some { 1 ≤ channels }
    {
        // For the proof alone: a frame has a sample at least.
        let _width = from.frame_samples();
        let (front, back) = from.spans(n);
        self.push_amplified(front, channels, gains);
        if !back.is_empty() {
            self.push_amplified(back, channels, gains);
        }
    }

    /// The ring of a buffer has the frames of these bytes after its own.
    pub fn push_bytes(&mut self, format: Format, n: u32, bytes: &[u8])
        requires whole { length bytes.now ≡ n * (channels_by self.old.unit * width format) }
        requires fit { length (unit_frames self.old.unit) + n ≤ capacity_by self.old.unit }
        ensures { self.new ≡ pushed_by (frames_in format (channels_by self.old.unit) bytes.now 0 n) (kept_words self.new) self.old }
    {
        if let Unit::Buffer { ring, .. } = &mut self.unit {
            ring.push_bytes(format, n, bytes);
        }
    }

    /// Whether it is a buffer that comes from this component.
    pub(crate) fn comes_from(&self, id: u32) -> bool
        ensures { result ≡ comes_from id self.now }
    {
        matches!(&self.unit, Unit::Buffer { source, .. } if is_end(*source, id))
    }

    /// Whether it is a buffer that goes to this component.
    pub(crate) fn goes_to(&self, id: u32) -> bool
        ensures { result ≡ goes_to id self.now }
    {
        matches!(&self.unit, Unit::Buffer { sink, .. } if is_end(*sink, id))
    }

    /// How many samples a frame of a buffer has, 1 to 8.
    pub fn frame_samples(&self) -> usize
        ensures some { 1 ≤ result }
        ensures few { result ≤ 8 }
        ensures is { result ≡ channels_by self.now.unit }
    {
        match &self.unit {
            Unit::Buffer { ring, .. } => usize::from(ring.channels()),
            _ => 1,
        }
    }

    /// The samples of the first `n` frames of a buffer, in two parts of whole frames.
    pub fn spans(&self, n: u32) -> (&[Sample], &[Sample])
        requires { n ≤ length (unit_frames self.now.unit) }
        ensures samples { result.0.now ++ result.1.now ≡ samples_of (take n (unit_frames self.now.unit)) }
        ensures whole { length result.0.now % channels_by self.now.unit ≡ 0 }
        ensures frames { AreFrames (channels_by self.now.unit) (unit_frames self.now.unit) }
    {
        match &self.unit {
            Unit::Buffer { ring, .. } => {
                let _held = ring.len();
                ring.spans(n)
            }
            _ => (&[], &[]),
        }
    }

    /// Writes the samples of the first `n` frames of a buffer.
    pub fn copy(&self, n: u32, samples: &mut [Sample])
        requires held { n ≤ length (unit_frames self.now.unit) }
        requires size { length samples.old ≡ n * channels_by self.now.unit }
        ensures { samples.new ≡ samples_of (take n (unit_frames self.now.unit)) }
    {
        let (front, back) = self.spans(n);
        copy_both(front, back, samples);
    }
}

// The frames of a ramp of so many milliseconds.
fn frames_of_ramp(milliseconds: u32, rate: u32) -> u32
    requires ramp { milliseconds ≤ 10000 }
    requires rate { rate ≤ 192000 }
    ensures { result ≡ ramp_frames milliseconds rate }
{
    milliseconds * rate / 1000
}

fn is_end(end: Option<u32>, id: u32) -> bool
    ensures { result ≡ is_end end id }
{
    match end {
        Some(end) => end == id,
        None => false,
    }
}

/// Writes samples and those after them.
pub fn copy_both(front: &[Sample], back: &[Sample], samples: &mut [Sample])
    requires { length front.now + length back.now ≡ length samples.old }
    ensures { samples.new ≡ front.now ++ back.now }
{
    let (near, far) = samples.split_at_mut(front.len());
    near.copy_from_slice(front);
    if !back.is_empty() {
        far.copy_from_slice(back);
    }
}
