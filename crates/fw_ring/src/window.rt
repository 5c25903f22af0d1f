// The frames of one ring, in words of its own.
ghost use Rattle.std.specs.Prelude.{◌≡◌, ◌+◌, ◌-◌, ◌*◌, ◌/◌, ◌%◌, ◌<◌, ◌≤◌, ◌^◌, ◌++◌, length, take, drop};
ghost use Rattle.sof_base.specs.Samples.{width, frames_in};
ghost use Rattle.sof_base.specs.FrameLists.{frames_of, samples_of};
ghost use Rattle.fw_gain.specs.Kernels.{all_amplified};
ghost use Rattle.fw_ring.specs.RingWords.{IsWindow, window_frames, wrapped};

use crate::samples::read_samples;
use fw_gain::volume;
use sof_base::{Format, Sample};

/// How a ring holds its frames: `words` words have room for `capacity` frames of `channels` samples. Of these the `held` frames
/// from `start` on are in use, round the end.
#[derive(Clone, Copy)]
pub struct Window {
    pub words: usize,
    pub channels: usize,
    pub capacity: usize,
    pub start: usize,
    pub held: usize,
}

impl Window {
    /// The empty window of so many words, for frames of so many samples, 1 to 8.
    pub fn new(words: usize, channels: u8) -> Window
        requires words { words < 2 ^ 30 }
        requires channels { (1 ≤ channels) × (channels ≤ 8) }
        ensures window { IsWindow result }
        ensures empty { (result.words ≡ words) × (result.channels ≡ channels) × (result.held ≡ 0) × (result.start ≡ 0) }
    {
        let channels = usize::from(channels);
        Window {
            words,
            channels,
            capacity: words / channels,
            start: 0,
            held: 0,
        }
    }

    /// Appends the `count` frames of these samples.
    pub fn extended(self, words: &mut [Sample], count: usize, samples: &[Sample]) -> Window
        requires window { IsWindow self }
        requires words { length words.old ≡ self.words }
        requires whole { length samples.now ≡ count * self.channels }
        requires fit { self.held + count ≤ self.capacity }
        ensures window { result ≡ record self { held = self.held + count } }
        ensures frames { window_frames result words.new ≡ window_frames self words.old ++ frames_of self.channels count samples.now }
    {
        let near = self.capacity - wrap(self.capacity, self.start, self.held);
        if count <= near {
            return self.copied(words, count, samples);
        }
        let (front, back) = samples.split_at(near * self.channels);
        let first = self.copied(words, near, front);
        first.copied(words, count - near, back)
    }

    /// Appends the `count` frames of these samples, each times the gain of its channel.
    pub fn amplified(
        self,
        words: &mut [Sample],
        count: usize,
        samples: &[Sample],
        channels: u8,
        gains: &[u32],
    ) -> Window
        requires window { IsWindow self }
        requires words { length words.old ≡ self.words }
        requires channels { self.channels ≡ channels }
        requires whole { length samples.now ≡ count * self.channels }
        requires fit { self.held + count ≤ self.capacity }
        ensures window { result ≡ record self { held = self.held + count } }
        ensures frames { window_frames result words.new ≡ window_frames self words.old ++ frames_of self.channels count (all_amplified self.channels gains.now samples.now) }
    {
        let near = self.capacity - wrap(self.capacity, self.start, self.held);
        if count <= near {
            return self.scaled(words, count, samples, channels, gains);
        }
        let (front, back) = samples.split_at(near * self.channels);
        let first = self.scaled(words, near, front, channels, gains);
        first.scaled(words, count - near, back, channels, gains)
    }

    /// Appends the `count` frames whose bytes these are in a format.
    pub fn extended_by(
        self,
        words: &mut [Sample],
        count: usize,
        format: Format,
        bytes: &[u8],
    ) -> Window
        requires window { IsWindow self }
        requires words { length words.old ≡ self.words }
        requires whole { length bytes.now ≡ count * (self.channels * width format) }
        requires fit { self.held + count ≤ self.capacity }
        ensures window { result ≡ record self { held = self.held + count } }
        ensures frames { window_frames result words.new ≡ window_frames self words.old ++ frames_in format self.channels bytes.now 0 count }
    {
        let near = self.capacity - wrap(self.capacity, self.start, self.held);
        if count <= near {
            return self.read(words, count, format, bytes);
        }
        let (front, back) = bytes.split_at(near * (self.channels * format.width()));
        let first = self.read(words, near, format, front);
        first.read(words, count - near, format, back)
    }

    /// The words of the first `count` frames: those up to the end of the room, and then those from its beginning.
    pub fn spans(self, words: &[Sample], count: usize) -> (&[Sample], &[Sample])
        requires window { IsWindow self }
        requires words { length words.now ≡ self.words }
        requires held { count ≤ self.held }
        ensures samples { result.0.now ++ result.1.now ≡ samples_of (take count (window_frames self words.now)) }
        ensures whole { length result.0.now % self.channels ≡ 0 }
    {
        let near = count.min(self.capacity - self.start);
        let at = self.start * self.channels;
        let front = &words[at..at + near * self.channels];
        let back = &words[..(count - near) * self.channels];
        (front, back)
    }

    /// The window without its first `count` frames.
    pub fn shortened(self, count: usize) -> Window
        requires window { IsWindow self }
        requires held { count ≤ self.held }
        ensures { result ≡ record self { start = wrapped self.capacity self.start count; held = self.held - count } }
    {
        Window {
            start: wrap(self.capacity, self.start, count),
            held: self.held - count,
            ..self
        }
    }

    // Appends frames of samples that come to lie before the end of the words.
    fn copied(self, words: &mut [Sample], count: usize, samples: &[Sample]) -> Window
        requires window { IsWindow self }
        requires words { length words.old ≡ self.words }
        requires whole { length samples.now ≡ count * self.channels }
        requires fit { self.held + count ≤ self.capacity }
        requires near { wrapped self.capacity self.start self.held + count ≤ self.capacity }
        ensures window { result ≡ record self { held = self.held + count } }
        ensures frames { window_frames result words.new ≡ window_frames self words.old ++ frames_of self.channels count samples.now }
    {
        let at = wrap(self.capacity, self.start, self.held) * self.channels;
        words[at..at + count * self.channels].copy_from_slice(samples);
        Window {
            held: self.held + count,
            ..self
        }
    }

    // Appends frames of samples times gains that come to lie before the end of the words.
    fn scaled(
        self,
        words: &mut [Sample],
        count: usize,
        samples: &[Sample],
        channels: u8,
        gains: &[u32],
    ) -> Window
        requires window { IsWindow self }
        requires words { length words.old ≡ self.words }
        requires channels { self.channels ≡ channels }
        requires whole { length samples.now ≡ count * self.channels }
        requires fit { self.held + count ≤ self.capacity }
        requires near { wrapped self.capacity self.start self.held + count ≤ self.capacity }
        ensures window { result ≡ record self { held = self.held + count } }
        ensures frames { window_frames result words.new ≡ window_frames self words.old ++ frames_of self.channels count (all_amplified self.channels gains.now samples.now) }
    {
        let at = wrap(self.capacity, self.start, self.held) * self.channels;
        volume(
            samples,
            &mut words[at..at + count * self.channels],
            channels,
            gains,
        );
        Window {
            held: self.held + count,
            ..self
        }
    }

    // Appends frames of bytes, whose samples come to lie before the end of the words.
    fn read(self, words: &mut [Sample], count: usize, format: Format, bytes: &[u8]) -> Window
        requires window { IsWindow self }
        requires words { length words.old ≡ self.words }
        requires whole { length bytes.now ≡ count * (self.channels * width format) }
        requires fit { self.held + count ≤ self.capacity }
        requires near { wrapped self.capacity self.start self.held + count ≤ self.capacity }
        ensures window { result ≡ record self { held = self.held + count } }
        ensures frames { window_frames result words.new ≡ window_frames self words.old ++ frames_in format self.channels bytes.now 0 count }
    {
        let at = wrap(self.capacity, self.start, self.held) * self.channels;
        read_samples(format, bytes, &mut words[at..at + count * self.channels]);
        Window {
            held: self.held + count,
            ..self
        }
    }
}

// The place `n` past `start`, round the end of the room.
fn wrap(room: usize, start: usize, n: usize) -> usize
    requires { (start ≤ room) × (n ≤ room) }
    ensures { result ≡ wrapped room start n }
{
    let ahead = room - start;
    if n < ahead { start + n } else { n - ahead }
}
