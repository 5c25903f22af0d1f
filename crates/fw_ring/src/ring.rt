// A ring over a piece.
ghost use Rattle.std.specs.Prelude.{◌≡◌, ℕ, ℤ, pos, [], ◌+◌, ◌*◌, ◌/◌, ◌%◌, ◌<◌, ◌≤◌, ◌^◌, ◌++◌, length, take, drop, slice_index_or};
ghost use Rattle.sof_base.specs.Samples.{width, sample_of, frames_in};
ghost use Rattle.sof_base.specs.FrameLists.{frames_of, samples_of};
ghost use Rattle.fw_gain.specs.Kernels.{all_amplified};
ghost use Rattle.fw_ring.specs.RingState.{capacity_of, place_after, IsRing, SameRing};
ghost use Rattle.fw_ring.specs.RingWords.{IsWindow, window_frames};
ghost use Rattle.fw_ring.specs.RingLaid.{own_words};

use crate::window::Window;
use fw_heap::Piece;
use sof_base::{Format, Sample};
use std::marker::Model;

/// Frames in the words of a piece after its first 32 bytes.
pub struct Ring {
    piece: Piece,
    window: Window,
}

impl Model for Ring {
    ghost use Rattle.fw_ring.specs.RingState.{RingState};

    ghost Value = { RingState };

    ghost use Rattle.fw_ring.specs.RingLaid.{ring_state, IsRingLaid};

    ghost view = { ring_state };

    ghost invariant = { IsRingLaid };
}

impl Ring {
    /// An empty ring of so many words, for frames of so many samples.
    pub fn over(piece: Piece, words: u32, channels: u8) -> Ring
        requires within { 32 + words * 4 ≤ piece.size }
        requires channels { (1 ≤ channels) × (channels ≤ 8) }
        ensures { result ≡ record { frames = []; words = words; channels = channels; start = 0; piece = piece } }
    {
        let _size = piece.size();
        Ring {
            piece,
            window: Window::new(words as usize, channels),
        }
    }

    /// Makes the empty ring one for frames of so many samples.
    pub fn set_channels(&mut self, channels: u8)
        requires empty { self.old.frames ≡ [] }
        requires channels { (1 ≤ channels) × (channels ≤ 8) }
        ensures { self.new ≡ record { frames = []; words = self.old.words; channels = channels; start = 0; piece = self.old.piece } }
    {
        self.window = Window::new(self.window.words, channels);
    }

    /// Drops all frames.
    pub fn clear(&mut self)
        ensures { self.new ≡ record { frames = []; words = self.old.words; channels = self.old.channels; start = 0; piece = self.old.piece } }
    {
        self.window = Window {
            start: 0,
            held: 0,
            ..self.window
        };
    }

    /// The word, of those for samples, at which the first frame begins.
    pub fn start(&self) -> u32
        ensures { result ≡ self.now.start }
    {
        (self.window.start * self.window.channels) as u32
    }

    /// How many samples a frame has, 1 to 8.
    pub fn channels(&self) -> u8
        ensures channels { result ≡ self.now.channels }
        ensures range { (1 ≤ result) × (result ≤ 8) }
    {
        self.window.channels as u8
    }

    /// How many frames there are.
    pub fn len(&self) -> u32
        ensures count { result ≡ length self.now.frames }
        ensures ring { IsRing self.now }
    {
        self.window.held as u32
    }

    /// How many more it has room for.
    pub fn free(&self) -> u32
        ensures { result + length self.now.frames ≡ capacity_of self.now }
    {
        (self.window.capacity - self.window.held) as u32
    }

    /// Appends the frames of these samples; the ring has room for them.
    pub fn push_frames(&mut self, samples: &[Sample])
        requires whole { length samples.now % self.old.channels ≡ 0 }
        requires fit { length self.old.frames + length samples.now / self.old.channels ≤ capacity_of self.old }
        ensures frames { self.new.frames ≡ self.old.frames ++ frames_of self.old.channels (length samples.now / self.old.channels) samples.now }
        ensures same { SameRing self.old self.new }
    {
        let window = self.window;
        let after = extend(self.piece.words_mut(), window, samples);
        self.window.held = after.held;
    }

    /// Appends the frames of these samples, each times the gain of its channel, of which 65536 is 1; the ring has room for them.
    pub fn push_amplified(&mut self, samples: &[Sample], channels: u8, gains: &[u32])
        requires channels { self.old.channels ≡ channels }
        requires whole { length samples.now % self.old.channels ≡ 0 }
        requires fit { length self.old.frames + length samples.now / self.old.channels ≤ capacity_of self.old }
        ensures frames { self.new.frames ≡ self.old.frames ++ frames_of self.old.channels (length samples.now / self.old.channels) (all_amplified self.old.channels gains.now samples.now) }
        ensures same { SameRing self.old self.new }
    {
        let window = self.window;
        let after = extend_amplified(self.piece.words_mut(), window, samples, channels, gains);
        self.window.held = after.held;
    }

    /// Appends the `n` frames whose bytes these are in a format; the ring has room for them.
    pub fn push_bytes(&mut self, format: Format, n: u32, bytes: &[u8])
        requires whole { length bytes.now ≡ n * (self.old.channels * width format) }
        requires fit { length self.old.frames + n ≤ capacity_of self.old }
        ensures frames { self.new.frames ≡ self.old.frames ++ frames_in format self.old.channels bytes.now 0 n }
        ensures same { SameRing self.old self.new }
    {
        let window = self.window;
        let after = extend_by(self.piece.words_mut(), window, format, n, bytes);
        self.window.held = after.held;
    }

    /// The samples of the first `n` frames: those up to the end of the words, and then those from their beginning. Each part has
    /// whole frames.
    pub fn spans(&self, n: u32) -> (&[Sample], &[Sample])
        requires { n ≤ length self.now.frames }
        ensures samples { result.0.now ++ result.1.now ≡ samples_of (take n self.now.frames) }
        ensures whole { length result.0.now % self.now.channels ≡ 0 }
    {
        let words = self.piece.words();
        let end = 8 + self.window.words;
        self.window.spans(&words[8..end], n as usize)
    }

    /// Drops the first `n` frames.
    pub fn take(&mut self, n: u32)
        requires { n ≤ length self.old.frames }
        ensures { self.new ≡ record { frames = drop n self.old.frames; words = self.old.words; channels = self.old.channels; start = place_after (capacity_of self.old * self.old.channels) self.old.start (n * self.old.channels); piece = self.old.piece } }
    {
        self.window = self.window.shortened(n as usize);
    }

    /// The piece that the ring was made over.
    pub fn piece(&self) -> &Piece
        ensures piece { result.now ≡ self.now.piece }
        ensures words { (j k : ℕ) → j < length self.now.frames → k < self.now.channels → sample_of (slice_index_or self.now.frames j []) k ≡ slice_index_or result.now.words (8 + place_after (capacity_of self.now * self.now.channels) self.now.start (j * self.now.channels + k)) (pos 0) }
    {
        &self.piece
    }

    pub fn into_piece(self) -> Piece
        ensures { result ≡ self.piece }
    {
        let Ring { piece, window: _ } = self;
        piece
    }
}

/// Appends the frames of these samples to those of a window of the words after the first eight.
fn extend(words: &mut [Sample], window: Window, samples: &[Sample]) -> Window
    requires window { IsWindow window }
    requires words { 8 + window.words ≤ length words.old }
    requires whole { length samples.now % window.channels ≡ 0 }
    requires fit { window.held + length samples.now / window.channels ≤ window.capacity }
    ensures window { result ≡ record window { held = window.held + length samples.now / window.channels } }
    ensures frames { window_frames result (own_words result.words words.new) ≡ window_frames window (own_words window.words words.old) ++ frames_of window.channels (length samples.now / window.channels) samples.now }
{
    let count = frames_in(samples.len(), window.channels);
    window.extended(&mut words[8..8 + window.words], count, samples)
}

/// Appends the frames of these samples times gains to those of a window of the words after the first eight.
fn extend_amplified(
    words: &mut [Sample],
    window: Window,
    samples: &[Sample],
    channels: u8,
    gains: &[u32],
) -> Window
    requires window { IsWindow window }
    requires words { 8 + window.words ≤ length words.old }
    requires channels { window.channels ≡ channels }
    requires whole { length samples.now % window.channels ≡ 0 }
    requires fit { window.held + length samples.now / window.channels ≤ window.capacity }
    ensures window { result ≡ record window { held = window.held + length samples.now / window.channels } }
    ensures frames { window_frames result (own_words result.words words.new) ≡ window_frames window (own_words window.words words.old) ++ frames_of window.channels (length samples.now / window.channels) (all_amplified window.channels gains.now samples.now) }
{
    let count = frames_in(samples.len(), window.channels);
    window.amplified(
        &mut words[8..8 + window.words],
        count,
        samples,
        channels,
        gains,
    )
}

/// Appends the frames of these bytes to those of a window of the words after the first eight.
fn extend_by(words: &mut [Sample], window: Window, format: Format, n: u32, bytes: &[u8]) -> Window
    requires window { IsWindow window }
    requires words { 8 + window.words ≤ length words.old }
    requires whole { length bytes.now ≡ n * (window.channels * width format) }
    requires fit { window.held + n ≤ window.capacity }
    ensures window { result ≡ record window { held = window.held + n } }
    ensures frames { window_frames result (own_words result.words words.new) ≡ window_frames window (own_words window.words words.old) ++ frames_in format window.channels bytes.now 0 n }
{
    window.extended_by(&mut words[8..8 + window.words], n as usize, format, bytes)
}

// How many frames so many samples are: one or two channels, as most streams have, take no division.
fn frames_in(samples: usize, channels: usize) -> usize
    requires { 1 ≤ channels }
    ensures { result ≡ samples / channels }
{
    match channels {
        1 => samples,
        2 => samples / 2,
        _ => samples / channels,
    }
}
