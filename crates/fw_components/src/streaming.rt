// What begins with a stream, and frames that endpoints feed and pull.
ghost use Rattle.std.specs.Prelude.{◌≡◌, ◌+◌, ◌*◌, ◌/◌, ◌%◌, ◌≤◌, ◌++◌, ◌==◌, true, Some, length, take, position};
ghost use Rattle.std.specs.List.{list_any};
ghost use Rattle.sof_base.specs.Samples.{width, frames_in};
ghost use Rattle.sof_base.specs.FrameLists.{frames_of, samples_of};
ghost use Rattle.fw_components.specs.Tables.{held_frames, capacity_at};
ghost use Rattle.fw_components.specs.Changes.{found, is_there};
ghost use Rattle.fw_units.specs.Frames.{IsFreshBy, comes_from, goes_to};
ghost use Rattle.sof_base.specs.Rates.{is_rate};
ghost use Rattle.fw_components.specs.Frames.{begun, words_at, staged_at, channels_at, buffer_out_of as out_id, in_of as in_id, with_taken, pushed};

use crate::registry::Registry;
use fw_moves::spans;
use fw_units::{in_of, out_of, place_of};
use sof_base::{Format, Params, Sample};

impl Registry {
    /// The one of this id becomes Live with so many channels, 1 to 8, at so many frames a second: a ring is empty, an equaliser's epoch
    /// begins, and a volume has the gains that are set.
    pub fn begin(&mut self, id: u32, p: Params)
        requires there { is_there self.old id ≡ true }
        requires channels { (1 ≤ p.channels) × (p.channels ≤ 8) }
        requires rate { is_rate p.rate ≡ true }
        ensures tables { self.new ≡ begun id p.channels p.rate (words_at self.new id) self.old }
        ensures fresh { IsFreshBy (found self.new id) }
        ensures staged { staged_at self.new id ≡ staged_at self.old id }
    {
        if let Some(at) = self.comp_hints.place_of(self.comps.as_slice(), id) {
            self.comps[at].begin(p.channels, p.rate);
        } else if let Some(at) = self.buffer_hints.place_of(self.buffers.as_slice(), id) {
            self.buffers[at].begin(p.channels, p.rate);
        } else if let Some(at) = place_of(self.pipes.as_slice(), id) {
            self.pipes[at].begin(p.channels, p.rate);
        }
    }

    /// Puts the `n` frames whose bytes these are in a format after those of this buffer, which has room for them and stands at `at`.
    /// This takes no memory.
    pub fn push_bytes(&mut self, _buffer: u32, at: usize, format: Format, n: u32, bytes: &[u8])
        requires place { Some at ≡ position (λ c. c.id == _buffer) self.old.buffers }
        requires whole { length bytes.now ≡ n * (channels_at self.old _buffer * width format) }
        requires fit { length (held_frames self.old _buffer) + n ≤ capacity_at self.old _buffer }
        ensures { self.new ≡ pushed _buffer (frames_in format (channels_at self.old _buffer) bytes.now 0 n) (words_at self.new _buffer) self.old }
    {
        self.buffers[at].push_bytes(format, n, bytes);
    }

    /// The samples of the first `n` frames of this buffer, which holds them and stands at `at`, in two parts of whole frames. This takes
    /// no memory.
    pub fn spans(&self, buffer: u32, at: usize, n: u32) -> (&[Sample], &[Sample])
        requires place { Some at ≡ position (λ c. c.id == buffer) self.now.buffers }
        requires held { n ≤ length (held_frames self.now buffer) }
        ensures samples { result.0.now ++ result.1.now ≡ samples_of (take n (held_frames self.now buffer)) }
        ensures whole { length result.0.now % channels_at self.now buffer ≡ 0 }
        ensures size { length result.0.now + length result.1.now ≡ n * channels_at self.now buffer }
    {
        spans(self.buffers.as_slice(), buffer, at, n)
    }

    /// Takes the first `n` frames from this buffer, which holds them and stands at `at`. This takes no memory.
    pub fn shorten(&mut self, _buffer: u32, at: usize, n: u32)
        requires place { Some at ≡ position (λ c. c.id == _buffer) self.old.buffers }
        requires held { n ≤ length (held_frames self.old _buffer) }
        ensures { self.new ≡ with_taken _buffer n self.old }
    {
        self.buffers[at].take(n);
    }

    /// Puts the frames of these samples after those of the buffer that comes from this component, which has room for them: `samples`
    /// has a sample of each channel for each frame. This takes no memory.
    pub fn feed(&mut self, id: u32, samples: &[Sample])
        requires there { list_any (comes_from id) self.old.buffers ≡ true }
        requires whole { length samples.now % channels_at self.old (out_id self.old id) ≡ 0 }
        requires fit { length (held_frames self.old (out_id self.old id)) + length samples.now / channels_at self.old (out_id self.old id) ≤ capacity_at self.old (out_id self.old id) }
        ensures { let buffer = out_id self.old id in
            let channels = channels_at self.old buffer in
            self.new ≡ pushed buffer (frames_of channels (length samples.now / channels) samples.now) (words_at self.new buffer) self.old }
    {
        match out_of(self.buffers.as_slice(), id) {
            Some(buffer) => {
                let at = self.buffer_hints.place(self.buffers.as_slice(), buffer);
                self.buffers[at].push(samples);
            }
            None => unreachable!(),
        }
    }

    /// Takes as many frames as `samples` has room for from the buffer that goes to this component, which holds them, and writes
    /// their samples, a sample of each channel for each frame. This takes no memory.
    pub fn pull(&mut self, id: u32, samples: &mut [Sample])
        requires there { list_any (goes_to id) self.old.buffers ≡ true }
        requires whole { length samples.old % channels_at self.old (in_id self.old id) ≡ 0 }
        requires held { length samples.old / channels_at self.old (in_id self.old id) ≤ length (held_frames self.old (in_id self.old id)) }
        ensures tables { let buffer = in_id self.old id in
            self.new ≡ with_taken buffer (length samples.old / channels_at self.old buffer) self.old }
        ensures samples { let buffer = in_id self.old id in
            samples.new ≡ samples_of (take (length samples.old / channels_at self.old buffer) (held_frames self.old buffer)) }
    {
        match in_of(self.buffers.as_slice(), id) {
            Some(buffer) => {
                let at = self.buffer_hints.place(self.buffers.as_slice(), buffer);
                let it = &self.buffers[at];
                let n = (samples.len() / it.frame_samples()).min(it.held() as usize) as u32;
                it.copy(n, samples);
                self.buffers[at].take(n);
            }
            None => unreachable!(),
        }
    }
}
