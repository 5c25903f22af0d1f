// Bytes with a size word, and their words.
ghost use Rattle.std.specs.Prelude.{◌≡◌, ◌≤◌, ◌+◌, ◌*◌, IfOk};
ghost use Rattle.std.specs.Int.{w32, cast_signed};
ghost use Rattle.sof_base.specs.Slots.{word_at, half_at, part};
ghost use Rattle.ipc3_model.specs.Places.{any_bytes, any_word};
ghost use Rattle.ipc3_codec.specs.Reading.{framed, word_in, run_in, bytes_in};

use ipc3_model::CodecFault;
use sof_base::{PartBytes, bytes_at, half, word};
use std::marker::Model;

/// Bytes whose size word is at most 384 and at most their number. A word of them is read only where it lies within the
/// size word. All places are in bytes from 0.
#[derive(Drop)]
pub struct Frame<'a> {
    bytes: &'a [u8],
    size: usize,
}

impl<'a> Model for Frame<'a> {
    ghost use Rattle.std.specs.Prelude.{List, ℕ, ◌≡◌, ◌≤◌, length};
    ghost use Rattle.sof_base.specs.Slots.{word_at};

    ghost Value = { List ℕ };

    ghost view = { λ a. a.bytes.now };

    ghost invariant = { λ a. (a.size ≡ word_at a.bytes.now 0) × (8 ≤ a.size) × (a.size ≤ length a.bytes.now) };
}

impl<'a> Frame<'a> {
    /// The bytes, where their size word is at least this header's size, of 8 bytes or more.
    #[tactic(auto, unfolding(crate::specs::Reading::framed))]
    pub fn new(bytes: &'a [u8], header: usize) -> Result<Frame<'a>, CodecFault>
        requires { 8 ≤ header }
        ensures framed { result ≡ framed header bytes.now }
        ensures room { IfOk result (λ f. header ≤ word_at f 0) }
    {
        if bytes.len() < header {
            return Err(CodecFault::Short);
        }
        let size = word(bytes, 0) as usize;
        if size < header || size > 384 || size > bytes.len() {
            return Err(CodecFault::SizeWord);
        }
        Ok(Frame { bytes, size })
    }

    /// The size word.
    pub fn size(&self) -> usize
        ensures { result ≡ word_at self.now 0 }
    {
        self.size
    }

    /// The error of a reply.
    pub fn error(&self) -> i32
        requires { 12 ≤ word_at self.now 0 }
        ensures { result ≡ cast_signed w32 (word_at self.now 8) }
    {
        word(self.bytes, 8).cast_signed()
    }

    /// The command word.
    pub fn command(&self) -> u32
        ensures { result ≡ word_at self.now 4 }
    {
        word(self.bytes, 4)
    }

    /// The word at this place, of any value.
    #[tactic(auto, unfolding(crate::specs::Reading::word_in))]
    pub fn word(&self, at: usize) -> Result<u32, CodecFault>
        ensures read { result ≡ word_in self.now (any_word at) }
        ensures value { IfOk result (λ n. n ≡ word_at self.now at) }
    {
        if self.size.saturating_sub(at) < 4 {
            return Err(CodecFault::Field(at));
        }
        Ok(word(self.bytes, at))
    }

    /// The word of two bytes at this place, of any value.
    #[tactic(auto, unfolding(crate::specs::Reading::word_in))]
    pub fn half(&self, at: usize) -> Result<u16, CodecFault>
        ensures read { result ≡ word_in self.now (any_bytes at 2) }
        ensures value { IfOk result (λ n. n ≡ half_at self.now at) }
    {
        if self.size.saturating_sub(at) < 2 {
            return Err(CodecFault::Field(at));
        }
        Ok(half(self.bytes, at))
    }

    /// Words of one width, of any values, from a place on.
    pub fn run(&self, width: usize, at: usize, count: usize) -> Result<(), CodecFault>
        requires wide { 1 ≤ width }
        requires small { at + width * count ≤ 384 }
        ensures { result ≡ run_in self.now width at count }
    {
        for i in 0..count {
            let place = at + width * i;
            if self.size.saturating_sub(place) < width {
                return Err(CodecFault::Field(place));
            }
        }
        Ok(())
    }

    /// The bytes of a part, at most 260, which count as one word.
    #[tactic(auto, unfolding(crate::specs::Reading::word_in, crate::specs::Reading::bytes_in))]
    pub fn part_bytes(&self, at: usize, count: usize) -> Result<PartBytes, CodecFault>
        requires small { count ≤ 260 }
        ensures read { result ≡ bytes_in self.now at count }
        ensures room { IfOk result (λ _. at + count ≤ word_at self.now 0) }
    {
        if self.size < count || self.size - count < at {
            return Err(CodecFault::Field(at));
        }
        PartBytes::new(&self.bytes[at..at + count]).ok_or(CodecFault::Field(at))
    }

    /// The 32 bytes of a blob's header.
    pub fn blob_header(&self, at: usize) -> [u8; 32]
        requires { at + 32 ≤ word_at self.now 0 }
        ensures { result ≡ part self.now at 32 }
    {
        bytes_at(self.bytes, at)
    }
}
