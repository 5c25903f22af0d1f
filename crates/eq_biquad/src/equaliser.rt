// The equaliser of a component.
ghost use Rattle.std.specs.Prelude.{◌≡◌, ℕ, [], ◌+◌, ◌/◌, ◌%◌, ◌<◌, ◌≤◌, ◌++◌, length, take, drop, replicate, pos};
ghost use Rattle.sof_base.specs.BlobParts.{IsBlob};
ghost use Rattle.stream_law.specs.Equaliser.{passed_frames, numbers_after};
ghost use Rattle.stream_law.specs.Seen.{fresh_numbers};
ghost use Rattle.eq_blob.specs.WordBytes.{bytes_of_words};
ghost use Rattle.eq_biquad.specs.PieceWords.{words_from, AreNumbers};
ghost use Rattle.eq_biquad.specs.EqState.{staged_of, numbers_of, OnlyNumbers};
ghost use Rattle.sof_base.specs.FrameLists.{frames_of, samples_of};
ghost use Rattle.eq_biquad.specs.Passing.{in_turn, channel_numbers};

use crate::passing::pass_channels;
use eq_blob::{copy_out, put_bytes};
use fw_heap::Piece;
use sof_base::Sample;
use std::marker::Model;

/// An equaliser in a piece of 4160 bytes: from byte 64 the blob in force, from byte 1088 the staged bytes, and from byte 2112
/// the two numbers of each section.
/// SOF's term: an IIR equaliser, `EQ_IIR`.
pub struct Eq {
    piece: Piece,
    // How many bytes the blob in force has, 0 where there is none.
    len: u32,
    // For how many calls it is not tried whether no sum is held, since one was.
    wait: u32,
}

impl Model for Eq {
    ghost use Rattle.eq_biquad.specs.EqState.{EqState};

    ghost Value = { EqState };

    ghost use Rattle.eq_biquad.specs.EqLaid.{eq_state, IsEq};

    ghost view = { eq_state };

    ghost invariant = { IsEq };
}

impl Eq {
    /// An equaliser without a blob.
    pub fn in_piece(piece: Piece) -> Eq
        requires { piece.size ≡ 4160 }
        ensures blob { result.blob ≡ [] }
        ensures piece { (result.piece.home ≡ piece.home) × (result.piece.place ≡ piece.place) × (result.piece.size ≡ 4160) }
    {
        let _size = piece.size();
        let mut piece = piece;
        clear_numbers(piece.words_mut());
        Eq {
            piece,
            len: 0,
            wait: 0,
        }
    }

    /// Passes frames through the sections of their channels.
    pub fn run(&mut self, samples: &mut [Sample], channels: u8)
        requires channels { (1 ≤ channels) × (channels ≤ 8) }
        requires whole { length samples.old % channels ≡ 0 }
        ensures samples { samples.new ≡ samples_of (passed_frames self.old.blob channels (numbers_of self.old channels) (frames_of channels (length samples.old / channels) samples.old)) }
        ensures numbers { numbers_of self.new channels ≡ numbers_after self.old.blob channels (numbers_of self.old channels) (frames_of channels (length samples.old / channels) samples.old) }
        ensures same { OnlyNumbers self.old self.new }
    {
        let len = self.len as usize;
        let mut quick = self.wait == 0;
        run_words(
            self.piece.words_mut(),
            len,
            samples,
            usize::from(channels),
            &mut quick,
        );
        self.wait = next_wait(self.wait, quick);
    }

    /// Begins an epoch: all numbers are 0.
    pub fn clear(&mut self)
        ensures numbers { (channels : ℕ) → numbers_of self.new channels ≡ fresh_numbers self.old.blob channels }
        ensures same { OnlyNumbers self.old self.new }
    {
        clear_numbers(self.piece.words_mut());
    }

    /// Puts a blob in force, and begins an epoch.
    pub fn install(&mut self, blob: &[u8])
        requires { IsBlob blob.now }
        ensures blob { self.new.blob ≡ blob.now }
        ensures numbers { (channels : ℕ) → numbers_of self.new channels ≡ fresh_numbers blob.now channels }
        ensures same { (staged_of self.new ≡ staged_of self.old) × (self.new.piece.home ≡ self.old.piece.home) × (self.new.piece.place ≡ self.old.piece.place) × (self.new.piece.size ≡ self.old.piece.size) }
    {
        install_words(self.piece.words_mut(), blob);
        self.len = blob.len() as u32;
    }

    /// Writes the blob in force to the front of `out`, and no byte after it. Its length comes back, 0 where there is none.
    pub fn blob(&self, out: &mut [u8; 1024]) -> u32
        ensures length { result ≡ length self.now.blob }
        ensures bytes { out.new ≡ self.now.blob ++ drop result out.old }
    {
        let len = self.len as usize;
        let words = self.piece.words();
        copy_out(&words[16..272], &mut out[..len]);
        self.len
    }

    /// Keeps these bytes of the staged blob.
    pub fn stage(&mut self, at: u32, bytes: &[u8])
        requires { at + length bytes.now ≤ 1024 }
        ensures staged { staged_of self.new ≡ take at (staged_of self.old) ++ (bytes.now ++ drop (at + length bytes.now) (staged_of self.old)) }
        ensures blob { self.new.blob ≡ self.old.blob }
        ensures numbers { (channels : ℕ) → numbers_of self.new channels ≡ numbers_of self.old channels }
        ensures same { (self.new.piece.home ≡ self.old.piece.home) × (self.new.piece.place ≡ self.old.piece.place) × (self.new.piece.size ≡ self.old.piece.size) }
    {
        stage_words(self.piece.words_mut(), at as usize, bytes);
    }

    /// Writes the staged bytes over `out`.
    pub fn staged(&self, out: &mut [u8; 1024])
        ensures { out.new ≡ staged_of self.now }
    {
        let words = self.piece.words();
        copy_out(&words[272..528], out);
    }

    /// The piece that the equaliser stands in.
    pub fn piece(&self) -> &Piece
        ensures piece { result.now ≡ self.now.piece }
        ensures size { (result.now.size ≡ 4160) × (length result.now.words ≡ 1040) }
        ensures blob { self.now.blob ≡ take (length self.now.blob) (bytes_of_words (words_from 16 256 result.now.words)) }
    {
        &self.piece
    }

    pub fn into_piece(self) -> Piece
        ensures { result ≡ self.piece }
    {
        let Eq {
            piece,
            len: _,
            wait: _,
        } = self;
        piece
    }
}

/// For how many calls it is not tried after one: one fewer where it was not, none where no sum was held, and else 31.
fn next_wait(wait: u32, quick: bool) -> u32 {
    if 0 < wait {
        return wait - 1;
    }
    if quick { 0 } else { 31 }
}

/// Makes all numbers 0.
fn clear_numbers(words: &mut [i32])
    requires { length words.old ≡ 1040 }
    ensures before { take 528 words.new ≡ take 528 words.old }
    ensures numbers { drop 528 words.new ≡ replicate 512 (pos 0) }
{
    words[528..].fill(0);
}

/// Passes frames through the sections of their channels.
fn run_words(
    words: &mut [i32],
    len: usize,
    samples: &mut [Sample],
    channels: usize,
    quick: &mut bool,
)
    requires words { (length words.old ≡ 1040) × (len ≤ 1024) }
    requires blob { 0 < len → IsBlob (take len (bytes_of_words (words_from 16 256 words.old))) }
    requires numbers { AreNumbers (drop 528 words.old) }
    requires channels { (1 ≤ channels) × (channels ≤ 8) }
    requires whole { length samples.old % channels ≡ 0 }
    ensures samples { samples.new ≡ samples_of (passed_frames (take len (bytes_of_words (words_from 16 256 words.old))) channels (in_turn 0 (channel_numbers (take len (bytes_of_words (words_from 16 256 words.old))) (drop 528 words.old)) channels) (frames_of channels (length samples.old / channels) samples.old)) }
    ensures numbers { in_turn 0 (channel_numbers (take len (bytes_of_words (words_from 16 256 words.old))) (drop 528 words.new)) channels ≡ numbers_after (take len (bytes_of_words (words_from 16 256 words.old))) channels (in_turn 0 (channel_numbers (take len (bytes_of_words (words_from 16 256 words.old))) (drop 528 words.old)) channels) (frames_of channels (length samples.old / channels) samples.old) }
    ensures before { take 528 words.new ≡ take 528 words.old }
    ensures within { AreNumbers (drop 528 words.new) }
{
    let (front, numbers) = words.split_at_mut(528);
    pass_channels(&front[16..272], len, numbers, samples, channels, quick);
}

/// Puts a blob in force, and makes all numbers 0.
fn install_words(words: &mut [i32], blob: &[u8])
    requires words { length words.old ≡ 1040 }
    requires blob { length blob.now ≤ 1024 }
    ensures blob { take (length blob.now) (bytes_of_words (words_from 16 256 words.new)) ≡ blob.now }
    ensures staged { words_from 272 256 words.new ≡ words_from 272 256 words.old }
    ensures numbers { drop 528 words.new ≡ replicate 512 (pos 0) }
{
    clear_numbers(words);
    put_bytes(&mut words[16..272], 0, blob);
}

/// Keeps these bytes of the staged blob.
fn stage_words(words: &mut [i32], at: usize, bytes: &[u8])
    requires words { length words.old ≡ 1040 }
    requires bytes { at + length bytes.now ≤ 1024 }
    ensures staged { bytes_of_words (words_from 272 256 words.new) ≡ take at (bytes_of_words (words_from 272 256 words.old)) ++ (bytes.now ++ drop (at + length bytes.now) (bytes_of_words (words_from 272 256 words.old))) }
    ensures blob { words_from 16 256 words.new ≡ words_from 16 256 words.old }
    ensures numbers { drop 528 words.new ≡ drop 528 words.old }
{
    put_bytes(&mut words[272..528], at, bytes);
}
