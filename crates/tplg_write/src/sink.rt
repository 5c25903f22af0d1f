// Bytes that grow after others, which are kept whatever becomes of them.
ghost use Rattle.std.specs.Prelude.{◌≡◌, ◌≤◌, ◌<◌, ◌+◌, ◌^◌, ◌++◌, [], Ok, OnOk, length};
ghost use Rattle.sof_base.specs.Slots.{Word, Half, Long, Size, Label, Words, Raw, IsName, AreWords};
ghost use Rattle.sof_base.specs.Layouts.{wrote};
ghost use Rattle.tplg_model.specs.Arrays.{AreArrays, arrays_spelling};
ghost use Rattle.tplg_write.specs.Sinks.{with_field, patched};

use byteorder::{ByteOrder, LittleEndian};
use sof_base::{Name44, NoMemory};
use std::marker::Model;
use tplg_model::TokenArray;
use tplg_tokens::{word_bytes, write_arrays};

static ZEROS: [u8; 44] = [0; 44];

/// The bytes after the first `kept` ones. Where there is no memory, a part of a field may have been written, and `kept`
/// bytes stay as they were.
#[derive(Drop)]
pub struct Sink {
    bytes: Vec<u8>,
    kept: usize,
}

impl Model for Sink {
    ghost use Rattle.std.specs.Prelude.{◌≤◌, length, take, drop};
    ghost use Rattle.tplg_write.specs.Sinks.{Sunk};

    ghost Value = { Sunk };

    ghost view = { λ s. record { front = take s.kept s.bytes.items; added = drop s.kept s.bytes.items } };

    ghost invariant = { λ s. s.kept ≤ length s.bytes.items };
}

impl Sink {
    /// Nothing written after these bytes.
    pub fn behind(bytes: Vec<u8>) -> Sink
        ensures { result ≡ record { front = bytes.items; added = [] } }
    {
        let kept = bytes.len();
        Sink { bytes, kept }
    }

    /// All the bytes.
    pub fn whole(self) -> Vec<u8>
        ensures { result.items ≡ self.front ++ self.added }
    {
        self.bytes
    }

    /// The bytes that are kept alone.
    pub fn kept(self) -> Vec<u8>
        ensures { result.items ≡ self.front }
    {
        let mut bytes = self.bytes;
        bytes.truncate(self.kept);
        bytes
    }

    /// How many bytes were written.
    pub fn len(&self) -> usize
        ensures { result ≡ length self.now.added }
    {
        self.bytes.len() - self.kept
    }

    /// Bytes as they are.
    fn put(&mut self, bytes: &[u8]) -> Result<(), NoMemory>
        ensures ok { OnOk result (self.new ≡ record { front = self.old.front; added = self.old.added ++ bytes.now }) }
        ensures front { self.new.front ≡ self.old.front }
    {
        self.bytes.extend_from_slice(bytes)?;
        Ok(())
    }

    /// A number as four bytes, little-endian.
    #[tactic(auto, unfolding(sof_base::specs::Layouts::wrote, sof_base::specs::Slots::slot_cells))]
    pub fn word(&mut self, n: u32) -> Result<(), NoMemory>
        ensures ok { OnOk result (self.new ≡ with_field self.old (Word n)) }
        ensures fits { n < 2 ^ 32 }
        ensures front { self.new.front ≡ self.old.front }
    {
        self.put(&word_bytes(n))
    }

    /// A number as two bytes, little-endian.
    #[tactic(auto, unfolding(sof_base::specs::Layouts::wrote, sof_base::specs::Slots::slot_cells))]
    pub fn half(&mut self, n: u16) -> Result<(), NoMemory>
        ensures ok { OnOk result (self.new ≡ with_field self.old (Half n)) }
        ensures fits { n < 2 ^ 16 }
        ensures front { self.new.front ≡ self.old.front }
    {
        let mut bytes = [0; 2];
        LittleEndian::write_u16(&mut bytes, n);
        self.put(&bytes)
    }

    /// A number as eight bytes, little-endian.
    #[tactic(auto, unfolding(sof_base::specs::Layouts::wrote, sof_base::specs::Slots::slot_cells))]
    pub fn long(&mut self, n: u64) -> Result<(), NoMemory>
        ensures ok { OnOk result (self.new ≡ with_field self.old (Long n)) }
        ensures fits { n < 2 ^ 64 }
        ensures front { self.new.front ≡ self.old.front }
    {
        let mut bytes = [0; 8];
        LittleEndian::write_u64(&mut bytes, n);
        self.put(&bytes)
    }

    /// A size word, which readers ignore.
    #[tactic(auto, unfolding(sof_base::specs::Layouts::wrote, sof_base::specs::Slots::slot_cells))]
    pub fn size(&mut self, n: u32) -> Result<(), NoMemory>
        ensures ok { OnOk result (self.new ≡ with_field self.old (Size n)) }
        ensures front { self.new.front ≡ self.old.front }
    {
        self.put(&word_bytes(n))
    }

    /// Bytes as they are.
    #[tactic(auto, using(sof_base::proofs::WriteLaws::written_bytes), unfolding(sof_base::specs::Layouts::wrote))]
    pub fn raw(&mut self, bytes: &[u8]) -> Result<(), NoMemory>
        ensures ok { OnOk result (self.new ≡ with_field self.old (Raw bytes.now)) }
        ensures front { self.new.front ≡ self.old.front }
    {
        self.put(bytes)
    }

    /// A name and zeros after it, 44 bytes in all.
    pub fn label(&mut self, name: &Name44) -> Result<(), NoMemory>
        ensures ok { OnOk result (self.new ≡ with_field self.old (Label name.now)) }
        ensures fits { IsName name.now }
        ensures front { self.new.front ≡ self.old.front }
    {
        let bytes = name.as_bytes();
        self.put(bytes)?;
        self.put(&ZEROS[..44 - bytes.len()])?;
        Ok(())
    }

    /// Numbers as four bytes each, little-endian.
    pub fn words(&mut self, words: &[u32]) -> Result<(), NoMemory>
        ensures ok { OnOk result (self.new ≡ with_field self.old (Words words.now)) }
        ensures fit { AreWords words.now }
        ensures front { self.new.front ≡ self.old.front }
    {
        for word in words {
            self.put(&word_bytes(*word))?;
        }
        Ok(())
    }

    /// Vendor arrays, one after the other.
    pub fn arrays(&mut self, arrays: &[TokenArray]) -> Result<(), NoMemory>
        ensures ok { OnOk result (self.new ≡ record { front = self.old.front; added = self.old.added ++ arrays_spelling arrays.now }) }
        ensures are { OnOk result (AreArrays arrays.now) }
        ensures front { self.new.front ≡ self.old.front }
    {
        write_arrays(arrays, &mut self.bytes)
    }

    /// Writes a number over the four bytes at a place, counted from the first byte that was written.
    pub fn patch(&mut self, at: usize, n: u32)
        requires { at + 4 ≤ length self.old.added }
        ensures added { self.new ≡ record { front = self.old.front; added = patched at n self.old.added } }
        ensures front { self.new.front ≡ self.old.front }
    {
        let place = self.kept + at;
        self.bytes[place..place + 4].copy_from_slice(&word_bytes(n));
    }
}
