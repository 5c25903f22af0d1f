// The elements of vendor arrays, one after the other.
ghost use Rattle.std.specs.Prelude.{◌≡◌, ◌≤◌, ◌+◌, ◌*◌, ◌++◌, ℕ, List, length, take, IfOk, OnOk};
ghost use Rattle.std.specs.List.{flat_map};
ghost use Rattle.std.specs.Int.{w32, to_le_bytes};
ghost use Rattle.tplg_model.specs.Arrays.{Each, IsUuid, IsText, IsNumber, uuid_spelling, text_spelling, number_spelling};
ghost use Rattle.tplg_model.specs.ArrayReading.{elements_at, uuid_at, text_at, number_tuple_at};

use byteorder::{ByteOrder, LittleEndian};
use sof_base::{Items, NoMemory, bytes_at, word};
use std::alloc::{AllocError, Global};
use tplg_model::{NumberTuple, TextTuple, UuidTuple};

/// The four bytes of a word, the low one first.
pub fn word_bytes(n: u32) -> [u8; 4]
    ensures { result ≡ to_le_bytes w32 n }
{
    let mut bytes = [0; 4];
    LittleEndian::write_u32(&mut bytes, n);
    bytes
}

/// An element of a vendor array: how many bytes it takes, how it is read, and how it is spelled.
pub trait Element: Sized {
    ghost SIZE: { ℕ };

    ghost element: { List ℕ → ℕ → Self };

    ghost spelling: { Self → List ℕ };

    /// Its numbers and bytes are the program's.
    ghost is: { Self → Type 0 };

    /// Its bytes, the token's four with them.
    const SIZE: usize;

    /// The element whose bytes begin at a place.
    fn read(bytes: &[u8], at: usize) -> Self
        requires { at + SIZE ≤ length bytes.now }
        ensures { result ≡ element bytes.now at };

    /// Appends its bytes. Where there is no memory, some of them may have been written.
    fn write(&self, out: &mut Vec<u8>) -> Result<(), AllocError>
        ensures ok { OnOk result (out.new.items ≡ out.old.items ++ spelling self.now) }
        ensures is { OnOk result (is self.now) }
        ensures kept { take (length out.old.items) out.new.items ≡ out.old.items };
}

impl Element for UuidTuple {
    ghost SIZE = { 20 };

    ghost element = { uuid_at };

    ghost spelling = { uuid_spelling };

    ghost is = { IsUuid };

    const SIZE: usize = 20;

    fn read(bytes: &[u8], at: usize) -> UuidTuple {
        UuidTuple {
            token: word(bytes, at),
            bytes: bytes_at(bytes, at + 4),
        }
    }

    fn write(&self, out: &mut Vec<u8>) -> Result<(), AllocError> {
        out.extend_from_slice(&word_bytes(self.token))?;
        out.extend_from_slice(&self.bytes)
    }
}

impl Element for TextTuple {
    ghost SIZE = { 48 };

    ghost element = { text_at };

    ghost spelling = { text_spelling };

    ghost is = { IsText };

    const SIZE: usize = 48;

    fn read(bytes: &[u8], at: usize) -> TextTuple {
        TextTuple {
            token: word(bytes, at),
            bytes: bytes_at(bytes, at + 4),
        }
    }

    fn write(&self, out: &mut Vec<u8>) -> Result<(), AllocError> {
        out.extend_from_slice(&word_bytes(self.token))?;
        out.extend_from_slice(&self.bytes)
    }
}

impl Element for NumberTuple {
    ghost SIZE = { 8 };

    ghost element = { number_tuple_at };

    ghost spelling = { number_spelling };

    ghost is = { IsNumber };

    const SIZE: usize = 8;

    fn read(bytes: &[u8], at: usize) -> NumberTuple {
        NumberTuple {
            token: word(bytes, at),
            value: word(bytes, at + 4),
        }
    }

    fn write(&self, out: &mut Vec<u8>) -> Result<(), AllocError> {
        out.extend_from_slice(&word_bytes(self.token))?;
        out.extend_from_slice(&word_bytes(self.value))
    }
}

/// A number of elements, from a place on.
pub fn read_elements<E: Element + Drop>(
    alloc: Global,
    count: u32,
    bytes: &[u8],
    at: usize,
) -> Result<Items<E>, NoMemory>
    requires { at + count * E.SIZE ≤ length bytes.now }
    ensures are { IfOk result (λ elements. elements ≡ elements_at E.SIZE E.element count bytes.now at) }
    ensures count { IfOk result (λ elements. length elements ≡ count) }
{
    let mut elements = Items::new(alloc);
    let mut place = at;
    for _ in 0..count {
        elements.push(E::read(bytes, place))?;
        place += E::SIZE;
    }
    Ok(elements)
}

/// Appends the bytes of elements, one after the other. Where there is no memory, some of them may have been written.
pub fn write_elements<E: Element>(elements: &[E], out: &mut Vec<u8>) -> Result<(), AllocError>
    ensures ok { OnOk result (out.new.items ≡ out.old.items ++ flat_map E.spelling elements.now) }
    ensures are { OnOk result (Each E.is elements.now) }
    ensures kept { take (length out.old.items) out.new.items ≡ out.old.items }
{
    for element in elements {
        element.write(out)?;
    }
    Ok(())
}
