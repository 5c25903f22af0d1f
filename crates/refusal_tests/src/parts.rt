// Parts of a blob, and parts of none.
ghost use Rattle.std.specs.Prelude.{◌≤◌};

use sof_base::{Bounded, Part};

// The words of a blob of one channel and one section. The bytes after them, by which it has three parts, mean nothing.
const WORDS: [u32; 29] = [
    0x0046_4F53,
    0,
    668,
    0,
    0,
    0,
    0,
    0,
    0,
    1,
    1,
    0,
    0,
    0,
    0,
    0,
    1,
    1,
    0,
    0,
    0,
    0,
    0,
    0,
    0,
    0,
    0x4000_0000,
    0,
    16384,
];

fn blob() -> [u8; 700] {
    let mut blob = [7; 700];
    for at in 0..29 {
        let word = WORDS[at].to_le_bytes();
        blob[4 * at..4 * at + 4].copy_from_slice(&word);
    }
    blob
}

/// The part of this number, from 0 to 2.
pub(crate) fn part(index: u32) -> Part
    requires { index ≤ 2 }
{
    let blob = blob();
    let at = 32 + 260 * index as usize;
    let end = (at + 260).min(700);
    let mut header = [0; 32];
    for k in 0..32 {
        header[k] = blob[k];
    }
    Part {
        header,
        remaining: (700 - end) as u32,
        index,
        bytes: Bounded::new(&blob[at..end]).unwrap_or(Bounded::empty()),
    }
}

/// The same with one byte in the place of all its bytes.
pub(crate) fn short(index: u32) -> Part
    requires { index ≤ 2 }
{
    let mut part = part(index);
    part.bytes = Bounded::new(&[7]).unwrap_or(Bounded::empty());
    part
}

/// The same with one more byte after it.
pub(crate) fn longer(index: u32) -> Part
    requires { index ≤ 2 }
{
    let mut part = part(index);
    part.remaining = part.remaining.saturating_add(1);
    part
}

/// The same of a blob with another header.
pub(crate) fn of_another(index: u32) -> Part
    requires { index ≤ 2 }
{
    let mut part = part(index);
    part.header[8] = 0;
    part
}

/// The only part of bytes whose first word is another than a blob's.
pub(crate) fn no_blob() -> Part {
    Part {
        header: [0; 32],
        remaining: 0,
        index: 0,
        bytes: Bounded::new(&[0; 28]).unwrap_or(Bounded::empty()),
    }
}
