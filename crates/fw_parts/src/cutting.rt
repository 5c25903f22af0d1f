// The parts of a blob.
ghost use Rattle.std.specs.Prelude.{◌≡◌, ◌+◌, ◌-◌, ◌/◌, ◌≤◌, nat_lt, length, Some, None, if◌then◌else◌};
ghost use Rattle.mbox_link.specs.BlobParts.{parts, blob_part};

use eq_biquad::Eq;
use sof_base::{Bounded, Part};

// How many parts a blob of so many bytes has: all but the last carry 260 of those after the header.
fn count_of(len: usize) -> u32
    requires { len ≤ 1024 }
    ensures { result ≡ (len - 32 + 259) / 260 }
{
    ((len.saturating_sub(32) + 259) / 260) as u32
}

// The part of this number of a blob, if there is one.
fn cut(blob: &[u8], index: u32) -> Option<Part>
    requires { length blob.now ≤ 1024 }
    ensures { result ≡ (if nat_lt index (parts blob.now) then Some (blob_part blob.now index) else None) }
{
    if index >= count_of(blob.len()) {
        return None;
    }
    let (front, behind) = blob.split_at(32);
    let rest = &behind[260 * index as usize..];
    let len = rest.len().min(260);
    let mut header = [0; 32];
    header.copy_from_slice(front);
    match Bounded::new(&rest[..len]) {
        Some(bytes) => Some(Part {
            header,
            remaining: (rest.len() - len) as u32,
            index,
            bytes,
        }),
        None => None,
    }
}

/// How many parts the blob in force has.
pub fn parts_in(eq: &Eq) -> u32
    ensures { result ≡ parts eq.now.blob }
{
    let mut bytes = [0; 1024];
    let len = eq.blob(&mut bytes) as usize;
    count(&bytes[..len])
}

// How many parts a blob has.
fn count(blob: &[u8]) -> u32
    requires { length blob.now ≤ 1024 }
    ensures { result ≡ parts blob.now }
{
    count_of(blob.len())
}

/// The part of this number of the blob in force, counted from 0; none where there are fewer.
pub fn part_in(eq: &Eq, index: u32) -> Option<Part>
    ensures { result ≡ (if nat_lt index (parts eq.now.blob) then Some (blob_part eq.now.blob index) else None) }
{
    let mut bytes = [0; 1024];
    let len = eq.blob(&mut bytes) as usize;
    cut(&bytes[..len], index)
}
