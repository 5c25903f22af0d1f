// Numbers, names and bytes at a place.
ghost use Rattle.std.specs.Prelude.{◌≡◌, ◌≤◌, ◌+◌, ◌*◌, length, Some, None, nat_le, if◌then◌else◌};
ghost use Rattle.sof_base.specs.Slots as slots;
ghost use Rattle.sof_base.specs.Layouts as layouts;

use crate::name::Name44;
use byteorder::{ByteOrder, LittleEndian};

/// The little-endian number of the four bytes from a place on; none exactly where fewer are there.
pub fn word_at(bytes: &[u8], at: usize) -> Option<u32>
    ensures { result ≡ (if nat_le (at + 4) (length bytes.now) then Some (slots.word_at bytes.now at) else None) }
{
    if at > bytes.len() || bytes.len() - at < 4 {
        return None;
    }
    Some(word(bytes, at))
}

/// The little-endian number of the four bytes from a place on.
#[tactic(auto, unfolding(crate::specs::Slots::word_at))]
pub fn word(bytes: &[u8], at: usize) -> u32
    requires { at + 4 ≤ length bytes.now }
    ensures { result ≡ slots.word_at bytes.now at }
{
    LittleEndian::read_u32(&bytes[at..at + 4])
}

/// The little-endian number of the two bytes from a place on.
#[tactic(auto, unfolding(crate::specs::Slots::half_at))]
pub fn half(bytes: &[u8], at: usize) -> u16
    requires { at + 2 ≤ length bytes.now }
    ensures { result ≡ slots.half_at bytes.now at }
{
    LittleEndian::read_u16(&bytes[at..at + 2])
}

/// The little-endian number of the eight bytes from a place on.
#[tactic(auto, unfolding(crate::specs::Layouts::long_at))]
pub fn long(bytes: &[u8], at: usize) -> u64
    requires { at + 8 ≤ length bytes.now }
    ensures { result ≡ layouts.long_at bytes.now at }
{
    LittleEndian::read_u64(&bytes[at..at + 8])
}

/// The name in the field of 44 bytes from a place on; none where the field has no 0.
#[tactic(auto, unfolding(crate::specs::Slots::has_name, crate::specs::Layouts::name_at))]
pub fn label(bytes: &[u8], at: usize) -> Option<Name44>
    requires { at + 44 ≤ length bytes.now }
    ensures { result ≡ (if slots.has_name bytes.now at then Some (layouts.name_at bytes.now at) else None) }
{
    Name44::before_zero(&bytes[at..at + 44])
}

/// The N words of four bytes from a place on.
pub fn words_at<const N: usize>(bytes: &[u8], at: usize) -> [u32; N]
    requires { at + 4 * N ≤ length bytes.now }
    ensures { result ≡ layouts.words_at N bytes.now at }
{
    let mut words = [0; N];
    for i in 0..N {
        words[i] = word(bytes, at + 4 * i);
    }
    words
}

/// The N bytes from a place on.
pub fn bytes_at<const N: usize>(bytes: &[u8], at: usize) -> [u8; N]
    requires { at + N ≤ length bytes.now }
    ensures { result ≡ slots.part bytes.now at N }
{
    let mut copy = [0; N];
    copy.copy_from_slice(&bytes[at..at + N]);
    copy
}
