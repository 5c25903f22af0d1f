// Parts that are staged.
ghost use Rattle.std.specs.Prelude.{◌≡◌, ℕ, ◌+◌, ◌*◌, ◌≤◌, ◌==◌, ◌&&◌, ◌||◌, ◌++◌, not, nat_le, take, drop, length, true, false, Some, None, IfSome, if◌then◌else◌};
ghost use Rattle.std.specs.Option.{option_map_or};
ghost use Rattle.std.specs.Str.{bytes_eq};
ghost use Rattle.sof_base.specs.BlobParts.{IsBlob};
ghost use Rattle.sof_base.specs.BlobFaults.{is_blob};
ghost use Rattle.eq_biquad.specs.EqState.{staged_of, numbers_of};
ghost use Rattle.stream_law.specs.Seen.{fresh_numbers};
ghost use Rattle.mbox_link.specs.Step.{bytes_left, keeps_order, is_next as is_next_of, staged_bytes};
ghost use Rattle.fw_parts.specs.Staged.{staging_in, fits_behind, CanBeStaged};

use eq_biquad::Eq;
use eq_blob::check;
use sof_base::{Bounded, Part};

// How many bytes come with a part and after it.
fn left_of(part: &Part) -> u64
    ensures { result ≡ bytes_left part.now }
{
    part.bytes.items().len() as u64 + u64::from(part.remaining)
}

fn are_same(a: &[u8], b: &[u8]) -> bool
    ensures { result ≡ bytes_eq a.now b.now }
{
    a == b
}

// Whether a part has the number of the one that is to come.
fn is_in_turn(part: &Part, next: u32, remaining: u32) -> bool
    ensures { result ≡ (not (remaining == 0) && part.now.index == next) }
{
    remaining != 0 && part.index == next
}

// Whether a part is the next one of what is staged.
fn is_next(part: &Part, staged: &[u8; 1024], next: u32, remaining: u32) -> bool
    ensures { (id : ℕ) → result ≡ option_map_or (is_next_of part.now) (staging_in id staged.now next remaining) false }
{
    if !is_in_turn(part, next, remaining) {
        return false;
    }
    if !are_same(&part.header, &staged[..32]) {
        return false;
    }
    left_of(part) == u64::from(remaining)
}

// Whether a part is part 0 of at most 992 bytes, or the next one of what is staged.
fn is_due(part: &Part, staged: &[u8; 1024], next: u32, remaining: u32) -> bool
    ensures { (id : ℕ) → result ≡ (if part.now.index == 0 then nat_le (bytes_left part.now) 992 else option_map_or (is_next_of part.now) (staging_in id staged.now next remaining) false) }
{
    if part.index == 0 {
        return left_of(part) <= 992;
    }
    is_next(part, staged, next, remaining)
}

// Whether no more parts are to come.
fn is_last(part: &Part) -> bool
    ensures { result ≡ (part.now.remaining == 0) }
{
    part.remaining == 0
}

// Whether a part is the last, or carries 260 bytes.
fn is_full(part: &Part) -> bool
    ensures { result ≡ (part.now.remaining == 0 || length part.now.bytes == 260) }
{
    is_last(part) || part.bytes.items().len() == 260
}

// Whether a part keeps the order of parts. Its bytes then end at or before 1024.
fn is_in_order(part: &Part, staged: &[u8; 1024], next: u32, remaining: u32) -> bool
    requires { 260 * next + remaining ≤ 992 }
    ensures order { (id : ℕ) → result ≡ keeps_order (staging_in id staged.now next remaining) part.now }
    ensures within { result ≡ true → 32 + 260 * part.now.index + length part.now.bytes ≤ 1024 }
{
    let is_due = is_due(part, staged, next, remaining);
    let is_full = is_full(part);
    is_due && is_full
}

// Whether more parts are to come, or the bytes are a blob.
fn is_right(part: &Part, bytes: &[u8]) -> bool
    ensures right { result ≡ (not (part.now.remaining == 0) || is_blob bytes.now) }
    ensures blob { result ≡ true → part.now.remaining ≡ 0 → IsBlob bytes.now }
{
    if !is_last(part) {
        return true;
    }
    match check(bytes) {
        Ok(()) => true,
        Err(_) => false,
    }
}

// Part 0 begins with its header.
fn begin(part: &Part, bytes: &mut [u8; 1024])
    ensures { bytes.new ≡ (if part.now.index == 0 then part.now.header ++ drop 32 bytes.old else bytes.old) }
{
    if part.index == 0 {
        bytes[..32].copy_from_slice(&part.header);
    }
}

// Puts a part after the staged bytes before it, part 0 after its header. The place after it comes back.
fn join(part: &Part, bytes: &mut [u8; 1024]) -> usize
    requires { 32 + 260 * part.now.index + length part.now.bytes ≤ 1024 }
    ensures end { result ≡ 32 + 260 * part.now.index + length part.now.bytes }
    ensures bytes { take result bytes.new ≡ (if part.now.index == 0 then part.now.header else take (32 + 260 * part.now.index) bytes.old) ++ part.now.bytes }
{
    begin(part, bytes);
    let at = 32 + 260 * part.index as usize;
    let end = at + part.bytes.items().len();
    bytes[at..end].copy_from_slice(part.bytes.items());
    end
}

/// The staged bytes with a part after them; none where it is not the next one, or where it is the last and they are no blob. So many
/// parts came before it, and so many bytes of the blob are still to come.
pub fn joined(eq: &Eq, next: u32, remaining: u32, part: &Part) -> Option<Bounded<u8, 1024>>
    requires { 260 * next + remaining ≤ 992 }
    ensures bytes { (id : ℕ) → let staged = staging_in id (staged_of eq.now) next remaining in
        result ≡ (if fits_behind staged part.now then Some (staged_bytes staged part.now) else None) }
    ensures joined { IfSome result (λ bytes. CanBeStaged part.now bytes) }
{
    let mut bytes = [0; 1024];
    eq.staged(&mut bytes);
    if !is_in_order(part, &bytes, next, remaining) {
        return None;
    }
    let end = join(part, &mut bytes);
    if !is_right(part, &bytes[..end]) {
        return None;
    }
    Bounded::new(&bytes[..end])
}

/// Stages these bytes, or puts them in force if a part is the last.
pub fn put(eq: &mut Eq, next: &mut u32, remaining: &mut u32, part: &Part, bytes: &[u8])
    requires { CanBeStaged part.now bytes.now }
    ensures equaliser { eq.new ≡ record { blob = if part.now.remaining == 0 then bytes.now else eq.old.blob; piece = record eq.old.piece { words = eq.new.piece.words } } }
    ensures next { next.new ≡ (if part.now.remaining == 0 then 0 else part.now.index + 1) }
    ensures remaining { remaining.new ≡ part.now.remaining }
    ensures staged { (part.now.remaining == 0) ≡ false → take (292 + 260 * part.now.index) (staged_of eq.new) ≡ bytes.now }
    ensures numbers { (channels : ℕ) → numbers_of eq.new channels ≡ (if part.now.remaining == 0 then fresh_numbers bytes.now channels else numbers_of eq.old channels) }
{
    if is_last(part) {
        eq.install(bytes);
        *next = 0;
        *remaining = 0;
        return;
    }
    eq.stage(0, bytes);
    *next = part.index + 1;
    *remaining = part.remaining;
}
