// Bytes that lie round the end of a slice.
ghost use Rattle.std.specs.Prelude.{◌≡◌, ◌+◌, ◌≤◌, ◌++◌, length, vec_len, vec_capacity};
ghost use Rattle.sof_io.specs.Round.{round_bytes, place_past};

/// The place `n` past `start`, round the end of `len` bytes.
pub fn after(len: usize, start: usize, n: usize) -> usize
    requires { (start ≤ len) × (n ≤ len) }
    ensures { result ≡ place_past len start n }
{
    let ahead = len - start;
    if n <= ahead { start + n } else { n - ahead }
}

/// Copies the bytes from `start` on, round the end, into `out`: in one piece, or else in two.
pub fn copy_out(bytes: &[u8], start: usize, out: &mut [u8])
    requires { (start ≤ length bytes.now) × (length out.old ≤ length bytes.now) }
    ensures { out.new ≡ round_bytes start (length out.old) bytes.now }
{
    let ahead = bytes.len() - start;
    if out.len() <= ahead {
        out.copy_from_slice(&bytes[start..start + out.len()]);
        return;
    }
    let rest = out.len() - ahead;
    out[..ahead].copy_from_slice(&bytes[start..]);
    out[ahead..].copy_from_slice(&bytes[..rest]);
}

/// Copies a piece after the `held` bytes from `start` on, round the end: in one piece, or else in two.
pub fn copy_in(bytes: &mut [u8], start: usize, held: usize, piece: &[u8])
    requires { (start ≤ length bytes.old) × (held + length piece.now ≤ length bytes.old) }
    ensures { round_bytes start (held + length piece.now) bytes.new ≡ round_bytes start held bytes.old ++ piece.now }
{
    let end = after(bytes.len(), start, held);
    let ahead = bytes.len() - end;
    if piece.len() <= ahead {
        bytes[end..end + piece.len()].copy_from_slice(piece);
        return;
    }
    let (front, back) = piece.split_at(ahead);
    bytes[end..].copy_from_slice(front);
    bytes[..back.len()].copy_from_slice(back);
}

/// Puts a piece after the bytes, in memory that was reserved for it.
pub fn grow(bytes: &mut Vec<u8>, piece: &[u8])
    requires { vec_len bytes.old + length piece.now ≤ vec_capacity bytes.old }
    ensures items { bytes.new.items ≡ bytes.old.items ++ piece.now }
    ensures len { vec_len bytes.new ≡ vec_len bytes.old + length piece.now }
    ensures capacity { vec_capacity bytes.old ≤ vec_capacity bytes.new }
{
    // It fits, so it is never refused.
    let _fits = bytes.extend_from_slice(piece);
}
