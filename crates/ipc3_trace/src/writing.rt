// A record's bytes, in memory of the caller.
ghost use Rattle.std.specs.Prelude.{◌≡◌, ◌+◌, ◌≤◌, ◌++◌, length, take};
ghost use Rattle.ipc3_trace.specs.Records.{spelled};

use crate::kind::RecordKind;

// Puts bytes after the first `at` bytes, and tells the place after them.
fn put_bytes(bytes: &mut [u8; 392], at: usize, piece: &[u8]) -> usize
    requires { at + length piece.now ≤ 392 }
    ensures end { result ≡ at + length piece.now }
    ensures bytes { take result bytes.new ≡ take at bytes.old ++ piece.now }
{
    let end = at + piece.len();
    bytes[at..end].copy_from_slice(piece);
    end
}

/// Puts a record at the front of `bytes`: its kind, its size and its bytes. Tells how many there are.
#[tactic(auto, unfolding(crate::specs::Records::spelled))]
pub fn put_record(kind: RecordKind, body: &[u8], bytes: &mut [u8; 392]) -> usize
    requires { length body.now ≤ 384 }
    ensures size { result ≡ 8 + length body.now }
    ensures bytes { take result bytes.new ≡ spelled kind body.now }
{
    let size = body.len() as u32;
    let at = put_bytes(bytes, 0, &kind.number().to_le_bytes());
    let body_at = put_bytes(bytes, at, &size.to_le_bytes());
    put_bytes(bytes, body_at, body)
}
