// The next record of a driver, of which no byte more is read than it has.
ghost use Rattle.std.specs.Prelude.{◌≡◌, ◌≤◌, true, take, IfOk, MatchResult};
ghost use Rattle.run_serve.specs.Reads.{requests_slot, Filled, WasBrought, WasUnread, SameSlots};

use ipc3_trace::size_after;
use sof_desk::{Desk, DeskFailed};

/// The slot of the driver's records.
pub const REQUESTS: u32 = 0;

// Reads from one place of `bytes` up to another, or to the end of the file; tells the place after the last byte that was read.
fn fill<D: Desk>(
    desk: &mut D,
    bytes: &mut [u8; 392],
    from: usize,
    to: usize,
) -> Result<usize, DeskFailed>
    requires places { (from ≤ to) × (to ≤ 392) }
    requires opened { D.means.opened desk.old requests_slot ≡ true }
    ensures filled { Filled D.means from to bytes.old result bytes.new desk.old desk.new }
    ensures within { IfOk result (λ there. there ≤ to) }
    ensures same { SameSlots D.means desk.old desk.new }
{
    let mut there = from;
    while there < to {
        let count = desk.read(REQUESTS, &mut bytes[there..to])?;
        if count == 0 {
            return Ok(there);
        }
        there += count;
    }
    Ok(there)
}

/// Reads the next record into the front of `bytes`, and tells how many bytes of it there are: fewer than it has where the file ends
/// within it, and none where the file ends before it. Of one with a wrong kind or size, kind and size are read alone.
pub fn read_record<D: Desk>(desk: &mut D, bytes: &mut [u8; 392]) -> Result<usize, DeskFailed>
    requires { D.means.opened desk.old requests_slot ≡ true }
    ensures within { IfOk result (λ there. there ≤ 392) }
    ensures brought { MatchResult result
        (λ there. WasBrought D.means (take there bytes.new) desk.old desk.new)
        (λ fault. WasUnread D.means desk.old desk.new) }
    ensures same { SameSlots D.means desk.old desk.new }
{
    let there = fill(desk, bytes, 0, 8)?;
    if there < 8 {
        return Ok(there);
    }
    let size = size_after(bytes);
    fill(desk, bytes, 8, 8 + size)
}
