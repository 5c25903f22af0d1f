// What came back of a message, as a record that the driver may read.
ghost use Rattle.std.specs.Prelude.{◌≡◌, ◌≤◌, [], true, length, is_ok};
ghost use Rattle.ipc3_trace.specs.Records.{spelled};
ghost use Rattle.sof_desk.specs.Desk.{Acted, Put, Spoken};
ghost use Rattle.run_serve.specs.Reads.{SameSlots};
ghost use Rattle.run_serve.specs.Serving.{replies_slot};
ghost use Rattle.run_serve.specs.Sent.{WentOut, AllWentOut, backs_by};

use crate::giving::Given;
use ipc3_trace::{RecordKind, put_record};
use sof_desk::{Desk, DeskFailed};

/// The slot of the records of what came back.
pub const REPLIES: u32 = 1;

/// Lets go out what was appended, to whoever reads it.
pub fn let_out<D: Desk>(desk: &mut D) -> Result<(), DeskFailed>
    ensures { Acted D.means (Put Spoken []) (is_ok result) desk.old desk.new }
{
    desk.say(b"")
}

// Appends a record, and lets it go out.
fn write_record<D: Desk>(desk: &mut D, kind: RecordKind, body: &[u8]) -> Result<(), DeskFailed>
    requires created { D.means.created desk.old replies_slot ≡ true }
    requires few { length body.now ≤ 384 }
    ensures out { WentOut D.means (spelled kind body.now) (is_ok result) desk.old desk.new }
    ensures same { SameSlots D.means desk.old desk.new }
{
    let mut bytes = [0; 392];
    let long = put_record(kind, body, &mut bytes);
    desk.append(REPLIES, &bytes[..long])?;
    let_out(desk)
}

/// Writes the record of what came back, where something did.
pub fn answer<D: Desk>(desk: &mut D, given: &Given) -> Result<(), DeskFailed>
    requires { D.means.created desk.old replies_slot ≡ true }
    ensures out { AllWentOut D.means (backs_by given.now) (is_ok result) desk.old desk.new }
    ensures same { SameSlots D.means desk.old desk.new }
{
    match given {
        Given::Reply(reply) => write_record(desk, RecordKind::Reply, reply.items()),
        Given::Lost => write_record(desk, RecordKind::Lost, &[]),
        Given::Done | Given::Misplaced => Ok(()),
    }
}
