// One message of a call, and what a failed link leaves.
ghost use Rattle.std.specs.Prelude.{◌≡◌, ◌*◌, is_some, true};
ghost use Rattle.sof_base.specs.Ports.{HasRoom};
ghost use Rattle.ipc3_model.specs.Messages.{message_spelling};
ghost use Rattle.host_widgets.specs.ActCarried.{Replied, Passes, is_down};
ghost use Rattle.host_widgets.specs.Sides.{SameSide, world_of};

use crate::answers::HostFault;
use crate::going_down::link_down;
use crate::host_call::HostCall;
use crate::sending::send;
use ipc3_codec::{Message, Reply};
use mbox_link::Dsp;

/// Whether the link failed.
pub fn is_down<T>(answer: &Result<T, HostFault>) -> bool
    ensures { result ≡ is_down answer.now }
{
    matches!(answer, Err(HostFault::LinkDown))
}

/// Sends the message of an act, and returns its reply.
///
/// `Refused(e)` where the reply's error e is negative: the record stays. `LinkDown` where the exchange failed: the device is cut, and the
/// record goes down.
pub fn transact<P: Dsp>(message: &Message, side: &mut HostCall<'_, P>) -> Result<Reply, HostFault>
    requires on { is_some (P.means.on side.old.dsp.now) ≡ true }
    requires room { HasRoom (61440 * P.means.pending side.old.dsp.now) side.old.out.now }
    ensures replied { Replied P.means side.old.heap (message_spelling message.now) side.old.kept.now side.new.kept.now (world_of side.old) (world_of side.new) result }
    ensures same { SameSide side.old side.new }
{
    let answer = send(message, side.dsp, side.io, side.out);
    if is_down(&answer) {
        link_down(side.plan, side.kept, side.dsp, side.io, side.out);
    }
    answer
}

/// Sends the message of an act whose reply has no body to read. It fails as [`transact`] does, with the same cut and the same record.
pub fn transact_no_reply<P: Dsp>(
    message: &Message,
    side: &mut HostCall<'_, P>,
) -> Result<(), HostFault>
    requires on { is_some (P.means.on side.old.dsp.now) ≡ true }
    requires room { HasRoom (61440 * P.means.pending side.old.dsp.now) side.old.out.now }
    ensures passes { Passes P.means side.old.heap (message_spelling message.now) side.old.kept.now side.new.kept.now (world_of side.old) (world_of side.new) result }
    ensures same { SameSide side.old side.new }
{
    transact(message, side)?;
    Ok(())
}
