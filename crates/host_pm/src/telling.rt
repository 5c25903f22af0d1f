// One message whose reply says no more than whether it passed.
ghost use Rattle.std.specs.Prelude.{◌≡◌, ◌*◌, is_some, true};
ghost use Rattle.sof_base.specs.Ports.{HasRoom};
ghost use Rattle.ipc3_model.specs.Messages.{message_spelling};
ghost use Rattle.mbox_link.specs.Calls.{world};
ghost use Rattle.host_pm.specs.InTurn.{Told};

use host_widgets::{HostFault, send};
use ipc3_model::Message;
use mbox_link::Dsp;
use sof_io::{Inputs, Outputs};

/// Sends a message by one exchange, which cuts nothing.
pub fn tell<P: Dsp>(
    message: &Message,
    dsp: &mut P,
    io: &mut Inputs,
    out: &mut Outputs,
) -> Result<(), HostFault>
    requires on { is_some (P.means.on dsp.old) ≡ true }
    requires room { HasRoom (61440 * P.means.pending dsp.old) out.old }
    ensures { Told P.means (message_spelling message.now) (world dsp.old io.old out.old) (world dsp.new io.new out.new) result }
{
    match send(message, dsp, io, out) {
        Ok(_) => Ok(()),
        Err(fault) => Err(fault),
    }
}
