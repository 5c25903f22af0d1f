// One message, and its answer.
ghost use Rattle.std.specs.Prelude.{◌≡◌, ◌≤◌, ◌*◌, is_some, true, IfOk};
ghost use Rattle.sof_base.specs.Ports.{HasRoom};
ghost use Rattle.ipc3_model.specs.Messages.{message_spelling};
ghost use Rattle.mbox_link.specs.AnswerBytes.{answered};
ghost use Rattle.mbox_link.specs.Calls.{world};
ghost use Rattle.host_widgets.specs.Host.{verdict};
ghost use Rattle.host_widgets.specs.Bringing.{Sent};

use crate::answers::HostFault;
use ipc3_codec::{Body, Message, Reply, decode_reply, encode};
use mbox_link::{Dsp, LinkFault};
use sof_base::Errno;
use sof_io::{Inputs, Outputs};

// The result of an exchange.
fn judge(answer: Result<usize, LinkFault>, reply: &[u8; 384]) -> Result<Reply, HostFault>
    requires { IfOk answer (λ n. n ≤ 384) }
    ensures { result ≡ verdict (answered answer reply.now) }
{
    let Ok(size) = answer else {
        return Err(HostFault::LinkDown);
    };
    // A device's answer is always a reply, and a refusal is always read; only a body may be one that no decoder reads.
    let Ok(reply) = decode_reply(&reply[..size]) else {
        return Ok(Reply {
            error: 0,
            body: Body::Nothing,
        });
    };
    if reply.error < 0 {
        return Err(HostFault::Refused(Errno(reply.error)));
    }
    Ok(reply)
}

/// Sends a message by one exchange, which cuts nothing.
///
/// Ok is a reply whose error is 0; one whose body can't be read comes without a body. `Refused(e)`: the reply's error e is
/// negative. `LinkDown`: the exchange failed.
pub fn send<P: Dsp>(
    message: &Message,
    dsp: &mut P,
    io: &mut Inputs,
    out: &mut Outputs,
) -> Result<Reply, HostFault>
    requires on { is_some (P.means.on dsp.old) ≡ true }
    requires room { HasRoom (61440 * P.means.pending dsp.old) out.old }
    ensures { Sent P.means (message_spelling message.now) (world dsp.old io.old out.old) (world dsp.new io.new out.new) result }
{
    let mut request = [0; 384];
    let size = encode(message, &mut request);
    let mut reply = [0; 384];
    let answer = dsp.exchange(&request[..size], &mut reply, io, out);
    judge(answer, &reply)
}
