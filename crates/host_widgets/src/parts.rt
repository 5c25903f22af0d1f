// An equaliser's blob, one message for each of its parts.
ghost use Rattle.std.specs.Prelude.{◌≡◌, ◌<◌, ◌*◌, is_some, true};
ghost use Rattle.sof_base.specs.BlobFaults.{is_blob};
ghost use Rattle.sof_base.specs.Ports.{HasRoom};
ghost use Rattle.tplg_plan.specs.declared.plans.Plan.{Plan};
ghost use Rattle.mbox_link.specs.BlobParts.{parts, blob_part};
ghost use Rattle.mbox_link.specs.Calls.{world};
ghost use Rattle.host_widgets.specs.ActLists.{part_acts};
ghost use Rattle.host_widgets.specs.ActCarried.{ActsSent};

use crate::answers::HostFault;
use crate::sending::send;
use ipc3_codec::Message;
use mbox_link::Dsp;
use sof_base::{Part, PartBytes, bytes_at};
use sof_io::{Inputs, Outputs};

/// How many parts a blob has: of the bytes after its header, 260 are in each but the last.
pub fn part_count(blob: &[u8]) -> u32
    requires { is_blob blob.now ≡ true }
    ensures { result ≡ parts blob.now }
{
    ((blob.len() - 32 + 259) / 260) as u32
}

// A part of a blob, by its number from 0.
fn part(blob: &[u8], index: u32) -> Part
    requires blob { is_blob blob.now ≡ true }
    requires there { index < parts blob.now }
    ensures { result ≡ blob_part blob.now index }
{
    let start = 32 + 260 * index as usize;
    let rest = blob.len() - start;
    let count = rest.min(260);
    let bytes = match PartBytes::new(&blob[start..start + count]) {
        Some(bytes) => bytes,
        // Never so: there are at most 260.
        None => PartBytes::empty(),
    };
    Part {
        header: bytes_at(blob, 0),
        remaining: (rest - count) as u32,
        index,
        bytes,
    }
}

/// Sends a blob to an equaliser in its parts, one exchange each, up to the first that does not pass. Each part has the blob's
/// header, and all but the last 260 bytes of those after it. Nothing is cut.
///
/// Ok: all parts have passed. `Refused(e)`: a part was answered with the negative error e. `LinkDown`: an exchange failed.
pub fn send_parts<P: Dsp>(
    comp: u32,
    blob: &[u8],
    dsp: &mut P,
    io: &mut Inputs,
    out: &mut Outputs,
) -> Result<(), HostFault>
    requires blob { is_blob blob.now ≡ true }
    requires on { is_some (P.means.on dsp.old) ≡ true }
    requires room { HasRoom (61440 * P.means.pending dsp.old) out.old }
    // The messages are these, whatever the plan.
    ensures { (plan : Plan) → ActsSent P.means plan (part_acts comp blob.now) (world dsp.old io.old out.old) (world dsp.new io.new out.new) result }
{
    for index in 0..part_count(blob) {
        let message = Message::SetData {
            id: comp,
            part: part(blob, index),
        };
        send(&message, dsp, io, out)?;
    }
    Ok(())
}
