// One record of a driver, given to a device.
ghost use Rattle.std.specs.Prelude.{◌≡◌, ◌≤◌, [], take, None, true, is_some};
ghost use Rattle.run_serve.specs.Placed.{may_come, GaveByCall, WasGiven};
ghost use Rattle.ipc3_trace.specs.declared.entry.Entry.TheVariants as entries;

use ipc3_trace::{Entry, Next, record_at};
use mbox_link::{Dsp, LinkFault};
use sof_base::{Bounded, NoMemory};
use sof_io::{Inputs, Outputs};
use std::alloc::Global;

/// What came of a record that was given to a device.
#[derive(Debug, Drop)]
pub enum Given {
    /// Its call was made, and nothing comes back of it.
    Done,
    /// It is a message, and this is the device's reply.
    Reply(Bounded<u8, 384>),
    /// It is a message, and the device failed.
    Lost,
    /// It can't come there, and no call was made: a boot of a device that is on, or with a heap above its room; a cut, a message or a
    /// tick of one that is off; a reply or a loss.
    Misplaced,
}

// Whether a record may come to a device that is on or off, and has this room.
fn may_come(entry: &Entry, on: bool, room: u32) -> bool
    ensures { result ≡ may_come room on entry.now }
{
    match entry {
        Entry::Boot(heap) => !on && *heap <= room,
        Entry::Cut | Entry::Request(_) | Entry::Tick => on,
        Entry::Reply(_) | Entry::Lost => false,
    }
}

// So many bytes at the front of a reply.
fn front(reply: &[u8; 384], long: usize) -> Bounded<u8, 384>
    requires { long ≤ 384 }
    ensures { result ≡ take long reply.now }
{
    Bounded::new(&reply[..long]).unwrap_or(Bounded::empty())
}

// Delivers a message.
fn send<P: Dsp>(dsp: &mut P, message: &[u8], inputs: &mut Inputs, outputs: &mut Outputs) -> Given
    requires on { is_some (P.means.on dsp.old) ≡ true }
    requires inputs { inputs.old ≡ [] }
    requires outputs { outputs.old ≡ [] }
    ensures gave { GaveByCall P.means (entries.Request message.now) result dsp.old dsp.new }
    ensures inputs { inputs.new ≡ [] }
    ensures outputs { outputs.new ≡ [] }
{
    let mut reply = [0; 384];
    match dsp.exchange(message, &mut reply, inputs, outputs) {
        Ok(long) => Given::Reply(front(&reply, long)),
        Err(LinkFault) => Given::Lost,
    }
}

// Makes the call of a record that may come.
fn call<P: Dsp>(entry: &Entry, dsp: &mut P, inputs: &mut Inputs, outputs: &mut Outputs) -> Given
    requires may { may_come (P.means.most dsp.old) (is_some (P.means.on dsp.old)) entry.now ≡ true }
    requires inputs { inputs.old ≡ [] }
    requires outputs { outputs.old ≡ [] }
    ensures gave { GaveByCall P.means entry.now result dsp.old dsp.new }
    ensures inputs { inputs.new ≡ [] }
    ensures outputs { outputs.new ≡ [] }
{
    match entry {
        Entry::Boot(heap) => dsp.boot(*heap),
        Entry::Cut => dsp.cut(),
        Entry::Request(message) => return send(dsp, message.items(), inputs, outputs),
        Entry::Tick => dsp.tick(inputs, outputs),
        Entry::Reply(_) => {}
        Entry::Lost => {}
    }
    Given::Done
}

/// Gives a record to a device, where it may come. The endpoints have no slots.
pub fn give<P: Dsp>(entry: &Entry, dsp: &mut P, inputs: &mut Inputs, outputs: &mut Outputs) -> Given
    requires inputs { inputs.old ≡ [] }
    requires outputs { outputs.old ≡ [] }
    ensures gave { WasGiven P.means entry.now result dsp.old dsp.new }
    ensures inputs { inputs.new ≡ [] }
    ensures outputs { outputs.new ≡ [] }
{
    if !may_come(entry, dsp.on(), dsp.room()) {
        return Given::Misplaced;
    }
    call(entry, dsp, inputs, outputs)
}

/// The reply of a device that is off to the last message of a trace that it takes, up to the first record that is broken. Records that
/// can't come there, replies and losses are passed over. None where there is no such message, or the device failed in the last one.
///
/// Endpoints without slots take no memory: `NoMemory` does not come.
pub fn last_reply<P: Dsp>(
    alloc: Global,
    bytes: &[u8],
    dsp: P,
) -> Result<Option<Bounded<u8, 384>>, NoMemory>
    requires off { P.means.on dsp ≡ None }
{
    let mut inputs = Inputs::new(alloc)?;
    let mut outputs = Outputs::new(alloc)?;
    let mut dsp = dsp;
    let mut last = None;
    let mut at = 0;
    'records: loop {
        match record_at(bytes, at) {
            Ok(Next::One { entry, next }) => {
                match give(&entry, &mut dsp, &mut inputs, &mut outputs) {
                    Given::Reply(reply) => last = Some(reply),
                    Given::Lost => last = None,
                    Given::Done | Given::Misplaced => {}
                }
                at = next;
            }
            Ok(Next::End) => return Ok(last),
            Err(_fault) => return Ok(last),
        }
    }
}
