// A device as the host sees it: off, or on with a state, and what each of its calls does.
ghost use Rattle.std.specs.Prelude.{◌≡◌, ◌≤◌, ◌*◌, is_some, true, IfOk};
ghost use Rattle.sof_base.specs.Ports.{HasRoom};
ghost use Rattle.sof_base.specs.declared.limits.TheConstants.{TURN_BYTES};
ghost use Rattle.mbox_link.specs.AnswerBytes.{answered};
ghost use Rattle.mbox_link.specs.Calls.{Meaning, BootedDevice, CutOff, Exchanged, Ticked, world};

use sof_io::{Inputs, Outputs};

/// The link failed, and the device counted it.
#[derive(Clone, Copy, Debug, PartialEq, Eq)]
pub struct LinkFault;

/// A DSP behind a mailbox: off, or on with a state. Its count of boots and those of faults and of refusals, one at each link
/// on the way to it, never fall and stay at their last value.
pub trait Dsp: Drop {
    /// Its state, its counts, and what each call does.
    ghost means: { Meaning Self };

    /// The greatest heap, in bytes, which no call changes.
    fn room(&self) -> u32
        ensures { result ≡ means.most self.now };

    fn on(&self) -> bool
        ensures { result ≡ is_some (means.on self.now) };

    /// Boots the device with a heap of so many bytes: a fresh state with its clock at 0. Takes no memory.
    fn boot(&mut self, heap: u32)
        requires off { means.on self.old ≡ None }
        requires fits { heap ≤ means.most self.old }
        ensures { BootedDevice means heap self.old self.new };

    /// The device is off, whatever it was.
    fn cut(&mut self)
        ensures { CutOff means self.old self.new };

    /// Delivers a message of at most 384 bytes and takes its reply, which stands at the front of `reply`.
    ///
    /// First come as many ticks as the device's pending ones fall by. Ok: the firmware's step for these bytes was done and
    /// the reply is its reply, or a count of refusals rose, the reply is a negative error without a body and the step was
    /// not done. Err: a count of faults rose, and the step was done whole or not at all.
    fn exchange(
        &mut self,
        request: &[u8],
        reply: &mut [u8; 384],
        io: &mut Inputs,
        out: &mut Outputs,
    ) -> Result<usize, LinkFault>
        requires on { is_some (means.on self.old) ≡ true }
        requires room { HasRoom (TURN_BYTES * means.pending self.old) out.old }
        ensures short { IfOk result (λ n. n ≤ 384) }
        ensures did { Exchanged means request.now (answered result reply.new)
            (world self.old io.old out.old) (world self.new io.new out.new) };

    /// A tick where it is on, else nothing. It takes at most `TURN_BYTES`, 61440, from each input, and puts at most as many to each
    /// output.
    fn tick(&mut self, io: &mut Inputs, out: &mut Outputs)
        requires room { HasRoom TURN_BYTES out.old }
        ensures { Ticked means (world self.old io.old out.old) (world self.new io.new out.new) };
}
