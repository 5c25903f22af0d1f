// A link over a device.
ghost use Rattle.std.specs.Prelude.{◌≡◌, ◌+◌, ◌≤◌, ◌<◌, ◌*◌, ◌^◌, length, replicate, take, is_some, true};
ghost use Rattle.sof_base.specs.Ports.{HasRoom};
ghost use Rattle.sof_base.specs.declared.limits.TheConstants.{TURN_BYTES};
ghost use Rattle.mbox_link.specs.Calls.{Tick, Led, world};
ghost use Rattle.mbox_link.specs.Drained.{over_drained};
ghost use Rattle.mbox_link.specs.Fates.{IsMeant};
ghost use Rattle.mbox_link.specs.Link.{link};
ghost use Rattle.mbox_link.specs.Planned.{Planned, LagPlanned};
ghost use Rattle.mbox_link.specs.Step.{error_reply};
ghost use Rattle.mbox_link.specs.Wire.{new_link};

use crate::device::{Dsp, LinkFault};
use crate::draining::Drain;
use crate::fates::{Fate, Fates, PlanFull};
use ipc3_model::bare_reply;
use sof_io::{Inputs, Outputs};
use std::marker::Model;

/// There was no memory, and the device is handed back as it was.
#[derive(Drop)]
pub struct NoRoom<P: Dsp> {
    pub dsp: P,
}

/// A device after a link that plans the fates of its messages, and ticks before them. It counts the messages that it loses
/// and those that it refuses.
#[derive(Drop)]
pub struct FaultLink<P: Dsp> {
    dsp: P,
    fates: Fates,
    sent: u64,
    dropped: u64,
    refused: u64,
}

impl<P: Dsp> Model for FaultLink<P> {
    ghost use Rattle.mbox_link.specs.Wire.{Wire};

    ghost Value = { Wire P };

    ghost view = { λ l. record { device = l.dsp; entries = l.fates; sent = l.sent; dropped = l.dropped; refused = l.refused } };
}

impl<P: Dsp> FaultLink<P> {
    /// A link over a device: nothing was sent, and nothing is planned.
    pub fn new(dsp: P) -> FaultLink<P>
        ensures { result ≡ new_link dsp }
    {
        FaultLink {
            dsp,
            fates: Fates::new(),
            sent: 0,
            dropped: 0,
            refused: 0,
        }
    }

    pub fn dsp(&self) -> &P
        ensures { result.now ≡ self.now.device }
    {
        &self.dsp
    }

    /// The device as it stands.
    pub fn into_dsp(self) -> P
        ensures { result ≡ self.device }
    {
        self.dsp
    }

    /// How many messages were sent, whatever became of them.
    pub fn sent(&self) -> u64
        ensures { result ≡ self.now.sent }
    {
        self.sent
    }

    /// How many messages something is planned for, at most 64. It is held until its message comes.
    pub fn held(&self) -> u32
        ensures { result ≡ length self.now.entries }
    {
        self.fates.len()
    }

    /// Gives the k-th message from now this fate, in place of one that it had, and leaves its lag. It takes no memory.
    ///
    /// `PlanFull`: entries of 64 other messages are held, and nothing changes.
    pub fn plan(&mut self, k: u32, fate: Fate) -> Result<(), PlanFull>
        requires some { 1 ≤ k }
        requires meant { IsMeant fate }
        requires few { self.old.sent < 2 ^ 63 }
        ensures { Planned k fate self.old result self.new }
    {
        self.fates.put(self.sent + u64::from(k), fate)
    }

    /// Lets so many ticks of the device come before the k-th message from now, whatever its fate, in place of those that it
    /// had. It takes no memory.
    ///
    /// `PlanFull`: entries of 64 other messages are held, or their lags and this one are more than 16 ticks, and nothing
    /// changes.
    pub fn lag(&mut self, k: u32, ticks: u32) -> Result<(), PlanFull>
        requires some { 1 ≤ k }
        requires short { ticks ≤ 16 }
        requires few { self.old.sent < 2 ^ 63 }
        ensures { LagPlanned k ticks self.old result self.new }
    {
        self.fates.put_lag(self.sent + u64::from(k), ticks)
    }
}

// So many ticks of a device that is on, one after another.
fn pass_ticks<P: Dsp>(dsp: &mut P, ticks: u32, io: &mut Inputs, out: &mut Outputs)
    requires on { is_some (P.means.on dsp.old) ≡ true }
    requires room { HasRoom (TURN_BYTES * (ticks + P.means.pending dsp.old)) out.old }
    ensures came { Led P.means (world dsp.old io.old out.old) (replicate ticks Tick) (world dsp.new io.new out.new) }
    ensures on { is_some (P.means.on dsp.new) ≡ true }
    ensures room { HasRoom (TURN_BYTES * P.means.pending dsp.new) out.new }
{
    for _ in 0..ticks {
        dsp.tick(io, out);
    }
}

// Writes a refusal to the front of the reply, and tells how many bytes it has.
fn refuse(error: i32, reply: &mut [u8; 384]) -> usize
    ensures size { result ≡ 12 }
    ensures bytes { take result reply.new ≡ error_reply error }
{
    reply[..12].copy_from_slice(&bare_reply(error));
    12
}

impl<P: Dsp> Dsp for FaultLink<P> {
    ghost means = { link P.means };

    fn room(&self) -> u32 {
        self.dsp.room()
    }

    fn on(&self) -> bool {
        self.dsp.on()
    }

    fn boot(&mut self, heap: u32) {
        self.dsp.boot(heap)
    }

    fn cut(&mut self) {
        self.dsp.cut()
    }

    fn exchange(
        &mut self,
        request: &[u8],
        reply: &mut [u8; 384],
        io: &mut Inputs,
        out: &mut Outputs,
    ) -> Result<usize, LinkFault> {
        let number = self.sent.saturating_add(1);
        let met = self.fates.take(number);
        pass_ticks(&mut self.dsp, met.lag, io, out);
        self.sent = number;
        match met.fate {
            Fate::Pass => self.dsp.exchange(request, reply, io, out),
            Fate::Refuse(error) => {
                self.refused = self.refused.saturating_add(1);
                Ok(refuse(error, reply))
            }
            Fate::Drop => {
                self.dropped = self.dropped.saturating_add(1);
                Err(LinkFault)
            }
            Fate::Lose => {
                self.dropped = self.dropped.saturating_add(1);
                let _ = self.dsp.exchange(request, reply, io, out);
                Err(LinkFault)
            }
        }
    }

    fn tick(&mut self, io: &mut Inputs, out: &mut Outputs) {
        self.dsp.tick(io, out)
    }
}

impl<P: Drain> Drain for FaultLink<P> {
    ghost empties = { over_drained P.means P.empties };

    fn drain(&mut self) {
        self.dsp.drain()
    }
}
