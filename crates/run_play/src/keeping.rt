// What is kept of the calls on a device while a script is played over it: nothing, or their records.
ghost use Rattle.std.specs.Prelude.{◌≡◌, ℕ, [], List, true};
ghost use Rattle.sof_session.specs.SessionView.{with_device};
ghost use Rattle.sof_session.specs.Written.{with_bytes, written_in};
ghost use Rattle.mbox_link.specs.Drained.{Drained};
ghost use Rattle.sof_base.specs.DrainedOutputs.{drained};
ghost use Rattle.sof_io.specs.Bound.{output_slots};
ghost use Rattle.run_play.specs.Keeping.{trace_slot};
ghost use Rattle.run_play.specs.KeptTurns.{CanKeep};
ghost use Rattle.run_play.specs.Opening.{AreCreated, SameFiles};
ghost use Rattle.run_play.specs.Play.{flush_todo};
ghost use Rattle.run_desk.specs.Todo.{DeskPhase};

use crate::appending::{write_output, write_outputs};
use ipc3_trace::Tracer;
use mbox_link::{Drain, Dsp, LinkFault};
use sof_desk::Desk;
use sof_io::{Inputs, Outputs};
use sof_session::Session;
use std::marker::Model;

/// The slot of a trace's file.
pub const TRACE_SLOT: u32 = 4294967295;

/// A device with a buffer of what it traced of its calls, which is written after each unit.
pub trait TraceBuffer: Drain {
    /// The bytes that it holds.
    ghost holds: { Self → List ℕ };

    /// The bytes that it holds of the calls since the last drain.
    fn held(&self) -> &[u8]
        ensures { result.now ≡ holds self.now };
}

impl<P: Dsp> TraceBuffer for Tracer<P> {
    ghost holds = { λ t. t.held.bytes };

    fn held(&self) -> &[u8] {
        self.bytes()
    }
}

/// A device of whose calls nothing is kept.
#[derive(Drop)]
pub struct Untraced<P: Dsp> {
    dsp: P,
}

impl<P: Dsp> Model for Untraced<P> {
    ghost Value = { P };

    ghost view = { λ u. u.dsp };
}

impl<P: Dsp> Untraced<P> {
    pub fn new(dsp: P) -> Untraced<P>
        ensures { result ≡ dsp }
    {
        Untraced { dsp }
    }

    /// The device as it stands.
    pub fn into_dsp(self) -> P
        ensures { result ≡ self }
    {
        self.dsp
    }
}

impl<P: Dsp> Dsp for Untraced<P> {
    ghost means = { P.means };

    fn room(&self) -> u32 {
        self.dsp.room()
    }

    fn on(&self) -> bool {
        self.dsp.on()
    }

    fn boot(&mut self, heap: u32) {
        self.dsp.boot(heap)
    }

    fn cut(&mut self) {
        self.dsp.cut()
    }

    fn exchange(
        &mut self,
        request: &[u8],
        reply: &mut [u8; 384],
        io: &mut Inputs,
        out: &mut Outputs,
    ) -> Result<usize, LinkFault> {
        self.dsp.exchange(request, reply, io, out)
    }

    fn tick(&mut self, io: &mut Inputs, out: &mut Outputs) {
        self.dsp.tick(io, out)
    }
}

impl<P: Dsp> Drain for Untraced<P> {
    ghost empties = { λ old new. new ≡ old };

    fn drain(&mut self) {}
}

impl<P: Dsp> TraceBuffer for Untraced<P> {
    ghost holds = { λ d. [] };

    fn held(&self) -> &[u8] {
        &[]
    }
}

// Writes what a unit left: first what is held of its calls, and then the bytes of each output that has any; answers whether all was
// done.
fn write_pieces<D: Desk>(desk: &mut D, held: &[u8], outputs: &Outputs) -> bool
    requires held { (held.now ≡ [] → ⊥) → D.means.created desk.old trace_slot ≡ true }
    requires created { AreCreated D.means (output_slots outputs.now) desk.old }
    ensures phase { DeskPhase D.means (flush_todo (with_bytes trace_slot held.now (written_in outputs.now))) result desk.old desk.new }
    ensures same { SameFiles D.means desk.old desk.new }
{
    if !write_output(desk, TRACE_SLOT, held) {
        return false;
    }
    write_outputs(desk, outputs)
}

/// Writes what a unit left, and lets go of it: what is held of its calls, and the bytes of the outputs. Answers whether all was written.
pub fn write_unit<D: Desk, K: TraceBuffer>(
    desk: &mut D,
    session: &mut Session<K>,
    outputs: &mut Outputs,
) -> bool
    requires keeps { CanKeep D.means K.holds desk.old }
    requires created { AreCreated D.means (output_slots outputs.old) desk.old }
    ensures phase { DeskPhase D.means (flush_todo (with_bytes trace_slot (K.holds session.old.link.device) (written_in outputs.old))) result desk.old desk.new }
    ensures same { SameFiles D.means desk.old desk.new }
    ensures emptied { Drained K.means K.empties session.old.link.device session.new.link.device }
    ensures rest { session.new ≡ with_device session.old session.new.link.device }
    ensures empty { outputs.new ≡ drained outputs.old }
{
    let written = write_pieces(desk, session.dsp().held(), outputs);
    session.drain();
    outputs.drain();
    written
}
