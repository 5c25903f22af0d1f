// A session that makes pipelines when a stream that needs them is first opened.
ghost use Rattle.std.specs.Prelude.{◌≡◌, ◌+◌, ◌<◌, ◌≤◌, ◌^◌, [], None, true, false, length, unwrap_or, MatchResult};
ghost use Rattle.sof_base.specs.DrainedOutputs.{drained};
ghost use Rattle.mbox_link.specs.Calls.{MovesBy, world};
ghost use Rattle.mbox_link.specs.Link.{link};
ghost use Rattle.tplg_plan.specs.Sound.{IsSound};
ghost use Rattle.sof_io.specs.Bound.{output_slots};
ghost use Rattle.sof_session.specs.Agreement.{AreAgreed};
ghost use Rattle.sof_session.specs.CommandRanges.{is_in_range};
ghost use Rattle.sof_session.specs.Commands.{is_tick};
ghost use Rattle.sof_session.specs.Fills.{input_ends};
ghost use Rattle.sof_session.specs.Modes.{up_state_of};
ghost use Rattle.sof_session.specs.SessionView.{seat_in};
ghost use Rattle.sof_session.specs.SessionStep.{CommandDone};
ghost use Rattle.sof_session.specs.ShownLines.{IsLineAt};
ghost use Rattle.sof_session.specs.UpCommands.{up_rules, up_show_lines};

use crate::session::Session;
use host_widgets::{Answer, Record};
use mbox_link::{Dsp, NoRoom};
use sof_io::{Inputs, Outputs};
use sof_script::{Command, Line};
use std::alloc::Global;
use std::marker::Model;
use tplg_plan::Plan;

/// A session that makes pipelines when a stream that needs them is first opened, and unmakes them after the last such stream is closed.
/// The device is on with the part of the plan's graph that the streams need that are not closed; or off.
#[derive(Drop)]
pub struct DynSession<P: Dsp> {
    session: Session<P>,
}

impl<P: Dsp> Model for DynSession<P> {
    ghost use Rattle.std.specs.Prelude.{◌≡◌, is_some, true};
    ghost use Rattle.sof_session.specs.SessionView.{SessionView};

    ghost Value = { SessionView P };

    ghost view = { λ s. s.session };

    ghost invariant = { λ s. is_some s.session.up ≡ true };
}

impl<P: Dsp> DynSession<P> {
    /// A session over a device that is off and of which no tick pends, with a heap of so many bytes, which are at most the device's room:
    /// nothing is loaded, up, sent or planned. Where there is no memory, the device is handed back as it was.
    pub fn new(alloc: Global, plan: Plan, heap: u32, dsp: P) -> Result<DynSession<P>, NoRoom<P>>
        requires off { P.means.on dsp ≡ None }
        requires pending { P.means.pending dsp ≡ 0 }
        requires room { heap ≤ P.means.most dsp }
        requires plan { IsSound plan }
        ensures { MatchResult result
            (λ session. session ≡ seat_in true plan heap dsp)
            (λ refused. refused.dsp ≡ dsp) }
    {
        let session = Session::on_use(alloc, plan, heap, dsp)?;
        Ok(DynSession { session })
    }

    /// The device as it stands: on with what is up, or off.
    pub fn into_dsp(self) -> P
        ensures dsp { result ≡ self.link.device }
        ensures agreed { AreAgreed P.means self }
    {
        self.session.into_dsp()
    }

    /// Carries out a command, as [`Session::step`] does where pipelines are made on use. It takes no memory, and sends at most 1200
    /// messages: an `Open` may make pipelines and then unmake them.
    pub fn step(&mut self, command: &Command, io: &mut Inputs, out: &mut Outputs) -> Answer
        requires numbers { is_in_range command.now ≡ true }
        requires few { self.old.link.sent < 2 ^ 63 }
        requires empty { drained out.old ≡ out.old }
        ensures stepped { CommandDone P.means (up_rules self.old.plan self.old.heap) self.old.heap command.now (up_state_of P.means self.old) (up_state_of P.means self.new) (world self.old.link io.old out.old) (world self.new.link io.new out.new) result }
        ensures agreed { AreAgreed P.means self.new }
        ensures plan { self.new.plan ≡ self.old.plan }
        ensures heap { self.new.heap ≡ self.old.heap }
        ensures slots { output_slots out.new ≡ output_slots out.old }
        ensures ends { input_ends io.new ≡ input_ends io.old }
        ensures moved { MovesBy 983040 io.old io.new }
        ensures sent { self.new.link.sent ≤ self.old.link.sent + 1200 }
        ensures still { is_tick command.now ≡ false → (link P.means).pending self.old.link ≡ 0 → (io.new ≡ io.old) × (out.new ≡ out.old) }
    {
        self.session.step(command, io, out)
    }

    /// Writes the k-th of the lines that say how everything stands, from 0, and answers whether there is one: of the widgets and edges
    /// that are up, and of all streams and controls.
    pub fn show_line(&self, k: u32, line: &mut Line) -> bool
        ensures line { IsLineAt (up_show_lines self.now.plan self.now.kept (unwrap_or self.now.up [])) k result line.new }
        ensures short { result ≡ true → length line.new < 2304 }
    {
        self.session.show_line(k, line)
    }

    /// What should be there.
    pub fn record(&self) -> &Record
        ensures { result.now ≡ self.now.kept }
    {
        self.session.record()
    }

    /// The indices of the pipelines that should be there, in the order in which they were made.
    pub fn up(&self) -> &[u32]
        ensures { result.now ≡ unwrap_or self.now.up [] }
    {
        match self.session.up() {
            Some(up) => up,
            // Never so: pipelines are made on use.
            None => &[],
        }
    }

    /// How many messages were sent, whatever became of them.
    pub fn sent(&self) -> u64
        ensures { result ≡ self.now.link.sent }
    {
        self.session.sent()
    }
}
