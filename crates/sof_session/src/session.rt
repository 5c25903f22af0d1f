// A host with its device after a link.
ghost use Rattle.std.specs.Prelude.{◌≡◌, ℕ, ◌+◌, ◌<◌, ◌≤◌, ◌^◌, None, true, false, length, option_map, MatchResult};
ghost use Rattle.sof_base.specs.Ports.{Io};
ghost use Rattle.sof_base.specs.DrainedOutputs.{drained};
ghost use Rattle.mbox_link.specs.Calls.{MovesBy, world};
ghost use Rattle.mbox_link.specs.Drained.{Drained};
ghost use Rattle.mbox_link.specs.Fates.{IsMeant};
ghost use Rattle.mbox_link.specs.Link.{link};
ghost use Rattle.tplg_plan.specs.Sound.{IsSound};
ghost use Rattle.host_pcm.specs.Asks.{asks_for_power};
ghost use Rattle.sof_io.specs.Bound.{output_slots};
ghost use Rattle.sof_session.specs.Agreement.{AreAgreed};
ghost use Rattle.sof_session.specs.CommandRanges.{is_in_range};
ghost use Rattle.sof_session.specs.Commands.{is_tick};
ghost use Rattle.sof_session.specs.Fills.{input_ends};
ghost use Rattle.sof_session.specs.Modes.{SteppedBy, lines_in, most_sent_by};
ghost use Rattle.sof_session.specs.SessionView as seats;
ghost use Rattle.sof_session.specs.SessionView.{new_seat, seat_in, with_device};
ghost use Rattle.sof_session.specs.SessionCalls.{IsStep, asking_command, is_control_in, Stays, PlanRan, LagRan, ports};
ghost use Rattle.sof_session.specs.ShownLines.{IsLineAt};
ghost use Rattle.sof_session.specs.UpCommands as ups;

use crate::answers::{answer_of, plan_answer, told_answer};
use crate::show::{show_line, show_up_line};
use host_ctl::{get, keep_bytes, keep_values, read, set, set_bytes};
use host_dynamic::is_control_up;
use host_pcm::Ask;
use host_pm::{resume, suspend};
use host_widgets::{Answer, HostFault, Power, Record, Trigger, load, unload};
use mbox_link::{Drain, Dsp, Fate, FaultLink, NoRoom};
use sof_base::{Bounded, Name44, NoMemory};
use sof_io::{Inputs, Outputs};
use sof_script::{Blob, Command, Line};
use std::alloc::Global;
use std::marker::Model;
use tplg_plan::Plan;

// What is up at first, where pipelines are made on use.
fn first_up(on_use: bool) -> Option<Bounded<u32, 32>>
    ensures { result ≡ seats.first_up on_use }
{
    if on_use { Some(Bounded::empty()) } else { None }
}

// Whether the component of the control of this name is up, where there is one: where all pipelines are made at a load, it is.
fn is_up(plan: &Plan, up: &Option<Bounded<u32, 32>>, name: &Name44) -> bool
    requires { IsSound plan.now }
    ensures { result ≡ is_control_in up.now plan.now name.now }
{
    match up {
        Some(up) => is_control_up(plan, up.items(), name),
        None => true,
    }
}

// Why a control is not read whose component is not up.
fn down_fault(power: Power) -> HostFault
    ensures { result ≡ ups.down_fault power }
{
    match power {
        Power::Unloaded => HostFault::NotLoaded,
        Power::On | Power::Off => HostFault::Off,
    }
}

/// A host that keeps its record of a device after a link. A session has one of two modes for good. Where all pipelines are made at a
/// load, the device is on with the view that the record says, with a heap as the load left it and a ring for each buffer; or off. Where
/// they are made on use, it is on with the part of the plan's graph that the streams need that are not closed; or off.
#[derive(Drop)]
pub struct Session<P: Dsp> {
    link: FaultLink<P>,
    kept: Record,
    plan: Plan,
    heap: u32,
    up: Option<Bounded<u32, 32>>,
}

impl<P: Dsp> Model for Session<P> {
    ghost use Rattle.sof_session.specs.SessionView.{SessionView};

    ghost Value = { SessionView P };

    ghost use Rattle.sof_session.specs.Agreement.{AreAgreed};

    ghost view = { λ s. record { link = s.link; kept = s.kept; plan = s.plan; heap = s.heap; up = s.up } };

    ghost invariant = { λ s. AreAgreed P.means (record { link = s.link; kept = s.kept; plan = s.plan; heap = s.heap; up = s.up }) };
}

impl<P: Dsp> Session<P> {
    /// A session over a device that is off, with a heap of so many bytes: nothing is loaded, sent or planned, and all pipelines are made
    /// at a load. Where there is no memory, the device is handed back as it was.
    pub fn new(alloc: Global, plan: Plan, heap: u32, dsp: P) -> Result<Session<P>, NoRoom<P>>
        requires off { P.means.on dsp ≡ None }
        requires pending { P.means.pending dsp ≡ 0 }
        requires room { heap ≤ P.means.most dsp }
        requires plan { IsSound plan }
        ensures { MatchResult result
            (λ session. session ≡ new_seat plan heap dsp)
            (λ refused. refused.dsp ≡ dsp) }
    {
        Session::with_mode(alloc, false, plan, heap, dsp)
    }

    /// As [`Session::new`], of a session that makes pipelines when a stream that needs them is first opened, and unmakes them after the
    /// last such stream is closed.
    pub fn on_use(alloc: Global, plan: Plan, heap: u32, dsp: P) -> Result<Session<P>, NoRoom<P>>
        requires off { P.means.on dsp ≡ None }
        requires pending { P.means.pending dsp ≡ 0 }
        requires room { heap ≤ P.means.most dsp }
        requires plan { IsSound plan }
        ensures { MatchResult result
            (λ session. session ≡ seat_in true plan heap dsp)
            (λ refused. refused.dsp ≡ dsp) }
    {
        Session::with_mode(alloc, true, plan, heap, dsp)
    }

    /// As [`Session::on_use`] where pipelines are to be made on use, and else as [`Session::new`].
    pub fn with_mode(
        alloc: Global,
        on_use: bool,
        plan: Plan,
        heap: u32,
        dsp: P,
    ) -> Result<Session<P>, NoRoom<P>>
        requires off { P.means.on dsp ≡ None }
        requires pending { P.means.pending dsp ≡ 0 }
        requires room { heap ≤ P.means.most dsp }
        requires plan { IsSound plan }
        ensures { MatchResult result
            (λ session. session ≡ seat_in on_use plan heap dsp)
            (λ refused. refused.dsp ≡ dsp) }
    {
        match Record::new(alloc, &plan) {
            Ok(kept) => Ok(Session {
                link: FaultLink::new(dsp),
                kept,
                plan,
                heap,
                up: first_up(on_use),
            }),
            Err(NoMemory) => Err(NoRoom { dsp }),
        }
    }

    /// The device as it stands: on with the view that the record says, of what is up where pipelines are made on use; or off.
    pub fn into_dsp(self) -> P
        ensures dsp { result ≡ self.link.device }
        ensures agreed { AreAgreed P.means self }
    {
        self.link.into_dsp()
    }

    /// The device as it stands.
    pub fn dsp(&self) -> &P
        ensures { result.now ≡ self.now.link.device }
    {
        self.link.dsp()
    }

    /// The indices of the pipelines that are up, in the order in which they were made; where all are made at a load, none is listed.
    pub fn up(&self) -> Option<&[u32]>
        ensures { option_map (λ list. list.now) result ≡ self.now.up }
    {
        match &self.up {
            Some(up) => Some(up.items()),
            None => None,
        }
    }

    /// The plan that it loads.
    pub fn plan(&self) -> &Plan
        ensures { result.now ≡ self.now.plan }
    {
        &self.plan
    }

    /// Carries out a command: `Load`, `Unload`, `Suspend`, `Resume`, `Show`, `Tick`, a planned fate, which are `Refuse`, `Drop` and
    /// `Lose`, a planned `Lag`, a call on a control, which are `Set`, `Bytes`, `Get` and `Read`, or a call on a stream, which are
    /// `Open`, `Params`, `Start`, `Stop`, `Pause`, `Release` and `Close`.
    /// `Load` boots the device and loads the plan where it is not loaded; `Unload` cuts the device and forgets what was
    /// loaded; `Suspend` stops what moves and cuts the device, and `Resume` brings it back; `Show` changes nothing, and its lines are
    /// those of `show_line`; `Tick` makes one tick, whatever its number; `Set` puts a control's values and `Bytes` an equaliser's blob,
    /// `Get` tells them by the record, and `Read` by the device; a planned fate is that of the K-th message from now, and a lag is the
    /// ticks that come before that message, in the command that sends it. The answer is `PlanFull` where no more can be planned. It
    /// answers as the host's call does. The outputs are empty before it, and hold what it wrote after it.
    ///
    /// Where pipelines are made on use, `Load` boots and sends nothing; `Open` makes what the stream needs and is not up; `Close` unmakes
    /// what no other stream needs; `Resume` makes what is up; and a control whose component is not up is set in the record alone, and not
    /// read: `Read` then answers `Off`.
    pub fn step(&mut self, command: &Command, io: &mut Inputs, out: &mut Outputs) -> Answer
        requires numbers { is_in_range command.now ≡ true }
        requires few { self.old.link.sent < 2 ^ 63 }
        requires empty { drained out.old ≡ out.old }
        ensures stepped { SteppedBy P.means command.now self.old self.new (world self.old.link io.old out.old) (world self.new.link io.new out.new) result }
        ensures agreed { AreAgreed P.means self.new }
        ensures plan { self.new.plan ≡ self.old.plan }
        ensures heap { self.new.heap ≡ self.old.heap }
        ensures slots { output_slots out.new ≡ output_slots out.old }
        ensures ends { input_ends io.new ≡ input_ends io.old }
        ensures moved { MovesBy 983040 io.old io.new }
        ensures sent { self.new.link.sent ≤ self.old.link.sent + most_sent_by self.old.up command.now }
        ensures still { is_tick command.now ≡ false → (link P.means).pending self.old.link ≡ 0 → (io.new ≡ io.old) × (out.new ≡ out.old) }
    {
        match command {
            Command::Load => self.load(io, out),
            Command::Unload => self.unload(io, out),
            Command::Suspend => self.suspend(io, out),
            Command::Resume => self.resume(io, out),
            Command::Refuse(k, error) => self.plan_fate(*k, Fate::Refuse(*error)),
            Command::Drop(k) => self.plan_fate(*k, Fate::Drop),
            Command::Lose(k) => self.plan_fate(*k, Fate::Lose),
            Command::Tick(_) => {
                self.tick(io, out);
                Answer::Done
            }
            Command::Open(name) => self.open(name, io, out),
            Command::Params(name, params) => self.ask(name, Ask::Preparing(*params), io, out),
            Command::Start(name) => self.ask(name, Ask::Triggering(Trigger::Start), io, out),
            Command::Stop(name) => self.ask(name, Ask::Triggering(Trigger::Stop), io, out),
            Command::Pause(name) => self.ask(name, Ask::Triggering(Trigger::Pause), io, out),
            Command::Release(name) => self.ask(name, Ask::Triggering(Trigger::Release), io, out),
            Command::Close(name) => self.close(name, io, out),
            Command::Set(name, values) => self.set(name, values, io, out),
            Command::Bytes(name, blob) => self.set_bytes(name, blob, io, out),
            Command::Get(name) => self.get(name, io, out),
            Command::Read(name) => self.read(name, io, out),
            Command::Lag(k, ticks) => self.plan_lag(*k, *ticks),
            Command::Show => self.show(),
        }
    }

    /// One tick of a device that is on; one that is off is not called. It is what `step` does for `Tick`, whatever its number, without
    /// an answer. The outputs are empty before it, and hold what it wrote after it.
    pub fn tick(&mut self, io: &mut Inputs, out: &mut Outputs)
        requires empty { drained out.old ≡ out.old }
        ensures stepped { (number : ℕ) → SteppedBy P.means (Command.Tick number) self.old self.new (world self.old.link io.old out.old) (world self.new.link io.new out.new) Answer.Done }
        ensures agreed { AreAgreed P.means self.new }
        ensures plan { self.new.plan ≡ self.old.plan }
        ensures heap { self.new.heap ≡ self.old.heap }
        ensures slots { output_slots out.new ≡ output_slots out.old }
        ensures ends { input_ends io.new ≡ input_ends io.old }
        ensures moved { MovesBy 61440 io.old io.new }
        ensures sent { self.new.link.sent ≡ self.old.link.sent }
    {
        match self.kept.power {
            Power::On => self.link.tick(io, out),
            Power::Unloaded | Power::Off => {}
        }
    }

    // Nothing is done but to answer that all is shown.
    fn show(&self) -> Answer
        ensures shown { result ≡ Answer.Show }
        ensures agreed { AreAgreed P.means self.now }
    {
        // What the type keeps is known of a session that is read.
        let _heap = self.heap;
        Answer::Show
    }

    // Boots the device, where nothing is loaded, and loads the plan where all pipelines are made then.
    fn load(&mut self, io: &mut Inputs, out: &mut Outputs) -> Answer
        requires few { self.old.link.sent < 2 ^ 63 }
        requires empty { drained out.old ≡ out.old }
        ensures { IsStep P.means Command.Load self.old self.new (ports io.old out.old) (ports io.new out.new) result }
    {
        match &mut self.up {
            None => {
                let loaded = load(
                    &self.plan,
                    &mut self.kept,
                    self.heap,
                    &mut self.link,
                    io,
                    out,
                );
                answer_of(loaded)
            }
            Some(up) => {
                let booted = host_dynamic::load(
                    &self.plan,
                    &mut self.kept,
                    up,
                    self.heap,
                    &mut self.link,
                    io,
                    out,
                );
                answer_of(booted)
            }
        }
    }

    // Cuts the device and forgets what was loaded.
    fn unload(&mut self, io: &mut Inputs, out: &mut Outputs) -> Answer
        requires few { self.old.link.sent < 2 ^ 63 }
        requires empty { drained out.old ≡ out.old }
        ensures { IsStep P.means Command.Unload self.old self.new (ports io.old out.old) (ports io.new out.new) result }
    {
        match &mut self.up {
            None => {
                let unloaded = unload(
                    &self.plan,
                    &mut self.kept,
                    self.heap,
                    &mut self.link,
                    io,
                    out,
                );
                answer_of(unloaded)
            }
            Some(up) => {
                let dropped = host_dynamic::unload(
                    &self.plan,
                    &mut self.kept,
                    up,
                    self.heap,
                    &mut self.link,
                    io,
                    out,
                );
                answer_of(dropped)
            }
        }
    }

    // Stops all that moves, and cuts the device.
    fn suspend(&mut self, io: &mut Inputs, out: &mut Outputs) -> Answer
        requires few { self.old.link.sent < 2 ^ 63 }
        requires empty { drained out.old ≡ out.old }
        ensures { IsStep P.means Command.Suspend self.old self.new (ports io.old out.old) (ports io.new out.new) result }
    {
        let suspended = suspend(
            &self.plan,
            &mut self.kept,
            self.heap,
            &mut self.link,
            io,
            out,
        );
        answer_of(suspended)
    }

    // Boots the device and brings it back to what the record says, or makes what is up.
    fn resume(&mut self, io: &mut Inputs, out: &mut Outputs) -> Answer
        requires few { self.old.link.sent < 2 ^ 63 }
        requires empty { drained out.old ≡ out.old }
        ensures { IsStep P.means Command.Resume self.old self.new (ports io.old out.old) (ports io.new out.new) result }
    {
        match &self.up {
            None => {
                let resumed = resume(
                    &self.plan,
                    &mut self.kept,
                    self.heap,
                    &mut self.link,
                    io,
                    out,
                );
                answer_of(resumed)
            }
            Some(up) => {
                let remade = host_dynamic::resume(
                    &self.plan,
                    &mut self.kept,
                    up,
                    self.heap,
                    &mut self.link,
                    io,
                    out,
                );
                answer_of(remade)
            }
        }
    }

    // Opens the stream of this name; where pipelines are made on use, what it needs is made first.
    fn open(&mut self, name: &Name44, io: &mut Inputs, out: &mut Outputs) -> Answer
        requires few { self.old.link.sent < 2 ^ 63 }
        requires empty { drained out.old ≡ out.old }
        ensures { IsStep P.means (Command.Open name.now) self.old self.new (ports io.old out.old) (ports io.new out.new) result }
    {
        match &mut self.up {
            None => {
                let opened = host_pcm::ask(
                    &self.plan,
                    &mut self.kept,
                    self.heap,
                    &mut self.link,
                    io,
                    out,
                    name,
                    Ask::Opening,
                );
                answer_of(opened)
            }
            Some(up) => {
                let made = host_dynamic::open(
                    &self.plan,
                    &mut self.kept,
                    up,
                    self.heap,
                    &mut self.link,
                    io,
                    out,
                    name,
                );
                answer_of(made)
            }
        }
    }

    // Closes the stream of this name; where pipelines are made on use, what no other needs is unmade then.
    fn close(&mut self, name: &Name44, io: &mut Inputs, out: &mut Outputs) -> Answer
        requires few { self.old.link.sent < 2 ^ 63 }
        requires empty { drained out.old ≡ out.old }
        ensures { IsStep P.means (Command.Close name.now) self.old self.new (ports io.old out.old) (ports io.new out.new) result }
    {
        match &mut self.up {
            None => {
                let closed = host_pcm::ask(
                    &self.plan,
                    &mut self.kept,
                    self.heap,
                    &mut self.link,
                    io,
                    out,
                    name,
                    Ask::Closing,
                );
                answer_of(closed)
            }
            Some(up) => {
                let unmade = host_dynamic::close(
                    &self.plan,
                    &mut self.kept,
                    up,
                    self.heap,
                    &mut self.link,
                    io,
                    out,
                    name,
                );
                answer_of(unmade)
            }
        }
    }

    // Gives the stream of this name parameters, or starts, stops, pauses or releases it.
    fn ask(&mut self, name: &Name44, ask: Ask, io: &mut Inputs, out: &mut Outputs) -> Answer
        requires sends { asks_for_power ask ≡ true }
        requires few { self.old.link.sent < 2 ^ 63 }
        requires empty { drained out.old ≡ out.old }
        ensures { IsStep P.means (asking_command name.now ask) self.old self.new (ports io.old out.old) (ports io.new out.new) result }
    {
        let asked = host_pcm::ask(
            &self.plan,
            &mut self.kept,
            self.heap,
            &mut self.link,
            io,
            out,
            name,
            ask,
        );
        answer_of(asked)
    }

    // The control of this name has these values, or this one value for all its channels; where its component is not up, the record alone
    // changes.
    fn set(
        &mut self,
        name: &Name44,
        values: &Bounded<u32, 8>,
        io: &mut Inputs,
        out: &mut Outputs,
    ) -> Answer
        requires few { self.old.link.sent < 2 ^ 63 }
        requires empty { drained out.old ≡ out.old }
        ensures { IsStep P.means (Command.Set name.now values.now) self.old self.new (ports io.old out.old) (ports io.new out.new) result }
    {
        if !is_up(&self.plan, &self.up, name) {
            return answer_of(keep_values(&self.plan, &mut self.kept, name, values.items()));
        }
        let done = set(
            &self.plan,
            &mut self.kept,
            self.heap,
            &mut self.link,
            io,
            out,
            name,
            values.items(),
        );
        answer_of(done)
    }

    // The equaliser of this name has this blob; where it is not up, the record alone changes.
    fn set_bytes(
        &mut self,
        name: &Name44,
        blob: &Blob,
        io: &mut Inputs,
        out: &mut Outputs,
    ) -> Answer
        requires few { self.old.link.sent < 2 ^ 63 }
        requires empty { drained out.old ≡ out.old }
        ensures { IsStep P.means (Command.Bytes name.now blob.now) self.old self.new (ports io.old out.old) (ports io.new out.new) result }
    {
        if !is_up(&self.plan, &self.up, name) {
            return answer_of(keep_bytes(&self.plan, &mut self.kept, name, blob.items()));
        }
        let done = set_bytes(
            &self.plan,
            &mut self.kept,
            self.heap,
            &mut self.link,
            io,
            out,
            name,
            blob.items(),
        );
        answer_of(done)
    }

    // What the record says of the control of this name.
    fn get(&mut self, name: &Name44, io: &mut Inputs, out: &mut Outputs) -> Answer
        requires few { self.old.link.sent < 2 ^ 63 }
        requires empty { drained out.old ≡ out.old }
        ensures { IsStep P.means (Command.Get name.now) self.old self.new (ports io.old out.old) (ports io.new out.new) result }
    {
        let told = get(
            &self.plan,
            &mut self.kept,
            self.heap,
            &mut self.link,
            io,
            out,
            name,
        );
        told_answer(told)
    }

    // What the firmware says of the control of this name, where its component is up.
    fn read(&mut self, name: &Name44, io: &mut Inputs, out: &mut Outputs) -> Answer
        requires few { self.old.link.sent < 2 ^ 63 }
        requires empty { drained out.old ≡ out.old }
        ensures { IsStep P.means (Command.Read name.now) self.old self.new (ports io.old out.old) (ports io.new out.new) result }
    {
        if !is_up(&self.plan, &self.up, name) {
            return Answer::Fault(down_fault(self.kept.power));
        }
        let told = read(
            &self.plan,
            &mut self.kept,
            self.heap,
            &mut self.link,
            io,
            out,
            name,
        );
        told_answer(told)
    }

    // The k-th message from now is to have this fate.
    fn plan_fate(&mut self, k: u32, fate: Fate) -> Answer
        requires ahead { 1 ≤ k }
        requires meant { IsMeant fate }
        requires few { self.old.link.sent < 2 ^ 63 }
        ensures ran { PlanRan k fate self.old self.new result }
        ensures stays { (io : Io) → Stays P.means self.old self.new io io }
    {
        let planned = self.link.plan(k, fate);
        plan_answer(planned)
    }

    // So many ticks are to come before the k-th message from now.
    fn plan_lag(&mut self, k: u32, ticks: u32) -> Answer
        requires ahead { 1 ≤ k }
        requires short { ticks ≤ 16 }
        requires few { self.old.link.sent < 2 ^ 63 }
        ensures ran { LagRan k ticks self.old self.new result }
        ensures stays { (io : Io) → Stays P.means self.old self.new io io }
    {
        let planned = self.link.lag(k, ticks);
        plan_answer(planned)
    }

    /// Writes the k-th of the lines that say how everything stands, from 0, and answers whether there is one.
    pub fn show_line(&self, k: u32, line: &mut Line) -> bool
        ensures line { IsLineAt (lines_in self.now.up self.now.plan self.now.kept) k result line.new }
        ensures short { result ≡ true → length line.new < 2304 }
    {
        match &self.up {
            None => show_line(&self.plan, &self.kept, k, line),
            Some(up) => show_up_line(&self.plan, &self.kept, up.items(), k, line),
        }
    }

    /// What should be there.
    pub fn record(&self) -> &Record
        ensures { result.now ≡ self.now.kept }
    {
        &self.kept
    }

    /// How many messages were sent, whatever became of them.
    pub fn sent(&self) -> u64
        ensures { result ≡ self.now.link.sent }
    {
        self.link.sent()
    }
}

impl<P: Drain> Session<P> {
    /// Lets the device let go of what it holds. All else stays: the record, what is planned, what was sent, the plan and the heap.
    pub fn drain(&mut self)
        ensures drained { Drained P.means P.empties self.old.link.device self.new.link.device }
        ensures rest { self.new ≡ with_device self.old self.new.link.device }
        ensures agreed { AreAgreed P.means self.new }
    {
        self.link.drain()
    }
}
