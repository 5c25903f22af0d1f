// The commands of a stress, turn by turn.
ghost use Rattle.std.specs.Prelude.{◌≡◌, ◌+◌, ◌*◌, ◌<◌, ◌≤◌, ◌^◌, ◌∷◌, [], ℕ, false};
ghost use Rattle.sof_base.specs.DrainedOutputs.{drained};
ghost use Rattle.sof_io.specs.Bound.{output_slots};
ghost use Rattle.sof_session.specs.Commands as steps;
ghost use Rattle.sof_session.specs.Lives.{Seated};
ghost use Rattle.sof_session.specs.Modes.{most_sent_by};
ghost use Rattle.sof_session.specs.Written.{written_in};
ghost use Rattle.sof_stress.specs.CommandTurns as law;
ghost use Rattle.sof_stress.specs.CommandTurns.{command_turns, turns_of};
ghost use Rattle.sof_script.specs.Ticks.{earlier as turns_before};
ghost use Rattle.sof_stress.specs.CarriedTurns.{AreCountsOf, CarriedFirst, CarriedOut, CommandsCarried, IsDue, IsUnderWay, counted_by, drawn_commands, openings};
ghost use Rattle.sof_stress.specs.Draws as draws;

use crate::commands::{command_by, next_state, streams_of};
use crate::counts::Counts;
use crate::names::host_name;
use host_widgets::Answer;
use mbox_link::Dsp;
use sof_base::{Format, Params};
use sof_io::{Inputs, Outputs};
use sof_script::Command;
use sof_session::Session;

// Whether a command was done.
fn is_done(answer: &Answer) -> bool
    ensures { result ≡ law.is_done answer.now }
{
    matches!(answer, Answer::Done)
}

// Whether a command makes ticks.
fn is_tick(command: &Command) -> bool
    ensures { result ≡ steps.is_tick command.now }
{
    matches!(command, Command::Tick(_))
}

// How many bytes the one output holds.
fn held(outputs: &Outputs, slot: u32) -> u64
    requires { output_slots outputs.now ≡ slot ∷ [] }
    ensures held { result ≡ law.bytes_to slot (written_in outputs.now) }
    ensures most { result ≤ 1048576 }
{
    if outputs.len() == 0 {
        return 0;
    }
    let (_, bytes) = outputs.at(0);
    bytes.len() as u64
}

// How many turns of a command come before its last.
fn earlier_turns(command: &Command) -> u32
    ensures { result ≡ turns_before command.now }
{
    match command {
        Command::Tick(ticks) => ticks.saturating_sub(1),
        _ => 0,
    }
}

// 1 where it is so.
fn one_where(holds: bool) -> u64
    ensures value { result ≡ law.one_where holds }
    ensures most { result ≤ 1 }
{
    if holds { 1 } else { 0 }
}

// Counts a turn of a command, what it answered and how many bytes came out.
fn count_turn(command: &Command, last: bool, answer: &Answer, bytes: u64, counts: &mut Counts)
    requires counts { AreCountsOf (2 ^ 31) counts.old }
    requires bytes { bytes ≤ 1048576 }
    ensures counted { counts.new ≡ counted_by command.now last answer.now bytes counts.old }
    ensures counts { (n : ℕ) → AreCountsOf n counts.old → AreCountsOf (n + 1) counts.new }
{
    counts.ticks += one_where(is_tick(command));
    counts.done += one_where(last && is_done(answer));
    counts.refused += one_where(last && !is_done(answer));
    counts.bytes += bytes;
}

// One turn: a session's step, and what is counted of it.
fn carry_turn<P: Dsp>(
    command: &Command,
    last: bool,
    slot: u32,
    session: &mut Session<P>,
    inputs: &mut Inputs,
    outputs: &mut Outputs,
    counts: &mut Counts,
)
    requires due { IsDue command.now }
    requires few { session.old.link.sent < 2 ^ 63 }
    requires slots { output_slots outputs.old ≡ slot ∷ [] }
    requires empty { drained outputs.old ≡ outputs.old }
    requires counts { AreCountsOf (2 ^ 31) counts.old }
    ensures carried { CarriedFirst P.means slot (record { command = command.now; last = last } ∷ [])
        (Seated session.old inputs.old (output_slots outputs.old)) counts.old (Seated session.new inputs.new (output_slots outputs.new)) counts.new }
    ensures sent { session.new.link.sent ≤ session.old.link.sent + most_sent_by session.old.up command.now }
    ensures slots { output_slots outputs.new ≡ output_slots outputs.old }
    ensures empty { drained outputs.new ≡ outputs.new }
    ensures counts { (n : ℕ) → AreCountsOf n counts.old → AreCountsOf (n + 1) counts.new }
{
    let answer = session.step(command, inputs, outputs);
    let bytes = held(outputs, slot);
    outputs.drain();
    count_turn(command, last, &answer, bytes, counts);
}

// The turns of a command.
fn carry_command<P: Dsp>(
    command: &Command,
    slot: u32,
    session: &mut Session<P>,
    inputs: &mut Inputs,
    outputs: &mut Outputs,
    counts: &mut Counts,
)
    requires due { IsDue command.now }
    requires few { session.old.link.sent < 2 ^ 62 }
    requires slots { output_slots outputs.old ≡ slot ∷ [] }
    requires empty { drained outputs.old ≡ outputs.old }
    requires counts { AreCountsOf (2 ^ 30) counts.old }
    ensures carried { CarriedFirst P.means slot (command_turns command.now)
        (Seated session.old inputs.old (output_slots outputs.old)) counts.old (Seated session.new inputs.new (output_slots outputs.new)) counts.new }
    ensures sent { session.new.link.sent ≤ session.old.link.sent + 12000 }
    ensures slots { output_slots outputs.new ≡ output_slots outputs.old }
    ensures empty { drained outputs.new ≡ outputs.new }
    ensures counts { (n : ℕ) → AreCountsOf n counts.old → AreCountsOf (n + 10) counts.new }
{
    for _ in 0..earlier_turns(command) {
        carry_turn(command, false, slot, session, inputs, outputs, counts);
    }
    carry_turn(command, true, slot, session, inputs, outputs, counts);
}

// What starts a stream.
fn carry_opening<P: Dsp>(
    i: u32,
    slot: u32,
    session: &mut Session<P>,
    inputs: &mut Inputs,
    outputs: &mut Outputs,
    counts: &mut Counts,
)
    requires stream { i < 4 }
    requires under_way { IsUnderWay slot (2 ^ 20) session.old outputs.old counts.old }
    ensures { CommandsCarried P.means slot (draws.opening i) session.old inputs.old outputs.old counts.old session.new inputs.new outputs.new counts.new }
{
    let params = Params {
        rate: 48000,
        channels: 2,
        format: Format::S16,
    };
    let open = Command::Open(host_name(i));
    carry_command(&open, slot, session, inputs, outputs, counts);
    let params = Command::Params(host_name(i), params);
    carry_command(&params, slot, session, inputs, outputs, counts);
    let start = Command::Start(host_name(i));
    carry_command(&start, slot, session, inputs, outputs, counts);
}

// What starts each stream.
fn carry_openings<P: Dsp>(
    streams: u32,
    slot: u32,
    session: &mut Session<P>,
    inputs: &mut Inputs,
    outputs: &mut Outputs,
    counts: &mut Counts,
)
    requires few { streams ≤ 4 }
    requires under_way { IsUnderWay slot (2 ^ 16) session.old outputs.old counts.old }
    ensures { CommandsCarried P.means slot (openings streams) session.old inputs.old outputs.old counts.old session.new inputs.new outputs.new counts.new }
{
    for i in 0..streams {
        carry_opening(i, slot, session, inputs, outputs, counts);
    }
}

// The commands that are drawn, each made when its turn comes.
fn carry_drawn<P: Dsp>(
    seed: u32,
    slot: u32,
    session: &mut Session<P>,
    inputs: &mut Inputs,
    outputs: &mut Outputs,
    counts: &mut Counts,
)
    requires few { seed ≤ 1000 }
    requires under_way { IsUnderWay slot (2 ^ 16) session.old outputs.old counts.old }
    ensures { CommandsCarried P.means slot (drawn_commands seed) session.old inputs.old outputs.old counts.old session.new inputs.new outputs.new counts.new }
{
    let streams = streams_of(seed);
    let mut state = seed;
    for _ in 0..seed {
        state = next_state(state);
        let command = command_by(streams, state / 65536);
        carry_command(&command, slot, session, inputs, outputs, counts);
    }
}

/// Carries out the commands of a stress: a load, what starts each stream, as many drawn ones as the seed says, and four ticks;
/// and counts what came of them. The outputs are one, of this slot, and empty.
pub fn carry_all<P: Dsp>(
    seed: u32,
    slot: u32,
    session: &mut Session<P>,
    inputs: &mut Inputs,
    outputs: &mut Outputs,
) -> Counts
    requires few { seed ≤ 1000 }
    requires first { session.old.link.sent ≡ 0 }
    requires slots { output_slots outputs.old ≡ slot ∷ [] }
    requires empty { drained outputs.old ≡ outputs.old }
    ensures { CarriedOut P.means slot (turns_of (draws.stress_commands seed))
        (Seated session.old inputs.old (output_slots outputs.old)) law.no_counts (Seated session.new inputs.new (output_slots outputs.new)) result }
{
    let mut counts = Counts::none();
    let load = Command::Load;
    carry_command(&load, slot, session, inputs, outputs, &mut counts);
    carry_openings(
        streams_of(seed),
        slot,
        session,
        inputs,
        outputs,
        &mut counts,
    );
    carry_drawn(seed, slot, session, inputs, outputs, &mut counts);
    let ticks = Command::Tick(4);
    carry_command(&ticks, slot, session, inputs, outputs, &mut counts);
    counts
}
