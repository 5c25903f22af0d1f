// The commands, one by one.
ghost use Rattle.std.specs.Prelude.{◌≡◌, ◌+◌, ◌<◌, ◌≤◌, ◌^◌, ◌∷◌, ℕ, length, true, false};
ghost use Rattle.std.specs.List.{list_all};
ghost use Rattle.sof_base.specs.DrainedOutputs.{drained};
ghost use Rattle.sof_io.specs.Bound.{output_slots};
ghost use Rattle.tplg_plan.specs.Sound.{IsSound};
ghost use Rattle.sof_script.specs.Text.{answer_line};
ghost use Rattle.sof_script.specs.declared.script.Command.TheVariants.{Tick};
ghost use Rattle.sof_script.specs.declared.script.Numbered.{Numbered};
ghost use Rattle.sof_session.specs.CommandRanges.{is_in_range};
ghost use Rattle.sof_session.specs.Lives.{Seated};
ghost use Rattle.sof_session.specs.Modes.{lines_in, shown_in, most_sent_by};
ghost use Rattle.run_desk.specs.Todo.{DeskPhase, Phase};
ghost use Rattle.sof_script.specs.Ticks.{earlier as units_before};
ghost use Rattle.run_play.specs.Rounds.{command_rounds};
ghost use Rattle.run_play.specs.LineParts.{is_show};
ghost use Rattle.run_desk.specs.Lines.{with_newline};
ghost use Rattle.run_desk.specs.LinesTodo.{lines_todo};
ghost use Rattle.run_play.specs.Play.{unit_todo, rounds_todo, commands_todo};
ghost use Rattle.run_play.specs.KeptTurns.{KeptTurn, CanKeep};
ghost use Rattle.run_play.specs.Opening.{HaveFiles, SameFiles};

use crate::keeping::{TraceBuffer, write_unit};
use crate::windows::{READ_BYTES, refill};
use host_widgets::Answer;
use mbox_link::Dsp;
use sof_desk::Desk;
use sof_io::{Inputs, Outputs};
use sof_script::{Command, Line, Numbered, write_answer};
use sof_session::Session;

// The line of a command's answer, with its newline.
fn write_line(number: u32, answer: &Answer, line: &mut Line)
    ensures { line.new ≡ with_newline (answer_line number answer.now) }
{
    write_answer(number, answer, line);
    line.say(b"\n");
}

// Says how everything stands, line by line.
fn say_shown<D: Desk, P: Dsp>(desk: &mut D, session: &Session<P>, line: &mut Line) -> bool
    requires { IsSound session.now.plan }
    ensures phase { DeskPhase D.means (lines_todo (lines_in session.now.up session.now.plan session.now.kept)) result desk.old desk.new }
    ensures same { SameFiles D.means desk.old desk.new }
{
    let mut k = 0;
    while session.show_line(k, line) {
        line.say(b"\n");
        if !desk.say(line.bytes()).is_ok() {
            return false;
        }
        k += 1;
    }
    true
}

// Whether a command shows how everything stands.
fn shows(command: &Command) -> bool
    ensures { result ≡ is_show command.now }
{
    matches!(command, Command::Show)
}

// Says the lines of a command: its answer, and what it shows.
fn say_lines<D: Desk, P: Dsp>(
    numbered: &Numbered,
    answer: &Answer,
    desk: &mut D,
    session: &Session<P>,
    line: &mut Line,
) -> bool
    requires plan { IsSound session.now.plan }
    ensures phase { DeskPhase D.means (lines_todo (answer_line numbered.now.line answer.now ∷ shown_in numbered.now.command session.now.up session.now.plan session.now.kept)) result desk.old desk.new }
    ensures same { SameFiles D.means desk.old desk.new }
{
    write_line(numbered.line, answer, line);
    if !desk.say(line.bytes()).is_ok() {
        return false;
    }
    if shows(&numbered.command) {
        say_shown(desk, session, line)
    } else {
        true
    }
}

// A tick that is not the last of its command: a turn of the session, and the bytes that it wrote.
fn do_earlier_tick<D: Desk, K: TraceBuffer>(
    desk: &mut D,
    session: &mut Session<K>,
    inputs: &mut Inputs,
    outputs: &mut Outputs,
) -> bool
    requires files { HaveFiles D.means inputs.old outputs.old desk.old }
    requires keeps { CanKeep D.means K.holds desk.old }
    requires empty { drained outputs.old ≡ outputs.old }
    ensures phase { (numbered : Numbered) (n : ℕ) → numbered.command ≡ Tick n → Phase D.means (KeptTurn K.means K.holds K.empties) (unit_todo (record { numbered = numbered; last = false })) result
        desk.old (Seated session.old inputs.old (output_slots outputs.old)) desk.new (Seated session.new inputs.new (output_slots outputs.new)) }
    ensures plan { session.new.plan ≡ session.old.plan }
    ensures sent { session.new.link.sent ≡ session.old.link.sent }
    ensures files { HaveFiles D.means inputs.new outputs.new desk.new }
    ensures keeps { CanKeep D.means K.holds desk.new }
    ensures empty { drained outputs.new ≡ outputs.new }
{
    session.tick(inputs, outputs);
    write_unit(desk, session, outputs)
}

// The last unit of a command: a turn of the session, the bytes that it wrote, those of ticks before its messages too, and the
// lines of the command.
fn do_round<D: Desk, K: TraceBuffer>(
    numbered: &Numbered,
    desk: &mut D,
    session: &mut Session<K>,
    inputs: &mut Inputs,
    outputs: &mut Outputs,
    line: &mut Line,
) -> bool
    requires numbers { is_in_range numbered.now.command ≡ true }
    requires few { session.old.link.sent < 2 ^ 63 }
    requires plan { IsSound session.old.plan }
    requires files { HaveFiles D.means inputs.old outputs.old desk.old }
    requires keeps { CanKeep D.means K.holds desk.old }
    requires empty { drained outputs.old ≡ outputs.old }
    ensures phase { Phase D.means (KeptTurn K.means K.holds K.empties) (unit_todo (record { numbered = numbered.now; last = true })) result
        desk.old (Seated session.old inputs.old (output_slots outputs.old)) desk.new (Seated session.new inputs.new (output_slots outputs.new)) }
    ensures plan { session.new.plan ≡ session.old.plan }
    ensures sent { session.new.link.sent ≤ session.old.link.sent + most_sent_by session.old.up numbered.now.command }
    ensures files { HaveFiles D.means inputs.new outputs.new desk.new }
    ensures keeps { CanKeep D.means K.holds desk.new }
    ensures empty { drained outputs.new ≡ outputs.new }
{
    let answer = session.step(&numbered.command, inputs, outputs);
    if write_unit(desk, session, outputs) {
        say_lines(numbered, &answer, desk, session, line)
    } else {
        false
    }
}

// How many units of a command come before its last one.
fn earlier(command: &Command) -> u32
    ensures { result ≡ units_before command.now }
{
    match command {
        Command::Tick(ticks) => ticks.saturating_sub(1),
        _ => 0,
    }
}

// The units of a command, before each of which the inputs are filled.
fn do_command<D: Desk, K: TraceBuffer>(
    numbered: &Numbered,
    desk: &mut D,
    session: &mut Session<K>,
    inputs: &mut Inputs,
    outputs: &mut Outputs,
    line: &mut Line,
    buffer: &mut [u8; READ_BYTES],
) -> bool
    requires numbers { is_in_range numbered.now.command ≡ true }
    requires few { session.old.link.sent < 2 ^ 63 }
    requires plan { IsSound session.old.plan }
    requires files { HaveFiles D.means inputs.old outputs.old desk.old }
    requires keeps { CanKeep D.means K.holds desk.old }
    requires empty { drained outputs.old ≡ outputs.old }
    ensures phase { Phase D.means (KeptTurn K.means K.holds K.empties) (rounds_todo (command_rounds numbered.now)) result
        desk.old (Seated session.old inputs.old (output_slots outputs.old)) desk.new (Seated session.new inputs.new (output_slots outputs.new)) }
    ensures plan { session.new.plan ≡ session.old.plan }
    ensures sent { session.new.link.sent ≤ session.old.link.sent + 1200 }
    ensures files { HaveFiles D.means inputs.new outputs.new desk.new }
    ensures keeps { CanKeep D.means K.holds desk.new }
    ensures empty { drained outputs.new ≡ outputs.new }
{
    for _ in 0..earlier(&numbered.command) {
        if !refill(desk, inputs, buffer) {
            return false;
        }
        if !do_earlier_tick(desk, session, inputs, outputs) {
            return false;
        }
    }
    if !refill(desk, inputs, buffer) {
        return false;
    }
    do_round(numbered, desk, session, inputs, outputs, line)
}

/// Each command in turn, up to a failure of the desk; answers whether all were done. The outputs are empty before it, the files of
/// their slots are created, and those of the inputs are open.
pub fn do_commands<D: Desk, K: TraceBuffer>(
    commands: &[Numbered],
    desk: &mut D,
    session: &mut Session<K>,
    inputs: &mut Inputs,
    outputs: &mut Outputs,
) -> bool
    requires numbers { list_all (λ n. is_in_range n.command) commands.now ≡ true }
    requires few { length commands.now < 2 ^ 32 }
    requires first { session.old.link.sent ≡ 0 }
    requires plan { IsSound session.old.plan }
    requires files { HaveFiles D.means inputs.old outputs.old desk.old }
    requires keeps { CanKeep D.means K.holds desk.old }
    requires empty { drained outputs.old ≡ outputs.old }
    ensures { Phase D.means (KeptTurn K.means K.holds K.empties) (commands_todo commands.now) result
        desk.old (Seated session.old inputs.old (output_slots outputs.old)) desk.new (Seated session.new inputs.new (output_slots outputs.new)) }
{
    let mut line = Line::new();
    let mut buffer = [0; READ_BYTES];
    for numbered in commands {
        if !do_command(
            numbered,
            desk,
            session,
            inputs,
            outputs,
            &mut line,
            &mut buffer,
        ) {
            return false;
        }
    }
    true
}
