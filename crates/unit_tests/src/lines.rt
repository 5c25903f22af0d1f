// Scripts and the lines of answers.
use crate::same::{same, shows};
use host_widgets::{Answer, Found, HostFault};
use sof_base::{Bounded, Errno, Format, Name44};
use sof_script::{Binding, Command, Line, Numbered, ScriptFault, parse, ticks, write_answer};
use std::process::Abort;

// The line and the cause of a script's fault; none where it is a script.
fn fault(rt: &HostRuntime, text: &str) -> Option<(u32, u8)> {
    if text.len() > 100 {
        return None;
    }
    match parse(rt.alloc(), text.as_bytes()) {
        Err(ScriptFault::Line { line, cause }) => Some((line, cause)),
        _ => None,
    }
}

fn bindings_are_read(rt: &impl Abort, bindings: &[Binding]) {
    assert_eq!(rt; bindings.len(), 2);
    let input = &bindings[0];
    same(rt, &"a binding", &(input.line, input.input), &(3, true));
    same(
        rt,
        &"a binding",
        &input.endpoint.as_bytes(),
        &b"H 1".as_slice(),
    );
    same(rt, &"a binding", &input.file.as_str(), &"a b");
}

fn params_are_read(rt: &impl Abort, command: &Command) {
    let Command::Params(name, params) = command else {
        return same(rt, &"the second", &word_of(command), &"params");
    };
    same(rt, &"params", &name.as_bytes(), &b"PCM0P".as_slice());
    same(rt, &"params", &(params.rate, params.channels), &(48000, 2));
    same(rt, &"params", &params.format, &Format::S16);
}

fn values_are_read(rt: &impl Abort, command: &Command) {
    let Command::Set(name, values) = command else {
        return same(rt, &"the third", &word_of(command), &"set");
    };
    same(rt, &"set", &name.as_bytes(), &b"C".as_slice());
    same(rt, &"set", &values.items(), &[31, 0].as_slice());
}

fn bytes_are_read(rt: &impl Abort, command: &Command) {
    let Command::Bytes(name, bytes) = command else {
        return same(rt, &"the fourth", &word_of(command), &"bytes");
    };
    same(rt, &"bytes", &name.as_bytes(), &b"EQ".as_slice());
    same(rt, &"bytes", &bytes.items(), &[255, 0].as_slice());
}

fn commands_are_read(rt: &impl Abort, commands: &[Numbered]) {
    assert_eq!(rt; commands.len(), 8);
    same(
        rt,
        &"its lines",
        &(commands[0].line, commands[7].line),
        &(4, 12),
    );
    same(rt, &"its first", &word_of(&commands[0].command), &"load");
    params_are_read(rt, &commands[1].command);
    values_are_read(rt, &commands[2].command);
    bytes_are_read(rt, &commands[3].command);
    assert!(rt; matches!(&commands[4].command, Command::Refuse(3, -22)));
    same(rt, &"its last", &word_of(&commands[7].command), &"show");
}

#[test]
fn lines_are_read(rt: HostRuntime) {
    let text =
        "# a comment\r\n\n in \"H 1\" \"a b\"\nload\nparams PCM0P 48000 2 s16\nset C 31 0\r\nbytes EQ fF00\n\
        refuse 3 -22\nlag 100000 16\ntick 60000\r\nout D0 #\nshow\r";
    let Ok(script) = parse(rt.alloc(), text.as_bytes()) else {
        panic!(rt; "it is no script")
    };
    bindings_are_read(&rt, script.bindings.items());
    same(&rt, &"ticks", &ticks(&script), &60016);
    commands_are_read(&rt, script.commands.items());
}

// What a command is.
fn word_of(command: &Command) -> &'static str {
    match command {
        Command::Load => "load",
        Command::Unload => "unload",
        Command::Suspend => "suspend",
        Command::Resume => "resume",
        Command::Show => "show",
        Command::Open(_) => "open",
        Command::Start(_) => "start",
        Command::Stop(_) => "stop",
        Command::Pause(_) => "pause",
        Command::Release(_) => "release",
        Command::Close(_) => "close",
        Command::Get(_) => "get",
        Command::Read(_) => "read",
        Command::Params(_, _) => "params",
        Command::Set(_, _) => "set",
        Command::Bytes(_, _) => "bytes",
        Command::Refuse(_, _) => "refuse",
        Command::Lag(_, _) => "lag",
        Command::Tick(_) => "tick",
        Command::Drop(_) => "drop",
        Command::Lose(_) => "lose",
    }
}

// What the only command of a script is.
fn only_word(rt: &HostRuntime, text: &str) -> Option<&'static str> {
    if text.len() > 100 {
        return None;
    }
    match parse(rt.alloc(), text.as_bytes()) {
        Ok(script) if script.commands.items().len() == 1 => {
            Some(word_of(&script.commands.items()[0].command))
        }
        _ => None,
    }
}

#[test]
fn each_kind_of_line_is_read(rt: HostRuntime) {
    let rows = [
        ("load", "load"),
        ("unload", "unload"),
        ("suspend", "suspend"),
        ("resume", "resume"),
        ("show", "show"),
        ("open S", "open"),
        ("start S", "start"),
        ("stop S", "stop"),
        ("pause S", "pause"),
        ("release S", "release"),
        ("close S", "close"),
        ("get C", "get"),
        ("read C", "read"),
        ("params S 8000 1 s24", "params"),
        ("set C 5", "set"),
        ("bytes C -", "bytes"),
        ("refuse 1 -1", "refuse"),
        ("lag 4 5", "lag"),
        ("tick 1", "tick"),
        ("drop 2", "drop"),
        ("lose 3", "lose"),
    ];
    for (text, word) in rows {
        same(&rt, &text, &only_word(&rt, text), &Some(word));
    }
}

#[test]
fn each_cause_is_told(rt: HostRuntime) {
    let rows = [
        ("load\nopen \"a\x01", 2, 1),
        ("get \"C\"x\n", 1, 2),
        ("\"#\"\n", 1, 3),
        ("load now\n", 1, 4),
        ("set C 1 2 3 4 5 6 7 8 9\n", 1, 4),
        ("tick 01\n", 1, 5),
        ("refuse 1 -0\n", 1, 5),
        ("params \"\" 48000 256 s16\n", 1, 5),
        ("bytes C 012\n", 1, 6),
        ("open \"\"\n", 1, 7),
        ("\t#\"\n\nlose 100001\nload 1", 3, 5),
    ];
    for (text, line, cause) in rows {
        same(&rt, &text, &fault(&rt, text), &Some((line, cause)));
    }
}

// The line of an answer.
fn says(rt: &impl Abort, number: u32, answer: &Answer, text: &str) {
    let mut line = Line::new();
    write_answer(number, answer, &mut line);
    same(rt, &text, &line.bytes(), &text.as_bytes());
}

#[test]
fn answers_say_their_lines(rt: HostRuntime) {
    let values = Bounded::new(&[31, 0]).expect(&rt, "two values");
    let bytes = Bounded::new(&[255, 0]).expect(&rt, "two bytes");
    says(&rt, 1, &Answer::Done, "1 ok");
    says(&rt, 2, &Answer::Values(values), "2 value 31 0");
    says(&rt, 3, &Answer::Bytes(bytes), "3 bytes ff00");
    says(&rt, 4, &Answer::Bytes(Bounded::empty()), "4 bytes -");
    says(&rt, 10, &Answer::PlanFull, "10 plan full");
    says(&rt, 15, &Answer::Show, "15 show");
}

fn says_fault(rt: &impl Abort, number: u32, fault: HostFault, text: &str) {
    says(rt, number, &Answer::Fault(fault), text);
}

#[test]
fn faults_say_their_lines(rt: HostRuntime) {
    let name = Name44::new(b"PCM0P").expect(&rt, "it is a name");
    says_fault(&rt, 5, HostFault::NoSuch(name), "5 no such PCM0P");
    says_fault(&rt, 6, HostFault::State(Found::Paused), "6 state paused");
    says_fault(&rt, 7, HostFault::Refused(Errno(-12)), "7 refused -12");
    says_fault(&rt, 8, HostFault::NotLoaded, "8 not loaded");
    says_fault(&rt, 9, HostFault::Loaded, "9 loaded");
    says_fault(&rt, 11, HostFault::Off, "11 off");
    says_fault(&rt, 12, HostFault::Range(44101), "12 range 44101");
    says_fault(&rt, 13, HostFault::LinkDown, "13 link down");
    says_fault(&rt, 14, HostFault::Blob(9), "14 blob 9");
}

#[test]
fn a_fault_names_its_line_and_its_cause(rt: HostRuntime) {
    let fault = ScriptFault::Line { line: 7, cause: 2 };
    shows(&rt, rt.alloc(), &fault, "line 7: quote");
}
