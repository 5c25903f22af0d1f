//! The program: does what its words ask for, over this machine's files and a firmware of its own. Standard error says what went wrong.
#![tactic(auto)]

ghost use Rattle.std.specs.Prelude.{◌≡◌, map, None, is_some, IfOk, MatchResult, string_bytes};
ghost use Rattle.std.specs.Str.{bytes_eq};
ghost use Rattle.run_serve.specs.ServeWords.{serve_names};
ghost use Rattle.sof.specs.declared.TheConstants.{ROOM};
ghost use Rattle.sof.specs.Asked.{asks_text};
ghost use Rattle.sof.specs.HandedOn.{AfterSay, PlayedOver, Played, ServedDriver};
ghost use Rattle.sof.specs.Status.{Printed, StatusOf};

mod driving;
mod reasons;
mod warnings;

use crate::driving::{drive, drive_words};
use crate::reasons::{reason, stopped_reason};
use crate::warnings::{plays, tell_warnings};
use fw_core::Firmware;
use mbox_link::Dsp;
use run_serve::{ServeFiles, serve, serve_files};
use run_words::{Request, read_request};
use sof_base::NoMemory;
use sof_desk::{Desk, DeskFailed};
use sof_faults::{ShownName, words_fault};
use sof_files::{OsDesk, Stream, Subject, Trouble, goes_to};
use sof_run::run;
use sof_warnings::{Answered, Listener};
use std::fmt::Display;
use std::fs::File;
use std::io::ErrorKind;
use std::os::fd::{AsRawFd, IntoRawFd};
use std::process::ExitCode;
use std::{env, fmt, io};

/// The greatest heap of the firmware, in bytes.
pub const ROOM: u32 = 16777216;

const HELP: &str = "\
Forms:
  sof play HEAP TOPOLOGY SCRIPT   plays a script over the graph of a topology
  sof dynamic HEAP TOPOLOGY SCRIPT
                                  plays a script, with pipelines in the heap while streams need them
  sof check TOPOLOGY              tells what a topology has and needs
  sof graph TOPOLOGY              draws a topology, for Graphviz
  sof compile SOURCE OUT          makes a topology file from a source in TOML
  sof source TOPOLOGY OUT         makes the source of a topology file, in TOML
  sof stress N                    carries out what N draws, from 1 to 1000, and counts it
  sof trace HEAP TOPOLOGY SCRIPT TRACE
                                  plays a script, and keeps the device's messages in TRACE
  sof decode TRACE                tells the records of a trace in words, one a line
  sof replay TRACE                gives the records of a trace to a device, and judges its replies
  sof serve REQUESTS REPLIES      gives a driver's records to a device, and writes what comes back
  sof drive HEAP TOPOLOGY SCRIPT REQUESTS REPLIES
                                  plays a script against a firmware of your own, and judges its replies
  sof --help, sof -h              prints this text
  sof --version, sof -V           prints the version

HEAP is the size of the device's heap in bytes, in decimal, at most 16777216.
'sof check TOPOLOGY' tells how many bytes a topology needs.

Statuses:
  0  all was carried out; the transcript tells which commands were refused
  1  the words have none of the forms
  2  TOPOLOGY is no topology file, it breaks a rule, or it gets no source; or
     TRACE or REQUESTS has a fault, or a record is not what the device does
  3  a file or standard output failed; standard error tells which and why
  4  a line of SCRIPT or an entry of SOURCE is at fault
  5  a file is longer than its limit
  6  an argument is no text in UTF-8
  7  memory ran out
  8  the ticks of SCRIPT sum to more than 60000
 10  the device failed while a trace was given to it
";

const VERSION: &str = "sof 0.1.0\n";

// The slot of the file that `compile` and `source` make.
const OUT_SLOT: u32 = 0;

// And that of the trace which `trace` keeps.
const TRACE_SLOT: u32 = 4294967295;

// A trouble with the name of its file as a terminal may show it.
#[derive(Clone, Copy)]
struct ShownTrouble<'a>(&'a Trouble);

impl Display for ShownTrouble<'_> {
    fn fmt<W: fmt::Write>(&self, f: &mut fmt::Formatter<W>) -> fmt::Result {
        match &self.0.subject {
            Subject::File(name) => write!(f, "{}: {}", ShownName(name.as_str()), self.0.reason),
            _ => write!(f, "{}", self.0),
        }
    }
}

/// Says why on standard error; where that fails too, nothing is said.
pub fn tell<D: Display + Drop>(rt: &HostRuntime, why: D) {
    let _ = eprintln!(rt; "sof: {why}");
}

// There was no memory.
fn no_memory(rt: &HostRuntime) -> u8
    ensures { result ≡ 7 }
{
    tell(rt, "no memory");
    7
}

// Keeps the numbers of standard input, output and error for them: where one is closed, no file that is opened later gets it, and what
// is written to it fails.
fn hold_standard_files(rt: &HostRuntime) -> io::Result<()> {
    for _ in 0..3 {
        let file = File::open(rt, "/dev/null")?;
        if file.as_raw_fd() > 2 {
            return Ok(());
        }
        // It stays open until the program ends.
        let _held = file.into_raw_fd();
    }
    Ok(())
}

// The words after the program's name; else the status: 7 where there was no memory, and 6 where an argument is no text.
fn words(rt: &HostRuntime) -> Result<Vec<String>, u8> {
    match env::args(rt) {
        Ok(mut args) => {
            let _program = args.next();
            match args.collect(rt.alloc()) {
                Ok(words) => Ok(words),
                Err(_) => Err(no_memory(rt)),
            }
        }
        Err(error) => {
            if error.kind() == ErrorKind::OutOfMemory {
                return Err(no_memory(rt));
            }
            tell(rt, "an argument is no text");
            Err(6)
        }
    }
}

// Whether a trouble is that nobody reads standard output any more, as where `head` has read enough.
fn is_reader_gone(trouble: &Trouble) -> bool {
    match trouble.subject {
        Subject::Output => trouble.reason.kind() == ErrorKind::BrokenPipe,
        _ => false,
    }
}

// Says a trouble with the file that standard error goes to, which stays as it is: on standard output, unless that goes there too.
fn say_trouble(rt: &HostRuntime, name: &str, trouble: &Trouble) {
    if !goes_to(rt, Stream::Output, name) {
        let _ = println!(rt; "sof: {}", ShownTrouble(trouble));
    }
}

/// Tells a trouble, where somebody is there whom it troubles.
pub fn tell_trouble(rt: &HostRuntime, trouble: &Trouble) {
    if is_reader_gone(trouble) {
        return;
    }
    match &trouble.subject {
        Subject::File(name) if goes_to(rt, Stream::Error, name.as_str()) => {
            say_trouble(rt, name.as_str(), trouble);
        }
        _ => tell(rt, ShownTrouble(trouble)),
    }
}

// Prints a text; 3 where the output failed.
fn print(rt: &HostRuntime, text: &str) -> u8
    ensures { Printed result }
{
    match print!(rt; "{text}") {
        Ok(()) => 0,
        Err(reason) => {
            let subject = Subject::Output;
            tell_trouble(rt, &Trouble { subject, reason });
            3
        }
    }
}

// Tells why the words led to a status, and where it is 0 what is not as it seems; what there is no memory for is left out.
fn explain(
    rt: &HostRuntime,
    words: &[String],
    status: u8,
    answers: &[Answered],
) -> Result<(), NoMemory> {
    if status == 0 {
        return tell_warnings(rt, words, answers);
    }
    if status == 1 {
        if let Some(fault) = words_fault(words, ROOM) {
            tell(rt, fault);
        }
    }
    if let Some(sentence) = reason(rt, words, status)? {
        tell(rt, sentence.as_str());
    }
    Ok(())
}

// A firmware serves a driver over real files.
fn serve_driver(rt: &HostRuntime, files: ServeFiles<'_>) -> Result<u8, NoMemory>
    ensures { IfOk result (ServedDriver ROOM (serve_names files.entry.requests.now files.entry.replies.now)) }
{
    let dsp = Firmware::new(rt.alloc(), ROOM)?;
    let mut desk = OsDesk::new(rt, rt.alloc())?;
    let served = serve(rt.alloc(), files, &mut desk, dsp);
    if let Some(trouble) = desk.trouble() {
        tell_trouble(rt, trouble);
    }
    if served.status == 2
        && let Some(stopped) = &served.stopped
    {
        let _ = stopped_reason(rt, files.requests, stopped);
    }
    Ok(served.status)
}

// The status that is handed on of a run: a run that said no line has its files emptied at its end, and where that fails it is 3.
fn hand_on<D: Desk>(desk: &mut D, status: u8) -> u8
    ensures { AfterSay D.means status desk.old result desk.new }
{
    if status != 0 {
        return status;
    }
    match desk.say(b"") {
        Ok(()) => 0,
        Err(DeskFailed) => 3,
    }
}

/// The top call over a desk of real files and a device that is off, which is handed back.
pub fn play_over<'a, P: Dsp>(
    rt: &'a HostRuntime,
    words: &[String],
    real: OsDesk<&'a HostRuntime>,
    dsp: P,
) -> (u8, P)
    requires off { P.means.on dsp ≡ None }
    requires pending { P.means.pending dsp ≡ 0 }
    ensures { PlayedOver P.means (map string_bytes words.now) real.entry dsp result.0 result.1 }
{
    let mut desk = Listener::new(rt.alloc(), real, plays(words));
    let ended = run(rt.alloc(), words, &mut desk, dsp);
    let status = hand_on(&mut desk, ended.status);
    if let Some(trouble) = desk.desk().trouble() {
        tell_trouble(rt, trouble);
    }
    let _ = explain(rt, words, status, desk.answers());
    (status, ended.dsp)
}

// The slot of the file that is made of bytes which are all there before the first goes out.
fn aside_slot(words: &[String]) -> Option<u32> {
    match read_request(words, ROOM)? {
        Request::Compile(_) | Request::Source(_) => Some(OUT_SLOT),
        _ => None,
    }
}

// The slot of the file that no line may stand in the midst of, even where it is a pipe.
fn alone_slot(words: &[String]) -> Option<u32> {
    match read_request(words, ROOM)? {
        Request::Compile(_) | Request::Source(_) => Some(OUT_SLOT),
        Request::Play(form) if form.trace.is_some() => Some(TRACE_SLOT),
        _ => None,
    }
}

// The top call over real files and a firmware.
fn play(rt: &HostRuntime, words: &[String]) -> Result<u8, NoMemory>
    ensures { IfOk result (Played ROOM (map string_bytes words.now)) }
{
    let dsp = Firmware::new(rt.alloc(), ROOM)?;
    let mut desk = OsDesk::new(rt, rt.alloc())?;
    if let Some(slot) = alone_slot(words) {
        desk.set_alone(slot);
    }
    if let Some(slot) = aside_slot(words) {
        desk.set_aside(slot);
    }
    let (status, _dsp) = play_over(rt, words, desk, dsp);
    Ok(status)
}

/// Whether a word is the other one.
pub fn is_word(word: &str, other: &str) -> bool
    ensures { result ≡ bytes_eq word.now other.now }
{
    word == other
}

// The text that one word asks for.
fn asked_text(words: &[String]) -> Option<&'static str>
    ensures { is_some result ≡ asks_text (map string_bytes words.now) }
{
    if words.len() != 1 {
        return None;
    }
    let word = words[0].as_str();
    if is_word(word, "--help") || is_word(word, "-h") {
        return Some(HELP);
    }
    if is_word(word, "--version") || is_word(word, "-V") {
        return Some(VERSION);
    }
    None
}

// The status of what was begun.
fn ended_with(rt: &HostRuntime, ended: Result<u8, NoMemory>) -> u8
    ensures { MatchResult ended (λ status. result ≡ status) (λ fault. result ≡ 7) }
{
    match ended {
        Ok(status) => status,
        Err(NoMemory) => no_memory(rt),
    }
}

// The status that the words lead to.
fn status(rt: &HostRuntime, words: &[String]) -> u8
    ensures { StatusOf ROOM (map string_bytes words.now) result }
{
    if let Some(text) = asked_text(words) {
        return print(rt, text);
    }
    if let Some(files) = serve_files(words) {
        return ended_with(rt, serve_driver(rt, files));
    }
    if let Some(files) = drive_words(words) {
        return ended_with(rt, drive(rt, files));
    }
    ended_with(rt, play(rt, words))
}

fn main(rt: HostRuntime) -> ExitCode {
    if let Err(reason) = hold_standard_files(&rt) {
        tell(&rt, Trouble::with_file(rt.alloc(), "/dev/null", reason));
        return ExitCode::from(3);
    }
    match words(&rt) {
        Ok(words) => ExitCode::from(status(&rt, &words)),
        Err(status) => ExitCode::from(status),
    }
}
