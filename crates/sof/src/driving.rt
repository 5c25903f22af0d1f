// A play against a firmware in a process of its own.
ghost use Rattle.std.specs.Prelude.{◌≡◌, map, is_some, Some, None, IfOk, MatchOption, MatchResult, codes, string_bytes};
ghost use Rattle.std.specs.Result.{result_ok};
ghost use Rattle.std.specs.Io.KnownBytes.{Keeps};
ghost use Rattle.sof_script.specs.ValueForms.{number_value};
ghost use Rattle.sof.specs.declared.TheConstants.{ROOM};
ghost use Rattle.sof.specs.Asked.{DriveNames, drive_names, drive_of, is_heap, play_words};
ghost use Rattle.sof.specs.Driven.{OpenedFar, NotOpenedFar, AfterFar, Drove};

use crate::{ROOM, is_word, play_over, tell, tell_trouble};
use fw_core::Firmware;
use ipc3_far::{Far, FarAnswer, FarFault};
use mbox_link::Dsp;
use run_words::{is_file_name, number_in};
use sof_base::NoMemory;
use sof_desk::DeskFailed;
use sof_files::{OsDesk, Sink, Trouble};
use std::fs::File;
use std::io;
use std::io::{Read, Write};
use trace_faults::far_sentence;

/// What `drive` is given: the words of the play, and the names of the files of records and of replies.
#[derive(Clone, Copy, Debug)]
pub struct DriveWords<'a> {
    heap: &'a str,
    topology: &'a str,
    script: &'a str,
    requests: &'a str,
    replies: &'a str,
}

/// `drive HEAP TOPOLOGY SCRIPT REQUESTS REPLIES`.
pub fn drive_words(words: &[String]) -> Option<DriveWords<'_>>
    ensures { MatchOption result
        (drive_of ROOM (map string_bytes words.now) ≡ None)
        (λ d. drive_of ROOM (map string_bytes words.now) ≡ Some (drive_names d.heap.now d.topology.now d.script.now d.requests.now d.replies.now)) }
{
    if words.len() != 6 {
        return None;
    }
    let heap = words[1].as_str();
    let topology = words[2].as_str();
    let script = words[3].as_str();
    let requests = words[4].as_str();
    let replies = words[5].as_str();
    if !is_word(words[0].as_str(), "drive") {
        return None;
    }
    if number_in(heap.as_bytes(), 0, ROOM).is_none() {
        return None;
    }
    if !is_file_name(topology) {
        return None;
    }
    if !is_file_name(script) {
        return None;
    }
    if !is_file_name(requests) {
        return None;
    }
    if !is_file_name(replies) {
        return None;
    }
    Some(DriveWords {
        heap,
        topology,
        script,
        requests,
        replies,
    })
}

// The words of the play.
fn play_words(rt: &HostRuntime, words: DriveWords<'_>) -> Result<Vec<String>, NoMemory>
    ensures { IfOk result (λ play. map string_bytes play.items ≡ play_words (drive_names words.entry.heap.now words.entry.topology.now words.entry.script.now words.entry.requests.now words.entry.replies.now)) }
{
    let mut play = Vec::new(rt.alloc());
    play.push(String::from_str(rt.alloc(), "play")?)?;
    play.push(String::from_str(rt.alloc(), words.heap)?)?;
    play.push(String::from_str(rt.alloc(), words.topology)?)?;
    play.push(String::from_str(rt.alloc(), words.script)?)?;
    Ok(play)
}

// Opens the file of records first, as the far side does: where they are pipes, each open waits for the other side. The desk of the play keeps
// them apart from its other files.
fn open_far<'a>(
    desk: &mut OsDesk<&'a HostRuntime>,
    words: DriveWords<'_>,
) -> Result<(Sink<File>, File), DeskFailed>
    ensures { let names = drive_names words.entry.heap.now words.entry.topology.now words.entry.script.now words.entry.requests.now words.entry.replies.now in
        MatchResult result (λ ends. OpenedFar names desk.old desk.new) (λ fault. NotOpenedFar names desk.old desk.new) }
{
    let requests = desk.file_to_write(words.requests)?;
    let replies = desk.file_to_read(words.replies)?;
    Ok((requests, replies))
}

// Tells what the far side did in the first message in which it failed; what there is no memory for is left out.
fn tell_far(rt: &HostRuntime, words: DriveWords<'_>, fault: FarFault) -> Result<(), NoMemory> {
    if let Some(sentence) = far_sentence(rt.alloc(), words.replies, &fault)? {
        tell(rt, sentence.as_str());
    }
    match fault.answer {
        FarAnswer::Unsent(reason) => {
            tell_trouble(rt, &Trouble::with_file(rt.alloc(), words.requests, reason));
        }
        FarAnswer::Unread(reason) => {
            tell_trouble(rt, &Trouble::with_file(rt.alloc(), words.replies, reason));
        }
        FarAnswer::Reply(_) | FarAnswer::Other(_) | FarAnswer::End => {}
    }
    Ok(())
}

// Lets all go out that was sent, after a play with status 0; where that fails, 3 is handed on, and why it failed.
fn let_out_after<P: Dsp, R: Read + Drop, W: Write + Drop>(
    far: &mut Far<P, R, W>,
    status: u8,
) -> (u8, Option<io::Error>)
    ensures { AfterFar status far.old result.0 far.new }
{
    if status != 0 {
        return (status, None);
    }
    match far.let_out() {
        Ok(()) => (0, None),
        Err(reason) => (3, Some(reason)),
    }
}

// Tells what the far side did, and why not all went out that was sent, unless that was told.
fn tell_end(
    rt: &HostRuntime,
    words: DriveWords<'_>,
    fault: Option<FarFault>,
    unsent: Option<io::Error>,
) {
    let mut is_told = false;
    if let Some(fault) = fault {
        is_told = matches!(&fault.answer, FarAnswer::Unsent(_));
        let _ = tell_far(rt, words, fault);
    }
    if let Some(reason) = unsent
        && !is_told
    {
        tell_trouble(rt, &Trouble::with_file(rt.alloc(), words.requests, reason));
    }
}

/// The play over a firmware that the far side is compared with. The file of records stands as it was until the first one goes out, or the play
/// ends with 0.
///
/// `NoMemory` where there is none for the words, the device or the desk.
pub fn drive(rt: &HostRuntime, words: DriveWords<'_>) -> Result<u8, NoMemory>
    ensures { IfOk result (Drove ROOM (drive_names words.entry.heap.now words.entry.topology.now words.entry.script.now words.entry.requests.now words.entry.replies.now)) }
{
    let play = play_words(rt, words)?;
    let own = Firmware::new(rt.alloc(), ROOM)?;
    let mut desk = OsDesk::new(rt, rt.alloc())?;
    let Ok((requests, replies)) = open_far(&mut desk, words) else {
        if let Some(trouble) = desk.trouble() {
            tell_trouble(rt, trouble);
        }
        return Ok(3);
    };
    let far = Far::new(own, replies, requests);
    let (status, mut far) = play_over(rt, play.as_slice(), desk, far);
    let (told, unsent) = let_out_after(&mut far, status);
    tell_end(rt, words, far.into_fault(), unsent);
    Ok(told)
}
