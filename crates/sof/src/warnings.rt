// Warnings on a run that was carried out, read off its files once more.
use crate::reasons::{LIMIT, is_kept, loaded};
use crate::{ROOM, tell};
use run_words::{Form, Request, read_request};
use sof_base::NoMemory;
use sof_script::{Script, parse};
use sof_warnings::{Answered, Played, Wave, check_warnings, play_warnings};
use std::fs::File;
use std::io::Read;

/// Whether the words play a script.
pub fn plays(words: &[String]) -> bool {
    matches!(read_request(words, ROOM), Some(Request::Play(_)))
}

// Whether the file of a name begins as a WAV does.
fn is_wave(rt: &HostRuntime, name: &str) -> bool {
    if !is_kept(rt, name) {
        return false;
    }
    let Ok(mut file) = File::open(rt, name) else {
        return false;
    };
    let mut head = [0; 12];
    match file.read(&mut head) {
        Ok(12) => &head[..4] == b"RIFF".as_slice() && &head[8..] == b"WAVE".as_slice(),
        _ => false,
    }
}

// Tells of each input of a script that is a WAV, of whose header the program knows nothing.
fn tell_waves(rt: &HostRuntime, script: &Script) {
    for binding in script.bindings.items() {
        let file = binding.file.as_str();
        if binding.input && is_wave(rt, file) {
            tell(rt, Wave(file));
        }
    }
}

fn tell_all(rt: &HostRuntime, warnings: &[String]) {
    for warning in warnings {
        tell(rt, warning.as_str());
    }
}

// The warnings on a topology that was checked.
fn tell_check(rt: &HostRuntime, topology: &str) -> Result<(), NoMemory> {
    if let Some(bytes) = loaded(rt, topology, LIMIT)? {
        tell_all(rt, &check_warnings(rt.alloc(), topology, &bytes)?);
    }
    Ok(())
}

// The warnings on a script that was played, whose commands were answered so.
fn tell_play(rt: &HostRuntime, form: Form<'_>, answers: &[Answered]) -> Result<(), NoMemory> {
    let Some(lines) = loaded(rt, form.script, LIMIT)? else {
        return Ok(());
    };
    let Ok(script) = parse(rt.alloc(), &lines) else {
        return Ok(());
    };
    tell_waves(rt, &script);
    let Some(topology) = loaded(rt, form.topology, LIMIT)? else {
        return Ok(());
    };
    let played = Played {
        file: form.script,
        heap: form.heap,
        script: &script,
        answers,
    };
    tell_all(rt, &play_warnings(rt.alloc(), played, &topology)?);
    Ok(())
}

/// Says the warnings that the run of the words leaves, though it was carried out.
pub fn tell_warnings(
    rt: &HostRuntime,
    words: &[String],
    answers: &[Answered],
) -> Result<(), NoMemory> {
    match read_request(words, ROOM) {
        Some(Request::Check(topology)) => tell_check(rt, topology),
        Some(Request::Play(form)) => tell_play(rt, form, answers),
        _ => Ok(()),
    }
}
