// The reason for a run's status, read off its files once more.
ghost use Rattle.std.specs.Prelude.{◌≤◌, length, IfOk, IfSome};

use crate::{ROOM, tell};
use fw_core::Firmware;
use ipc3_trace::{Entry, Next, ReplayFault, record_at};
use run_serve::{Stopped, last_reply};
use sof_base::{Bounded, NoMemory};
use sof_desk::{Desk, LoadFault};
use sof_faults::{
    binding_sentence, no_source_sentence, script_sentence, source_sentence, topology_sentence,
};
use sof_files::OsDesk;
use sof_run::record_at_fault;
use sof_warnings::{text_sentence, ticks_sentence};
use std::fs;
use trace_faults::{
    Misfit, loss_misfit, misfit_sentence, record_sentence, reply_misfit, trace_sentence,
};

/// The most bytes of a topology, a script and a source that the top call loads.
pub const LIMIT: usize = 1048576;

/// And those of a trace.
const TRACE_LIMIT: usize = 16777216;

/// Whether a name is that of a file whose bytes are there once more: no pipe, and no terminal.
pub fn is_kept(rt: &HostRuntime, name: &str) -> bool {
    match fs::metadata(rt, name) {
        Ok(about) => about.is_file(),
        Err(_) => false,
    }
}

/// The bytes of a file that the run loaded, at most so many; none where it cannot be loaded again.
pub fn loaded(rt: &HostRuntime, name: &str, limit: usize) -> Result<Option<Vec<u8>>, NoMemory>
    ensures { IfOk result (λ bytes. IfSome bytes (λ b. length b.items ≤ limit)) }
{
    if !is_kept(rt, name) {
        return Ok(None);
    }
    let mut desk = OsDesk::new(rt, rt.alloc())?;
    match desk.load(rt.alloc(), name, limit) {
        Ok(bytes) => Ok(Some(bytes)),
        Err(LoadFault::OutOfMemory) => Err(NoMemory),
        Err(_) => Ok(None),
    }
}

// What is wrong with the topology file of a name, as a sentence.
fn topology_reason(rt: &HostRuntime, name: &str) -> Result<Option<String>, NoMemory> {
    let Some(bytes) = loaded(rt, name, LIMIT)? else {
        return Ok(None);
    };
    // no topology is a text
    let text = text_sentence(rt.alloc(), name, &bytes)?;
    if text.is_some() {
        return Ok(text);
    }
    topology_sentence(rt.alloc(), name, &bytes)
}

// Why no source of the topology file of a name was made.
fn no_source_reason(rt: &HostRuntime, name: &str) -> Result<Option<String>, NoMemory> {
    let reason = topology_reason(rt, name)?;
    if reason.is_some() || !is_kept(rt, name) {
        return Ok(reason);
    }
    Ok(Some(no_source_sentence(rt.alloc(), name)?))
}

// What is wrong with the trace of a name.
fn trace_reason(rt: &HostRuntime, name: &str) -> Result<Option<String>, NoMemory> {
    match loaded(rt, name, TRACE_LIMIT)? {
        Some(bytes) => trace_sentence(rt.alloc(), name, &bytes),
        None => Ok(None),
    }
}

// What a new device answers to the message in front of a place of a trace.
fn given_reply(
    rt: &HostRuntime,
    bytes: &[u8],
    at: usize,
) -> Result<Option<Bounded<u8, 384>>, NoMemory> {
    let Some((before, _)) = bytes.split_at_checked(at) else {
        return Ok(None);
    };
    let dsp = Firmware::new(rt.alloc(), ROOM)?;
    last_reply(rt.alloc(), before, dsp)
}

// How the reply or the loss at a place of a trace differs from the reply that a new device gives.
fn reply_reason(rt: &HostRuntime, bytes: &[u8], at: usize) -> Result<Option<Misfit>, NoMemory> {
    let Some(given) = given_reply(rt, bytes, at)? else {
        return Ok(None);
    };
    let Some((_, rest)) = bytes.split_at_checked(at) else {
        return Ok(None);
    };
    if let Ok(Next::One { entry, next: _next }) = record_at(rest, 0)
        && let Entry::Reply(recorded) = entry
    {
        return Ok(reply_misfit(recorded.items(), given.items()));
    }
    Ok(loss_misfit(given.items()))
}

// What is wrong with a record of the trace of a name that is given to a device.
fn replay_reason(rt: &HostRuntime, name: &str) -> Result<Option<String>, NoMemory> {
    let Some(bytes) = loaded(rt, name, TRACE_LIMIT)? else {
        return Ok(None);
    };
    let dsp = Firmware::new(rt.alloc(), ROOM)?;
    let (misfit, at) = match record_at_fault(rt.alloc(), &bytes, dsp)? {
        Some(ReplayFault::Broken(_)) => return trace_sentence(rt.alloc(), name, &bytes),
        Some(ReplayFault::Order(at)) if at == bytes.len() => (Some(Misfit::End), at),
        Some(ReplayFault::Order(at)) => (Some(Misfit::Order), at),
        Some(ReplayFault::Lost(at) | ReplayFault::Replied(at)) => {
            (reply_reason(rt, &bytes, at)?, at)
        }
        None => return Ok(None),
    };
    match misfit {
        Some(misfit) => Ok(Some(misfit_sentence(rt.alloc(), name, &bytes, at, misfit)?)),
        None => Ok(None),
    }
}

/// Tells what is wrong with the record of the file of a name at which serving stopped.
///
/// `NoMemory` where there is none for the sentence.
pub fn stopped_reason(rt: &HostRuntime, name: &str, stopped: &Stopped) -> Result<(), NoMemory> {
    let sentence = record_sentence(
        rt.alloc(),
        name,
        stopped.before,
        stopped.at,
        stopped.record.items(),
    )?;
    tell(rt, sentence.as_str());
    Ok(())
}

// What is wrong with the source of a name.
fn source_reason(rt: &HostRuntime, name: &str) -> Result<Option<String>, NoMemory> {
    match loaded(rt, name, LIMIT)? {
        Some(text) => source_sentence(rt.alloc(), name, &text),
        None => Ok(None),
    }
}

// What is wrong with the script of a name, or else with its bindings over the topology of a name.
fn script_reason(
    rt: &HostRuntime,
    topology: &str,
    script: &str,
) -> Result<Option<String>, NoMemory> {
    let Some(lines) = loaded(rt, script, LIMIT)? else {
        return Ok(None);
    };
    let reason = script_sentence(rt.alloc(), script, &lines)?;
    if reason.is_some() {
        return Ok(reason);
    }
    match loaded(rt, topology, LIMIT)? {
        Some(bytes) => binding_sentence(rt.alloc(), script, &lines, &bytes),
        None => Ok(None),
    }
}

// That the ticks of the script of a name are too many.
fn ticks_reason(rt: &HostRuntime, script: &str) -> Result<Option<String>, NoMemory> {
    match loaded(rt, script, LIMIT)? {
        Some(lines) => ticks_sentence(rt.alloc(), script, &lines),
        None => Ok(None),
    }
}

/// Why the words led to a status that is about a file: found in the files again, when all else is done.
pub fn reason(rt: &HostRuntime, words: &[String], status: u8) -> Result<Option<String>, NoMemory> {
    match (status, words) {
        (2, [form, trace]) if form.as_str() == "decode" => trace_reason(rt, trace.as_str()),
        (2, [form, trace]) if form.as_str() == "replay" => replay_reason(rt, trace.as_str()),
        (2, [_, topology]) => topology_reason(rt, topology.as_str()),
        (2, [_, topology, _]) => no_source_reason(rt, topology.as_str()),
        (2, [_, _, topology, _] | [_, _, topology, _, _]) => topology_reason(rt, topology.as_str()),
        (4, [_, source, _]) => source_reason(rt, source.as_str()),
        (4, [_, _, topology, script] | [_, _, topology, script, _]) => {
            script_reason(rt, topology.as_str(), script.as_str())
        }
        (8, [_, _, _, script] | [_, _, _, script, _]) => ticks_reason(rt, script.as_str()),
        _ => Ok(None),
    }
}
