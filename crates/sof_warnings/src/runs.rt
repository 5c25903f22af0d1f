// The warnings on a topology that was checked, and on a script that was played.
ghost use Rattle.std.specs.Prelude.{◌<◌, ◌^◌, length};

use crate::buffers::{Buffers, Place, has_shape, least_shape, shape_of};
use crate::listener::Answered;
use sof_base::{Name44, NoMemory};
use sof_faults::{ShownName, topology_in};
use sof_script::{Command, Script};
use std::alloc::Global;
use tplg_graph::{Plan, PlanFault, StreamPlan, need, plan};
use tplg_model::TplgFault;

/// A script that was played: the name of its file, the device's heap in bytes, what the file holds, and how its commands were answered, in
/// their order.
#[derive(Clone, Copy)]
pub struct Played<'a> {
    pub file: &'a str,
    pub heap: u32,
    pub script: &'a Script,
    pub answers: &'a [Answered],
}

// The plan of a topology file, and how many bytes of heap it needs; none where it has no plan.
fn planned(alloc: Global, bytes: &[u8]) -> Result<Option<(Plan, u64)>, NoMemory>
    requires { length bytes.now < 2 ^ 32 }
{
    let topology = match topology_in(alloc, bytes) {
        Ok(topology) => topology,
        Err(TplgFault::OutOfMemory) => return Err(NoMemory),
        Err(_) => return Ok(None),
    };
    match plan(alloc, &topology) {
        Ok(plan) => {
            let bytes = need(&plan);
            Ok(Some((plan, bytes)))
        }
        Err(PlanFault::OutOfMemory) => Err(NoMemory),
        Err(_) => Ok(None),
    }
}

/// What a writer of a topology may not have meant: each buffer that holds less than a period of a stream on whose way it is, at the least
/// rate and channels of the stream's caps.
pub fn check_warnings(alloc: Global, file: &str, topology: &[u8]) -> Result<Vec<String>, NoMemory>
    requires { length topology.now < 2 ^ 32 }
{
    let mut out = Vec::new(alloc);
    let Some((plan, _)) = planned(alloc, topology)? else {
        return Ok(out);
    };
    let place = Place::File(ShownName(file));
    let mut buffers = Buffers::of(&plan);
    for stream in plan.streams.items() {
        let shape = least_shape(&stream.caps);
        if has_shape(&stream.caps, shape) {
            buffers.tell(alloc, place, stream, shape, &mut out)?;
        }
    }
    Ok(out)
}

// The stream of a name.
fn stream_named<'a>(plan: &'a Plan, name: &Name44) -> Option<&'a StreamPlan> {
    for stream in plan.streams.items() {
        match plan.names.items().get(stream.host as usize) {
            Some(other) if other.as_bytes() == name.as_bytes() => return Some(stream),
            _ => {}
        }
    }
    None
}

/// What a writer of a script may not have meant: the first load that was refused for want of heap, and each buffer that holds less than a
/// period of a stream, by what a command set.
pub fn play_warnings(
    alloc: Global,
    played: Played<'_>,
    topology: &[u8],
) -> Result<Vec<String>, NoMemory>
    requires { length topology.now < 2 ^ 32 }
{
    let mut out = Vec::new(alloc);
    let Some((plan, bytes)) = planned(alloc, topology)? else {
        return Ok(out);
    };
    let heap = played.heap;
    let mut buffers = Buffers::of(&plan);
    let mut fits = u64::from(heap) >= bytes;
    let commands = played.script.commands.items();
    for (numbered, answered) in commands.iter().zip(played.answers) {
        let place = Place::Line(ShownName(played.file), numbered.line);
        match (&numbered.command, *answered) {
            (Command::Load, Answered::NoRoom) if !fits => {
                fits = true;
                out.push(format!(in alloc;
                    "{place}: {bytes} bytes are needed, and the heap has {heap}"
                )?)?;
            }
            (Command::Params(name, params), Answered::Done) => {
                if let Some(stream) = stream_named(&plan, name) {
                    buffers.tell(alloc, place, stream, shape_of(*params), &mut out)?;
                }
            }
            _ => {}
        }
    }
    Ok(out)
}
