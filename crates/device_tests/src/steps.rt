// Steps of a test of the device, each with its result, and the functions that carry them out.
ghost use Rattle.std.specs.Prelude.{◌≤◌};

use fw_core::Firmware;
use ipc3_codec::{Body, Message, decode_reply, encode};
use mbox_link::Dsp;
use sof_base::Part;
use sof_io::{Inputs, Outputs};
use std::alloc::Global;
use std::process::Abort;
use std::test::Fail;

/// The front of the reply to a message that is done and tells nothing.
pub(crate) const DONE: [u8; 12] = [12, 0, 0, 0, 0, 0, 0, 0x10, 0, 0, 0, 0];

/// The front of a reply that tells one value.
pub(crate) const ONE_VALUE: [u8; 12] = [100, 0, 0, 0, 0, 0, 0, 0x10, 0, 0, 0, 0];

/// The front of a reply that tells two values.
pub(crate) const TWO_VALUES: [u8; 12] = [108, 0, 0, 0, 0, 0, 0, 0x10, 0, 0, 0, 0];

/// The front of a reply that tells eight values.
pub(crate) const EIGHT_VALUES: [u8; 12] = [156, 0, 0, 0, 0, 0, 0, 0x10, 0, 0, 0, 0];

/// The replies of the errors -12, -16, -19 and -22.
pub(crate) const NO_MEMORY: [u8; 12] = [12, 0, 0, 0, 0, 0, 0, 0x10, 0xf4, 0xff, 0xff, 0xff];

pub(crate) const BUSY: [u8; 12] = [12, 0, 0, 0, 0, 0, 0, 0x10, 0xf0, 0xff, 0xff, 0xff];

pub(crate) const NO_DEVICE: [u8; 12] = [12, 0, 0, 0, 0, 0, 0, 0x10, 0xed, 0xff, 0xff, 0xff];

pub(crate) const INVALID: [u8; 12] = [12, 0, 0, 0, 0, 0, 0, 0x10, 0xea, 0xff, 0xff, 0xff];

/// A step of a test, and its result.
#[derive(Drop)]
pub(crate) enum Step {
    /// The reply to a message begins so.
    Told(Message, [u8; 12]),
    /// The reply to these bytes begins so.
    Bytes([u8; 20], [u8; 12]),
    /// The volume of this id has these gains, each after its channel, as a reply carries those of two channels.
    Gains(u32, [u8; 16]),
    /// The equaliser of this id gives this part of its blob, by the part's number.
    Part(u32, Part),
    /// So many bytes of the heap are carved, and so many components, buffers and pipelines are there.
    Holds(u32, u16),
    /// Each of so many ticks writes so many bytes to an output, and these come first.
    Ticks {
        times: u8,
        output: u32,
        bytes: usize,
        front: [u8; 12],
    },
    /// The power is cut.
    Cut,
}

/// A message that is done.
pub(crate) fn done(message: Message) -> Step {
    Step::Told(message, DONE)
}

/// A tick that writes so many bytes to an output, these first.
pub(crate) fn tick(output: u32, bytes: usize, front: [u8; 12]) -> Step {
    Step::Ticks {
        times: 1,
        output,
        bytes,
        front,
    }
}

/// So many ticks that write nothing to an output.
pub(crate) fn silent(times: u8, output: u32) -> Step {
    Step::Ticks {
        times,
        output,
        bytes: 0,
        front: [0; 12],
    }
}

/// The greatest heap of a device here, in bytes: 128 components or buffers of the least size fit.
const ROOM: u32 = 16384;

// Which of these messages is answered first with another front than stands beside it, on a device with a heap of so
// many bytes that has done the messages of a state.
fn answers(
    alloc: Global,
    heap: u32,
    state: &[Message],
    rows: &[(Message, [u8; 12])],
) -> Result<Option<usize>, Fail>
    requires { heap ≤ 16384 }
{
    let mut firmware = Firmware::new(alloc, ROOM)?;
    firmware.boot(heap);
    for message in state {
        if front_of(&reply(alloc, &mut firmware, message)?) != DONE {
            Err("no such state")?;
        }
    }
    for (place, (message, front)) in rows.iter().enumerate() {
        if front_of(&reply(alloc, &mut firmware, message)?) != *front {
            return Ok(Some(place));
        }
    }
    Ok(None)
}

/// Each of these messages is answered with the front beside it.
pub(crate) fn answered(
    rt: &impl Abort,
    alloc: Global,
    heap: u32,
    state: &[Message],
    rows: &[(Message, [u8; 12])],
) -> Result<(), Fail>
    requires { heap ≤ 16384 }
{
    let wrong = answers(alloc, heap, state, rows)?;
    assert_eq!(rt; wrong, None);
    Ok(())
}

// Which of the steps has another result first, on a device with a heap of so many bytes that has done the messages of a
// graph.
fn play(
    alloc: Global,
    heap: u32,
    graph: &[Message],
    io: &mut Inputs,
    steps: &[Step],
) -> Result<Option<usize>, Fail>
    requires { heap ≤ 16384 }
{
    let mut firmware = Firmware::new(alloc, ROOM)?;
    firmware.boot(heap);
    made_and_played(alloc, &mut firmware, graph, io, steps)
}

/// Each of the steps has the result that it names, with these inputs.
pub(crate) fn played_with(
    rt: &impl Abort,
    alloc: Global,
    heap: u32,
    graph: &[Message],
    io: &mut Inputs,
    steps: &[Step],
) -> Result<(), Fail>
    requires { heap ≤ 16384 }
{
    let other = play(alloc, heap, graph, io, steps)?;
    assert_eq!(rt; other, None);
    Ok(())
}

/// The same without inputs.
pub(crate) fn played(
    rt: &impl Abort,
    alloc: Global,
    heap: u32,
    graph: &[Message],
    steps: &[Step],
) -> Result<(), Fail>
    requires { heap ≤ 16384 }
{
    let mut io = Inputs::new(alloc)?;
    played_with(rt, alloc, heap, graph, &mut io, steps)
}

// The same on a device that is on.
fn made_and_played(
    alloc: Global,
    firmware: &mut Firmware,
    graph: &[Message],
    io: &mut Inputs,
    steps: &[Step],
) -> Result<Option<usize>, Fail> {
    for message in graph {
        if front_of(&reply(alloc, firmware, message)?) != DONE {
            Err("the graph was refused")?;
        }
    }
    for (place, step) in steps.iter().enumerate() {
        if !comes_to(alloc, firmware, io, step)? {
            return Ok(Some(place));
        }
    }
    Ok(None)
}

// Whether a step has the result that it names.
fn comes_to(
    alloc: Global,
    firmware: &mut Firmware,
    io: &mut Inputs,
    step: &Step,
) -> Result<bool, Fail> {
    match step {
        Step::Told(message, front) => Ok(front_of(&reply(alloc, firmware, message)?) == *front),
        Step::Bytes(request, front) => Ok(front_of(&reply_to(alloc, firmware, request)?) == *front),
        Step::Gains(id, gains) => Ok(gains_of(alloc, firmware, *id)? == *gains),
        Step::Part(id, part) => gives(alloc, firmware, *id, part),
        Step::Holds(bytes, things) => Ok(holds(firmware, *bytes, *things)),
        Step::Ticks {
            times,
            output,
            bytes,
            front,
        } => ticks(alloc, firmware, io, *times, *output, (*bytes, *front)),
        Step::Cut => {
            firmware.cut();
            Ok(true)
        }
    }
}

// What a device that is on answers to these bytes.
fn reply_to(alloc: Global, firmware: &mut Firmware, request: &[u8]) -> Result<[u8; 384], Fail> {
    let mut reply = [0; 384];
    let mut io = Inputs::new(alloc)?;
    let mut out = Outputs::new(alloc)?;
    if firmware.on() {
        let _size = firmware.exchange(request, &mut reply, &mut io, &mut out);
    }
    Ok(reply)
}

// What it answers to a message.
fn reply(alloc: Global, firmware: &mut Firmware, message: &Message) -> Result<[u8; 384], Fail> {
    let mut request = [0; 384];
    let size = encode(message, &mut request);
    reply_to(alloc, firmware, &request[..size])
}

fn front_of(reply: &[u8; 384]) -> [u8; 12] {
    let mut front = [0; 12];
    front.copy_from_slice(&reply[..12]);
    front
}

// The two channels of a volume and their gains.
fn gains_of(alloc: Global, firmware: &mut Firmware, id: u32) -> Result<[u8; 16], Fail> {
    let reply = reply(alloc, firmware, &Message::GetValue { id, command: 0 })?;
    let mut gains = [0; 16];
    gains.copy_from_slice(&reply[92..108]);
    Ok(gains)
}

// Whether an equaliser gives this part of its blob.
fn gives(alloc: Global, firmware: &mut Firmware, id: u32, part: &Part) -> Result<bool, Fail> {
    let index = part.index;
    let reply = reply(alloc, firmware, &Message::GetData { id, index })?;
    let Ok(said) = decode_reply(&reply) else {
        return Ok(false);
    };
    match said.body {
        Body::Nothing => Ok(false),
        Body::Values(_) => Ok(false),
        Body::Part(given) => Ok(
            given.header == part.header
                && given.remaining == part.remaining
                && given.index == index
                && given.bytes.items() == part.bytes.items(),
        ),
    }
}

fn holds(firmware: &Firmware, bytes: u32, things: u16) -> bool {
    firmware.used() == bytes && firmware.registry().len() == things
}

// Whether each of so many ticks writes this to an output.
fn ticks(
    alloc: Global,
    firmware: &mut Firmware,
    io: &mut Inputs,
    times: u8,
    output: u32,
    wanted: (usize, [u8; 12]),
) -> Result<bool, Fail> {
    for _ in 0..times {
        if written(alloc, firmware, io, output)? != wanted {
            return Ok(false);
        }
    }
    Ok(true)
}

// How many bytes a tick writes to an output, and the first of them.
fn written(
    alloc: Global,
    firmware: &mut Firmware,
    io: &mut Inputs,
    output: u32,
) -> Result<(usize, [u8; 12]), Fail> {
    let mut out = Outputs::new(alloc)?;
    out.add(output)?;
    firmware.tick(io, &mut out);
    let bytes = out.bytes(output);
    let mut front = [0; 12];
    if 12 <= bytes.len() {
        front.copy_from_slice(&bytes[..12]);
    }
    Ok((bytes.len(), front))
}
