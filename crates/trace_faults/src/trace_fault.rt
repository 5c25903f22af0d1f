// What is wrong with a trace.
use ipc3_trace::{Next, RecordKind, TraceFault, first_fault, record_at};
use sof_base::{NoMemory, word, word_at};
use sof_faults::ShownName;
use std::alloc::Global;
use std::fmt::Display;
use thiserror::Error;

/// Why the bytes from a place on begin with no record.
#[derive(Clone, Copy, Debug, Error)]
pub enum RecordFault {
    #[error("{0} of the 8 bytes of kind and size are there")]
    Head(usize),
    #[error("the kind is {0}, not 1 to 6")]
    Kind(u32),
    #[error("{name} has {sizes}, not {size}", name = called(*.kind), sizes = sizes_of(*.kind))]
    Size {
        kind: RecordKind,
        size: u32,
    },
    #[error("{name} of {size} bytes, of which {there} are there", name = called(*.kind))]
    Body {
        kind: RecordKind,
        size: u32,
        there: usize,
    },
}

/// What a record of a kind is called.
pub fn called(kind: RecordKind) -> &'static str {
    match kind {
        RecordKind::Boot => "a boot",
        RecordKind::Cut => "a cut",
        RecordKind::Request => "a message",
        RecordKind::Reply => "a reply",
        RecordKind::Tick => "a tick",
        RecordKind::Lost => "a loss",
    }
}

// How many bytes stand after its kind and size.
fn sizes_of(kind: RecordKind) -> &'static str {
    match kind {
        RecordKind::Boot => "4 bytes",
        RecordKind::Request => "at most 384 bytes",
        RecordKind::Reply => "12 to 384 bytes",
        RecordKind::Cut | RecordKind::Tick | RecordKind::Lost => "0 bytes",
    }
}

// The place of the record at fault.
fn place(fault: TraceFault) -> usize {
    match fault {
        TraceFault::Short(at) | TraceFault::Kind(at, _) | TraceFault::Size(at) => at,
    }
}

/// What is wrong with the record that these bytes begin with.
pub fn record_fault(bytes: &[u8]) -> RecordFault {
    if bytes.len() < 8 {
        return RecordFault::Head(bytes.len());
    }
    let number = word(bytes, 0);
    let size = word(bytes, 4);
    let Some(kind) = RecordKind::from_number(number) else {
        return RecordFault::Kind(number);
    };
    if !kind.takes_size(size) {
        return RecordFault::Size { kind, size };
    }
    RecordFault::Body {
        kind,
        size,
        there: bytes.len() - 8,
    }
}

/// What is wrong with a record that is given to a device.
#[derive(Clone, Copy, Debug, Error)]
pub enum Misfit {
    #[error("nothing of its kind can come there")]
    Order,
    #[error("the trace ends, and its last message has no reply")]
    End,
    #[error("a loss, where the device gave the reply {0}")]
    Lost(i32),
    #[error("the trace has the reply {recorded}, the device gave {given}")]
    Reply { recorded: i32, given: i32 },
    #[error("the trace has a reply of {recorded} bytes, the device gave one of {given}")]
    Long { recorded: usize, given: usize },
    #[error("byte {at} of the reply is {recorded}, the device gave {given}")]
    Byte { at: usize, recorded: u8, given: u8 },
}

/// The error of a reply, as `decode` says it.
pub fn error_of(reply: &[u8]) -> Option<i32> {
    let error = word_at(reply, 8)?;
    Some(error.cast_signed())
}

/// How a recorded loss differs from the reply that a device gave; none where that has no error.
pub fn loss_misfit(given: &[u8]) -> Option<Misfit> {
    Some(Misfit::Lost(error_of(given)?))
}

/// How a recorded reply differs from the one that a device gave: by its error, else by its size, else by its first byte that is another;
/// none where it does not.
pub fn reply_misfit(recorded: &[u8], given: &[u8]) -> Option<Misfit> {
    let errors = (error_of(recorded)?, error_of(given)?);
    if errors.0 != errors.1 {
        return Some(Misfit::Reply {
            recorded: errors.0,
            given: errors.1,
        });
    }
    if recorded.len() != given.len() {
        return Some(Misfit::Long {
            recorded: recorded.len(),
            given: given.len(),
        });
    }
    for (at, bytes) in recorded.iter().zip(given).enumerate() {
        if *bytes.0 != *bytes.1 {
            return Some(Misfit::Byte {
                at,
                recorded: *bytes.0,
                given: *bytes.1,
            });
        }
    }
    None
}

// How many records of a trace stand before a place.
fn records_before(bytes: &[u8], at: usize) -> usize {
    let mut rest = bytes;
    let mut place: usize = 0;
    for before in 0..bytes.len() {
        if place >= at {
            return before;
        }
        let Ok(
            Next::One {
                entry: _entry,
                next,
            },
        ) = record_at(rest, 0)
        else {
            return before;
        };
        let Some((_, after)) = rest.split_at_checked(next) else {
            return before;
        };
        rest = after;
        place = place.saturating_add(next);
    }
    0
}

// A sentence with the name of the file, and the number of the record, the first of which is 1, in front.
fn sentence<D: Display + Drop>(
    alloc: Global,
    file: &str,
    before: usize,
    at: usize,
    fault: D,
) -> Result<String, NoMemory> {
    let number = before.saturating_add(1);
    Ok(format!(in alloc;
        "{}: record {number} at byte {at}: {fault}",
        ShownName(file)
    )?)
}

/// The sentence of a record of a trace that is at fault where it is given to a device, with the name of the file in front.
///
/// `NoMemory` where there is none for the sentence.
pub fn misfit_sentence(
    alloc: Global,
    file: &str,
    bytes: &[u8],
    at: usize,
    misfit: Misfit,
) -> Result<String, NoMemory> {
    sentence(alloc, file, records_before(bytes, at), at, misfit)
}

/// The sentence of a record of a driver, of which these bytes are there, after so many records and at a place.
///
/// `NoMemory` where there is none for the sentence.
pub fn record_sentence(
    alloc: Global,
    file: &str,
    before: usize,
    at: usize,
    record: &[u8],
) -> Result<String, NoMemory> {
    if first_fault(record).is_some() {
        sentence(alloc, file, before, at, record_fault(record))
    } else {
        sentence(alloc, file, before, at, Misfit::Order)
    }
}

/// The sentence of the first fault of a trace, with the name of the file in front; none where nothing is wrong.
///
/// `NoMemory` where there is none for the sentence.
pub fn trace_sentence(alloc: Global, file: &str, bytes: &[u8]) -> Result<Option<String>, NoMemory> {
    let Some(fault) = first_fault(bytes) else {
        return Ok(None);
    };
    let at = place(fault);
    let Some((_, rest)) = bytes.split_at_checked(at) else {
        return Ok(None);
    };
    let before = records_before(bytes, at);
    Ok(Some(sentence(alloc, file, before, at, record_fault(rest))?))
}
