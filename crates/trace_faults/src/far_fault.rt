// What is wrong with what a far side gave back of a message.
use crate::trace_fault::{RecordFault, called, error_of, record_fault};
use ipc3_far::{FarAnswer, FarFault};
use ipc3_trace::{Next, RecordKind, record_at};
use sof_base::{NoMemory, word_at};
use sof_faults::ShownName;
use std::alloc::Global;
use thiserror::Error;

// How the answer of a far side differs from the right reply.
#[derive(Clone, Copy, Debug, Error)]
enum FarMisfit {
    #[error("the firmware gave the reply {given}, {own} is right")]
    Reply { given: i32, own: i32 },
    #[error("the firmware gave a reply of {given} bytes, one of {own} is right")]
    Long { given: usize, own: usize },
    #[error("byte {at} of the firmware's reply is {given}, {own} is right")]
    Byte { at: usize, given: u8, own: u8 },
    #[error("the firmware gave {given}, the reply {own} is right")]
    Other { given: &'static str, own: i32 },
    #[error("the firmware gave no record, the reply {own} is right: {fault}")]
    Broken { fault: RecordFault, own: i32 },
    #[error("the firmware gave nothing more, the reply {own} is right")]
    End { own: i32 },
}

// How two replies differ: by their error, else by their size, else by the first byte that is another; none where they do not.
fn far_reply_misfit(given: &[u8], own: &[u8]) -> Option<FarMisfit> {
    let errors = (error_of(given)?, error_of(own)?);
    if errors.0 != errors.1 {
        return Some(FarMisfit::Reply {
            given: errors.0,
            own: errors.1,
        });
    }
    if given.len() != own.len() {
        return Some(FarMisfit::Long {
            given: given.len(),
            own: own.len(),
        });
    }
    for (at, bytes) in given.iter().zip(own).enumerate() {
        if *bytes.0 != *bytes.1 {
            return Some(FarMisfit::Byte {
                at,
                given: *bytes.0,
                own: *bytes.1,
            });
        }
    }
    None
}

// A record that is no reply.
fn kind_misfit(given: &[u8], own: i32) -> FarMisfit {
    let Some(number) = word_at(given, 0) else {
        return FarMisfit::End { own };
    };
    match RecordKind::from_number(number) {
        Some(kind) => FarMisfit::Other {
            given: called(kind),
            own,
        },
        None => FarMisfit::End { own },
    }
}

// A record that is no reply, or bytes that are no record.
fn other_misfit(given: &[u8], own: i32) -> FarMisfit {
    match record_at(given, 0) {
        Ok(
            Next::One {
                entry: _entry,
                next: _next,
            },
        ) => kind_misfit(given, own),
        Ok(Next::End) => FarMisfit::End { own },
        Err(_fault) => FarMisfit::Broken {
            fault: record_fault(given),
            own,
        },
    }
}

// What is wrong; none where it is about the files, or the device itself failed.
fn far_misfit(fault: &FarFault) -> Option<FarMisfit> {
    let Some(own) = &fault.own else {
        return None;
    };
    match &fault.answer {
        FarAnswer::Reply(reply) => far_reply_misfit(reply.items(), own.items()),
        FarAnswer::Other(bytes) => Some(other_misfit(bytes.items(), error_of(own.items())?)),
        FarAnswer::End => Some(FarMisfit::End {
            own: error_of(own.items())?,
        }),
        FarAnswer::Unsent(_) | FarAnswer::Unread(_) => None,
    }
}

/// The sentence of the first message in which a far side failed, with the name of the file of its replies in front; none where it is about
/// the files, or the device itself failed.
///
/// `NoMemory` where there is none for the sentence.
pub fn far_sentence(
    alloc: Global,
    file: &str,
    fault: &FarFault,
) -> Result<Option<String>, NoMemory> {
    let Some(misfit) = far_misfit(fault) else {
        return Ok(None);
    };
    let message = fault.message;
    Ok(Some(format!(in alloc; "{}: message {message}: {misfit}", ShownName(file))?))
}
