// What the host's calls answer.
use crate::kept::Found;
use sof_base::{Bounded, Errno, Name44};
use thiserror::Error;

/// Why a call of the host gave up. All but `Refused` and `LinkDown` come before any message.
#[derive(Debug, Drop, Error)]
pub enum HostFault {
    /// Nothing is loaded.
    #[error("nothing is loaded")]
    NotLoaded,
    /// It is loaded already.
    #[error("it is loaded already")]
    Loaded,
    /// No stream, or no control of this sort, has this name.
    #[error("no stream or control has this name")]
    NoSuch(Name44),
    /// The stream, or the power, stands so, and the call asks for another stand.
    #[error("another state than {0:?} is asked for")]
    State(Found),
    /// The device is off.
    #[error("the device is off")]
    Off,
    /// This number is outside its range.
    #[error("{0} is outside its range")]
    Range(u32),
    /// A message was answered with this negative error number.
    #[error("a message was refused with error {}", .0.0)]
    Refused(Errno),
    /// The link failed.
    #[error("the link failed")]
    LinkDown,
    /// The bytes are no equaliser blob, by the fault of this number.
    #[error("the blob has fault {0}")]
    Blob(u8),
}

/// What a command answers.
#[derive(Debug, Drop)]
pub enum Answer {
    Done,
    /// A control's values, or the firmware's gains or choice.
    Values(Bounded<u32, 8>),
    /// An equaliser's blob, of at most 1024 bytes.
    Bytes(Bounded<u8, 1024>),
    Fault(HostFault),
    /// No more fates or lags can be planned.
    PlanFull,
    /// All that should be there is listed.
    Show,
}
