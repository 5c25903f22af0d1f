// Why a topology file could not be read.
ghost use Rattle.std.specs.Prelude.{◌≡◌};
ghost use Rattle.tplg_model.specs.declared.fault.TplgFault.TheVariants.{OutOfMemory};

use sof_base::NoMemory;
use std::alloc::{AllocError, AllocFailed};
use thiserror::Error;

/// What is wrong with a file: the first fault in file order, with the first byte of the block, record or control at fault,
/// counted from the file's first.
#[derive(Clone, Copy, Debug, PartialEq, Eq, Error)]
pub enum TplgFault {
    /// A block's magic word is another.
    #[error("block at byte {0}: the magic word is another")]
    Magic(usize),
    /// A block's ABI word, which is not 5.
    #[error("block at byte {0}: ABI is {1}, not 5")]
    Abi(usize, u32),
    /// A block's header says another size than 36.
    #[error("block at byte {0}: the header's size is not 36")]
    HeaderSize(usize),
    /// A block's header or payload goes beyond the file.
    #[error("block at byte {0}: it goes beyond the file")]
    Truncated(usize),
    /// A record or control does not fit into its block's payload, or bytes are left after the last record.
    #[error("record at byte {0}: it does not fit into its block, or is past the last")]
    Payload(usize),
    /// A name of a record or control has no 0.
    #[error("record at byte {0}: a name has no end")]
    Name(usize),
    /// A control's operation `info`, which is none of 1, 4 and 5.
    #[error("control at byte {0}: the operation info is {1}, not 1, 4 or 5")]
    ControlKind(usize, u32),
    /// A widget's private data are no vendor arrays.
    #[error("widget at byte {0}: the private data are no vendor arrays")]
    Tokens(usize),
    /// There was no memory.
    #[error("out of memory")]
    OutOfMemory,
}

impl From<AllocError> for TplgFault {
    ghost from_gives = { λ _ e. e ≡ OutOfMemory };

    fn from(_fault: AllocError) -> TplgFault {
        TplgFault::OutOfMemory
    }
}

impl<T: Drop> From<AllocFailed<T>> for TplgFault {
    ghost from_gives = { λ _ e. e ≡ OutOfMemory };

    fn from(_fault: AllocFailed<T>) -> TplgFault {
        TplgFault::OutOfMemory
    }
}

impl From<NoMemory> for TplgFault {
    ghost from_gives = { λ _ e. e ≡ OutOfMemory };

    fn from(_fault: NoMemory) -> TplgFault {
        TplgFault::OutOfMemory
    }
}
