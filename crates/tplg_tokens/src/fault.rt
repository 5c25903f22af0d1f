// Why bytes are no vendor arrays.
ghost use Rattle.std.specs.Prelude.{◌≡◌};
ghost use Rattle.tplg_tokens.specs.declared.fault.TokenFault.TheVariants.{OutOfMemory};

use sof_base::NoMemory;
use thiserror::Error;

/// The first fault of bytes that are no vendor arrays, with the place of the array at fault, in bytes from 0; or want of
/// memory.
#[derive(Clone, Copy, Debug, PartialEq, Eq, Error)]
pub enum TokenFault {
    /// Fewer bytes are left than an array's three words, or than its size.
    #[error("array at byte {0}: it goes beyond the bytes")]
    Short(usize),
    /// An array's size word is not that of its three words and its elements.
    #[error("array at byte {0}: the size word is not that of its elements")]
    Size(usize),
    /// An array's type, this one, is above 5.
    #[error("array at byte {0}: type is {1}, above 5")]
    Kind(usize, u32),
    /// There was no memory.
    #[error("out of memory")]
    OutOfMemory,
}

impl From<NoMemory> for TokenFault {
    ghost from_gives = { λ _ fault. fault ≡ OutOfMemory };

    fn from(_fault: NoMemory) -> TokenFault {
        TokenFault::OutOfMemory
    }
}
