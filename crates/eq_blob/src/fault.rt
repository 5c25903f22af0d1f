// Why bytes are no blob.
ghost use Rattle.std.specs.Prelude.{◌≡◌};
ghost use Rattle.sof_base.specs.BlobFaults.{fault_number};
ghost use Rattle.eq_blob.specs.Faults.{said};

use thiserror::Error;

/// The first fault of a blob. An assignment is named by its channel, section counts by their response, and a shift by its
/// response and section, each from 0.
#[derive(Clone, Copy, Debug, PartialEq, Eq, Error)]
pub enum EqFault {
    /// There are fewer than 60 or more than 1024 bytes.
    #[error("a blob has 60 to 1024 bytes")]
    Size,
    /// The first word is another.
    #[error("the magic word is another")]
    Magic,
    /// The header says another size than that of the bytes after it.
    #[error("the header says another size")]
    HeaderSize,
    /// The number of channels is not 1 to 8.
    #[error("a blob has 1 to 8 channels")]
    Channels,
    /// The number of responses is not 1 to 8.
    #[error("a blob has 1 to 8 responses")]
    Responses,
    /// A channel's response is neither -1 nor one that is there.
    #[error("channel {0} has a response that is not there")]
    Assignment(u32),
    /// A response has not 1 to 8 sections, or another number in series.
    #[error("response {0} has not 1 to 8 sections in series")]
    Sections(u32),
    /// A section's shift is not -13 to 31.
    #[error("section {1} of response {0} has a shift that is not -13 to 31")]
    Shift(u32, u32),
    /// The bytes end before what is read next.
    #[error("the bytes end too early")]
    Length,
}

impl EqFault {
    /// Its number, from 1 for `Size` to 9 for `Length`.
    pub fn number(&self) -> u8
        ensures { result ≡ fault_number (said self.now) }
    {
        match self {
            EqFault::Size => 1,
            EqFault::Magic => 2,
            EqFault::HeaderSize => 3,
            EqFault::Channels => 4,
            EqFault::Responses => 5,
            EqFault::Assignment(_) => 6,
            EqFault::Sections(_) => 7,
            EqFault::Shift(_, _) => 8,
            EqFault::Length => 9,
        }
    }
}
