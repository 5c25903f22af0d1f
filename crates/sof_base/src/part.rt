// A part of a byte control's value, as one message carries it.
ghost use Rattle.std.specs.Prelude.{◌≡◌};

use crate::bounded::Bounded;

/// The bytes of a part's payload, at most 260.
pub type PartBytes = Bounded<u8, 260>;

/// A part of a blob: the blob's 32 header bytes, how many payload bytes follow this part, the part's number from 0, and
/// its own payload bytes.
#[derive(Debug, Drop)]
pub struct Part {
    pub header: [u8; 32],
    pub remaining: u32,
    pub index: u32,
    pub bytes: PartBytes,
}

impl Part {
    /// The same part again.
    pub fn copied(&self) -> Part
        ensures { result ≡ self.now }
    {
        Part {
            header: self.header,
            remaining: self.remaining,
            index: self.index,
            bytes: self.bytes.copied(),
        }
    }
}
