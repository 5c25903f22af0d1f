// Why bytes are no message.
ghost use Rattle.std.specs.Prelude.{◌≡◌};
ghost use Rattle.ipc3_model.specs.FaultNumbers.{codec_fault_number};

use thiserror::Error;

/// The first fault of bytes that are no message, or no reply.
#[derive(Clone, Copy, Debug, PartialEq, Eq, Error)]
pub enum CodecFault {
    /// Fewer bytes than a header has: 8, or 12 of a reply.
    #[error("byte 0: fewer bytes than a header has")]
    Short,
    /// The size word is below the header's size, above 384 or above the number of bytes.
    #[error("byte 0: the size word is below the header, above 384 or above the bytes")]
    SizeWord,
    /// The command word, this one, is none of the profile's.
    #[error("byte 4: {0:#010x} is no command")]
    Command(u32),
    /// The word at this place does not lie within the size word, or its value is not allowed there.
    #[error("byte {0}: the word is missing or not allowed")]
    Field(usize),
}

impl CodecFault {
    /// Its number, from 1 to 4.
    pub fn number(&self) -> u8
        ensures { result ≡ codec_fault_number self.now }
    {
        match self {
            CodecFault::Short => 1,
            CodecFault::SizeWord => 2,
            CodecFault::Command(_) => 3,
            CodecFault::Field(_) => 4,
        }
    }
}
