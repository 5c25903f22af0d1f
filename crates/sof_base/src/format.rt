ghost use Rattle.std.specs.Prelude.{◌≡◌};
ghost use Rattle.sof_base.specs.Samples as samples;
ghost use Rattle.sof_base.specs.FrameLists as frame_lists;

/// A sample inside the firmware: full scale is the whole range of an `i32`.
pub type Sample = i32;

/// How a sample lies in bytes, little-endian: 16 bits in 2 bytes, 24 bits in the low part of 4, or 32 bits in 4.
#[derive(Clone, Copy, Debug, PartialEq, Eq)]
pub enum Format {
    S16,
    S24,
    S32,
}

impl Format {
    /// How many bytes a sample has.
    pub fn width(self) -> usize
        ensures { result ≡ samples.width self }
    {
        match self {
            Format::S16 => 2,
            Format::S24 => 4,
            Format::S32 => 4,
        }
    }

    /// The frame format of a message: 0 for 16 bits, 1 for 24 bits in 4 bytes, 2 for 32 bits.
    pub fn number(self) -> u32
        ensures { result ≡ samples.frame_format self }
    {
        match self {
            Format::S16 => 0,
            Format::S24 => 1,
            Format::S32 => 2,
        }
    }

    /// The format of a message's number; none where the number is above 2.
    pub fn from_number(number: u32) -> Option<Format>
        ensures { result ≡ frame_lists.format_numbered number }
    {
        match number {
            0 => Some(Format::S16),
            1 => Some(Format::S24),
            2 => Some(Format::S32),
            _ => None,
        }
    }
}

/// The parameters of a stream: frames a second, samples a frame, and how a sample lies in bytes.
#[derive(Clone, Copy, Debug, PartialEq, Eq)]
pub struct Params {
    pub rate: u32,
    pub channels: u8,
    pub format: Format,
}
