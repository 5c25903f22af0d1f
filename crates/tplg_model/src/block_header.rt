// What each block's header says.

/// The first word of a block: "CoSA" as bytes.
pub const MAGIC: u32 = 0x4153_6F43;

/// The version of the format.
pub const ABI: u32 = 5;

/// The bytes of a header: nine words.
pub const HEADER_BYTES: u32 = 36;
