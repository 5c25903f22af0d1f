//! The kinds of controls, by the number of their operation `info`.

pub const MIXER: u32 = 1;

pub const ENUM: u32 = 4;

pub const BYTES: u32 = 5;
