//! The types of vendor arrays, by their numbers in a file.

pub const UUID: u32 = 0;

pub const STRING: u32 = 1;

pub const BOOL: u32 = 2;

pub const BYTE: u32 = 3;

pub const WORD: u32 = 4;

pub const SHORT: u32 = 5;
