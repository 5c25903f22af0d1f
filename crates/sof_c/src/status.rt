// What calls answer; the header has the same numbers, and 13 for a pointer that is NULL.

/// Done.
pub const DONE: u32 = 0;

/// The handle is closed.
pub const CLOSED: u32 = 1;

/// The handle is open already.
pub const OPEN: u32 = 2;

/// Memory is missing, and nothing changed.
pub const NO_MEMORY: u32 = 3;

/// The device is on already.
pub const ON: u32 = 4;

/// The device is off.
pub const OFF: u32 = 5;

/// The heap is above the device's greatest, or the file has 4 GiB or more.
pub const TOO_LARGE: u32 = 6;

/// The caller's buffer is too short.
pub const SHORT: u32 = 7;

/// No endpoint has this id.
pub const UNKNOWN: u32 = 8;

/// An endpoint has this id already.
pub const BOUND: u32 = 9;

/// The input takes no such piece: it would hold more than 1048576 bytes.
pub const FULL: u32 = 10;

/// The bytes are no topology file.
pub const BROKEN: u32 = 11;

/// The topology breaks a rule.
pub const RULE: u32 = 12;
