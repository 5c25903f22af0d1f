//! The kinds of widgets, by their numbers in a file.

pub const INPUT: u32 = 0;

pub const OUTPUT: u32 = 1;

pub const MUX: u32 = 2;

pub const MIXER: u32 = 3;

pub const PGA: u32 = 4;

pub const AIF_IN: u32 = 11;

pub const AIF_OUT: u32 = 12;

pub const DAI_IN: u32 = 13;

pub const DAI_OUT: u32 = 14;

pub const BUFFER: u32 = 16;

pub const SCHEDULER: u32 = 17;

pub const EFFECT: u32 = 18;
