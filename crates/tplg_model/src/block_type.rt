//! The types of blocks, by their numbers in a file. Only routes, widgets, PCMs and manifests are read as records.

pub const MIXER: u32 = 1;

pub const BYTES: u32 = 2;

pub const ENUM: u32 = 3;

pub const DAPM_GRAPH: u32 = 4;

pub const DAPM_WIDGET: u32 = 5;

pub const DAI_LINK: u32 = 6;

pub const PCM: u32 = 7;

pub const MANIFEST: u32 = 8;

pub const CODEC_LINK: u32 = 9;

pub const BACKEND_LINK: u32 = 10;

pub const PDATA: u32 = 11;

pub const DAI: u32 = 12;
