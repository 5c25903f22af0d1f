// What stands after each word of a script.
use sof_script::FileName;
use sof_script::values::{error, format, hex, name, number};
use thiserror::Error;

/// An argument: how it is named, and what it has to be.
#[derive(Clone, Copy, Debug, Error)]
pub enum Argument {
    /// The name of an endpoint, a stream or a control.
    #[error("{0} is a name of 1 to 43 bytes")]
    Name(&'static str),
    #[error("FILE is the name of a file, of 1 to 255 bytes")]
    File,
    /// A number from a least to a most one.
    #[error("{0} is from {1} to {2}, in decimal")]
    Number(&'static str, u32, u32),
    #[error("the format is s16, s24 or s32")]
    Format,
    #[error("HEX is two hex digits for each of at most 1024 bytes, or -")]
    Hex,
    #[error("E is from -4095 to -1, in decimal")]
    Error,
}

impl Argument {
    /// How it is named.
    pub fn word(self) -> &'static str {
        match self {
            Argument::Name(word) => word,
            Argument::File => "FILE",
            Argument::Number(word, _, _) => word,
            Argument::Format => "FORMAT",
            Argument::Hex => "HEX",
            Argument::Error => "E",
        }
    }

    /// Whether a token is none, for this cause.
    pub fn is_wrong(self, token: &[u8], cause: u8) -> bool {
        let found = match self {
            Argument::Name(_) => name(token).err(),
            Argument::File => FileName::of(token).err(),
            Argument::Number(_, least, most) => number(token, least, most).err(),
            Argument::Format => format(token).err(),
            Argument::Hex => hex(token).err(),
            Argument::Error => error(token).err(),
        };
        match found {
            Some(found) => found.number() == cause,
            None => false,
        }
    }
}

const STREAM: Argument = Argument::Name("STREAM");

const CONTROL: Argument = Argument::Name("CONTROL");

const ENDPOINT: Argument = Argument::Name("ENDPOINT");

const RATE: Argument = Argument::Number("RATE", 0, u32::MAX);

const CHANNELS: Argument = Argument::Number("CHANNELS", 0, 255);

const VALUE: Argument = Argument::Number("VALUE", 0, u32::MAX);

const MESSAGE: Argument = Argument::Number("K", 1, 100_000);

// The arguments of each word of a script.
const WORDS: [(&[u8], &[Argument]); 23] = [
    (b"load", &[]),
    (b"unload", &[]),
    (b"suspend", &[]),
    (b"resume", &[]),
    (b"show", &[]),
    (b"in", &[ENDPOINT, Argument::File]),
    (b"out", &[ENDPOINT, Argument::File]),
    (b"open", &[STREAM]),
    (b"start", &[STREAM]),
    (b"stop", &[STREAM]),
    (b"pause", &[STREAM]),
    (b"release", &[STREAM]),
    (b"close", &[STREAM]),
    (b"get", &[CONTROL]),
    (b"read", &[CONTROL]),
    (b"params", &[STREAM, RATE, CHANNELS, Argument::Format]),
    (b"set", &[CONTROL, VALUE]),
    (b"bytes", &[CONTROL, Argument::Hex]),
    (b"tick", &[Argument::Number("N", 1, 60_000)]),
    (b"refuse", &[MESSAGE, Argument::Error]),
    (b"drop", &[MESSAGE]),
    (b"lose", &[MESSAGE]),
    (b"lag", &[MESSAGE, Argument::Number("N", 1, 16)]),
];

/// The arguments of a word of a script, of which the last may be repeated up to eight times for `set`; none where it is no word.
pub fn arguments(word: &[u8]) -> Option<&'static [Argument]> {
    for (known, arguments) in &WORDS {
        if *known == word {
            return Some(*arguments);
        }
    }
    None
}
