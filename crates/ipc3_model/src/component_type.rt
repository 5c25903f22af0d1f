// The types of components and of buffers, as their type words name them.
ghost use Rattle.std.specs.Prelude.{◌≡◌};
ghost use Rattle.ipc3_model.specs.ComponentTypes.{type_number, type_numbered};

pub const HOST: u32 = 1;

pub const DAI: u32 = 2;

pub const VOLUME: u32 = 5;

pub const MIXER: u32 = 6;

pub const MUX: u32 = 7;

pub const EQ_IIR: u32 = 13;

pub const DEMUX: u32 = 18;

/// The type word of each buffer.
pub const BUFFER: u32 = 12;

/// The type of a component.
#[derive(Clone, Copy, Debug, PartialEq, Eq)]
pub enum CompType {
    Host,
    Dai,
    Volume,
    Mixer,
    Mux,
    EqIir,
    Demux,
}

impl CompType {
    /// Its type word.
    pub fn number(self) -> u32
        ensures { result ≡ type_number self }
    {
        match self {
            CompType::Host => HOST,
            CompType::Dai => DAI,
            CompType::Volume => VOLUME,
            CompType::Mixer => MIXER,
            CompType::Mux => MUX,
            CompType::EqIir => EQ_IIR,
            CompType::Demux => DEMUX,
        }
    }

    /// The type of a type word; none where the profile has no such type.
    pub fn from_number(number: u32) -> Option<CompType>
        ensures { result ≡ type_numbered number }
    {
        match number {
            HOST => Some(CompType::Host),
            DAI => Some(CompType::Dai),
            VOLUME => Some(CompType::Volume),
            MIXER => Some(CompType::Mixer),
            MUX => Some(CompType::Mux),
            EQ_IIR => Some(CompType::EqIir),
            DEMUX => Some(CompType::Demux),
            _ => None,
        }
    }
}
