// The messages on controls: which type word each has, and which values its other words may have.
ghost use Rattle.std.specs.Prelude.{◌≡◌};
ghost use Rattle.ipc3_model.specs.ControlWords as words;

/// What a ctrl_data is: of a message that asks or sets, or of a reply, which is as the message that sets.
#[derive(Clone, Copy, Debug, PartialEq, Eq)]
pub enum ControlKind {
    GetValue,
    SetValue,
    GetData,
    SetData,
}

// The type words.

pub const VALUE_CHAN_GET: u32 = 0;

pub const VALUE_CHAN_SET: u32 = 1;

pub const DATA_GET: u32 = 4;

pub const DATA_SET: u32 = 5;

// The commands: the gains of a volume, the choice of a mux, the masks of a demux, the bytes of an equaliser.

pub const CTRL_VOLUME: u32 = 0;

pub const CTRL_ENUM: u32 = 1;

pub const CTRL_SWITCH: u32 = 2;

pub const CTRL_BINARY: u32 = 3;

impl ControlKind {
    /// The type word.
    pub fn type_word(self) -> u32
        ensures { result ≡ words.type_of self }
    {
        match self {
            ControlKind::GetValue => VALUE_CHAN_GET,
            ControlKind::SetValue => VALUE_CHAN_SET,
            ControlKind::GetData => DATA_GET,
            ControlKind::SetData => DATA_SET,
        }
    }

    /// Values have the command VOLUME, ENUM or SWITCH, parts have BINARY.
    pub fn takes_command(self, command: u32) -> bool
        ensures { result ≡ words.takes_command self command }
    {
        match self {
            ControlKind::GetValue | ControlKind::SetValue => {
                command == CTRL_VOLUME || command == CTRL_ENUM || command == CTRL_SWITCH
            }
            ControlKind::GetData | ControlKind::SetData => command == CTRL_BINARY,
        }
    }

    /// How many elements there may be: 1 to 8 values, or 1 to 260 bytes. It is not looked at where they are asked for.
    pub fn takes_count(self, count: u32) -> bool
        ensures { result ≡ words.takes_count self count }
    {
        match self {
            ControlKind::GetValue | ControlKind::GetData => true,
            ControlKind::SetValue => 1 <= count && count <= 8,
            ControlKind::SetData => 1 <= count && count <= 260,
        }
    }

    /// How many bytes may follow a part of `count` bytes: 992 in all.
    pub fn takes_remaining(self, count: u32, remaining: u32) -> bool
        ensures { result ≡ words.takes_remaining self count remaining }
    {
        match self {
            ControlKind::GetValue | ControlKind::SetValue | ControlKind::GetData => true,
            ControlKind::SetData => count <= 992 && remaining <= 992 - count,
        }
    }
}
