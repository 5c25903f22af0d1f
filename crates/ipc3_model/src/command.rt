// The command words, in the order of the profile's table: the global type in bits 28 to 31, the command in bits 16 to 27.
ghost use Rattle.std.specs.Prelude.{◌≡◌};
ghost use Rattle.ipc3_model.specs.Commands.{command_number, command_numbered};

pub const COMP_NEW: u32 = 0x3001_0000;

pub const COMP_FREE: u32 = 0x3002_0000;

pub const CONNECT: u32 = 0x3003_0000;

pub const PIPE_NEW: u32 = 0x3010_0000;

pub const PIPE_FREE: u32 = 0x3011_0000;

pub const PIPE_COMPLETE: u32 = 0x3013_0000;

pub const BUFFER_NEW: u32 = 0x3020_0000;

pub const BUFFER_FREE: u32 = 0x3021_0000;

pub const CTX_SAVE: u32 = 0x4001_0000;

pub const SET_VALUE: u32 = 0x5001_0000;

pub const GET_VALUE: u32 = 0x5002_0000;

pub const SET_DATA: u32 = 0x5003_0000;

pub const GET_DATA: u32 = 0x5004_0000;

pub const PCM_PARAMS: u32 = 0x6001_0000;

pub const PCM_FREE: u32 = 0x6003_0000;

pub const TRIG_START: u32 = 0x6004_0000;

pub const TRIG_STOP: u32 = 0x6005_0000;

pub const TRIG_PAUSE: u32 = 0x6006_0000;

pub const TRIG_RELEASE: u32 = 0x6007_0000;

/// The command word of every reply.
pub const REPLY: u32 = 0x1000_0000;

/// What a message asks for.
#[derive(Clone, Copy, Debug, PartialEq, Eq)]
pub enum CommandWord {
    CompNew,
    CompFree,
    Connect,
    PipeNew,
    PipeFree,
    PipeComplete,
    BufferNew,
    BufferFree,
    CtxSave,
    SetValue,
    GetValue,
    SetData,
    GetData,
    PcmParams,
    PcmFree,
    TrigStart,
    TrigStop,
    TrigPause,
    TrigRelease,
}

impl CommandWord {
    /// The word of a command.
    pub fn number(self) -> u32
        ensures { result ≡ command_number self }
    {
        match self {
            CommandWord::CompNew => COMP_NEW,
            CommandWord::CompFree => COMP_FREE,
            CommandWord::Connect => CONNECT,
            CommandWord::PipeNew => PIPE_NEW,
            CommandWord::PipeFree => PIPE_FREE,
            CommandWord::PipeComplete => PIPE_COMPLETE,
            CommandWord::BufferNew => BUFFER_NEW,
            CommandWord::BufferFree => BUFFER_FREE,
            CommandWord::CtxSave => CTX_SAVE,
            CommandWord::SetValue => SET_VALUE,
            CommandWord::GetValue => GET_VALUE,
            CommandWord::SetData => SET_DATA,
            CommandWord::GetData => GET_DATA,
            CommandWord::PcmParams => PCM_PARAMS,
            CommandWord::PcmFree => PCM_FREE,
            CommandWord::TrigStart => TRIG_START,
            CommandWord::TrigStop => TRIG_STOP,
            CommandWord::TrigPause => TRIG_PAUSE,
            CommandWord::TrigRelease => TRIG_RELEASE,
        }
    }

    /// The command of a word; none where the profile has no such command.
    pub fn from_number(number: u32) -> Option<CommandWord>
        ensures { result ≡ command_numbered number }
    {
        match number {
            COMP_NEW => Some(CommandWord::CompNew),
            COMP_FREE => Some(CommandWord::CompFree),
            CONNECT => Some(CommandWord::Connect),
            PIPE_NEW => Some(CommandWord::PipeNew),
            PIPE_FREE => Some(CommandWord::PipeFree),
            PIPE_COMPLETE => Some(CommandWord::PipeComplete),
            BUFFER_NEW => Some(CommandWord::BufferNew),
            BUFFER_FREE => Some(CommandWord::BufferFree),
            CTX_SAVE => Some(CommandWord::CtxSave),
            SET_VALUE => Some(CommandWord::SetValue),
            GET_VALUE => Some(CommandWord::GetValue),
            SET_DATA => Some(CommandWord::SetData),
            GET_DATA => Some(CommandWord::GetData),
            PCM_PARAMS => Some(CommandWord::PcmParams),
            PCM_FREE => Some(CommandWord::PcmFree),
            TRIG_START => Some(CommandWord::TrigStart),
            TRIG_STOP => Some(CommandWord::TrigStop),
            TRIG_PAUSE => Some(CommandWord::TrigPause),
            TRIG_RELEASE => Some(CommandWord::TrigRelease),
            _ => None,
        }
    }
}
