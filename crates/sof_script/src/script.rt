// What a script asks for.
ghost use Rattle.std.specs.Prelude.{◌≡◌, ◌<◌, ◌^◌, length};
ghost use Rattle.std.specs.List.{sum_by};
ghost use Rattle.sof_script.specs.Ticks.{command_ticks};
ghost use Rattle.sof_script.specs.ScriptRead.{line_ticks};

use crate::blob::Blob;
use sof_base::{Bounded, Items, Name44, Params};

/// A command of the host. A `K` counts messages from the next one, which is 1.
#[derive(Debug, Drop)]
pub enum Command {
    /// Boots the device and loads the graph.
    Load,
    /// Cuts the device and forgets what was loaded.
    Unload,
    /// Stops what runs and cuts the device.
    Suspend,
    /// Boots the device again with all that the record says.
    Resume,
    /// Says how everything stands.
    Show,
    /// The stream of this name, and so in the next six.
    Open(Name44),
    Start(Name44),
    Stop(Name44),
    Pause(Name44),
    Release(Name44),
    Close(Name44),
    /// The control of this name as the record has it.
    Get(Name44),
    /// The control of this name as the firmware has it.
    Read(Name44),
    /// Parameters for a stream: frames a second, channels a frame, and the format of a sample.
    Params(Name44, Params),
    /// One to eight values for a control.
    Set(Name44, Bounded<u32, 8>),
    /// A blob of at most 1024 bytes for an equaliser.
    Bytes(Name44, Blob),
    /// This many ticks, 1 to 60000.
    Tick(u32),
    /// Message K is answered with this error, from -4095 to -1, and not delivered.
    Refuse(u32, i32),
    /// Message K is not delivered.
    Drop(u32),
    /// Message K is delivered, and its reply is lost.
    Lose(u32),
    /// So many ticks, 1 to 16, come before message K.
    Lag(u32, u32),
}

/// A command with the number of its line, from 1.
#[derive(Debug, Drop)]
pub struct Numbered {
    pub line: u32,
    pub command: Command,
}

/// An endpoint and the file that its bytes come from (`input`) or go to, with the number of the line.
#[derive(Debug, Drop)]
pub struct Binding {
    pub line: u32,
    pub input: bool,
    pub endpoint: Name44,
    pub file: String,
}

/// The bindings and the commands of a script, in order.
#[derive(Debug, Drop)]
pub struct Script {
    pub bindings: Items<Binding>,
    pub commands: Items<Numbered>,
}

impl Command {
    // How many ticks it makes or puts before a message.
    fn ticks(&self) -> u32
        ensures { result ≡ command_ticks self.now }
    {
        match self {
            Command::Tick(ticks) => *ticks,
            Command::Lag(_, ticks) => *ticks,
            _ => 0,
        }
    }
}

/// The sum of all ticks of a script.
pub fn ticks(script: &Script) -> u64
    requires { length script.now.commands < 2 ^ 32 }
    ensures { result ≡ sum_by line_ticks script.now.commands }
{
    let mut sum = 0;
    for numbered in script.commands.items() {
        sum += u64::from(numbered.command.ticks());
    }
    sum
}
