// How many ticks a script makes.
ghost use Rattle.std.specs.Prelude.{◌<◌, ◌-◌, ◌^◌, length};

use sof_base::NoMemory;
use sof_faults::ShownName;
use sof_script::{Command, Script, ScriptFault, parse};
use std::alloc::Global;

/// The most ticks of a script, with those of its lags.
const MOST: u64 = 60_000;

fn ticks_of(command: &Command) -> u32 {
    match command {
        Command::Tick(ticks) => *ticks,
        Command::Lag(_, ticks) => *ticks,
        _ => 0,
    }
}

// The line at which the ticks of a script pass their limit, and their sum there.
fn past_limit(script: &Script) -> Option<(u32, u64)> {
    let mut sum: u64 = 0;
    for numbered in script.commands.items() {
        sum = sum.saturating_add(u64::from(ticks_of(&numbered.command)));
        if sum > MOST {
            return Some((numbered.line, sum));
        }
    }
    None
}

/// The sentence of a script of too many ticks, with the name of its file and the number of the line in front.
pub fn ticks_sentence(alloc: Global, file: &str, bytes: &[u8]) -> Result<Option<String>, NoMemory>
    requires { length bytes.now < 2 ^ 32 - 1 }
{
    let script = match parse(alloc, bytes) {
        Ok(script) => script,
        Err(ScriptFault::OutOfMemory) => return Err(NoMemory),
        Err(_) => return Ok(None),
    };
    let Some((line, sum)) = past_limit(&script) else {
        return Ok(None);
    };
    Ok(Some(format!(in alloc;
        "{}:{line}: ticks and lags sum to {sum} here, and a run has at most {MOST}",
        ShownName(file)
    )?))
}
