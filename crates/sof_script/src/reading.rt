// Reading a script.
ghost use Rattle.std.specs.Prelude.{◌≡◌, ◌⊎◌, ◌+◌, ◌-◌, ◌<◌, ◌≤◌, ◌^◌, length, IfOk, MatchResult, OnOk, Result};
ghost use Rattle.sof_script.specs.Commands.{Read, script_of, with_item};
ghost use Rattle.sof_script.specs.ScriptRead.{script_read, behind};
ghost use Rattle.sof_script.specs.Faults.{AllRight, IsToldOf};
ghost use Rattle.sof_script.specs.Splitting.{lines_of};

use crate::fault_causes::cause_word;
use crate::items::{Item, read_line};
use crate::lines::{before_return, first_line};
use crate::script::{Binding, Numbered, Script};
use sof_base::{Items, NoMemory};
use std::alloc::Global;
use thiserror::Error;

/// Why there is no script.
#[derive(Clone, Copy, Debug, PartialEq, Eq, Error)]
pub enum ScriptFault {
    /// The first line at fault, from 1, and its least cause: 1 a byte, 2 a quote, 3 the word, 4 the count of tokens,
    /// 5 a number or format, 6 hex, 7 a name or file.
    #[error("line {line}: {word}", word = cause_word(*.cause))]
    Line { line: u32, cause: u8 },
    /// There was no memory.
    #[error("out of memory")]
    OutOfMemory,
}

// One more item of a script.
fn add(alloc: Global, script: &mut Script, line: u32, next: Item<'_>) -> Result<(), NoMemory>
    ensures added { (read : Result Read ScriptFault) → OnOk result
        (behind (script_read script.old) (with_item line (Ok next.entry) read) ≡ behind (script_read script.new) read) }
    ensures one { length script.new.commands ≤ length script.old.commands + 1 }
{
    match next {
        Item::Nothing => Ok(()),
        Item::Bind {
            input,
            endpoint,
            file,
        } => {
            let file = file.to_text(alloc)?;
            script.bindings.push(Binding {
                line,
                input,
                endpoint,
                file,
            })
        }
        Item::Do(command) => script.commands.push(Numbered { line, command }),
    }
}

/// The bindings and the commands of a script's lines, which are numbered from 1.
///
/// A fault is that of the first line at fault, with its least cause.
pub fn parse(alloc: Global, bytes: &[u8]) -> Result<Script, ScriptFault>
    requires { length bytes.now < 2 ^ 32 - 1 }
    ensures read { MatchResult result
        (λ script. script_of bytes.now ≡ Ok (script_read script))
        (λ fault. (fault ≡ ScriptFault.OutOfMemory) ⊎ (script_of bytes.now ≡ Err fault)) }
    ensures few { IfOk result (λ script. length script.commands < 2 ^ 32) }
    ensures first { MatchResult result (λ _. AllRight (lines_of bytes.now)) (λ fault. IsToldOf bytes.now fault) }
{
    let mut script = Script {
        bindings: Items::new(alloc),
        commands: Items::new(alloc),
    };
    let mut rest = bytes;
    let mut number = 1;
    while !rest.is_empty() {
        let (line, behind) = first_line(rest);
        let read = match read_line(alloc, before_return(line)) {
            Ok(read) => read,
            Err(NoMemory) => return Err(ScriptFault::OutOfMemory),
        };
        let next = match read {
            Ok(next) => next,
            Err(cause) => {
                return Err(ScriptFault::Line {
                    line: number,
                    cause: cause.number(),
                });
            }
        };
        if let Err(NoMemory) = add(alloc, &mut script, number, next) {
            return Err(ScriptFault::OutOfMemory);
        }
        rest = behind;
        number += 1;
    }
    Ok(script)
}
