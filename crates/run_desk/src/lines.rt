// The lines that are said where files make no run.
ghost use Rattle.std.specs.Prelude.{◌≡◌, ◌+◌, ◌≤◌, ◌++◌, [], ◌∷◌, length, decimal};
ghost use Rattle.run_desk.specs.Lines.{fault_line, topology_fault_words, script_line, halt_line, halt_status, with_newline};

use crate::preparing::Halt;
use itoa::Buffer;
use sof_script::{Line, cause_word};
use tplg_read::TplgFault;

/// A number in decimal digits, after the bytes of the line.
pub fn say_digits(number: u64, line: &mut Line)
    requires { length line.old + 40 ≤ 2304 }
    ensures said { line.new ≡ line.old ++ decimal number }
    ensures longer { length line.new ≤ length line.old + 40 }
{
    let mut digits = Buffer::new();
    line.say(digits.format(number).as_bytes());
}

// A word and a place, after the bytes of the line.
fn say_at(word: &[u8], at: usize, line: &mut Line)
    requires { length line.old + length word.now + 40 ≤ 2304 }
    ensures said { line.new ≡ line.old ++ word.now ++ decimal at }
    ensures longer { length line.new ≤ length line.old + length word.now + 40 }
{
    line.say(word);
    say_digits(at as u64, line);
}

// A word, a place and the number that was found there.
fn say_found(word: &[u8], at: usize, found: u32, line: &mut Line)
    requires { length line.old + length word.now + 60 ≤ 2304 }
    ensures said { line.new ≡ line.old ++ word.now ++ decimal at ++ (32 ∷ []) ++ decimal found }
    ensures longer { length line.new ≤ length line.old + length word.now + 60 }
{
    say_at(word, at, line);
    line.say(b" ");
    line.say_number(found);
}

fn say_fault(fault: TplgFault, line: &mut Line)
    requires { length line.old ≤ 20 }
    ensures said { line.new ≡ line.old ++ topology_fault_words fault }
    ensures longer { length line.new ≤ 100 }
{
    match fault {
        TplgFault::Magic(at) => say_at(b"magic ", at, line),
        TplgFault::Abi(at, found) => say_found(b"abi ", at, found, line),
        TplgFault::HeaderSize(at) => say_at(b"header ", at, line),
        TplgFault::Truncated(at) => say_at(b"truncated ", at, line),
        TplgFault::Payload(at) => say_at(b"payload ", at, line),
        TplgFault::Name(at) => say_at(b"name ", at, line),
        TplgFault::ControlKind(at, found) => say_found(b"control ", at, found, line),
        TplgFault::Tokens(at) => say_at(b"tokens ", at, line),
        TplgFault::OutOfMemory => {}
    }
}

// The line of a fault of a topology file, with its newline.
fn write_fault(fault: TplgFault, line: &mut Line)
    ensures { line.new ≡ fault_line fault }
{
    line.clear();
    line.say(b"topology ");
    say_fault(fault, line);
    line.say(b"\n");
}

// The line of a script's line at fault, with its newline.
fn write_script(number: u32, cause: &[u8], line: &mut Line)
    requires { length cause.now ≤ 20 }
    ensures { line.new ≡ script_line number cause.now }
{
    line.clear();
    line.say(b"script ");
    line.say_number(number);
    line.say(b" ");
    line.say(cause);
    line.say(b"\n");
}

// The line of too many ticks, with its newline.
fn write_ticks(sum: u64, line: &mut Line)
    ensures { line.new ≡ halt_line (Halt.Ticks sum) }
{
    line.clear();
    line.say(b"ticks ");
    say_digits(sum, line);
    line.say(b"\n");
}

/// Writes the line of a rule of a topology that fails, after a word, with its newline.
pub fn write_rule(word: &[u8], rule: u8, item: u32, line: &mut Line)
    requires { length word.now ≤ 20 }
    ensures { line.new ≡ with_newline (word.now ++ decimal rule ++ (32 ∷ []) ++ decimal item) }
{
    line.clear();
    line.say(word);
    line.say_number(rule as u32);
    line.say(b" ");
    line.say_number(item);
    line.say(b"\n");
}

/// Writes the line for files that make no run, with its newline.
pub fn write_halt(halt: Halt, line: &mut Line)
    ensures { line.new ≡ halt_line halt }
{
    match halt {
        Halt::Script {
            line: number,
            cause,
        } => write_script(number, cause_word(cause).as_bytes(), line),
        Halt::Ticks(sum) => write_ticks(sum, line),
        Halt::Broken(fault) => write_fault(fault, line),
        Halt::Rule { rule, item } => write_rule(b"topology rule ", rule, item, line),
        Halt::Binding { line: number } => write_script(number, b"binding", line),
        Halt::OutOfMemory => {
            line.clear();
            line.say(b"no memory\n");
        }
    }
}

impl Halt {
    /// The status of a run that ends so.
    pub fn status(self) -> u8
        ensures { result ≡ halt_status self }
    {
        match self {
            Halt::Script { .. } | Halt::Binding { .. } => 4,
            Halt::Ticks(_) => 8,
            Halt::Broken(_) | Halt::Rule { .. } => 2,
            Halt::OutOfMemory => 7,
        }
    }
}
