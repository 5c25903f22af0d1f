// What is said for an answer.
ghost use Rattle.std.specs.Prelude.{◌≡◌, ◌+◌, ◌*◌, ◌<◌, ◌≤◌, ◌++◌, length};
ghost use Rattle.sof_script.specs.Text.{answer_line, fault_words, found_word, values_words, bytes_word};

use host_widgets::{Answer, Found, HostFault};
use sof_base::Line;

// How something stands.
fn stand_word(found: Found) -> &'static [u8]
    ensures word { result.now ≡ found_word found }
    ensures short { length result.now ≤ 8 }
{
    match found {
        Found::Closed => b"closed",
        Found::Open => b"open",
        Found::Prepared => b"prepared",
        Found::Running => b"running",
        Found::Paused => b"paused",
        Found::On => b"on",
    }
}

/// Writes each of at most 8 values in decimal digits, after a blank, after a line of at most 100 bytes.
pub fn say_values(values: &[u32], line: &mut Line)
    requires few { length values.now ≤ 8 }
    requires room { length line.old ≤ 100 }
    ensures said { line.new ≡ line.old ++ values_words values.now }
    ensures short { length line.new ≤ length line.old + 88 }
{
    for value in values {
        line.say(b" ");
        line.say_number(*value);
    }
}

/// Writes at most 1024 bytes in hex, `-` where there are none, after a line of at most 100 bytes.
pub fn say_bytes(bytes: &[u8], line: &mut Line)
    requires few { length bytes.now ≤ 1024 }
    requires room { length line.old ≤ 100 }
    ensures said { line.new ≡ line.old ++ bytes_word bytes.now }
    ensures short { length line.new ≤ length line.old + 2048 }
{
    if bytes.is_empty() {
        line.say(b"-");
    } else {
        line.say_hex(bytes);
    }
}

// A fault's words.
fn say_fault(fault: &HostFault, line: &mut Line)
    requires { length line.old ≤ 10 }
    ensures said { line.new ≡ line.old ++ fault_words fault.now }
    ensures short { length line.new ≤ 100 }
{
    match fault {
        HostFault::NotLoaded => line.say(b" not loaded"),
        HostFault::Loaded => line.say(b" loaded"),
        HostFault::NoSuch(name) => {
            line.say(b" no such ");
            line.say(name.as_bytes());
        }
        HostFault::State(found) => {
            line.say(b" state ");
            line.say(stand_word(*found));
        }
        HostFault::Off => line.say(b" off"),
        HostFault::Range(value) => {
            line.say(b" range ");
            line.say_number(*value);
        }
        HostFault::Refused(error) => {
            line.say(b" refused ");
            line.say_signed(error.0);
        }
        HostFault::LinkDown => line.say(b" link down"),
        HostFault::Blob(number) => {
            line.say(b" blob ");
            line.say_number(u32::from(*number));
        }
    }
}

/// Writes the line of a command's answer: the number of the command's line, a blank, and the answer's words. There is room
/// for a newline after it.
pub fn write_answer(number: u32, answer: &Answer, line: &mut Line)
    ensures said { line.new ≡ answer_line number answer.now }
    ensures short { length line.new < 2304 }
{
    line.clear();
    line.say_number(number);
    match answer {
        Answer::Done => line.say(b" ok"),
        Answer::Values(values) => {
            line.say(b" value");
            say_values(values.items(), line);
        }
        Answer::Bytes(bytes) => {
            line.say(b" bytes ");
            say_bytes(bytes.items(), line);
        }
        Answer::Fault(fault) => say_fault(fault, line),
        Answer::PlanFull => line.say(b" plan full"),
        Answer::Show => line.say(b" show"),
    }
}
