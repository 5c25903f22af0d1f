// The line of a record at fault.
ghost use Rattle.std.specs.Prelude.{◌≡◌, ◌+◌, ◌≤◌, ◌++◌, length, decimal};
ghost use Rattle.ipc3_trace.specs.FaultLines.{trace_fault_words, replay_fault_words, replay_fault_line};

use crate::fault::{ReplayFault, TraceFault};
use itoa::Buffer;
use sof_base::Line;

// A word and a place, after the bytes of the line.
fn say_at(word: &[u8], at: usize, line: &mut Line)
    requires { length line.old + length word.now + 40 ≤ 2304 }
    ensures said { line.new ≡ line.old ++ word.now ++ decimal at }
    ensures longer { length line.new ≤ length line.old + length word.now + 40 }
{
    let mut digits = Buffer::new();
    line.say(word);
    line.say(digits.format(at as u64).as_bytes());
}

// The first fault of a trace, after the bytes of the line.
fn say_trace_fault(fault: TraceFault, line: &mut Line)
    requires { length line.old ≤ 20 }
    ensures said { line.new ≡ line.old ++ trace_fault_words fault }
    ensures longer { length line.new ≤ 100 }
{
    match fault {
        TraceFault::Short(at) => say_at(b"short ", at, line),
        TraceFault::Kind(at, number) => {
            say_at(b"kind ", at, line);
            line.say(b" ");
            line.say_number(number);
        }
        TraceFault::Size(at) => say_at(b"size ", at, line),
    }
}

// The first record at fault, after the bytes of the line.
fn say_replay_fault(fault: ReplayFault, line: &mut Line)
    requires { length line.old ≤ 20 }
    ensures said { line.new ≡ line.old ++ replay_fault_words fault }
    ensures longer { length line.new ≤ 100 }
{
    match fault {
        ReplayFault::Broken(fault) => say_trace_fault(fault, line),
        ReplayFault::Order(at) => say_at(b"order ", at, line),
        ReplayFault::Lost(at) => say_at(b"lost ", at, line),
        ReplayFault::Replied(at) => say_at(b"reply ", at, line),
    }
}

/// Writes the line for the first record at fault of a trace, or of one that is given to a device, with its newline.
pub fn write_replay_fault(fault: ReplayFault, line: &mut Line)
    ensures { line.new ≡ replay_fault_line fault }
{
    line.clear();
    line.say(b"trace ");
    say_replay_fault(fault, line);
    line.say(b"\n");
}
