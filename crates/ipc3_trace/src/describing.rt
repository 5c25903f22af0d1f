// What is said of a record.
ghost use Rattle.std.specs.Prelude.{◌≡◌, ◌+◌, ◌-◌, ◌*◌, ◌/◌, ◌<◌, ◌≤◌, ◌++◌, length};
ghost use Rattle.ipc3_model.specs.Messages.{command_of, decoded};
ghost use Rattle.ipc3_trace.specs.EntryLines.{command_name, words_said, words_within, request_words, reply_error, entry_line};

use crate::entry::Entry;
use ipc3_codec::{Message, decode};
use sof_base::{Line, word, word_at};

// The name of a message's command.
fn name(message: &Message) -> &'static [u8]
    ensures name { result.now ≡ command_name (command_of message.now) }
    ensures short { length result.now ≤ 13 }
{
    match message {
        Message::CompNew { .. } => b"COMP_NEW",
        Message::CompFree { .. } => b"COMP_FREE",
        Message::BufferNew { .. } => b"BUFFER_NEW",
        Message::BufferFree { .. } => b"BUFFER_FREE",
        Message::PipeNew { .. } => b"PIPE_NEW",
        Message::PipeFree { .. } => b"PIPE_FREE",
        Message::Connect { .. } => b"CONNECT",
        Message::PipeComplete { .. } => b"PIPE_COMPLETE",
        Message::SetValue { .. } => b"SET_VALUE",
        Message::GetValue { .. } => b"GET_VALUE",
        Message::SetData { .. } => b"SET_DATA",
        Message::GetData { .. } => b"GET_DATA",
        Message::PcmParams { .. } => b"PCM_PARAMS",
        Message::PcmFree { .. } => b"PCM_FREE",
        Message::TrigStart { .. } => b"TRIG_START",
        Message::TrigStop { .. } => b"TRIG_STOP",
        Message::TrigPause { .. } => b"TRIG_PAUSE",
        Message::TrigRelease { .. } => b"TRIG_RELEASE",
        Message::CtxSave => b"CTX_SAVE",
    }
}

// The words of a message after its header, each with its place, up to its size.
fn say_words(bytes: &[u8], size: usize, line: &mut Line)
    requires there { (8 ≤ size) × (size ≤ length bytes.now) × (size ≤ 384) }
    requires room { length line.old ≤ 100 }
    ensures said { line.new ≡ line.old ++ words_said ((size - 8) / 4) bytes.now 8 }
    ensures short { length line.new ≤ length line.old + 22 * 94 }
{
    for i in 0..(size - 8) / 4 {
        let at = 8 + 4 * i;
        line.say(b" ");
        line.say_number(at as u32);
        line.say(b"=");
        line.say_number(word(bytes, at));
    }
}

// A message's name and words, or the number of its fault.
fn say_request(bytes: &[u8], line: &mut Line)
    requires { length line.old ≡ 0 }
    ensures said { line.new ≡ line.old ++ request_words bytes.now (decoded bytes.now) }
    ensures short { length line.new < 2304 }
{
    match decode(bytes) {
        Ok(message) => {
            line.say(b"request ");
            line.say(name(&message));
            say_words(bytes, word(bytes, 0) as usize, line);
        }
        Err(fault) => {
            line.say(b"request bad ");
            line.say_number(u32::from(fault.number()));
        }
    }
}

// The error of a reply.
fn error(reply: &[u8]) -> i32
    ensures { result ≡ reply_error reply.now }
{
    match word_at(reply, 8) {
        Some(word) => word.cast_signed(),
        None => 0,
    }
}

/// Writes the line of a record, without a newline, for which there is room.
pub fn describe(entry: &Entry, line: &mut Line)
    ensures said { line.new ≡ entry_line entry.now }
    ensures short { length line.new < 2304 }
{
    line.clear();
    match entry {
        Entry::Boot(heap) => {
            line.say(b"boot ");
            line.say_number(*heap);
        }
        Entry::Cut => line.say(b"cut"),
        Entry::Request(message) => say_request(message.items(), line),
        Entry::Reply(reply) => {
            line.say(b"reply ");
            line.say_signed(error(reply.items()));
        }
        Entry::Tick => line.say(b"tick"),
        Entry::Lost => line.say(b"lost"),
    }
}
