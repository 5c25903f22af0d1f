// What stands on a line.
ghost use Rattle.std.specs.Prelude.{◌≡◌, ◌++◌, decimal, IfOk, OnOk};
ghost use Rattle.sof_script.specs.KindWords as kinds;
ghost use Rattle.tplg_picture.specs.Labels as law;

use itoa::Buffer;
use sof_base::{Items, NoMemory};
use std::alloc::Global;

/// A text of these bytes.
pub fn text_of(alloc: Global, bytes: &[u8]) -> Result<Items<u8>, NoMemory>
    ensures { IfOk result (λ text. text ≡ bytes.now) }
{
    Ok(Items::from_vec(Vec::from_slice(alloc, bytes)?))
}

/// Bytes after those of a line.
pub fn say(line: &mut Vec<u8>, piece: &[u8]) -> Result<(), NoMemory>
    ensures { OnOk result (line.new.items ≡ line.old.items ++ piece.now) }
{
    line.extend_from_slice(piece)?;
    Ok(())
}

/// A number in decimal digits after the bytes of a line.
pub fn say_number(line: &mut Vec<u8>, number: u32) -> Result<(), NoMemory>
    ensures { OnOk result (line.new.items ≡ line.old.items ++ decimal number) }
{
    let mut digits = Buffer::new();
    say(line, digits.format(number).as_bytes())
}

/// A least and a greatest number, which may be one.
#[tactic(auto, unfolding(crate::specs::Labels::span_words))]
pub fn say_span(line: &mut Vec<u8>, least: u32, greatest: u32) -> Result<(), NoMemory>
    ensures { OnOk result (line.new.items ≡ line.old.items ++ law.span_words least greatest) }
{
    say_number(line, least)?;
    if least == greatest {
        return Ok(());
    }
    say(line, b" to ")?;
    say_number(line, greatest)
}

/// The component at an end of a buffer, as the line of an edge has it.
pub fn say_end(line: &mut Vec<u8>, end: Option<u32>) -> Result<(), NoMemory>
    ensures { OnOk result (line.new.items ≡ line.old.items ++ kinds.end_words end) }
{
    match end {
        Some(id) => say_number(line, id),
        None => say(line, b"-"),
    }
}

// A byte that can be printed, or a question mark.
fn say_plain_byte(line: &mut Vec<u8>, byte: u8) -> Result<(), NoMemory>
    ensures { OnOk result (line.new.items ≡ line.old.items ++ law.plain_byte byte) }
{
    if 32 <= byte && byte <= 126 {
        return say(line, &[byte]);
    }
    say(line, b"?")
}

// A byte of a label.
fn say_escaped_byte(line: &mut Vec<u8>, byte: u8) -> Result<(), NoMemory>
    ensures { OnOk result (line.new.items ≡ line.old.items ++ law.escaped_byte byte) }
{
    match byte {
        b'"' => say(line, b"\\\""),
        b'\\' => say(line, b"\\\\"),
        b'&' => say(line, b"&amp;"),
        _ => say_plain_byte(line, byte),
    }
}

/// A text in a label.
pub fn say_escaped(line: &mut Vec<u8>, text: &[u8]) -> Result<(), NoMemory>
    ensures { OnOk result (line.new.items ≡ line.old.items ++ law.escaped text.now) }
{
    for byte in text {
        say_escaped_byte(line, *byte)?;
    }
    Ok(())
}
