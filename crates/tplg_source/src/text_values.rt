// The values of keys, as TOML writes them.
ghost use Rattle.std.specs.Prelude.{◌≡◌, ◌++◌, ◌∷◌, [], decimal, codes, OnOk};
ghost use Rattle.std.specs.Fmt.{signed_decimal};
ghost use Rattle.std.specs.List.{flat_map};
ghost use Rattle.hex.specs.Hex.{encode_lower};
ghost use Rattle.tplg_source.specs.SourceText as law;

use itoa::Buffer;
use sof_base::{Name44, NoMemory};
use std::alloc::Global;

/// Bytes after those of a text.
pub fn say(out: &mut Vec<u8>, piece: &[u8]) -> Result<(), NoMemory>
    ensures { OnOk result (out.new.items ≡ out.old.items ++ piece.now) }
{
    out.extend_from_slice(piece)?;
    Ok(())
}

/// A number.
pub fn say_number(out: &mut Vec<u8>, number: u32) -> Result<(), NoMemory>
    ensures { OnOk result (out.new.items ≡ out.old.items ++ decimal number) }
{
    let mut digits = Buffer::new();
    say(out, digits.format(number).as_bytes())
}

/// A signed number.
pub fn say_signed(out: &mut Vec<u8>, number: i32) -> Result<(), NoMemory>
    ensures { OnOk result (out.new.items ≡ out.old.items ++ signed_decimal number) }
{
    let mut digits = Buffer::new();
    say(out, digits.format(number).as_bytes())
}

// Bytes in hex.
fn say_hex(alloc: Global, out: &mut Vec<u8>, bytes: &[u8]) -> Result<(), NoMemory>
    ensures { OnOk result (out.new.items ≡ out.old.items ++ encode_lower bytes.now) }
{
    let digits = hex::encode(alloc, bytes)?;
    say(out, digits.as_bytes())
}

/// Bytes in hex, between quotes.
#[tactic(auto, unfolding(crate::specs::SourceText::hex_text))]
pub fn say_hex_text(alloc: Global, out: &mut Vec<u8>, bytes: &[u8]) -> Result<(), NoMemory>
    ensures { OnOk result (out.new.items ≡ out.old.items ++ law.hex_text bytes.now) }
{
    say(out, b"\"")?;
    say_hex(alloc, out, bytes)?;
    say(out, b"\"")
}

// A byte that no text of TOML may hold, by its number.
fn say_numbered(alloc: Global, out: &mut Vec<u8>, byte: u8) -> Result<(), NoMemory>
    ensures { OnOk result (out.new.items ≡ out.old.items ++ (codes "\\u00" ++ encode_lower (byte ∷ []))) }
{
    say(out, b"\\u00")?;
    say_hex(alloc, out, &[byte])
}

// A byte between quotes.
fn say_quoted_byte(alloc: Global, out: &mut Vec<u8>, byte: u8) -> Result<(), NoMemory>
    ensures { OnOk result (out.new.items ≡ out.old.items ++ law.quoted_byte byte) }
{
    if byte == b'"' {
        return say(out, b"\\\"");
    }
    if byte == b'\\' {
        return say(out, b"\\\\");
    }
    if byte < 32 {
        return say_numbered(alloc, out, byte);
    }
    if byte == 127 {
        return say(out, b"\\u007f");
    }
    say(out, &[byte])
}

fn say_quoted_bytes(alloc: Global, out: &mut Vec<u8>, text: &[u8]) -> Result<(), NoMemory>
    ensures { OnOk result (out.new.items ≡ out.old.items ++ flat_map law.quoted_byte text.now) }
{
    for byte in text {
        say_quoted_byte(alloc, out, *byte)?;
    }
    Ok(())
}

/// A text between quotes.
#[tactic(auto, unfolding(crate::specs::SourceText::quoted))]
pub fn say_quoted(alloc: Global, out: &mut Vec<u8>, text: &[u8]) -> Result<(), NoMemory>
    ensures { OnOk result (out.new.items ≡ out.old.items ++ law.quoted text.now) }
{
    say(out, b"\"")?;
    say_quoted_bytes(alloc, out, text)?;
    say(out, b"\"")
}

// A text after a comma.
#[tactic(auto, unfolding(crate::specs::SourceText::after_comma))]
fn say_after_comma(alloc: Global, out: &mut Vec<u8>, text: &[u8]) -> Result<(), NoMemory>
    ensures { OnOk result (out.new.items ≡ out.old.items ++ law.after_comma text.now) }
{
    say(out, b", ")?;
    say_quoted(alloc, out, text)
}

fn say_rest(alloc: Global, out: &mut Vec<u8>, texts: &[Name44]) -> Result<(), NoMemory>
    ensures { OnOk result (out.new.items ≡ out.old.items ++ flat_map law.after_comma texts.now) }
{
    for text in texts {
        say_after_comma(alloc, out, text.as_bytes())?;
    }
    Ok(())
}

/// Texts in brackets.
#[tactic(auto, unfolding(crate::specs::SourceText::text_list))]
pub fn say_texts(alloc: Global, out: &mut Vec<u8>, texts: &[Name44]) -> Result<(), NoMemory>
    ensures { OnOk result (out.new.items ≡ out.old.items ++ law.text_list texts.now) }
{
    match texts {
        [] => say(out, b"[]"),
        [first, rest @ ..] => {
            say(out, b"[")?;
            say_quoted(alloc, out, first.as_bytes())?;
            say_rest(alloc, out, rest)?;
            say(out, b"]")
        }
    }
}
