// Lines of a source: a key and its value.
ghost use Rattle.std.specs.Prelude.{◌≡◌, ◌++◌, codes, decimal, OnOk};
ghost use Rattle.std.specs.Option.{option_copied};
ghost use Rattle.std.specs.Fmt.{signed_decimal};
ghost use Rattle.tplg_source.specs.SourceText as law;

use crate::text_values::{say, say_hex_text, say_number, say_quoted, say_signed, say_texts};
use sof_base::{Name44, NoMemory};
use std::alloc::Global;

// A key, before its value.
fn say_key(out: &mut Vec<u8>, key: &[u8]) -> Result<(), NoMemory>
    ensures { OnOk result (out.new.items ≡ out.old.items ++ (key.now ++ codes " = ")) }
{
    say(out, key)?;
    say(out, b" = ")
}

/// A key with a number.
#[tactic(auto, unfolding(crate::specs::SourceText::key_line))]
pub fn number_at_key(out: &mut Vec<u8>, key: &[u8], number: u32) -> Result<(), NoMemory>
    ensures { OnOk result (out.new.items ≡ out.old.items ++ law.key_line key.now (decimal number)) }
{
    say_key(out, key)?;
    say_number(out, number)?;
    say(out, b"\n")
}

/// A key with a signed number.
#[tactic(auto, unfolding(crate::specs::SourceText::key_line))]
pub fn signed_at_key(out: &mut Vec<u8>, key: &[u8], number: i32) -> Result<(), NoMemory>
    ensures { OnOk result (out.new.items ≡ out.old.items ++ law.key_line key.now (signed_decimal number)) }
{
    say_key(out, key)?;
    say_signed(out, number)?;
    say(out, b"\n")
}

/// A key with a text.
#[tactic(auto, unfolding(crate::specs::SourceText::key_line))]
pub fn text_at_key(
    alloc: Global,
    out: &mut Vec<u8>,
    key: &[u8],
    text: &[u8],
) -> Result<(), NoMemory>
    ensures { OnOk result (out.new.items ≡ out.old.items ++ law.key_line key.now (law.quoted text.now)) }
{
    say_key(out, key)?;
    say_quoted(alloc, out, text)?;
    say(out, b"\n")
}

/// A key with texts.
#[tactic(auto, unfolding(crate::specs::SourceText::key_line))]
pub fn texts_at_key(
    alloc: Global,
    out: &mut Vec<u8>,
    key: &[u8],
    texts: &[Name44],
) -> Result<(), NoMemory>
    ensures { OnOk result (out.new.items ≡ out.old.items ++ law.key_line key.now (law.text_list texts.now)) }
{
    say_key(out, key)?;
    say_texts(alloc, out, texts)?;
    say(out, b"\n")
}

/// A key with bytes in hex.
#[tactic(auto, unfolding(crate::specs::SourceText::key_line))]
pub fn hex_at_key(
    alloc: Global,
    out: &mut Vec<u8>,
    key: &[u8],
    bytes: &[u8],
) -> Result<(), NoMemory>
    ensures { OnOk result (out.new.items ≡ out.old.items ++ law.key_line key.now (law.hex_text bytes.now)) }
{
    say_key(out, key)?;
    say_hex_text(alloc, out, bytes)?;
    say(out, b"\n")
}

/// A key with a text that is not empty.
#[tactic(auto, unfolding(crate::specs::SourceText::filled_line))]
pub fn filled_at_key(
    alloc: Global,
    out: &mut Vec<u8>,
    key: &[u8],
    text: &[u8],
) -> Result<(), NoMemory>
    ensures { OnOk result (out.new.items ≡ out.old.items ++ law.filled_line key.now text.now) }
{
    if text.is_empty() {
        return Ok(());
    }
    text_at_key(alloc, out, key, text)
}

/// A key with a text that may be absent.
#[tactic(auto, unfolding(crate::specs::SourceText::optional_line))]
pub fn optional_at_key(
    alloc: Global,
    out: &mut Vec<u8>,
    key: &[u8],
    text: Option<&Name44>,
) -> Result<(), NoMemory>
    ensures { OnOk result (out.new.items ≡ out.old.items ++ law.optional_line key.now (option_copied text.entry)) }
{
    match text {
        Some(text) => text_at_key(alloc, out, key, text.as_bytes()),
        None => Ok(()),
    }
}
