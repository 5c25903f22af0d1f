// A text where a topology file is to be.
ghost use Rattle.std.specs.Prelude.{◌<◌, ◌-◌, ◌^◌, length};

use sof_base::NoMemory;
use sof_faults::ShownName;
use sof_script::{ScriptFault, parse};
use std::alloc::Global;
use thiserror::Error;
use toml::table_from_slice;
use tplg_compile::keys::DOCUMENT_KEYS;

// What a text is.
#[derive(Clone, Copy, Debug, Error)]
enum Text {
    #[error("it is a source: 'sof compile' makes a topology of it")]
    Source,
    #[error("it is a script, which 'sof play' takes after a topology")]
    Script,
    #[error("it is text: alsatplg compiles it")]
    Other,
}

// Whether some bytes are those of a text: no control characters but those that end and shift lines.
fn is_text(bytes: &[u8]) -> bool {
    for byte in bytes {
        let shifts = 9 <= *byte && *byte <= 13;
        if *byte == 127 || (*byte < 32 && !shifts) {
            return false;
        }
    }
    !bytes.is_empty()
}

// Whether a text is a source: a table in TOML with a key of one.
fn is_source(alloc: Global, text: &[u8]) -> Result<bool, NoMemory> {
    let table = match table_from_slice(alloc, text) {
        Ok(table) => table,
        Err(error) if error.span().is_none() => return Err(NoMemory),
        Err(_) => return Ok(false),
    };
    for key in &DOCUMENT_KEYS {
        if table.get(*key).is_some() {
            return Ok(true);
        }
    }
    Ok(false)
}

// Whether a text is a script that has a command.
fn is_script(alloc: Global, text: &[u8]) -> Result<bool, NoMemory>
    requires { length text.now < 2 ^ 32 - 1 }
{
    match parse(alloc, text) {
        Ok(script) => Ok(!script.commands.items().is_empty()),
        Err(ScriptFault::OutOfMemory) => Err(NoMemory),
        Err(_) => Ok(false),
    }
}

fn text_of(alloc: Global, text: &[u8]) -> Result<Text, NoMemory>
    requires { length text.now < 2 ^ 32 - 1 }
{
    if is_script(alloc, text)? {
        return Ok(Text::Script);
    }
    if is_source(alloc, text)? {
        Ok(Text::Source)
    } else {
        Ok(Text::Other)
    }
}

/// The sentence of a file that is a text and no topology, with its name in front; none where it is no text.
pub fn text_sentence(alloc: Global, file: &str, bytes: &[u8]) -> Result<Option<String>, NoMemory>
    requires { length bytes.now < 2 ^ 32 - 1 }
{
    if !is_text(bytes) {
        return Ok(None);
    }
    let text = text_of(alloc, bytes)?;
    Ok(Some(format!(in alloc; "{}: {text}", ShownName(file))?))
}
