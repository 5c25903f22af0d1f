// What is wrong with a source.
ghost use Rattle.std.specs.Prelude.{◌≤◌, length};

use crate::rule_fault::RuleFault;
use crate::shown::{Shown, ShownName};
use sof_base::NoMemory;
use std::alloc::Global;
use std::fmt;
use std::fmt::Display;
use thiserror::Error;
use toml::{Table, Value};
use tplg_compile::keys::{
    DOCUMENT_KEYS, EFFECT_KEYS, MUX_KEYS, NUMBER_TOKENS, PCM_KEYS, PGA_KEYS, ROUTE_KEYS,
    TEXT_TOKENS, WIDGET_KEYS,
};
use tplg_compile::values::{blob, filled, index, name, number, signed};
use tplg_compile::{EntryFault, List, SourceFault, compile, kind_named, unruled};
use tplg_widgets::Wiring;

/// What a key of an entry takes.
#[derive(Clone, Copy, Debug, Error)]
enum Takes {
    #[error("a number from 0 to 4294967295")]
    Number,
    #[error("a number from 0 to 65535")]
    Index,
    #[error("a number from -2147483648 to 2147483647")]
    Signed,
    #[error("a text of at most 43 bytes, none of them 0")]
    Text,
    #[error("a text of 1 to 43 bytes, none of them 0")]
    Filled,
    #[error("a text of two hex digits for each byte")]
    Hex,
    #[error("input, output, mux, mixer, pga, aif_in, aif_out, dai_in, dai_out, buffer, scheduler or effect")]
    Kind,
    #[error("an array of s16le, s24le and s32le")]
    Formats,
    #[error("an array of 1 to 16 texts of at most 43 bytes, none of them 0")]
    Items,
    #[error("a table, for a pga, a mux or an effect")]
    Control,
    #[error("an array of tables")]
    Tables,
}

impl Takes {
    // Whether a value is one that is taken, but for what stands in a control.
    fn takes(self, alloc: Global, value: &Value) -> Result<bool, NoMemory> {
        let taken = match self {
            Takes::Number => number(value).is_ok(),
            Takes::Index => index(value).is_ok(),
            Takes::Signed => signed(value).is_ok(),
            Takes::Text => name(value).is_ok(),
            Takes::Filled => filled(value).is_ok(),
            Takes::Hex => match blob(alloc, value) {
                Err(EntryFault::OutOfMemory) => return Err(NoMemory),
                hex => hex.is_ok(),
            },
            Takes::Kind => match filled(value) {
                Ok(kind) => kind_named(kind.as_bytes()).is_some(),
                Err(_) => false,
            },
            Takes::Formats => items_of(value, Item::Format).is_some(),
            Takes::Items => match items_of(value, Item::Name) {
                Some(items) => 1 <= items.len() && items.len() <= 16,
                None => false,
            },
            Takes::Control => value.is_table(),
            Takes::Tables => items_of(value, Item::Table).is_some(),
        };
        Ok(taken)
    }
}

// What each item of an array is.
#[derive(Clone, Copy)]
enum Item {
    Format,
    Name,
    Table,
}

fn is_item(item: Item, value: &Value) -> bool {
    match item {
        Item::Format => match value.as_str() {
            Some(text) => matches!(text, "s16le" | "s24le" | "s32le"),
            None => false,
        },
        Item::Name => name(value).is_ok(),
        Item::Table => value.is_table(),
    }
}

// The items of an array of such items; none where a value is no such array.
fn items_of(value: &Value, item: Item) -> Option<&[Value]> {
    let items = value.as_array()?.as_slice();
    for value in items {
        if !is_item(item, value) {
            return None;
        }
    }
    Some(items)
}

/// What is wrong at a key.
#[derive(Clone, Copy, Debug, Error)]
enum KeyFault<'a> {
    #[error("unknown key '{}'", Shown(.0.as_bytes()))]
    Unknown(&'a str),
    #[error("the key '{0}' is missing")]
    Wanting(&'static str),
    #[error("'{key}' takes {takes}")]
    Value { key: &'static str, takes: Takes },
    #[error("a widget of this kind has no control")]
    NoControl,
}

/// What is wrong in an entry, or in its control.
#[derive(Clone, Copy, Debug, Error)]
enum Fault<'a> {
    #[error("{0}")]
    Entry(KeyFault<'a>),
    #[error("control: {0}")]
    Control(KeyFault<'a>),
}

// What keys take, but those that take a number.
const TAKES: [(Takes, &[&str]); 10] = [
    (Takes::Kind, &["kind"]),
    (Takes::Filled, &["name", "sink", "source"]),
    (Takes::Index, &["index"]),
    (
        Takes::Text,
        &[
            "sname", "playback", "capture", "dai_type", "format", "process",
        ],
    ),
    (Takes::Control, &["control"]),
    (Takes::Signed, &["min", "tlv_min"]),
    (Takes::Items, &["items"]),
    (Takes::Hex, &["blob"]),
    (Takes::Formats, &["formats"]),
    (Takes::Tables, &["widget", "route", "pcm"]),
];

// The keys, but those of tokens, that may be absent.
const OPTIONAL: [&str; 7] = [
    "sname", "control", "playback", "capture", "widget", "route", "pcm",
];

// What a key takes; `max` is signed at a pga's control.
fn takes_at(keys: &[&str], key: &str) -> Takes {
    if key == "max" && keys.len() == PGA_KEYS.len() {
        return Takes::Signed;
    }
    for (takes, named) in &TAKES {
        if named.contains(&key) {
            return *takes;
        }
    }
    Takes::Number
}

// Whether a key is that of a token.
fn is_token(key: &str) -> bool {
    NUMBER_TOKENS.iter().any(|token| token.key == key)
        || TEXT_TOKENS.iter().any(|token| token.key == key)
}

// What is wrong with the value at a key, where there is one.
fn value_fault(
    alloc: Global,
    table: &Table,
    keys: &[&'static str],
    key: &'static str,
) -> Result<Option<KeyFault<'static>>, NoMemory> {
    let Some(value) = table.get(key) else {
        return Ok(None);
    };
    let takes = takes_at(keys, key);
    if takes.takes(alloc, value)? {
        return Ok(None);
    }
    Ok(Some(KeyFault::Value { key, takes }))
}

// What is wrong in a table that takes these keys and, if `tokens`, those of tokens.
fn table_fault<'a>(
    alloc: Global,
    table: &'a Table,
    keys: &[&'static str],
    tokens: bool,
) -> Result<Option<KeyFault<'a>>, NoMemory> {
    for key in table.keys() {
        let key = key.as_str();
        if !keys.contains(&key) && !(tokens && is_token(key)) {
            return Ok(Some(KeyFault::Unknown(key)));
        }
    }
    for key in keys {
        if !OPTIONAL.contains(key) && table.get(*key).is_none() {
            return Ok(Some(KeyFault::Wanting(*key)));
        }
        if let Some(fault) = value_fault(alloc, table, keys, *key)? {
            return Ok(Some(fault));
        }
    }
    if tokens {
        for token in NUMBER_TOKENS.iter().chain(TEXT_TOKENS.iter()) {
            if let Some(fault) = value_fault(alloc, table, keys, token.key)? {
                return Ok(Some(fault));
            }
        }
    }
    Ok(None)
}

// The keys of the control of a widget.
fn control_keys(widget: &Table) -> Option<&'static [&'static str]> {
    match widget.get("kind")?.as_str()? {
        "pga" => Some(&PGA_KEYS),
        "mux" => Some(&MUX_KEYS),
        "effect" => Some(&EFFECT_KEYS),
        _ => None,
    }
}

// What is wrong in the control of a widget whose own keys are right.
fn control_fault(alloc: Global, widget: &Table) -> Result<Option<Fault<'_>>, NoMemory> {
    let Some(control) = widget.get("control") else {
        return Ok(None);
    };
    let Some(keys) = control_keys(widget) else {
        return Ok(Some(Fault::Entry(KeyFault::NoControl)));
    };
    let Some(control) = control.as_table() else {
        return Ok(None);
    };
    match table_fault(alloc, control, keys, false)? {
        Some(fault) => Ok(Some(Fault::Control(fault))),
        None => Ok(None),
    }
}

// What is wrong with an entry of a list.
fn entry_fault(alloc: Global, list: List, entry: &Table) -> Result<Option<Fault<'_>>, NoMemory> {
    let own = match list {
        List::Top => table_fault(alloc, entry, &DOCUMENT_KEYS, false)?,
        List::Widget => table_fault(alloc, entry, &WIDGET_KEYS, true)?,
        List::Route => table_fault(alloc, entry, &ROUTE_KEYS, false)?,
        List::Pcm => table_fault(alloc, entry, &PCM_KEYS, false)?,
    };
    match (own, list) {
        (Some(fault), _) => Ok(Some(Fault::Entry(fault))),
        (None, List::Widget) => control_fault(alloc, entry),
        (None, _) => Ok(None),
    }
}

// The key of a list in a document.
fn list_key(list: List) -> &'static str {
    match list {
        List::Top => "",
        List::Widget => "widget",
        List::Route => "route",
        List::Pcm => "pcm",
    }
}

// The text at a key, empty where there is none.
fn text_at<'a>(entry: &'a Table, key: &str) -> &'a str {
    match entry.get(key) {
        Some(value) => value.as_str().unwrap_or(""),
        None => "",
    }
}

// An entry by its list, its number, and what it is called.
#[derive(Clone, Copy)]
struct EntryName<'a> {
    list: List,
    number: u32,
    entry: &'a Table,
}

impl Display for EntryName<'_> {
    fn fmt<W: fmt::Write>(&self, f: &mut fmt::Formatter<W>) -> fmt::Result {
        let (number, entry) = (self.number, self.entry);
        match self.list {
            List::Top => write!(f, "the document"),
            List::Route => write!(
                f,
                "route {number} ({} to {})",
                Shown(text_at(entry, "source").as_bytes()),
                Shown(text_at(entry, "sink").as_bytes())
            ),
            list => write!(
                f,
                "{} {number} ({})",
                list_key(list),
                Shown(text_at(entry, "name").as_bytes())
            ),
        }
    }
}

// The entry of a list and a number in a document.
fn entry_at(document: &Table, list: List, number: u32) -> Option<&Table> {
    match list {
        List::Top => Some(document),
        list => document
            .get(list_key(list))?
            .as_array()?
            .get(number as usize)?
            .as_table(),
    }
}

// The line of a place in a text, from 1.
fn line_at(text: &[u8], place: usize) -> usize {
    text.iter()
        .take(place)
        .filter(|byte| **byte == b'\n')
        .count()
        .saturating_add(1)
}

// The sentence of a text that is no TOML.
fn syntax(alloc: Global, file: &str, text: &[u8]) -> Result<Option<String>, NoMemory> {
    let Err(error) = toml::table_from_slice(alloc, text) else {
        return Ok(None);
    };
    let Some(span) = error.span() else {
        return Err(NoMemory);
    };
    let line = line_at(text, span.start);
    Ok(Some(format!(in alloc; "{}:{line}: {}", ShownName(file), error.message())?))
}

// The sentence of an entry at fault.
fn shape(
    alloc: Global,
    file: &str,
    text: &[u8],
    list: List,
    number: u32,
) -> Result<Option<String>, NoMemory> {
    let Ok(document) = toml::table_from_slice(alloc, text) else {
        return Ok(None);
    };
    let Some(entry) = entry_at(&document, list, number) else {
        return Ok(None);
    };
    let Some(fault) = entry_fault(alloc, list, entry)? else {
        return Ok(None);
    };
    let name = EntryName {
        list,
        number,
        entry,
    };
    Ok(Some(format!(in alloc; "{}: {name}: {fault}", ShownName(file))?))
}

// The sentence of a rule that the topology of a source breaks.
fn rule(
    alloc: Global,
    file: &str,
    text: &[u8],
    rule: u8,
    item: u32,
) -> Result<Option<String>, NoMemory>
    requires { length text.now ≤ 1048576 }
{
    let topology = match unruled(alloc, text) {
        Ok(topology) => topology,
        Err(SourceFault::OutOfMemory) => return Err(NoMemory),
        Err(_) => return Ok(None),
    };
    let wiring = Wiring::of(alloc, &topology)?;
    let fault = RuleFault {
        rule,
        item,
        topology: &topology,
        wiring: &wiring,
    };
    Ok(Some(format!(in alloc; "{}: {fault}", ShownName(file))?))
}

/// The sentence of the fault of a source, with the name of its file in front; none where nothing is wrong.
pub fn source_sentence(alloc: Global, file: &str, text: &[u8]) -> Result<Option<String>, NoMemory>
    requires { length text.now ≤ 1048576 }
{
    match compile(alloc, text) {
        Ok(_) => Ok(None),
        Err(SourceFault::Syntax) => syntax(alloc, file, text),
        Err(SourceFault::Shape { list, entry }) => shape(alloc, file, text, list, entry),
        Err(SourceFault::Rule { rule: broken, item }) => rule(alloc, file, text, broken, item),
        Err(SourceFault::OutOfMemory) => Err(NoMemory),
    }
}
