// Widgets.
ghost use Rattle.std.specs.Prelude.{◌≡◌, [], unwrap_or};
ghost use Rattle.toml.specs.View.{view, table_view};
ghost use Rattle.tplg_compile.specs.EntryOutcomes.{Finds};
ghost use Rattle.tplg_compile.specs.ValueForm as reading;
ghost use Rattle.tplg_compile.specs.Entries as entries;

use crate::controls::optional_control_at;
use crate::entry::{filled_at, needed, only_with, optional_name_at};
use crate::entry_fault::EntryFault;
use crate::keys::{NUMBER_TOKENS, TEXT_TOKENS, WIDGET_KEYS};
use crate::kind::kind_named;
use crate::optional::push_some;
use crate::tokens::{numbers, texts};
use crate::values::{filled, index};
use sof_base::{Items, Name44};
use std::alloc::Global;
use toml::{Table, Value};
use tplg_build::{SourceWidget, WidgetKind, empty_name};

// The kind that a value names.
#[tactic(auto, unfolding(crate::specs::Entries::stated_kind))]
fn kind(value: &Value) -> Result<WidgetKind, EntryFault>
    ensures { Finds (λ x. x) result (entries.stated_kind (view value.now)) }
{
    let text = filled(value)?;
    match kind_named(text.as_bytes()) {
        Some(kind) => Ok(kind),
        None => Err(EntryFault::Misfit),
    }
}

// The kind at a key.
#[tactic(auto, unfolding(crate::specs::ValueForm::required_at))]
fn kind_at(entry: &Table, key: &str) -> Result<WidgetKind, EntryFault>
    ensures { Finds (λ x. x) result (reading.required_at entries.stated_kind key.now (table_view entry.now)) }
{
    kind(needed(entry, key)?)
}

// The pipeline's index at a key.
#[tactic(auto, unfolding(crate::specs::ValueForm::required_at))]
fn index_at(entry: &Table, key: &str) -> Result<u32, EntryFault>
    ensures { Finds (λ x. x) result (reading.required_at reading.index_of key.now (table_view entry.now)) }
{
    index(needed(entry, key)?)
}

// The text, or the empty one.
fn or_empty(text: Option<Name44>) -> Name44
    ensures { result ≡ unwrap_or text [] }
{
    match text {
        Some(text) => text,
        None => empty_name(),
    }
}

/// The widget that an entry states.
#[tactic(auto, unfolding(crate::specs::Entries::stated_widget))]
pub fn widget(alloc: Global, entry: &Table) -> Result<SourceWidget, EntryFault>
    ensures { Finds (λ x. x) result (entries.stated_widget (table_view entry.now)) }
{
    only_with(entry, &WIDGET_KEYS, &NUMBER_TOKENS, &TEXT_TOKENS)?;
    let kind = kind_at(entry, "kind")?;
    let name = filled_at(entry, "name")?;
    let index = index_at(entry, "index")?;
    let sname = optional_name_at(entry, "sname")?;
    let numbers = numbers(alloc, entry)?;
    let texts = texts(alloc, entry)?;
    let control = optional_control_at(alloc, kind, entry, "control")?;
    let mut controls = Items::new(alloc);
    push_some(&mut controls, control)?;
    Ok(SourceWidget {
        kind,
        name,
        sname: or_empty(sname),
        index,
        numbers,
        texts,
        controls,
    })
}
