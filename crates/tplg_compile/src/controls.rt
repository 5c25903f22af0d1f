// The control of a widget, by the widget's kind.
ghost use Rattle.toml.specs.View.{view, table_view};
ghost use Rattle.tplg_compile.specs.EntryOutcomes.{Finds};
ghost use Rattle.tplg_compile.specs.ValueForm as reading;
ghost use Rattle.tplg_compile.specs.ProgramValues as program_values;
ghost use Rattle.tplg_compile.specs.Entries as entries;

use crate::entry::{filled_at, needed, number_at, only, signed_at, value_at};
use crate::entry_fault::EntryFault;
use crate::keys::{EFFECT_KEYS, MUX_KEYS, PGA_KEYS};
use crate::values::{blob, name};
use sof_base::{Items, Name44};
use std::alloc::Global;
use toml::{Table, Value};
use tplg_build::{Choices, SourceControl, WidgetKind};

// The control of a pga.
#[tactic(auto, unfolding(crate::specs::Entries::stated_volume))]
fn volume(entry: &Table) -> Result<SourceControl, EntryFault>
    ensures { Finds (λ x. x) result (entries.stated_volume (table_view entry.now)) }
{
    only(entry, &PGA_KEYS)?;
    let name = filled_at(entry, "name")?;
    let channels = number_at(entry, "channels")?;
    let min = signed_at(entry, "min")?;
    let max = signed_at(entry, "max")?;
    let tlv_min = signed_at(entry, "tlv_min")?;
    let tlv_step = number_at(entry, "tlv_step")?;
    let tlv_mute = number_at(entry, "tlv_mute")?;
    Ok(SourceControl::Volume {
        name,
        channels,
        min,
        max,
        tlv_min,
        tlv_step,
        tlv_mute,
    })
}

// The names that values are, in their order.
fn names(alloc: Global, values: &[Value]) -> Result<Vec<Name44>, EntryFault>
    ensures { Finds (λ x. x.items) result (reading.each reading.name_of (program_values.viewed values.now)) }
{
    let mut names = Vec::new(alloc);
    for value in values {
        names.push(name(value)?)?;
    }
    Ok(names)
}

// The names that an array holds.
#[tactic(auto, unfolding(crate::specs::Entries::names_of))]
fn names_of(alloc: Global, value: &Value) -> Result<Vec<Name44>, EntryFault>
    ensures { Finds (λ x. x.items) result (entries.names_of (view value.now)) }
{
    match value.as_array() {
        Some(array) => names(alloc, array.as_slice()),
        None => Err(EntryFault::Misfit),
    }
}

// 1 to 16 texts.
#[tactic(auto, unfolding(crate::specs::Entries::items_of))]
fn items(alloc: Global, value: &Value) -> Result<Choices, EntryFault>
    ensures { Finds (λ x. x) result (entries.items_of (view value.now)) }
{
    let names = names_of(alloc, value)?;
    if names.is_empty() {
        return Err(EntryFault::Misfit);
    }
    if names.len() > 16 {
        return Err(EntryFault::Misfit);
    }
    Ok(Choices::of(Items::from_vec(names)))
}

// The items at a key.
#[tactic(auto, unfolding(crate::specs::ValueForm::required_at))]
fn items_at(alloc: Global, entry: &Table, key: &str) -> Result<Choices, EntryFault>
    ensures { Finds (λ x. x) result (reading.required_at entries.items_of key.now (table_view entry.now)) }
{
    items(alloc, needed(entry, key)?)
}

// The blob at a key.
#[tactic(auto, unfolding(crate::specs::ValueForm::required_at))]
fn blob_at(alloc: Global, entry: &Table, key: &str) -> Result<Items<u8>, EntryFault>
    ensures { Finds (λ x. x) result (reading.required_at reading.blob_of key.now (table_view entry.now)) }
{
    blob(alloc, needed(entry, key)?)
}

// The control of a mux.
#[tactic(auto, unfolding(crate::specs::Entries::stated_choice))]
fn choice(alloc: Global, entry: &Table) -> Result<SourceControl, EntryFault>
    ensures { Finds (λ x. x) result (entries.stated_choice (table_view entry.now)) }
{
    only(entry, &MUX_KEYS)?;
    let name = filled_at(entry, "name")?;
    let items = items_at(alloc, entry, "items")?;
    Ok(SourceControl::Choice { name, items })
}

// The control of an effect.
#[tactic(auto, unfolding(crate::specs::Entries::stated_blob))]
fn data(alloc: Global, entry: &Table) -> Result<SourceControl, EntryFault>
    ensures { Finds (λ x. x) result (entries.stated_blob (table_view entry.now)) }
{
    only(entry, &EFFECT_KEYS)?;
    let name = filled_at(entry, "name")?;
    let max = number_at(entry, "max")?;
    let blob = blob_at(alloc, entry, "blob")?;
    Ok(SourceControl::Blob { name, max, blob })
}

// The control of a widget of a kind; a misfit where such widgets have none.
fn control_by(alloc: Global, kind: WidgetKind, entry: &Table) -> Result<SourceControl, EntryFault>
    ensures { Finds (λ x. x) result (entries.stated_control kind (table_view entry.now)) }
{
    match kind {
        WidgetKind::Pga => volume(entry),
        WidgetKind::Mux => choice(alloc, entry),
        WidgetKind::Effect => data(alloc, entry),
        _ => Err(EntryFault::Misfit),
    }
}

// The control that a value is.
#[tactic(auto, unfolding(crate::specs::ValueForm::in_table))]
fn control(alloc: Global, kind: WidgetKind, value: &Value) -> Result<SourceControl, EntryFault>
    ensures { Finds (λ x. x) result (reading.in_table (entries.stated_control kind) (view value.now)) }
{
    match value.as_table() {
        Some(entry) => control_by(alloc, kind, entry),
        None => Err(EntryFault::Misfit),
    }
}

/// The control at a key that may be absent.
#[tactic(auto, unfolding(crate::specs::ValueForm::optional_at))]
pub fn optional_control_at(
    alloc: Global,
    kind: WidgetKind,
    entry: &Table,
    key: &str,
) -> Result<Option<SourceControl>, EntryFault>
    ensures { Finds (λ x. x) result (reading.optional_at (reading.in_table (entries.stated_control kind)) key.now (table_view entry.now)) }
{
    match value_at(entry, key) {
        Some(value) => Ok(Some(control(alloc, kind, value)?)),
        None => Ok(None),
    }
}
