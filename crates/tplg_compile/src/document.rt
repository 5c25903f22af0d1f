// A document: its lists, and what their entries state.
ghost use Rattle.std.specs.Prelude.{◌≡◌, ◌<◌, ◌^◌, length, Option};
ghost use Rattle.toml.specs.Data.{Members};
ghost use Rattle.tplg_compile.specs.declared.source_fault.List.{List as ListName};
ghost use Rattle.tplg_compile.specs.declared.source_fault.List.TheVariants as list_name;
ghost use Rattle.toml.specs.View.{view, table_view};
ghost use Rattle.tplg_compile.specs.EntryOutcomes.{Finds};
ghost use Rattle.tplg_compile.specs.Results.{AnswerIs};
ghost use Rattle.tplg_compile.specs.ValueForm.{in_table};
ghost use Rattle.tplg_compile.specs.ProgramValues.{viewed};
ghost use Rattle.tplg_compile.specs.Entries.{stated_widget, stated_route, stated_pcm};
ghost use Rattle.tplg_compile.specs.DocumentLists as lists;
ghost use Rattle.tplg_compile.specs.NumberedEntries as numbered_entries;
ghost use Rattle.tplg_compile.specs.InOrder as source;

use crate::entry::{only, value_at};
use crate::entry_fault::EntryFault;
use crate::keys::DOCUMENT_KEYS;
use crate::pcms::pcm;
use crate::routes::route;
use crate::source_fault::{List, SourceFault};
use crate::widgets::widget;
use sof_base::Items;
use std::alloc::Global;
use toml::{Table, Value};
use tplg_build::{SourcePcm, SourceRoute, SourceWidget, TopologySource};

// The entries of the lists of a document.
#[derive(Clone, Copy)]
struct Entries<'a> {
    widgets: &'a [Value],
    routes: &'a [Value],
    pcms: &'a [Value],
}

// Whether each value is a table.
fn are_tables(values: &[Value]) -> bool
    ensures { result ≡ lists.are_tables (viewed values.now) }
{
    for value in values {
        if !value.is_table() {
            return false;
        }
    }
    true
}

// The entries of a value, an array of tables.
#[tactic(auto, unfolding(crate::specs::DocumentLists::entries_of))]
fn tables(value: &Value) -> Result<&[Value], EntryFault>
    ensures { Finds (λ x. viewed x.now) result (lists.entries_of (view value.now)) }
{
    let Some(array) = value.as_array() else {
        return Err(EntryFault::Misfit);
    };
    if !are_tables(array.as_slice()) {
        return Err(EntryFault::Misfit);
    }
    Ok(array.as_slice())
}

// The entries of a list, which may be absent.
#[tactic(auto, unfolding(crate::specs::DocumentLists::entries_at))]
fn entries_at<'a>(table: &'a Table, key: &str) -> Result<&'a [Value], EntryFault>
    ensures { Finds (λ x. viewed x.now) result (lists.entries_at key.now (table_view table.now)) }
{
    match value_at(table, key) {
        Some(value) => tables(value),
        None => Ok(&[]),
    }
}

// The entries of the three lists.
#[tactic(auto, unfolding(crate::specs::DocumentLists::lists_of))]
fn entries_of(table: &Table) -> Result<Entries<'_>, EntryFault>
    ensures { Finds (λ x. record { widgets = viewed x.widgets.now; routes = viewed x.routes.now; pcms = viewed x.pcms.now }) result (lists.lists_of (table_view table.now)) }
{
    only(table, &DOCUMENT_KEYS)?;
    let widgets = entries_at(table, "widget")?;
    let routes = entries_at(table, "route")?;
    let pcms = entries_at(table, "pcm")?;
    Ok(Entries {
        widgets,
        routes,
        pcms,
    })
}

// What the entries of a list state.
trait EntryList {
    type Record: Drop;

    ghost list: { ListName };

    ghost read: { Members → Option Self.Record };

    fn list() -> List
        ensures { result ≡ Self.list };

    fn record(alloc: Global, entry: &Table) -> Result<Self::Record, EntryFault>
        ensures { Finds (λ x. x) result (Self.read (table_view entry.now)) };
}

struct Widgets;

impl EntryList for Widgets {
    type Record = SourceWidget;

    ghost list = { list_name.Widget };

    ghost read = { stated_widget };

    fn list() -> List {
        List::Widget
    }

    fn record(alloc: Global, entry: &Table) -> Result<SourceWidget, EntryFault> {
        widget(alloc, entry)
    }
}

struct Routes;

impl EntryList for Routes {
    type Record = SourceRoute;

    ghost list = { list_name.Route };

    ghost read = { stated_route };

    fn list() -> List {
        List::Route
    }

    fn record(_alloc: Global, entry: &Table) -> Result<SourceRoute, EntryFault> {
        route(entry)
    }
}

struct Pcms;

impl EntryList for Pcms {
    type Record = SourcePcm;

    ghost list = { list_name.Pcm };

    ghost read = { stated_pcm };

    fn list() -> List {
        List::Pcm
    }

    fn record(_alloc: Global, entry: &Table) -> Result<SourcePcm, EntryFault> {
        pcm(entry)
    }
}

// What an entry states.
#[tactic(auto, unfolding(crate::specs::ValueForm::in_table))]
fn record<L: EntryList>(alloc: Global, entry: &Value) -> Result<L::Record, EntryFault>
    ensures { Finds (λ x. x) result (in_table L.read (view entry.now)) }
{
    let Some(entry) = entry.as_table() else {
        return Err(EntryFault::Misfit);
    };
    L::record(alloc, entry)
}

// The fault of an entry at a place of a list.
fn told(fault: EntryFault, list: List, entry: u32) -> SourceFault
    ensures { result ≡ source.entry_fault_at fault list entry }
{
    match fault {
        EntryFault::Misfit => SourceFault::Shape { list, entry },
        EntryFault::OutOfMemory => SourceFault::OutOfMemory,
    }
}

// What the entries of a list state, up to the first at fault.
fn records<L: EntryList>(alloc: Global, entries: &[Value]) -> Result<Vec<L::Record>, SourceFault>
    requires { length entries.now < 2 ^ 32 }
    ensures { AnswerIs (λ x. x.items) result (source.entries_read L.list (in_table L.read) 0 (viewed entries.now)) }
{
    let mut records = Vec::new(alloc);
    for (place, entry) in entries.iter().enumerate() {
        match record::<L>(alloc, entry) {
            Ok(record) => records.push(record)?,
            Err(fault) => return Err(told(fault, L::list(), place as u32)),
        }
    }
    Ok(records)
}

/// What a document states, or its first fault.
#[tactic(auto, unfolding(crate::specs::InOrder::source_of))]
pub fn stated(alloc: Global, table: &Table) -> Result<TopologySource, SourceFault>
    requires { numbered_entries.HasNumberedEntries (table_view table.now) }
    ensures { AnswerIs (λ x. x) result (source.source_of (table_view table.now)) }
{
    let entries = match entries_of(table) {
        Ok(entries) => entries,
        Err(fault) => return Err(told(fault, List::Top, 0)),
    };
    let widgets = records::<Widgets>(alloc, entries.widgets)?;
    let routes = records::<Routes>(alloc, entries.routes)?;
    let pcms = records::<Pcms>(alloc, entries.pcms)?;
    Ok(TopologySource {
        widgets: Items::from_vec(widgets),
        routes: Items::from_vec(routes),
        pcms: Items::from_vec(pcms),
    })
}
