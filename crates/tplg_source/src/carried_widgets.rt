// Widgets and routes.
ghost use Rattle.std.specs.Prelude.{◌≡◌, ◌==◌, ◌++◌, length, None, if◌then◌else◌, OnOk, IfOk};
ghost use Rattle.std.specs.List.{filter_map};
ghost use Rattle.std.specs.Option.{option_to_list};
ghost use Rattle.tplg_source.specs.Carried as law;

use crate::carried_controls::{carried_controls, keyed_control};
use crate::carried_tokens::{carried_numbers, carried_texts};
use crate::names::{carried_name, is_filled};
use sof_base::{Items, Name44, NoMemory};
use std::alloc::Global;
use tplg_build::{SourceRoute, SourceWidget, WidgetKind};
use tplg_compile::push_some;
use tplg_model::{Route, Widget, widget_kind};
use tplg_widgets::{process_token, role_of};

// The kind of a number, where a source has a word for it.
fn kind_numbered(id: u32) -> Option<WidgetKind>
    ensures { result ≡ law.kind_numbered id }
{
    match id {
        widget_kind::INPUT => Some(WidgetKind::Input),
        widget_kind::OUTPUT => Some(WidgetKind::Output),
        widget_kind::MUX => Some(WidgetKind::Mux),
        widget_kind::MIXER => Some(WidgetKind::Mixer),
        widget_kind::PGA => Some(WidgetKind::Pga),
        widget_kind::AIF_IN => Some(WidgetKind::AifIn),
        widget_kind::AIF_OUT => Some(WidgetKind::AifOut),
        widget_kind::DAI_IN => Some(WidgetKind::DaiIn),
        widget_kind::DAI_OUT => Some(WidgetKind::DaiOut),
        widget_kind::BUFFER => Some(WidgetKind::Buffer),
        widget_kind::SCHEDULER => Some(WidgetKind::Scheduler),
        widget_kind::EFFECT => Some(WidgetKind::Effect),
        _ => None,
    }
}

fn widget_of_kind(
    alloc: Global,
    index: u32,
    widget: &Widget,
    kind: WidgetKind,
) -> Result<SourceWidget, NoMemory>
    ensures { IfOk result (λ w. w ≡ law.widget_of_kind index widget.now kind) }
{
    let arrays = widget.tokens.items();
    let numbers = carried_numbers(alloc, arrays)?;
    let texts = carried_texts(alloc, arrays)?;
    let role = role_of(widget.id, process_token(arrays));
    let live = keyed_control(role, widget.controls.items());
    let controls = carried_controls(alloc, &widget.name, live)?;
    Ok(SourceWidget {
        kind,
        name: widget.name.copied(),
        sname: carried_name(&widget.sname),
        index,
        numbers,
        texts,
        controls,
    })
}

fn kind_carried(widget: &Widget) -> Option<WidgetKind>
    ensures { result ≡ (if length (law.carried_name widget.now.name) == 0 then None else law.kind_numbered widget.now.id) }
{
    if is_filled(&widget.name) {
        kind_numbered(widget.id)
    } else {
        None
    }
}

// A widget in a block of this index, after those that are there, where a source can carry it.
#[tactic(auto, unfolding(crate::specs::Carried::carried_widget))]
fn put_widget(
    alloc: Global,
    index: u32,
    widget: &Widget,
    out: &mut Items<SourceWidget>,
) -> Result<(), NoMemory>
    ensures { OnOk result (out.new ≡ out.old ++ option_to_list (law.carried_widget index widget.now)) }
{
    match kind_carried(widget) {
        Some(kind) => out.push(widget_of_kind(alloc, index, widget, kind)?),
        None => Ok(()),
    }
}

/// The widgets of a block.
pub fn put_widgets(
    alloc: Global,
    index: u32,
    widgets: &[Widget],
    out: &mut Items<SourceWidget>,
) -> Result<(), NoMemory>
    ensures { OnOk result (out.new ≡ out.old ++ filter_map (law.carried_widget index) widgets.now) }
{
    for widget in widgets {
        put_widget(alloc, index, widget, out)?;
    }
    Ok(())
}

fn is_carried(widgets: &[SourceWidget], name: &Name44) -> bool
    ensures { result ≡ law.is_carried widgets.now name.now }
{
    widgets
        .iter()
        .any(|widget| widget.name.as_bytes() == name.as_bytes())
}

#[tactic(auto, unfolding(crate::specs::Carried::carried_route))]
fn carried_route(widgets: &[SourceWidget], route: &Route) -> Option<SourceRoute>
    ensures { result ≡ law.carried_route widgets.now route.now }
{
    if !is_carried(widgets, &route.sink) {
        return None;
    }
    if !is_carried(widgets, &route.source) {
        return None;
    }
    Some(SourceRoute {
        source: route.source.copied(),
        sink: route.sink.copied(),
    })
}

/// The routes of a block between widgets that are carried.
pub fn put_routes(
    widgets: &[SourceWidget],
    routes: &[Route],
    out: &mut Items<SourceRoute>,
) -> Result<(), NoMemory>
    ensures { OnOk result (out.new ≡ out.old ++ filter_map (law.carried_route widgets.now) routes.now) }
{
    for route in routes {
        let carried = carried_route(widgets, route);
        push_some(out, carried)?;
    }
    Ok(())
}
