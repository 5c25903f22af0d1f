// Widgets: a block each.
ghost use Rattle.std.specs.Prelude.{◌≡◌, ◌≤◌, true, length, IfOk};
ghost use Rattle.tplg_model.specs.Spelling.{IsWidget, widget_cells, IsBlock};
ghost use Rattle.tplg_build.specs.SmallSource.{is_small_widget};
ghost use Rattle.tplg_build.specs.WidgetForm.{widget_of};
ghost use Rattle.tplg_build.specs.TopologyForm as form;

use crate::blocks::block;
use crate::controls::controls;
use crate::names::copied;
use crate::source::SourceWidget;
use crate::tokens::arrays;
use sof_base::{Items, NoMemory};
use std::alloc::Global;
use tplg_model::{Block, Body, Widget};

// The widget that a source states.
fn widget(alloc: Global, stated: &SourceWidget) -> Result<Widget, NoMemory>
    requires { is_small_widget stated.now ≡ true }
    ensures value { IfOk result (λ x. x ≡ widget_of stated.now) }
    ensures is { IfOk result IsWidget }
    ensures short { IfOk result (λ x. length (widget_cells x) ≤ 4100000000) }
{
    let name = copied(&stated.name);
    let sname = copied(&stated.sname);
    let tokens = arrays(alloc, stated.numbers.items(), stated.texts.items())?;
    let controls = controls(alloc, stated.controls.items())?;
    Ok(Widget {
        id: stated.kind.number(),
        name,
        sname,
        words: [0; 6],
        event_flags: 0,
        event_type: 0,
        tokens,
        controls,
    })
}

/// The block of a widget.
pub fn widget_block(alloc: Global, stated: &SourceWidget) -> Result<Block, NoMemory>
    requires { is_small_widget stated.now ≡ true }
    ensures value { IfOk result (λ x. x ≡ form.widget_block stated.now) }
    ensures is { IfOk result IsBlock }
{
    let widget = widget(alloc, stated)?;
    let mut widgets = Items::new(alloc);
    widgets.push(widget)?;
    Ok(block(stated.index, Body::Widgets(widgets)))
}
