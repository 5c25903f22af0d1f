// The limits of the builder, within which the bytes of each block fit their word.
ghost use Rattle.std.specs.Prelude.{◌≡◌};
ghost use Rattle.std.specs.List.{list_all};
ghost use Rattle.tplg_build.specs.SmallSource as law;

use crate::source::{SourceControl, SourceWidget, TopologySource};

/// The most bytes of a blob, tokens of a kind and controls of a widget, so that a widget's bytes fit their word.
const MOST_BYTES: usize = 4_000_000;

const MOST_TOKENS: usize = 1_000_000;

const MOST_CONTROLS: usize = 1000;

/// The most widgets, so that a word can number them.
const MOST_WIDGETS: usize = 4_294_967_295;

/// The most routes, so that the bytes of all fit their word.
const MOST_ROUTES: usize = 32_000_000;

fn is_small_control(control: &SourceControl) -> bool
    ensures { result ≡ law.is_small_control control.now }
{
    match control {
        SourceControl::Blob { blob, .. } => blob.items().len() <= MOST_BYTES,
        _ => true,
    }
}

fn are_small_controls(controls: &[SourceControl]) -> bool
    ensures { result ≡ list_all law.is_small_control controls.now }
{
    controls.iter().all(|control| is_small_control(control))
}

#[tactic(auto, unfolding(crate::specs::SmallSource::is_small_widget))]
fn is_small_widget(widget: &SourceWidget) -> bool
    ensures { result ≡ law.is_small_widget widget.now }
{
    widget.numbers.items().len() <= MOST_TOKENS
        && widget.texts.items().len() <= MOST_TOKENS
        && widget.controls.items().len() <= MOST_CONTROLS
        && are_small_controls(widget.controls.items())
}

fn are_small_widgets(widgets: &[SourceWidget]) -> bool
    ensures { result ≡ list_all law.is_small_widget widgets.now }
{
    widgets.iter().all(|widget| is_small_widget(widget))
}

/// Whether a source is within the limits of the builder.
#[tactic(auto, unfolding(crate::specs::SmallSource::is_small_source))]
pub fn is_small(source: &TopologySource) -> bool
    ensures { result ≡ law.is_small_source source.now }
{
    are_small_widgets(source.widgets.items())
        && source.widgets.items().len() <= MOST_WIDGETS
        && source.routes.items().len() <= MOST_ROUTES
}
