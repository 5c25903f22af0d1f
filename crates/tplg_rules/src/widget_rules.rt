// What rules 2, 8, 9, 10 and 12 say of a widget.
ghost use Rattle.std.specs.Prelude.{◌≡◌, ◌&&◌, ◌||◌, not, position};
ghost use Rattle.std.specs.List.{list_all};
ghost use Rattle.tplg_plan.specs.Printable as printable;
ghost use Rattle.tplg_plan.specs.Ranges.{is_period};
ghost use Rattle.tplg_widgets.specs.Entries.{id_of, is_interpreted};
ghost use Rattle.tplg_widgets.specs.GraphLists.{is_sink};
ghost use Rattle.tplg_widgets.specs.Names.{is_interpreted_named};
ghost use Rattle.tplg_widgets.specs.KeptNumbers.{is_number};
ghost use Rattle.tplg_rules.specs.RuleTable as law;

use crate::route_rules::id_at;
use stream_law::Join;
use tplg_widgets::{
    End, Entry, FormatToken, Widgets, is_buffer, is_dai, is_interpreted, is_scheduler,
};

fn is_printable(byte: u8) -> bool
    ensures { result ≡ printable.is_printable byte }
{
    32 <= byte && byte <= 126
}

fn all_printable(bytes: &[u8]) -> bool
    ensures { result ≡ list_all printable.is_printable bytes.now }
{
    bytes.iter().all(|b| is_printable(*b))
}

fn is_widget_name(bytes: &[u8]) -> bool
    ensures { result ≡ printable.is_widget_name bytes.now }
{
    !bytes.is_empty() && all_printable(bytes)
}

/// Whether the widget of this number, where it is interpreted, has a widget's name and is the first of it.
fn is_named_first(widgets: &Widgets, k: usize) -> bool
    ensures { result ≡ law.at widgets.now k (λ e. not (is_interpreted e) || (printable.is_widget_name e.name && is_number (position (is_interpreted_named e.name) widgets.now) k)) }
{
    match widgets.all().get(k) {
        None => true,
        Some(entry) => {
            let name = entry.name().as_bytes();
            !is_interpreted(entry) || (is_widget_name(name) && widgets.is_first(name, k))
        }
    }
}

/// Rule 2 at a widget.
pub fn name_holds(widgets: &Widgets, k: usize) -> bool
    ensures { result ≡ law.name_holds widgets.now k }
{
    is_named_first(widgets, k)
}

fn is_component_end(end: End) -> bool
    ensures { result ≡ law.is_component_end end }
{
    matches!(end, End::Component(_))
}

/// Rule 8 at a widget.
pub fn sched_holds(widgets: &Widgets, k: usize) -> bool
    ensures { result ≡ law.sched_holds widgets.now k }
{
    match widgets.all().get(k) {
        None => true,
        Some(entry) => {
            !is_scheduler(entry) || is_component_end(widgets.end_of(entry.sname().as_bytes()))
        }
    }
}

fn is_period(period: Option<u32>) -> bool
    ensures { result ≡ is_period period }
{
    match period {
        None => false,
        Some(p) => p % 1000 == 0 && 1000 <= p && p <= 10000,
    }
}

/// Rule 9 at a widget.
pub fn period_holds(entries: &[Entry], k: usize) -> bool
    ensures { result ≡ law.period_holds entries.now k }
{
    match entries.get(k) {
        None => true,
        Some(entry) => !is_scheduler(entry) || is_period(entry.tokens().period),
    }
}

fn is_own_direction(direction: Option<u32>, plays: bool) -> bool
    ensures { result ≡ law.is_own_direction direction plays }
{
    match direction {
        None => true,
        Some(d) => d == (if plays { 0 } else { 1 }),
    }
}

fn is_format(format: FormatToken) -> bool
    ensures { result ≡ law.is_format format }
{
    !matches!(format, FormatToken::Unknown)
}

/// Whether a real route ends at the widget of this number.
fn is_played(entries: &[Entry], joins: &[Join], k: usize) -> bool
    ensures { result ≡ is_sink joins.now (id_of entries.now k) }
{
    let id = id_at(entries, k);
    joins.iter().any(|j| j.sink as usize == id)
}

/// Rule 10 at a widget.
pub fn dai_holds(entries: &[Entry], joins: &[Join], k: usize) -> bool
    ensures { result ≡ law.dai_holds entries.now joins.now k }
{
    match entries.get(k) {
        None => true,
        Some(entry) => {
            !is_dai(entry)
                || (is_own_direction(entry.tokens().dai_direction, is_played(entries, joins, k))
                    && is_format(entry.tokens().format))
        }
    }
}

fn is_size(size: Option<u32>) -> bool
    ensures { result ≡ law.is_size size }
{
    match size {
        None => false,
        Some(n) => 16 <= n && n <= 16777184,
    }
}

/// Rule 12 at a widget.
pub fn size_holds(entries: &[Entry], k: usize) -> bool
    ensures { result ≡ law.size_holds entries.now k }
{
    match entries.get(k) {
        None => true,
        Some(entry) => !is_buffer(entry) || is_size(entry.tokens().size),
    }
}
