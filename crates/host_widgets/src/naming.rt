// Which widget a name is that of.
ghost use Rattle.std.specs.Prelude.{◌≡◌};
ghost use Rattle.host_widgets.specs.Named.{is_named};

use sof_base::Name44;
use tplg_plan::Plan;

/// Whether the widget of an id has this name.
pub fn is_named(plan: &Plan, name: &Name44, id: u32) -> bool
    ensures { result ≡ is_named plan.now name.now id }
{
    match plan.names.items().get(id as usize) {
        Some(other) => name.as_bytes() == other.as_bytes(),
        None => false,
    }
}
