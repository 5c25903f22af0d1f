// The rows of messages that set and get values.
ghost use Rattle.std.specs.Prelude.{◌≡◌, IfOk};
ghost use Rattle.mbox_link.specs.Step.{set_value as set_value_row, get_value as get_value_row, values_body, control_values_at};
ghost use Rattle.fw_components.specs.Tables.{graph_of};
ghost use Rattle.fw_core.specs.Answers.{IsRowOfTables};

use fw_components::Registry;
use ipc3_codec::Body;
use sof_base::{Bounded, Errno};

/// Sets the gains of a volume by command 0, the choice of a mux by command 1, and the masks of a demux by command 2. Refused with -19
/// where the id names nothing, and -22 where it takes no such values.
pub(crate) fn set_value(
    registry: &mut Registry,
    id: u32,
    command: u32,
    values: &Bounded<u32, 8>,
) -> Result<(), Errno>
    ensures { IsRowOfTables (λ f. set_value_row f id command values.now) registry.old registry.new result }
{
    registry.set_values(id, command, values.items())
}

/// The gains of a volume by command 0, the choice of a mux by command 1, and the masks of a demux by command 2. Nothing changes. Refused
/// with -19 where the id names nothing, and -22 where it has no such values.
pub(crate) fn get_value(registry: &Registry, id: u32, command: u32) -> Result<Body, Errno>
    ensures row { IsRowOfTables (λ f. get_value_row f id command) registry.now registry.now result }
    ensures body { IfOk result (λ said. said ≡ values_body (control_values_at (graph_of registry.now) id command)) }
{
    match registry.values(id, command) {
        Ok(values) => Ok(Body::Values(values)),
        Err(error) => Err(error),
    }
}
