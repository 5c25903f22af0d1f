// The rows of messages that set and get parts of an equaliser's blob.
ghost use Rattle.std.specs.Prelude.{◌≡◌, IfOk};
ghost use Rattle.mbox_link.specs.Step.{set_data, get_data, part_body, part_at};
ghost use Rattle.row_laws.specs.RowLaws.{IsPart};
ghost use Rattle.fw_components.specs.Tables.{graph_of};
ghost use Rattle.fw_core.specs.Answers.{IsRowOfTables};

use fw_components::Registry;
use ipc3_codec::Body;
use sof_base::{Errno, Part};

/// Stages a part of an equaliser's blob; the last one puts the blob in force. Refused with -19 where the id names nothing, and -22 where
/// it is no equaliser, where the part is not the one that is due, or where it is the last and makes no blob with what is staged.
pub(crate) fn set_part(registry: &mut Registry, id: u32, part: &Part) -> Result<(), Errno>
    requires { IsPart part.now }
    ensures { IsRowOfTables (λ f. set_data f id part.now) registry.old registry.new result }
{
    registry.set_part(id, part)
}

/// The part of this number of the blob in force at an equaliser. Nothing changes. Refused with -19 where the id names nothing, and -22
/// where it is no equaliser or its blob has no such part.
pub(crate) fn get_part(registry: &Registry, id: u32, index: u32) -> Result<Body, Errno>
    ensures row { IsRowOfTables (λ f. get_data f id index) registry.now registry.now result }
    ensures body { IfOk result (λ said. said ≡ part_body (part_at (graph_of registry.now) id index)) }
{
    match registry.part(id, index) {
        Ok(part) => Ok(Body::Part(part)),
        Err(error) => Err(error),
    }
}
