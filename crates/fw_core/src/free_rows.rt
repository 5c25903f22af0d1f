// The rows of messages that free a component, a buffer or a pipeline.
ghost use Rattle.fw_pipeline.specs.Rows.{row_of_free};
ghost use Rattle.fw_core.specs.Held.{IsPieceHeld};
ghost use Rattle.fw_core.specs.Answers.{IsRow};

use fw_components::{Registry, removals_are_seen};
use fw_heap::Region;
use fw_pipeline::{Item, free_item};
use sof_base::Errno;

/// A component, a buffer or a pipeline is gone. Refused with -19 where the id names nothing, -16 where the pipeline of a component or a
/// buffer is complete, and -22 where it is not of this kind, where a component is joined, and where a buffer, or something of a
/// pipeline's index, is on the way of a stream that has parameters, and where the way of such a stream would be another without the
/// buffer, or streams would not agree.
pub(crate) fn free_row(
    registry: &mut Registry,
    region: &mut Region,
    id: u32,
    what: Item,
) -> Result<(), Errno>
    requires { IsPieceHeld registry.old region.old }
    ensures { IsRow (λ f. row_of_free what f id) registry.old registry.new region.old region.new result }
{
    removals_are_seen();
    free_item(registry, region, id, what)
}
