// The rows of messages that join a component and a buffer, and that complete a pipeline.
ghost use Rattle.mbox_link.specs.Step.{connect as connect_row, pipe_complete as pipe_complete_row};
ghost use Rattle.fw_core.specs.Answers.{IsRowOfTables};

use fw_components::{Registry, joins_are_seen};
use fw_pipeline::complete;
use sof_base::Errno;

/// A component and a buffer are joined. Refused with -19 where an id names nothing, -16 where this side of the buffer is joined, and
/// -22 where they are not a component and a buffer, where the component takes no more, where a cycle would arise, and where the way of a
/// stream that has parameters would be another, or streams would not agree.
pub(crate) fn connect(registry: &mut Registry, source: u32, sink: u32) -> Result<(), Errno>
    ensures { IsRowOfTables (λ f. connect_row f source sink) registry.old registry.new result }
{
    joins_are_seen();
    fw_pipeline::connect(registry, source, sink)
}

/// The pipeline of an id is complete. Refused with -19 where the id or that of its scheduling component names nothing, -16 where it is
/// complete, and -22 where they are no pipeline and no component.
pub(crate) fn pipe_complete(registry: &mut Registry, id: u32) -> Result<(), Errno>
    ensures { IsRowOfTables (λ f. pipe_complete_row f id) registry.old registry.new result }
{
    complete(registry, id)
}
