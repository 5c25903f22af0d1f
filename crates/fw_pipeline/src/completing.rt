// The row of a message that completes a pipeline.
ghost use Rattle.std.specs.Prelude.{◌≡◌, OnErr, OnOk, map};
ghost use Rattle.stream_law.specs.State.{FwState};
ghost use Rattle.mbox_link.specs.Step.{pipe_complete};
ghost use Rattle.fw_units.specs.Units.{sched_by, complete_by};
ghost use Rattle.fw_components.specs.Tables.{view_by, graph_of};
ghost use Rattle.fw_units.specs.Changes.{completed_at};
ghost use Rattle.fw_components.specs.Kept.{IsKept};
ghost use Rattle.fw_pipeline.specs.Rows.{view_answer, view_after, with_view, terms_at};

use fw_components::{Registry, Unit, completions_are_seen};
use fw_walks::{find, has_comp, is_used};
use sof_base::Errno;

/// The pipeline of this id is complete. Refused with -19 where the id or that of its scheduling component names nothing, -16 where it
/// is complete, and -22 where they are no pipeline and no component.
pub fn complete(registry: &mut Registry, id: u32) -> Result<(), Errno>
    ensures answer { (f : FwState) → view_answer (view_by registry.new) result ≡ view_after (pipe_complete (with_view (view_by registry.old) f) id) }
    ensures done { OnOk result (registry.new ≡ record { comps = registry.old.comps; buffers = registry.old.buffers; pipes = map (completed_at id) registry.old.pipes; joins = registry.old.joins }) }
    ensures kept { OnErr result (registry.new ≡ registry.old) }
{
    if !is_used(registry, id) {
        return Err(Errno::NO_DEVICE);
    }
    let Some((sched, complete)) = terms(registry, id) else {
        return Err(Errno::INVALID);
    };
    if !is_used(registry, sched) {
        return Err(Errno::NO_DEVICE);
    }
    if complete {
        return Err(Errno::BUSY);
    }
    if !has_comp(registry, sched) {
        return Err(Errno::INVALID);
    }
    completions_are_seen();
    registry.set_complete(id);
    Ok(())
}

// The component that schedules the pipeline of an id, and whether the pipeline is complete.
fn terms(registry: &Registry, id: u32) -> Option<(u32, bool)>
    ensures found { result ≡ terms_at (graph_of registry.now) id }
    ensures kept { IsKept registry.now }
{
    match find(registry.pipes(), id) {
        Some(pipe) => Some(terms_of(&pipe.unit)),
        None => None,
    }
}

// The same of a unit.
fn terms_of(unit: &Unit) -> (u32, bool)
    ensures { result ≡ (sched_by unit.now, complete_by unit.now) }
{
    match unit {
        Unit::Pipeline {
            sched,
            complete,
            ..
        } => (*sched, *complete),
        _ => (0, false),
    }
}
