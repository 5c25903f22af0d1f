// The rows of messages that bring a component, a buffer or a pipeline.
ghost use Rattle.std.specs.Prelude.{◌≡◌, ◌==◌, true, false};
ghost use Rattle.std.specs.List.{list_any};
ghost use Rattle.ipc3_model.specs.Allowed.{is_buffer_size, is_period_allowed};
ghost use Rattle.ipc3_model.specs.Meanings.{IsKind};
ghost use Rattle.mbox_link.specs.Step.{comp_new as comp_new_row, buffer_new as buffer_new_row, pipe_new as pipe_new_row, kind_of, first_setting, first_ramp, has_index as names_index};
ghost use Rattle.fw_components.specs.Tables.{graph_of};
ghost use Rattle.fw_components.specs.Changes.{added, is_there, is_full, IsNew, has_new_index};
ghost use Rattle.fw_core.specs.Held.{IsPieceHeld};
ghost use Rattle.fw_core.specs.Answers.{IsRow};

use crate::units::unit_of;
use fw_components::{Component, Registry, Unit, additions_are_seen, bytes_of};
use fw_heap::Region;
use fw_pipeline::is_complete;
use fw_ring::Ring;
use fw_walks::is_used;
use ipc3_codec::CompWords;
use sof_base::Errno;

/// The stated size of a pipeline, and of a buffer without its bytes, in bytes.
const PIPE_BYTES: u32 = 64;

const BUFFER_BYTES: u32 = 32;

/// A component of these words, in the pipeline of this index. A host brings a stream without parameters. Refused with -16 where the id
/// is used or the pipeline is complete, and -12 where there are 128 components or no hole holds its size.
pub(crate) fn comp_new(
    registry: &mut Registry,
    region: &mut Region,
    id: u32,
    pipe: u32,
    words: CompWords,
    frame_fmt: u32,
) -> Result<(), Errno>
    requires words { IsKind words frame_fmt }
    requires held { IsPieceHeld registry.old region.old }
    ensures { IsRow (λ f. comp_new_row f id pipe (kind_of words frame_fmt) (first_setting words) (first_ramp words)) registry.old registry.new region.old region.new result }
{
    if is_used(registry, id) || is_complete(registry, pipe) {
        return Err(Errno::BUSY);
    }
    if registry.comps().len() >= 128 {
        return Err(Errno::NO_MEMORY);
    }
    let Ok(piece) = region.carve(bytes_of(words)) else {
        return Err(Errno::NO_MEMORY);
    };
    add(
        registry,
        Component {
            id,
            pipe,
            channels: 1,
            unit: unit_of(words, frame_fmt, piece),
        },
    );
    Ok(())
}

/// A buffer of so many bytes, in the pipeline of this index, joined to nothing. Its ring lies after the first 32 bytes of its
/// piece. Refused with -16 where the id is used or the pipeline is complete, and -12 where there are 128 buffers or no hole holds it.
pub(crate) fn buffer_new(
    registry: &mut Registry,
    region: &mut Region,
    id: u32,
    pipe: u32,
    size: u32,
) -> Result<(), Errno>
    requires size { is_buffer_size size ≡ true }
    requires held { IsPieceHeld registry.old region.old }
    ensures { IsRow (λ f. buffer_new_row f id pipe size) registry.old registry.new region.old region.new result }
{
    if is_used(registry, id) || is_complete(registry, pipe) {
        return Err(Errno::BUSY);
    }
    if registry.buffers().len() >= 128 {
        return Err(Errno::NO_MEMORY);
    }
    let Ok(piece) = region.carve(BUFFER_BYTES + size) else {
        return Err(Errno::NO_MEMORY);
    };
    add(
        registry,
        Component {
            id,
            pipe,
            channels: 1,
            unit: Unit::Buffer {
                size,
                ring: Ring::over(piece, size / 4, 1),
                source: None,
                sink: None,
            },
        },
    );
    Ok(())
}

/// A pipeline of this index that is not complete. Refused with -16 where the id is used or a pipeline has the index, and -12 where there
/// are 32 pipelines or no hole holds it.
pub(crate) fn pipe_new(
    registry: &mut Registry,
    region: &mut Region,
    id: u32,
    index: u32,
    sched: u32,
    period: u32,
) -> Result<(), Errno>
    requires period { is_period_allowed period ≡ true }
    requires held { IsPieceHeld registry.old region.old }
    ensures { IsRow (λ f. pipe_new_row f id index sched period) registry.old registry.new region.old region.new result }
{
    if is_used(registry, id) || has_index(registry, index) {
        return Err(Errno::BUSY);
    }
    if registry.pipes().len() >= 32 {
        return Err(Errno::NO_MEMORY);
    }
    let Ok(piece) = region.carve(PIPE_BYTES) else {
        return Err(Errno::NO_MEMORY);
    };
    add(
        registry,
        Component {
            id,
            pipe: index,
            channels: 1,
            unit: Unit::Pipeline {
                sched,
                period,
                complete: false,
                piece,
            },
        },
    );
    Ok(())
}

// Adds what there is room for.
fn add(registry: &mut Registry, component: Component)
    requires id { is_there registry.old component.id ≡ false }
    requires unit { IsNew component.unit }
    requires index { has_new_index component registry.old ≡ true }
    requires room { is_full component.unit registry.old ≡ false }
    ensures { registry.new ≡ added component registry.old }
{
    match registry.add(component) {
        Ok(()) => (),
        Err(_full) => unreachable!(),
    }
}

// Whether a pipeline of an index is there.
fn has_index(registry: &Registry, index: u32) -> bool
    ensures { result ≡ names_index (graph_of registry.now) index }
{
    any_of(registry.pipes(), index)
}

// Whether one of these has an index.
fn any_of(pipes: &[Component], index: u32) -> bool
    ensures { result ≡ list_any (λ p. p.pipe == index) pipes.now }
{
    pipes.iter().any(|pipe| pipe.pipe == index)
}
