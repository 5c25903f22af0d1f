// The rows of messages that give a stream its parameters, and that change its phase.
ghost use Rattle.std.specs.Prelude.{◌≡◌, true};
ghost use Rattle.ipc3_model.specs.Allowed.{is_channels};
ghost use Rattle.mbox_link.specs.Step.{pcm_params as pcm_params_row};
ghost use Rattle.fw_pipeline.specs.Triggers.{triggered};
ghost use Rattle.fw_core.specs.Answers.{IsRowOfTables};

use fw_components::Registry;
use fw_pipeline::{Trigger, params, trigger};
use sof_base::{Errno, Params};

/// A host's stream is Prepared. Refused with -19 where the id names nothing, and -22 where it is no host of this direction, where its
/// stream is Running or Paused, where the rate is none of a stream, where its way is not ready, where some walk from a playback's host
/// to a capture's goes along no echo edge, and where streams would not agree.
pub(crate) fn pcm_params(
    registry: &mut Registry,
    host: u32,
    direction: u32,
    p: Params,
) -> Result<(), Errno>
    requires { is_channels p.channels ≡ true }
    ensures { IsRowOfTables (λ f. pcm_params_row f host direction p) registry.old registry.new result }
{
    params(registry, host, direction, p)
}

/// A host's stream leaves its phase. Refused with -19 where the id names nothing, and -22 where it is no host or its stream is in
/// another phase.
pub(crate) fn trigger_row(registry: &mut Registry, host: u32, what: Trigger) -> Result<(), Errno>
    ensures { IsRowOfTables (λ f. triggered what f host) registry.old registry.new result }
{
    // For the proof alone, which takes from it that each of these is a buffer.
    let _buffers = registry.buffers();
    trigger(registry, host, what)
}
