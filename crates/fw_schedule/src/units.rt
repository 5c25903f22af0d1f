// What is read off the units of a registry.
ghost use Rattle.std.specs.Prelude.{◌≡◌, ◌/◌, find, ◌==◌, option_copied};
ghost use Rattle.std.specs.Option.{option_map_or};
ghost use Rattle.stream_law.specs.Moves.{skips_idle_inputs};
ghost use Rattle.fw_units.specs.Units.{period_by};
ghost use Rattle.stream_law.specs.Endpoints.{is_input};
ghost use Rattle.fw_schedule.specs.Outputs.{is_output_kind, least_by};
ghost use Rattle.fw_schedule.specs.Units.{unit_format};

use fw_components::{Component, Unit};
use sof_base::Format;
use stream_law::Kind;

/// The format of an endpoint's samples: a DAI has its own, a host that of its stream.
pub(crate) fn format_in(unit: &Unit) -> Format
    ensures { result ≡ unit_format unit.now }
{
    match unit {
        Unit::Host { params, .. } => match params {
            Some(params) => params.format,
            None => Format::S32,
        },
        Unit::Dai { format, .. } => *format,
        _ => Format::S32,
    }
}

/// Whether a kind looks only at some of its inputs.
pub(crate) fn chooses(kind: Kind) -> bool
    ensures { result ≡ skips_idle_inputs kind }
{
    matches!(kind, Kind::Mixer | Kind::Mux)
}

/// Whether a kind takes its frames from an input.
pub(crate) fn reads(kind: Kind) -> bool
    ensures { result ≡ is_input kind }
{
    matches!(kind, Kind::HostPlay | Kind::DaiCapture(_))
}

/// Whether a kind gives its frames to an output.
pub(crate) fn writes(kind: Kind) -> bool
    ensures { result ≡ is_output_kind kind }
{
    matches!(kind, Kind::HostCapture | Kind::DaiPlay(_))
}

/// How many frames, of frames and then zeros, a kind writes at least where it runs with a quota.
pub(crate) fn least(kind: Kind, quota: u32) -> u32
    ensures { result ≡ least_by kind quota }
{
    match kind {
        Kind::DaiPlay(_) => quota,
        Kind::HostPlay | Kind::HostCapture | Kind::DaiCapture(_) => 0,
        Kind::Volume | Kind::Mixer | Kind::Mux | Kind::Eq | Kind::Demux => 0,
    }
}

/// The period of the pipeline of an index, in µs; 0 where there is none.
pub(crate) fn period_in(pipes: &[Component], index: u32) -> u32
    ensures { result ≡ option_map_or (λ p. period_by p.unit) (find (λ p. p.pipe == index) pipes.now) 0 }
{
    match pipe_in(pipes, index) {
        Some(pipe) => period_of(&pipe.unit),
        None => 0,
    }
}

// The pipeline of an index.
fn pipe_in(pipes: &[Component], index: u32) -> Option<&Component>
    ensures { option_copied result ≡ find (λ p. p.pipe == index) pipes.now }
{
    pipes.iter().find(|pipe| pipe.pipe == index)
}

// The period of a pipeline.
fn period_of(unit: &Unit) -> u32
    ensures { result ≡ period_by unit.now }
{
    match unit {
        Unit::Pipeline { period, .. } => *period,
        _ => 0,
    }
}
