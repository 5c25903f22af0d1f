// The ramp of a component.
ghost use Rattle.std.specs.Prelude.{◌≡◌};
ghost use Rattle.tplg_plan.specs.WidgetWords as law;

use sof_base::ramp_of;
use stream_law::Kind;

/// The ramp of a component of a kind by its widget's two words: a volume's in milliseconds, 0 of any other kind.
pub fn kind_ramp(kind: Kind, ramp_type: u32, ramp_ms: u32) -> u32
    ensures { result ≡ law.kind_ramp kind ramp_type ramp_ms }
{
    match kind {
        Kind::Volume => ramp_of(ramp_type, ramp_ms),
        _ => 0,
    }
}
