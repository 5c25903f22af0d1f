// The ramp of a volume, by the words that name it.
ghost use Rattle.std.specs.Prelude.{◌≡◌};
ghost use Rattle.sof_base.specs.Ramps as law;

/// The milliseconds of a volume's ramp, at most 10000, by its type, of which 0 is a straight line, and its milliseconds: 0 where the type
/// is another.
pub fn ramp_of(ramp_type: u32, milliseconds: u32) -> u32
    ensures { result ≡ law.ramp_of ramp_type milliseconds }
{
    if ramp_type == 0 {
        milliseconds.min(10000)
    } else {
        0
    }
}
