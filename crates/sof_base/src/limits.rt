// Least and greatest numbers of which several layers speak.
ghost use Rattle.std.specs.Prelude.{◌≡◌};
ghost use Rattle.sof_base.specs.Rates as rates;
ghost use Rattle.sof_base.specs.declared.limits.TheConstants as limits;

/// The most bytes that one run of an endpoint moves: ten periods of 192 frames of 8 samples of 4 bytes.
pub const TURN_BYTES: usize = 61440;

/// The most bytes that an output holds.
pub const OUTPUT_BYTES: usize = 1_048_576;

/// The most bytes that an input holds.
pub const INPUT_BYTES: usize = 1_048_576;

/// The fewest frames a second that a stream may have.
pub const MIN_RATE: u32 = 8000;

/// The most frames a second that a stream may have.
pub const MAX_RATE: u32 = 192_000;

/// Whether a stream may have so many frames a second: a multiple of 1000 from [`MIN_RATE`] to [`MAX_RATE`], or a rate of the family
/// of 44100.
pub fn is_rate(rate: u32) -> bool
    ensures { result ≡ rates.is_rate rate }
{
    (MIN_RATE <= rate && rate <= MAX_RATE && rate % 1000 == 0)
        || rate == 11025
        || rate == 22050
        || rate == 44100
        || rate == 88200
}

/// The limits, written out; nothing runs here. Definitions name these constants, and this law says what they are.
pub fn limit_numbers()
    ensures rates { (limits.MIN_RATE ≡ 8000) × (limits.MAX_RATE ≡ 192000) }
    ensures turn { limits.TURN_BYTES ≡ 61440 }
    ensures endpoints { (limits.OUTPUT_BYTES ≡ 1048576) × (limits.INPUT_BYTES ≡ 1048576) }
{}
