// What counts of the caps of a stream.
ghost use Rattle.std.specs.Prelude.{◌≡◌};
ghost use Rattle.tplg_same.specs.CapsLimits as law;

use tplg_build::PcmLimits;
use tplg_model::Caps;

/// The formats that scripts and sources name: bits 2, 6 and 10.
const FORMATS: u64 = 1092;

/// What caps say of formats, rates and channels.
pub fn limits_in(caps: &Caps) -> PcmLimits
    ensures { result ≡ law.limits_in caps.now }
{
    PcmLimits {
        formats: caps.formats & FORMATS,
        rate_min: caps.rate_min,
        rate_max: caps.rate_max,
        channels_min: caps.channels_min,
        channels_max: caps.channels_max,
    }
}

/// Whether limits are the same.
pub fn same_limits(one: &PcmLimits, other: &PcmLimits) -> bool
    ensures { result ≡ law.same_limits one.now other.now }
{
    one.formats == other.formats
        && one.rate_min == other.rate_min
        && one.rate_max == other.rate_max
        && one.channels_min == other.channels_min
        && one.channels_max == other.channels_max
}
