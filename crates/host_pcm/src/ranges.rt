// The parameters that a stream may have, by what its PCM can do.
ghost use Rattle.std.specs.Prelude.{◌≡◌};
ghost use Rattle.host_pcm.specs.StreamRanges as ranges;

use host_widgets::HostFault;
use sof_base::{Format, Params, is_rate};
use tplg_model::Caps;

// Frames a second that the PCM can do.
fn has_rate(caps: &Caps, rate: u32) -> bool
    ensures { result ≡ ranges.has_rate caps.now rate }
{
    is_rate(rate) && caps.rate_min <= rate && rate <= caps.rate_max
}

// Samples a frame that the PCM can do.
fn has_channels(caps: &Caps, channels: u32) -> bool
    ensures { result ≡ ranges.has_channels caps.now channels }
{
    1 <= channels && channels <= 8 && caps.channels_min <= channels && channels <= caps.channels_max
}

// ALSA's number of a format.
fn alsa_number(format: Format) -> u32
    ensures { result ≡ ranges.alsa_number format }
{
    match format {
        Format::S16 => 2,
        Format::S24 => 6,
        Format::S32 => 10,
    }
}

// Whether the PCM can do a format.
fn has_format(caps: &Caps, format: Format) -> bool
    ensures { result ≡ ranges.has_format caps.now format }
{
    caps.formats >> alsa_number(format) & 1 == 1
}

/// The first of rate, channels and format that the stream of a PCM may not have.
pub fn params_fault(caps: &Caps, params: Params) -> Option<HostFault>
    ensures { result ≡ ranges.params_fault caps.now params }
{
    let channels = u32::from(params.channels);
    if !has_rate(caps, params.rate) {
        return Some(HostFault::Range(params.rate));
    }
    if !has_channels(caps, channels) {
        return Some(HostFault::Range(channels));
    }
    if !has_format(caps, params.format) {
        return Some(HostFault::Range(alsa_number(params.format)));
    }
    None
}
