// What a live control may say.
ghost use Rattle.std.specs.Prelude.{◌≡◌};
ghost use Rattle.std.specs.Option.{option_copied};
ghost use Rattle.sof_base.specs.BlobFaults.{is_blob};
ghost use Rattle.tplg_plan.specs.Ranges.{is_initial};
ghost use Rattle.tplg_rules.specs.ControlRanges as ranges;

use eq_blob::check;
use tplg_model::Control;
use tplg_widgets::{Role, is_demux};

/// Whether a volume's least and greatest value and its number of channels are in range.
pub fn is_volume(min: i32, max: i32, channels: u32) -> bool
    ensures { result ≡ ranges.is_volume_range min max channels }
{
    0 <= min && min <= max && max <= 65535 && 1 <= channels && channels <= 8
}

fn is_choice(items: u32) -> bool
    ensures { result ≡ ranges.is_choice items }
{
    1 <= items && items <= 16
}

fn is_blob(bytes: &[u8]) -> bool
    ensures { result ≡ is_blob bytes.now }
{
    check(bytes).is_ok()
}

fn is_initial(bytes: &[u8]) -> bool
    ensures { result ≡ is_initial bytes.now }
{
    bytes.is_empty() || is_blob(bytes)
}

/// Whether a mixer control's greatest value may be that of a widget of a role: a demux's mask is at most 255.
fn is_mask(role: Option<Role>, max: i32) -> bool
    ensures { result ≡ ranges.is_mask role max }
{
    !is_demux(role) || max <= 255
}

fn is_control(role: Option<Role>, control: &Control) -> bool
    ensures { result ≡ ranges.is_control role control.now }
{
    match control {
        Control::Mixer {
            min,
            max,
            num_channels,
            ..
        } => is_volume(*min, *max, *num_channels) && is_mask(role, *max),
        Control::Enum { items, .. } => is_choice(*items),
        Control::Bytes { private, .. } => is_initial(private.items()),
    }
}

/// Whether a live control of a widget of a role, where there is one, is in range.
pub fn is_live_in_range(role: Option<Role>, control: Option<&Control>) -> bool
    ensures { result ≡ ranges.is_live_in_range role (option_copied control.entry) }
{
    match control {
        None => true,
        Some(control) => is_control(role, control),
    }
}
