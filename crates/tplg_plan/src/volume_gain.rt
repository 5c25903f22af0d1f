// The gain of a volume's value.
ghost use Rattle.std.specs.Prelude.{◌≡◌, ◌≤◌, ◌*◌, ◌+ℤ◌, pos, negsuc, ◌≤ℤ◌};
ghost use Rattle.std.specs.Int.{int_min, int_max, int_div_euclid};
ghost use Rattle.stream_law.specs.Gain as law;
ghost use Rattle.tplg_plan.specs.GainOf.{control_gain};

use crate::plans::ControlKind;

/// The gain so many half decibels above 1.
fn gain_above(half_decibels: u32) -> u32
    requires { half_decibels ≤ 84 }
    ensures { result ≡ law.gain_above half_decibels }
{
    let mut gain = 65536;
    for _ in 0..half_decibels {
        gain = (gain as u64 * 69419 / 65536) as u32;
    }
    gain
}

/// The gain so many half decibels below 1.
fn gain_below(half_decibels: u32) -> u32
    ensures { result ≡ law.gain_below half_decibels }
{
    let mut gain = 65536;
    for _ in 0..half_decibels {
        gain = (gain as u64 * 61870 / 65536) as u32;
    }
    gain
}

fn at_most_84(number: i128) -> i128
    ensures value { result ≡ int_min (pos 84) number }
    ensures most { result ≤ℤ pos 84 }
{
    if number < 84 { number } else { 84 }
}

/// A number held to -200 to 84.
fn held(number: i128) -> i32
    ensures value { result ≡ int_max (negsuc 199) (int_min (pos 84) number) }
    ensures most { result ≤ℤ pos 84 }
{
    let low = at_most_84(number);
    if low < -200 { -200 } else { low as i32 }
}

/// The hundredths of a decibel of a value.
fn hundredths(lowest: i32, step: u32, value: u32) -> i128
    ensures { result ≡ lowest +ℤ pos (value * step) }
{
    lowest as i128 + (value as u64 * step as u64) as i128
}

/// The half decibels that hundredths are, rounded down.
fn halves(hundredths: i128) -> i128
    ensures { result ≡ int_div_euclid hundredths (pos 50) }
{
    hundredths.div_euclid(50)
}

/// The half decibels of a volume's value, from -200 to 84, by its control's scale: the hundredths of a decibel at value 0, and
/// how many each value adds.
pub fn half_decibels(lowest: i32, step: u32, value: u32) -> i32
    ensures value { result ≡ law.half_decibels lowest step value }
    ensures most { result ≤ℤ pos 84 }
{
    held(halves(hundredths(lowest, step, value)))
}

fn gain_at(half_decibels: i32) -> u32
    requires { half_decibels ≤ℤ pos 84 }
    ensures { result ≡ law.gain_at half_decibels }
{
    if half_decibels >= 0 {
        gain_above(half_decibels.unsigned_abs())
    } else {
        gain_below(half_decibels.unsigned_abs())
    }
}

fn gain_of(lowest: i32, step: u32, mute: u32, value: u32) -> u32
    ensures { result ≡ law.gain_of lowest step mute value }
{
    if value == 0 && mute != 0 {
        0
    } else {
        gain_at(half_decibels(lowest, step, value))
    }
}

/// The gain of a volume's value, of which 65536 is 1. A control of another kind has gain 0.
pub fn gain(kind: &ControlKind, value: u32) -> u32
    ensures { result ≡ control_gain kind.now value }
{
    match kind {
        ControlKind::Volume {
            tlv_min,
            tlv_step,
            tlv_mute,
            ..
        } => gain_of(*tlv_min, *tlv_step, *tlv_mute, value),
        _ => 0,
    }
}
