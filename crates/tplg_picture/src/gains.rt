// The gains of a volume, in decibels.
ghost use Rattle.std.specs.Prelude.{◌≡◌, ◌++◌, OnOk};
ghost use Rattle.tplg_picture.specs.Labels as law;

use crate::words::{say, say_number};
use sof_base::NoMemory;
use tplg_plan::half_decibels;

// So many half decibels, without a sign.
#[tactic(auto, unfolding(crate::specs::Labels::half_words))]
fn say_halves(line: &mut Vec<u8>, halves: u32) -> Result<(), NoMemory>
    ensures { OnOk result (line.new.items ≡ line.old.items ++ law.half_words halves) }
{
    say_number(line, halves / 2)?;
    if halves % 2 == 1 {
        return say(line, b".5");
    }
    Ok(())
}

#[tactic(auto, unfolding(crate::specs::Labels::decibel_words))]
fn say_decibels(line: &mut Vec<u8>, halves: i32) -> Result<(), NoMemory>
    ensures { OnOk result (line.new.items ≡ line.old.items ++ law.decibel_words halves) }
{
    if halves >= 0 {
        return say_halves(line, halves.unsigned_abs());
    }
    say(line, b"-")?;
    say_halves(line, halves.unsigned_abs())
}

// The gain of a value.
#[tactic(auto, unfolding(crate::specs::Labels::gain_words))]
fn say_gain(line: &mut Vec<u8>, lowest: i32, step: u32, value: u32) -> Result<(), NoMemory>
    ensures { OnOk result (line.new.items ≡ line.old.items ++ law.gain_words lowest step value) }
{
    say_decibels(line, half_decibels(lowest, step, value))
}

// The gains of a least and of a greatest value.
#[tactic(auto, unfolding(crate::specs::Labels::gain_span))]
fn say_gain_span(
    line: &mut Vec<u8>,
    lowest: i32,
    step: u32,
    least: u32,
    greatest: u32,
) -> Result<(), NoMemory>
    ensures { OnOk result (line.new.items ≡ line.old.items ++ law.gain_span lowest step least greatest) }
{
    say_gain(line, lowest, step, least)?;
    say(line, b" to ")?;
    say_gain(line, lowest, step, greatest)?;
    say(line, b" dB")
}

// Silence, and the gains of the values from 1 on.
#[tactic(auto, unfolding(crate::specs::Labels::muted_label))]
fn say_muted(line: &mut Vec<u8>, max: u32, lowest: i32, step: u32) -> Result<(), NoMemory>
    ensures { OnOk result (line.new.items ≡ line.old.items ++ law.muted_label max lowest step) }
{
    say(line, b"\\nmute")?;
    if max == 0 {
        return Ok(());
    }
    say(line, b", ")?;
    say_gain_span(line, lowest, step, 1, max)
}

/// The gains of a volume's values from `min` to `max`. Value 0 is silent where `mute` is not 0.
#[tactic(auto, unfolding(crate::specs::Labels::gain_label))]
pub fn say_gains(
    line: &mut Vec<u8>,
    min: u32,
    max: u32,
    lowest: i32,
    step: u32,
    mute: u32,
) -> Result<(), NoMemory>
    ensures { OnOk result (line.new.items ≡ line.old.items ++ law.gain_label min max lowest step mute) }
{
    if min == 0 && mute != 0 {
        return say_muted(line, max, lowest, step);
    }
    say(line, b"\\n")?;
    say_gain_span(line, lowest, step, min, max)
}
