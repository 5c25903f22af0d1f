// Live controls: what they begin with, and the message that sets their values.
ghost use Rattle.std.specs.Prelude.{◌≡◌, ◌==◌, ◌<◌, ◌≤◌, ◌^◌, suc, ◌-◌, find, unwrap_or, replicate, map, length, option_copied};
ghost use Rattle.std.specs.List.{range_with_len};
ghost use Rattle.host_widgets.specs.Controls as law;
ghost use Rattle.host_widgets.specs.FewValues as few_values;
ghost use Rattle.host_widgets.specs.Acts as acts;
ghost use Rattle.host_widgets.specs.ActMessages as messages;
ghost use Rattle.tplg_plan.specs.GainOf.{control_gain};

use ipc3_codec::{CTRL_ENUM, CTRL_SWITCH, CTRL_VOLUME, CompWords, Message};
use sof_base::Bounded;
use tplg_plan::{ControlKind, ControlPlan, Plan, WidgetPlan, gain, half_decibels};

/// The live control of a component, where it has one.
pub fn control_of(plan: &Plan, comp: u32) -> Option<&ControlPlan>
    ensures { option_copied result ≡ law.control_of plan.now comp }
{
    plan.controls
        .items()
        .iter()
        .find(|control| control.comp == comp)
}

// Whether a value is not silent, and its gain is 1 or more.
fn has_full_gain(lowest: i32, step: u32, mute: u32, value: u32) -> bool
    ensures { result ≡ law.has_full_gain lowest step mute value }
{
    !(value == 0 && mute != 0) && half_decibels(lowest, step, value) >= 0
}

// The least such value, or the greatest value where there is none.
fn first_full(min: u32, max: u32, lowest: i32, step: u32, mute: u32) -> u32
    requires { max < 2 ^ 32 - 1 }
    ensures { result ≡ unwrap_or (find (law.has_full_gain lowest step mute) (range_with_len min (suc max - min))) max }
{
    for value in min..max + 1 {
        if has_full_gain(lowest, step, mute, value) {
            return value;
        }
    }
    max
}

/// So many numbers that are all this one.
pub fn same_numbers(count: u8, number: u32) -> Bounded<u32, 8>
    requires { count ≤ 8 }
    ensures { result ≡ replicate count number }
{
    let numbers = [number; 8];
    match Bounded::new(&numbers[..usize::from(count)]) {
        Some(list) => list,
        // Never so: there are at most 8.
        None => Bounded::empty(),
    }
}

// How many values a control has, by channel.
fn count(kind: &ControlKind) -> u8
    ensures { result ≡ length (law.first_values kind.now) }
{
    match kind {
        ControlKind::Volume { channels, .. } | ControlKind::Masks { channels, .. } => *channels,
        ControlKind::Choice { .. } => 1,
        ControlKind::Blob { .. } => 0,
    }
}

// The value that a control begins with on all its channels. A volume begins at the least that is not silent and whose gain is 1
// or more, or at its greatest where there is none; a choice at 0; masks at their greatest. A blob has none, and 0 stands for it.
#[tactic(auto, unfolding(crate::specs::Controls::first_value))]
fn first_value(kind: &ControlKind) -> u32
    requires { few_values.HasFew kind.now }
    ensures { result ≡ law.first_value kind.now }
{
    match kind {
        ControlKind::Volume {
            min,
            max,
            tlv_min,
            tlv_step,
            tlv_mute,
            ..
        } => first_full(*min, *max, *tlv_min, *tlv_step, *tlv_mute),
        ControlKind::Masks { max, .. } => *max,
        ControlKind::Choice { .. } | ControlKind::Blob { .. } => 0,
    }
}

/// The values that a control begins with, by channel; a choice has one, and a blob none.
pub fn first_values(kind: &ControlKind) -> Bounded<u32, 8>
    requires { few_values.HasFew kind.now }
    ensures { result ≡ law.first_values kind.now }
{
    same_numbers(count(kind), first_value(kind))
}

// The greatest value of a volume.
fn greatest_value(kind: &ControlKind) -> u32
    ensures { result ≡ law.greatest_value kind.now }
{
    match kind {
        ControlKind::Volume { max, .. } => *max,
        _ => 0,
    }
}

/// The blob that a control begins with; none but an equaliser has one.
pub fn first_blob(kind: &ControlKind) -> Bounded<u8, 1024>
    requires { length (law.first_blob kind.now) ≤ 1024 }
    ensures { result ≡ law.first_blob kind.now }
{
    match kind {
        ControlKind::Blob { initial, .. } => match Bounded::new(initial.items()) {
            Some(bytes) => bytes,
            // Never so: it is no longer.
            None => Bounded::empty(),
        },
        _ => Bounded::empty(),
    }
}

// The gain of each value, of which 65536 is 1.
fn gains(kind: &ControlKind, values: &Bounded<u32, 8>) -> Bounded<u32, 8>
    ensures { result ≡ map (control_gain kind.now) values.now }
{
    let mut gains = [0; 8];
    let count = values.items().len();
    for place in 0..count {
        gains[place] = gain(kind, values.items()[place]);
    }
    match Bounded::new(&gains[..count]) {
        Some(list) => list,
        // Never so: there are at most 8.
        None => Bounded::empty(),
    }
}

/// The words of the volume of this id: how many gains it has, from 0 to which gain, and its widget's ramp.
pub fn volume_words(plan: &Plan, id: u32, widget: &WidgetPlan) -> CompWords
    ensures { result ≡ acts.volume_words (law.control_of plan.now id) widget.now }
{
    match control_of(plan, id) {
        Some(control) => CompWords::Volume {
            channels: u32::from(count(&control.kind)),
            min_value: 0,
            max_value: gain(&control.kind, greatest_value(&control.kind)),
            ramp: widget.ramp_type,
            initial_ramp: widget.ramp_ms,
        },
        None => CompWords::Volume {
            channels: 1,
            min_value: 0,
            max_value: 65536,
            ramp: widget.ramp_type,
            initial_ramp: widget.ramp_ms,
        },
    }
}

// The mask of an output: its value, and 255 past the values.
fn mask_at(values: &[u32], output: usize) -> u32
    ensures { result ≡ law.mask_at values.now output }
{
    match values.get(output) {
        Some(mask) => *mask,
        None => 255,
    }
}

// The masks of eight outputs.
fn eight_masks(values: &Bounded<u32, 8>) -> Bounded<u32, 8>
    ensures { result ≡ law.eight_masks values.now }
{
    let values = values.items();
    let masks = [
        mask_at(values, 0),
        mask_at(values, 1),
        mask_at(values, 2),
        mask_at(values, 3),
        mask_at(values, 4),
        mask_at(values, 5),
        mask_at(values, 6),
        mask_at(values, 7),
    ];
    match Bounded::new(&masks) {
        Some(list) => list,
        // Never so: there are 8.
        None => Bounded::empty(),
    }
}

/// The message that sets these values at a control.
pub fn set_message(comp: u32, kind: &ControlKind, values: &Bounded<u32, 8>) -> Message
    ensures { result ≡ messages.set_message comp values.now kind.now }
{
    match kind {
        ControlKind::Choice { .. } => Message::SetValue {
            id: comp,
            command: CTRL_ENUM,
            values: values.copied(),
        },
        ControlKind::Masks { .. } => Message::SetValue {
            id: comp,
            command: CTRL_SWITCH,
            values: eight_masks(values),
        },
        ControlKind::Volume { .. } | ControlKind::Blob { .. } => Message::SetValue {
            id: comp,
            command: CTRL_VOLUME,
            values: gains(kind, values),
        },
    }
}
