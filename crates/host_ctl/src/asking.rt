// Which control a name means, and the tests before any message.
ghost use Rattle.std.specs.Prelude.{◌≡◌, ◌<◌, ◌^◌, IfOk, IfErr, Some, None, find, not, length};
ghost use Rattle.host_ctl.specs.ControlAsks as asks;
ghost use Rattle.host_ctl.specs.ControlPlaces.{control_place};

use eq_blob::check;
use host_widgets::{HostFault, Power, Record, is_named};
use sof_base::Name44;
use tplg_plan::{ControlKind, Plan};

// The place of the control of this name.
fn control_place(plan: &Plan, name: &Name44) -> Option<usize>
    ensures { result ≡ control_place plan.now name.now }
{
    plan.controls
        .items()
        .iter()
        .position(|control| is_named(plan, name, control.comp))
}

/// How many values a control has; an equaliser is not set by values.
pub fn channels_of(kind: &ControlKind) -> Option<u8>
    ensures { result ≡ asks.channels_of kind.now }
{
    match kind {
        ControlKind::Volume { channels, .. } | ControlKind::Masks { channels, .. } => {
            Some(*channels)
        }
        ControlKind::Choice { .. } => Some(1),
        ControlKind::Blob { .. } => None,
    }
}

// Whether a control takes a value.
fn takes_value(kind: &ControlKind, value: u32) -> bool
    ensures { result ≡ asks.takes_value kind.now value }
{
    match kind {
        ControlKind::Volume { min, max, .. } | ControlKind::Masks { min, max, .. } => {
            *min <= value && value <= *max
        }
        ControlKind::Choice { items } => value < *items,
        ControlKind::Blob { .. } => false,
    }
}

// The first value that a control does not take.
fn first_bad(kind: &ControlKind, values: &[u32]) -> Option<u32>
    ensures { result ≡ find (λ v. not (asks.takes_value kind.now v)) values.now }
{
    values
        .iter()
        .copied()
        .find(|value| !takes_value(kind, *value))
}

// Whether a control of so many channels may be set to these values.
fn values_fault(kind: &ControlKind, channels: u8, values: &[u32]) -> Option<HostFault>
    requires few { length values.now < 2 ^ 32 }
    ensures { result ≡ asks.values_fault kind.now channels values.now }
{
    let count = values.len();
    if !(count == 1 || count == usize::from(channels)) {
        return Some(HostFault::Range(count as u32));
    }
    first_bad(kind, values).map(HostFault::Range)
}

/// The place of the control of this name, where something is loaded.
pub fn named_place(plan: &Plan, kept: &Record, name: &Name44) -> Result<usize, HostFault>
    ensures place { IfOk result (λ k. control_place plan.now name.now ≡ Some k) }
    ensures none { IfOk result (λ k. asks.get_fault plan.now kept.now name.now ≡ None) }
    ensures fault { IfErr result (λ f. asks.get_fault plan.now kept.now name.now ≡ Some f) }
{
    if kept.power == Power::Unloaded {
        return Err(HostFault::NotLoaded);
    }
    match control_place(plan, name) {
        Some(place) => Ok(place),
        None => Err(HostFault::NoSuch(name.copied())),
    }
}

/// The place of a control that may be set to these values.
pub fn settable_place(
    plan: &Plan,
    kept: &Record,
    name: &Name44,
    values: &[u32],
) -> Result<usize, HostFault>
    requires few { length values.now < 2 ^ 32 }
    ensures place { IfOk result (λ k. control_place plan.now name.now ≡ Some k) }
    ensures none { IfOk result (λ k. asks.set_fault plan.now kept.now name.now values.now ≡ None) }
    ensures fault { IfErr result (λ f. asks.set_fault plan.now kept.now name.now values.now ≡ Some f) }
{
    let place = named_place(plan, kept, name)?;
    let kind = &plan.controls.items()[place].kind;
    let Some(channels) = channels_of(kind) else {
        return Err(HostFault::NoSuch(name.copied()));
    };
    match values_fault(kind, channels, values) {
        Some(fault) => Err(fault),
        None => Ok(place),
    }
}

// Whether a control may be set to these bytes.
fn bytes_fault(name: &Name44, kind: &ControlKind, bytes: &[u8]) -> Option<HostFault>
    requires few { length bytes.now < 2 ^ 32 }
    ensures { result ≡ asks.bytes_fault_by name.now bytes.now kind.now }
{
    let ControlKind::Blob { max, .. } = kind else {
        return Some(HostFault::NoSuch(name.copied()));
    };
    if bytes.len() > *max as usize {
        return Some(HostFault::Range(bytes.len() as u32));
    }
    match check(bytes) {
        Ok(()) => None,
        Err(fault) => Some(HostFault::Blob(fault.number())),
    }
}

/// The place of an equaliser's control that may be set to these bytes.
pub fn installable_place(
    plan: &Plan,
    kept: &Record,
    name: &Name44,
    bytes: &[u8],
) -> Result<usize, HostFault>
    requires few { length bytes.now < 2 ^ 32 }
    ensures place { IfOk result (λ k. control_place plan.now name.now ≡ Some k) }
    ensures none { IfOk result (λ k. asks.bytes_fault plan.now kept.now name.now bytes.now ≡ None) }
    ensures fault { IfErr result (λ f. asks.bytes_fault plan.now kept.now name.now bytes.now ≡ Some f) }
{
    let place = named_place(plan, kept, name)?;
    match bytes_fault(name, &plan.controls.items()[place].kind, bytes) {
        Some(fault) => Err(fault),
        None => Ok(place),
    }
}

/// The place of a control of which the firmware may be asked.
pub fn readable_place(plan: &Plan, kept: &Record, name: &Name44) -> Result<usize, HostFault>
    ensures place { IfOk result (λ k. control_place plan.now name.now ≡ Some k) }
    ensures none { IfOk result (λ k. asks.read_fault plan.now kept.now name.now ≡ None) }
    ensures fault { IfErr result (λ f. asks.read_fault plan.now kept.now name.now ≡ Some f) }
{
    let place = named_place(plan, kept, name)?;
    if kept.power == Power::Off {
        return Err(HostFault::Off);
    }
    Ok(place)
}
