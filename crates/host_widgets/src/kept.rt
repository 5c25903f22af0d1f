// What the host keeps of its device.
ghost use Rattle.std.specs.Prelude.{◌≡◌, ◌≤◌, IfOk, length, map};
ghost use Rattle.tplg_plan.specs.Sound.{IsSound};
ghost use Rattle.host_widgets.specs.HostRecord.{closed};
ghost use Rattle.host_widgets.specs.Controls.{first_blob};
ghost use Rattle.host_widgets.specs.FewValues.{HasFew};
ghost use Rattle.host_widgets.specs.Kept.{first_control, first_record};

use crate::controls::{first_blob, first_values};
use sof_base::{Bounded, Items, NoMemory, Params};
use std::alloc::Global;
use tplg_plan::{ControlPlan, Plan};

/// Whether a topology is loaded, and if so, whether the device is on.
#[derive(Clone, Copy, Debug, PartialEq, Eq)]
pub enum Power {
    Unloaded,
    On,
    Off,
}

/// How far a stream is, as the host sees it, or that the device is on. A stream that is `Prepared`, `Running` or `Paused`
/// has parameters, and none is ever `On`.
/// ALSA's term: the state of a PCM.
#[derive(Clone, Copy, Debug, PartialEq, Eq)]
pub enum Found {
    Closed,
    Open,
    Prepared,
    Running,
    Paused,
    On,
}

/// A stream: how far it is, and its parameters where it has them.
#[derive(Clone, Copy, Debug, PartialEq, Eq)]
pub struct StreamRec {
    pub found: Found,
    pub params: Option<Params>,
}

/// A live control: the values by channel of a volume, a mux or a demux, and an equaliser's blob.
#[derive(Debug, Drop)]
pub struct ControlRec {
    pub values: Bounded<u32, 8>,
    pub blob: Bounded<u8, 1024>,
}

/// The host's record: what should be there, which is the truth whenever the power was cut. Its streams and its live controls
/// are those of the plan, in the plan's order.
#[derive(Debug, Drop)]
pub struct Record {
    pub power: Power,
    pub streams: Items<StreamRec>,
    pub controls: Items<ControlRec>,
}

// Every stream of the plan is closed.
fn closed_streams(alloc: Global, plan: &Plan) -> Result<Items<StreamRec>, NoMemory>
    ensures { IfOk result (λ streams. streams ≡ map (λ s. closed) plan.now.streams) }
{
    let mut streams = Items::new(alloc);
    for _stream in plan.streams.items() {
        streams.push(StreamRec {
            found: Found::Closed,
            params: None,
        })?;
    }
    Ok(streams)
}

/// A live control as it begins.
pub fn first_control(control: &ControlPlan) -> ControlRec
    requires values { HasFew control.now.kind }
    requires blob { length (first_blob control.now.kind) ≤ 1024 }
    ensures { result ≡ first_control control.now }
{
    ControlRec {
        values: first_values(&control.kind),
        blob: first_blob(&control.kind),
    }
}

// Every live control of the plan is as it begins.
fn first_controls(alloc: Global, plan: &Plan) -> Result<Items<ControlRec>, NoMemory>
    requires plan { IsSound plan.now }
    ensures { IfOk result (λ controls. controls ≡ map first_control plan.now.controls) }
{
    let mut controls = Items::new(alloc);
    for control in plan.controls.items() {
        controls.push(first_control(control))?;
    }
    Ok(controls)
}

impl Record {
    /// The record of a plan before anything was loaded: every stream is closed, and every live control has the values or the
    /// blob that it begins with. The plan is that of a well-formed topology.
    pub fn new(alloc: Global, plan: &Plan) -> Result<Record, NoMemory>
        requires plan { IsSound plan.now }
        ensures { IfOk result (λ r. r ≡ first_record plan.now) }
    {
        Ok(Record {
            power: Power::Unloaded,
            streams: closed_streams(alloc, plan)?,
            controls: first_controls(alloc, plan)?,
        })
    }
}
