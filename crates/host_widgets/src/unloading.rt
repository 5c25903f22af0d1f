// What was loaded is let go.
ghost use Rattle.std.specs.Prelude.{◌≡◌, length, map};
ghost use Rattle.mbox_link.specs.Calls.{world};
ghost use Rattle.tplg_plan.specs.Sound.{IsSound};
ghost use Rattle.host_widgets.specs.HostRecord.{closed};
ghost use Rattle.host_widgets.specs.Kept.{first_control, first_record};
ghost use Rattle.host_widgets.specs.Host.{Agrees, IsRecordOf};
ghost use Rattle.host_widgets.specs.Orders.{unload_fault, unloading};
ghost use Rattle.host_widgets.specs.TestedOrders.{Tested};

use crate::answers::HostFault;
use crate::kept::{ControlRec, Found, Power, Record, StreamRec, first_control};
use mbox_link::Dsp;
use sof_base::Items;
use sof_io::{Inputs, Outputs};
use tplg_plan::Plan;

// Every stream is closed.
fn close_all(streams: &mut Items<StreamRec>)
    ensures { streams.new ≡ map (λ s. closed) streams.old }
{
    let count = streams.items().len();
    for place in 0..count {
        streams.put(
            place,
            StreamRec {
                found: Found::Closed,
                params: None,
            },
        );
    }
}

// Every live control is as it begins.
fn reset_all(plan: &Plan, controls: &mut Items<ControlRec>)
    requires plan { IsSound plan.now }
    requires all { length controls.old ≡ length plan.now.controls }
    ensures { controls.new ≡ map first_control plan.now.controls }
{
    let all = plan.controls.items().len();
    for place in 0..all {
        controls.put(place, first_control(&plan.controls.items()[place]));
    }
}

/// The record is as before the first load.
pub fn forget(plan: &Plan, kept: &mut Record)
    requires plan { IsSound plan.now }
    requires kept { IsRecordOf plan.now kept.old }
    ensures { kept.new ≡ first_record plan.now }
{
    kept.power = Power::Unloaded;
    close_all(&mut kept.streams);
    reset_all(plan, &mut kept.controls);
}

/// Unloads the plan: the device is off, and the record is as before the first load. It takes no memory, and sends no message.
/// Whether the device is cut goes by the record's power: one that is off already is not cut again.
///
/// `NotLoaded`: nothing was loaded, and nothing changes.
pub fn unload<P: Dsp>(
    plan: &Plan,
    kept: &mut Record,
    heap: u32,
    dsp: &mut P,
    io: &mut Inputs,
    out: &mut Outputs,
) -> Result<(), HostFault>
    requires plan { IsSound plan.now }
    requires agree { Agrees P.means plan.now kept.old dsp.old }
    // What was loaded is let go; else nothing changes, and no call is made.
    ensures carried { Tested P.means plan.now heap (unload_fault kept.old.power) (unloading plan.now kept.old) kept.old kept.new (world dsp.old io.old out.old) (world dsp.new io.new out.new) result }
    ensures agree { Agrees P.means plan.now kept.new dsp.new }
    ensures inputs { io.new ≡ io.old }
    ensures outputs { out.new ≡ out.old }
{
    match kept.power {
        Power::Unloaded => Err(HostFault::NotLoaded),
        Power::On => {
            dsp.cut();
            forget(plan, kept);
            Ok(())
        }
        Power::Off => {
            forget(plan, kept);
            Ok(())
        }
    }
}
