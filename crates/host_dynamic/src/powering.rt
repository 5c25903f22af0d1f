// The power of a device whose pipelines are made on use.
ghost use Rattle.std.specs.Prelude.{◌≡◌, ◌*◌, ◌≤◌, ◌++◌, length, is_some, true};
ghost use Rattle.std.specs.List.{flat_map, zip};
ghost use Rattle.sof_base.specs.Ports.{HasRoom};
ghost use Rattle.mbox_link.specs.Calls.{world};
ghost use Rattle.tplg_plan.specs.Sound.{IsSound};
ghost use Rattle.host_widgets.specs.ActLists.{prepare_acts};
ghost use Rattle.host_widgets.specs.ActCarried.{ActsSent};
ghost use Rattle.host_widgets.specs.Host.{IsRecordOf};
ghost use Rattle.host_widgets.specs.Orders.{fault_of_load, unload_fault};
ghost use Rattle.host_widgets.specs.Routines.{JobTested};
ghost use Rattle.host_pm.specs.PowerTests.{resume_fault};
ghost use Rattle.host_widgets.specs.UpActs.{widgets_of, making_acts};
ghost use Rattle.host_dynamic.specs.Dynamic.{loading_job, unloading_job, resuming_job};
ghost use Rattle.host_widgets.specs.UpState.{up_act_rules};
ghost use Rattle.host_dynamic.specs.UpDevices.{UpAgrees, up_state_in};
ghost use Rattle.host_dynamic.specs.UpStates.{IsUpState};

use crate::lists::make;
use arrayvec::ArrayVec;
use host_pm::prepare_all;
use host_widgets::{Found, HostFault, Power, Record, forget};
use mbox_link::Dsp;
use sof_base::Bounded;
use sof_io::{Inputs, Outputs};
use tplg_plan::Plan;

/// Loads a plan: the device is booted with a heap of so many bytes, which are at most its room, and nothing is sent. `Loaded`: the record
/// was not unloaded, and no call was made on the device.
pub fn load<P: Dsp>(
    plan: &Plan,
    kept: &mut Record,
    up: &mut Bounded<u32, 32>,
    heap: u32,
    dsp: &mut P,
    io: &mut Inputs,
    out: &mut Outputs,
) -> Result<(), HostFault>
    requires plan { IsSound plan.now }
    requires state { IsUpState plan.now (up_state_in P.means kept.old up.old dsp.old) }
    requires agree { UpAgrees P.means plan.now kept.old up.old dsp.old }
    requires heap { heap ≤ P.means.most dsp.old }
    ensures done { JobTested P.means (up_act_rules plan.now) heap (fault_of_load kept.old.power) (loading_job heap (up_state_in P.means kept.old up.old dsp.old))
        (up_state_in P.means kept.old up.old dsp.old) (up_state_in P.means kept.new up.new dsp.new) (world dsp.old io.old out.old) (world dsp.new io.new out.new) result }
    ensures state { IsUpState plan.now (up_state_in P.means kept.new up.new dsp.new) }
    ensures agree { UpAgrees P.means plan.now kept.new up.new dsp.new }
{
    match kept.power {
        Power::Unloaded => {
            dsp.boot(heap);
            kept.power = Power::On;
            *up = Bounded::empty();
            Ok(())
        }
        Power::On | Power::Off => Err(HostFault::Loaded),
    }
}

/// Unloads the plan: the device is off, nothing is up, and the record is as before the first load. `NotLoaded`: nothing was loaded, and
/// nothing changes.
pub fn unload<P: Dsp>(
    plan: &Plan,
    kept: &mut Record,
    up: &mut Bounded<u32, 32>,
    heap: u32,
    dsp: &mut P,
    io: &mut Inputs,
    out: &mut Outputs,
) -> Result<(), HostFault>
    requires plan { IsSound plan.now }
    requires state { IsUpState plan.now (up_state_in P.means kept.old up.old dsp.old) }
    requires agree { UpAgrees P.means plan.now kept.old up.old dsp.old }
    ensures done { JobTested P.means (up_act_rules plan.now) heap (unload_fault kept.old.power) (unloading_job plan.now (up_state_in P.means kept.old up.old dsp.old))
        (up_state_in P.means kept.old up.old dsp.old) (up_state_in P.means kept.new up.new dsp.new) (world dsp.old io.old out.old) (world dsp.new io.new out.new) result }
    ensures state { IsUpState plan.now (up_state_in P.means kept.new up.new dsp.new) }
    ensures agree { UpAgrees P.means plan.now kept.new up.new dsp.new }
{
    match kept.power {
        Power::Unloaded => Err(HostFault::NotLoaded),
        Power::On => {
            dsp.cut();
            forget(plan, kept);
            *up = Bounded::empty();
            Ok(())
        }
        Power::Off => {
            forget(plan, kept);
            *up = Bounded::empty();
            Ok(())
        }
    }
}

// Makes what is up in its order, and then each stream that is prepared has its parameters again.
fn bring_back<P: Dsp>(
    plan: &Plan,
    kept: &Record,
    up: &[u32],
    dsp: &mut P,
    io: &mut Inputs,
    out: &mut Outputs,
) -> Result<(), HostFault>
    requires plan { IsSound plan.now }
    requires kept { IsRecordOf plan.now kept.now }
    requires few { length (widgets_of plan.now up.now) ≤ 288 }
    requires on { is_some (P.means.on dsp.old) ≡ true }
    requires room { HasRoom (61440 * P.means.pending dsp.old) out.old }
    ensures { ActsSent P.means plan.now (making_acts plan.now kept.now up.now ++ flat_map prepare_acts (zip plan.now.streams kept.now.streams)) (world dsp.old io.old out.old) (world dsp.new io.new out.new) result }
{
    let mut made: ArrayVec<u32, 288> = ArrayVec::new();
    make(plan, kept, up, &mut made, dsp, io, out)?;
    prepare_all(plan, kept, dsp, io, out)
}

/// Resumes the device: it is booted with a heap of so many bytes, which are at most its room, what is up is made in its order, and then each
/// stream that is prepared has its parameters again, in the order of the plan. The record changes only once every message has passed.
///
/// `NotLoaded`: nothing is loaded, and `State(On)`: the power is on; then nothing changes. `Refused(e)`: a message was
/// answered with the negative error e, and `LinkDown`: an exchange failed; then the device is off, and the record is as it was.
pub fn resume<P: Dsp>(
    plan: &Plan,
    kept: &mut Record,
    up: &Bounded<u32, 32>,
    heap: u32,
    dsp: &mut P,
    io: &mut Inputs,
    out: &mut Outputs,
) -> Result<(), HostFault>
    requires plan { IsSound plan.now }
    requires state { IsUpState plan.now (up_state_in P.means kept.old up.now dsp.old) }
    requires agree { UpAgrees P.means plan.now kept.old up.now dsp.old }
    requires heap { heap ≤ P.means.most dsp.old }
    requires room { HasRoom (61440 * P.means.pending dsp.old) out.old }
    ensures done { JobTested P.means (up_act_rules plan.now) heap (resume_fault kept.old.power) (resuming_job plan.now heap (up_state_in P.means kept.old up.now dsp.old))
        (up_state_in P.means kept.old up.now dsp.old) (up_state_in P.means kept.new up.now dsp.new) (world dsp.old io.old out.old) (world dsp.new io.new out.new) result }
    ensures state { IsUpState plan.now (up_state_in P.means kept.new up.now dsp.new) }
    ensures agree { UpAgrees P.means plan.now kept.new up.now dsp.new }
{
    match kept.power {
        Power::Unloaded => Err(HostFault::NotLoaded),
        Power::On => Err(HostFault::State(Found::On)),
        Power::Off => {
            dsp.boot(heap);
            match bring_back(plan, kept, up.items(), dsp, io, out) {
                Ok(()) => {
                    kept.power = Power::On;
                    Ok(())
                }
                Err(fault) => {
                    dsp.cut();
                    Err(fault)
                }
            }
        }
    }
}
