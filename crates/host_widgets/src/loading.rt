// A device is loaded from nothing.
ghost use Rattle.std.specs.Prelude.{◌≡◌, ◌≤◌, ◌*◌, None};
ghost use Rattle.sof_base.specs.Ports.{HasRoom};
ghost use Rattle.mbox_link.specs.Calls.{world};
ghost use Rattle.tplg_plan.specs.Sound.{IsSound};
ghost use Rattle.host_widgets.specs.Kept.{first_record, with_power};
ghost use Rattle.host_widgets.specs.Host.{Agrees};
ghost use Rattle.host_widgets.specs.Bringing.{BroughtUp, SucceedsExactly};
ghost use Rattle.host_widgets.specs.Sides.{SameSide, world_of};
ghost use Rattle.host_widgets.specs.Orders.{Carried, brought_end, fault_of_load, loading};
ghost use Rattle.host_widgets.specs.TestedOrders.{Tested};

use crate::answers::HostFault;
use crate::bringing_up::bring_up;
use crate::host_call::HostCall;
use crate::kept::{Power, Record};
use mbox_link::Dsp;
use sof_io::{Inputs, Outputs};
use tplg_plan::Plan;

// Boots the device and brings it up. A failure cuts it; the record changes only once all has passed.
fn power_up<P: Dsp>(side: &mut HostCall<'_, P>) -> Result<(), HostFault>
    requires plan { IsSound side.old.plan.now }
    requires kept { side.old.kept.now ≡ first_record side.old.plan.now }
    requires off { P.means.on side.old.dsp.now ≡ None }
    requires heap { side.old.heap ≤ P.means.most side.old.dsp.now }
    requires room { HasRoom (61440 * P.means.pending side.old.dsp.now) side.old.out.now }
    ensures carried { Carried P.means side.old.plan.now side.old.heap (loading side.old.plan.now side.old.kept.now) side.old.kept.now side.new.kept.now (world_of side.old) (world_of side.new) result }
    ensures left { BroughtUp P.means side.old.plan.now side.old.heap (first_record side.old.plan.now) side.old.dsp.now result side.new.dsp.now }
    ensures kept { side.new.kept.now ≡ (brought_end (with_power Power.On) (first_record side.old.plan.now) side.old.kept.now result).0 }
    ensures inputs { side.new.io.now ≡ side.old.io.now }
    ensures outputs { side.new.out.now ≡ side.old.out.now }
    ensures same { SameSide side.old side.new }
{
    side.dsp.boot(side.heap);
    if let Err(fault) = bring_up(side.plan, side.kept, side.heap, side.dsp, side.io, side.out) {
        side.dsp.cut();
        return Err(fault);
    }
    side.kept.power = Power::On;
    Ok(())
}

/// Loads the plan: boots the device with a heap of so many bytes and brings it up. It takes no memory, and the record
/// changes only once every message has passed.
///
/// Ok: the device keeps the plan, and the record says that it is on. `Loaded`: the record was not unloaded, and no call
/// was made on the device. `Refused(e)`: a message was answered with the negative error e, and `LinkDown`: an exchange
/// failed; then the device is off, and the record is unloaded.
pub fn load<P: Dsp>(
    plan: &Plan,
    kept: &mut Record,
    heap: u32,
    dsp: &mut P,
    io: &mut Inputs,
    out: &mut Outputs,
) -> Result<(), HostFault>
    requires plan { IsSound plan.now }
    requires agree { Agrees P.means plan.now kept.old dsp.old }
    requires heap { heap ≤ P.means.most dsp.old }
    requires room { HasRoom (61440 * P.means.pending dsp.old) out.old }
    // From an unloaded record its order is carried out; else nothing changes, and no call is made.
    ensures carried { Tested P.means plan.now heap (fault_of_load kept.old.power) (loading plan.now kept.old) kept.old kept.new (world dsp.old io.old out.old) (world dsp.new io.new out.new) result }
    // Once all acts have passed, the device keeps the plan.
    ensures left { BroughtUp P.means plan.now heap (first_record plan.now) dsp.old result dsp.new }
    // It succeeds where the stated sizes fit and no count of the device rises, and never where they do not fit.
    ensures exactly { kept.old.power ≡ Power.Unloaded → SucceedsExactly P.means plan.now heap dsp.old result dsp.new }
    ensures kept { kept.old.power ≡ Power.Unloaded → kept.new ≡ (brought_end (with_power Power.On) (first_record plan.now) kept.old result).0 }
    ensures agree { Agrees P.means plan.now kept.new dsp.new }
    ensures inputs { io.new ≡ io.old }
    ensures outputs { out.new ≡ out.old }
{
    match kept.power {
        Power::Unloaded => power_up(&mut HostCall {
            plan,
            heap,
            kept,
            dsp,
            io,
            out,
        }),
        Power::On | Power::Off => Err(HostFault::Loaded),
    }
}
