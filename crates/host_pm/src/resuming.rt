// The device is brought back.
ghost use Rattle.std.specs.Prelude.{◌≡◌, ◌≤◌, ◌*◌, Ok, Some, is_some, true, false, length, if◌then◌else◌};
ghost use Rattle.std.specs.List.{flat_map, list_any, zip};
ghost use Rattle.std.specs.Option.{option_map};
ghost use Rattle.sof_base.specs.Ports.{HasRoom};
ghost use Rattle.stream_law.specs.State.{view_of};
ghost use Rattle.stream_law.specs.Ways.{is_live_phase};
ghost use Rattle.mbox_link.specs.Calls.{world};
ghost use Rattle.mbox_link.specs.Step.{fresh};
ghost use Rattle.host_widgets.specs.ActLists.{prepare_by, prepare_acts, bring_back};
ghost use Rattle.host_widgets.specs.Acts.{direction_of};
ghost use Rattle.tplg_plan.specs.Sound.{IsSound};
ghost use Rattle.host_widgets.specs.Expected.{phase_of};
ghost use Rattle.host_widgets.specs.Host.{Agrees, IsRecordOf};
ghost use Rattle.host_widgets.specs.Sides.{SameSide, world_of};
ghost use Rattle.host_widgets.specs.Orders.{Carried, resuming};
ghost use Rattle.host_widgets.specs.TestedOrders.{ActsCame, Tested};
ghost use Rattle.host_widgets.specs.ViewOf.{record_view};
ghost use Rattle.host_pm.specs.InTurn.{InTurn};
ghost use Rattle.host_pm.specs.PowerTests.{resume_fault};
ghost use Rattle.host_pm.specs.Resumed.{ResumeLeft};

use crate::telling::tell;
use host_widgets::{Found, HostCall, HostFault, Power, Record, StreamRec, bring_up, direction};
use ipc3_model::Message;
use mbox_link::Dsp;
use sof_io::{Inputs, Outputs};
use tplg_plan::{Plan, StreamPlan};

// A stream that is prepared has its parameters again.
fn prepare<P: Dsp>(
    plan: &Plan,
    stream: &StreamPlan,
    kept: StreamRec,
    dsp: &mut P,
    io: &mut Inputs,
    out: &mut Outputs,
) -> Result<(), HostFault>
    requires goes { direction_of plan.now stream.now.host ≡ (if stream.now.capture then 1 else 0) }
    requires on { is_some (P.means.on dsp.old) ≡ true }
    requires room { HasRoom (61440 * P.means.pending dsp.old) out.old }
    ensures { InTurn P.means plan.now false (prepare_by stream.now.host kept.found kept.params) (world dsp.old io.old out.old) (world dsp.new io.new out.new) result }
{
    let (Found::Prepared, Some(params)) = (kept.found, kept.params) else {
        return Ok(());
    };
    let message = Message::PcmParams {
        host: stream.host,
        direction: direction(stream.capture),
        params,
    };
    tell(&message, dsp, io, out)
}

/// Each stream that is prepared has its parameters again, up to the first message that does not pass. Nothing is cut.
pub fn prepare_all<P: Dsp>(
    plan: &Plan,
    kept: &Record,
    dsp: &mut P,
    io: &mut Inputs,
    out: &mut Outputs,
) -> Result<(), HostFault>
    requires plan { IsSound plan.now }
    requires streams { length kept.now.streams ≡ length plan.now.streams }
    requires on { is_some (P.means.on dsp.old) ≡ true }
    requires room { HasRoom (61440 * P.means.pending dsp.old) out.old }
    ensures { InTurn P.means plan.now false (flat_map prepare_acts (zip plan.now.streams kept.now.streams)) (world dsp.old io.old out.old) (world dsp.new io.new out.new) result }
{
    let count = plan.streams.items().len();
    for place in 0..count {
        let stream = &plan.streams.items()[place];
        prepare(plan, stream, kept.streams.items()[place], dsp, io, out)?;
    }
    Ok(())
}

// Sends a freshly booted device all that the record says, up to the first message that does not pass.
fn bring_back<P: Dsp>(side: &mut HostCall<'_, P>) -> Result<(), HostFault>
    requires plan { IsSound side.old.plan.now }
    requires kept { IsRecordOf side.old.plan.now side.old.kept.now }
    requires rests { list_any (λ r. is_live_phase (phase_of r.found)) side.old.kept.now.streams ≡ false }
    requires booted { P.means.on side.old.dsp.now ≡ Some (fresh side.old.heap) }
    requires room { HasRoom (61440 * P.means.pending side.old.dsp.now) side.old.out.now }
    ensures acts { ActsCame P.means side.old.plan.now side.old.heap false (bring_back side.old.plan.now side.old.kept.now) side.old.kept.now side.new.kept.now (world_of side.old) (world_of side.new) result }
    ensures kept { side.new.kept.now ≡ side.old.kept.now }
    ensures shows { result ≡ Ok tt → option_map view_of (P.means.on side.new.dsp.now) ≡ Some (record_view side.old.plan.now side.old.kept.now) }
    ensures left { ResumeLeft P.means side.old.plan.now side.old.heap side.old.kept.now side.old.dsp.now result side.new.dsp.now }
    ensures inputs { side.new.io.now ≡ side.old.io.now }
    ensures outputs { side.new.out.now ≡ side.old.out.now }
    ensures same { SameSide side.old side.new }
{
    // That no two inputs have one slot, and no position is out of range, is what keeps a silent tick silent.
    let _inputs = side.io.len();
    bring_up(side.plan, side.kept, side.heap, side.dsp, side.io, side.out)?;
    prepare_all(side.plan, side.kept, side.dsp, side.io, side.out)
}

// Boots the device, brings it up and prepares its streams. A failure cuts it, and the record stays.
fn power_up<P: Dsp>(side: &mut HostCall<'_, P>) -> Result<(), HostFault>
    requires plan { IsSound side.old.plan.now }
    requires agree { Agrees P.means side.old.plan.now side.old.kept.now side.old.dsp.now }
    requires room { HasRoom (61440 * P.means.pending side.old.dsp.now) side.old.out.now }
    requires heap { side.old.heap ≤ P.means.most side.old.dsp.now }
    requires power { side.old.kept.now.power ≡ Power.Off }
    ensures carried { Carried P.means side.old.plan.now side.old.heap (resuming side.old.plan.now side.old.kept.now) side.old.kept.now side.new.kept.now (world_of side.old) (world_of side.new) result }
    ensures agree { Agrees P.means side.old.plan.now side.new.kept.now side.new.dsp.now }
    ensures left { ResumeLeft P.means side.old.plan.now side.old.heap side.old.kept.now side.old.dsp.now result side.new.dsp.now }
    ensures inputs { side.new.io.now ≡ side.old.io.now }
    ensures outputs { side.new.out.now ≡ side.old.out.now }
    ensures same { SameSide side.old side.new }
{
    side.dsp.boot(side.heap);
    if let Err(fault) = bring_back(side) {
        side.dsp.cut();
        return Err(fault);
    }
    side.kept.power = Power::On;
    Ok(())
}

/// Resumes the device: it is booted with a heap of so many bytes and brought up to what the record says, also to what was set
/// while the power was off; then each stream that is prepared has its parameters again, in the order of the plan. It takes no
/// memory, and the record changes only once every message has passed. Nothing moves meanwhile: ticks before its messages count on
/// the clock alone.
///
/// `NotLoaded`: nothing is loaded, and `State(On)`: the power is on; then nothing changes. `Refused(e)`: a message was
/// answered with the negative error e, and `LinkDown`: an exchange failed; then the device is off, and the record is as it was.
pub fn resume<P: Dsp>(
    plan: &Plan,
    kept: &mut Record,
    heap: u32,
    dsp: &mut P,
    io: &mut Inputs,
    out: &mut Outputs,
) -> Result<(), HostFault>
    requires plan { IsSound plan.now }
    requires agree { Agrees P.means plan.now kept.old dsp.old }
    requires heap { heap ≤ P.means.most dsp.old }
    requires room { HasRoom (61440 * P.means.pending dsp.old) out.old }
    ensures carried { Tested P.means plan.now heap (resume_fault kept.old.power) (resuming plan.now kept.old) kept.old kept.new (world dsp.old io.old out.old) (world dsp.new io.new out.new) result }
    ensures agree { Agrees P.means plan.now kept.new dsp.new }
    ensures left { ResumeLeft P.means plan.now heap kept.old dsp.old result dsp.new }
    ensures inputs { io.new ≡ io.old }
    ensures outputs { out.new ≡ out.old }
{
    match kept.power {
        Power::Unloaded => Err(HostFault::NotLoaded),
        Power::On => Err(HostFault::State(Found::On)),
        Power::Off => power_up(&mut HostCall {
            plan,
            heap,
            kept,
            dsp,
            io,
            out,
        }),
    }
}
