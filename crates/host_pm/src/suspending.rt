// The device goes down.
ghost use Rattle.std.specs.Prelude.{◌≡◌, ◌*◌, [], ◌∷◌, Some, None, Err, is_some, true, length};
ghost use Rattle.sof_base.specs.Ports.{HasRoom};
ghost use Rattle.mbox_link.specs.Calls.{world};
ghost use Rattle.tplg_plan.specs.Sound.{IsSound};
ghost use Rattle.host_widgets.specs.ActLists.{stop_by, go_down};
ghost use Rattle.host_widgets.specs.Host.{Agrees, IsRecordOf};
ghost use Rattle.host_widgets.specs.HostActs.{Save};
ghost use Rattle.host_widgets.specs.Sides.{IsReady, SameSide, world_of};
ghost use Rattle.host_widgets.specs.Orders.{Carried, suspending};
ghost use Rattle.host_widgets.specs.TestedOrders.{Tested};
ghost use Rattle.host_widgets.specs.Walk.{first_of, goes_past};
ghost use Rattle.host_pm.specs.InTurn.{InTurn, WentDown};
ghost use Rattle.host_pm.specs.PowerTests.{suspend_fault};

use crate::telling::tell;
use host_widgets::{Found, HostCall, HostFault, Power, Record, Trigger, link_down};
use ipc3_model::Message;
use mbox_link::Dsp;
use sof_io::{Inputs, Outputs};
use tplg_plan::Plan;

// Whether messages go on after one with this result: also after a refusal.
fn goes_on(done: &Result<(), HostFault>) -> bool
    ensures { result ≡ goes_past true done.now }
{
    matches!(done, Ok(()) | Err(HostFault::Refused(_)))
}

// A failed link, or else the first fault.
fn first_of(one: Result<(), HostFault>, rest: Result<(), HostFault>) -> Result<(), HostFault>
    ensures { result ≡ first_of one rest }
{
    match (one, rest) {
        (Ok(()), rest) => rest,
        (Err(_), Err(HostFault::LinkDown)) => Err(HostFault::LinkDown),
        (Err(fault), _) => Err(fault),
    }
}

// Stops a stream that runs or is paused.
fn stop<P: Dsp>(
    plan: &Plan,
    host: u32,
    found: Found,
    dsp: &mut P,
    io: &mut Inputs,
    out: &mut Outputs,
) -> Result<(), HostFault>
    requires on { is_some (P.means.on dsp.old) ≡ true }
    requires room { HasRoom (61440 * P.means.pending dsp.old) out.old }
    ensures { InTurn P.means plan.now true (stop_by host found) (world dsp.old io.old out.old) (world dsp.new io.new out.new) result }
{
    match found {
        Found::Running | Found::Paused => tell(&Trigger::Stop.message(host), dsp, io, out),
        Found::Closed | Found::Open | Found::Prepared | Found::On => Ok(()),
    }
}

// Tells the firmware that the power will be cut.
fn save<P: Dsp>(
    plan: &Plan,
    dsp: &mut P,
    io: &mut Inputs,
    out: &mut Outputs,
) -> Result<(), HostFault>
    requires on { is_some (P.means.on dsp.old) ≡ true }
    requires room { HasRoom (61440 * P.means.pending dsp.old) out.old }
    ensures { InTurn P.means plan.now true (Save ∷ []) (world dsp.old io.old out.old) (world dsp.new io.new out.new) result }
{
    tell(&Message::CtxSave, dsp, io, out)
}

// Sends all messages before the cut, also after one that was refused, and none after a link that failed.
fn send_down<P: Dsp>(
    plan: &Plan,
    kept: &Record,
    dsp: &mut P,
    io: &mut Inputs,
    out: &mut Outputs,
) -> Result<(), HostFault>
    requires streams { length kept.now.streams ≡ length plan.now.streams }
    requires on { is_some (P.means.on dsp.old) ≡ true }
    requires room { HasRoom (61440 * P.means.pending dsp.old) out.old }
    ensures { InTurn P.means plan.now true (go_down plan.now kept.now) (world dsp.old io.old out.old) (world dsp.new io.new out.new) result }
{
    let mut so_far = Ok(());
    let count = plan.streams.items().len();
    for place in 0..count {
        let host = plan.streams.items()[place].host;
        let found = kept.streams.items()[place].found;
        let stopped = stop(plan, host, found, dsp, io, out);
        let goes = goes_on(&stopped);
        let told = first_of(so_far, stopped);
        if !goes {
            return told;
        }
        so_far = told;
    }
    let saved = save(plan, dsp, io, out);
    first_of(so_far, saved)
}

// Sends all messages, and cuts the device whatever their results.
fn go_down<P: Dsp>(side: &mut HostCall<'_, P>) -> Result<(), HostFault>
    requires ready { IsReady P.means side.old }
    requires power { side.old.kept.now.power ≡ Power.On }
    ensures down { WentDown P.means side.old.plan.now side.old.heap side.old.kept.now side.new.kept.now (world_of side.old) (world_of side.new) result }
    ensures carried { Agrees P.means side.old.plan.now side.old.kept.now side.old.dsp.now →
        Carried P.means side.old.plan.now side.old.heap (suspending side.old.plan.now side.old.kept.now) side.old.kept.now side.new.kept.now (world_of side.old) (world_of side.new) result }
    ensures agree { Agrees P.means side.old.plan.now side.new.kept.now side.new.dsp.now }
    ensures same { SameSide side.old side.new }
{
    let sent = send_down(side.plan, side.kept, side.dsp, side.io, side.out);
    link_down(side.plan, side.kept, side.dsp, side.io, side.out);
    sent
}

/// Suspends the device: each stream that runs or is paused is stopped, in the order of the plan, then a message says
/// that the power will be cut, and it is cut. The record says that the power is off, and streams that ran or were paused are
/// prepared. It takes no memory.
///
/// `NotLoaded`: nothing is loaded, and `Off`: the power is off already; then nothing changes. `Refused(e)`: a message was
/// answered with the negative error e, the first of them, and all went on; and `LinkDown`: an exchange failed, and the device
/// was cut at once. Whatever it answers of these two, the record is as after a suspend that was done.
pub fn suspend<P: Dsp>(
    plan: &Plan,
    kept: &mut Record,
    heap: u32,
    dsp: &mut P,
    io: &mut Inputs,
    out: &mut Outputs,
) -> Result<(), HostFault>
    requires plan { IsSound plan.now }
    requires kept { IsRecordOf plan.now kept.old }
    requires on { kept.old.power ≡ Power.On → is_some (P.means.on dsp.old) ≡ true }
    requires room { HasRoom (61440 * P.means.pending dsp.old) out.old }
    ensures early { (fault : HostFault) → suspend_fault kept.old.power ≡ Some fault → (result ≡ Err fault) × (world dsp.new io.new out.new ≡ world dsp.old io.old out.old) × (kept.new ≡ kept.old) }
    ensures down { suspend_fault kept.old.power ≡ None → WentDown P.means plan.now heap kept.old kept.new (world dsp.old io.old out.old) (world dsp.new io.new out.new) result }
    ensures carried { Agrees P.means plan.now kept.old dsp.old → Tested P.means plan.now heap (suspend_fault kept.old.power) (suspending plan.now kept.old) kept.old kept.new (world dsp.old io.old out.old) (world dsp.new io.new out.new) result }
    ensures agree { Agrees P.means plan.now kept.old dsp.old → Agrees P.means plan.now kept.new dsp.new }
{
    match kept.power {
        Power::Unloaded => Err(HostFault::NotLoaded),
        Power::Off => Err(HostFault::Off),
        Power::On => go_down(&mut HostCall {
            plan,
            heap,
            kept,
            dsp,
            io,
            out,
        }),
    }
}
