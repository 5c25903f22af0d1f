// The host's calls on controls, in the order of the table. Each takes no memory.
//
// All of them may answer `NotLoaded`: nothing is loaded; and `NoSuch(name)`: no control of the call's sort has this name. Those
// that send may answer `Refused(e)`: the message was answered with the negative error e, and the record stays; and `LinkDown`:
// the exchange failed, so the device is cut, the record says that the power is off, and streams that ran or were paused are
// prepared.
ghost use Rattle.std.specs.Prelude.{◌≡◌, ◌<◌, ◌^◌, ◌*◌, IfOk, is_some, length, true};
ghost use Rattle.sof_base.specs.Ports.{HasRoom};
ghost use Rattle.mbox_link.specs.Calls.{world};
ghost use Rattle.tplg_plan.specs.Sound.{IsSound};
ghost use Rattle.host_widgets.specs.declared.kept.Power.TheVariants.{On};
ghost use Rattle.host_widgets.specs.AnsweredOrders.{TestedAnswered};
ghost use Rattle.host_widgets.specs.Host.{Agrees, IsRecordOf};
ghost use Rattle.host_widgets.specs.TestedOrders.{Tested};
ghost use Rattle.host_ctl.specs.ControlAsks.{set_fault, bytes_fault, get_fault, read_fault};
ghost use Rattle.host_ctl.specs.ControlOrders.{set_order, bytes_order, get_order, read_order, told_by, KeptAlone};
ghost use Rattle.host_ctl.specs.ControlAnswers.{outcome_of, IsSetFor, Shows};

use crate::asking::{installable_place, named_place, readable_place, settable_place};
use crate::carrying;
use crate::carrying::all_values;
use host_widgets::{Answer, ControlRec, HostCall, HostFault, Record};
use mbox_link::Dsp;
use sof_base::Name44;
use sof_io::{Inputs, Outputs};
use tplg_plan::{ControlKind, ControlPlan, Plan};

/// A volume or a mux has these values by channel, or this one value on all channels; a demux has them as the masks of its first
/// outputs, and 255 past them. The firmware has them from the next tick on where the power is on, and the record after the reply.
/// Where the power is off, the record alone changes.
///
/// `Range(n)`: there are n values, neither one nor one for each channel; or else n is the first value that is outside the range of
/// the volume or the demux, or that is not the number of one of the mux's inputs. An equaliser is not set so: its name is `NoSuch`.
pub fn set<P: Dsp>(
    plan: &Plan,
    kept: &mut Record,
    heap: u32,
    dsp: &mut P,
    io: &mut Inputs,
    out: &mut Outputs,
    name: &Name44,
    values: &[u32],
) -> Result<(), HostFault>
    requires plan { IsSound plan.now }
    requires kept { IsRecordOf plan.now kept.old }
    requires on { kept.old.power ≡ On → is_some (P.means.on dsp.old) ≡ true }
    requires room { HasRoom (61440 * P.means.pending dsp.old) out.old }
    requires few { length values.now < 2 ^ 32 }
    ensures answered { TestedAnswered P.means plan.now heap (set_fault plan.now kept.old name.now values.now) (set_order plan.now kept.old name.now values.now) kept.old kept.new
        (world dsp.old io.old out.old) (world dsp.new io.new out.new) result }
    ensures asked { Agrees P.means plan.now kept.old dsp.old → Tested P.means plan.now heap (set_fault plan.now kept.old name.now values.now) (set_order plan.now kept.old name.now values.now) kept.old kept.new
        (world dsp.old io.old out.old) (world dsp.new io.new out.new) result }
    ensures agree { Agrees P.means plan.now kept.old dsp.old → Agrees P.means plan.now kept.new dsp.new }
{
    let place = settable_place(plan, kept, name, values)?;
    let all = all_values(&plan.controls.items()[place].kind, values);
    carrying::set(
        &mut HostCall {
            plan,
            heap,
            kept,
            dsp,
            io,
            out,
        },
        place,
        &all,
    )
}

/// An equaliser has this blob: the firmware from the next tick on where the power is on, once the last of its parts has passed,
/// and the record after that. A part that is refused or lost leaves the record, and a refused one the blob in force too. Where the
/// power is off, the record alone changes.
///
/// `Range(n)`: there are n bytes, more than the equaliser takes. `Blob(n)`: the bytes are no blob, by the fault of this number.
/// No other control is set so: its name is `NoSuch`.
pub fn set_bytes<P: Dsp>(
    plan: &Plan,
    kept: &mut Record,
    heap: u32,
    dsp: &mut P,
    io: &mut Inputs,
    out: &mut Outputs,
    name: &Name44,
    blob: &[u8],
) -> Result<(), HostFault>
    requires plan { IsSound plan.now }
    requires kept { IsRecordOf plan.now kept.old }
    requires on { kept.old.power ≡ On → is_some (P.means.on dsp.old) ≡ true }
    requires room { HasRoom (61440 * P.means.pending dsp.old) out.old }
    requires few { length blob.now < 2 ^ 32 }
    ensures answered { TestedAnswered P.means plan.now heap (bytes_fault plan.now kept.old name.now blob.now) (bytes_order plan.now kept.old name.now blob.now) kept.old kept.new
        (world dsp.old io.old out.old) (world dsp.new io.new out.new) result }
    ensures asked { Agrees P.means plan.now kept.old dsp.old → Tested P.means plan.now heap (bytes_fault plan.now kept.old name.now blob.now) (bytes_order plan.now kept.old name.now blob.now) kept.old kept.new
        (world dsp.old io.old out.old) (world dsp.new io.new out.new) result }
    ensures agree { Agrees P.means plan.now kept.old dsp.old → Agrees P.means plan.now kept.new dsp.new }
{
    let place = installable_place(plan, kept, name, blob)?;
    carrying::set_bytes(
        &mut HostCall {
            plan,
            heap,
            kept,
            dsp,
            io,
            out,
        },
        place,
        blob,
    )
}

/// A volume, a mux or a demux has these values in the record, as where the power is off. Nothing is sent, whatever the power.
///
/// `Range(n)` and `NoSuch(name)` as of [`set`].
pub fn keep_values(
    plan: &Plan,
    kept: &mut Record,
    name: &Name44,
    values: &[u32],
) -> Result<(), HostFault>
    requires plan { IsSound plan.now }
    requires kept { IsRecordOf plan.now kept.old }
    requires few { length values.now < 2 ^ 32 }
    ensures kept { KeptAlone (set_fault plan.now kept.old name.now values.now) (set_order plan.now kept.old name.now values.now).done kept.old kept.new result }
    ensures record_is { IsRecordOf plan.now kept.new }
{
    let place = settable_place(plan, kept, name, values)?;
    let all = all_values(&plan.controls.items()[place].kind, values);
    carrying::keep(kept, place, &all);
    Ok(())
}

/// An equaliser has this blob in the record, as where the power is off. Nothing is sent, whatever the power.
///
/// `Range(n)`, `Blob(n)` and `NoSuch(name)` as of [`set_bytes`].
pub fn keep_bytes(
    plan: &Plan,
    kept: &mut Record,
    name: &Name44,
    blob: &[u8],
) -> Result<(), HostFault>
    requires plan { IsSound plan.now }
    requires kept { IsRecordOf plan.now kept.old }
    requires few { length blob.now < 2 ^ 32 }
    ensures kept { KeptAlone (bytes_fault plan.now kept.old name.now blob.now) (bytes_order plan.now kept.old name.now blob.now).done kept.old kept.new result }
    ensures record_is { IsRecordOf plan.now kept.new }
{
    let place = installable_place(plan, kept, name, blob)?;
    carrying::keep_blob(kept, place, blob);
    Ok(())
}

// What the record says of a control.
fn told(control: &ControlPlan, kept: &ControlRec) -> Answer
    ensures { result ≡ told_by control.now.kind kept.now }
{
    match control.kind {
        ControlKind::Blob { .. } => Answer::Bytes(kept.blob.copied()),
        _ => Answer::Values(kept.values.copied()),
    }
}

/// What the record says of a control: its values by channel, or its blob. Nothing is sent, and the power may be off.
pub fn get<P: Dsp>(
    plan: &Plan,
    kept: &mut Record,
    heap: u32,
    dsp: &mut P,
    io: &mut Inputs,
    out: &mut Outputs,
    name: &Name44,
) -> Result<Answer, HostFault>
    requires plan { IsSound plan.now }
    requires kept { IsRecordOf plan.now kept.old }
    ensures asked { Tested P.means plan.now heap (get_fault plan.now kept.old name.now) (get_order plan.now kept.old name.now) kept.old kept.new
        (world dsp.old io.old out.old) (world dsp.new io.new out.new) (outcome_of result) }
    ensures answered { IfOk result (λ a. a ≡ (get_order plan.now kept.old name.now).answer) }
    ensures agree { Agrees P.means plan.now kept.old dsp.old → Agrees P.means plan.now kept.new dsp.new }
{
    let place = named_place(plan, kept, name)?;
    Ok(told(&plan.controls.items()[place], &kept.controls.items()[place]))
}

/// What the firmware says of a control: a volume's gains by channel, of which 65536 is 1, a mux's choice, or a demux's eight masks,
/// by one message; or an equaliser's blob, by a message for each of its parts. Of an equaliser without a blob nothing is asked. It is what the record
/// says, which stays. `Off`: the power is off.
pub fn read<P: Dsp>(
    plan: &Plan,
    kept: &mut Record,
    heap: u32,
    dsp: &mut P,
    io: &mut Inputs,
    out: &mut Outputs,
    name: &Name44,
) -> Result<Answer, HostFault>
    requires plan { IsSound plan.now }
    requires kept { IsRecordOf plan.now kept.old }
    requires on { kept.old.power ≡ On → is_some (P.means.on dsp.old) ≡ true }
    requires room { HasRoom (61440 * P.means.pending dsp.old) out.old }
    ensures answered { TestedAnswered P.means plan.now heap (read_fault plan.now kept.old name.now) (read_order plan.now kept.old name.now) kept.old kept.new
        (world dsp.old io.old out.old) (world dsp.new io.new out.new) (outcome_of result) }
    ensures asked { Agrees P.means plan.now kept.old dsp.old → Tested P.means plan.now heap (read_fault plan.now kept.old name.now) (read_order plan.now kept.old name.now) kept.old kept.new
        (world dsp.old io.old out.old) (world dsp.new io.new out.new) (outcome_of result) }
    // By the record, and by the firmware's own state.
    ensures told { IsSetFor P.means plan.now kept.old name.now dsp.old → IfOk result (λ a. a ≡ (read_order plan.now kept.old name.now).answer) }
    ensures shown { IsSetFor P.means plan.now kept.old name.now dsp.old → IfOk result (λ a. Shows plan.now name.now a (P.means.on dsp.new)) }
    ensures agree { Agrees P.means plan.now kept.old dsp.old → Agrees P.means plan.now kept.new dsp.new }
{
    let place = readable_place(plan, kept, name)?;
    carrying::read(
        &mut HostCall {
            plan,
            heap,
            kept,
            dsp,
            io,
            out,
        },
        place,
    )
}
