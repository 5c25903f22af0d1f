// The messages that bring a device up.
ghost use Rattle.std.specs.Prelude.{◌≡◌, ◌*◌, Some, is_some, true, false};
ghost use Rattle.sof_base.specs.Ports.{HasRoom};
ghost use Rattle.mbox_link.specs.Step.{fresh};
ghost use Rattle.mbox_link.specs.Calls.{world};
ghost use Rattle.tplg_plan.specs.Sound.{IsSound};
ghost use Rattle.host_widgets.specs.ActCarried.{ActsSent};
ghost use Rattle.host_widgets.specs.ActLists.{bring_up};
ghost use Rattle.host_widgets.specs.Host.{AreControls};
ghost use Rattle.host_widgets.specs.Bringing.{BroughtUp};
ghost use Rattle.host_widgets.specs.TestedOrders.{ActsCame};

use crate::answers::HostFault;
use crate::kept::Record;
use crate::lists::{all_indices, all_widgets, make};
use arrayvec::ArrayVec;
use mbox_link::Dsp;
use sof_io::{Inputs, Outputs};
use tplg_plan::Plan;

// Makes all pipelines, up to the first message that does not pass.
fn make_all<P: Dsp>(
    plan: &Plan,
    kept: &Record,
    dsp: &mut P,
    io: &mut Inputs,
    out: &mut Outputs,
) -> Result<(), HostFault>
    requires plan { IsSound plan.now }
    requires controls { AreControls plan.now.controls kept.now.controls }
    requires on { is_some (P.means.on dsp.old) ≡ true }
    requires room { HasRoom (61440 * P.means.pending dsp.old) out.old }
    ensures { ActsSent P.means plan.now (bring_up plan.now kept.now) (world dsp.old io.old out.old) (world dsp.new io.new out.new) result }
{
    let ids = all_widgets(plan);
    let joins = plan.graph.joins.items();
    let indices = all_indices(plan.graph.pipes.items());
    let mut made: ArrayVec<u32, 288> = ArrayVec::new();
    make(
        plan,
        kept,
        ids.as_slice(),
        joins,
        indices.as_slice(),
        &mut made,
        dsp,
        io,
        out,
    )
}

/// Sends the messages that bring a freshly booted device up to what the record says, one exchange each, up to the first that
/// does not pass: each widget is made by id, then each join is made in the graph's order, then each live control is set to what
/// the record says, by component, a blob in its parts, then each pipeline is complete by id. The record stays as it is, and
/// nothing is cut. `heap` is the device's heap in bytes.
///
/// Ok: the device keeps the plan, with what the record sets. `Refused(e)`: a message was answered with the negative error e. `LinkDown`: an exchange
/// failed.
pub fn bring_up<P: Dsp>(
    plan: &Plan,
    kept: &mut Record,
    heap: u32,
    dsp: &mut P,
    io: &mut Inputs,
    out: &mut Outputs,
) -> Result<(), HostFault>
    requires plan { IsSound plan.now }
    requires controls { AreControls plan.now.controls kept.old.controls }
    requires booted { P.means.on dsp.old ≡ Some (fresh heap) }
    requires room { HasRoom (61440 * P.means.pending dsp.old) out.old }
    // What its messages met, and their results.
    ensures acts { ActsCame P.means plan.now heap false (bring_up plan.now kept.old) kept.old kept.new (world dsp.old io.old out.old) (world dsp.new io.new out.new) result }
    // Once all have passed, the device keeps the plan with what the record sets.
    ensures left { BroughtUp P.means plan.now heap kept.old dsp.old result dsp.new }
    ensures kept { kept.new ≡ kept.old }
    ensures inputs { io.new ≡ io.old }
    ensures outputs { out.new ≡ out.old }
{
    // That no two inputs have one slot, and no position is out of range, is what keeps a silent tick silent.
    let _inputs = io.len();
    make_all(plan, kept, dsp, io, out)
}
