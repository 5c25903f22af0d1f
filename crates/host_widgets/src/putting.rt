// A live control is set to what the record says.
ghost use Rattle.std.specs.Prelude.{◌≡◌, ◌*◌, is_some, true, Some};
ghost use Rattle.sof_base.specs.Ports.{HasRoom};
ghost use Rattle.mbox_link.specs.Calls.{world};
ghost use Rattle.tplg_plan.specs.Ranges.{is_initial};
ghost use Rattle.host_widgets.specs.ActCarried.{ActsSent};
ghost use Rattle.host_widgets.specs.ActLists.{control_acts};
ghost use Rattle.host_widgets.specs.Controls.{control_of};

use crate::answers::HostFault;
use crate::controls::set_message;
use crate::kept::ControlRec;
use crate::parts::send_parts;
use crate::sending::send;
use mbox_link::Dsp;
use sof_io::{Inputs, Outputs};
use tplg_plan::{ControlKind, ControlPlan, Plan};

/// Sets a live control: by its values, or by the parts of its blob where it has one. Nothing is cut.
pub fn put_control<P: Dsp>(
    plan: &Plan,
    control: &ControlPlan,
    kept: &ControlRec,
    dsp: &mut P,
    io: &mut Inputs,
    out: &mut Outputs,
) -> Result<(), HostFault>
    requires first { control_of plan.now control.now.comp ≡ Some control.now }
    requires blob { is_initial kept.now.blob ≡ true }
    requires on { is_some (P.means.on dsp.old) ≡ true }
    requires room { HasRoom (61440 * P.means.pending dsp.old) out.old }
    ensures { ActsSent P.means plan.now (control_acts (control.now, kept.now)) (world dsp.old io.old out.old) (world dsp.new io.new out.new) result }
{
    match control.kind {
        ControlKind::Blob { .. } => {
            let blob = kept.blob.items();
            if blob.is_empty() {
                return Ok(());
            }
            send_parts(control.comp, blob, dsp, io, out)
        }
        _ => {
            let setting = set_message(control.comp, &control.kind, &kept.values);
            send(&setting, dsp, io, out)?;
            Ok(())
        }
    }
}
