// What is left after the link failed.
ghost use Rattle.std.specs.Prelude.{◌≡◌, ◌<◌, ◌≤◌, length, map, take, drop, ◌++◌};
ghost use Rattle.mbox_link.specs.Calls.{Cut, Did, world};
ghost use Rattle.host_widgets.specs.HostRecord.{halted, halted_found};
ghost use Rattle.host_widgets.specs.Kept.{went_down};
ghost use Rattle.host_widgets.specs.Host.{Agrees, IsRecordOf};

use crate::kept::{Found, Power, Record, StreamRec};
use mbox_link::Dsp;
use sof_base::Items;
use sof_io::{Inputs, Outputs};
use tplg_plan::Plan;

// A stream that was running or paused is prepared.
fn halted_found(found: Found) -> Found
    ensures { result ≡ halted_found found }
{
    match found {
        Found::Running | Found::Paused => Found::Prepared,
        found => found,
    }
}

// No stream runs or is paused.
fn halt_all(streams: &mut Items<StreamRec>)
    ensures { streams.new ≡ map halted streams.old }
{
    let count = streams.items().len();
    for place in 0..count {
        let stream = streams.items()[place];
        streams.put(
            place,
            StreamRec {
                found: halted_found(stream.found),
                params: stream.params,
            },
        );
    }
}

/// Cuts the device after a failed exchange: the record says that the power is off, and streams that ran or were paused are
/// prepared. All else stays. It takes no memory.
pub fn link_down<P: Dsp>(
    plan: &Plan,
    kept: &mut Record,
    dsp: &mut P,
    io: &mut Inputs,
    out: &mut Outputs,
)
    ensures calls { Did P.means Cut (world dsp.old io.old out.old) (world dsp.new io.new out.new) }
    ensures kept { kept.new ≡ went_down kept.old }
    // A record of the plan agrees with the device then.
    ensures agree { IsRecordOf plan.now kept.old → Agrees P.means plan.now kept.new dsp.new }
{
    dsp.cut();
    kept.power = Power::Off;
    halt_all(&mut kept.streams);
}
