// The host's calls on streams: one for whatever is asked, and one for each ask, in the order of the table. Each takes no memory.
//
// All of them may answer `NotLoaded`: nothing is loaded; `NoSuch(name)`: no stream has this name; and `State(found)`: the
// stream stands so. Those that send may answer `Refused(e)`: a message was answered with the negative error e, and what
// passed before it stands; and `LinkDown`: an exchange failed, so the device is cut, the record says that the power is off,
// and streams that ran or were paused are prepared.
ghost use Rattle.std.specs.Prelude.{◌≡◌, ◌*◌, is_some, true};
ghost use Rattle.sof_base.specs.Ports.{HasRoom};
ghost use Rattle.mbox_link.specs.Calls.{world};
ghost use Rattle.tplg_plan.specs.Sound.{IsSound};
ghost use Rattle.host_widgets.specs.declared.kept.Power.TheVariants.{On};
ghost use Rattle.host_widgets.specs.AnsweredOrders.{TestedAnswered};
ghost use Rattle.host_widgets.specs.Host.{Agrees, IsRecordOf};
ghost use Rattle.host_pcm.specs.Asks.{early_fault};
ghost use Rattle.host_pcm.specs.StreamCalls.{Asked};
ghost use Rattle.host_pcm.specs.StreamOrders.{stream_order};

use crate::asking::{Ask, tested};
use crate::carrying;
use host_widgets::{HostCall, HostFault, Record, Trigger};
use mbox_link::Dsp;
use sof_base::{Name44, Params};
use sof_io::{Inputs, Outputs};
use tplg_plan::Plan;

/// Carries out what is asked of the stream of this name: `Opening` is `open`, `Preparing` is `params`, `Triggering` is `start`, `stop`,
/// `pause` or `release` by its trigger, and `Closing` is `close`.
///
/// `Off`: the power is off, of a `Preparing` or a `Triggering`. `Range(n)`: of a `Preparing`, as `params` says. `Refused(e)` and
/// `LinkDown`: of all but an `Opening`, which sends nothing.
pub fn ask<P: Dsp>(
    plan: &Plan,
    kept: &mut Record,
    heap: u32,
    dsp: &mut P,
    io: &mut Inputs,
    out: &mut Outputs,
    name: &Name44,
    ask: Ask,
) -> Result<(), HostFault>
    requires plan { IsSound plan.now }
    requires kept { IsRecordOf plan.now kept.old }
    requires on { kept.old.power ≡ On → is_some (P.means.on dsp.old) ≡ true }
    requires room { HasRoom (61440 * P.means.pending dsp.old) out.old }
    ensures answered { TestedAnswered P.means plan.now heap (early_fault plan.now kept.old name.now ask) (stream_order plan.now kept.old name.now ask) kept.old kept.new
        (world dsp.old io.old out.old) (world dsp.new io.new out.new) result }
    ensures asked { Agrees P.means plan.now kept.old dsp.old → Asked P.means plan.now heap name.now ask kept.old kept.new
        (world dsp.old io.old out.old) (world dsp.new io.new out.new) result }
    ensures agree { Agrees P.means plan.now kept.old dsp.old → Agrees P.means plan.now kept.new dsp.new }
{
    let place = tested(plan, kept, name, ask)?;
    let mut side = HostCall {
        plan,
        heap,
        kept,
        dsp,
        io,
        out,
    };
    match ask {
        Ask::Opening => {
            carrying::open(side.kept, place);
            Ok(())
        }
        Ask::Preparing(p) => carrying::prepare(&mut side, place, p),
        Ask::Triggering(what) => carrying::trigger(&mut side, place, what),
        Ask::Closing => carrying::close(&mut side, place),
    }
}

/// A closed stream is open. Nothing is sent, and the power may be off.
pub fn open<P: Dsp>(
    plan: &Plan,
    kept: &mut Record,
    heap: u32,
    dsp: &mut P,
    io: &mut Inputs,
    out: &mut Outputs,
    name: &Name44,
) -> Result<(), HostFault>
    requires plan { IsSound plan.now }
    requires kept { IsRecordOf plan.now kept.old }
    ensures asked { Asked P.means plan.now heap name.now Ask.Opening kept.old kept.new
        (world dsp.old io.old out.old) (world dsp.new io.new out.new) result }
    ensures agree { Agrees P.means plan.now kept.old dsp.old → Agrees P.means plan.now kept.new dsp.new }
{
    let place = tested(plan, kept, name, Ask::Opening)?;
    carrying::open(kept, place);
    Ok(())
}

/// A stream that is open or prepared has these parameters, and is prepared.
///
/// `Off`: the power is off. `Range(n)`: the rate is none of a stream ([`sof_base::is_rate`]) or outside the PCM's caps; or
/// else the channels are not 1 to 8 or outside the caps; or else the caps lack the format, and n is ALSA's number of it.
pub fn params<P: Dsp>(
    plan: &Plan,
    kept: &mut Record,
    heap: u32,
    dsp: &mut P,
    io: &mut Inputs,
    out: &mut Outputs,
    name: &Name44,
    p: Params,
) -> Result<(), HostFault>
    requires plan { IsSound plan.now }
    requires kept { IsRecordOf plan.now kept.old }
    requires on { kept.old.power ≡ On → is_some (P.means.on dsp.old) ≡ true }
    requires room { HasRoom (61440 * P.means.pending dsp.old) out.old }
    ensures answered { TestedAnswered P.means plan.now heap (early_fault plan.now kept.old name.now (Ask.Preparing p)) (stream_order plan.now kept.old name.now (Ask.Preparing p)) kept.old kept.new
        (world dsp.old io.old out.old) (world dsp.new io.new out.new) result }
    ensures asked { Agrees P.means plan.now kept.old dsp.old → Asked P.means plan.now heap name.now (Ask.Preparing p) kept.old kept.new
        (world dsp.old io.old out.old) (world dsp.new io.new out.new) result }
    ensures agree { Agrees P.means plan.now kept.old dsp.old → Agrees P.means plan.now kept.new dsp.new }
{
    ask(plan, kept, heap, dsp, io, out, name, Ask::Preparing(p))
}

/// A prepared stream runs. `Off`: the power is off.
pub fn start<P: Dsp>(
    plan: &Plan,
    kept: &mut Record,
    heap: u32,
    dsp: &mut P,
    io: &mut Inputs,
    out: &mut Outputs,
    name: &Name44,
) -> Result<(), HostFault>
    requires plan { IsSound plan.now }
    requires kept { IsRecordOf plan.now kept.old }
    requires on { kept.old.power ≡ On → is_some (P.means.on dsp.old) ≡ true }
    requires room { HasRoom (61440 * P.means.pending dsp.old) out.old }
    ensures answered { TestedAnswered P.means plan.now heap (early_fault plan.now kept.old name.now (Ask.Triggering Trigger.Start)) (stream_order plan.now kept.old name.now (Ask.Triggering Trigger.Start)) kept.old kept.new
        (world dsp.old io.old out.old) (world dsp.new io.new out.new) result }
    ensures asked { Agrees P.means plan.now kept.old dsp.old → Asked P.means plan.now heap name.now (Ask.Triggering Trigger.Start) kept.old kept.new
        (world dsp.old io.old out.old) (world dsp.new io.new out.new) result }
    ensures agree { Agrees P.means plan.now kept.old dsp.old → Agrees P.means plan.now kept.new dsp.new }
{
    ask(
        plan,
        kept,
        heap,
        dsp,
        io,
        out,
        name,
        Ask::Triggering(Trigger::Start),
    )
}

/// A stream that runs or is paused is prepared. `Off`: the power is off.
pub fn stop<P: Dsp>(
    plan: &Plan,
    kept: &mut Record,
    heap: u32,
    dsp: &mut P,
    io: &mut Inputs,
    out: &mut Outputs,
    name: &Name44,
) -> Result<(), HostFault>
    requires plan { IsSound plan.now }
    requires kept { IsRecordOf plan.now kept.old }
    requires on { kept.old.power ≡ On → is_some (P.means.on dsp.old) ≡ true }
    requires room { HasRoom (61440 * P.means.pending dsp.old) out.old }
    ensures answered { TestedAnswered P.means plan.now heap (early_fault plan.now kept.old name.now (Ask.Triggering Trigger.Stop)) (stream_order plan.now kept.old name.now (Ask.Triggering Trigger.Stop)) kept.old kept.new
        (world dsp.old io.old out.old) (world dsp.new io.new out.new) result }
    ensures asked { Agrees P.means plan.now kept.old dsp.old → Asked P.means plan.now heap name.now (Ask.Triggering Trigger.Stop) kept.old kept.new
        (world dsp.old io.old out.old) (world dsp.new io.new out.new) result }
    ensures agree { Agrees P.means plan.now kept.old dsp.old → Agrees P.means plan.now kept.new dsp.new }
{
    ask(
        plan,
        kept,
        heap,
        dsp,
        io,
        out,
        name,
        Ask::Triggering(Trigger::Stop),
    )
}

/// A stream that runs is paused. `Off`: the power is off.
pub fn pause<P: Dsp>(
    plan: &Plan,
    kept: &mut Record,
    heap: u32,
    dsp: &mut P,
    io: &mut Inputs,
    out: &mut Outputs,
    name: &Name44,
) -> Result<(), HostFault>
    requires plan { IsSound plan.now }
    requires kept { IsRecordOf plan.now kept.old }
    requires on { kept.old.power ≡ On → is_some (P.means.on dsp.old) ≡ true }
    requires room { HasRoom (61440 * P.means.pending dsp.old) out.old }
    ensures answered { TestedAnswered P.means plan.now heap (early_fault plan.now kept.old name.now (Ask.Triggering Trigger.Pause)) (stream_order plan.now kept.old name.now (Ask.Triggering Trigger.Pause)) kept.old kept.new
        (world dsp.old io.old out.old) (world dsp.new io.new out.new) result }
    ensures asked { Agrees P.means plan.now kept.old dsp.old → Asked P.means plan.now heap name.now (Ask.Triggering Trigger.Pause) kept.old kept.new
        (world dsp.old io.old out.old) (world dsp.new io.new out.new) result }
    ensures agree { Agrees P.means plan.now kept.old dsp.old → Agrees P.means plan.now kept.new dsp.new }
{
    ask(
        plan,
        kept,
        heap,
        dsp,
        io,
        out,
        name,
        Ask::Triggering(Trigger::Pause),
    )
}

/// A paused stream runs. `Off`: the power is off.
pub fn release<P: Dsp>(
    plan: &Plan,
    kept: &mut Record,
    heap: u32,
    dsp: &mut P,
    io: &mut Inputs,
    out: &mut Outputs,
    name: &Name44,
) -> Result<(), HostFault>
    requires plan { IsSound plan.now }
    requires kept { IsRecordOf plan.now kept.old }
    requires on { kept.old.power ≡ On → is_some (P.means.on dsp.old) ≡ true }
    requires room { HasRoom (61440 * P.means.pending dsp.old) out.old }
    ensures answered { TestedAnswered P.means plan.now heap (early_fault plan.now kept.old name.now (Ask.Triggering Trigger.Release)) (stream_order plan.now kept.old name.now (Ask.Triggering Trigger.Release)) kept.old kept.new
        (world dsp.old io.old out.old) (world dsp.new io.new out.new) result }
    ensures asked { Agrees P.means plan.now kept.old dsp.old → Asked P.means plan.now heap name.now (Ask.Triggering Trigger.Release) kept.old kept.new
        (world dsp.old io.old out.old) (world dsp.new io.new out.new) result }
    ensures agree { Agrees P.means plan.now kept.old dsp.old → Agrees P.means plan.now kept.new dsp.new }
{
    ask(
        plan,
        kept,
        heap,
        dsp,
        io,
        out,
        name,
        Ask::Triggering(Trigger::Release),
    )
}

/// A stream that is not closed is closed: where the power is on, it is stopped where it runs or is paused, and freed where it
/// has parameters. While the power is off, the record alone changes.
pub fn close<P: Dsp>(
    plan: &Plan,
    kept: &mut Record,
    heap: u32,
    dsp: &mut P,
    io: &mut Inputs,
    out: &mut Outputs,
    name: &Name44,
) -> Result<(), HostFault>
    requires plan { IsSound plan.now }
    requires kept { IsRecordOf plan.now kept.old }
    requires on { kept.old.power ≡ On → is_some (P.means.on dsp.old) ≡ true }
    requires room { HasRoom (61440 * P.means.pending dsp.old) out.old }
    ensures answered { TestedAnswered P.means plan.now heap (early_fault plan.now kept.old name.now Ask.Closing) (stream_order plan.now kept.old name.now Ask.Closing) kept.old kept.new
        (world dsp.old io.old out.old) (world dsp.new io.new out.new) result }
    ensures asked { Agrees P.means plan.now kept.old dsp.old → Asked P.means plan.now heap name.now Ask.Closing kept.old kept.new
        (world dsp.old io.old out.old) (world dsp.new io.new out.new) result }
    ensures agree { Agrees P.means plan.now kept.old dsp.old → Agrees P.means plan.now kept.new dsp.new }
{
    ask(plan, kept, heap, dsp, io, out, name, Ask::Closing)
}
