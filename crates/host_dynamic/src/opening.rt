// Streams are opened and closed: what one needs is made when it is opened, and what no stream needs any more is unmade when one is closed.
ghost use Rattle.std.specs.Prelude.{◌≡◌, ◌==◌, ◌*◌, ◌+◌, ◌<◌, ◌≤◌, ◌++◌, ℕ, length, filter, not, is_some, true, unwrap_or, Err};
ghost use Rattle.std.specs.List.{list_any};
ghost use Rattle.sof_base.specs.Ports.{HasRoom};
ghost use Rattle.stream_law.specs.Order.{is_among};
ghost use Rattle.mbox_link.specs.Calls.{Did, Cut, world};
ghost use Rattle.tplg_plan.specs.Sound.{IsSound};
ghost use Rattle.host_widgets.specs.Host.{IsRecordOf};
ghost use Rattle.host_widgets.specs.Kept.{went_down};
ghost use Rattle.host_widgets.specs.Sides.{SameSide, world_of};
ghost use Rattle.host_widgets.specs.Walk.{first_of};
ghost use Rattle.host_widgets.specs.Routines.{JobTested};
ghost use Rattle.host_pcm.specs.Asks.{early_fault, is_closed, stream_at, stream_place};
ghost use Rattle.host_pcm.specs.StreamCalls.{host_at};
ghost use Rattle.host_dynamic.specs.Dynamic as law;
ghost use Rattle.host_dynamic.specs.Dynamic.{opening_job, closing_job};
ghost use Rattle.host_widgets.specs.UpState.{up_act_rules};
ghost use Rattle.host_widgets.specs.UpActs.{widgets_of};
ghost use Rattle.host_dynamic.specs.Spreading as spreading;
ghost use Rattle.host_widgets.specs.There.{shown_ids};
ghost use Rattle.host_dynamic.specs.UpCalls.{AfterMaking, MadeOrCut, MadeWhereOn, Unmade, UnmadeWhereOn};
ghost use Rattle.host_dynamic.specs.UpDevices.{UpAgrees, up_state_in};
ghost use Rattle.host_dynamic.specs.UpStates.{IsUpState};

use crate::ids::{append, keep, lose};
use crate::lists::{make, unmake};
use crate::needing::{mark_host, need_of, needed_from};
use arrayvec::ArrayVec;
use host_pcm::{Ask, close_at, open_at, tested};
use host_widgets::{
    Found, HostCall, HostFault, Power, Record, StreamRec, all_widgets, has, link_down, widget_index,
};
use mbox_link::Dsp;
use sof_base::{Bounded, Name44};
use sof_io::{Inputs, Outputs};
use tplg_plan::{Plan, StreamPlan};

// ---- which

// The indices that a stream needs and that are not up, by the ids of pipelines.
fn lacking(plan: &Plan, up: &[u32], host: u32) -> ArrayVec<u32, 32>
    requires plan { IsSound plan.now }
    requires host { list_any (λ s. s.host == host) plan.now.streams ≡ true }
    ensures { result.items ≡ law.lacking plan.now up.now host }
{
    let mut indices = need_of(plan, host);
    lose(&mut indices, up);
    indices
}

// Whether a stream that stands so is closed.
fn is_closed(found: Found) -> bool
    ensures { result ≡ is_closed found }
{
    match found {
        Found::Closed => true,
        Found::Open | Found::Prepared | Found::Running | Found::Paused | Found::On => false,
    }
}

// Marks where a stream's walks begin, unless it is closed.
fn mark_stream(
    plan: &Plan,
    stream: &StreamPlan,
    kept: StreamRec,
    onward: &mut [bool; 288],
    back: &mut [bool; 288],
)
    requires host { stream.now.host < 288 }
    requires onward { length onward.old ≡ 288 }
    requires back { length back.old ≡ 288 }
    ensures onward { onward.new ≡ spreading.stream_onward plan.now.graph (stream.now, kept) onward.old }
    ensures back { back.new ≡ spreading.stream_back plan.now.graph (stream.now, kept) back.old }
{
    if !is_closed(kept.found) {
        mark_host(&plan.graph, stream.host, onward, back);
    }
}

// The indices that the streams need that are not closed, each once.
fn needed(plan: &Plan, kept: &Record) -> ArrayVec<u32, 32>
    requires plan { IsSound plan.now }
    requires streams { length kept.now.streams ≡ length plan.now.streams }
    ensures { (i : ℕ) → is_among result.items i ≡ is_among (law.needed plan.now kept.now) i }
{
    let mut onward = [false; 288];
    let mut back = [false; 288];
    let count = plan.streams.items().len();
    for place in 0..count {
        let stream = &plan.streams.items()[place];
        mark_stream(
            plan,
            stream,
            kept.streams.items()[place],
            &mut onward,
            &mut back,
        );
    }
    needed_from(plan, &mut onward, &mut back)
}

// The ids of the widgets of these indices.
fn widgets_in(plan: &Plan, indices: &[u32]) -> ArrayVec<u32, 288>
    requires { length plan.now.widgets ≤ 288 }
    ensures { result.items ≡ shown_ids plan.now indices.now }
{
    let mut ids = all_widgets(plan);
    ids.retain(|id| has(indices, widget_index(plan, *id)));
    ids
}

// These indices, as what is up.
fn list_of(indices: &[u32]) -> Bounded<u32, 32>
    requires { length indices.now ≤ 32 }
    ensures { result ≡ indices.now }
{
    match Bounded::new(indices) {
        Some(list) => list,
        // Never so: there are at most 32.
        None => Bounded::empty(),
    }
}

// ---- making and unmaking

// The device is cut, and no stream moves.
fn go_down<P: Dsp>(side: &mut HostCall<'_, P>)
    ensures calls { Did P.means Cut (world_of side.old) (world_of side.new) }
    ensures kept { side.new.kept.now ≡ went_down side.old.kept.now }
    ensures same { SameSide side.old side.new }
{
    link_down(side.plan, side.kept, side.dsp, side.io, side.out);
}

// Unmakes what these ids name; a failure cuts the device.
fn unmake_or_cut<P: Dsp>(side: &mut HostCall<'_, P>, made: &[u32]) -> Result<(), HostFault>
    requires plan { IsSound side.old.plan.now }
    requires on { is_some (P.means.on side.old.dsp.now) ≡ true }
    requires room { HasRoom (61440 * P.means.pending side.old.dsp.now) side.old.out.now }
    ensures did { Unmade P.means side.old.plan.now side.old.heap made.now side.old.kept.now side.new.kept.now (world_of side.old) (world_of side.new) result }
    ensures same { SameSide side.old side.new }
{
    match unmake(side.plan, made, side.dsp, side.io, side.out) {
        Ok(()) => Ok(()),
        Err(fault) => {
            go_down(side);
            Err(fault)
        }
    }
}

// The result of a refusal whose pipelines were unmade: a failed link is reported before it.
fn first_told(refusal: HostFault, done: Result<(), HostFault>) -> Result<(), HostFault>
    ensures { result ≡ first_of (Err refusal) done }
{
    match done {
        Err(HostFault::LinkDown) => Err(HostFault::LinkDown),
        _ => Err(refusal),
    }
}

// After a failure while pipelines were made: a refusal unmakes what these ids name, and a failed link cuts the device.
fn unmake_after<P: Dsp>(
    side: &mut HostCall<'_, P>,
    made: &[u32],
    fault: HostFault,
) -> Result<(), HostFault>
    requires plan { IsSound side.old.plan.now }
    requires on { is_some (P.means.on side.old.dsp.now) ≡ true }
    requires room { HasRoom (61440 * P.means.pending side.old.dsp.now) side.old.out.now }
    ensures did { AfterMaking P.means side.old.plan.now side.old.heap made.now (Err fault) side.old.kept.now side.new.kept.now (world_of side.old) (world_of side.new) result }
    ensures same { SameSide side.old side.new }
{
    match fault {
        HostFault::Refused(e) => {
            let done = unmake_or_cut(side, made);
            first_told(HostFault::Refused(e), done)
        }
        _ => {
            go_down(side);
            Err(fault)
        }
    }
}

// Makes the pipelines of these indices. A refusal unmakes what was made; a failed link, and a failure while unmaking, cut the device.
fn make_or_unmake<P: Dsp>(side: &mut HostCall<'_, P>, indices: &[u32]) -> Result<(), HostFault>
    requires plan { IsSound side.old.plan.now }
    requires kept { IsRecordOf side.old.plan.now side.old.kept.now }
    requires few { length (widgets_of side.old.plan.now indices.now) ≤ 288 }
    requires on { is_some (P.means.on side.old.dsp.now) ≡ true }
    requires room { HasRoom (61440 * P.means.pending side.old.dsp.now) side.old.out.now }
    ensures did { MadeOrCut P.means side.old.plan.now side.old.heap indices.now side.old.kept.now side.new.kept.now (world_of side.old) (world_of side.new) result }
    ensures same { SameSide side.old side.new }
{
    let mut made: ArrayVec<u32, 288> = ArrayVec::new();
    match make(
        side.plan, side.kept, indices, &mut made, side.dsp, side.io, side.out,
    ) {
        Ok(()) => Ok(()),
        Err(fault) => unmake_after(side, made.as_slice(), fault),
    }
}

// Makes the pipelines of these indices, where the power is on.
fn make_where_on<P: Dsp>(side: &mut HostCall<'_, P>, indices: &[u32]) -> Result<(), HostFault>
    requires plan { IsSound side.old.plan.now }
    requires kept { IsRecordOf side.old.plan.now side.old.kept.now }
    requires few { length (widgets_of side.old.plan.now indices.now) ≤ 288 }
    requires on { side.old.kept.now.power ≡ Power.On → is_some (P.means.on side.old.dsp.now) ≡ true }
    requires room { HasRoom (61440 * P.means.pending side.old.dsp.now) side.old.out.now }
    ensures did { MadeWhereOn P.means side.old.plan.now side.old.heap indices.now side.old.kept.now.power side.old.kept.now side.new.kept.now (world_of side.old) (world_of side.new) result }
    ensures same { SameSide side.old side.new }
{
    match side.kept.power {
        Power::On => make_or_unmake(side, indices),
        Power::Unloaded | Power::Off => Ok(()),
    }
}

// Unmakes what these ids name, where the power is on.
fn unmake_where_on<P: Dsp>(side: &mut HostCall<'_, P>, made: &[u32]) -> Result<(), HostFault>
    requires plan { IsSound side.old.plan.now }
    requires on { side.old.kept.now.power ≡ Power.On → is_some (P.means.on side.old.dsp.now) ≡ true }
    requires room { HasRoom (61440 * P.means.pending side.old.dsp.now) side.old.out.now }
    ensures did { UnmadeWhereOn P.means side.old.plan.now side.old.heap made.now side.old.kept.now.power side.old.kept.now side.new.kept.now (world_of side.old) (world_of side.new) result }
    ensures same { SameSide side.old side.new }
{
    match side.kept.power {
        Power::On => unmake_or_cut(side, made),
        Power::Unloaded | Power::Off => Ok(()),
    }
}

// ---- calls

/// Opens the stream of this name: what it needs and is not up is made, index by index, and is up after what was. While the power is off,
/// only what should be there changes. It takes no memory.
///
/// `NotLoaded`, `NoSuch(name)` and `State(found)` as where all pipelines are made at a load; then nothing changes. `Refused(e)`: a message
/// was answered with the negative error e, and what was made is unmade again; the firmware itself answers -12 to a widget exactly where no
/// hole of the heap holds its rounded size. `LinkDown`: an exchange failed, and the device is cut. The stream stays closed, and what is up
/// stays so. A failure while unmaking cuts the device too; the answer is then the refusal before it, or `LinkDown` where an exchange failed.
pub fn open<P: Dsp>(
    plan: &Plan,
    kept: &mut Record,
    up: &mut Bounded<u32, 32>,
    heap: u32,
    dsp: &mut P,
    io: &mut Inputs,
    out: &mut Outputs,
    name: &Name44,
) -> Result<(), HostFault>
    requires plan { IsSound plan.now }
    requires state { IsUpState plan.now (up_state_in P.means kept.old up.old dsp.old) }
    requires agree { UpAgrees P.means plan.now kept.old up.old dsp.old }
    requires room { HasRoom (61440 * P.means.pending dsp.old) out.old }
    ensures done { JobTested P.means (up_act_rules plan.now) heap (early_fault plan.now kept.old name.now Ask.Opening) (opening_job plan.now (up_state_in P.means kept.old up.old dsp.old) (host_at plan.now (unwrap_or (stream_place plan.now name.now) 0)))
        (up_state_in P.means kept.old up.old dsp.old) (up_state_in P.means kept.new up.new dsp.new) (world dsp.old io.old out.old) (world dsp.new io.new out.new) result }
    ensures state { IsUpState plan.now (up_state_in P.means kept.new up.new dsp.new) }
    ensures agree { UpAgrees P.means plan.now kept.new up.new dsp.new }
{
    let place = tested(plan, kept, name, Ask::Opening)?;
    let indices = lacking(plan, up.items(), plan.streams.items()[place].host);
    let mut side = HostCall {
        plan,
        heap,
        kept,
        dsp,
        io,
        out,
    };
    make_where_on(&mut side, indices.as_slice())?;
    open_at(side.kept, place);
    raise(up, indices.as_slice());
    Ok(())
}

// These indices.
fn listed(indices: &[u32]) -> ArrayVec<u32, 32>
    requires { length indices.now ≤ 32 }
    ensures { result.items ≡ indices.now }
{
    let mut list: ArrayVec<u32, 32> = ArrayVec::new();
    append(&mut list, indices);
    list
}

// More indices are up.
fn raise(up: &mut Bounded<u32, 32>, indices: &[u32])
    requires { length up.old + length indices.now ≤ 32 }
    ensures { up.new ≡ up.old ++ indices.now }
{
    let mut list = listed(up.items());
    append(&mut list, indices);
    *up = list_of(list.as_slice());
}

// Leaves what is up that streams need, and hands over the rest.
fn part(plan: &Plan, kept: &Record, up: &mut Bounded<u32, 32>) -> ArrayVec<u32, 32>
    requires plan { IsSound plan.now }
    requires kept { IsRecordOf plan.now kept.now }
    ensures staying { up.new ≡ filter (is_among (law.needed plan.now kept.now)) up.old }
    ensures parting { result.items ≡ filter (λ i. not (is_among (law.needed plan.now kept.now) i)) up.old }
{
    let needed = needed(plan, kept);
    let mut parting = listed(up.items());
    lose(&mut parting, needed.as_slice());
    let mut staying = listed(up.items());
    keep(&mut staying, needed.as_slice());
    *up = list_of(staying.as_slice());
    parting
}

/// Closes the stream of this name: where it has parameters and the power is on, it is stopped where it runs or is paused, and freed;
/// then what no other stream needs is unmade, and is not up any more. While the power is off, only what should be there changes. It takes
/// no memory.
///
/// `NotLoaded`, `NoSuch(name)` and `State(found)` as where all pipelines are made at a load; then nothing changes. `Refused(e)`: a message
/// was answered with the negative error e. Where that is one that stops or frees the stream, what passed before it stands, and nothing is
/// unmade; where it is one that unmakes, the stream is closed, what was to go is not up, and the device is cut. `LinkDown`: an exchange
/// failed, and the device is cut. Where that is one that stops or frees the stream, the stream is prepared, and what is up is as before;
/// where it is one that unmakes, the stream is closed, and what was to go is not up.
pub fn close<P: Dsp>(
    plan: &Plan,
    kept: &mut Record,
    up: &mut Bounded<u32, 32>,
    heap: u32,
    dsp: &mut P,
    io: &mut Inputs,
    out: &mut Outputs,
    name: &Name44,
) -> Result<(), HostFault>
    requires plan { IsSound plan.now }
    requires state { IsUpState plan.now (up_state_in P.means kept.old up.old dsp.old) }
    requires agree { UpAgrees P.means plan.now kept.old up.old dsp.old }
    requires room { HasRoom (61440 * P.means.pending dsp.old) out.old }
    ensures done { JobTested P.means (up_act_rules plan.now) heap (early_fault plan.now kept.old name.now Ask.Closing)
        (closing_job plan.now (up_state_in P.means kept.old up.old dsp.old) (host_at plan.now (unwrap_or (stream_place plan.now name.now) 0)) (stream_at kept.old (unwrap_or (stream_place plan.now name.now) 0)).found)
        (up_state_in P.means kept.old up.old dsp.old) (up_state_in P.means kept.new up.new dsp.new) (world dsp.old io.old out.old) (world dsp.new io.new out.new) result }
    ensures state { IsUpState plan.now (up_state_in P.means kept.new up.new dsp.new) }
    ensures agree { UpAgrees P.means plan.now kept.new up.new dsp.new }
{
    let place = tested(plan, kept, name, Ask::Closing)?;
    let mut side = HostCall {
        plan,
        heap,
        kept,
        dsp,
        io,
        out,
    };
    match close_at(&mut side, place) {
        Ok(()) => {
            let parting = part(plan, side.kept, up);
            let gone = widgets_in(plan, parting.as_slice());
            unmake_where_on(&mut side, gone.as_slice())
        }
        // Nothing is unmade.
        Err(fault) => Err(fault),
    }
}
