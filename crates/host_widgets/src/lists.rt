// The messages that make pipelines, one exchange each, up to the first that does not pass. Nothing is cut.
ghost use Rattle.std.specs.Prelude.{◌≡◌, ◌≤◌, ◌<◌, ◌+◌, ◌*◌, Some, length, map, filter, is_some, true};
ghost use Rattle.std.specs.List.{flat_map, AllByRecursion};
ghost use Rattle.arrayvec.specs.ArrayVec.{array_vec_len};
ghost use Rattle.sof_base.specs.Ports.{HasRoom};
ghost use Rattle.stream_law.specs.Order.{is_among};
ghost use Rattle.mbox_link.specs.Calls.{world};
ghost use Rattle.tplg_plan.specs.Ranges.{is_initial};
ghost use Rattle.tplg_plan.specs.Sound.{IsLive, IsSound};
ghost use Rattle.host_widgets.specs.Acts.{widget_ids, widget_words};
ghost use Rattle.host_widgets.specs.ActCarried.{ActsSent};
ghost use Rattle.host_widgets.specs.ActLists.{control_acts};
ghost use Rattle.host_widgets.specs.Controls.{control_of};
ghost use Rattle.host_widgets.specs.Groups as law;
ghost use Rattle.host_widgets.specs.Host.{AreControls};
ghost use Rattle.host_widgets.specs.HostActs.{Make, Join, Finish};
ghost use Rattle.host_widgets.specs.Kept.{controls_of};
ghost use Rattle.host_widgets.specs.MadeLists.{MadeListed};

use crate::answers::HostFault;
use crate::kept::{ControlRec, Record};
use crate::messages::make_message;
use crate::putting::put_control;
use crate::sending::send;
use arrayvec::ArrayVec;
use ipc3_codec::Message;
use mbox_link::Dsp;
use sof_io::{Inputs, Outputs};
use stream_law::{Join as Joined, Pipe};
use tplg_plan::{ControlPlan, Plan};

// ---- indices

/// Whether an index is among these.
pub fn has(indices: &[u32], index: u32) -> bool
    ensures { result ≡ is_among indices.now index }
{
    indices.iter().any(|other| *other == index)
}

/// The index of a widget's pipeline; 0 where no widget has this id.
pub fn widget_index(plan: &Plan, id: u32) -> u32
    ensures { result ≡ (widget_words plan.now id).pipe }
{
    match plan.widgets.items().get(id as usize) {
        Some(words) => words.pipe,
        // No widget has this id.
        None => 0,
    }
}

/// The indices of all pipelines, by the ids of these pipelines.
pub fn all_indices(pipes: &[Pipe]) -> ArrayVec<u32, 32>
    requires { length pipes.now ≤ 32 }
    ensures { result.items ≡ map (λ p. p.index) pipes.now }
{
    let mut all: ArrayVec<u32, 32> = ArrayVec::new();
    for pipe in pipes {
        all.push(pipe.index);
    }
    all
}

/// The ids of all widgets.
pub fn all_widgets(plan: &Plan) -> ArrayVec<u32, 288>
    requires { length plan.now.widgets ≤ 288 }
    ensures { result.items ≡ widget_ids plan.now }
{
    let mut ids = ArrayVec::new();
    for id in 0..plan.widgets.items().len() {
        ids.push(id as u32);
    }
    ids
}

// ---- widgets and joins

// Makes these widgets, one after another, and lists those that were made. Those that were listed and these are at most 288.
fn make_widgets<P: Dsp>(
    plan: &Plan,
    ids: &[u32],
    made: &mut ArrayVec<u32, 288>,
    dsp: &mut P,
    io: &mut Inputs,
    out: &mut Outputs,
) -> Result<(), HostFault>
    requires few { array_vec_len made.old + length ids.now ≤ 288 }
    requires low { AllByRecursion (λ id. id < length plan.now.widgets) ids.now }
    requires on { is_some (P.means.on dsp.old) ≡ true }
    requires room { HasRoom (61440 * P.means.pending dsp.old) out.old }
    ensures { MadeListed P.means plan.now (map Make ids.now) made.old.items made.new.items (world dsp.old io.old out.old) (world dsp.new io.new out.new) result }
{
    for id in ids {
        let words = &plan.widgets.items()[*id as usize];
        send(&make_message(plan, *id, words), dsp, io, out)?;
        made.push(*id);
    }
    Ok(())
}

// Makes these joins, one after another.
fn make_joins<P: Dsp>(
    plan: &Plan,
    joins: &[Joined],
    dsp: &mut P,
    io: &mut Inputs,
    out: &mut Outputs,
) -> Result<(), HostFault>
    requires on { is_some (P.means.on dsp.old) ≡ true }
    requires room { HasRoom (61440 * P.means.pending dsp.old) out.old }
    ensures { ActsSent P.means plan.now (map (λ j. Join j.source j.sink) joins.now) (world dsp.old io.old out.old) (world dsp.new io.new out.new) result }
{
    for join in joins {
        let message = Message::Connect {
            source: join.source,
            sink: join.sink,
        };
        send(&message, dsp, io, out)?;
    }
    Ok(())
}

// ---- controls

// Sets a live control to what the record says, where its component is of these indices.
fn put_control_of<P: Dsp>(
    plan: &Plan,
    control: &ControlPlan,
    kept: &ControlRec,
    indices: &[u32],
    dsp: &mut P,
    io: &mut Inputs,
    out: &mut Outputs,
) -> Result<(), HostFault>
    requires plan { IsSound plan.now }
    requires live { IsLive plan.now.graph control.now }
    requires first { control_of plan.now control.now.comp ≡ Some control.now }
    requires blob { is_initial kept.now.blob ≡ true }
    requires on { is_some (P.means.on dsp.old) ≡ true }
    requires room { HasRoom (61440 * P.means.pending dsp.old) out.old }
    ensures { ActsSent P.means plan.now (law.put_acts_of plan.now indices.now (control.now, kept.now)) (world dsp.old io.old out.old) (world dsp.new io.new out.new) result }
{
    if !has(indices, widget_index(plan, control.comp)) {
        return Ok(());
    }
    put_control(plan, control, kept, dsp, io, out)
}

// Sets each live control of these indices to what the record says, by component.
fn put_controls<P: Dsp>(
    plan: &Plan,
    kept: &Record,
    indices: &[u32],
    dsp: &mut P,
    io: &mut Inputs,
    out: &mut Outputs,
) -> Result<(), HostFault>
    requires plan { IsSound plan.now }
    requires controls { AreControls plan.now.controls kept.now.controls }
    requires on { is_some (P.means.on dsp.old) ≡ true }
    requires room { HasRoom (61440 * P.means.pending dsp.old) out.old }
    ensures { ActsSent P.means plan.now (flat_map control_acts (filter (law.is_control_of plan.now indices.now) (controls_of plan.now kept.now))) (world dsp.old io.old out.old) (world dsp.new io.new out.new) result }
{
    let count = plan.controls.items().len();
    for place in 0..count {
        let control = &plan.controls.items()[place];
        put_control_of(
            plan,
            control,
            &kept.controls.items()[place],
            indices,
            dsp,
            io,
            out,
        )?;
    }
    Ok(())
}

// ---- pipelines

// Completes a pipeline that is of these indices.
fn finish_pipe_of<P: Dsp>(
    plan: &Plan,
    pipe: &Pipe,
    indices: &[u32],
    dsp: &mut P,
    io: &mut Inputs,
    out: &mut Outputs,
) -> Result<(), HostFault>
    requires on { is_some (P.means.on dsp.old) ≡ true }
    requires room { HasRoom (61440 * P.means.pending dsp.old) out.old }
    ensures { ActsSent P.means plan.now (law.finish_acts_of indices.now pipe.now) (world dsp.old io.old out.old) (world dsp.new io.new out.new) result }
{
    if !has(indices, pipe.index) {
        return Ok(());
    }
    send(&Message::PipeComplete { id: pipe.id }, dsp, io, out)?;
    Ok(())
}

// Completes the pipelines of these indices, by id.
fn finish_pipes<P: Dsp>(
    plan: &Plan,
    indices: &[u32],
    dsp: &mut P,
    io: &mut Inputs,
    out: &mut Outputs,
) -> Result<(), HostFault>
    requires on { is_some (P.means.on dsp.old) ≡ true }
    requires room { HasRoom (61440 * P.means.pending dsp.old) out.old }
    ensures { ActsSent P.means plan.now (map Finish (law.finish_ids plan.now.graph indices.now)) (world dsp.old io.old out.old) (world dsp.new io.new out.new) result }
{
    for pipe in plan.graph.pipes.items() {
        finish_pipe_of(plan, pipe, indices, dsp, io, out)?;
    }
    Ok(())
}

// ---- all of it

/// Makes pipelines, and lists the widgets that were made: these widgets in their order; these joins in theirs; each live control of these
/// indices is set to what the record says, by component; and each pipeline of them is complete, by id. Those that were listed and those
/// to be made are at most 288.
///
/// `Refused(e)`: a message was answered with the negative error e, and `LinkDown`: an exchange failed. Then no more is sent, nothing is
/// cut, and the widget whose message did not pass is not listed.
pub fn make<P: Dsp>(
    plan: &Plan,
    kept: &Record,
    ids: &[u32],
    joins: &[Joined],
    indices: &[u32],
    made: &mut ArrayVec<u32, 288>,
    dsp: &mut P,
    io: &mut Inputs,
    out: &mut Outputs,
) -> Result<(), HostFault>
    requires plan { IsSound plan.now }
    requires controls { AreControls plan.now.controls kept.now.controls }
    requires few { array_vec_len made.old + length ids.now ≤ 288 }
    requires low { AllByRecursion (λ id. id < length plan.now.widgets) ids.now }
    requires on { is_some (P.means.on dsp.old) ≡ true }
    requires room { HasRoom (61440 * P.means.pending dsp.old) out.old }
    ensures { MadeListed P.means plan.now (law.making_lists plan.now kept.now ids.now joins.now indices.now) made.old.items made.new.items (world dsp.old io.old out.old) (world dsp.new io.new out.new) result }
{
    make_widgets(plan, ids, made, dsp, io, out)?;
    make_joins(plan, joins, dsp, io, out)?;
    put_controls(plan, kept, indices, dsp, io, out)?;
    finish_pipes(plan, indices, dsp, io, out)
}
