// The messages that make pipelines and unmake them, one exchange each, up to the first that does not pass. Nothing is cut.
ghost use Rattle.std.specs.Prelude.{◌≡◌, ◌≤◌, ◌+◌, ◌*◌, List, length, take, is_some, true};
ghost use Rattle.std.specs.List.{flat_map};
ghost use Rattle.arrayvec.specs.ArrayVec.{array_vec_len};
ghost use Rattle.sof_base.specs.Ports.{HasRoom};
ghost use Rattle.mbox_link.specs.Calls.{world};
ghost use Rattle.tplg_plan.specs.Sound.{IsSound};
ghost use Rattle.host_widgets.specs.HostActs.{Act, Unmake};
ghost use Rattle.host_widgets.specs.ActMessages.{act_message};
ghost use Rattle.host_widgets.specs.Host.{AreControls};
ghost use Rattle.host_widgets.specs.MadeLists.{ActsPassed, MadeListed};
ghost use Rattle.host_widgets.specs.UpActs as law;
ghost use Rattle.host_widgets.specs.Up as up;

use crate::ids::{append, comp_of, edge_of};
use crate::making::{joins_at, unmade_order, widgets_at};
use arrayvec::ArrayVec;
use host_widgets::{HostFault, Record, send};
use ipc3_model::Message;
use mbox_link::Dsp;
use sof_io::{Inputs, Outputs};
use stream_law::{Graph, Join};
use tplg_plan::Plan;

// ---- making

// The widgets of these indices, one index after another.
fn widgets_of(plan: &Plan, indices: &[u32]) -> ArrayVec<u32, 288>
    requires widgets { length plan.now.widgets ≤ 288 }
    requires few { length (law.widgets_of plan.now indices.now) ≤ 288 }
    ensures { result.items ≡ law.widgets_of plan.now indices.now }
{
    let mut ids: ArrayVec<u32, 288> = ArrayVec::new();
    for index in indices {
        append(&mut ids, widgets_at(plan, *index).items());
    }
    ids
}

// Lists the joins of the buffers of these indices, one index after another, and tells how many they are.
fn list_joins(graph: &Graph, indices: &[u32], list: &mut [Join]) -> usize
    requires joins { length graph.now.joins ≤ 256 }
    requires few { length (flat_map (up.buffer_joins graph.now) indices.now) ≤ 576 }
    requires room { 832 ≤ length list.old }
    ensures joins { take result list.new ≡ flat_map (up.buffer_joins graph.now) indices.now }
    ensures fits { result ≤ length list.new }
{
    let mut listed = 0;
    for index in indices {
        listed = joins_at(graph, *index, list, listed);
    }
    listed
}

/// Makes the pipelines of these indices, and lists the widgets that were made: index by index each widget by id; index by index the
/// joins of its buffers; each live control of them is set to what the record says; and each of them is complete, by id. Those that were
/// listed and those to be made are at most 288.
///
/// `Refused(e)`: a message was answered with the negative error e, and `LinkDown`: an exchange failed. Then no more is sent, nothing is
/// cut, and the widget whose message did not pass is not listed.
pub fn make<P: Dsp>(
    plan: &Plan,
    kept: &Record,
    indices: &[u32],
    made: &mut ArrayVec<u32, 288>,
    dsp: &mut P,
    io: &mut Inputs,
    out: &mut Outputs,
) -> Result<(), HostFault>
    requires plan { IsSound plan.now }
    requires controls { AreControls plan.now.controls kept.now.controls }
    requires few { array_vec_len made.old + length (law.widgets_of plan.now indices.now) ≤ 288 }
    requires on { is_some (P.means.on dsp.old) ≡ true }
    requires room { HasRoom (61440 * P.means.pending dsp.old) out.old }
    ensures { MadeListed P.means plan.now (law.making_acts plan.now kept.now indices.now) made.old.items made.new.items (world dsp.old io.old out.old) (world dsp.new io.new out.new) result }
{
    let ids = widgets_of(plan, indices);
    // Two for each widget, and what an index may have.
    let mut joins = [Join { source: 0, sink: 0 }; 832];
    let count = list_joins(&plan.graph, indices, &mut joins);
    host_widgets::make(
        plan,
        kept,
        ids.as_slice(),
        &joins[..count],
        indices,
        made,
        dsp,
        io,
        out,
    )
}

// ---- unmaking

// The message that unmakes what an id names: a component, or else a buffer, or else a pipeline.
fn unmake_message(plan: &Plan, id: u32) -> Message
    ensures { result ≡ act_message plan.now (Unmake id) }
{
    match comp_of(plan.graph.comps.items(), id) {
        Some(_) => Message::CompFree { id },
        None => match edge_of(plan.graph.edges.items(), id) {
            Some(_) => Message::BufferFree { id },
            None => Message::PipeFree { id },
        },
    }
}

/// Unmakes what these ids name: first pipelines, then buffers, then components, each by id.
///
/// `Refused(e)`: a message was answered with the negative error e, and `LinkDown`: an exchange failed. Then no more is sent, and nothing
/// is cut.
pub fn unmake<P: Dsp>(
    plan: &Plan,
    made: &[u32],
    dsp: &mut P,
    io: &mut Inputs,
    out: &mut Outputs,
) -> Result<(), HostFault>
    requires plan { IsSound plan.now }
    requires on { is_some (P.means.on dsp.old) ≡ true }
    requires room { HasRoom (61440 * P.means.pending dsp.old) out.old }
    ensures { (passed : List Act) × ActsPassed P.means plan.now (law.unmaking_acts plan.now made.now) passed (world dsp.old io.old out.old) (world dsp.new io.new out.new) result }
{
    let ids = unmade_order(&plan.graph, made);
    for id in ids.items() {
        send(&unmake_message(plan, *id), dsp, io, out)?;
    }
    Ok(())
}
