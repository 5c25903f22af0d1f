// What each call does once its tests have passed, for the control at a place: the record changes after the reply.
ghost use Rattle.std.specs.Prelude.{◌≡◌, ◌<◌, ◌≤◌, ◌+◌, ◌*◌, ◌++◌, [], ◌∷◌, unwrap_or, length, IfOk, Some, is_some, true};
ghost use Rattle.sof_base.specs.Ports.{HasRoom};
ghost use Rattle.mbox_link.specs.BlobParts.{parts};
ghost use Rattle.tplg_plan.specs.Ranges.{is_initial};
ghost use Rattle.sof_base.specs.BlobFaults.{is_blob};
ghost use Rattle.ipc3_model.specs.declared.reply.Body.TheVariants as bodies;
ghost use Rattle.host_widgets.specs.declared.answers.Answer.TheVariants as answers;
ghost use Rattle.host_widgets.specs.AnsweredOrders.{ActsAnswered, OrderAnswered};
ghost use Rattle.host_widgets.specs.HostActs.{Put, with_values};
ghost use Rattle.host_widgets.specs.HostActs as acts;
ghost use Rattle.host_widgets.specs.Kept.{with_control};
ghost use Rattle.host_widgets.specs.Sides.{IsReady, SameSide, world_of};
ghost use Rattle.host_ctl.specs.ControlAsks as asks;
ghost use Rattle.host_ctl.specs.ControlOrders as orders;
ghost use Rattle.host_ctl.specs.ControlAnswers as control_answers;
ghost use Rattle.host_ctl.specs.ControlAnswers.{MaySet, MayInstall, HasBlob, HasSet, IsSetAt, PartsPass};
ghost use Rattle.host_ctl.specs.ControlPlaces.{control_here, record_here, with_values_at, with_blob_here};

use crate::asking::channels_of;
use arrayvec::ArrayVec;
use host_widgets::{
    Answer, ControlRec, HostCall, HostFault, Power, Record, is_down, link_down, part_count,
    same_numbers, send_parts, set_message, transact, transact_no_reply,
};
use ipc3_model::{Body, CTRL_ENUM, CTRL_SWITCH, CTRL_VOLUME, Message};
use mbox_link::Dsp;
use sof_base::{Bounded, Part};
use tplg_plan::ControlKind;

// One value is for all channels.
fn spread(channels: u8, values: &[u32]) -> Bounded<u32, 8>
    requires channels { channels ≤ 8 }
    requires values { length values.now ≤ 8 }
    ensures { result ≡ asks.spread channels values.now }
{
    if values.len() == 1 {
        return same_numbers(channels, values[0]);
    }
    match Bounded::new(values) {
        Some(list) => list,
        // Never so: there are at most 8.
        None => Bounded::empty(),
    }
}

/// The values of all channels of a control that takes these.
pub fn all_values(kind: &ControlKind, values: &[u32]) -> Bounded<u32, 8>
    requires channels { unwrap_or (asks.channels_of kind.now) 0 ≤ 8 }
    requires values { length values.now ≤ 8 }
    ensures { result ≡ asks.spread (unwrap_or (asks.channels_of kind.now) 0) values.now }
{
    match channels_of(kind) {
        Some(channels) => spread(channels, values),
        None => spread(0, values),
    }
}

/// The control at a place has these values in the record.
pub fn keep(kept: &mut Record, place: usize, values: &Bounded<u32, 8>)
    requires { place < length kept.old.controls }
    ensures { kept.new ≡ with_values_at place values.now kept.old }
{
    let blob = kept.controls.items()[place].blob.copied();
    kept.controls.put(
        place,
        ControlRec {
            values: values.copied(),
            blob,
        },
    );
}

// A control is set while the power is on.
fn put<P: Dsp>(
    side: &mut HostCall<'_, P>,
    place: usize,
    values: &Bounded<u32, 8>,
) -> Result<(), HostFault>
    requires ready { IsReady P.means side.old }
    requires power { side.old.kept.now.power ≡ Power.On }
    requires place { place < length side.old.plan.now.controls }
    requires values { MaySet (control_here side.old.plan.now place).kind values.now }
    ensures answered { ActsAnswered P.means side.old.plan.now side.old.heap (with_control side.old.plan.now (control_here side.old.plan.now place).comp (with_values values.now)) (Put (control_here side.old.plan.now place).comp values.now ∷ []) side.old.kept.now side.new.kept.now
        (world_of side.old) (world_of side.new) result }
    ensures same { SameSide side.old side.new }
{
    let control = &side.plan.controls.items()[place];
    let message = set_message(control.comp, &control.kind, values);
    transact_no_reply(&message, side)?;
    keep(side.kept, place, values);
    Ok(())
}

/// A control is set: where the power is off, the record alone changes.
pub fn set<P: Dsp>(
    side: &mut HostCall<'_, P>,
    place: usize,
    values: &Bounded<u32, 8>,
) -> Result<(), HostFault>
    requires ready { IsReady P.means side.old }
    requires loaded { side.old.kept.now.power ≡ Power.Unloaded → ⊥ }
    requires place { place < length side.old.plan.now.controls }
    requires values { MaySet (control_here side.old.plan.now place).kind values.now }
    ensures answered { OrderAnswered P.means side.old.plan.now side.old.heap (orders.put_order side.old.plan.now side.old.kept.now (control_here side.old.plan.now place).comp values.now) side.old.kept.now side.new.kept.now
        (world_of side.old) (world_of side.new) result }
    ensures same { SameSide side.old side.new }
{
    match side.kept.power {
        Power::On => put(side, place, values),
        Power::Unloaded | Power::Off => {
            keep(side.kept, place, values);
            Ok(())
        }
    }
}

/// The control at a place has this blob in the record.
pub fn keep_blob(kept: &mut Record, place: usize, blob: &[u8])
    requires place { place < length kept.old.controls }
    requires few { length blob.now ≤ 1024 }
    ensures { kept.new ≡ with_blob_here place blob.now kept.old }
{
    let values = kept.controls.items()[place].values.copied();
    let blob = match Bounded::new(blob) {
        Some(bytes) => bytes,
        // Never so: there are at most 1024.
        None => Bounded::empty(),
    };
    kept.controls.put(place, ControlRec { values, blob });
}

// Sends a blob to an equaliser in its parts. A failed link cuts the device and takes the record down.
fn pass_parts<P: Dsp>(side: &mut HostCall<'_, P>, comp: u32, blob: &[u8]) -> Result<(), HostFault>
    requires blob { is_blob blob.now ≡ true }
    requires on { is_some (P.means.on side.old.dsp.now) ≡ true }
    requires room { HasRoom (61440 * P.means.pending side.old.dsp.now) side.old.out.now }
    ensures passes { PartsPass P.means side.old.plan.now side.old.heap comp blob.now side.old.kept.now side.new.kept.now
        (world_of side.old) (world_of side.new) result }
    ensures same { SameSide side.old side.new }
{
    let passed = send_parts(comp, blob, side.dsp, side.io, side.out);
    if is_down(&passed) {
        link_down(side.plan, side.kept, side.dsp, side.io, side.out);
    }
    passed
}

// An equaliser gets a blob while the power is on. The record changes once its last part has passed.
fn install<P: Dsp>(side: &mut HostCall<'_, P>, place: usize, blob: &[u8]) -> Result<(), HostFault>
    requires ready { IsReady P.means side.old }
    requires power { side.old.kept.now.power ≡ Power.On }
    requires place { place < length side.old.plan.now.controls }
    requires blob { MayInstall (control_here side.old.plan.now place).kind blob.now }
    ensures answered { OrderAnswered P.means side.old.plan.now side.old.heap (orders.bytes_order_at side.old.plan.now side.old.kept.now (control_here side.old.plan.now place).comp blob.now) side.old.kept.now side.new.kept.now
        (world_of side.old) (world_of side.new) result }
    ensures same { SameSide side.old side.new }
{
    let comp = side.plan.controls.items()[place].comp;
    pass_parts(side, comp, blob)?;
    keep_blob(side.kept, place, blob);
    Ok(())
}

/// An equaliser gets a blob: where the power is off, the record alone changes.
pub fn set_bytes<P: Dsp>(
    side: &mut HostCall<'_, P>,
    place: usize,
    blob: &[u8],
) -> Result<(), HostFault>
    requires ready { IsReady P.means side.old }
    requires loaded { side.old.kept.now.power ≡ Power.Unloaded → ⊥ }
    requires place { place < length side.old.plan.now.controls }
    requires blob { MayInstall (control_here side.old.plan.now place).kind blob.now }
    ensures answered { OrderAnswered P.means side.old.plan.now side.old.heap (orders.bytes_order_at side.old.plan.now side.old.kept.now (control_here side.old.plan.now place).comp blob.now) side.old.kept.now side.new.kept.now
        (world_of side.old) (world_of side.new) result }
    ensures same { SameSide side.old side.new }
{
    match side.kept.power {
        Power::On => install(side, place, blob),
        Power::Unloaded | Power::Off => {
            keep_blob(side.kept, place, blob);
            Ok(())
        }
    }
}

// The values that a reply carries.
fn values_of(body: Body) -> Answer
    ensures { result ≡ control_answers.carried_by body }
{
    match body {
        Body::Values(values) => Answer::Values(values),
        // Never so of the reply to GET_VALUE.
        Body::Nothing | Body::Part(_) => Answer::Done,
    }
}

// The firmware is asked for the values of a volume, a mux or a demux.
fn ask<P: Dsp>(side: &mut HostCall<'_, P>, place: usize, command: u32) -> Result<Answer, HostFault>
    requires ready { IsReady P.means side.old }
    requires power { side.old.kept.now.power ≡ Power.On }
    requires place { place < length side.old.plan.now.controls }
    requires command { control_answers.value_command (control_here side.old.plan.now place).kind ≡ Some command }
    ensures answered { ActsAnswered P.means side.old.plan.now side.old.heap (λ now. now) (acts.Ask (control_here side.old.plan.now place).comp 0 ∷ []) side.old.kept.now side.new.kept.now
        (world_of side.old) (world_of side.new) (control_answers.outcome_of result) }
    ensures told { IsSetAt P.means side.old.plan.now side.old.kept.now (control_here side.old.plan.now place).comp side.old.dsp.now → IfOk result (λ a. (a ≡ orders.control_answer (control_here side.old.plan.now place).kind (record_here side.old.kept.now place))
        × HasSet P.means side.old.plan.now side.old.kept.now (control_here side.old.plan.now place).comp side.new.dsp.now) }
    ensures still { IfOk result (λ a. side.new.kept.now ≡ side.old.kept.now) }
    ensures same { SameSide side.old side.new }
{
    let message = Message::GetValue {
        id: side.plan.controls.items()[place].comp,
        command,
    };
    let reply = transact(&message, side)?;
    Ok(values_of(reply.body))
}

// How many parts there are of a blob, or of none.
fn parts_of(blob: &[u8]) -> u32
    requires { is_initial blob.now ≡ true }
    ensures { result ≡ parts blob.now }
{
    if blob.is_empty() {
        return 0;
    }
    part_count(blob)
}

// Puts bytes after those so far.
fn append(told: &mut ArrayVec<u8, 1024>, bytes: &[u8])
    ensures { length told.old.items + length bytes.now ≤ 1024 → told.new.items ≡ told.old.items ++ bytes.now }
{
    match told.try_extend_from_slice(bytes) {
        // Never an error of a blob's bytes: there are at most 1024.
        Ok(()) | Err(_) => {}
    }
}

// Puts the bytes of a part after those of the parts before it. The first brings the header.
fn append_part(told: &mut ArrayVec<u8, 1024>, part: &Part)
    ensures { length (control_answers.with_part told.old.items part.now) ≤ 1024 → told.new.items ≡ control_answers.with_part told.old.items part.now }
{
    if told.is_empty() {
        append(told, &part.header);
    }
    append(told, part.bytes.items());
}

// The same for the part that a reply carries.
fn append_reply(told: &mut ArrayVec<u8, 1024>, body: &Body)
    ensures { (part : Part) → body.now ≡ bodies.Part part → length (control_answers.with_part told.old.items part) ≤ 1024 → told.new.items ≡ control_answers.with_part told.old.items part }
{
    match body {
        Body::Part(part) => append_part(told, part),
        // Never so of the reply to GET_DATA.
        Body::Nothing | Body::Values(_) => {}
    }
}

// The firmware is asked for each part of the blob that an equaliser has by the record, of which there are so many. What the
// replies carry is put together.
fn ask_all<P: Dsp>(
    side: &mut HostCall<'_, P>,
    place: usize,
    count: u32,
    told: &mut ArrayVec<u8, 1024>,
) -> Result<(), HostFault>
    requires ready { IsReady P.means side.old }
    requires power { side.old.kept.now.power ≡ Power.On }
    requires place { place < length side.old.plan.now.controls }
    requires kind { HasBlob (control_here side.old.plan.now place).kind }
    requires count { count ≡ parts (record_here side.old.kept.now place).blob }
    requires empty { told.old.items ≡ [] }
    ensures answered { OrderAnswered P.means side.old.plan.now side.old.heap (orders.reading_order side.old.kept.now (Some (control_here side.old.plan.now place, record_here side.old.kept.now place))) side.old.kept.now side.new.kept.now
        (world_of side.old) (world_of side.new) result }
    ensures told { IsSetAt P.means side.old.plan.now side.old.kept.now (control_here side.old.plan.now place).comp side.old.dsp.now → IfOk result (λ done. (told.new.items ≡ (record_here side.old.kept.now place).blob)
        × HasSet P.means side.old.plan.now side.old.kept.now (control_here side.old.plan.now place).comp side.new.dsp.now) }
    ensures still { IfOk result (λ done. side.new.kept.now ≡ side.old.kept.now) }
    ensures same { SameSide side.old side.new }
{
    for index in 0..count {
        let message = Message::GetData {
            id: side.plan.controls.items()[place].comp,
            index,
        };
        let reply = transact(&message, side)?;
        append_reply(told, &reply.body);
    }
    Ok(())
}

// These bytes as an answer.
fn bytes_answer(told: &ArrayVec<u8, 1024>) -> Answer
    ensures { result ≡ answers.Bytes told.now.items }
{
    match Bounded::new(told.as_slice()) {
        Some(bytes) => Answer::Bytes(bytes),
        // Never so: there are at most 1024.
        None => Answer::Done,
    }
}

// What the firmware says of an equaliser: each part of its blob is asked for.
fn ask_parts<P: Dsp>(side: &mut HostCall<'_, P>, place: usize) -> Result<Answer, HostFault>
    requires ready { IsReady P.means side.old }
    requires power { side.old.kept.now.power ≡ Power.On }
    requires place { place < length side.old.plan.now.controls }
    requires kind { HasBlob (control_here side.old.plan.now place).kind }
    ensures answered { OrderAnswered P.means side.old.plan.now side.old.heap (orders.reading_order side.old.kept.now (Some (control_here side.old.plan.now place, record_here side.old.kept.now place))) side.old.kept.now side.new.kept.now
        (world_of side.old) (world_of side.new) (control_answers.outcome_of result) }
    ensures told { IsSetAt P.means side.old.plan.now side.old.kept.now (control_here side.old.plan.now place).comp side.old.dsp.now → IfOk result (λ a. (a ≡ orders.control_answer (control_here side.old.plan.now place).kind (record_here side.old.kept.now place))
        × HasSet P.means side.old.plan.now side.old.kept.now (control_here side.old.plan.now place).comp side.new.dsp.now) }
    ensures still { IfOk result (λ a. side.new.kept.now ≡ side.old.kept.now) }
    ensures same { SameSide side.old side.new }
{
    let count = parts_of(side.kept.controls.items()[place].blob.items());
    let mut told: ArrayVec<u8, 1024> = ArrayVec::new();
    ask_all(side, place, count, &mut told)?;
    Ok(bytes_answer(&told))
}

/// What the firmware says of a control: its values are asked for, or each part of its blob.
pub fn read<P: Dsp>(side: &mut HostCall<'_, P>, place: usize) -> Result<Answer, HostFault>
    requires ready { IsReady P.means side.old }
    requires power { side.old.kept.now.power ≡ Power.On }
    requires place { place < length side.old.plan.now.controls }
    ensures answered { OrderAnswered P.means side.old.plan.now side.old.heap (orders.reading_order side.old.kept.now (Some (control_here side.old.plan.now place, record_here side.old.kept.now place))) side.old.kept.now side.new.kept.now
        (world_of side.old) (world_of side.new) (control_answers.outcome_of result) }
    ensures told { IsSetAt P.means side.old.plan.now side.old.kept.now (control_here side.old.plan.now place).comp side.old.dsp.now → IfOk result (λ a. (a ≡ orders.control_answer (control_here side.old.plan.now place).kind (record_here side.old.kept.now place))
        × HasSet P.means side.old.plan.now side.old.kept.now (control_here side.old.plan.now place).comp side.new.dsp.now) }
    ensures still { IfOk result (λ a. side.new.kept.now ≡ side.old.kept.now) }
    ensures same { SameSide side.old side.new }
{
    match side.plan.controls.items()[place].kind {
        ControlKind::Volume { .. } => ask(side, place, CTRL_VOLUME),
        ControlKind::Choice { .. } => ask(side, place, CTRL_ENUM),
        ControlKind::Masks { .. } => ask(side, place, CTRL_SWITCH),
        ControlKind::Blob { .. } => ask_parts(side, place),
    }
}
