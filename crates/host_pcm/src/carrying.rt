// What each call does once its tests have passed, for the stream at a place: the record changes after the reply.
ghost use Rattle.std.specs.Prelude.{◌≡◌, ◌<◌, ◌*◌, [], ◌∷◌, true, Ok, is_some, length};
ghost use Rattle.sof_base.specs.Ports.{HasRoom};
ghost use Rattle.tplg_plan.specs.Sound.{IsSound};
ghost use Rattle.host_widgets.specs.AnsweredOrders.{ActsAnswered, OrderAnswered};
ghost use Rattle.host_widgets.specs.HostRecord.{closed};
ghost use Rattle.host_widgets.specs.Host.{Agrees, IsRecordOf};
ghost use Rattle.host_widgets.specs.Orders.{Carried};
ghost use Rattle.host_widgets.specs.HostActs.{Prepare, Trig, Free, triggered_found};
ghost use Rattle.host_widgets.specs.Kept.{with_stream};
ghost use Rattle.host_pcm.specs.Asks.{stream_at, takes_ask};
ghost use Rattle.host_pcm.specs.StreamCalls.{host_at, opened_stream, place_order, shut, with_stream_at};
ghost use Rattle.host_widgets.specs.Sides.{IsReady, SameSide, world_of};

use crate::asking::Ask;
use host_widgets::{
    Found, HostCall, HostFault, Power, Record, StreamRec, Trigger, direction, transact_no_reply,
};
use ipc3_model::Message;
use mbox_link::Dsp;
use sof_base::Params;

// How far a stream is after a trigger.
fn triggered(what: Trigger) -> Found
    ensures { result ≡ triggered_found what }
{
    match what {
        Trigger::Start | Trigger::Release => Found::Running,
        Trigger::Stop => Found::Prepared,
        Trigger::Pause => Found::Paused,
    }
}

/// A stream is open in the record.
pub fn open(kept: &mut Record, place: usize)
    requires { place < length kept.old.streams }
    ensures { kept.new ≡ with_stream_at place (opened_stream closed) kept.old }
{
    kept.streams.put(
        place,
        StreamRec {
            found: Found::Open,
            params: None,
        },
    );
}

/// A stream has parameters.
pub fn prepare<P: Dsp>(side: &mut HostCall<'_, P>, place: usize, p: Params) -> Result<(), HostFault>
    requires ready { IsReady P.means side.old }
    requires power { side.old.kept.now.power ≡ Power.On }
    requires place { place < length side.old.plan.now.streams }
    ensures answered { ActsAnswered P.means side.old.plan.now side.old.heap (λ now. now) (Prepare (host_at side.old.plan.now place) p ∷ []) side.old.kept.now side.new.kept.now
        (world_of side.old) (world_of side.new) result }
    ensures same { SameSide side.old side.new }
{
    let stream = &side.plan.streams.items()[place];
    let message = Message::PcmParams {
        host: stream.host,
        direction: direction(stream.capture),
        params: p,
    };
    transact_no_reply(&message, side)?;
    side.kept.streams.put(
        place,
        StreamRec {
            found: Found::Prepared,
            params: Some(p),
        },
    );
    Ok(())
}

/// A stream is triggered.
pub fn trigger<P: Dsp>(
    side: &mut HostCall<'_, P>,
    place: usize,
    what: Trigger,
) -> Result<(), HostFault>
    requires ready { IsReady P.means side.old }
    requires power { side.old.kept.now.power ≡ Power.On }
    requires place { place < length side.old.plan.now.streams }
    ensures answered { ActsAnswered P.means side.old.plan.now side.old.heap (λ now. now) (Trig (host_at side.old.plan.now place) what ∷ []) side.old.kept.now side.new.kept.now
        (world_of side.old) (world_of side.new) result }
    ensures same { SameSide side.old side.new }
{
    let host = side.plan.streams.items()[place].host;
    let params = side.kept.streams.items()[place].params;
    transact_no_reply(&what.message(host), side)?;
    side.kept.streams.put(
        place,
        StreamRec {
            found: triggered(what),
            params,
        },
    );
    Ok(())
}

// A stream that is prepared is without parameters, and closed.
fn free<P: Dsp>(side: &mut HostCall<'_, P>, place: usize) -> Result<(), HostFault>
    requires plan { IsSound side.old.plan.now }
    requires streams { length side.old.kept.now.streams ≡ length side.old.plan.now.streams }
    requires on { is_some (P.means.on side.old.dsp.now) ≡ true }
    requires room { HasRoom (61440 * P.means.pending side.old.dsp.now) side.old.out.now }
    requires place { place < length side.old.plan.now.streams }
    ensures answered { ActsAnswered P.means side.old.plan.now side.old.heap (with_stream side.old.plan.now (host_at side.old.plan.now place) shut) (Free (host_at side.old.plan.now place) ∷ []) side.old.kept.now side.new.kept.now
        (world_of side.old) (world_of side.new) result }
    ensures same { SameSide side.old side.new }
{
    let host = side.plan.streams.items()[place].host;
    transact_no_reply(&Message::PcmFree { id: host }, side)?;
    shut(side.kept, place);
    Ok(())
}

// A stream is closed in the record.
fn shut(kept: &mut Record, place: usize)
    requires { place < length kept.old.streams }
    ensures { kept.new ≡ with_stream_at place closed kept.old }
{
    kept.streams.put(
        place,
        StreamRec {
            found: Found::Closed,
            params: None,
        },
    );
}

// A stream that moves or is held is stopped, and freed.
fn stop_and_free<P: Dsp>(side: &mut HostCall<'_, P>, place: usize) -> Result<(), HostFault>
    requires ready { IsReady P.means side.old }
    requires power { side.old.kept.now.power ≡ Power.On }
    requires place { place < length side.old.plan.now.streams }
    requires found { takes_ask (Ask.Triggering Trigger.Stop) (stream_at side.old.kept.now place).found ≡ true }
    ensures answered { OrderAnswered P.means side.old.plan.now side.old.heap (place_order side.old.plan.now side.old.kept.now place Ask.Closing) side.old.kept.now side.new.kept.now
        (world_of side.old) (world_of side.new) result }
    ensures same { SameSide side.old side.new }
{
    trigger(side, place, Trigger::Stop)?;
    free(side, place)
}

// A stream is closed while the power is on.
fn close_on<P: Dsp>(side: &mut HostCall<'_, P>, place: usize) -> Result<(), HostFault>
    requires ready { IsReady P.means side.old }
    requires power { side.old.kept.now.power ≡ Power.On }
    requires place { place < length side.old.plan.now.streams }
    ensures answered { OrderAnswered P.means side.old.plan.now side.old.heap (place_order side.old.plan.now side.old.kept.now place Ask.Closing) side.old.kept.now side.new.kept.now
        (world_of side.old) (world_of side.new) result }
    ensures same { SameSide side.old side.new }
{
    match side.kept.streams.items()[place].found {
        Found::Running | Found::Paused => stop_and_free(side, place),
        Found::Prepared => free(side, place),
        Found::Closed | Found::Open | Found::On => {
            shut(side.kept, place);
            Ok(())
        }
    }
}

/// A stream is closed: where it has parameters and the power is on, it is stopped where it runs or is paused, and freed.
pub fn close<P: Dsp>(side: &mut HostCall<'_, P>, place: usize) -> Result<(), HostFault>
    requires ready { IsReady P.means side.old }
    requires loaded { side.old.kept.now.power ≡ Power.Unloaded → ⊥ }
    requires place { place < length side.old.plan.now.streams }
    ensures answered { OrderAnswered P.means side.old.plan.now side.old.heap (place_order side.old.plan.now side.old.kept.now place Ask.Closing) side.old.kept.now side.new.kept.now
        (world_of side.old) (world_of side.new) result }
    ensures agree { Agrees P.means side.old.plan.now side.old.kept.now side.old.dsp.now →
        Carried P.means side.old.plan.now side.old.heap (place_order side.old.plan.now side.old.kept.now place Ask.Closing) side.old.kept.now side.new.kept.now
        (world_of side.old) (world_of side.new) result
        × Agrees P.means side.old.plan.now side.new.kept.now side.new.dsp.now }
    ensures record_is { result ≡ Ok tt → IsRecordOf side.old.plan.now side.new.kept.now }
    ensures same { SameSide side.old side.new }
{
    match side.kept.power {
        Power::On => close_on(side, place),
        Power::Unloaded | Power::Off => {
            shut(side.kept, place);
            Ok(())
        }
    }
}
