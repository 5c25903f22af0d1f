// The host's calls on streams by themselves, over the firmware: the graph of one stream, which is loaded first.
ghost use Rattle.std.specs.Prelude.{◌≡◌, IfOk};
ghost use Rattle.fw_core.specs.Device.{firmware};
ghost use Rattle.host_widgets.specs.Host.{Agrees};
ghost use Rattle.tplg_plan.specs.Sound.{IsSound};

use crate::plans::{firmware_of, plan_of};
use crate::same::same;
use fw_core::Firmware;
use host_pcm::{close, open, params, pause, release, start, stop};
use host_widgets::{Found, HostFault, Record, load};
use mbox_link::Dsp;
use sof_base::{Format, Name44, Params};
use sof_io::{Inputs, Outputs};
use std::alloc::Global;
use std::process::Abort;
use test_graphs::THIN;
use tplg_plan::Plan;

/// The heap that the graph needs, in bytes.
const HEAP: u32 = 992;

/// A host's side of a device.
#[derive(Drop)]
struct Side {
    plan: Plan,
    kept: Record,
    dsp: Firmware,
}

/// A call of the host.
#[derive(Clone, Copy)]
enum Call {
    Load,
    Open,
    Params(u32),
    Start,
    Stop,
    Pause,
    Release,
    Close,
}

// A side of which nothing is loaded.
fn unloaded(alloc: Global) -> Result<Side, &'static str>
    ensures sound { IfOk result (λ s. IsSound s.plan) }
    ensures agree { IfOk result (λ s. Agrees firmware s.plan s.kept s.dsp) }
{
    let plan = plan_of(alloc, THIN)?;
    let dsp = firmware_of(alloc, HEAP)?;
    match Record::new(alloc, &plan) {
        Ok(kept) => Ok(Side { plan, kept, dsp }),
        Err(_) => Err("there is no memory"),
    }
}

// A call on the one stream, without endpoints.
fn carry(
    rt: &impl Abort,
    alloc: Global,
    side: &mut Side,
    name: &Name44,
    call: Call,
) -> Result<(), HostFault>
    requires sound { IsSound side.old.plan }
    requires agree { Agrees firmware side.old.plan side.old.kept side.old.dsp }
    ensures plan { side.new.plan ≡ side.old.plan }
    ensures agree { Agrees firmware side.new.plan side.new.kept side.new.dsp }
{
    let Ok(mut inputs) = Inputs::new(alloc) else {
        panic!(rt; "there is no memory")
    };
    let Ok(mut outputs) = Outputs::new(alloc) else {
        panic!(rt; "there is no memory")
    };
    let (plan, kept, dsp) = (&side.plan, &mut side.kept, &mut side.dsp);
    let (io, out) = (&mut inputs, &mut outputs);
    if let Call::Load = call {
        if dsp.room() < HEAP {
            panic!(rt; "there is a small heap")
        }
        return load(plan, kept, HEAP, dsp, io, out);
    }
    if !dsp.on() {
        panic!(rt; "the device is off")
    }
    match call {
        Call::Load => Ok(()),
        Call::Open => open(plan, kept, HEAP, dsp, io, out, name),
        Call::Params(rate) => {
            let p = Params {
                rate,
                channels: 2,
                format: Format::S16,
            };
            params(plan, kept, HEAP, dsp, io, out, name, p)
        }
        Call::Start => start(plan, kept, HEAP, dsp, io, out, name),
        Call::Stop => stop(plan, kept, HEAP, dsp, io, out, name),
        Call::Pause => pause(plan, kept, HEAP, dsp, io, out, name),
        Call::Release => release(plan, kept, HEAP, dsp, io, out, name),
        Call::Close => close(plan, kept, HEAP, dsp, io, out, name),
    }
}

// Whether a call was done and the stream stands so after it.
fn leaves(
    rt: &impl Abort,
    alloc: Global,
    side: &mut Side,
    name: &Name44,
    call: Call,
    found: Found,
) -> bool
    requires sound { IsSound side.old.plan }
    requires agree { Agrees firmware side.old.plan side.old.kept side.old.dsp }
    ensures plan { side.new.plan ≡ side.old.plan }
    ensures agree { Agrees firmware side.new.plan side.new.kept side.new.dsp }
{
    let done = carry(rt, alloc, side, name, call).is_ok();
    match side.kept.streams.items().first() {
        Some(stream) => done && stream.found == found,
        None => false,
    }
}

// A stream's whole life, and calls at which it stands otherwise.
#[test]
fn each_call_on_a_stream_moves_it_on(rt: HostRuntime) {
    let alloc = rt.alloc();
    let mut side = unloaded(alloc).expect(&rt, "a plan and a device");
    let name = Name44::new(b"PCM0P").expect(&rt, "a short name");
    let s = &mut side;
    same(
        &rt,
        &"load",
        &leaves(&rt, alloc, s, &name, Call::Load, Found::Closed),
        &true,
    );
    same(
        &rt,
        &"open",
        &leaves(&rt, alloc, s, &name, Call::Open, Found::Open),
        &true,
    );
    same(
        &rt,
        &"open again",
        &leaves(&rt, alloc, s, &name, Call::Open, Found::Open),
        &false,
    );
    same(
        &rt,
        &"start early",
        &leaves(&rt, alloc, s, &name, Call::Start, Found::Running),
        &false,
    );
    same(
        &rt,
        &"a rate",
        &leaves(&rt, alloc, s, &name, Call::Params(7), Found::Prepared),
        &false,
    );
    same(
        &rt,
        &"params",
        &leaves(&rt, alloc, s, &name, Call::Params(48000), Found::Prepared),
        &true,
    );
    same(
        &rt,
        &"start",
        &leaves(&rt, alloc, s, &name, Call::Start, Found::Running),
        &true,
    );
    same(
        &rt,
        &"pause",
        &leaves(&rt, alloc, s, &name, Call::Pause, Found::Paused),
        &true,
    );
    same(
        &rt,
        &"release",
        &leaves(&rt, alloc, s, &name, Call::Release, Found::Running),
        &true,
    );
    same(
        &rt,
        &"stop",
        &leaves(&rt, alloc, s, &name, Call::Stop, Found::Prepared),
        &true,
    );
    same(
        &rt,
        &"release early",
        &leaves(&rt, alloc, s, &name, Call::Release, Found::Running),
        &false,
    );
    same(
        &rt,
        &"close",
        &leaves(&rt, alloc, s, &name, Call::Close, Found::Closed),
        &true,
    );
    same(
        &rt,
        &"close again",
        &leaves(&rt, alloc, s, &name, Call::Close, Found::Closed),
        &false,
    );
}
