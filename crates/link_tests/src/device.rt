// A firmware after a link of its own, which refuses a message or loses it, and before it a tracer, which keeps what was asked of both.
ghost use Rattle.std.specs.Prelude.{◌≡◌, None, IfOk};
ghost use Rattle.fw_core.specs.Device.{firmware};
ghost use Rattle.ipc3_trace.specs.Tracing.{tracer as traced_by};
ghost use Rattle.mbox_link.specs.Link.{link as linked_by};

use fw_core::Firmware;
use ipc3_trace::Tracer;
use mbox_link::{Fate, FaultLink};
use sof_desk::MemDesk;
use sof_run::run;
use std::alloc::Global;
use std::process::Abort;

/// The greatest heap of the firmware, in bytes; it is small, since many runs are made.
const ROOM: u32 = 8192;

/// What its link does with the message of a number, from 1, that comes to it: it refuses it with -5, or it drops it, or it loses the
/// reply of it.
#[derive(Clone, Copy)]
pub enum Failing {
    Nothing,
    Refuses(u32),
    Drops(u32),
    Loses(u32),
}

impl Failing {
    /// The same of the message of this number.
    pub fn at(self, number: u32) -> Failing {
        match self {
            Failing::Nothing => Failing::Nothing,
            Failing::Refuses(_) => Failing::Refuses(number),
            Failing::Drops(_) => Failing::Drops(number),
            Failing::Loses(_) => Failing::Loses(number),
        }
    }
}

/// The device of these tests.
pub type Device = Tracer<FaultLink<Firmware>>;

/// Such a device, of which no call was made.
pub fn device(alloc: Global, failing: Failing) -> Result<Device, &'static str>
    ensures off { IfOk result (λ t. (traced_by (linked_by firmware)).on t ≡ None) }
    ensures pending { IfOk result (λ t. (traced_by (linked_by firmware)).pending t ≡ 0) }
{
    let Ok(dsp) = Firmware::new(alloc, ROOM) else {
        return Err("there is no memory");
    };
    let mut link = FaultLink::new(dsp);
    let planned = match failing {
        Failing::Nothing => Ok(()),
        Failing::Refuses(number) => link.plan(number.max(1), Fate::Refuse(-5)),
        Failing::Drops(number) => link.plan(number.max(1), Fate::Drop),
        Failing::Loses(number) => link.plan(number.max(1), Fate::Lose),
    };
    let Ok(()) = planned else {
        return Err("no room for a plan");
    };
    match Tracer::new(alloc, link) {
        Ok(tracer) => Ok(tracer),
        Err(_) => Err("there is no memory"),
    }
}

// Words that own their texts.
fn owned(rt: &impl Abort, alloc: Global, words: &[&str]) -> Vec<String> {
    let mut texts = Vec::new(alloc);
    for word in words {
        let text = String::from_str(alloc, word).expect(rt, "there is memory");
        texts.push(text).expect(rt, "there is memory");
    }
    texts
}

/// A run of these words over a desk and a new device: its status, and the device after it. Every test calls `run` through here, so its
/// contract is read once.
pub fn run_over(
    rt: &impl Abort,
    alloc: Global,
    words: &[&str],
    failing: Failing,
    desk: &mut MemDesk,
) -> (u8, Device) {
    let texts = owned(rt, alloc, words);
    let Ok(dsp) = device(alloc, failing) else {
        panic!(rt; "there is no memory")
    };
    let ended = run(alloc, &texts, desk, dsp);
    (ended.status, ended.dsp)
}
