// The plan of a source, and a firmware that is off.
ghost use Rattle.std.specs.Prelude.{◌≡◌, ◌≤◌, IfOk, None};
ghost use Rattle.fw_core.specs.Device.{firmware};
ghost use Rattle.tplg_plan.specs.Sound.{IsSound};

use fw_core::Firmware;
use run_desk::{ruled_plan, topology_in};
use std::alloc::Global;
use test_graphs::graph;
use tplg_plan::Plan;

/// The greatest heap of the firmware, in bytes.
const ROOM: u32 = 4352;

/// The plan of a source.
pub fn plan_of(alloc: Global, source: &[u8]) -> Result<Plan, &'static str>
    ensures { IfOk result (λ plan. IsSound plan) }
{
    let Ok(topology) = graph(alloc, source) else {
        return Err("no source");
    };
    if topology.len() > 65536 {
        return Err("a long file");
    }
    let Ok(topology) = topology_in(alloc, &topology) else {
        return Err("no topology");
    };
    match ruled_plan(alloc, &topology) {
        Ok(plan) => Ok(plan),
        Err(_) => Err("a rule is broken"),
    }
}

/// A firmware that is off.
pub fn firmware_of(alloc: Global, heap: u32) -> Result<Firmware, &'static str>
    ensures off { IfOk result (λ f. firmware.on f ≡ None) }
    ensures pending { IfOk result (λ f. firmware.pending f ≡ 0) }
    ensures room { IfOk result (λ f. heap ≤ firmware.most f) }
{
    if heap > ROOM {
        return Err("a great heap");
    }
    match Firmware::new(alloc, ROOM) {
        Ok(dsp) => Ok(dsp),
        Err(_) => Err("there is no memory"),
    }
}
