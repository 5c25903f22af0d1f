// A whole stress.
ghost use Rattle.std.specs.Prelude.{◌≡◌, ◌≤◌, ◌∷◌, [], min, None, IfOk, MatchResult};
ghost use Rattle.tplg_plan.specs.Sound.{IsSound};
ghost use Rattle.sof_io.specs.Bound.{new_output};
ghost use Rattle.tplg_plan.specs.HeapNeed.{IsSmall, need_on};
ghost use Rattle.tplg_graph.specs.PlanOf.{plan_of};
ghost use Rattle.tplg_graph.specs.TopologyNeed.{need_of};
ghost use Rattle.sof_stress.specs.Draws as draws;
ghost use Rattle.sof_stress.specs.StressGraph.{stress_topology};
ghost use Rattle.sof_stress.specs.StressPorts.{dai_slot as slot_of, stress_inputs};
ghost use Rattle.sof_stress.specs.GraphParts.{stress_heap, stress_plan};
ghost use Rattle.sof_stress.specs.DeviceStress.{Stresses};

use crate::carry::carry_all;
use crate::commands::streams_of;
use crate::counts::Counts;
use crate::graph::topology_of;
use crate::ports::{dai_slot, inputs_of, outputs_of};
use mbox_link::{Dsp, NoRoom};
use sof_base::NoMemory;
use sof_io::{Inputs, Outputs};
use sof_session::Session;
use std::alloc::Global;
use tplg_graph::{Plan, PlanFault, need, plan};

/// What came of a stress, and the device as it stands.
#[derive(Drop)]
pub struct Stressed<P: Dsp> {
    pub counts: Counts,
    pub dsp: P,
}

// All that a stress makes before its session.
struct Made {
    plan: Plan,
    inputs: Inputs,
    outputs: Outputs,
}

// The plan of the topology.
fn plan_over(alloc: Global, streams: u32) -> Result<Plan, NoMemory>
    requires some { 1 ≤ streams }
    requires few { streams ≤ 4 }
    ensures plan { IfOk result (λ p. p ≡ plan_of (stress_topology streams)) }
    ensures sound { IfOk result IsSound }
    ensures small { IfOk result (λ p. IsSmall p.graph) }
    ensures need { IfOk result (λ p. need_on p.graph ≡ need_of (stress_topology streams)) }
{
    let topology = topology_of(alloc, streams)?;
    match plan(alloc, &topology) {
        Ok(plan) => Ok(plan),
        Err(PlanFault::OutOfMemory) => Err(NoMemory),
        Err(PlanFault::Rule { .. }) => unreachable!(),
    }
}

fn make(alloc: Global, seed: u32) -> Result<Made, NoMemory>
    ensures plan { IfOk result (λ made. made.plan ≡ stress_plan seed) }
    ensures sound { IfOk result (λ made. IsSound made.plan) }
    ensures small { IfOk result (λ made. IsSmall made.plan.graph) }
    ensures need { IfOk result (λ made. need_on made.plan.graph ≡ need_of (stress_topology (draws.stream_count seed))) }
    ensures inputs { IfOk result (λ made. made.inputs ≡ stress_inputs (draws.stream_count seed)) }
    ensures outputs { IfOk result (λ made. made.outputs ≡ new_output (slot_of (draws.stream_count seed)) ∷ []) }
{
    let streams = streams_of(seed);
    Ok(Made {
        plan: plan_over(alloc, streams)?,
        inputs: inputs_of(alloc, streams)?,
        outputs: outputs_of(alloc, streams)?,
    })
}

// The heap: what the topology needs, where the device has room for it.
fn heap_for(plan: &Plan, room: u32) -> u32
    requires { IsSmall plan.now.graph }
    ensures heap { result ≡ min (need_on plan.now.graph) room }
    ensures fits { result ≤ room }
{
    need(plan).min(room as u64) as u32
}

/// Carries out the stress of a seed over a device that is off, and hands the device back. Where there is no memory, which comes
/// before the session, the device is handed back as it was.
pub fn stress<P: Dsp>(alloc: Global, seed: u32, dsp: P) -> Result<Stressed<P>, NoRoom<P>>
    requires off { P.means.on dsp ≡ None }
    requires pending { P.means.pending dsp ≡ 0 }
    requires few { seed ≤ 1000 }
    ensures { MatchResult result
        (λ stressed. Stresses P.means seed dsp stressed.counts stressed.dsp)
        (λ refused. refused.dsp ≡ dsp) }
{
    let Ok(made) = make(alloc, seed) else {
        return Err(NoRoom { dsp });
    };
    let Made {
        plan,
        mut inputs,
        mut outputs,
    } = made;
    let heap = heap_for(&plan, dsp.room());
    let mut session = Session::new(alloc, plan, heap, dsp)?;
    let slot = dai_slot(streams_of(seed));
    let mut counts = carry_all(seed, slot, &mut session, &mut inputs, &mut outputs);
    counts.messages = session.sent();
    Ok(Stressed {
        counts,
        dsp: session.into_dsp(),
    })
}
