// What a script binds: the places of its inputs and outputs, and then their files.
ghost use Rattle.std.specs.Prelude.{◌≡◌, [], List, true, false, None, is_some, option_map, OnOk};
ghost use Rattle.sof_base.specs.Ports.{InputView, OutputView};
ghost use Rattle.sof_base.specs.DrainedOutputs.{drained};
ghost use Rattle.sof_desk.specs.Desk.{Acted};
ghost use Rattle.sof_script.specs.ScriptRead.{bound_of, bounds_of};
ghost use Rattle.run_desk.specs.Bindings.{wrong_binding, binding_act, bound_inputs, bound_outputs};
ghost use Rattle.run_desk.specs.Todo.{DeskPhase};
ghost use Rattle.run_play.specs.Play.{bindings_todo, traced_todo};
ghost use Rattle.run_play.specs.Keeping.{trace_slot};
ghost use Rattle.run_play.specs.Opening.{HaveFiles};

use crate::keeping::TRACE_SLOT;
use run_desk::slot_of;
use sof_base::NoMemory;
use sof_desk::Desk;
use sof_io::{Inputs, Outputs};
use sof_script::Binding;
use tplg_graph::Plan;

/// Gives each binding its place, an input or an output that is empty. Their slots are the ids of the endpoints' components.
pub fn bind_all(
    plan: &Plan,
    bindings: &[Binding],
    inputs: &mut Inputs,
    outputs: &mut Outputs,
) -> Result<(), NoMemory>
    requires right { wrong_binding plan.now (bounds_of bindings.now) ≡ None }
    requires inputs { inputs.old ≡ [] }
    requires outputs { outputs.old ≡ [] }
    ensures inputs { OnOk result (inputs.new ≡ bound_inputs plan.now [] (bounds_of bindings.now)) }
    ensures outputs { OnOk result (outputs.new ≡ bound_outputs plan.now [] (bounds_of bindings.now)) }
    ensures empty { OnOk result (drained outputs.new ≡ outputs.new) }
{
    for binding in bindings {
        let slot = slot_of(plan, binding.input, &binding.endpoint);
        if binding.input {
            inputs.add(slot)?;
        } else {
            outputs.add(slot)?;
        }
    }
    Ok(())
}

/// Opens or creates the file of each binding, in their order, and tells whether all were.
pub fn open_all<D: Desk>(plan: &Plan, bindings: &[Binding], desk: &mut D) -> bool
    ensures done { DeskPhase D.means (bindings_todo plan.now (bounds_of bindings.now)) result desk.old desk.new }
    ensures files { result ≡ true → HaveFiles D.means (bound_inputs plan.now [] (bounds_of bindings.now)) (bound_outputs plan.now [] (bounds_of bindings.now)) desk.new }
{
    for binding in bindings {
        if !open_one(plan, binding, desk) {
            return false;
        }
    }
    true
}

// The same of one.
fn open_one<D: Desk>(plan: &Plan, binding: &Binding, desk: &mut D) -> bool
    ensures { Acted D.means (binding_act plan.now (bound_of binding.now)) result desk.old desk.new }
{
    let slot = slot_of(plan, binding.input, &binding.endpoint);
    let file = binding.file.as_str();
    if binding.input {
        desk.open(slot, file).is_ok()
    } else {
        desk.create(slot, file).is_ok()
    }
}

/// Creates the file of the trace that is kept, if one is, and tells whether that was done. The files that were opened or created stay so.
pub fn open_trace<D: Desk>(trace: Option<&str>, desk: &mut D) -> bool
    ensures done { DeskPhase D.means (traced_todo (option_map (λ name. name.now) trace.entry)) result desk.old desk.new }
    ensures traced { result ≡ true → is_some trace.entry ≡ true → D.means.created desk.new trace_slot ≡ true }
    ensures files { (inputs : List InputView) (outputs : List OutputView) → result ≡ true → HaveFiles D.means inputs outputs desk.old → HaveFiles D.means inputs outputs desk.new }
{
    match trace {
        Some(name) => desk.create(TRACE_SLOT, name).is_ok(),
        None => true,
    }
}
