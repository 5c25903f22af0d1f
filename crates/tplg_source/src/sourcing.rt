// The source of a topology.
ghost use Rattle.std.specs.Prelude.{◌≡◌, ◌<◌, ◌≤◌, ◌^◌, length, Some, None, IfOk, MatchResult};
ghost use Rattle.tplg_widgets.specs.Entries.{entries_of};
ghost use Rattle.tplg_widgets.specs.Ends.{ends_in};
ghost use Rattle.tplg_same.specs.SameTest.{same_plans};
ghost use Rattle.tplg_graph.specs.PlanOf.{plan_of};
ghost use Rattle.tplg_compile.specs.InOrder.{compiled_of};
ghost use Rattle.tplg_source.specs.declared.no_source.NoSource.TheVariants as no_source;
ghost use Rattle.tplg_source.specs.Outcome as law;

use crate::carrying::carried_source;
use crate::no_source::NoSource;
use crate::texts::source_text;
use std::alloc::Global;
use tplg_compile::{SourceFault, compile};
use tplg_graph::{Plan, plan};
use tplg_model::Topology;
use tplg_same::same_plans;

/// The most bytes of a source.
const LIMIT: usize = 1048576;

// Whether a topology that keeps all rules has this plan.
fn is_of(alloc: Global, made: &Topology, wanted: &Plan) -> Result<bool, NoSource>
    requires widgets { length (entries_of made.now) < 2 ^ 32 }
    requires routes { length (ends_in made.now) < 2 ^ 32 }
    ensures { MatchResult result (λ is. is ≡ same_plans (plan_of made.now) wanted.now) (λ e. e ≡ no_source.OutOfMemory) }
{
    match plan(alloc, made) {
        Ok(plan) => Ok(same_plans(&plan, wanted)),
        Err(_) => Err(NoSource::OutOfMemory),
    }
}

// Whether a text compiles to a topology of this plan.
#[tactic(auto, using(crate::proofs::KeptPlans::few_widgets, crate::proofs::KeptPlans::few_routes, crate::proofs::KeptPlans::refused_none))]
fn has_plan(alloc: Global, text: &[u8], wanted: &Plan) -> Result<bool, NoSource>
    requires { length text.now ≤ 1048576 }
    ensures { MatchResult result (λ is. is ≡ law.has_plan wanted.now (compiled_of text.now)) (λ e. e ≡ no_source.OutOfMemory) }
{
    match compile(alloc, text) {
        Ok(made) => is_of(alloc, &made, wanted),
        Err(SourceFault::OutOfMemory) => Err(NoSource::OutOfMemory),
        Err(_) => Ok(false),
    }
}

// Whether a text keeps this plan.
fn is_kept(alloc: Global, text: &[u8], wanted: &Plan) -> Result<bool, NoSource>
    ensures { MatchResult result (λ is. is ≡ law.is_kept wanted.now text.now) (λ e. e ≡ no_source.OutOfMemory) }
{
    if text.len() > LIMIT {
        return Ok(false);
    }
    has_plan(alloc, text, wanted)
}

// The text of what a source can carry of a topology.
fn text_carrying(alloc: Global, topology: &Topology) -> Result<Vec<u8>, NoSource>
    ensures { MatchResult result (λ text. text.items ≡ law.text_carrying topology.now) (λ e. e ≡ no_source.OutOfMemory) }
{
    let source = carried_source(alloc, topology)?;
    Ok(source_text(alloc, &source)?)
}

/// The source of a topology whose plan this is: a text that compiles to a topology of the same plan, but for what no source
/// carries. A topology has none if its text has another plan, or more than 1048576 bytes.
#[tactic(auto, using(crate::proofs::KeptPlans::text_keeps, crate::proofs::KeptPlans::text_given, crate::proofs::KeptPlans::text_lost))]
pub fn source(alloc: Global, topology: &Topology, wanted: &Plan) -> Result<Vec<u8>, NoSource>
    // The text compiles to a topology of this plan.
    ensures keeps { IfOk result (λ text. law.KeepsPlan wanted.now text.items) }
    // It is the text of what a source can carry, exactly where that has the plan, unless memory runs out.
    ensures gives { MatchResult result
        (λ text. law.kept_text wanted.now (law.text_carrying topology.now) ≡ Some text.items)
        (λ e. e ≡ no_source.Lost → law.kept_text wanted.now (law.text_carrying topology.now) ≡ None) }
{
    let text = text_carrying(alloc, topology)?;
    if is_kept(alloc, &text, wanted)? {
        Ok(text)
    } else {
        Err(NoSource::Lost)
    }
}
