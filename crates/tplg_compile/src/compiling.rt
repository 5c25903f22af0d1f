// From a text to a topology.
ghost use Rattle.std.specs.Prelude.{◌≡◌, ◌<◌, ◌≤◌, ◌^◌, ◌⊎◌, true, length, IfOk, IfErr, OnOk, Ok, Err};
ghost use Rattle.toml.specs.Data.{Members};
ghost use Rattle.toml.specs.View.{table_view};
ghost use Rattle.tplg_model.specs.File.{IsTopology};
ghost use Rattle.tplg_model.specs.declared.block.Topology.{Topology as TopologyValue};
ghost use Rattle.tplg_build.specs.SmallSource.{is_small_source};
ghost use Rattle.tplg_build.specs.TopologyForm.{topology_stated};
ghost use Rattle.tplg_widgets.specs.Entries.{entries_of};
ghost use Rattle.tplg_widgets.specs.Ends.{ends_in};
ghost use Rattle.tplg_compile.specs.declared.source_fault.SourceFault.{SourceFault as Fault};
ghost use Rattle.tplg_compile.specs.Results.{AnswerIs};
ghost use Rattle.tplg_compile.specs.Source.{IsSourceOf};
ghost use Rattle.tplg_compile.specs.InOrder.{compiled_of};
ghost use Rattle.tplg_compile.specs.Compiled.{IsDocument, IsCompiled, IsCompileFault};
ghost use Rattle.tplg_compile.specs.RulesKept.{KeepsRules, IsRuleFault, rule_told};

use crate::document::stated;
use crate::source_fault::SourceFault;
use std::alloc::Global;
use toml::Table;
use tplg_build::{BuildFault, TopologySource, build};
use tplg_model::Topology;
use tplg_rules::{PlanFault, check_topology};

// The table of a text.
fn parsed(alloc: Global, text: &[u8]) -> Result<Table, SourceFault>
    ensures ok { IfOk result (λ t. IsDocument text.now (table_view t)) }
    ensures err { IfErr result (λ f. (f ≡ SourceFault.OutOfMemory) ⊎ ((f ≡ SourceFault.Syntax) × IsCompileFault text.now f)) }
{
    match toml::table_from_slice(alloc, text) {
        Ok(table) => Ok(table),
        Err(error) => {
            if error.is_memory() {
                Err(SourceFault::OutOfMemory)
            } else {
                Err(SourceFault::Syntax)
            }
        }
    }
}

// The fault that is answered for a planner's fault.
fn told(fault: PlanFault) -> SourceFault
    ensures { result ≡ rule_told fault }
{
    match fault {
        PlanFault::Rule { rule, item } => SourceFault::Rule { rule, item },
        PlanFault::OutOfMemory => SourceFault::OutOfMemory,
    }
}

// The topology of a source within the limits of the builder.
fn built(alloc: Global, source: &TopologySource) -> Result<Topology, SourceFault>
    requires { is_small_source source.now ≡ true }
    ensures value { IfOk result (λ t. t ≡ topology_stated source.now) }
    ensures sound { IfOk result IsTopology }
    ensures err { IfErr result (λ f. f ≡ SourceFault.OutOfMemory) }
{
    match build(alloc, source) {
        Ok(topology) => Ok(topology),
        Err(BuildFault::OutOfMemory) => Err(SourceFault::OutOfMemory),
        // A text of 1048576 bytes has fewer than 2^32 - 1 entries, and shorter blobs.
        Err(BuildFault::TooLarge) => unreachable!(),
    }
}

// Whether a topology keeps all rules.
fn check_rules(alloc: Global, topology: &Topology) -> Result<(), SourceFault>
    requires widgets { length (entries_of topology.now) < 2 ^ 32 }
    requires routes { length (ends_in topology.now) < 2 ^ 32 }
    ensures ok { OnOk result (KeepsRules topology.now) }
    ensures err { IfErr result (λ f. (f ≡ SourceFault.OutOfMemory) ⊎ IsRuleFault topology.now f) }
{
    match check_topology(alloc, topology) {
        Ok(_) => Ok(()),
        Err(fault) => Err(told(fault)),
    }
}

/// The topology that a text is the source of, whether or not it keeps the rules.
pub fn unruled(alloc: Global, text: &[u8]) -> Result<Topology, SourceFault>
    requires { length text.now ≤ 1048576 }
    ensures found { IfOk result (λ t. (table : Members) × IsDocument text.now table × IsSourceOf table t) }
    ensures sound { IfOk result IsTopology }
    // There are so few widgets and routes that a word can number them.
    ensures widgets { IfOk result (λ t. length (entries_of t) < 2 ^ 32) }
    ensures routes { IfOk result (λ t. length (ends_in t) < 2 ^ 32) }
    ensures fault { IfErr result (λ f. (f ≡ SourceFault.OutOfMemory) ⊎ IsCompileFault text.now f) }
{
    let table = parsed(alloc, text)?;
    let source = stated(alloc, &table)?;
    let topology = built(alloc, &source)?;
    Ok(topology)
}

fn compiled(alloc: Global, text: &[u8]) -> Result<Topology, SourceFault>
    requires { length text.now ≤ 1048576 }
    ensures found { IfOk result (IsCompiled text.now) }
    ensures sound { IfOk result IsTopology }
    ensures fault { IfErr result (λ f. (f ≡ SourceFault.OutOfMemory) ⊎ IsCompileFault text.now f) }
{
    let topology = unruled(alloc, text)?;
    check_rules(alloc, &topology)?;
    Ok(topology)
}

/// The topology that a text is the source of, where it keeps all rules.
pub fn compile(alloc: Global, text: &[u8]) -> Result<Topology, SourceFault>
    requires { length text.now ≤ 1048576 }
    // The text is the source of what is answered.
    ensures found { IfOk result (IsCompiled text.now) }
    // It can be written, and what is written is its file.
    ensures sound { IfOk result IsTopology }
    // A topology that the text is the source of is answered, unless memory runs out.
    ensures only { (t : TopologyValue) → IsCompiled text.now t → AnswerIs (λ x. x) result (Ok t) }
    // A fault is what is wrong with the text, or want of memory.
    ensures fault { IfErr result (λ f. (f ≡ SourceFault.OutOfMemory) ⊎ IsCompileFault text.now f) }
    // What is wrong with the text is answered, unless memory runs out.
    ensures fault_only { (f : Fault) → IsCompileFault text.now f → AnswerIs (λ x. x) result (Err f) }
    // The same as a function of the text.
    ensures gives { AnswerIs (λ x. x) result (compiled_of text.now) }
{
    compiled(alloc, text)
}
