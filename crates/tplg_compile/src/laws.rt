// What holds of every table.
ghost use Rattle.std.specs.Prelude.{◌≡◌, ◌≤◌, ◌⊎◌, ◌↔◌, ℕ, true, List, length, Ok, Err};
ghost use Rattle.toml.specs.Data.{Members};
ghost use Rattle.tplg_model.specs.declared.block.Topology.{Topology};
ghost use Rattle.tplg_build.specs.SmallSource.{is_small_source};
ghost use Rattle.tplg_compile.specs.declared.source_fault.List.{List as ListName};
ghost use Rattle.tplg_compile.specs.declared.source_fault.SourceFault.{SourceFault as Fault};
ghost use Rattle.tplg_compile.specs.InOrder.{compiled_of};
ghost use Rattle.tplg_compile.specs.Compiled.{IsDocument, IsCompiled, IsCompileFault};
ghost use Rattle.tplg_compile.specs.Source.{IsSourceOf, IsShapeFault};

/// A table is the source of one topology, or it has one first entry at fault.
pub fn sources_have_one_form()
    // A table is the source of at most one topology.
    ensures one { (table : Members) (t u : Topology) → IsSourceOf table t → IsSourceOf table u → t ≡ u }
    // At most one entry is the first at fault.
    ensures first { (table : Members) (k l : ListName) (m n : ℕ) → IsShapeFault table k m → IsShapeFault table l n → (k ≡ l) × (m ≡ n) }
    // A source has no entry at fault.
    ensures apart { (table : Members) (t : Topology) (l : ListName) (n : ℕ) → IsSourceOf table t → IsShapeFault table l n → ⊥ }
    // And a table without one is a source.
    ensures either { (table : Members) → ((t : Topology) × IsSourceOf table t) ⊎ ((l : ListName) × ((n : ℕ) × IsShapeFault table l n)) }
    // Compiling as a function of a text gives what the text is the source of, and else what is wrong with it.
    ensures carried { (text : List ℕ) (t : Topology) → (compiled_of text ≡ Ok t) ↔ IsCompiled text t }
    ensures faults { (text : List ℕ) (f : Fault) → (compiled_of text ≡ Err f) ↔ IsCompileFault text f }
{}

/// What a text of at most 1048576 bytes states is within the limits of the builder.
pub fn sources_are_small()
    ensures { (text : List ℕ) (table : Members) (t : Topology) → length text ≤ 1048576 → IsDocument text table → (of : IsSourceOf table t) → is_small_source of.source ≡ true }
{}
