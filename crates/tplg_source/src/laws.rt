// What holds of all sources.
ghost use Rattle.std.specs.Prelude.{◌≡◌, Some};
ghost use Rattle.tplg_build.specs.declared.source.WidgetKind.{WidgetKind};
ghost use Rattle.tplg_compile.specs.KeyTables.{kind_named};
ghost use Rattle.tplg_source.specs.SourceText.{kind_word};

/// The word that a source says for a kind names this kind.
pub fn words_name_kinds()
    ensures { (kind : WidgetKind) → kind_named (kind_word kind) ≡ Some kind }
{}
