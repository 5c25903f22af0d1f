// What a plan's widgets need of a heap, by its widgets and by its graph. Nothing runs here.
ghost use Rattle.host_widgets.specs.NeedLaws as law;

/// The sizes that the widgets of a sound plan are carved at, each rounded up to 16 bytes, add up to the need that is stated of its
/// graph: so a plan fits a heap exactly where this need is at most the heap's bytes.
pub fn need_law()
    ensures sum { law.NeedIsSum }
    ensures fits { law.FitsByNeed }
{}
