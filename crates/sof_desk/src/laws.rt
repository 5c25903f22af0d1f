// What the contracts of a desk's calls entail. Nothing runs here.
ghost use Rattle.sof_desk.specs.ToldFiles.{ToldStays, NeverTaken};

use crate::calls::Desk;

/// A file to which lines are told stays so whatever calls are made, and no call takes it.
pub fn told_apart<D: Desk>()
    ensures stays { ToldStays D.means }
    ensures apart { NeverTaken D.means }
{}
