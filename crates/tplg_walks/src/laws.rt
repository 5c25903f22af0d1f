// What the tests of walks say. Nothing runs here.
ghost use Rattle.tplg_walks.specs.WalkLaws.{LeadsByWalks, ReachesByWalks, CapturesByWalks};

/// The tests by which rule 14 finds echo edges say whether there is a walk: one of no edges or more, one of one edge or more, and one into a
/// host that captures along edges that are no echo edges.
pub fn walks_are_found()
    ensures leads { LeadsByWalks }
    ensures reaches { ReachesByWalks }
    ensures captures { CapturesByWalks }
{}
