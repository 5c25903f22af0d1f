// What the definitions entail. Nothing runs here.
ghost use Rattle.host_widgets.specs.Need.{NeedIsLeast};
ghost use Rattle.host_dynamic.specs.Parts.{EchoesStay, PartShowsUp, TouchesStay, WaysStay};

/// What a stream needs is the least set of indices that is enough for it.
pub fn need_law()
    ensures { NeedIsLeast }
{}

/// What is shown of the part of a plan that is up is what a record of this part says, as of a plan of its own, and of
/// buffers that are up the echo edges are those of the whole; so is the way of a stream that has what it
/// needs, and so are the streams that touch it.
pub fn part_law()
    ensures shows { PartShowsUp }
    ensures echoes { EchoesStay }
    ensures ways { WaysStay }
    ensures touches { TouchesStay }
{}
