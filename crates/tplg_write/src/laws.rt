// What holds of every topology.
ghost use Rattle.tplg_model.specs.File.{IsTopology};
ghost use Rattle.tplg_model.specs.declared.block.Topology.{Topology};
ghost use Rattle.tplg_write.specs.Sizes.{HasArraySizes};

/// Each topology of the program, as all are that were read, can be written.
pub fn what_is_read_can_be_written()
    ensures { (t : Topology) → IsTopology t → HasArraySizes t }
{}
