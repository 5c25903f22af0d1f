// A whole file.
ghost use Rattle.std.specs.Prelude.{◌≡◌, ◌++◌, Ok, OnOk, OnErr};
ghost use Rattle.tplg_model.specs.File.{IsTopology, spelling};
ghost use Rattle.tplg_model.specs.Reading.{topology_of};

use crate::blocks::put_blocks;
use crate::sink::Sink;
use sof_base::NoMemory;
use std::mem::replace;
use tplg_model::Topology;

/// Appends the bytes of a topology's file. Where there is no memory, `out` stays as it was.
pub fn write(topology: &Topology, out: &mut Vec<u8>) -> Result<(), NoMemory>
    ensures ok { OnOk result (out.new.items ≡ out.old.items ++ spelling topology.now) }
    // The topology is one of the program, so that what is written is read as it.
    ensures is { OnOk result (IsTopology topology.now) }
    ensures again { OnOk result (topology_of (spelling topology.now) ≡ Ok topology.now) }
    ensures err { OnErr result (out.new.items ≡ out.old.items) }
{
    let empty = Vec::new(*out.allocator());
    let mut sink = Sink::behind(replace(out, empty));
    match put_blocks(topology.blocks.items(), &mut sink) {
        Ok(()) => {
            *out = sink.whole();
            Ok(())
        }
        Err(NoMemory) => {
            *out = sink.kept();
            Err(NoMemory)
        }
    }
}
