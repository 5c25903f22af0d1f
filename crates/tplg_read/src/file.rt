// A whole file.
ghost use Rattle.std.specs.Prelude.{◌≡◌, ◌⊎◌, IfOk, IfErr, Ok, Err};
ghost use Rattle.tplg_model.specs.Outcomes.{Gives};
ghost use Rattle.tplg_model.specs.Reading.{topology_of};
ghost use Rattle.tplg_model.specs.File.{IsTopology, IsFileOf, IsFileFault};
ghost use Rattle.tplg_model.specs.declared.block.Topology.{Topology as TopologyValue};
ghost use Rattle.tplg_model.specs.declared.fault.TplgFault.{TplgFault as Fault};

use crate::blocks::blocks_of;
use std::alloc::Global;
use tplg_model::{Topology, TplgFault};

fn all(alloc: Global, bytes: &[u8]) -> Result<Topology, TplgFault>
    ensures { Gives (λ x. x) result (topology_of bytes.now) }
{
    let blocks = blocks_of(alloc, bytes)?;
    Ok(Topology { blocks })
}

/// The topology whose file the bytes are, in one pass. A fault's place is in bytes from the file's first.
pub fn read(alloc: Global, bytes: &[u8]) -> Result<Topology, TplgFault>
    // The bytes are the file of what is read.
    ensures found { IfOk result (λ t. IsTopology t × IsFileOf bytes.now t) }
    // A topology whose file they are is read, unless memory runs out.
    ensures only { (t : TopologyValue) → IsTopology t → IsFileOf bytes.now t → Gives (λ x. x) result (Ok t) }
    // A fault is the first one, or want of memory.
    ensures fault { IfErr result (λ f. (f ≡ TplgFault.OutOfMemory) ⊎ IsFileFault bytes.now f) }
    // The first fault is answered, unless memory runs out.
    ensures fault_only { (f : Fault) → IsFileFault bytes.now f → Gives (λ x. x) result (Err f) }
    // The same as a function of the bytes.
    ensures gives { Gives (λ x. x) result (topology_of bytes.now) }
{
    all(alloc, bytes)
}
