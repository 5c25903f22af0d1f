// What holds of every topology and all bytes.

ghost use Rattle.std.specs.Prelude.{◌≡◌, ◌<◌, ◌↔◌, ℕ, List, Ok, Err, slice_index};
ghost use Rattle.sof_base.specs.LoosePlaces.{AgreesOutsideLoose, IsCanonical};
ghost use Rattle.tplg_model.specs.File.{IsTopology, IsFileOf, IsFileFault, spelling};
ghost use Rattle.tplg_model.specs.RecordFaults.{topology_cells};
ghost use Rattle.tplg_model.specs.Reading.{topology_of};
ghost use Rattle.tplg_model.specs.declared.block.Topology.{Topology};
ghost use Rattle.tplg_model.specs.declared.fault.TplgFault.{TplgFault as Fault};

/// A file is one of at most one topology, and what is written of a topology is its file.
pub fn files_are_spelled()
    // A file has the length of what is written, and agrees with it outside the loose places.
    ensures literal { (bytes : List ℕ) (t : Topology) → IsFileOf bytes t ↔ AgreesOutsideLoose bytes (topology_cells t) }
    // Bytes are the file of at most one topology.
    ensures one { (bytes : List ℕ) (t u : Topology) → IsTopology t → IsTopology u → IsFileOf bytes t → IsFileOf bytes u → t ≡ u }
    // What is written of a topology is its file.
    ensures written { (t : Topology) → IsFileOf (spelling t) t }
    // A file whose loose places are as they are written is what is written.
    ensures canonical { (bytes : List ℕ) (t : Topology) → IsFileOf bytes t → IsCanonical bytes (topology_cells t) → bytes ≡ spelling t }
    // Reading as a function of bytes gives the topology whose file they are, and else the first fault.
    ensures carried { (bytes : List ℕ) (t : Topology) → ((i : ℕ) → slice_index bytes i < 256) → (topology_of bytes ≡ Ok t) ↔ (IsTopology t × IsFileOf bytes t) }
    ensures faults { (bytes : List ℕ) (f : Fault) → ((i : ℕ) → slice_index bytes i < 256) → (topology_of bytes ≡ Err f) ↔ IsFileFault bytes f }
{}
