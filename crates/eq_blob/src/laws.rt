// What holds of every blob. Nothing runs here.
ghost use Rattle.std.specs.Prelude.{◌≡◌, ◌<◌, ◌↔◌, ℕ, List, None, slice_index};
ghost use Rattle.sof_base.specs.BlobParts.{IsBlob};
ghost use Rattle.sof_base.specs.BlobFaults.{blob_fault};

/// Bytes are without a fault exactly where they are the words of a blob's fields, joined, and then any rest.
pub fn blobs_are_forms()
    ensures { (b : List ℕ) → ((i : ℕ) → slice_index b i < 256) → (blob_fault b ≡ None) ↔ IsBlob b }
{}
