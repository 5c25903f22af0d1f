//! An equaliser's blob: whether bytes are one that it can take, its bytes in words, and its sections.
#![tactic(auto)]

mod blob_walk;
mod bytes;
mod fault;
mod laws;
mod section;

pub use blob_walk::check;
pub use bytes::{copy_out, put_bytes};
pub use fault::EqFault;
pub use laws::blobs_are_forms;
pub use section::{Found, Section, section_at};
