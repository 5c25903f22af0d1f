//! The equaliser: samples through the sections of the blob in force.
#![tactic(auto)]

mod arithmetic;
mod equaliser;
mod lane;
mod laws;
mod lookup;
mod numbers;
mod one_section;
mod pair_arithmetic;
mod pair_numbers;
mod passing;
mod side_by_side;
mod stages;
mod stretch;

pub use eq_blob::{EqFault, blobs_are_forms, check};
pub use equaliser::Eq;
pub use laws::epochs_are_equalised;
