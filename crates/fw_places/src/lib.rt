//! Ids at places, and what walks along the joins of ids reach.
#![tactic(auto)]

mod echoes;
mod places;
mod walk;

pub use echoes::Ways;
pub use places::Places;
