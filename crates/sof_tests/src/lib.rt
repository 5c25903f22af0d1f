//! Tests that cross crates: runs of the top call over a desk that fails, and worked rows of the written run and its laws.
#![tactic(auto)]

#[cfg(test)]
mod compiled;
mod counted;
#[cfg(test)]
mod failing;
#[cfg(test)]
mod given;
#[cfg(test)]
mod graphs;
mod law_rows;
#[cfg(test)]
mod played;
mod rows;
#[cfg(test)]
mod runs;
#[cfg(test)]
mod same;
#[cfg(test)]
mod sounds;
mod trace_rows;

pub use counted::check_rows;
pub use law_rows::{boot_rows, load_success_rows, open_success_rows, place_rows};
pub use rows::load_and_show_rows;
pub use trace_rows::{fated_rows, load_rows};
