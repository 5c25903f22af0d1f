//! What every other crate speaks of: names, numbers in bytes, sample formats, stream parameters, limits, error numbers, and a line of text.
#![tactic(auto)]

mod bounded;
mod conversion;
mod errno;
mod fields;
mod format;
mod hole;
mod items;
mod limits;
mod line;
mod memory;
mod name;
mod part;
mod ramps;
#[cfg(test)]
mod tests;
mod worked;

pub use bounded::Bounded;
pub use conversion::{sample_in, sample_out, sat32};
pub use errno::Errno;
pub use fields::{bytes_at, half, label, long, word, word_at, words_at};
pub use format::{Format, Params, Sample};
pub use hole::Hole;
pub use items::Items;
pub use limits::{
    INPUT_BYTES, MAX_RATE, MIN_RATE, OUTPUT_BYTES, TURN_BYTES, is_rate, limit_numbers,
};
pub use line::Line;
pub use memory::NoMemory;
pub use name::Name44;
pub use part::{Part, PartBytes};
pub use ramps::ramp_of;
pub use worked::{hole_rows, mask_rows, ramp_rows, sample_rows};
