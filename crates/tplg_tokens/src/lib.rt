//! The vendor arrays of a widget's private data, after the ALSA topology structures (ABI 5): bytes are read exactly where they
//! are whole arrays, and arrays are written as they are spelled.
#![tactic(auto)]

mod array;
mod element;
mod fault;
mod laws;
mod reading;
mod writing;

pub use element::word_bytes;
pub use fault::TokenFault;
pub use laws::arrays_are_spelled;
pub use reading::read_arrays;
pub use writing::write_arrays;
