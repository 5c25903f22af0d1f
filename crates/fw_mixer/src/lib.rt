//! A mixer over samples: the sums of samples that stand at the same place of several parts, each held once to their range. Eights of places go through lanes, and what is left goes one by one.
#![tactic(auto)]

mod mixing;

pub use mixing::mix_parts;
