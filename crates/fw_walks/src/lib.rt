//! What ids name in the firmware's registry, what is on the ways of its streams, and what is Live and Active.
#![tactic(auto)]

mod kinds;
mod lookups;
mod marks;
mod streams;

pub use kinds::{captures, fits, ins_of, kind_of, outs_of, plays, sink_in, source_in};
pub use lookups::{
    count_ins, count_outs, find, has_buffer, has_comp, is_used, kind_at, sink_at, source_at,
};
pub use marks::{live_marks, mark_hosts, ways};
pub use streams::{Sort, active, has_stream, live};
