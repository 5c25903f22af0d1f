//! Traces: what a device was sent and what it answered, as records in bytes; how they are read, what is said of them, and a device that
//! keeps those of its calls.
#![tactic(auto)]

mod describing;
mod entry;
mod fault;
mod fault_lines;
mod held;
mod kind;
mod laws;
mod reading;
mod tracer;
mod writing;

pub use describing::describe;
pub use entry::{Entry, Next};
pub use fault::{ReplayFault, TraceFault};
pub use fault_lines::write_replay_fault;
pub use kind::RecordKind;
pub use laws::{alike_laws, held_law, leading_laws, traces_are_read};
pub use reading::{first_fault, record_at, size_after};
pub use tracer::Tracer;
pub use writing::put_record;
