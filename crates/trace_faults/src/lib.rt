//! Says in words what is wrong with a record of a trace or of a driver, and with what a firmware answered.
//!
//! A sentence has no newline, and begins with the name of its file.
#![tactic(auto)]

mod far_fault;
mod trace_fault;

pub use far_fault::far_sentence;
pub use trace_fault::{
    Misfit, loss_misfit, misfit_sentence, record_sentence, reply_misfit, trace_sentence,
};
