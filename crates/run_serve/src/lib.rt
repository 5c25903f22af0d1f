//! The form `serve`: a driver's records, given to a device one by one; what comes back of a message is written before the next is read.
#![tactic(auto)]

mod answering;
mod giving;
mod laws;
mod lines;
mod reading;
mod serving;
mod words;

pub use giving::{Given, give, last_reply};
pub use laws::{served_replays, served_trace};
pub use serving::{Served, Stopped, serve};
pub use words::{ServeFiles, serve_files};
