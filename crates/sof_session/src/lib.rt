//! A session: a host with its device after a link, which carries out a script's commands and shows how everything stands.
#![tactic(auto)]

mod answers;
mod dyn_session;
mod laws;
mod session;
mod show;
mod words;

pub use dyn_session::DynSession;
pub use laws::{boots, fault_rows, mix_rows, one_run, successes, up_shown};
pub use session::Session;
