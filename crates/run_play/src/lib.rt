//! The forms `play`, `dynamic` and `trace`: a script's commands over a session, one by one, with the files that it binds.
#![tactic(auto)]

mod appending;
mod carry;
mod keeping;
mod opening;
mod play;
mod windows;

pub use play::do_play;
