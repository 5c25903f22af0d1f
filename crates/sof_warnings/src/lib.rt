//! Says in words what the status of a run does not: a buffer too small for its stream, a heap too small for a load, an input that is a
//! WAV, a text for a topology, and a limit that was passed. A desk of its own keeps the answers of a script's commands.
#![tactic(auto)]

mod buffers;
mod ids;
mod listener;
mod runs;
mod text;
mod ticks;
mod wave;
mod ways;

pub use listener::{Answered, Listener};
pub use runs::{Played, check_warnings, play_warnings};
pub use text::text_sentence;
pub use ticks::ticks_sentence;
pub use wave::Wave;
