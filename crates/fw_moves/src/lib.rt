//! A component moves frames: out of the rings that it looks at, through what it makes of them, into the rings that it feeds.
#![tactic(auto)]

mod giving;
mod making;
mod mixing;
mod moving;
mod workspace;

pub use making::spans;
pub use moving::{copy_between, copy_frames, count_between};
pub use workspace::Workspace;
