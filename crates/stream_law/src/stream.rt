// The state of a stream.
use sof_base::Params;

/// How far a stream is: without parameters, with parameters, moving, or held with its rings kept.
#[derive(Clone, Copy, Debug, PartialEq, Eq)]
pub enum Phase {
    Idle,
    Prepared,
    Running,
    Paused,
}

/// A stream: its host component's id, its phase, and its parameters where it is not idle.
#[derive(Clone, Copy, Debug, PartialEq, Eq)]
pub struct StreamView {
    pub host: u32,
    pub phase: Phase,
    pub params: Option<Params>,
}
