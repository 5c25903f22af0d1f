// Why no more records are given to a device, and how many were.

use ipc3_trace::ReplayFault;

/// Why no more records are given.
#[derive(Clone, Copy, Debug, PartialEq, Eq)]
pub enum Stopped {
    At(ReplayFault),
    /// The device failed in a message.
    Device,
}

/// How many records of each kind were given.
#[derive(Clone, Copy, Debug, PartialEq, Eq)]
pub struct Tally {
    pub boots: u64,
    pub messages: u64,
    pub ticks: u64,
}
