// A channel of frames that lie one after the other.

/// Which channel of how many frames of how many channels.
#[derive(Clone, Copy)]
pub struct Lane {
    pub channel: usize,
    pub channels: usize,
    pub frames: usize,
}
