// Room for bytes of an input that do not lie in one piece.
/// The most samples that are fed at once: 192 frames of 8 channels, or more of fewer.
pub(crate) const MOST: usize = 1536;

/// The most zeros that are put at once.
pub(crate) const ZEROS: usize = 256;

/// Room for the bytes of the samples that are fed at once, where an input does not have them in one piece. What stands there means
/// nothing between two moves.
#[derive(Drop)]
pub struct Scratch {
    pub(crate) bytes: [u8; 6144],
}

impl Scratch {
    /// New room.
    pub fn new() -> Scratch {
        Scratch { bytes: [0; 6144] }
    }
}
