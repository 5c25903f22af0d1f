// Some sections of a channel, and where their numbers stand.

use eq_blob::Found;

/// Sections in series, and the slot in which the numbers of the first one stand.
#[derive(Clone, Copy)]
pub struct Stretch {
    pub found: Found,
    pub slot: usize,
}
