/// A negative error number, as a reply carries it.
#[derive(Clone, Copy, Debug, PartialEq, Eq)]
pub struct Errno(pub i32);

impl Errno {
    /// No memory: a table is full, or no hole of the heap holds the size.
    pub const NO_MEMORY: Errno = Errno(-12);

    /// Busy: the id is used, or its pipeline is complete.
    pub const BUSY: Errno = Errno(-16);

    /// No such device: an id names nothing.
    pub const NO_DEVICE: Errno = Errno(-19);

    /// Not valid: a broken message, or one that its target does not take.
    pub const INVALID: Errno = Errno(-22);
}
