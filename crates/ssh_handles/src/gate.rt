// Where a writer passes, outside the lock.

/// What a writer calls outside the lock, for those who want to know where it is: with 0 before it
/// puts data, and with 1 after the window was empty, before it waits.
pub trait Gate {
    /// The writer is at this place.
    fn pass(&self, place: u32);
}

/// A gate that does nothing.
#[derive(Clone, Copy, Debug)]
pub struct NoGate;

impl Gate for NoGate {
    fn pass(&self, _place: u32) {}
}
