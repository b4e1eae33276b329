//! When the time of a search is over.

/// Tells a search whether its time is over.
pub trait Deadline {
    /// Whether it is. Then a search ends soon, with the best sequence that it has come to.
    fn is_over(&self) -> bool;
}

/// A time that is never over.
#[derive(Clone, Copy, Debug)]
pub struct Never;

impl Deadline for Never {
    fn is_over(&self) -> bool {
        false
    }
}
