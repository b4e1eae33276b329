//! The bounds that a text proves.

/// Between these the least makespan of an instance lies.
#[derive(Clone, Copy, Debug, PartialEq, Eq)]
pub struct Bounds {
    /// No sequence has a makespan below it.
    pub lower: u64,
    /// A sequence has this makespan.
    pub upper: u64,
}
