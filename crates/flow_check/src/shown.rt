//! What a text shows.

use crate::bounds::Bounds;
use flow_shop::Sequence;

/// What a lawful text shows.
#[derive(Debug, Drop)]
pub struct Shown {
    /// The bounds that it proves. In a certificate its value is both.
    pub bounds: Bounds,
    /// Its sequence, whose makespan is the upper bound.
    pub sequence: Sequence,
}
