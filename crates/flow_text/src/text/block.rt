//! A block of benchmark text.

use flow_shop::Instance;

/// An instance with a seed, and two bounds of its least makespan. Seed and bounds are what the text says, untested.
#[derive(Debug, PartialEq, Eq, Drop)]
pub struct Block {
    /// The seed from which the generator made the instance.
    pub seed: u32,
    /// The upper bound of the least makespan.
    pub upper: u32,
    /// The lower bound of the least makespan.
    pub lower: u32,
    /// The jobs, the machines and the times.
    pub instance: Instance,
}
