//! What was read of a text so far.

use crate::text::block::Block;

/// What is wanted at the next line.
#[derive(Clone, Copy)]
pub(crate) enum Want {
    /// The label line of a head, or the end of the text.
    FirstLabel,
    /// Numbers of a head.
    HeadNumbers,
    /// The label line of the times.
    SecondLabel,
    /// Times of a block.
    Times,
}

/// The five numbers at the head of a block.
#[derive(Clone, Copy)]
pub(crate) struct Head {
    /// The number of jobs, in `1..=MAX_JOBS`.
    pub(crate) jobs: u16,
    /// The number of machines, in `1..=MAX_MACHINES`.
    pub(crate) machines: u16,
    /// The seed from which the generator made the instance.
    pub(crate) seed: u32,
    /// The upper bound of the least makespan.
    pub(crate) upper: u32,
    /// The lower bound of the least makespan.
    pub(crate) lower: u32,
}

/// The state of the reading between two lines.
#[derive(Drop)]
pub(crate) struct Progress {
    /// What is wanted at the next line.
    pub(crate) want: Want,
    /// The numbers since the last label line.
    pub(crate) numbers: Vec<u32>,
    /// The head of the block that is read.
    pub(crate) head: Head,
    /// The blocks that were read whole, in order.
    pub(crate) blocks: Vec<Block>,
}
