//! Tasks and answers, which go through the lanes.

use flow_search::Outcome;

/// A task of a worker.
#[derive(Clone, Copy, Debug, PartialEq, Eq)]
pub enum Task {
    /// To search the prefix of this number, counted from 0, and answer it.
    Prefix(u32),
    /// To stop.
    End,
}

/// The answer of a worker to a prefix.
#[derive(Debug, PartialEq, Eq, Drop)]
pub struct Answer {
    /// The number of the prefix, counted from 0.
    pub number: u32,
    /// The outcome of the prefix.
    pub outcome: Outcome,
}
