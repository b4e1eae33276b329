//! What a search for directions finds.

ghost use Rattle.std.specs.Prelude.{◌≡◌};
ghost use Rattle.flow_directions.specs.declared.found.ProveFault.TheVariants.{Memory};

use flow_shop::{End, Sequence};
use std::alloc::AllocError;
use thiserror::Error;

/// A part of a search.
#[derive(Debug, PartialEq, Eq, Drop)]
pub enum Part {
    /// The node of two lists: its sequences begin with the first one, and end with the last one.
    Node {
        /// The first list.
        first: Vec<u16>,
        /// The last list.
        last: Vec<u16>,
    },
    /// Some children of a node, one after the other.
    Children {
        /// The first list of the node.
        first: Vec<u16>,
        /// Its last list.
        last: Vec<u16>,
        /// The end at which each child puts a job.
        end: End,
        /// These jobs.
        jobs: Vec<u16>,
    },
}

/// What a search for directions found.
#[derive(Debug, PartialEq, Eq, Drop)]
pub enum Found {
    /// Directions that prove the threshold: no sequence of the node has a makespan below it. Each byte is `+`, for the
    /// front, or `-`, for the back.
    Proved(Vec<u8>),
    /// The first sequence of the node, in the order of the search, whose makespan is below the threshold.
    Below {
        /// The sequence.
        sequence: Sequence,
        /// Its makespan.
        makespan: u64,
        /// How many directions the search wrote before it.
        directions: u64,
    },
    /// There are more directions than the budget, in all or before the first sequence below the threshold.
    Over,
}

/// What a search of a node came to.
#[derive(Debug, PartialEq, Eq, Drop)]
pub enum Advanced {
    /// Directions that prove the threshold, as those of `Found`.
    Proved(Vec<u8>),
    /// The first sequence of the node, in the order of the search, whose makespan is below the threshold.
    Below {
        /// The sequence.
        sequence: Sequence,
        /// Its makespan.
        makespan: u64,
        /// The directions that the search wrote before it.
        directions: Vec<u8>,
    },
    /// There are more directions than the budget, in all or before the first sequence below the threshold.
    Rest {
        /// The first directions, as many as the budget.
        directions: Vec<u8>,
        /// The parts with which the search goes on, one after the other.
        parts: Vec<Part>,
    },
}

/// What a search for directions found that counts them.
#[derive(Debug, PartialEq, Eq, Drop)]
pub enum Counted {
    /// No sequence of the node has a makespan below the threshold. So many directions prove it.
    Proved(u64),
    /// The first sequence of the node, in the order of the search, whose makespan is below the threshold.
    Below {
        /// The sequence.
        sequence: Sequence,
        /// Its makespan.
        makespan: u64,
        /// How many directions come before it.
        directions: u64,
    },
    /// There are more directions than the budget, in all or before the first sequence below the threshold.
    Over,
}

/// What a search of a node came to that counts its directions.
#[derive(Debug, PartialEq, Eq, Drop)]
pub enum Tallied {
    /// So many directions prove the threshold, as those of `Counted`.
    Proved(u64),
    /// The first sequence of the node, in the order of the search, whose makespan is below the threshold.
    Below {
        /// The sequence.
        sequence: Sequence,
        /// Its makespan.
        makespan: u64,
        /// How many directions come before it.
        directions: u64,
    },
    /// There are more directions than the budget, in all or before the first sequence below the threshold. The search
    /// goes on with these parts, one after the other.
    Rest(Vec<Part>),
}

/// What a search of a node came to, apart from its directions.
#[derive(Drop)]
pub(crate) enum Outcome {
    /// No sequence of the node has a makespan below the threshold.
    Proved,
    /// The first sequence of the node, in the order of the search, whose makespan is below the threshold.
    Below {
        /// The sequence.
        sequence: Sequence,
        /// Its makespan.
        makespan: u64,
    },
    /// There are more directions than the budget. The search goes on with these parts, one after the other.
    Rest(Vec<Part>),
}

/// Why nothing was found.
#[derive(Clone, Copy, Debug, PartialEq, Eq, Error)]
pub enum ProveFault {
    /// The two lists are no node: a job is not one of the instance, or stands in them twice.
    #[error("Jobs")]
    Jobs,
    /// Memory ran out.
    #[error("Memory")]
    Memory,
}

impl From<AllocError> for ProveFault {
    ghost from_gives = { λ _ fault. fault ≡ Memory };

    fn from(_error: AllocError) -> ProveFault {
        ProveFault::Memory
    }
}
