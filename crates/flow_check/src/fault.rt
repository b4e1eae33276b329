//! Why a text is refused as one of its kind.

ghost use Rattle.std.specs.Prelude.{◌≡◌};
ghost use Rattle.flow_check.specs.declared.fault.CheckFault.TheVariants.{Memory};

use std::alloc::{AllocError, AllocFailed};
use thiserror::Error;

/// Why a text is refused as one of the kind as which it is read: its first fault. The number is that of the line,
/// counted from 1. In the line on standard error this text follows `refused certificate` (`CommandFault` of
/// flow_commands).
#[derive(Clone, Copy, Debug, PartialEq, Eq, Error)]
pub enum CheckFault {
    /// Memory ran out.
    #[error("Memory")]
    Memory,
    /// The first line is not that of the kind as which the text is read. Where `kind_of` gave the kind, it is that of
    /// no kind.
    #[error("Header")]
    Header,
    /// The second line is not the jobs and machines of the instance alone, or in a certificate with trees not these and
    /// a depth that it may have.
    #[error("Size")]
    Size,
    /// The third line is not one number, or of a two-ended or a counted certificate not two numbers; or the fifth line
    /// of a counted one is not one number; or a number is too large.
    #[error("Value")]
    Value,
    /// The fourth line is not a sequence.
    #[error("Sequence")]
    Sequence,
    /// The sequence's makespan is not the value, or not the upper bound.
    #[error("NotAttained")]
    NotAttained,
    /// The text states more nodes than the reader allows. It says nothing of whether the text is lawful.
    #[error("Most")]
    Most,
    /// This line is not one tree; of a two-ended certificate, it has too few signs, too many, another byte, or no line
    /// end; of a counted one, the search opens more nodes, or ends with fewer.
    #[error("Tree {0}")]
    Tree(usize),
    /// In this line of a certificate with trees a letter's bound, that of the version, is below the value.
    #[error("Weak {0}")]
    Weak(usize),
    /// In this line a point's makespan is below the value; of a two-ended certificate, the directions lead to a whole
    /// sequence that is below the lower bound; of a counted one, the search reaches such a sequence.
    #[error("Low {0}")]
    Low(usize),
    /// What follows the line of the last tree, that of the directions, or that of the count is not the last line alone.
    #[error("End")]
    End,
}

impl From<AllocError> for CheckFault {
    ghost from_gives = { λ _ fault. fault ≡ Memory };

    fn from(_error: AllocError) -> CheckFault {
        CheckFault::Memory
    }
}

impl<T: Drop> From<AllocFailed<T>> for CheckFault {
    ghost from_gives = { λ _ fault. fault ≡ Memory };

    fn from(_error: AllocFailed<T>) -> CheckFault {
        CheckFault::Memory
    }
}
