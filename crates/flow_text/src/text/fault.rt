//! What can be wrong with a text.

ghost use Rattle.std.specs.Prelude.{◌≡◌};
ghost use Rattle.flow_text.specs.internal.TextWalk.{at_line};
ghost use Rattle.flow_text.specs.declared.text.fault.LineFault.TheVariants.{Memory};

use std::alloc::{AllocError, AllocFailed};
use thiserror::Error;

/// What is wrong with a line.
#[derive(Clone, Copy)]
pub(crate) enum LineFault {
    /// Memory ran out.
    Memory,
    /// A label line is wanted, and this is none.
    Label,
    /// A byte of the line is neither a digit nor a blank.
    Byte,
    /// A number is above `MAX_NUMBER`.
    Number,
    /// The head has fewer or more than five numbers.
    Head,
    /// The jobs or the machines of the head are not within the limits, or a time is above `MAX_TIME`.
    Limits,
    /// There is not one time for each job and machine.
    Times,
}

/// The first fault of a text, with the number of its line, counted from 1. What is missing at the end has the number of
/// the line after the last.
#[derive(Clone, Copy, Debug, PartialEq, Eq, Error)]
pub enum TextFault {
    /// Memory ran out.
    #[error("Memory")]
    Memory,
    /// The text has no line, or only blank ones.
    #[error("NoBlock")]
    NoBlock,
    /// A label line is wanted, and there is none.
    #[error("Label {0}")]
    Label(usize),
    /// A byte of a number line is neither a digit nor a blank.
    #[error("Byte {0}")]
    Byte(usize),
    /// A number is above `MAX_NUMBER`.
    #[error("Number {0}")]
    Number(usize),
    /// The head of a block has fewer or more than five numbers.
    #[error("Head {0}")]
    Head(usize),
    /// The jobs of a head are not in `1..=MAX_JOBS`, its machines are not in `1..=MAX_MACHINES`, or a time is above
    /// `MAX_TIME`.
    #[error("Limits {0}")]
    Limits(usize),
    /// There is not one time for each job and machine.
    #[error("Times {0}")]
    Times(usize),
}

impl From<AllocError> for LineFault {
    ghost from_gives = { λ _ fault. fault ≡ Memory };

    fn from(_error: AllocError) -> LineFault {
        LineFault::Memory
    }
}

impl<T: Drop> From<AllocFailed<T>> for LineFault {
    ghost from_gives = { λ _ fault. fault ≡ Memory };

    fn from(_error: AllocFailed<T>) -> LineFault {
        LineFault::Memory
    }
}

impl LineFault {
    /// The fault of the line with this number.
    pub(crate) fn at(self, line: usize) -> TextFault
        ensures { result ≡ at_line self line }
    {
        match self {
            LineFault::Memory => TextFault::Memory,
            LineFault::Label => TextFault::Label(line),
            LineFault::Byte => TextFault::Byte(line),
            LineFault::Number => TextFault::Number(line),
            LineFault::Head => TextFault::Head(line),
            LineFault::Limits => TextFault::Limits(line),
            LineFault::Times => TextFault::Times(line),
        }
    }
}
