//! What can go wrong between a program and a device.

ghost use Rattle.std.specs.Prelude.{◌≡◌};
ghost use Rattle.flow_text.specs.declared.bytes.fault.ReadFault.TheVariants.{Memory};

use std::alloc::AllocError;
use thiserror::Error;

/// A device moved no byte. Its `failed` returns true from then on.
#[derive(Clone, Copy, Debug, PartialEq, Eq)]
pub struct Refused;

/// Why not all bytes were written.
#[derive(Clone, Copy, Debug, PartialEq, Eq, Error)]
pub enum WriteFault {
    /// The sink refused.
    #[error("Device")]
    Device,
}

/// Why not all bytes were read.
#[derive(Clone, Copy, Debug, PartialEq, Eq, Error)]
pub enum ReadFault {
    /// Memory ran out.
    #[error("Memory")]
    Memory,
    /// The source refused.
    #[error("Device")]
    Device,
    /// More bytes came than the limit.
    #[error("TooLong")]
    TooLong,
}

impl From<AllocError> for ReadFault {
    ghost from_gives = { λ _ fault. fault ≡ Memory };

    fn from(_error: AllocError) -> ReadFault {
        ReadFault::Memory
    }
}
