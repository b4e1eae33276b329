//! Why the program stopped.

ghost use Rattle.std.specs.Prelude.{◌≡◌};
ghost use Rattle.flow_tool.specs.declared.refusal.Stop.TheVariants.{Fault, Memory};

use flow_commands::CommandFault;
use std::alloc::AllocError;
use thiserror::Error;

/// Why the program did not do what it was asked for; its text is the line on standard error.
#[derive(Clone, Copy, Debug, PartialEq, Eq, Error)]
pub(crate) enum Stop {
    /// A command refused.
    #[error("{0}")]
    Fault(CommandFault),
    /// The words are no command line.
    #[error("refused command line")]
    CommandLine,
    /// Memory ran out while the command line was read.
    #[error("refused memory")]
    Memory,
    /// A file could not be opened.
    #[error("failed open")]
    Open,
}

impl From<AllocError> for Stop {
    ghost from_gives = { λ _ stop. stop ≡ Memory };

    fn from(_error: AllocError) -> Stop {
        Stop::Memory
    }
}

impl From<CommandFault> for Stop {
    ghost from_gives = { λ fault stop. stop ≡ Fault fault };

    fn from(fault: CommandFault) -> Stop {
        Stop::Fault(fault)
    }
}
