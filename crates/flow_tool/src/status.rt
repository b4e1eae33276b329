//! The exit status of the program: 0 where it did what it was asked for, else one of these.

ghost use Rattle.std.specs.Prelude.{◌≡◌};
ghost use Rattle.flow_tool.specs.Status.{exit_status};

use crate::refusal::Stop;
use flow_commands::CommandFault;

/// Memory ran out, or what was given is refused.
const REFUSED: u8 = 1;

/// The words are no command line.
const NO_COMMAND: u8 = 2;

/// A file or stream can't be opened, read or written, or has more bytes than are read.
const NO_FILE: u8 = 3;

impl Stop {
    /// The status that the program ends with.
    pub(crate) fn status(self) -> u8
        ensures { result ≡ exit_status self }
    {
        match self {
            Stop::CommandLine => NO_COMMAND,
            Stop::Open | Stop::Fault(CommandFault::Read(_) | CommandFault::Write(_)) => NO_FILE,
            Stop::Memory | Stop::Fault(_) => REFUSED,
        }
    }
}
