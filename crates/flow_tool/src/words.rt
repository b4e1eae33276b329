//! How the words of a command line are read.

ghost use Rattle.std.specs.Prelude.{◌≡◌, ◌⊎◌, ℕ, List, map, true, IfOk, IfErr};
ghost use Rattle.flow_tool.specs.Words.{AskForHelp, IsAsked, Meaning, asks_for_help, little_known};

use crate::refusal::Stop;
use clap::error::ErrorKind;
use flow_requests::Invocation;
use flow_words::{invocation_of, make_command};
use std::alloc::Global;
use std::convert::AsStr;

/// What the words of a command line ask for.
#[derive(Drop)]
pub(crate) enum Asked<'a> {
    /// To do this.
    Run(Invocation<'a>),
    /// To write this text: the help, or the version.
    Explain(String),
}

/// Reads the words of command lines.
pub(crate) trait Grammar {
    // What words mean.
    ghost meaning: { Meaning };

    /// What these words ask for. The first one is the program's name.
    fn read<'a, S: AsStr>(alloc: Global, words: &'a [S]) -> Result<Asked<'a>, Stop>
        ensures asked { IfOk result (IsAsked meaning (map S.text words.entry.now)) }
        ensures refused { IfErr result (λ stop. (stop ≡ Stop.Memory)
            ⊎ ((stop ≡ Stop.CommandLine) × meaning.refused (map S.text words.entry.now))) };
}

/// The command line of the program.
pub(crate) struct CommandLine;

impl Grammar for CommandLine {
    ghost meaning = { little_known };

    fn read<'a, S: AsStr>(alloc: Global, words: &'a [S]) -> Result<Asked<'a>, Stop> {
        match make_command(alloc)?.try_get_matches_from(words) {
            Ok(matches) => match invocation_of(alloc, &matches)? {
                Some(invocation) => Ok(Asked::Run(invocation)),
                None => Err(Stop::CommandLine),
            },
            Err(error) => match error.kind() {
                ErrorKind::OutOfMemory => Err(Stop::Memory),
                ErrorKind::DisplayHelp | ErrorKind::DisplayVersion if ask_for_help(words) => {
                    Ok(Asked::Explain(format!(in alloc; "{error}")?))
                }
                _ => Err(Stop::CommandLine),
            },
        }
    }
}

/// Whether one of the words asks for help or the version.
fn ask_for_help<S: AsStr>(words: &[S]) -> bool
    ensures { result ≡ true → AskForHelp (map S.text words.now) }
{
    for word in words {
        if asks_for_help(word.as_str()) {
            return true;
        }
    }
    false
}

/// Whether a word asks for help or the version.
fn asks_for_help(word: &str) -> bool
    ensures { result ≡ asks_for_help word.now }
{
    matches!(word, "help" | "--help" | "-h" | "--version" | "-V")
}
