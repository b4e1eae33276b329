//! The words of a command line, and what is done for them, on which files.

ghost use Rattle.std.specs.Prelude.{◌≡◌, ◌⊎◌, false, IfErr, Ok};
ghost use Rattle.flow_commands.specs.Runs.{Responds, sink_run};
ghost use Rattle.flow_tool.specs.Obeyed.{FollowsGiven};
ghost use Rattle.flow_tool.specs.Words.{texts_of};

use crate::inputs::{Inputs, open_second, open_text};
use crate::refusal::Stop;
use crate::words::{Asked, Grammar};
use flow_commands::{CommandFault, Means, Watch, run_gen, run_request};
use flow_core::{Sink, put_all};
use flow_requests::Invocation;
use std::convert::AsStr;
use std::io;
use std::sync::Wait;
use std::thread::Threads;

/// The words that the system gives the program.
pub(crate) fn given_words(system: &HostRuntime) -> Result<Vec<String>, Stop>
    ensures { IfErr result (λ stop. (stop ≡ Stop.Memory) ⊎ (stop ≡ Stop.CommandLine)) }
{
    match std::env::args(system) {
        Ok(words) => Ok(words.collect(system.alloc())?),
        Err(error) if error.kind() == io::ErrorKind::OutOfMemory => Err(Stop::Memory),
        Err(_) => Err(Stop::CommandLine),
    }
}

/// Does what the words of a command line ask for, if they are given. Help or a version that was asked for is written
/// too. The watch is told how far the run is, where the words ask for it. All files are opened before a byte is read:
/// first that of the text, then that of the start, the certificate or the sequence.
pub(crate) fn run_words<
    G: Grammar,
    R: Threads + Wait + Sync,
    I: Inputs,
    S: AsStr + Drop,
    W: Watch,
    K: Sink,
>(means: &Means<R, W>, inputs: &I, words: Result<Vec<S>, Stop>, out: &mut K) -> Result<(), Stop>
    requires { K.has_failed out.old ≡ false }
    ensures { FollowsGiven G.meaning I.Standard.Source I.File.Source (I.names inputs.now) (texts_of S.text words)
        (sink_run K.Sink out.old out.new) result }
{
    let words = words?;
    match G::read(means.alloc, words.as_slice())? {
        Asked::Explain(text) => Ok(explain(text.as_str(), out)?),
        Asked::Run(
            Invocation::Gen {
                jobs,
                machines,
                seed,
            },
        ) => Ok(run_gen(means.alloc, jobs, machines, seed, out)?),
        Asked::Run(
            Invocation::OfBlock {
                file,
                index,
                second,
                request,
            },
        ) => {
            let mut text = open_text(inputs, file)?;
            let mut given = open_second(inputs, second)?;
            Ok(run_request(means, &mut text, index, &mut given, &request, out)?)
        }
    }
}

/// Writes the text that explains a command line.
fn explain<K: Sink>(text: &str, out: &mut K) -> Result<(), CommandFault>
    requires { K.has_failed out.old ≡ false }
    ensures { Responds (λ answer. answer ≡ Ok text.now) (sink_run K.Sink out.old out.new) result }
{
    put_all(out, text.as_bytes())?;
    Ok(())
}
