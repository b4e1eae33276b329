//! What all commands have in common: they read a text and pick a block, read a second file where there is one, and
//! write an answer. This is proved here once, for all of them.

ghost use Rattle.std.specs.Prelude.{◌≡◌, false, is_some};
ghost use Rattle.std.specs.Option.{ForSome};
ghost use Rattle.flow_requests.specs.SecondFile.{file_in};
ghost use Rattle.flow_commands.specs.Files.{kind_of};
ghost use Rattle.flow_commands.specs.Runs.{Ran, run_of, second_run, sink_run, source_run};

use crate::block::{PickedBlock, block_at};
use crate::files::{FileKind, read_file, read_second};
use crate::refusals::CommandFault;
use flow_core::{Sink, Source};
use flow_requests::SecondFile;
use std::alloc::Global;

/// What a command does once its files have come.
pub(crate) trait Command {
    ghost use Rattle.std.specs.Prelude.{◌≡◌, ℕ, List, Option, false};
    ghost use Rattle.flow_requests.specs.SecondFile.{file_in};
    ghost use Rattle.flow_commands.specs.Output.{Output};
    ghost use Rattle.flow_commands.specs.Runs.{Responds, sink_run};
    ghost use Rattle.flow_commands.specs.Block.{Origin};
    ghost use Rattle.flow_commands.specs.internal.Picked.{origin_of};
    ghost use Rattle.flow_commands.specs.internal.Reading.{bytes_of};

    // What has to hold where it responds.
    ghost is_ready: { Self → Type 0 };

    // What it may answer for a block, and for the bytes of a second file where there is one.
    ghost answers: { Self → Origin → Option (List ℕ) → Output → Type 0 };

    /// Writes its answer for a block and the bytes of the second file.
    fn respond<K: Sink>(
        &self,
        alloc: Global,
        picked: PickedBlock,
        second: SecondFile<Vec<u8>>,
        out: &mut K,
    ) -> Result<(), CommandFault>
        requires ready { is_ready self.now }
        requires out_works { K.has_failed out.old ≡ false }
        ensures { Responds (answers self.now (origin_of picked) (bytes_of (file_in second)))
            (sink_run K.Sink out.old out.new) result };
}

/// Runs a command for the block of a text that an index names, and for a second file. It keeps a frame of its own: one
/// frame for all commands would not fit on the stack of a small thread.
#[inline(never)]
pub(crate) fn run<S: Source, T: Source, C: Command, K: Sink>(
    alloc: Global,
    file: &mut S,
    index: u32,
    second: &mut SecondFile<T>,
    command: &C,
    out: &mut K,
) -> Result<(), CommandFault>
    requires file_works { S.has_failed file.old ≡ false }
    requires second_works { ForSome (file_in second.old) (λ source. T.has_failed source ≡ false) }
    requires ready { C.is_ready command.now }
    requires out_works { K.has_failed out.old ≡ false }
    ensures ran { Ran (kind_of second.old) (C.answers command.now) index
        (run_of (source_run S.Source file.old file.new)
        (second_run T.Source (file_in second.old) (file_in second.new)) (sink_run K.Sink out.old out.new)) result }
    ensures stays { is_some (file_in second.new) ≡ is_some (file_in second.old) }
{
    let text = read_file(alloc, file, FileKind::Text)?;
    let picked = block_at(alloc, text, index)?;
    let bytes = read_second(alloc, second)?;
    command.respond(alloc, picked, bytes, out)
}
