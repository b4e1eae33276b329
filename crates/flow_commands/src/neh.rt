//! The command `neh`.

ghost use Rattle.std.specs.Prelude.{◌≡◌, false, IfOk, Ok};
ghost use Rattle.flow_commands.specs.Output.{OfShop};
ghost use Rattle.flow_commands.specs.Neh.{AnswersNeh};
ghost use Rattle.flow_commands.specs.Runs.{Ran, run_alone, sink_run, source_run};

use crate::block::PickedBlock;
use crate::command::{Command, run};
use crate::files::FileKind;
use crate::printed::sequence_lines;
use crate::refusals::CommandFault;
use flow_bound::neh;
use flow_core::{Instance, MemorySource, Sink, Source, put_all};
use flow_requests::SecondFile;
use std::alloc::{AllocError, Global};

/// Answers the starting sequence and its makespan.
#[derive(Drop)]
pub(crate) struct Neh;

/// The lines of the starting sequence and its makespan.
fn starting_lines(alloc: Global, instance: &Instance) -> Result<Vec<u8>, AllocError>
    ensures { IfOk result (λ lines. AnswersNeh instance.now (Ok lines.items)) }
{
    let (sequence, value) = neh(alloc, instance)?;
    sequence_lines(alloc, sequence.jobs(), value)
}

impl Command for Neh {
    ghost is_ready = { λ _. Unit {0} };

    ghost answers = { λ _. OfShop AnswersNeh };

    fn respond<K: Sink>(
        &self,
        alloc: Global,
        picked: PickedBlock,
        _second: SecondFile<Vec<u8>>,
        out: &mut K,
    ) -> Result<(), CommandFault> {
        let text = starting_lines(alloc, &picked.block.instance)?;
        put_all(out, text.as_slice())?;
        Ok(())
    }
}

/// Writes the starting sequence of the block that an index names, and its makespan.
pub fn run_neh<S: Source, K: Sink>(
    alloc: Global,
    file: &mut S,
    index: u32,
    out: &mut K,
) -> Result<(), CommandFault>
    requires file_works { S.has_failed file.old ≡ false }
    requires out_works { K.has_failed out.old ≡ false }
    ensures { Ran FileKind.Text (OfShop AnswersNeh) index
        (run_alone (source_run S.Source file.old file.new) (sink_run K.Sink out.old out.new)) result }
{
    run(
        alloc,
        file,
        index,
        &mut SecondFile::<MemorySource>::Absent,
        &Neh,
        out,
    )
}
