//! The command `span`.

ghost use Rattle.std.specs.Prelude.{◌≡◌, false, Ok, IfOk, IfErr};
ghost use Rattle.flow_core.specs.SequenceFaults.{sequence_fault, but_memory};
ghost use Rattle.flow_commands.specs.Output.{OfShop};
ghost use Rattle.flow_commands.specs.Runs.{Ran, run_alone, sink_run, source_run};
ghost use Rattle.flow_commands.specs.Span.{AnswersSpan, span_answer};

use crate::block::PickedBlock;
use crate::command::{Command, run};
use crate::files::FileKind;
use crate::printed::makespan_line;
use crate::refusals::CommandFault;
use flow_core::{Instance, MemorySource, Sequence, SequenceFault, Sink, Source, makespan, put_all};
use flow_requests::SecondFile;
use std::alloc::Global;

/// Answers the makespan of jobs in this order.
#[derive(Drop)]
pub(crate) struct Span<'a> {
    pub(crate) jobs: &'a [u16],
}

/// The line of the makespan of jobs in this order.
fn span_line(alloc: Global, instance: &Instance, jobs: &[u16]) -> Result<Vec<u8>, SequenceFault>
    ensures line { IfOk result (λ line. span_answer instance.now jobs.now ≡ Ok line.items) }
    ensures refused { IfErr result (λ fault. (sequence_fault instance.now.jobs jobs.now ≡ but_memory fault)) }
{
    let sequence = Sequence::new(alloc, instance, jobs)?;
    Ok(makespan_line(alloc, makespan(instance, &sequence))?)
}

impl<'a> Command for Span<'a> {
    ghost is_ready = { λ _. Unit {0} };

    ghost answers = { λ s. OfShop (AnswersSpan s.jobs.now) };

    fn respond<K: Sink>(
        &self,
        alloc: Global,
        picked: PickedBlock,
        _second: SecondFile<Vec<u8>>,
        out: &mut K,
    ) -> Result<(), CommandFault> {
        let text = span_line(alloc, &picked.block.instance, self.jobs)?;
        put_all(out, text.as_slice())?;
        Ok(())
    }
}

/// Writes the makespan of a sequence for the block that an index names.
pub fn run_span<S: Source, K: Sink>(
    alloc: Global,
    file: &mut S,
    index: u32,
    jobs: &[u16],
    out: &mut K,
) -> Result<(), CommandFault>
    requires file_works { S.has_failed file.old ≡ false }
    requires out_works { K.has_failed out.old ≡ false }
    ensures { Ran FileKind.Text (OfShop (AnswersSpan jobs.now)) index
        (run_alone (source_run S.Source file.old file.new) (sink_run K.Sink out.old out.new)) result }
{
    let absent = &mut SecondFile::<MemorySource>::Absent;
    run(alloc, file, index, absent, &Span { jobs }, out)
}
