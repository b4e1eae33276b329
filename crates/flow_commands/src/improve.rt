//! The command `improve`.

ghost use Rattle.std.specs.Prelude.{◌≡◌, ◌⊎◌, None, Some, Ok, Err, IfOk, OnOk, IfErr, IfSome};
ghost use Rattle.flow_core.specs.Paths.{span};
ghost use Rattle.flow_core.specs.Sequences.{IsSequence};
ghost use Rattle.flow_commands.specs.internal.Devices.{NamesNoDevice};
ghost use Rattle.flow_commands.specs.Improve.{AnswersImprove, IsImproved, improve_fault};
ghost use Rattle.flow_commands.specs.Start.{FromStart};

use crate::block::PickedBlock;
use crate::command::Command;
use crate::printed::sequence_lines;
use crate::refusals::CommandFault;
use crate::start::{given_start, start_of};
use flow_core::{Instance, Sequence, Sink, put_all};
use flow_improve::{Deadline, Effort, EffortFault, Reached, improve_until};
use flow_requests::{ImproveRequest, SecondFile};
use flow_workers::Watch;
use std::alloc::{AllocError, Global};

/// The effort of a request; or the first fault of its numbers.
pub(crate) fn effort_of(request: ImproveRequest) -> Result<Effort, EffortFault>
    ensures value { IfOk result (λ effort. effort ≡ record {
      width = request.width;
      rounds = request.rounds;
      seed = request.seed;
      work = request.work;
    }) }
    ensures accepted { OnOk result (improve_fault request ≡ None) }
    ensures refused { IfErr result (λ fault. improve_fault request ≡ Some (CommandFault.Improve fault)) }
{
    Effort::new(request.width, request.rounds, request.seed, request.work)
}

/// The time of a run, as its watch knows it.
#[derive(Clone, Copy)]
struct TimeOf<'a, W> {
    watch: &'a W,
}

impl<'a, W: Watch> Deadline for TimeOf<'a, W> {
    fn is_over(&self) -> bool {
        self.watch.is_over()
    }
}

/// A sequence of an instance that is no worse than the one to start from, with its makespan.
fn improved<W: Watch>(
    alloc: Global,
    watch: &W,
    instance: &Instance,
    given: Option<Sequence>,
    effort: &Effort,
) -> Result<Reached, AllocError>
    requires { IfSome given (IsSequence instance.now.jobs) }
    ensures improved { IfOk result (λ better. IsImproved instance.now given better.sequence) }
    ensures value { IfOk result (λ better. better.value ≡ span instance.now better.sequence) }
{
    let start = start_of(alloc, instance, given)?;
    improve_until(alloc, instance, &start, effort, &TimeOf { watch })
}

/// The lines of a sequence that is no worse than the one to start from; or why the numbers of a request are refused.
fn improved_lines<W: Watch>(
    alloc: Global,
    watch: &W,
    instance: &Instance,
    given: Option<Sequence>,
    request: ImproveRequest,
) -> Result<Vec<u8>, CommandFault>
    requires { IfSome given (IsSequence instance.now.jobs) }
    ensures text { IfOk result (λ text. AnswersImprove request instance.now given (Ok text.items)) }
    ensures refused { IfErr result (λ fault. (fault ≡ CommandFault.Memory)
        ⊎ AnswersImprove request instance.now given (Err fault)) }
    ensures device { NamesNoDevice result }
{
    let effort = effort_of(request)?;
    let better = improved(alloc, watch, instance, given, &effort)?;
    Ok(sequence_lines(alloc, better.sequence.jobs(), better.value)?)
}

/// Answers a sequence and its makespan, which is no worse than the one that a start text gives, or, where there is no
/// such text, than that of Nawaz, Enscore and Ham. The watch says when its time is over.
#[derive(Drop)]
pub(crate) struct Improve<'a, W> {
    pub(crate) watch: &'a W,
    pub(crate) request: ImproveRequest,
}

impl<'a, W: Watch> Command for Improve<'a, W> {
    ghost is_ready = { λ _. Unit {0} };

    ghost answers = { λ s. FromStart (AnswersImprove s.request) };

    fn respond<K: Sink>(
        &self,
        alloc: Global,
        picked: PickedBlock,
        second: SecondFile<Vec<u8>>,
        out: &mut K,
    ) -> Result<(), CommandFault> {
        let given = given_start(alloc, &picked.block.instance, second)?;
        let text = improved_lines(
            alloc,
            self.watch,
            &picked.block.instance,
            given,
            self.request,
        )?;
        put_all(out, text.as_slice())?;
        Ok(())
    }
}
