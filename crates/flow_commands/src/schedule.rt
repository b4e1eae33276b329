//! The command `schedule`.

ghost use Rattle.std.specs.Prelude.{◌≡◌, ◌⊎◌, length, Ok, Err, IfOk, IfErr};
ghost use Rattle.flow_commands.specs.Output.{OfBytes};
ghost use Rattle.flow_commands.specs.internal.Devices.{NamesNoDevice};
ghost use Rattle.flow_commands.specs.Schedule.{AnswersSchedule, IsSchedule};

use crate::block::PickedBlock;
use crate::command::Command;
use crate::files::bytes_in;
use crate::refusals::CommandFault;
use crate::timed::{TimedSequence, timed_sequence};
use flow_core::{Instance, Sink, put_all};
use flow_requests::{ScheduleForm, SecondFile};
use flow_schedule::{timetable_csv, timetable_picture};
use std::alloc::{AllocError, Global};

/// The schedule of a sequence in a form.
fn schedule_text(
    alloc: Global,
    instance: &Instance,
    timed: &TimedSequence,
    form: ScheduleForm,
) -> Result<Vec<u8>, AllocError>
    requires { length timed.now.sequence ≡ instance.now.jobs }
    ensures { IfOk result (λ text. IsSchedule form instance.now timed.now text.items) }
{
    match form {
        ScheduleForm::Csv => timetable_csv(alloc, instance, &timed.sequence),
        ScheduleForm::Svg => timetable_picture(alloc, instance, &timed.sequence, timed.lower),
    }
}

/// The schedule of the sequence that a text gives for an instance; or the fault that it gives.
fn scheduled_text(
    alloc: Global,
    instance: &Instance,
    text: &[u8],
    form: ScheduleForm,
) -> Result<Vec<u8>, CommandFault>
    ensures text { IfOk result (λ schedule. AnswersSchedule form instance.now text.now (Ok schedule.items)) }
    ensures refused { IfErr result (λ fault. (fault ≡ CommandFault.Memory)
        ⊎ AnswersSchedule form instance.now text.now (Err fault)) }
    ensures device { NamesNoDevice result }
{
    let timed = timed_sequence(alloc, instance, text)?;
    Ok(schedule_text(alloc, instance, &timed, form)?)
}

/// Answers the schedule of a sequence in a form. A start text gives the sequence; or a certificate, two-ended or not,
/// that proves a lower bound too.
#[derive(Drop)]
pub(crate) struct Schedule {
    pub(crate) form: ScheduleForm,
}

impl Command for Schedule {
    ghost is_ready = { λ _. Unit {0} };

    ghost answers = { λ s. OfBytes (λ origin. AnswersSchedule s.form origin.block.instance) };

    fn respond<K: Sink>(
        &self,
        alloc: Global,
        picked: PickedBlock,
        second: SecondFile<Vec<u8>>,
        out: &mut K,
    ) -> Result<(), CommandFault> {
        let given = bytes_in(&second);
        let text = scheduled_text(alloc, &picked.block.instance, given, self.form)?;
        put_all(out, text.as_slice())?;
        Ok(())
    }
}
