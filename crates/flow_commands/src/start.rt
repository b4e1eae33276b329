//! The starting sequence that a start text gives.

ghost use Rattle.std.specs.Prelude.{◌≡◌, ◌⊎◌, Ok, Err, IfOk, IfErr, IfSome};
ghost use Rattle.flow_requests.specs.SecondFile.{file_in};
ghost use Rattle.flow_core.specs.Sequences.{IsSequence};
ghost use Rattle.flow_commands.specs.internal.Devices.{NamesNoDevice};
ghost use Rattle.flow_commands.specs.Start.{GivesStart, StartsFrom};
ghost use Rattle.flow_commands.specs.internal.Given.{GivesSequence, RefusesStart};
ghost use Rattle.flow_commands.specs.internal.Reading.{bytes_of};

use crate::refusals::CommandFault;
use flow_bound::neh;
use flow_core::{Instance, Sequence, StartFault, makespan, read_start};
use flow_requests::SecondFile;
use std::alloc::{AllocError, Global};

/// The sequence that a start text gives for an instance; or the first fault of the text, of its jobs, or of its
/// makespan.
pub(crate) fn sequence_of_start(
    alloc: Global,
    instance: &Instance,
    text: &[u8],
) -> Result<Sequence, CommandFault>
    ensures value { IfOk result (λ sequence. GivesStart instance.now text.now (Ok sequence)) }
    ensures each { IfOk result (λ sequence. IsSequence instance.now.jobs sequence) }
    ensures refused { IfErr result (λ fault. (fault ≡ CommandFault.Memory)
        ⊎ GivesStart instance.now text.now (Err fault)) }
    ensures device { NamesNoDevice result }
{
    let start = read_start(alloc, text)?;
    let sequence = Sequence::new(alloc, instance, start.jobs.as_slice())?;
    if let Some(claim) = start.claim {
        if u64::from(claim.makespan) != makespan(instance, &sequence) {
            return Err(CommandFault::Start(StartFault::Line(claim.line)));
        }
    }
    Ok(sequence)
}

/// The sequence that a start text gives for an instance; none where it is absent.
pub(crate) fn given_start(
    alloc: Global,
    instance: &Instance,
    start: SecondFile<Vec<u8>>,
) -> Result<Option<Sequence>, CommandFault>
    ensures given { IfOk result (GivesSequence instance.now (bytes_of (file_in start))) }
    ensures each { IfOk result (λ given. IfSome given (IsSequence instance.now.jobs)) }
    ensures refused { IfErr result (λ fault. (fault ≡ CommandFault.Memory)
        ⊎ RefusesStart instance.now (bytes_of (file_in start)) fault) }
    ensures device { NamesNoDevice result }
{
    match start.file() {
        Some(text) => Ok(Some(sequence_of_start(alloc, instance, text.as_slice())?)),
        None => Ok(None),
    }
}

/// The sequence to start from: the one that was given, or, where none was, that of Nawaz, Enscore and Ham.
pub(crate) fn start_of(
    alloc: Global,
    instance: &Instance,
    given: Option<Sequence>,
) -> Result<Sequence, AllocError>
    requires { IfSome given (IsSequence instance.now.jobs) }
    ensures start { IfOk result (StartsFrom instance.now given) }
    ensures each { IfOk result (IsSequence instance.now.jobs) }
{
    match given {
        Some(sequence) => Ok(sequence),
        None => Ok(neh(alloc, instance)?.0),
    }
}
