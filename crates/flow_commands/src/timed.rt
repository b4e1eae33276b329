//! The sequence that a text gives to `schedule`: a start text, or a certificate.

ghost use Rattle.std.specs.Prelude.{◌≡◌, ◌⊎◌, Ok, Err, IfOk, IfErr};
ghost use Rattle.flow_core.specs.Sequences.{IsSequence};
ghost use Rattle.flow_commands.specs.internal.Devices.{NamesNoDevice};
ghost use Rattle.flow_commands.specs.Schedule.{GivesCertified, GivesTimed};

use crate::files::begins_as_certificate;
use crate::refusals::CommandFault;
use crate::start::sequence_of_start;
use flow_check::{Shown, check_text, kind_of};
use flow_core::{Instance, Sequence};
use std::alloc::Global;

/// A sequence that is to be timed.
#[derive(Drop)]
pub(crate) struct TimedSequence {
    /// The sequence.
    pub(crate) sequence: Sequence,
    /// A lower bound of all makespans, where a certificate proves one.
    pub(crate) lower: Option<u64>,
}

/// The sequence of a certificate, with the lower bound that it proves; or its first fault.
fn certified_sequence(
    alloc: Global,
    instance: &Instance,
    text: &[u8],
) -> Result<TimedSequence, CommandFault>
    ensures value { IfOk result (λ timed. GivesCertified instance.now text.now (Ok timed)) }
    ensures each { IfOk result (λ timed. IsSequence instance.now.jobs timed.sequence) }
    ensures refused { IfErr result (λ fault. (fault ≡ CommandFault.Memory)
        ⊎ GivesCertified instance.now text.now (Err fault)) }
    ensures device { NamesNoDevice result }
{
    let Shown { bounds, sequence } = check_text(alloc, kind_of(text), instance, text)?;
    Ok(TimedSequence {
        sequence,
        lower: Some(bounds.lower),
    })
}

/// The sequence that a text gives: as a certificate, where it begins as one, and else as a start text; or its first
/// fault.
pub(crate) fn timed_sequence(
    alloc: Global,
    instance: &Instance,
    text: &[u8],
) -> Result<TimedSequence, CommandFault>
    ensures value { IfOk result (λ timed. GivesTimed instance.now text.now (Ok timed)) }
    ensures each { IfOk result (λ timed. IsSequence instance.now.jobs timed.sequence) }
    ensures refused { IfErr result (λ fault. (fault ≡ CommandFault.Memory)
        ⊎ GivesTimed instance.now text.now (Err fault)) }
    ensures device { NamesNoDevice result }
{
    if begins_as_certificate(text) {
        return certified_sequence(alloc, instance, text);
    }
    Ok(TimedSequence {
        sequence: sequence_of_start(alloc, instance, text)?,
        lower: None,
    })
}
