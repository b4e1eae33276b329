//! The writer and the checker of certificates.

ghost use Rattle.std.specs.Prelude.{◌≡◌, length};
ghost use Rattle.flow_search.specs.Plans.{prefixes_of};

use crate::groups::refused_where;
use crate::search::planned;
use flow_cert::{write_certificate, write_two_ended};
use flow_check::{Bounds, CheckFault, check, check_sequence, check_two_ended};
use flow_commands::CommandFault;
use flow_core::{Instance, MemorySink, Sequence};
use flow_pool::SolveFault;
use flow_search::{Plan, Verdict, solve_plain};
use std::alloc::Global;
use test_libraries::{AMPLE, CERTIFICATE_AT_DEPTH_0, TWO_ENDED_12, WEAK_CERTIFICATE};

/// Whether `write_certificate` writes this verdict into a sink in memory. Where it fails, memory ran out, since the
/// sink has room.
fn is_written(alloc: Global, plan: &Plan, verdict: &Verdict) -> Result<bool, CommandFault>
    requires { length verdict.now.trees.items ≡ length (prefixes_of plan.now) }
{
    let mut sink = MemorySink::new(alloc, 1_000);
    if write_certificate(plan, verdict, &mut sink).is_err() {
        return refused_where(sink.bytes().is_empty());
    }
    Ok(sink.bytes() == CERTIFICATE_AT_DEPTH_0.as_slice())
}

/// `write_certificate`.
pub(crate) fn certificate_is_written(
    alloc: Global,
    three: &Instance,
) -> Result<bool, CommandFault> {
    let plan = planned(alloc, three, 1, 0, AMPLE)?;
    match solve_plain(alloc, &plan) {
        Ok(verdict) => is_written(alloc, &plan, &verdict),
        Err(fault) => Err(CommandFault::from(SolveFault::from(fault))),
    }
}

/// `check` of a lawful certificate and of a text that is none.
pub(crate) fn certificates_are_checked(
    alloc: Global,
    three: &Instance,
) -> Result<bool, CommandFault> {
    let value = check(alloc, three, &CERTIFICATE_AT_DEPTH_0)?;
    match check(alloc, three, WEAK_CERTIFICATE) {
        Err(CheckFault::Weak(7)) => Ok(value == 12),
        Err(CheckFault::Memory) => Err(CommandFault::Memory),
        _ => Ok(false),
    }
}

/// `check_sequence` of a lawful certificate.
pub(crate) fn certified_sequence_is_given(
    alloc: Global,
    three: &Instance,
) -> Result<bool, CommandFault> {
    let sequence = check_sequence(alloc, three, &CERTIFICATE_AT_DEPTH_0)?;
    Ok(sequence.jobs() == [3, 1, 2].as_slice())
}

/// `write_two_ended`.
pub(crate) fn two_ended_text_is_written(
    alloc: Global,
    three: &Instance,
) -> Result<bool, CommandFault> {
    let sequence = Sequence::new(alloc, three, &[3, 1, 2])?;
    let bounds = Bounds {
        lower: 12,
        upper: 12,
    };
    let mut sink = MemorySink::new(alloc, 1_000);
    if write_two_ended(three, bounds, &sequence, b"++", &mut sink).is_err() {
        return refused_where(sink.bytes().is_empty());
    }
    Ok(sink.bytes() == TWO_ENDED_12)
}

/// `check_two_ended` of a lawful text.
pub(crate) fn two_ended_text_is_checked(
    alloc: Global,
    three: &Instance,
) -> Result<bool, CommandFault> {
    let shown = check_two_ended(alloc, three, TWO_ENDED_12)?;
    Ok(shown.bounds.lower == 12 && shown.sequence.jobs() == [3, 1, 2].as_slice())
}
