//! Plans, outcomes, verdicts, directions and bounds.

use flow_certify::{Certified, MostDirections, Proof, ProofLimits, certify};
use flow_commands::CommandFault;
use flow_core::{Instance, Sequence};
use flow_directions::{Alone, Found, ProveFault, prove};
use flow_improve::Effort;
use flow_pool::SolveFault;
use flow_search::{
    Options, Outcome, Plan, RunFault, Verdict, answer, conclude, prepare, prepare_from, solve_plain,
};
use std::alloc::Global;
use test_libraries::{AMPLE, TIGHT, TREES_AT_DEPTH_1, all_outcomes, is_verdict};

/// A plan with so many workers, at a depth, within a budget.
pub(crate) fn planned<'a>(
    alloc: Global,
    instance: &'a Instance,
    workers: u32,
    depth: u32,
    budget: u32,
) -> Result<Plan<'a>, CommandFault> {
    let options = Options::new(workers, depth, budget)?;
    Ok(prepare(alloc, instance, options)?)
}

/// Whether a verdict is that of the instance with three machines, at depth 1.
pub(crate) fn is_worked(verdict: &Verdict) -> bool {
    is_verdict(verdict, 12, &[3, 1, 2], &TREES_AT_DEPTH_1)
}

/// Whether an outcome is that of the prefix of this number. One that has no memory is a refusal.
fn is_outcome(outcome: &Outcome, number: usize) -> Result<bool, CommandFault> {
    match outcome {
        Outcome::Done { best: _, tree } => {
            Ok(TREES_AT_DEPTH_1.get(number).copied() == Some(tree.as_slice()))
        }
        Outcome::NoMemory => Err(CommandFault::Memory),
        _ => Ok(false),
    }
}

/// `prepare` and `answer`.
pub(crate) fn prefixes_are_answered(alloc: Global, three: &Instance) -> Result<bool, CommandFault> {
    let plan = planned(alloc, three, 1, 1, AMPLE)?;
    let mut right = plan.prefixes() == 3 && plan.start_value() == 13;
    for number in 0..plan.prefixes() {
        right = is_outcome(&answer(alloc, &plan, number), number as usize)? && right;
    }
    Ok(right)
}

/// `prepare_from`.
pub(crate) fn plan_starts_as_given(alloc: Global, three: &Instance) -> Result<bool, CommandFault> {
    let options = Options::new(1, 1, AMPLE)?;
    let start = Sequence::new(alloc, three, &[3, 1, 2])?;
    let plan = prepare_from(alloc, three, start, options)?;
    Ok(plan.start().jobs() == [3, 1, 2].as_slice() && plan.start_value() == 12)
}

/// Whether a run on one thread ended with the worked verdict.
fn ends_worked(solved: &Result<Verdict, RunFault>) -> Result<bool, CommandFault> {
    match solved {
        Ok(verdict) => Ok(is_worked(verdict)),
        Err(fault) => Err(CommandFault::from(SolveFault::from(*fault))),
    }
}

/// `conclude`.
pub(crate) fn outcomes_are_concluded(
    alloc: Global,
    three: &Instance,
) -> Result<bool, CommandFault> {
    let plan = planned(alloc, three, 1, 1, AMPLE)?;
    ends_worked(&conclude(alloc, &plan, all_outcomes(alloc, &plan)?))
}

/// Whether `solve_plain` ends with the worked verdict.
fn is_solved(alloc: Global, three: &Instance) -> Result<bool, CommandFault> {
    let plan = planned(alloc, three, 1, 1, AMPLE)?;
    ends_worked(&solve_plain(alloc, &plan))
}

/// Whether `solve_plain` ends beyond the budget.
fn is_over(alloc: Global, three: &Instance) -> Result<bool, CommandFault> {
    let plan = planned(alloc, three, 1, 1, TIGHT)?;
    match solve_plain(alloc, &plan) {
        Err(RunFault::OverBudget(2)) => Ok(true),
        Err(RunFault::Memory) => Err(CommandFault::Memory),
        _ => Ok(false),
    }
}

/// `solve_plain`, within a budget and beyond one.
pub(crate) fn plan_is_solved(alloc: Global, three: &Instance) -> Result<bool, CommandFault> {
    Ok(is_solved(alloc, three)? && is_over(alloc, three)?)
}

/// Whether a search ended with this lower bound, by these directions or their number, and with the best sequence of the
/// instance with three machines.
fn is_certified(found: &Certified, lower: u64, directions: &[u8]) -> bool {
    let is_best = found.upper == 12 && found.sequence.jobs() == [3, 1, 2].as_slice();
    let is_kept = match &found.proof {
        Proof::Signs(signs) => signs.as_slice() == directions,
        Proof::Count(count) => *count == directions.len() as u64,
    };
    is_best && found.lower == lower && is_kept
}

/// What `certify` comes to from a start, with no beam and no round, and at most so many directions.
fn certified(
    alloc: Global,
    three: &Instance,
    start: &[u16],
    most: u64,
    keeps_signs: bool,
) -> Result<Certified, CommandFault> {
    let effort = Effort::new(0, 0, 1, 0)?;
    let start = Sequence::new(alloc, three, start)?;
    let most = MostDirections::new(most).ok_or(CommandFault::Directions)?;
    let limits = ProofLimits { most, keeps_signs };
    Ok(certify(alloc, &Alone, three, &start, &effort, limits)?)
}

/// `certify` of the instance with three machines. The least makespan is proved from a sequence of makespan 13, by signs
/// and by a count; with one direction the bounds are 10, by no direction, and 12, by a sequence with that makespan.
pub(crate) fn bounds_are_found(alloc: Global, three: &Instance) -> Result<bool, CommandFault> {
    let signed = certified(alloc, three, &[2, 1, 3], 100, true)?;
    let counted = certified(alloc, three, &[2, 1, 3], 100, false)?;
    let bounds = certified(alloc, three, &[3, 1, 2], 1, true)?;
    let is_proved = is_certified(&signed, 12, b"++") && is_certified(&counted, 12, b"++");
    Ok(is_proved && is_certified(&bounds, 10, b""))
}

/// What `prove` finds for a number, of the instance with three machines.
fn found_for(alloc: Global, three: &Instance, number: u64) -> Result<Found, CommandFault> {
    match prove(alloc, three, &[], &[], number, 9) {
        Ok(found) => Ok(found),
        Err(ProveFault::Memory) => Err(CommandFault::Memory),
        Err(ProveFault::Jobs) => Ok(Found::Over),
    }
}

/// `prove` of directions, and of a sequence below the threshold.
pub(crate) fn directions_are_found(alloc: Global, three: &Instance) -> Result<bool, CommandFault> {
    let proved = found_for(alloc, three, 12)?;
    let below = found_for(alloc, three, 13)?;
    let is_proved = match &proved {
        Found::Proved(text) => text.as_slice() == b"++".as_slice(),
        _ => false,
    };
    Ok(is_proved && matches!(below, Found::Below { makespan: 12, .. }))
}
