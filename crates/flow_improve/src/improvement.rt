//! A better sequence than a given one: by a beam, and then by rounds from the start and from the best of the beam.

ghost use Rattle.std.specs.Prelude.{◌≡◌, ◌≤◌, true, nat_le, ◌||◌, length, IfOk};
ghost use Rattle.flow_bound.specs.Taillard.{taillard_bound};
ghost use Rattle.flow_shop.specs.Paths.{span};
ghost use Rattle.flow_shop.specs.Sequences.{IsSequence};

use crate::deadline::{Deadline, Never};
use crate::effort::Effort;
use crate::reached::Reached;
use crate::rounds::rounds_from;
use crate::two_ended::{BeamLimits, beam_until};
use flow_bound::taillard_bound;
use flow_shop::{Instance, Sequence, makespan};
use std::alloc::{AllocError, Global};

/// The better sequence of two runs of rounds, one from the start and one from the best of a beam, and on a tie that of
/// the second. No round is made where the beam is whole, after a sequence that has Taillard's lower bound, or where the
/// time is over.
pub fn rounds_of_both<D: Deadline>(
    alloc: Global,
    instance: &Instance,
    start: &Sequence,
    beamed: &Reached,
    effort: &Effort,
    deadline: &D,
) -> Result<Reached, AllocError>
    requires start { length start.now ≡ instance.now.jobs }
    requires beamed { length beamed.now.sequence ≡ instance.now.jobs }
    ensures each { IfOk result (λ reached. IsSequence instance.now.jobs reached.sequence) }
    ensures value { IfOk result (λ reached. reached.value ≡ span instance.now reached.sequence) }
    ensures least { IfOk result (λ reached. reached.value ≤ span instance.now start.now) }
    ensures beamed { IfOk result (λ reached. reached.value ≤ span instance.now beamed.now.sequence) }
    ensures whole { IfOk result
        (λ reached. reached.whole ≡ (nat_le reached.value (taillard_bound instance.now) || beamed.now.whole)) }
{
    let is_done = beamed.whole || makespan(instance, &beamed.sequence) <= taillard_bound(instance);
    // Rounds from the same sequence would be the first ones of those from the best of the beam.
    let limits = effort
        .from_start()
        .none_if(is_done || beamed.sequence == *start);
    let from_start = rounds_from(alloc, instance, start, &limits, deadline)?;
    let limits = effort.from_beam().none_if(is_done || from_start.whole);
    let from_beam = rounds_from(alloc, instance, &beamed.sequence, &limits, deadline)?;
    let mut reached = from_beam.or_better(from_start);
    reached.whole = reached.whole || beamed.whole;
    Ok(reached)
}

/// A sequence and its makespan, which is at most that of the start. They are those of a two-ended beam search, and then
/// of rounds of iterated greedy search from the start and from the best of the beam. Both end where the time is over.
pub fn improve_until<D: Deadline>(
    alloc: Global,
    instance: &Instance,
    start: &Sequence,
    effort: &Effort,
    deadline: &D,
) -> Result<Reached, AllocError>
    requires { length start.now ≡ instance.now.jobs }
    ensures each { IfOk result (λ reached. IsSequence instance.now.jobs reached.sequence) }
    ensures value { IfOk result (λ reached. reached.value ≡ span instance.now reached.sequence) }
    ensures least { IfOk result (λ reached. reached.value ≤ span instance.now start.now) }
    ensures whole { IfOk result (λ reached. reached.value ≤ taillard_bound instance.now → reached.whole ≡ true) }
{
    let limits = BeamLimits {
        below: None,
        width: effort.width(),
        work: effort.beam_work(),
    };
    let beamed = beam_until(alloc, instance, start, limits, deadline)?;
    rounds_of_both(alloc, instance, start, &beamed, effort, deadline)
}

/// The same with no end of time.
pub fn improve(
    alloc: Global,
    instance: &Instance,
    start: &Sequence,
    effort: &Effort,
) -> Result<Reached, AllocError>
    requires { length start.now ≡ instance.now.jobs }
    ensures each { IfOk result (λ reached. IsSequence instance.now.jobs reached.sequence) }
    ensures value { IfOk result (λ reached. reached.value ≡ span instance.now reached.sequence) }
    ensures least { IfOk result (λ reached. reached.value ≤ span instance.now start.now) }
    ensures whole { IfOk result (λ reached. reached.value ≤ taillard_bound instance.now → reached.whole ≡ true) }
{
    improve_until(alloc, instance, start, effort, &Never)
}
