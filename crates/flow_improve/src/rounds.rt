//! Rounds of iterated greedy search, each from the best list of late.

ghost use Rattle.std.specs.Prelude.{◌≡◌, ◌≤◌, nat_le, length, IfOk};
ghost use Rattle.flow_bound.specs.Taillard.{taillard_bound};
ghost use Rattle.flow_shop.specs.Paths.{span};
ghost use Rattle.flow_shop.specs.Sequences.{IsSequence};
ghost use Rattle.flow_improve.specs.internal.Rooms.{IsKnown, IsRunOf};

use crate::deadline::Deadline;
use crate::effort::RunLimits;
use crate::reached::Reached;
use crate::round::Rounds;
use flow_bound::taillard_bound;
use flow_generator::Taillard;
use flow_shop::{Instance, Sequence, makespan};
use std::alloc::{AllocError, Global};

/// A sequence of an instance, and its makespan.
#[derive(Drop)]
struct Known {
    jobs: Vec<u16>,
    makespan: u64,
}

impl Known {
    /// A sequence of the instance.
    fn new(alloc: Global, instance: &Instance, sequence: &Sequence) -> Result<Known, AllocError>
        requires { length sequence.now ≡ instance.now.jobs }
        ensures known { IfOk result (IsKnown instance.now) }
        ensures makespan { IfOk result (λ known. known.makespan ≡ span instance.now sequence.now) }
    {
        Ok(Known {
            jobs: Vec::from_slice(alloc, sequence.jobs())?,
            makespan: makespan(instance, sequence),
        })
    }

    /// Becomes the same as another.
    fn copy_from(&mut self, instance: &Instance, other: &Known)
        requires here { IsKnown instance.now self.old }
        requires other { IsKnown instance.now other.now }
        ensures known { IsKnown instance.now self.new }
        ensures makespan { self.new.makespan ≡ other.now.makespan }
    {
        self.jobs
            .as_mut_slice()
            .copy_from_slice(other.jobs.as_slice());
        self.makespan = other.makespan;
    }
}

/// Rounds one after the other: the best list, the current one, and the one that a round changes.
#[derive(Drop)]
struct RoundsRun {
    search: Rounds,
    best: Known,
    current: Known,
    tried: Known,
}

impl RoundsRun {
    /// A run from a sequence, with these random numbers.
    fn new(
        alloc: Global,
        instance: &Instance,
        start: &Sequence,
        draws: Taillard,
    ) -> Result<RoundsRun, AllocError>
        requires { length start.now ≡ instance.now.jobs }
        ensures run { IfOk result (IsRunOf instance.now) }
        ensures best { IfOk result (λ run. run.best.makespan ≡ span instance.now start.now) }
    {
        Ok(RoundsRun {
            search: Rounds::new(alloc, instance, draws)?,
            best: Known::new(alloc, instance, start)?,
            current: Known::new(alloc, instance, start)?,
            tried: Known::new(alloc, instance, start)?,
        })
    }

    /// Makes a round from the current list. The new list becomes the current one where it is no worse, and the best one
    /// where it is better.
    fn go_on(&mut self, instance: &Instance)
        requires { IsRunOf instance.now self.old }
        ensures run { IsRunOf instance.now self.new }
        ensures best { self.new.best.makespan ≤ self.old.best.makespan }
    {
        self.tried.copy_from(instance, &self.current);
        self.tried.makespan = self.search.round(instance, self.tried.jobs.as_mut_slice());
        if self.tried.makespan <= self.current.makespan {
            self.current.copy_from(instance, &self.tried);
        }
        if self.tried.makespan < self.best.makespan {
            self.best.copy_from(instance, &self.tried);
        }
    }
}

/// The best sequence of rounds from a start, and its makespan, which is at most that of the start. The rounds also end
/// where one has Taillard's lower bound, and where the time is over.
pub fn rounds_from<D: Deadline>(
    alloc: Global,
    instance: &Instance,
    start: &Sequence,
    limits: &RunLimits,
    deadline: &D,
) -> Result<Reached, AllocError>
    requires { length start.now ≡ instance.now.jobs }
    ensures each { IfOk result (λ reached. IsSequence instance.now.jobs reached.sequence) }
    ensures value { IfOk result (λ reached. reached.value ≡ span instance.now reached.sequence) }
    ensures least { IfOk result (λ reached. reached.value ≤ span instance.now start.now) }
    ensures whole { IfOk result (λ reached. reached.whole ≡ nat_le reached.value (taillard_bound instance.now)) }
{
    let least = taillard_bound(instance);
    let mut run = RoundsRun::new(alloc, instance, start, limits.draws())?;
    for _ in 0..limits.rounds() {
        if run.best.makespan <= least || run.search.steps() >= limits.work() || deadline.is_over() {
            break;
        }
        run.go_on(instance);
    }
    Ok(Reached {
        sequence: Sequence::of_known(alloc, run.best.jobs.as_slice())?,
        value: run.best.makespan,
        whole: run.best.makespan <= least,
    })
}
