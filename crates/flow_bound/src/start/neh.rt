//! The starting sequence of Nawaz, Enscore and Ham.

ghost use Rattle.std.specs.Prelude.{◌≡◌, IfOk};
ghost use Rattle.flow_shop.specs.Paths.{span};
ghost use Rattle.flow_shop.specs.Sequences.{IsSequence};
ghost use Rattle.flow_bound.specs.Neh.{IsNeh};

use crate::start::insertion_room::InsertionRoom;
use crate::start::job_order::by_total;
use flow_shop::{Instance, Sequence};
use std::alloc::{AllocError, Global};

/// The starting sequence and its makespan: jobs by decreasing total time, each put in at the earliest best place. Of
/// jobs with equal totals the lower number comes first (`by_total`); of places with equal makespans the earliest is
/// taken (`InsertionRoom::best_place`).
pub fn neh(alloc: Global, instance: &Instance) -> Result<(Sequence, u64), AllocError>
    ensures start { IfOk result (λ start. IsNeh instance.now start.0) }
    ensures value { IfOk result (λ start. start.1 ≡ span instance.now start.0) }
    ensures each { IfOk result (λ start. IsSequence instance.now.jobs start.0) }
{
    let order = by_total(alloc, instance)?;
    let mut room = InsertionRoom::new(alloc, instance)?;
    let mut jobs = Vec::with_capacity(alloc, order.len())?;
    let mut makespan = 0;
    for job in order.as_slice() {
        let best = room.best_place(instance, jobs.as_slice(), *job);
        jobs.insert(best.index, *job)?;
        makespan = best.makespan;
    }
    let sequence = Sequence::of_known(alloc, jobs.as_slice())?;
    Ok((sequence, makespan))
}
