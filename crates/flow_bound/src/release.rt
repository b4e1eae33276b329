//! The released bound of a front.

ghost use Rattle.std.specs.Prelude.{◌≡◌, ℕ, ◌<◌, ◌≤◌, List, length};
ghost use Rattle.flow_shop.specs.Paths.{span};
ghost use Rattle.flow_shop.specs.Front.{IsFrontOf, IsWithinFront};
ghost use Rattle.flow_shop.specs.JobSet.{members, IsSetOf};
ghost use Rattle.flow_shop.specs.Sequences.{jobs_left, IsSequence, Extends};
ghost use Rattle.flow_shop.specs.Bound.{released_bound};

use crate::least::least_between;
use crate::rest::{lags_of, release_from_lags};
use crate::sums::sum_of;
use flow_shop::{Front, Instance, JobSet};

/// The released bound: the release of a machine, its time for the jobs of a set, and the least time that one of them
/// needs behind it. Where the front is that of a list, and the set has the jobs that the list leaves, no sequence that
/// extends the list has a smaller makespan. For callers alone: the search keeps `Loads`, and lags of its own.
pub fn released_bound(instance: &Instance, front: &Front, unscheduled: &JobSet, machine: u16) -> u64
    requires from { 1 ≤ machine }
    requires to { machine ≤ instance.now.machines }
    requires some { 0 < length (members unscheduled.now) }
    requires jobs { IsSetOf instance.now unscheduled.now }
    requires within { IsWithinFront instance.now front.now }
    ensures value { result ≡ released_bound instance.now front.now (members unscheduled.now) machine }
    ensures admissible { (scheduled sequence : List ℕ) → IsFrontOf instance.now scheduled front.now →
        members unscheduled.now ≡ jobs_left instance.now.jobs scheduled → IsSequence instance.now.jobs sequence →
        Extends sequence scheduled → result ≤ span instance.now sequence }
{
    let machines = instance.machines();
    prove!(machine <= machines);
    let lags = lags_of(instance, unscheduled, machine);
    let release = release_from_lags(front, &lags, machine);
    let sum = sum_of(instance, unscheduled, machine);
    let least_tail = least_between(instance, unscheduled, machine + 1, machines, 0);
    release + u64::from(sum) + u64::from(least_tail)
}
