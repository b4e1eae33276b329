//! The machine bound of a front.

ghost use Rattle.std.specs.Prelude.{◌≡◌, ℕ, ◌<◌, ◌≤◌, List, length};
ghost use Rattle.flow_shop.specs.Paths.{span};
ghost use Rattle.flow_shop.specs.Front.{IsFrontOf, IsWithinFront};
ghost use Rattle.flow_shop.specs.JobSet.{members, IsSetOf};
ghost use Rattle.flow_shop.specs.Sequences.{jobs_left, IsSequence, Extends};
ghost use Rattle.flow_shop.specs.Bound.{machine_bound};

use crate::least::least_between;
use crate::sums::sum_of;
use flow_shop::{Front, Instance, JobSet};

/// The machine bound: when a machine is free, its time for the jobs of a set, and the least time that one of them needs
/// behind it. Where the front is that of a list, and the set has the jobs that the list leaves, no sequence that
/// extends the list has a smaller makespan. For callers alone: the search keeps `Loads` of a node, and tests the bounds
/// of its children by code of its own.
pub fn bound(instance: &Instance, front: &Front, unscheduled: &JobSet, machine: u16) -> u64
    requires from { 1 ≤ machine }
    requires to { machine ≤ instance.now.machines }
    requires some { 0 < length (members unscheduled.now) }
    requires jobs { IsSetOf instance.now unscheduled.now }
    requires within { IsWithinFront instance.now front.now }
    ensures value { result ≡ machine_bound instance.now front.now (members unscheduled.now) machine }
    ensures admissible { (scheduled sequence : List ℕ) → IsFrontOf instance.now scheduled front.now →
        members unscheduled.now ≡ jobs_left instance.now.jobs scheduled → IsSequence instance.now.jobs sequence →
        Extends sequence scheduled → result ≤ span instance.now sequence }
{
    let machines = instance.machines();
    prove!(machine <= machines);
    let sum = sum_of(instance, unscheduled, machine);
    let least_tail = least_between(instance, unscheduled, machine + 1, machines, 0);
    front.at(machine) + u64::from(sum) + u64::from(least_tail)
}
