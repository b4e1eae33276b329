//! Sums of times: of each job on all machines, and of a set of jobs on a machine.

ghost use Rattle.std.specs.Prelude.{◌≡◌, ◌≤◌, sum_by};
ghost use Rattle.flow_shop.specs.Shop.{time};
ghost use Rattle.flow_shop.specs.JobSet.{members, IsSetOf};
ghost use Rattle.flow_bound.specs.internal.Times.{AreTimes};

use flow_limits::MAX_JOBS;
use flow_shop::{Instance, JobSet};

/// Each job's total, that of job 1 first.
pub(crate) fn totals_of(instance: &Instance) -> [u32; MAX_JOBS]
    ensures { AreTimes instance.now result 1 instance.now.machines }
{
    let machines = instance.machines();
    let mut totals = [0; MAX_JOBS];
    for job in 1..instance.jobs() + 1 {
        totals[job as usize - 1] = instance.time_between(job, 1, machines);
    }
    totals
}

/// The time of all jobs of a set on a machine.
pub(crate) fn sum_of(instance: &Instance, set: &JobSet, machine: u16) -> u32
    requires from { 1 ≤ machine }
    requires to { machine ≤ instance.now.machines }
    requires jobs { IsSetOf instance.now set.now }
    ensures { result ≡ sum_by (λ job. time instance.now job machine) (members set.now) }
{
    let mut sum = 0;
    for job in 1..instance.jobs() + 1 {
        if set.contains(job) {
            sum += instance.time(job, machine);
        }
    }
    sum
}
