//! The remaining work of each machine, where the jobs of a set are left.

ghost use Rattle.std.specs.Prelude.{◌≡◌, ℕ, ◌+◌, ◌-◌, ◌*◌, ◌<◌, ◌≤◌, min, List, true, false};
ghost use Rattle.std.specs.Prelude.{length, slice_index, slice_set};
ghost use Rattle.flow_limits.specs.Limits.{most_jobs, most_machines, greatest_time, greatest_completion};
ghost use Rattle.flow_shop.specs.Shop.{Shop, AreOf, time, time_between};
ghost use Rattle.flow_shop.specs.Paths.{span};
ghost use Rattle.flow_shop.specs.Front.{IsFrontOf};
ghost use Rattle.flow_shop.specs.JobSet.{contains, members, IsSetOf};
ghost use Rattle.flow_shop.specs.Sequences.{jobs_left, IsSequence, Extends};
ghost use Rattle.flow_shop.specs.Bound.{machine_bound};
ghost use Rattle.flow_bound.specs.Loads.{AreLoadsOf};

use crate::least::least_after;
use flow_limits::MAX_MACHINES;
use flow_shop::{Front, Instance, JobSet};
use std::marker::Model;

/// The remaining work of each machine of an instance, where the jobs of a set are left. It stores no set.
#[derive(Clone, Copy, Debug)]
pub struct Loads {
    /// The number of machines.
    machines: u16,
    /// For each machine, the time of all jobs of the set on it.
    sums: [u32; MAX_MACHINES],
    /// For each machine, the least tail of a job of the set: its time on all later machines.
    tails: [u32; MAX_MACHINES],
}

impl Model for Loads {
    ghost use Rattle.std.specs.Prelude.{◌≤◌};
    ghost use Rattle.flow_limits.specs.Limits.{most_machines};
    ghost use Rattle.flow_bound.specs.Loads.{Remaining};

    ghost Value = { Remaining };

    ghost view = { λ r. record { machines = r.machines; sums = r.sums; tails = r.tails } };

    ghost inverse = { λ o. record { machines = o.machines; sums = o.sums; tails = o.tails } };

    ghost invariant = { λ r. r.machines ≤ most_machines };
}

/// Takes a job into the sums and the least tails.
fn take_in(
    instance: &Instance,
    job: u16,
    sums: &mut [u32; MAX_MACHINES],
    tails: &mut [u32; MAX_MACHINES],
)
    requires job_from { 1 ≤ job }
    requires job_to { job ≤ instance.now.jobs }
    requires small { (machine : ℕ) → 1 ≤ machine → machine ≤ instance.now.machines →
        slice_index sums.old (machine - 1) ≤ most_jobs * greatest_time }
    ensures sums { AreOf instance.now
        (λ machine. slice_index sums.old (machine - 1) + time instance.now job machine) sums.new }
    ensures tails { AreOf instance.now (λ machine. min (slice_index tails.old (machine - 1))
        (time_between instance.now job (machine + 1) instance.now.machines)) tails.new }
{
    let mut behind = 0;
    let mut machine = instance.machines();
    while machine > 0 {
        let place = machine as usize - 1;
        let time = instance.time(job, machine);
        sums[place] += time;
        tails[place] = tails[place].min(behind);
        behind += time;
        machine -= 1;
    }
}

impl Loads {
    /// The loads of a set of jobs.
    pub fn of(instance: &Instance, set: &JobSet) -> Loads
        requires some { 0 < length (members set.now) }
        requires jobs { IsSetOf instance.now set.now }
        ensures loads { AreLoadsOf instance.now (members set.now) result }
    {
        let mut sums = [0; MAX_MACHINES];
        let mut tails = [u32::MAX; MAX_MACHINES];
        for job in 1..instance.jobs() + 1 {
            if set.contains(job) {
                take_in(instance, job, &mut sums, &mut tails);
            }
        }
        Loads {
            machines: instance.machines(),
            sums,
            tails,
        }
    }

    /// The loads after `job` is taken out; `after` is the set without it. It looks for a new least tail only where
    /// `job` has the least.
    pub fn step(&self, instance: &Instance, after: &JobSet, job: u16) -> Loads
        requires job_from { 1 ≤ job }
        requires job_to { job ≤ instance.now.jobs }
        requires out { contains after.now job ≡ false }
        requires some { 0 < length (members after.now) }
        requires jobs { IsSetOf instance.now after.now }
        requires loads { AreLoadsOf instance.now (members (slice_set after.now (job - 1) true)) self.now }
        ensures loads { AreLoadsOf instance.now (members after.now) result }
    {
        let machines = instance.machines();
        prove!(!after.contains(job));
        let mut sums = self.sums;
        let mut tails = self.tails;
        let mut behind = 0;
        let mut machine = machines;
        while machine > 0 {
            let place = machine as usize - 1;
            let time = instance.time(job, machine);
            sums[place] = self.sums[place] - time;
            tails[place] = least_after(
                instance,
                after,
                machine + 1,
                machines,
                behind,
                self.tails[place],
            );
            behind += time;
            machine -= 1;
        }
        Loads {
            machines,
            sums,
            tails,
        }
    }

    /// The number of machines.
    pub fn machines(&self) -> u16
        ensures value { result ≡ self.now.machines }
        ensures limit { result ≤ most_machines }
    {
        self.machines
    }

    /// The time of all jobs of the set on a machine.
    pub fn sum(&self, machine: u16) -> u32
        requires from { 1 ≤ machine }
        requires to { machine ≤ self.now.machines }
        ensures { result ≡ slice_index self.now.sums (machine - 1) }
    {
        self.sums[machine as usize - 1]
    }

    /// The least tail of a job of the set behind a machine: its time on all later machines.
    pub fn tail(&self, machine: u16) -> u32
        requires from { 1 ≤ machine }
        requires to { machine ≤ self.now.machines }
        ensures { result ≡ slice_index self.now.tails (machine - 1) }
    {
        self.tails[machine as usize - 1]
    }

    /// The machine bound of a front, for every set with these loads. Where the front is that of a list, and the set has
    /// the jobs that the list leaves, no sequence that extends the list has a smaller makespan.
    pub fn bound(&self, front: &Front, machine: u16) -> u64
        requires from { 1 ≤ machine }
        requires to { machine ≤ self.now.machines }
        requires within { (place : ℕ) → place < self.now.machines → slice_index front.now place ≤ greatest_completion }
        ensures value { (shop : Shop) (jobs : List ℕ) → AreLoadsOf shop jobs self.now →
            result ≡ machine_bound shop front.now jobs machine }
        ensures admissible { (shop : Shop) (scheduled sequence : List ℕ) →
            AreLoadsOf shop (jobs_left shop.jobs scheduled) self.now → 0 < length (jobs_left shop.jobs scheduled) →
            IsFrontOf shop scheduled front.now → IsSequence shop.jobs sequence → Extends sequence scheduled →
            result ≤ span shop sequence }
    {
        let place = machine as usize - 1;
        let work = u64::from(self.sums[place]) + u64::from(self.tails[place]);
        front.at(machine) + work
    }
}
