//! The rest of a set of jobs: the loads of the machines, and the lags to each of them.

ghost use Rattle.std.specs.Prelude.{◌≡◌, ℕ, ◌+◌, ◌-◌, ◌^◌, ◌<◌, ◌≤◌, min, List, true, false};
ghost use Rattle.std.specs.Prelude.{length, slice_index, slice_set};
ghost use Rattle.flow_limits.specs.Limits.{most_machines, greatest_completion};
ghost use Rattle.flow_shop.specs.Shop.{Shop, time_between};
ghost use Rattle.flow_shop.specs.Paths.{span};
ghost use Rattle.flow_shop.specs.Front.{IsFrontOf};
ghost use Rattle.flow_shop.specs.JobSet.{contains, members, IsSetOf};
ghost use Rattle.flow_shop.specs.Sequences.{jobs_left, IsSequence, Extends};
ghost use Rattle.flow_shop.specs.Bound.{machine_bound, release, released_bound};
ghost use Rattle.flow_bound.specs.Rest.{AreLags, IsRestOf};

use crate::least::least_after;
use crate::loads::Loads;
use flow_limits::MAX_MACHINES;
use flow_shop::{Front, Instance, JobSet};

/// The lags of a set of jobs to a machine: for each machine before it, the least time that a job of the set needs from
/// there to it.
pub type Lags = [u32; MAX_MACHINES];

/// The rest of a set of jobs: the remaining work of each machine, and the lags to it. It stores no set. For callers
/// alone: the search keeps `Loads`, and lags of its own.
#[derive(Clone, Copy, Debug)]
pub struct Rest {
    /// The remaining work of each machine.
    loads: Loads,
    /// For each machine, the lags to it.
    lags: [Lags; MAX_MACHINES],
}

/// Takes a job into the lags to a machine.
fn take_lags(instance: &Instance, job: u16, machine: u16, lags: &mut Lags)
    requires job_from { 1 ≤ job }
    requires job_to { job ≤ instance.now.jobs }
    requires from { 1 ≤ machine }
    requires to { machine ≤ instance.now.machines }
    ensures lags { (from : ℕ) → 1 ≤ from → from < machine →
        slice_index lags.new (from - 1)
        ≡ min (slice_index lags.old (from - 1)) (time_between instance.now job from (machine - 1)) }
{
    prove!(machine <= instance.machines());
    let mut ahead = 0;
    let mut from = machine - 1;
    while from > 0 {
        let place = from as usize - 1;
        ahead += instance.time(job, from);
        lags[place] = lags[place].min(ahead);
        from -= 1;
    }
}

/// The lags of a set of jobs to a machine.
pub(crate) fn lags_of(instance: &Instance, set: &JobSet, machine: u16) -> Lags
    requires from { 1 ≤ machine }
    requires to { machine ≤ instance.now.machines }
    requires some { 0 < length (members set.now) }
    requires jobs { IsSetOf instance.now set.now }
    ensures { AreLags instance.now (members set.now) machine result }
{
    let mut lags = [u32::MAX; MAX_MACHINES];
    for job in 1..instance.jobs() + 1 {
        if set.contains(job) {
            take_lags(instance, job, machine, &mut lags);
        }
    }
    lags
}

/// The lags to a machine after `job` is taken out; `after` is the set without it. It looks for a new least time only
/// where `job` has the least.
fn lags_after(instance: &Instance, after: &JobSet, job: u16, machine: u16, lags: &Lags) -> Lags
    requires job_from { 1 ≤ job }
    requires job_to { job ≤ instance.now.jobs }
    requires from { 1 ≤ machine }
    requires to { machine ≤ instance.now.machines }
    requires out { contains after.now job ≡ false }
    requires some { 0 < length (members after.now) }
    requires jobs { IsSetOf instance.now after.now }
    requires lags { AreLags instance.now (members (slice_set after.now (job - 1) true)) machine lags.now }
    ensures { AreLags instance.now (members after.now) machine result }
{
    prove!(machine <= instance.machines());
    let mut new_lags = *lags;
    let mut ahead = 0;
    let mut from = machine - 1;
    while from > 0 {
        let place = from as usize - 1;
        ahead += instance.time(job, from);
        new_lags[place] = least_after(instance, after, from, machine - 1, ahead, lags[place]);
        from -= 1;
    }
    new_lags
}

/// The release of a machine, for every set with these lags to it.
pub fn release_from_lags(front: &Front, lags: &Lags, machine: u16) -> u64
    requires from { 1 ≤ machine }
    requires to { machine ≤ most_machines }
    requires within { (place : ℕ) → place < machine → slice_index front.now place ≤ greatest_completion }
    ensures value { (shop : Shop) (jobs : List ℕ) → AreLags shop jobs machine lags.now →
        result ≡ release shop front.now jobs machine }
    ensures limit { result ≤ greatest_completion + 2 ^ 32 }
{
    let mut release = front.at(machine);
    for from in 1..machine {
        release = release.max(front.at(from) + u64::from(lags[from as usize - 1]));
    }
    release
}

impl Rest {
    /// The rest of a set of jobs.
    pub fn of(instance: &Instance, set: &JobSet) -> Rest
        requires some { 0 < length (members set.now) }
        requires jobs { IsSetOf instance.now set.now }
        ensures rest { IsRestOf instance.now (members set.now) result }
    {
        let loads = Loads::of(instance, set);
        let mut lags = [[0; MAX_MACHINES]; MAX_MACHINES];
        for machine in 1..instance.machines() + 1 {
            lags[machine as usize - 1] = lags_of(instance, set, machine);
        }
        Rest { loads, lags }
    }

    /// The rest after `job` is taken out; `after` is the set without it. It looks for a new least only where `job` has
    /// the least.
    pub fn step(&self, instance: &Instance, after: &JobSet, job: u16) -> Rest
        requires job_from { 1 ≤ job }
        requires job_to { job ≤ instance.now.jobs }
        requires out { contains after.now job ≡ false }
        requires some { 0 < length (members after.now) }
        requires jobs { IsSetOf instance.now after.now }
        requires rest { IsRestOf instance.now (members (slice_set after.now (job - 1) true)) self.now }
        ensures rest { IsRestOf instance.now (members after.now) result }
    {
        let loads = self.loads.step(instance, after, job);
        let mut lags = self.lags;
        for machine in 1..instance.machines() + 1 {
            let place = machine as usize - 1;
            lags[place] = lags_after(instance, after, job, machine, &self.lags[place]);
        }
        Rest { loads, lags }
    }

    /// The time of all jobs of the set on a machine.
    pub fn sum(&self, machine: u16) -> u32
        requires from { 1 ≤ machine }
        requires to { machine ≤ self.now.loads.machines }
        ensures { result ≡ slice_index self.now.loads.sums (machine - 1) }
    {
        self.loads.sum(machine)
    }

    /// The least tail of a job of the set behind a machine: its time on all later machines.
    pub fn tail(&self, machine: u16) -> u32
        requires from { 1 ≤ machine }
        requires to { machine ≤ self.now.loads.machines }
        ensures { result ≡ slice_index self.now.loads.tails (machine - 1) }
    {
        self.loads.tail(machine)
    }

    /// The machine bound of a front, for every set with this rest. Where the front is that of a list, and the set has
    /// the jobs that the list leaves, no sequence that extends the list has a smaller makespan.
    pub fn bound(&self, front: &Front, machine: u16) -> u64
        requires from { 1 ≤ machine }
        requires to { machine ≤ self.now.loads.machines }
        requires within { (place : ℕ) → place < self.now.loads.machines →
            slice_index front.now place ≤ greatest_completion }
        ensures value { (shop : Shop) (jobs : List ℕ) → IsRestOf shop jobs self.now →
            result ≡ machine_bound shop front.now jobs machine }
        ensures admissible { (shop : Shop) (scheduled sequence : List ℕ) →
            IsRestOf shop (jobs_left shop.jobs scheduled) self.now → 0 < length (jobs_left shop.jobs scheduled) →
            IsFrontOf shop scheduled front.now → IsSequence shop.jobs sequence → Extends sequence scheduled →
            result ≤ span shop sequence }
    {
        self.loads.bound(front, machine)
    }

    /// The released bound of a front, for every set with this rest. Where the front is that of a list, and the set has
    /// the jobs that the list leaves, no sequence that extends the list has a smaller makespan.
    pub fn released_bound(&self, front: &Front, machine: u16) -> u64
        requires from { 1 ≤ machine }
        requires to { machine ≤ self.now.loads.machines }
        requires within { (place : ℕ) → place < self.now.loads.machines →
            slice_index front.now place ≤ greatest_completion }
        ensures value { (shop : Shop) (jobs : List ℕ) → IsRestOf shop jobs self.now →
            result ≡ released_bound shop front.now jobs machine }
        ensures admissible { (shop : Shop) (scheduled sequence : List ℕ) →
            IsRestOf shop (jobs_left shop.jobs scheduled) self.now → 0 < length (jobs_left shop.jobs scheduled) →
            IsFrontOf shop scheduled front.now → IsSequence shop.jobs sequence → Extends sequence scheduled →
            result ≤ span shop sequence }
    {
        prove!(machine <= self.loads.machines());
        let release = release_from_lags(front, &self.lags[machine as usize - 1], machine);
        let work = u64::from(self.loads.sum(machine)) + u64::from(self.loads.tail(machine));
        release + work
    }
}
