//! An instance: the times of jobs on machines.

ghost use Rattle.std.specs.Prelude.{◌≡◌, ◌+◌, ◌*◌, ◌<◌, ◌≤◌, nat_lt, true, length, position, All, None};
ghost use Rattle.std.specs.Prelude.{IfSome, IfNone, IfOk, OnOk, IfErr};
ghost use Rattle.std.specs.Cmp.{partial_equiv_from_equiv};
ghost use Rattle.flow_shop.specs.Shop.{IsWithinLimits, time, time_between, is_same_shop};
ghost use Rattle.flow_shop.specs.internal.Same.{is_same_shop-equiv};
ghost use Rattle.flow_shop.specs.InstanceFaults.{size_tests, instance_fault, but_memory};
ghost use Rattle.flow_shop.specs.Refusals.{first_fault};
ghost use Rattle.std.specs.Int.{is_in_range};
ghost use Rattle.flow_shop.specs.declared.instance.InstanceFault.TheVariants.{Memory};
ghost use Rattle.flow_limits.specs.Limits.{most_jobs, most_machines, greatest_time};
ghost use Rattle.flow_shop.specs.internal.Transposed.{transposed};

use flow_limits::{MAX_TIME, may_have_jobs, may_have_machines};
use std::alloc::{AllocError, Global};
use std::marker::Model;
use thiserror::Error;

/// Why an instance can't be made, in the order of the tests. Only `generate` returns `Seed`.
#[derive(Clone, Copy, Debug, PartialEq, Eq, Error)]
pub enum InstanceFault {
    /// The number of jobs is not in `1..=MAX_JOBS`.
    #[error("Jobs")]
    Jobs,
    /// The number of machines is not in `1..=MAX_MACHINES`.
    #[error("Machines")]
    Machines,
    /// There is not one time for each job and machine.
    #[error("Count")]
    Count,
    /// The time at this place, counted from 1, is the first above `MAX_TIME`.
    #[error("Time {0}")]
    Time(usize),
    /// The seed of a generator is not in `1..=2147483646`.
    #[error("Seed")]
    Seed,
    /// Memory ran out.
    #[error("Memory")]
    Memory,
}

impl From<AllocError> for InstanceFault {
    ghost from_gives = { λ _ fault. fault ≡ Memory };

    fn from(_error: AllocError) -> InstanceFault {
        InstanceFault::Memory
    }
}

/// The time of each job on each machine, within the limits.
#[derive(Debug, Drop)]
pub struct Instance {
    jobs: u16,
    machines: u16,
    /// The times job by job, and for each job machine by machine, so that the times of a job stand side by side.
    rows: Vec<u32>,
}

impl Model for Instance {
    ghost use Rattle.std.specs.Prelude.{◌≡◌, ◌*◌, length};
    ghost use Rattle.flow_shop.specs.Shop.{Shop, IsWithinLimits};
    ghost use Rattle.flow_shop.specs.internal.Transposed.{transposed};

    ghost Value = { Shop };

    ghost view = { λ i.
        record { jobs = i.jobs; machines = i.machines; times = transposed i.jobs i.machines i.rows.items } };

    ghost invariant = { λ i. IsWithinLimits
        (record { jobs = i.jobs; machines = i.machines; times = transposed i.jobs i.machines i.rows.items })
        × (length i.rows.items ≡ i.jobs * i.machines) };
}

/// The numbers of a table, column by column. The table is given row by row: `lists` rows of `each` numbers.
fn by_columns(
    alloc: Global,
    lists: usize,
    each: usize,
    numbers: &[u32],
) -> Result<Vec<u32>, AllocError>
    requires some { 0 < lists }
    requires count { length numbers.now ≡ lists * each }
    ensures { IfOk result (λ taken. taken.items ≡ transposed lists each numbers.now) }
{
    let count = numbers.len();
    let mut taken = Vec::with_capacity(alloc, count)?;
    for place in 0..count {
        taken.push_reserved(numbers[place % lists * each + place / lists]);
    }
    Ok(taken)
}

impl PartialEq for Instance {
    ghost eq = { is_same_shop };

    ghost laws = { partial_equiv_from_equiv is_same_shop-equiv };

    fn eq(&self, other: &Instance) -> bool {
        (self.jobs, self.machines) == (other.jobs, other.machines) && self.rows == other.rows
    }
}

impl Eq for Instance {
    ghost laws = { is_same_shop-equiv };
}

/// The index of the first time above the limit.
fn first_too_great(times: &[u32]) -> Option<usize>
    ensures value { result ≡ position (λ time. nat_lt greatest_time time) times.now }
    ensures within { IfSome result (λ index. index < length times.now) }
    ensures none { IfNone result (All (λ time. time ≤ greatest_time) times.now) }
{
    times.iter().position(|time| *time > MAX_TIME)
}

/// The fault of these numbers: `Jobs` where no instance may have so many jobs, or else `Machines` where none may have
/// so many machines; `None` where one may have both.
pub fn size_fault(jobs: u32, machines: u32) -> Option<InstanceFault>
    ensures fault { result ≡ first_fault (size_tests jobs machines) }
    ensures none { IfNone result
        ((is_in_range 1 most_jobs jobs ≡ true) × (is_in_range 1 most_machines machines ≡ true)) }
{
    if !may_have_jobs(jobs) {
        return Some(InstanceFault::Jobs);
    }
    if !may_have_machines(machines) {
        return Some(InstanceFault::Machines);
    }
    None
}

impl Instance {
    /// The instance of these times, machine by machine and for each machine job by job; or the first fault; or
    /// `Memory`.
    pub fn new(
        alloc: Global,
        jobs: u32,
        machines: u32,
        times: &[u32],
    ) -> Result<Instance, InstanceFault>
        ensures value { IfOk result
            (λ instance. instance ≡ record { jobs = jobs; machines = machines; times = times.now }) }
        ensures accepted { OnOk result (instance_fault jobs machines times.now ≡ None) }
        ensures refused { IfErr result (λ fault. instance_fault jobs machines times.now ≡ but_memory fault) }
    {
        if let Some(fault) = size_fault(jobs, machines) {
            return Err(fault);
        }
        if times.len() != jobs as usize * machines as usize {
            return Err(InstanceFault::Count);
        }
        if let Some(index) = first_too_great(times) {
            return Err(InstanceFault::Time(index + 1));
        }
        Ok(Instance::from_times(alloc, jobs as u16, machines as u16, times)?)
    }

    /// The instance of numbers that are known to be within the limits; times machine by machine.
    pub fn from_times(
        alloc: Global,
        jobs: u16,
        machines: u16,
        times: &[u32],
    ) -> Result<Instance, AllocError>
        requires { IsWithinLimits (record { jobs = jobs; machines = machines; times = times.now }) }
        ensures { IfOk result
            (λ instance. instance ≡ record { jobs = jobs; machines = machines; times = times.now }) }
    {
        Ok(Instance {
            jobs,
            machines,
            rows: by_columns(alloc, machines as usize, jobs as usize, times)?,
        })
    }

    /// How many jobs there are.
    pub fn jobs(&self) -> u16
        ensures value { result ≡ self.now.jobs }
        ensures limits { IsWithinLimits self.now }
    {
        self.jobs
    }

    /// How many machines there are.
    pub fn machines(&self) -> u16
        ensures value { result ≡ self.now.machines }
        ensures limits { IsWithinLimits self.now }
    {
        self.machines
    }

    /// The times, machine by machine and for each machine job by job.
    pub fn times(&self, alloc: Global) -> Result<Vec<u32>, AllocError>
        ensures value { IfOk result (λ times. times.items ≡ self.now.times) }
        ensures limits { IsWithinLimits self.now }
    {
        by_columns(
            alloc,
            usize::from(self.jobs),
            usize::from(self.machines),
            self.rows.as_slice(),
        )
    }

    /// The time of a job on a machine, both counted from 1.
    pub fn time(&self, job: u16, machine: u16) -> u32
        requires job_from { 1 ≤ job }
        requires job_to { job ≤ self.now.jobs }
        requires machine_from { 1 ≤ machine }
        requires machine_to { machine ≤ self.now.machines }
        ensures value { result ≡ time self.now job machine }
        ensures limit { result ≤ greatest_time }
    {
        let place = (job as usize - 1) * self.machines as usize + (machine as usize - 1);
        self.rows[place]
    }

    /// The time of a job on the machines from `first` to `last`, both counted from 1.
    pub fn time_between(&self, job: u16, first: u16, last: u16) -> u32
        requires job_from { 1 ≤ job }
        requires job_to { job ≤ self.now.jobs }
        requires from { 1 ≤ first }
        requires order { first ≤ last + 1 }
        requires to { last ≤ self.now.machines }
        ensures { result ≡ time_between self.now job first last }
    {
        prove!(last <= self.machines());
        let mut time = 0;
        for machine in first..last + 1 {
            time += self.time(job, machine);
        }
        time
    }
}
