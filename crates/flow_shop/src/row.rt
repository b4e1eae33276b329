//! The times and tails of the jobs, a row for each, and their lags.

ghost use Rattle.std.specs.Prelude.{◌≡◌, ℕ, ◌-◌, ◌<◌, ◌≤◌, slice_index, IfOk};
ghost use Rattle.flow_shop.specs.Shop.{Shop, IsWithinLimits, time_between};
ghost use Rattle.flow_shop.specs.Rows.{IsRow, AreRows};
ghost use Rattle.flow_shop.specs.TwoLeast.{time_to};

use crate::instance::Instance;
use flow_limits::MAX_MACHINES;
use std::alloc::{AllocError, Global};

/// The times and tails of one job, with machine 1 first.
#[derive(Debug, PartialEq, Eq, Drop)]
pub struct Row {
    /// Its time on each machine.
    pub times: [u32; MAX_MACHINES],
    /// Its tail behind each machine: its time on all later machines.
    pub tails: [u32; MAX_MACHINES],
}

impl Row {
    /// The job's lag from a machine to another: its time on the machines from there to the one before the other.
    #[inline(always)]
    pub fn lag(&self, from: u16, to: u16) -> u32
        requires from { 1 ≤ from }
        requires order { from ≤ to }
        requires row { (shop : Shop) × (job : ℕ) × IsWithinLimits shop × IsRow shop job self.now ×
            (to ≤ shop.machines) }
        ensures { (shop : Shop) (job : ℕ) → IsRow shop job self.now → to ≤ shop.machines →
            result ≡ time_between shop job from (to - 1) }
    {
        let first = from as usize - 1;
        let last = to as usize - 1;
        let here = self.times[first] + self.tails[first];
        let later = self.times[last] + self.tails[last];
        here - later
    }

    /// The job's lags to a machine from each machine up to it, that from machine 1 first.
    #[inline]
    pub fn lags_to(&self, machine: u16) -> [u32; MAX_MACHINES]
        requires from { 1 ≤ machine }
        requires row { (shop : Shop) × (job : ℕ) × IsWithinLimits shop × IsRow shop job self.now ×
            (machine ≤ shop.machines) }
        ensures { (shop : Shop) (job : ℕ) → IsRow shop job self.now → machine ≤ shop.machines → (place : ℕ) →
            place < machine → slice_index result place ≡ time_to shop machine place job }
    {
        let mut lags = [0; MAX_MACHINES];
        for from in 1..machine + 1 {
            lags[from as usize - 1] = self.lag(from, machine);
        }
        lags
    }
}

/// The row of a job.
fn row_of(instance: &Instance, job: u16) -> Row
    requires from { 1 ≤ job }
    requires to { job ≤ instance.now.jobs }
    ensures { IsRow instance.now job result }
{
    let mut times = [0; MAX_MACHINES];
    let mut tails = [0; MAX_MACHINES];
    let mut behind = 0;
    let mut machine = instance.machines();
    while machine > 0 {
        let place = machine as usize - 1;
        let time = instance.time(job, machine);
        times[place] = time;
        tails[place] = behind;
        behind += time;
        machine -= 1;
    }
    Row { times, tails }
}

/// The rows of all jobs, that of job 1 first.
pub fn rows(alloc: Global, instance: &Instance) -> Result<Vec<Row>, AllocError>
    ensures { IfOk result (λ rows. AreRows instance.now rows.items) }
{
    let jobs = instance.jobs();
    let mut rows = Vec::with_capacity(alloc, jobs as usize)?;
    for job in 1..jobs + 1 {
        rows.push(row_of(instance, job))?;
    }
    Ok(rows)
}
