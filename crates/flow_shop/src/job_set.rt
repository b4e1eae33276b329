//! A set of jobs.

ghost use Rattle.std.specs.Prelude.{◌≡◌, ℕ, ◌-◌, ◌≤◌, [], length, count_by, slice_set, true, false};
ghost use Rattle.flow_shop.specs.Shop.{numbers};
ghost use Rattle.flow_shop.specs.JobSet.{contains, members, IsSetOf};
ghost use Rattle.flow_limits.specs.Limits.{most_jobs};

use crate::instance::Instance;
use flow_limits::MAX_JOBS;
use std::marker::Model;

/// A set of jobs from `1..=MAX_JOBS`.
#[derive(Clone, Copy, Debug, PartialEq, Eq)]
pub struct JobSet {
    flags: [bool; MAX_JOBS],
}

impl Model for JobSet {
    ghost use Rattle.std.specs.Prelude.{List, Bool};

    ghost Value = { List Bool };

    ghost view = { λ s. s.flags };

    ghost inverse = { λ flags. record { flags = flags } };
}

impl JobSet {
    /// The empty set.
    pub fn none() -> Self
        ensures members { members result ≡ [] }
        ensures empty { (job : ℕ) → contains result job ≡ false }
        ensures size { length result ≡ most_jobs }
    {
        JobSet {
            flags: [false; MAX_JOBS],
        }
    }

    /// The set of an instance's jobs.
    pub fn all(instance: &Instance) -> Self
        ensures members { members result ≡ numbers 1 instance.now.jobs }
        ensures each { (job : ℕ) → 1 ≤ job → job ≤ instance.now.jobs → contains result job ≡ true }
        ensures others { IsSetOf instance.now result }
        ensures size { length result ≡ most_jobs }
    {
        let mut set = JobSet::none();
        let end = instance.jobs() + 1;
        for job in 1..end {
            set.insert(job);
        }
        set
    }

    /// Adds a job of `1..=MAX_JOBS`.
    pub fn insert(&mut self, job: u16)
        requires from { 1 ≤ job }
        requires to { job ≤ most_jobs }
        ensures value { self.new ≡ slice_set self.old (job - 1) true }
        ensures size { length self.new ≡ most_jobs }
    {
        self.flags[job as usize - 1] = true;
    }

    /// Removes a job of `1..=MAX_JOBS`.
    pub fn remove(&mut self, job: u16)
        requires from { 1 ≤ job }
        requires to { job ≤ most_jobs }
        ensures value { self.new ≡ slice_set self.old (job - 1) false }
        ensures size { length self.new ≡ most_jobs }
    {
        self.flags[job as usize - 1] = false;
    }

    /// Whether a job of `1..=MAX_JOBS` is in the set.
    pub fn contains(&self, job: u16) -> bool
        requires from { 1 ≤ job }
        requires to { job ≤ most_jobs }
        ensures value { result ≡ contains self.now job }
        ensures size { length self.now ≡ most_jobs }
    {
        self.flags[job as usize - 1]
    }

    /// How many jobs the set has.
    pub fn count(&self) -> u16
        ensures { result ≡ length (members self.now) }
    {
        count_of(&self.flags) as u16
    }
}

/// How many flags are set.
fn count_of(flags: &[bool]) -> usize
    ensures value { result ≡ count_by (λ flag. flag) flags.now }
    ensures within { result ≤ length flags.now }
{
    flags.iter().filter(|flag| **flag).count()
}
