//! A sequence: the jobs of an instance in some order.

ghost use Rattle.std.specs.Prelude.{◌≡◌, ℕ, ◌+◌, nat_eq, List, [], ◌++◌, None, length, IfNone, IfOk, OnOk, IfErr};
ghost use Rattle.std.specs.Cmp.{partial_equiv_from_equiv};
ghost use Rattle.std.specs.Cmp.Lexicographic.{pointwise, nat_list_eq_equiv};
ghost use Rattle.flow_shop.specs.JobSet.{AreTaken};
ghost use Rattle.flow_shop.specs.Sequences.{AreJobs, IsSequence};
ghost use Rattle.flow_shop.specs.SequenceFaults.{place_fault, sequence_fault, but_memory};
ghost use Rattle.flow_shop.specs.declared.sequence.SequenceFault.TheVariants.{Memory};

use crate::instance::Instance;
use crate::job_set::JobSet;
use std::alloc::{AllocError, Global};
use std::marker::Model;
use thiserror::Error;

/// Why a sequence can't be made, in the order of the tests. Places are counted from 1.
#[derive(Clone, Copy, Debug, PartialEq, Eq, Error)]
pub enum SequenceFault {
    /// There are not as many jobs as the instance has.
    #[error("Length")]
    Length,
    /// The job at this place, the first at fault, is not one of the instance.
    #[error("Job {0}")]
    Job(usize),
    /// The job at this place, the first at fault, stands at an earlier place too.
    #[error("Twice {0}")]
    Twice(usize),
    /// Memory ran out.
    #[error("Memory")]
    Memory,
}

impl From<AllocError> for SequenceFault {
    ghost from_gives = { λ _ fault. fault ≡ Memory };

    fn from(_error: AllocError) -> SequenceFault {
        SequenceFault::Memory
    }
}

/// The jobs of an instance in some order, each once.
#[derive(Debug, Drop)]
pub struct Sequence {
    jobs: Vec<u16>,
}

impl Model for Sequence {
    ghost use Rattle.std.specs.Prelude.{List, ℕ, length};
    ghost use Rattle.flow_shop.specs.Sequences.{IsSequence};

    ghost Value = { List ℕ };

    ghost view = { λ s. s.jobs.items };

    ghost invariant = { λ s. IsSequence (length s.jobs.items) s.jobs.items };
}

impl PartialEq for Sequence {
    ghost eq = { pointwise nat_eq };

    ghost laws = { partial_equiv_from_equiv nat_list_eq_equiv };

    fn eq(&self, other: &Sequence) -> bool {
        self.jobs == other.jobs
    }
}

impl Eq for Sequence {
    ghost laws = { nat_list_eq_equiv };
}

/// Adds jobs to a set that has `count` earlier ones, distinct jobs of the instance. `None` once all are added; else the
/// fault of the first job that is not one of the instance (`Job`), or that is in the set by then (`Twice`), with its
/// place, counted from 1 over the earlier jobs and these. After a fault nothing is said of the set.
pub fn insert_all(
    instance: &Instance,
    taken: &mut JobSet,
    count: usize,
    jobs: &[u16],
) -> Option<SequenceFault>
    requires { (earlier : List ℕ) × AreTaken instance.now earlier count taken.old }
    ensures fault { (earlier : List ℕ) → AreTaken instance.now earlier count taken.old →
        result ≡ place_fault instance.now.jobs earlier jobs.now }
    ensures taken { (earlier : List ℕ) → AreTaken instance.now earlier count taken.old →
        IfNone result (AreTaken instance.now (earlier ++ jobs.now) (count + length jobs.now) taken.new) }
{
    let n = instance.jobs();
    for (index, &job) in jobs.iter().enumerate() {
        let place = count + index + 1;
        if job < 1 || job > n {
            return Some(SequenceFault::Job(place));
        }
        if taken.contains(job) {
            return Some(SequenceFault::Twice(place));
        }
        taken.insert(job);
    }
    None
}

/// The fault of the first job that is not one of the instance, or that stands at an earlier place too.
pub fn first_job_at_fault(instance: &Instance, jobs: &[u16]) -> Option<SequenceFault>
    ensures fault { result ≡ place_fault instance.now.jobs [] jobs.now }
    ensures none { IfNone result (AreJobs instance.now.jobs jobs.now) }
{
    insert_all(instance, &mut JobSet::none(), 0, jobs)
}

impl Sequence {
    /// The sequence of these jobs; or the first fault; or `Memory`.
    pub fn new(alloc: Global, instance: &Instance, jobs: &[u16]) -> Result<Sequence, SequenceFault>
        ensures value { IfOk result (λ sequence. sequence ≡ jobs.now) }
        ensures accepted { OnOk result (sequence_fault instance.now.jobs jobs.now ≡ None) }
        ensures refused { IfErr result (λ fault. sequence_fault instance.now.jobs jobs.now ≡ but_memory fault) }
        ensures each { OnOk result (IsSequence instance.now.jobs jobs.now) }
    {
        if jobs.len() != usize::from(instance.jobs()) {
            return Err(SequenceFault::Length);
        }
        match first_job_at_fault(instance, jobs) {
            Some(fault) => Err(fault),
            None => Ok(Sequence {
                jobs: Vec::from_slice(alloc, jobs)?,
            }),
        }
    }

    /// The sequence of jobs that are known to be one. `AllocError` where memory ran out.
    pub fn of_known(alloc: Global, jobs: &[u16]) -> Result<Sequence, AllocError>
        requires { IsSequence (length jobs.now) jobs.now }
        ensures { IfOk result (λ sequence. sequence ≡ jobs.now) }
    {
        let jobs = Vec::from_slice(alloc, jobs)?;
        Ok(Sequence { jobs })
    }

    /// The jobs in order.
    pub fn jobs(&self) -> &[u16]
        ensures value { result.now ≡ self.now }
        ensures each { IsSequence (length self.now) self.now }
    {
        self.jobs.as_slice()
    }
}
