//! Instances, starts and what a search of better sequences comes to.

ghost use Rattle.std.specs.Prelude.{IfSome};
ghost use Rattle.flow_core.specs.Sequences.{IsSequence};

use flow_bound::neh;
use flow_core::{Instance, Sequence};
use flow_improve::{Effort, Reached};
use std::alloc::Global;

/// No jobs: the starting sequence where a start is asked for, and any sequence where one is compared.
pub(crate) const ANY: &[u16] = &[];

/// Six jobs from the last to the first.
pub(crate) const DOWN: &[u16] = &[6, 5, 4, 3, 2, 1];

/// The sequence of these jobs, or, where there are none, the starting sequence. It is none where it is refused.
pub(crate) fn start_of(alloc: Global, instance: &Instance, jobs: &[u16]) -> Option<Sequence>
    ensures { IfSome result (IsSequence instance.now.jobs) }
{
    if !jobs.is_empty() {
        return Sequence::new(alloc, instance, jobs).ok();
    }
    match neh(alloc, instance) {
        Ok((start, _)) => Some(start),
        Err(_) => None,
    }
}

/// The effort of width, rounds, seed and work; none where they are refused.
pub(crate) fn effort_of(numbers: [u32; 4]) -> Option<Effort> {
    let [width, rounds, seed, work] = numbers;
    Effort::new(width, rounds, seed, work).ok()
}

/// Whether a search came to this makespan, these jobs, and this answer whether it was whole. Where no jobs are given,
/// any sequence will do.
pub(crate) fn comes_to(reached: &Reached, value: u64, jobs: &[u16], whole: bool) -> bool {
    let same = jobs.is_empty() || reached.sequence.jobs() == jobs;
    same && reached.value == value && reached.whole == whole
}
