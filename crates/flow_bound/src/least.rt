//! The least time of a set's jobs on the machines from one to another, and what it is once a job has left the set.

ghost use Rattle.std.specs.Prelude.{◌≡◌, ℕ, ◌+◌, ◌-◌, ◌<◌, ◌≤◌, true, false, length, slice_set};
ghost use Rattle.flow_shop.specs.Shop.{time_between};
ghost use Rattle.flow_shop.specs.JobSet.{contains, members, IsSetOf};
ghost use Rattle.flow_bound.specs.Loads.{least_between};

use flow_shop::{Instance, JobSet};

/// The least time of a job of a set on the machines from `first` to `last`, where none is below `floor`.
pub(crate) fn least_between(
    instance: &Instance,
    set: &JobSet,
    first: u16,
    last: u16,
    floor: u32,
) -> u32
    requires from { 1 ≤ first }
    requires order { first ≤ last + 1 }
    requires to { last ≤ instance.now.machines }
    requires some { 0 < length (members set.now) }
    requires jobs { IsSetOf instance.now set.now }
    requires floor { floor ≤ least_between instance.now (members set.now) first last }
    ensures { result ≡ least_between instance.now (members set.now) first last }
{
    let mut least = u32::MAX;
    for job in 1..instance.jobs() + 1 {
        if set.contains(job) {
            let time = instance.time_between(job, first, last);
            if time == floor {
                return floor;
            }
            least = least.min(time);
        }
    }
    least
}

/// The least time of a job of `after` on the machines from `first` to `last`. `after` is a set that a job has just
/// left: `own` is that job's time there, and `least` the least with it. It looks for a new least only where the job had
/// the least.
#[inline(always)]
pub(crate) fn least_after(
    instance: &Instance,
    after: &JobSet,
    first: u16,
    last: u16,
    own: u32,
    least: u32,
) -> u32
    requires from { 1 ≤ first }
    requires order { first ≤ last + 1 }
    requires to { last ≤ instance.now.machines }
    requires some { 0 < length (members after.now) }
    requires jobs { IsSetOf instance.now after.now }
    requires left { (job : ℕ) × (1 ≤ job) × (job ≤ instance.now.jobs) × (contains after.now job ≡ false) ×
        (own ≡ time_between instance.now job first last) ×
        (least ≡ least_between instance.now (members (slice_set after.now (job - 1) true)) first last) }
    ensures { result ≡ least_between instance.now (members after.now) first last }
{
    prove!(last <= instance.machines());
    if own == least {
        least_between(instance, after, first, last, least)
    } else {
        least
    }
}
