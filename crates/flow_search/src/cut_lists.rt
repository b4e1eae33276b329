//! The cut: the number of its lists, and the lists one after another.

ghost use Rattle.std.specs.Prelude.{◌≡◌, ◌<◌, ◌≤◌, ◌++◌, length, IfSome, IfNone, OnOk};
ghost use Rattle.std.specs.List.{concat};
ghost use Rattle.flow_limits.specs.Limits.{most_jobs, most_prefixes};
ghost use Rattle.flow_shop.specs.Sequences.{has, extensions, cut};

use flow_limits::MAX_PREFIXES;
use std::alloc::AllocError;

/// How many lists the cut has; `None` where there are more than `MAX_PREFIXES`.
pub fn prefix_count(jobs: u16, depth: u32) -> Option<u32>
    requires deep { depth ≤ jobs }
    requires limit { jobs ≤ most_jobs }
    ensures counted { IfSome result (λ count. count ≡ length (cut jobs depth)) }
    ensures few { IfSome result (λ count. count ≤ most_prefixes) }
    ensures many { IfNone result (most_prefixes < length (cut jobs depth)) }
{
    let mut count = 1;
    for used in 0..depth {
        count *= u32::from(jobs) - used;
        if count > MAX_PREFIXES {
            return None;
        }
    }
    Some(count)
}

/// Whether a job stands in a list.
fn holds(jobs: &[u16], job: u16) -> bool
    ensures { result ≡ has jobs.now job }
{
    jobs.iter().any(|other| job == *other)
}

/// Appends to `lists`, one after another, the lists that begin with `list` and have `more` further jobs, none twice.
pub fn extend(
    jobs: u16,
    more: u32,
    list: &mut Vec<u16>,
    lists: &mut Vec<u16>,
) -> Result<(), AllocError>
    requires { jobs ≤ most_jobs }
    ensures lists { OnOk result (lists.new.items ≡ lists.old.items ++ concat (extensions jobs more list.old.items)) }
    ensures list { OnOk result (list.new.items ≡ list.old.items) }
{
    if more == 0 {
        lists.extend_from_slice(list)?;
        return Ok(());
    }
    let below = more - 1;
    for job in 1..jobs + 1 {
        if !holds(list, job) {
            list.push(job)?;
            extend(jobs, below, list, lists)?;
            list.pop();
        }
    }
    Ok(())
}
