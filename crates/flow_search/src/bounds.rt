//! The first machine whose bound prunes a node, and the first that prunes a child of a node with more than eight jobs
//! left.

ghost use Rattle.std.specs.Prelude.{◌≡◌, ℕ, suc, ◌-◌, ◌≤◌, List, [], ◌∷◌, ◌++◌, slice_index};
ghost use Rattle.flow_limits.specs.Limits.{most_machines};
ghost use Rattle.flow_shop.specs.Front.{IsWithinFront};
ghost use Rattle.flow_shop.specs.JobSet.{members};
ghost use Rattle.flow_shop.specs.Bound.{machine_bound, bound_at, released_bound_at};
ghost use Rattle.flow_shop.specs.Sequences.{jobs_left};
ghost use Rattle.flow_shop.specs.TwoLeast.{IsLeastWithout};
ghost use Rattle.flow_bound.specs.Loads.{AreLoadsOf};
ghost use Rattle.flow_search.specs.Search.{first_reaching};
ghost use Rattle.flow_search.specs.internal.Lags.{AreLeastLags};
ghost use Rattle.flow_search.specs.internal.Frames.{IsFrame, IsChild};
ghost use Rattle.flow_search.specs.internal.Jobs.{IsJobIn};
ghost use Rattle.flow_search.specs.internal.Nodes.{IsAt};
ghost use Rattle.flow_search.specs.internal.Settings.{shop_of, pruned_at, StandsAt, HasFrame, HasLags};

use crate::frame::Frame;
use crate::release::{pruning_of_node_released, release_at_child};
use crate::setting::Setting;
use crate::state::SearchState;
use crate::tails_and_lags::LeastLags;
use flow_bound::Loads;
use flow_limits::MAX_MACHINES;
use flow_shop::{Front, Instance, JobSet, TwoLeast, has_releases};

/// The first machine that prunes a node by the machine bound: whose machine bound there reaches a value.
fn pruning_of_node_plain(
    instance: &Instance,
    loads: &Loads,
    front: &Front,
    value: u64,
) -> Option<u16>
    requires loads { (jobs : List ℕ) × AreLoadsOf instance.now jobs loads.now }
    requires within { IsWithinFront instance.now front.now }
    ensures { (jobs : List ℕ) → AreLoadsOf instance.now jobs loads.now →
        result ≡ first_reaching instance.now value (machine_bound instance.now front.now jobs) }
{
    for machine in 1..instance.machines() + 1 {
        if value <= loads.bound(front, machine) {
            return Some(machine);
        }
    }
    None
}

/// The first machine that prunes a node: whose bound there, which is that of the version, reaches a value.
pub fn pruning_of_node(
    setting: &Setting,
    loads: &Loads,
    front: &Front,
    set: &JobSet,
    value: u64,
) -> Option<u16>
    requires at { (node : List ℕ) × (left : ℕ) × IsAt (shop_of setting.now) node front.now set.now (suc left) }
    requires loads { AreLoadsOf (shop_of setting.now) (members set.now) loads.now }
    ensures { (node : List ℕ) (left : ℕ) → IsAt (shop_of setting.now) node front.now set.now (suc left) →
        result ≡ pruned_at setting.now value node }
{
    if has_releases(setting.version) {
        pruning_of_node_released(setting, loads, front, set, value)
    } else {
        pruning_of_node_plain(setting.instance, loads, front, value)
    }
}

/// The least tail behind a machine of the jobs left but one, whose own tail is `own`.
#[inline(always)]
fn tail_without(here: &Frame, machine: u16, own: u32) -> u32
    requires from { 1 ≤ machine }
    requires to { machine ≤ here.now.loads.machines }
    requires limit { machine ≤ most_machines }
    ensures { IsLeastWithout own (slice_index here.now.loads.tails (machine - 1))
        (slice_index here.now.second (machine - 1)) result }
{
    let tails = TwoLeast {
        least: here.loads.tail(machine),
        second: here.second[machine as usize - 1],
    };
    tails.without(own)
}

/// The first machine that prunes a child by the machine bound: whose machine bound there reaches a value.
fn pruning_of_child_plain(here: &Frame, setting: &Setting, job: u16, value: u64) -> Option<u16>
    requires at { (node : List ℕ) × (left : ℕ) × IsFrame (shop_of setting.now) node (suc (suc left)) here.now
        × IsChild (shop_of setting.now).jobs node job }
    ensures { (node : List ℕ) (left : ℕ) → IsFrame (shop_of setting.now) node (suc (suc left)) here.now →
        IsChild (shop_of setting.now).jobs node job →
        result ≡ first_reaching (shop_of setting.now) value (bound_at (shop_of setting.now) (node ++ job ∷ [])) }
{
    let row = &setting.rows[job as usize - 1];
    let mut free = 0;
    for machine in 1..setting.instance.machines() + 1 {
        let place = machine as usize - 1;
        let start = here.front.at(machine).max(free);
        let tail = tail_without(here, machine, row.tails[place]);
        if value <= start + u64::from(here.loads.sum(machine)) + u64::from(tail) {
            return Some(machine);
        }
        free = start + u64::from(row.times[place]);
    }
    None
}

/// The first machine that prunes a child by the released bound: whose released bound there reaches a value. It goes
/// by the lags of the jobs left.
#[inline(never)]
fn pruning_of_child_released(
    here: &Frame,
    setting: &Setting,
    lags: &LeastLags,
    job: u16,
    value: u64,
) -> Option<u16>
    requires at { (node : List ℕ) × (left : ℕ) × IsFrame (shop_of setting.now) node (suc (suc left)) here.now
        × IsChild (shop_of setting.now).jobs node job
        × AreLeastLags (shop_of setting.now) (jobs_left (shop_of setting.now).jobs node) lags.now }
    ensures { (node : List ℕ) (left : ℕ) → IsFrame (shop_of setting.now) node (suc (suc left)) here.now →
        IsChild (shop_of setting.now).jobs node job →
        AreLeastLags (shop_of setting.now) (jobs_left (shop_of setting.now).jobs node) lags.now →
        result ≡ first_reaching (shop_of setting.now) value
        (released_bound_at (shop_of setting.now) (node ++ job ∷ [])) }
{
    let row = &setting.rows[job as usize - 1];
    let mut free = [0u32; MAX_MACHINES];
    let mut leaves = 0;
    for machine in 1..setting.instance.machines() + 1 {
        let place = machine as usize - 1;
        let start = here.front.at(machine).max(leaves);
        let time = u64::from(row.times[place]);
        let tail = tail_without(here, machine, row.tails[place]);
        let work = u64::from(here.loads.sum(machine)) + u64::from(tail);
        // The released bound is at least the machine bound.
        if value <= start + work {
            return Some(machine);
        }
        leaves = start + time;
        free[place] = leaves as u32;
        let release = u64::from(release_at_child(row, &lags[place], &free, machine));
        if value <= release - time + work {
            return Some(machine);
        }
    }
    None
}

/// The first machine that prunes a child: whose bound there, which is that of the version, reaches the makespan of the
/// incumbent.
#[inline(always)]
pub fn pruning_of_child(
    setting: &Setting,
    here: &Frame,
    lags: &LeastLags,
    job: u16,
    search: &SearchState,
) -> Option<u16>
    requires at { (left : ℕ) × StandsAt setting.now search.now here.now.front (suc (suc left))
        × HasFrame setting.now search.now here.now (suc (suc left)) }
    requires lags { HasLags setting.now search.now.unscheduled lags.now }
    requires job { IsJobIn (shop_of setting.now) search.now.unscheduled job }
    ensures { result ≡ pruned_at setting.now search.now.value (search.now.node.items ++ job ∷ []) }
{
    if has_releases(setting.version) {
        pruning_of_child_released(here, setting, lags, job, search.value)
    } else {
        pruning_of_child_plain(here, setting, job, search.value)
    }
}
