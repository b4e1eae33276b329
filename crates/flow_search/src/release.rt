//! Releases at a node with more than eight jobs left, and at its children.

ghost use Rattle.std.specs.Prelude.{◌≡◌, ℕ, ◌+◌, ◌-◌, ◌*◌, ◌<◌, ◌≤◌, List, [], ◌∷◌, ◌++◌, length, slice_index};
ghost use Rattle.flow_limits.specs.Limits.{most_machines, greatest_time, greatest_completion};
ghost use Rattle.flow_shop.specs.Shop.{Shop};
ghost use Rattle.flow_shop.specs.Front.{IsWithinFront};
ghost use Rattle.flow_shop.specs.JobSet.{members};
ghost use Rattle.flow_shop.specs.Bound.{release, released_bound};
ghost use Rattle.flow_shop.specs.Sequences.{jobs_left};
ghost use Rattle.flow_bound.specs.Loads.{AreLoadsOf};
ghost use Rattle.flow_search.specs.Search.{first_reaching};
ghost use Rattle.flow_shop.specs.JobSet.{IsSetOf};
ghost use Rattle.flow_search.specs.internal.Lags.{IsLagged};
ghost use Rattle.flow_search.specs.internal.Settings.{shop_of};

use crate::setting::Setting;
use crate::tails_and_lags::least_lags;
use flow_bound::{Loads, release_from_lags};
use flow_limits::MAX_MACHINES;
use flow_shop::{Front, JobSet, LeastPairs, Row};

/// The first machine that prunes a node by the released bound: whose released bound there reaches a value.
pub fn pruning_of_node_released(
    setting: &Setting,
    loads: &Loads,
    front: &Front,
    set: &JobSet,
    value: u64,
) -> Option<u16>
    requires jobs { IsSetOf (shop_of setting.now) set.now }
    requires some { 0 < length (members set.now) }
    requires loads { AreLoadsOf (shop_of setting.now) (members set.now) loads.now }
    requires within { IsWithinFront (shop_of setting.now) front.now }
    ensures { result ≡ first_reaching (shop_of setting.now) value
        (released_bound (shop_of setting.now) front.now (members set.now)) }
{
    for machine in 1..setting.instance.machines() + 1 {
        let lags = least_lags(setting, set, machine);
        let release = release_from_lags(front, &lags.least, machine);
        if value <= release + u64::from(loads.sum(machine)) + u64::from(loads.tail(machine)) {
            return Some(machine);
        }
    }
    None
}

/// The release of a machine at a child, by when its job leaves the machines up to this one, its row, and the two least
/// lags of the node's jobs to the machine.
#[inline(always)]
pub fn release_at_child(
    row: &Row,
    lags: &LeastPairs,
    free: &[u32; MAX_MACHINES],
    machine: u16,
) -> u32
    requires from { 1 ≤ machine }
    requires child { (shop : Shop) × (node : List ℕ) × (left : ℕ) × (job : ℕ) ×
        IsLagged shop node left job machine row.now lags.now }
    requires small { (place : ℕ) → place < machine →
        slice_index free.now place ≤ greatest_completion + most_machines * greatest_time }
    ensures least { slice_index free.now (machine - 1) ≤ result }
    ensures limit { result ≤ greatest_completion + 2 * most_machines * greatest_time }
    ensures value { (shop : Shop) (node front : List ℕ) (left job : ℕ) →
        IsLagged shop node left job machine row.now lags.now →
        ((place : ℕ) → place < machine → slice_index free.now place ≡ slice_index front place) →
        result ≡ release shop front (jobs_left shop.jobs (node ++ job ∷ [])) machine }
{
    let mut made = free[machine as usize - 1];
    for earlier in 1..machine {
        let place = earlier as usize - 1;
        let least = lags.at(place).without(row.lag(earlier, machine));
        made = made.max(free[place] + least);
    }
    made
}
