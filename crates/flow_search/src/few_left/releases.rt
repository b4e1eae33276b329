//! The children of a node, side by side: the machines that prune them by their released bounds.

ghost use Rattle.std.specs.Prelude.{◌≡◌, ◌≢◌, ℕ, ◌+◌, ◌*◌, ◌<◌, ◌≤◌, List, slice_index};
ghost use Rattle.flow_limits.specs.Limits.{most_machines, greatest_time, greatest_completion};
ghost use Rattle.flow_shop.specs.Sequences.{jobs_left};
ghost use Rattle.flow_shop.specs.Bound.{bound_at, released_bound_at, release, front_of};
ghost use Rattle.flow_search.specs.internal.Columns.{IsOpened, IsTested, IsUnprunedCount, IsColumnLeft, KeepsColumns};
ghost use Rattle.flow_search.specs.internal.Columns.{AreSmallFrees, child, most_columns};
ghost use Rattle.flow_search.specs.declared.few_left.group.TheConstants.{GONE};

use crate::few_left::group::{COLUMNS, ColumnFrame, Group};
use crate::few_left::vectors::{
    are_zeros, differences, greater, others, sums, where_greater, where_less,
};
use flow_shop::Instance;

/// Computes for each child the release of the machine at a place, before which no job that the child leaves starts
/// there. It stands in memory, since the compiler packs the columns of a loop that stores them.
#[inline(always)]
fn releases(
    instance: &Instance,
    group: &Group,
    frame: &ColumnFrame,
    place: usize,
    late: &mut [u32; COLUMNS],
)
    requires opened { (list : List ℕ) × IsOpened instance.now list group.now frame.now }
    requires small { AreSmallFrees instance.now frame.now }
    requires to { place < instance.now.machines }
    ensures small { (column : ℕ) → column < most_columns → slice_index late.new column
        ≤ greatest_completion + most_machines * greatest_time + greatest_time + GONE }
    ensures each { (list : List ℕ) (column other : ℕ) → IsOpened instance.now list group.now frame.now →
        IsColumnLeft frame.now column → IsColumnLeft frame.now other → other ≢ column → slice_index late.new column
        ≡ release instance.now (front_of instance.now (child list group.now column))
        (jobs_left instance.now.jobs (child list group.now column)) (place + 1) }
{
    prove!(place < instance.machines() as usize);
    let here = &group.rows[place];
    let needs = sums(&here.time, &here.tail);
    *late = frame.free[place];
    for earlier in 0..place {
        let row = &group.rows[earlier];
        let between = differences(&sums(&row.time, &row.tail), &needs);
        let least = others(&greater(&between, &frame.gone));
        *late = greater(late, &sums(&frame.free[earlier], &least));
    }
}

/// For each child, how many machines there are before the first whose released bound reaches the value against which
/// the machine bounds were tested. They are never more than the machines before the first whose machine bound reaches
/// it, since no released bound is less than the machine bound.
/// What `late` holds does not matter.
#[inline(never)]
fn unpruned_by_releases(
    instance: &Instance,
    group: &Group,
    frame: &ColumnFrame,
    late: &mut [u32; COLUMNS],
) -> [u32; COLUMNS]
    requires tested { (list : List ℕ) × IsTested instance.now bound_at list group.now frame.now }
    requires small { AreSmallFrees instance.now frame.now }
    ensures { (list : List ℕ) (column other : ℕ) → IsTested instance.now bound_at list group.now frame.now →
        IsColumnLeft frame.now column → IsColumnLeft frame.now other → other ≢ column →
        IsUnprunedCount instance.now released_bound_at (child list group.now column) frame.now.value
        instance.now.machines (slice_index result column) }
{
    // No bound is so great.
    let limit = frame.value.min(u64::from(u32::MAX)) as u32;
    let mut flags = where_less(&[1u32; COLUMNS], &frame.gone, 1);
    let mut unpruned = [0u32; COLUMNS];
    for place in 0..instance.machines() as usize {
        let still = where_greater(&flags, &frame.unpruned, place as u32);
        if are_zeros(&still) {
            return unpruned;
        }
        let row = &group.rows[place];
        let room = limit.saturating_sub(frame.sum[place]);
        releases(instance, group, frame, place, late);
        let start = differences(late, &row.time);
        let behind = others(&greater(&row.tail, &frame.gone));
        flags = where_less(&still, &sums(&start, &behind), room);
        unpruned = sums(&unpruned, &flags);
    }
    unpruned
}

/// Computes how many machines there are before the first whose released bound reaches the value against which the
/// children's machine bounds were tested.
pub fn test_releases(instance: &Instance, group: &Group, frame: &mut ColumnFrame)
    requires tested { (list : List ℕ) × IsTested instance.now bound_at list group.now frame.old }
    requires small { AreSmallFrees instance.now frame.old }
    ensures kept { KeepsColumns frame.old frame.new }
    ensures value { frame.new.value ≡ frame.old.value }
    ensures tested { (list : List ℕ) → IsTested instance.now bound_at list group.now frame.old →
        IsTested instance.now released_bound_at list group.now frame.new }
{
    let mut late = [0u32; COLUMNS];
    frame.unpruned = unpruned_by_releases(instance, group, frame, &mut late);
}
