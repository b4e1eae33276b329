//! The children of a node, side by side: their fronts, and the machines that prune them.

ghost use Rattle.std.specs.Prelude.{◌≡◌, ℕ, ◌<◌, List, length, slice_index};
ghost use Rattle.flow_shop.specs.Bound.{bound_at};
ghost use Rattle.flow_search.specs.internal.Columns.{IsFrameOf, IsOpened, IsTested, KeepsColumns, AreSmallFrees};
ghost use Rattle.flow_search.specs.internal.Columns.{child, columns_of};
ghost use Rattle.flow_search.specs.internal.Settings.{shop_of, pruning_bound};

use crate::few_left::group::{COLUMNS, ColumnFrame, GONE, Group};
use crate::few_left::releases::test_releases;
use crate::few_left::vectors::{at_least, greater, others, sums, where_less, without_place};
use crate::setting::Setting;
use flow_shop::{Instance, has_releases};

/// Computes when each child leaves each machine, and how many machines there are before the first whose machine bound
/// reaches a value.
#[inline(never)]
fn test_plain(instance: &Instance, group: &Group, frame: &mut ColumnFrame, value: u64)
    requires { (list : List ℕ) × IsFrameOf instance.now list group.now frame.old }
    ensures front { frame.new.front ≡ frame.old.front }
    ensures sum { frame.new.sum ≡ frame.old.sum }
    ensures kept { KeepsColumns frame.old frame.new }
    ensures value { frame.new.value ≡ value }
    ensures small { AreSmallFrees instance.now frame.new }
    ensures tested { (list : List ℕ) → IsFrameOf instance.now list group.now frame.old →
        IsTested instance.now bound_at list group.now frame.new }
{
    let machines = instance.machines() as usize;
    // No bound is so great.
    let limit = value.min(u64::from(u32::MAX)) as u32;
    let gone = frame.gone;
    let mut free = [0u32; COLUMNS];
    let mut flags = [1u32; COLUMNS];
    let mut unpruned = [0u32; COLUMNS];
    for place in 0..machines {
        let row = &group.rows[place];
        let front = frame.front[place];
        let room = limit.saturating_sub(frame.sum[place]);
        let start = at_least(&free, front);
        let behind = others(&greater(&row.tail, &gone));
        flags = where_less(&flags, &sums(&start, &behind), room);
        unpruned = sums(&unpruned, &flags);
        free = sums(&start, &row.time);
        frame.free[place] = free;
    }
    frame.unpruned = unpruned;
    frame.value = value;
}

/// Computes when each child leaves each machine, and how many machines there are before the first whose bound reaches a
/// value. The bound is that of the version.
#[inline(always)]
pub fn test_children(setting: &Setting, group: &Group, frame: &mut ColumnFrame, value: u64)
    requires { (list : List ℕ) × IsFrameOf (shop_of setting.now) list group.now frame.old }
    ensures kept { KeepsColumns frame.old frame.new }
    ensures value { frame.new.value ≡ value }
    ensures tested { (list : List ℕ) → IsFrameOf (shop_of setting.now) list group.now frame.old →
        IsTested (shop_of setting.now) (pruning_bound setting.now) list group.now frame.new }
{
    test_plain(setting.instance, group, frame, value);
    if has_releases(setting.version) {
        test_releases(setting.instance, group, frame);
    }
}

/// Tests the children of a node again, where they were tested against another value.
#[inline(always)]
pub fn retest_children(setting: &Setting, group: &Group, frame: &mut ColumnFrame, value: u64)
    requires { (list : List ℕ) × IsTested (shop_of setting.now) (pruning_bound setting.now) list group.now frame.old }
    ensures kept { KeepsColumns frame.old frame.new }
    ensures value { frame.new.value ≡ value }
    ensures tested { (list : List ℕ) →
        IsTested (shop_of setting.now) (pruning_bound setting.now) list group.now frame.old →
        IsTested (shop_of setting.now) (pruning_bound setting.now) list group.now frame.new }
{
    if value != frame.value {
        test_children(setting, group, frame, value);
    }
}

/// Makes the node of the child in the column at a place: its front is what the test of the parent's children left.
#[inline(always)]
pub fn open_child(
    instance: &Instance,
    group: &Group,
    parent: &ColumnFrame,
    made: &mut ColumnFrame,
    place: usize,
)
    requires at { (list : List ℕ) × IsOpened instance.now list group.now parent.now }
    requires left { place < length (columns_of parent.now) }
    ensures at { (list : List ℕ) → IsOpened instance.now list group.now parent.now →
        IsFrameOf instance.now (child list group.now (slice_index parent.now.columns place)) group.now made.new }
    ensures next { made.new.next ≡ 0 }
{
    let column = parent.columns[place] as usize;
    for row in 0..instance.machines() as usize {
        made.front[row] = parent.free[row][column];
        made.sum[row] = parent.sum[row] - group.rows[row].time[column];
    }
    made.gone = parent.gone;
    made.gone[column] = GONE;
    made.columns = without_place(&parent.columns, place);
    made.next = 0;
}
