//! The walk of a subtree with at most eight jobs left.

ghost use Rattle.std.specs.Prelude.{◌≡◌, ◌+◌, ◌-◌, ◌≤◌, suc, true, false, length, filter, take, OnOk};
ghost use Rattle.flow_shop.specs.Shop.{numbers};
ghost use Rattle.flow_shop.specs.JobSet.{contains};
ghost use Rattle.flow_search.specs.internal.Nodes.{Gave, Opens};
ghost use Rattle.flow_search.specs.internal.Columns.{IsTested, IsColumnLeft, job_of, most_columns};
ghost use Rattle.flow_search.specs.internal.ColumnWalks.{frame_at};
ghost use Rattle.flow_search.specs.internal.Settings.{shop_of, pruning_bound, StandsAt};
ghost use Rattle.flow_search.specs.internal.Settings.{children_walk, child_walk, IsTooLong};

use crate::budget::SearchFault;
use crate::few_left::children::{open_child, retest_children, test_children};
use crate::few_left::entry::enter_few;
use crate::few_left::group::{COLUMNS, ColumnFrame, ColumnMemory, Group};
use crate::setting::Setting;
use crate::state::SearchState;
use flow_shop::{Front, Instance, JobSet};

/// The jobs of a set, at most eight, in increasing order, from the first place on.
fn jobs_of(instance: &Instance, set: &JobSet, left: usize) -> [u16; COLUMNS]
    requires few { left ≤ most_columns }
    requires count { length (filter (contains set.now) (numbers 1 instance.now.jobs)) ≡ left }
    ensures { take left result ≡ filter (contains set.now) (numbers 1 instance.now.jobs) }
{
    let mut made = [0u16; COLUMNS];
    let mut count = 0;
    for job in 1..instance.jobs() + 1 {
        if count == left {
            return made;
        }
        if set.contains(job) {
            made[count] = job;
            count += 1;
        }
    }
    made
}

/// Begins the walk of a column's child, with so many jobs left there: true for a plus, where its children follow, and
/// false where its subtree is walked.
fn visit_column(
    setting: &Setting,
    group: &Group,
    frame: &ColumnFrame,
    column: usize,
    left: usize,
    search: &mut SearchState,
) -> Result<bool, SearchFault>
    requires tested { IsTested (shop_of setting.now) (pruning_bound setting.now)
        search.old.node.items group.now frame.now }
    requires value { frame.now.value ≡ search.old.value }
    requires left { IsColumnLeft frame.now column }
    requires count { length search.old.node.items + suc left ≡ (shop_of setting.now).jobs }
    ensures whole { result ≡ Ok false →
        Gave setting.now.budget (child_walk setting.now left (job_of group.now column) search.old)
        search.old search.new }
    ensures opens { result ≡ Ok true → Opens (shop_of setting.now) (pruning_bound setting.now)
        setting.now.budget (job_of group.now column) search.old search.new }
    ensures more { result ≡ Ok true → 1 ≤ left }
    ensures over { result ≡ Err SearchFault.OverBudget →
        IsTooLong setting.now (child_walk setting.now left (job_of group.now column) search.old) search.old }
{
    let machines = setting.instance.machines() as usize;
    if left == 0 {
        search.write(setting.budget, b'.')?;
        search.node.push(group.jobs[column])?;
        search.see(u64::from(frame.free[machines - 1][column]))?;
        search.node.pop();
        return Ok(false);
    }
    let unpruned = frame.unpruned[column];
    if unpruned < machines as u32 {
        search.write(setting.budget, b'A' + unpruned as u8)?;
        return Ok(false);
    }
    search.write(setting.budget, b'+')?;
    Ok(true)
}

/// Walks the subtrees of the children of the first frame's node, in increasing order of their jobs, with a frame for
/// each job left.
fn walk_columns(
    setting: &Setting,
    group: &Group,
    frames: &mut [ColumnFrame],
    search: &mut SearchState,
) -> Result<(), SearchFault>
    requires tested { IsTested (shop_of setting.now) (pruning_bound setting.now)
        search.old.node.items group.now (frame_at frames.old 0) }
    requires next { (frame_at frames.old 0).next ≡ 0 }
    requires some { 1 ≤ length frames.old }
    requires few { length frames.old ≤ most_columns }
    requires count { length search.old.node.items + length frames.old ≡ (shop_of setting.now).jobs }
    requires within { length search.old.tree.items ≤ setting.now.budget }
    ensures done { OnOk result (Gave setting.now.budget (children_walk setting.now (length frames.old - 1) search.old)
        search.old search.new) }
    ensures over { result ≡ Err SearchFault.OverBudget →
        IsTooLong setting.now (children_walk setting.now (length frames.old - 1) search.old) search.old }
{
    let instance = setting.instance;
    let left = frames.len();
    let mut depth = 0;
    'walk: loop {
        let place = frames[depth].next;
        if place >= left - depth {
            if depth == 0 {
                return Ok(());
            }
            search.node.pop();
            depth -= 1;
            continue 'walk;
        }
        let frame = &mut frames[depth];
        let column = frame.columns[place] as usize;
        retest_children(setting, group, frame, search.value);
        frame.next = place + 1;
        if visit_column(setting, group, frame, column, left - 1 - depth, search)? {
            let (upper, lower) = frames.split_at_mut(depth + 1);
            let made = &mut lower[0];
            open_child(instance, group, &upper[depth], made, place);
            test_children(setting, group, made, search.value);
            search.node.push(group.jobs[column])?;
            depth += 1;
        }
    }
}

/// Walks the subtrees of the children of the node where the search stands, with one to eight jobs left. What the
/// columns hold before does not matter.
pub fn walk_few(
    setting: &Setting,
    front: &Front,
    count: u16,
    columns: &mut ColumnMemory,
    search: &mut SearchState,
) -> Result<(), SearchFault>
    requires at { StandsAt setting.now search.old front.now count }
    requires from { 1 ≤ count }
    requires to { count ≤ most_columns }
    requires within { length search.old.tree.items ≤ setting.now.budget }
    ensures done { OnOk result (Gave setting.now.budget (children_walk setting.now (count - 1) search.old)
        search.old search.new) }
    ensures over { result ≡ Err SearchFault.OverBudget →
        IsTooLong setting.now (children_walk setting.now (count - 1) search.old) search.old }
{
    let instance = setting.instance;
    let left = count as usize;
    let jobs = jobs_of(instance, &search.unscheduled, left);
    let group = &mut columns.group;
    let frames = &mut columns.frames[..];
    let first = &mut frames[0];
    enter_few(instance, front, &jobs[..left], group, first);
    test_children(setting, group, first, search.value);
    walk_columns(setting, group, &mut frames[..left], search)
}
