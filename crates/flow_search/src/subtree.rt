//! How the subtree of a prefix is searched.

ghost use Rattle.std.specs.Prelude.{◌≡◌, suc, ◌<◌, ◌≤◌, true, false, [], ◌∷◌, ◌++◌, length, find, Ok, Err, None, OnOk};
ghost use Rattle.flow_limits.specs.Limits.{most_jobs};
ghost use Rattle.flow_shop.specs.Shop.{numbers};
ghost use Rattle.flow_shop.specs.JobSet.{contains};
ghost use Rattle.flow_search.specs.internal.Columns.{most_columns};
ghost use Rattle.flow_search.specs.internal.Jobs.{IsJobIn};
ghost use Rattle.flow_search.specs.internal.Nodes.{Gave, Opens};
ghost use Rattle.flow_search.specs.internal.Settings.{shop_of, pruning_bound, pruned_at, StandsAt, HasFrame, HasLags};
ghost use Rattle.flow_search.specs.internal.Settings.{node_walk, children_walk, child_walk, IsTooLong};

use crate::bounds::{pruning_of_child, pruning_of_node};
use crate::budget::SearchFault;
use crate::few_left::{ColumnMemory, FEW, walk_few};
use crate::frame::Frame;
use crate::setting::Setting;
use crate::state::SearchState;
use crate::tails_and_lags::{LeastLags, renew_lags};
use flow_bound::Loads;
use flow_limits::MAX_MACHINES;
use flow_shop::{Front, JobSet, LeastPairs, front_push};

/// The first job of a set from one job to another.
fn first_of(set: &JobSet, from: u16, last: u16) -> Option<u16>
    requires from { 1 ≤ from }
    requires to { last ≤ most_jobs }
    ensures { result ≡ find (contains set.now) (numbers from last) }
{
    for job in from..last + 1 {
        if set.contains(job) {
            return Some(job);
        }
    }
    None
}

/// Walks the subtree of a child that no bound prunes and that leaves one to eight jobs. The front is the node's.
fn walk_small(
    setting: &Setting,
    mut front: Front,
    job: u16,
    left: u16,
    columns: &mut ColumnMemory,
    search: &mut SearchState,
) -> Result<(), SearchFault>
    requires at { StandsAt setting.now search.old front (suc left) }
    requires job { IsJobIn (shop_of setting.now) search.old.unscheduled job }
    requires some { 1 ≤ left }
    requires few { left ≤ most_columns }
    requires unpruned { pruned_at setting.now search.old.value (search.old.node.items ++ job ∷ []) ≡ None }
    ensures done { OnOk result (Gave setting.now.budget (child_walk setting.now left job search.old)
        search.old search.new) }
    ensures over { result ≡ Err SearchFault.OverBudget →
        IsTooLong setting.now (child_walk setting.now left job search.old) search.old }
{
    search.enter(job)?;
    search.write(setting.budget, b'+')?;
    front_push(setting.instance, &mut front, job);
    walk_few(setting, &front, left, columns, search)?;
    search.leave(job);
    Ok(())
}

/// Begins the walk of a child that leaves eight jobs or more: true for a plus, where its children follow, and false
/// where its subtree is walked.
fn visit(
    setting: &Setting,
    here: &Frame,
    lags: &LeastLags,
    job: u16,
    left: u16,
    columns: &mut ColumnMemory,
    search: &mut SearchState,
) -> Result<bool, SearchFault>
    requires at { StandsAt setting.now search.old here.now.front (suc left) }
    requires frame { HasFrame setting.now search.old here.now (suc left) }
    requires lags { HasLags setting.now search.old.unscheduled lags.now }
    requires job { IsJobIn (shop_of setting.now) search.old.unscheduled job }
    requires many { most_columns ≤ left }
    ensures whole { result ≡ Ok false →
        Gave setting.now.budget (child_walk setting.now left job search.old) search.old search.new }
    ensures opens { result ≡ Ok true →
        Opens (shop_of setting.now) (pruning_bound setting.now) setting.now.budget job search.old search.new }
    ensures more { result ≡ Ok true → most_columns < left }
    ensures over { result ≡ Err SearchFault.OverBudget →
        IsTooLong setting.now (child_walk setting.now left job search.old) search.old }
{
    if let Some(machine) = pruning_of_child(setting, here, lags, job, search) {
        search.write(setting.budget, b'@' + machine as u8)?;
        return Ok(false);
    }
    if left == FEW {
        walk_small(setting, here.front, job, left, columns, search)?;
        return Ok(false);
    }
    search.write(setting.budget, b'+')?;
    Ok(true)
}

/// Walks the children of the node where the search stands, each with so many jobs left there, eight or more.
fn walk_children(
    setting: &Setting,
    mut here: Frame,
    mut left: u16,
    columns: &mut ColumnMemory,
    search: &mut SearchState,
    mut stack: Vec<Frame>,
) -> Result<(), SearchFault>
    requires at { StandsAt setting.now search.old here.front (suc left) }
    requires frame { HasFrame setting.now search.old here (suc left) }
    requires next { here.next ≡ 1 }
    requires many { most_columns ≤ left }
    requires empty { stack.items ≡ [] }
    requires within { length search.old.tree.items ≤ setting.now.budget }
    ensures done { OnOk result (Gave setting.now.budget (children_walk setting.now left search.old)
        search.old search.new) }
    ensures over { result ≡ Err SearchFault.OverBudget →
        IsTooLong setting.now (children_walk setting.now left search.old) search.old }
{
    let instance = setting.instance;
    let jobs = instance.jobs();
    let mut lags = [LeastPairs::none(); MAX_MACHINES];
    renew_lags(setting, &search.unscheduled, &mut lags);
    'walk: loop {
        let Some(job) = first_of(&search.unscheduled, here.next, jobs) else {
            let Some(parent) = stack.pop() else {
                return Ok(());
            };
            search.leave(parent.next - 1);
            here = parent;
            left += 1;
            renew_lags(setting, &search.unscheduled, &mut lags);
            continue 'walk;
        };
        here.next = job + 1;
        if visit(setting, &here, &lags, job, left, columns, search)? {
            search.enter(job)?;
            let loads = here.loads.step(instance, &search.unscheduled, job);
            let mut front = here.front;
            front_push(instance, &mut front, job);
            stack.push(here)?;
            here = Frame::new(setting, front, loads, &search.unscheduled);
            left -= 1;
            renew_lags(setting, &search.unscheduled, &mut lags);
        }
    }
}

/// Walks the subtree of the node where the search stands, with so many jobs left. What the columns hold before does not
/// matter.
pub fn explore(
    setting: &Setting,
    front: &Front,
    count: u16,
    columns: &mut ColumnMemory,
    search: &mut SearchState,
    stack: Vec<Frame>,
) -> Result<(), SearchFault>
    requires at { StandsAt setting.now search.old front.now count }
    requires empty { stack.items ≡ [] }
    ensures done { OnOk result (Gave setting.now.budget (node_walk setting.now count search.old)
        search.old search.new) }
    ensures over { result ≡ Err SearchFault.OverBudget →
        IsTooLong setting.now (node_walk setting.now count search.old) search.old }
{
    let instance = setting.instance;
    if count == 0 {
        search.write(setting.budget, b'.')?;
        search.see(front.at(instance.machines()))?;
        return Ok(());
    }
    let loads = Loads::of(instance, &search.unscheduled);
    if let Some(machine) = pruning_of_node(
        setting,
        &loads,
        front,
        &search.unscheduled,
        search.value,
    ) {
        search.write(setting.budget, b'@' + machine as u8)?;
        return Ok(());
    }
    search.write(setting.budget, b'+')?;
    if count <= FEW {
        return walk_few(setting, front, count, columns, search);
    }
    let here = Frame::new(setting, *front, loads, &search.unscheduled);
    walk_children(setting, here, count - 1, columns, search, stack)
}
