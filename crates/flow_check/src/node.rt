//! The nodes of the trees: what is kept of a list of jobs, and the machine bounds.

ghost use Rattle.std.specs.Prelude.{◌≡◌, ◌≢◌, ℕ, ◌+◌, ◌*◌, ◌≤◌, ◌<◌, List, [], ◌∷◌, ◌++◌, suc, false};
ghost use Rattle.std.specs.Prelude.{length, slice_index};
ghost use Rattle.flow_shop.specs.Limits.{greatest_time, greatest_completion, most_machines};
ghost use Rattle.flow_shop.specs.Paths.{completion};
ghost use Rattle.flow_shop.specs.Front.{IsFrontOf, IsWithinFront};
ghost use Rattle.flow_shop.specs.Sequences.{has};
ghost use Rattle.flow_shop.specs.Bound.{bound_at};
ghost use Rattle.flow_shop.specs.TwoLeast.{least_of_none};
ghost use Rattle.flow_check.specs.internal.Links.{AreLinks};
ghost use Rattle.flow_check.specs.internal.Nodes.{IsListNode, IsAt, AreTwoLeastTails, IsChild};
ghost use Rattle.flow_nodes.specs.Nodes.{IsMachine, IsJob};
ghost use Rattle.flow_check.specs.internal.Nodes.{grown, left_before};

use crate::trees_text::TreesText;
use flow_limits::MAX_MACHINES;
use flow_nodes::time_of_all;
use flow_shop::{Instance, LeastPairs, TwoLeast};

/// What is kept of a list of jobs. The machine bounds of the list and of its children are computed from it. A job's
/// tail after a machine is its time on all later machines. The two least tails after a machine are found when the
/// first bound asks for them.
#[derive(Clone, Copy)]
pub(crate) struct ListNode {
    /// The completion time of the list on each machine.
    pub(crate) front: [u64; MAX_MACHINES],
    /// For each machine the sum of the times of the jobs left.
    work: [u64; MAX_MACHINES],
    /// The two least tails of the jobs left after each machine. Where the least is the greatest number, they are not
    /// found yet. The child that takes the job with the least tail needs the second.
    tails: LeastPairs,
}

impl ListNode {
    /// The empty list.
    pub(crate) fn root(instance: &Instance) -> Self
        ensures { IsListNode instance.now [] result instance.now.jobs }
    {
        let machines = instance.machines();
        let mut work = [0; MAX_MACHINES];
        for machine in 1..machines + 1 {
            work[machine as usize - 1] = u64::from(time_of_all(instance, machine));
        }
        ListNode {
            front: [0; MAX_MACHINES],
            work,
            tails: LeastPairs::none(),
        }
    }

    /// Becomes the node of the child that has this job at its end, where `list` is the node of the list. Only the
    /// instance's machines are written.
    pub(crate) fn become_child(&mut self, text: &TreesText, list: &ListNode, job: u16)
        requires at { (jobs : List ℕ) × (left : ℕ) × IsListNode text.now.shop.now jobs list.now left
            × (has jobs job ≡ false) }
        requires job { IsJob text.now.shop.now job }
        ensures { (jobs : List ℕ) (left : ℕ) → IsListNode text.now.shop.now jobs list.now (suc left) →
            has jobs job ≡ false →
            IsListNode text.now.shop.now (jobs ++ job ∷ []) self.new left }
    {
        let row = &text.rows[job as usize - 1];
        let machines = text.shop.machines();
        let mut free = 0;
        for machine in 1..machines + 1 {
            let place = machine as usize - 1;
            let time = u64::from(row.times[place]);
            free = list.front[place].max(free) + time;
            self.front[place] = free;
            self.work[place] = list.work[place] - time;
            forget_tails(&mut self.tails, place);
        }
    }
}

/// Forgets the tails at a place, so that they are found anew. The second least is not written.
#[inline(always)]
fn forget_tails(tails: &mut LeastPairs, place: usize)
    requires { place < most_machines }
    ensures least_size { length tails.new.least ≡ most_machines }
    ensures second_size { length tails.new.second ≡ most_machines }
    ensures none { slice_index tails.new.least place ≡ least_of_none }
    ensures others { (other : ℕ) → other ≢ place →
        slice_index tails.new.least other ≡ slice_index tails.old.least other }
{
    tails.least[place] = u32::MAX;
}

/// The completion time of a child on a machine, from the front of the list and the job at the child's end.
fn completion_of(text: &TreesText, front: &[u64; MAX_MACHINES], job: u16, machine: u16) -> u64
    requires job { IsJob text.now.shop.now job }
    requires machine_to { machine ≤ text.now.shop.now.machines }
    requires within { IsWithinFront text.now.shop.now front.now }
    ensures value { (list : List ℕ) → IsFrontOf text.now.shop.now list front.now →
        result ≡ completion text.now.shop.now (list ++ job ∷ []) machine }
    ensures small { result ≤ greatest_completion + machine * greatest_time }
{
    let row = &text.rows[job as usize - 1];
    let mut free = 0;
    for earlier in 1..machine + 1 {
        let place = earlier as usize - 1;
        free = front[place].max(free) + u64::from(row.times[place]);
    }
    free
}

/// Finds the two least tails of the jobs left after a machine.
fn find_tails(text: &TreesText, links: &[u16], machine: u16) -> TwoLeast
    requires links { (list : List ℕ) × AreLinks text.now.shop.now.jobs list links.now }
    requires machine { IsMachine text.now.shop.now machine }
    ensures { (list : List ℕ) → AreLinks text.now.shop.now.jobs list links.now →
        AreTwoLeastTails text.now.shop.now list machine result }
{
    let place = machine as usize - 1;
    let mut two = TwoLeast::none();
    let mut last = 0;
    'jobs: loop {
        let job = links[last as usize];
        if job == 0 {
            return two;
        }
        let tail = text.rows[job as usize - 1].tails[place];
        two = two.with(tail);
        last = job;
    }
}

/// The two least tails of the jobs left after a machine: those that the node keeps, or else they are found and kept.
fn tails_of(text: &TreesText, node: &mut ListNode, links: &[u16], machine: u16) -> TwoLeast
    requires at { (list : List ℕ) × (left : ℕ) × IsAt text.now.shop.now list node.old links.now left }
    requires machine { IsMachine text.now.shop.now machine }
    ensures tails { (list : List ℕ) (left : ℕ) → IsAt text.now.shop.now list node.old links.now left →
        AreTwoLeastTails text.now.shop.now list machine result }
    ensures kept { (list : List ℕ) (left : ℕ) → IsAt text.now.shop.now list node.old links.now left →
        IsAt text.now.shop.now list node.new links.now left }
{
    let place = machine as usize - 1;
    let known = node.tails.at(place);
    if known.least != u32::MAX {
        return known;
    }
    let two = find_tails(text, links, machine);
    node.tails.least[place] = two.least;
    node.tails.second[place] = two.second;
    two
}

/// The completion time of a list, or of a child of it, on the last machine.
pub(crate) fn makespan_at(text: &TreesText, node: &ListNode, child: Option<u16>) -> u64
    requires at { (list : List ℕ) × (left : ℕ) × IsListNode text.now.shop.now list node.now left
        × IsChild text.now.shop.now.jobs list child }
    ensures { (list : List ℕ) (left : ℕ) → IsListNode text.now.shop.now list node.now left →
        result ≡ completion text.now.shop.now (grown list child) text.now.shop.now.machines }
{
    let machines = text.shop.machines();
    match child {
        None => node.front[machines as usize - 1],
        Some(job) => completion_of(text, &node.front, job, machines),
    }
}

/// The machine bound of a list, or of a child of it, where jobs are left.
pub(crate) fn bound(
    text: &TreesText,
    node: &mut ListNode,
    links: &[u16],
    child: Option<u16>,
    machine: u16,
) -> u64
    requires at { (list : List ℕ) × (left : ℕ)
        × IsAt text.now.shop.now list node.old links.now (left_before child (suc left))
        × IsChild text.now.shop.now.jobs list child }
    requires machine { IsMachine text.now.shop.now machine }
    ensures kept { (list : List ℕ) (left : ℕ) → IsAt text.now.shop.now list node.old links.now left →
        IsAt text.now.shop.now list node.new links.now left }
    ensures value { (list : List ℕ) (left : ℕ) →
        IsAt text.now.shop.now list node.old links.now (left_before child (suc left)) →
        IsChild text.now.shop.now.jobs list child →
        result ≡ bound_at text.now.shop.now (grown list child) machine }
{
    let two = tails_of(text, node, links, machine);
    let place = machine as usize - 1;
    match child {
        None => node.front[place] + node.work[place] + u64::from(two.least),
        Some(job) => {
            let row = &text.rows[job as usize - 1];
            let tail = two.without(row.tails[place]);
            let work = node.work[place] - u64::from(row.times[place]);
            completion_of(text, &node.front, job, machine) + work + u64::from(tail)
        }
    }
}
