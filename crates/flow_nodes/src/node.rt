//! Nodes: the front and the back on each machine, and the time of the jobs left.

ghost use Rattle.std.specs.Prelude.{◌≡◌, ◌⊎◌, ℕ, ◌+◌, ◌-◌, ◌<◌, ◌≤◌, List, [], ◌∷◌, ◌++◌, All, map, slice_index, false};
ghost use Rattle.flow_limits.specs.Limits.{most_machines, greatest_completion, greatest_time};
ghost use Rattle.flow_shop.specs.Shop.{Shop, AreOf, numbers, time, time_between};
ghost use Rattle.flow_shop.specs.Rows.{IsRow};
ghost use Rattle.flow_shop.specs.Front.{IsWithinFront};
ghost use Rattle.flow_shop.specs.Least.{least};
ghost use Rattle.flow_shop.specs.Sequences.{has};
ghost use Rattle.flow_shop.specs.Directions.{first_with, last_with};
ghost use Rattle.flow_shop.specs.Ends.{back, end_bound, front};
ghost use Rattle.flow_nodes.specs.Groups.{IsCappedBound, child_bound};
ghost use Rattle.flow_nodes.specs.Nodes.{IsJob, IsMachine, IsNode, work};

use crate::few_groups::known_or;
use crate::scan::{back_with, front_with, work_without};
use flow_limits::MAX_MACHINES;
use flow_shop::{End, Instance, Row};

/// What is kept of a node, with machine 1 first.
#[derive(Clone, Copy, Debug, PartialEq, Eq)]
pub struct Node {
    /// The front of its first list on each machine.
    pub(crate) front: [u32; MAX_MACHINES],
    /// The back of its last list on each machine.
    pub(crate) back: [u32; MAX_MACHINES],
    /// The time of the jobs left on each machine.
    pub(crate) work: [u32; MAX_MACHINES],
}

/// The least time of a job of the instance on the machines from `first` to `last`.
fn least_between(instance: &Instance, first: u16, last: u16) -> u32
    requires from { 1 ≤ first }
    requires order { first ≤ last + 1 }
    requires to { last ≤ instance.now.machines }
    ensures { result ≡ least (map (λ job. time_between instance.now job first last) (numbers 1 instance.now.jobs)) }
{
    let jobs = instance.jobs();
    let mut least = instance.time_between(1, first, last);
    for job in 2..jobs + 1 {
        least = least.min(instance.time_between(job, first, last));
    }
    least
}

/// The time of all jobs on a machine, which is one of the instance's.
pub fn time_of_all(instance: &Instance, machine: u16) -> u32
    requires { IsMachine instance.now machine }
    ensures value { result ≡ work instance.now [] machine }
{
    let jobs = instance.jobs();
    let mut total = 0;
    for job in 1..jobs + 1 {
        total += instance.time(job, machine);
    }
    total
}

/// Puts a job behind a first list: turns the fronts of the list into those of the longer list.
#[inline(always)]
fn put_behind(instance: &Instance, fronts: &mut [u32; MAX_MACHINES], job: u16)
    requires job { IsJob instance.now job }
    requires within { IsWithinFront instance.now fronts.old }
    ensures { (first : List ℕ) → All (λ job. (1 ≤ job) × (job ≤ instance.now.jobs)) first →
        AreOf instance.now (front instance.now first) fronts.old →
        AreOf instance.now (front instance.now (first ++ job ∷ [])) fronts.new }
{
    let end = instance.machines() + 1;
    let mut free = 0;
    for machine in 1..end {
        let place = machine as usize - 1;
        free = fronts[place].max(free) + instance.time(job, machine);
        fronts[place] = free;
    }
}

/// Puts a job before a last list: turns the backs of the list into those of the longer list.
#[inline(always)]
fn put_before(instance: &Instance, backs: &mut [u32; MAX_MACHINES], job: u16)
    requires job { IsJob instance.now job }
    requires within { IsWithinFront instance.now backs.old }
    ensures { (last : List ℕ) → AreOf instance.now (back instance.now last) backs.old →
        AreOf instance.now (back instance.now (job ∷ last)) backs.new }
{
    let mut machine = instance.machines();
    let mut behind = 0;
    while machine > 0 {
        let place = machine as usize - 1;
        behind = backs[place].max(behind) + instance.time(job, machine);
        backs[place] = behind;
        machine -= 1;
    }
}

/// Takes a job from those left.
#[inline(always)]
fn take_work(instance: &Instance, works: &mut [u32; MAX_MACHINES], job: u16)
    requires job { IsJob instance.now job }
    requires covers { (machine : ℕ) → 1 ≤ machine → machine ≤ instance.now.machines →
        time instance.now job machine ≤ slice_index works.old (machine - 1) }
    ensures { (machine : ℕ) → 1 ≤ machine → machine ≤ instance.now.machines →
        slice_index works.new (machine - 1) + time instance.now job machine ≡ slice_index works.old (machine - 1) }
{
    let end = instance.machines() + 1;
    for machine in 1..end {
        let place = machine as usize - 1;
        works[place] -= instance.time(job, machine);
    }
}

impl Node {
    /// Becomes the child of a node that puts a job left at an end. The constant is the number of machines, or 0.
    #[inline(always)]
    pub fn become_child<const M: usize>(
        &mut self,
        node: &Node,
        instance: &Instance,
        end: End,
        row: &Row,
    )
        requires constant { (M ≡ 0) ⊎ (M ≡ instance.now.machines) }
        requires at { (first : List ℕ) × (last : List ℕ) × (job : ℕ) × IsNode instance.now first last node.now
            × IsJob instance.now job × (has (first ++ last) job ≡ false) × IsRow instance.now job row.now }
        ensures { (first last : List ℕ) (job : ℕ) → IsNode instance.now first last node.now →
            IsJob instance.now job → has (first ++ last) job ≡ false → IsRow instance.now job row.now →
            IsNode instance.now (first_with end first job) (last_with end last job) self.new }
    {
        let machines = known_or::<M>(usize::from(instance.machines()));
        match end {
            End::Front => {
                front_with(&node.front, row, machines, &mut self.front);
                self.back = node.back;
            }
            End::Back => {
                back_with(&node.back, row, machines, &mut self.back);
                self.front = node.front;
            }
        }
        work_without(&node.work, &row.times, machines, &mut self.work);
    }

    /// The node of two empty lists.
    pub fn root(instance: &Instance) -> Node
        ensures { IsNode instance.now [] [] result }
    {
        let machines = instance.machines();
        let mut front = [0; MAX_MACHINES];
        let mut back = [0; MAX_MACHINES];
        let mut work = [0; MAX_MACHINES];
        for machine in 1..machines + 1 {
            let place = machine as usize - 1;
            front[place] = least_between(instance, 1, machine - 1);
            back[place] = least_between(instance, machine + 1, machines);
            work[place] = time_of_all(instance, machine);
        }
        Node { front, back, work }
    }

    /// The front of its first list on each machine, with machine 1 first.
    #[inline(always)]
    pub fn fronts(&self) -> &[u32; MAX_MACHINES]
        ensures { result.now ≡ self.now.front }
    {
        &self.front
    }

    /// The back of its last list on each machine, with machine 1 first.
    #[inline(always)]
    pub fn backs(&self) -> &[u32; MAX_MACHINES]
        ensures { result.now ≡ self.now.back }
    {
        &self.back
    }

    /// Puts a job that is left at an end: makes the node its child.
    #[inline(always)]
    pub fn put(&mut self, instance: &Instance, end: End, job: u16)
        requires job { IsJob instance.now job }
        requires left { (first : List ℕ) × (last : List ℕ) × IsNode instance.now first last self.old
            × (has (first ++ last) job ≡ false) }
        ensures { (first last : List ℕ) → IsNode instance.now first last self.old →
            has (first ++ last) job ≡ false →
            IsNode instance.now (first_with end first job) (last_with end last job) self.new }
    {
        match end {
            End::Front => put_behind(instance, &mut self.front, job),
            End::Back => put_before(instance, &mut self.back, job),
        }
        take_work(instance, &mut self.work, job);
    }

    /// The bound of the node.
    pub fn bound(&self, instance: &Instance) -> u32
        requires { (first : List ℕ) × (last : List ℕ) × IsNode instance.now first last self.now }
        ensures { (first last : List ℕ) → IsNode instance.now first last self.now →
            result ≡ end_bound instance.now first last }
    {
        let machines = instance.machines();
        let mut greatest = 0;
        for machine in 1..machines + 1 {
            let place = machine as usize - 1;
            greatest = greatest.max(self.front[place] + self.work[place] + self.back[place]);
        }
        greatest
    }

    /// The bound of the child that puts a job that is left at an end.
    pub fn child_bound(&self, instance: &Instance, end: End, job: u16) -> u32
        requires job { IsJob instance.now job }
        requires left { (first : List ℕ) × (last : List ℕ) × IsNode instance.now first last self.now
            × (has (first ++ last) job ≡ false) }
        ensures { (first last : List ℕ) → IsNode instance.now first last self.now →
            has (first ++ last) job ≡ false → result ≡ child_bound instance.now end first last job }
    {
        let mut child = *self;
        child.put(instance, end, job);
        child.bound(instance)
    }

    /// The bound of the child that puts a job that is left at an end, from the lane that has this bound, or the cap
    /// where that is less.
    #[inline(always)]
    pub fn bound_from_lane(
        &self,
        instance: &Instance,
        end: End,
        job: u16,
        lane: u32,
        cap: u32,
    ) -> u32
        requires job { IsJob instance.now job }
        requires left { (first : List ℕ) × (last : List ℕ) × IsNode instance.now first last self.now
            × (has (first ++ last) job ≡ false) }
        requires lane { IsCappedBound instance.now self.now end job cap lane }
        ensures { (first last : List ℕ) → IsNode instance.now first last self.now →
            has (first ++ last) job ≡ false → result ≡ child_bound instance.now end first last job }
    {
        if lane < cap {
            lane
        } else {
            self.child_bound(instance, end, job)
        }
    }
}
