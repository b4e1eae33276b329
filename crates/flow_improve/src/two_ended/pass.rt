//! A pass: from the node at which all jobs are left, list by list to nodes at which none is.

ghost use Rattle.std.specs.Prelude.{◌≡◌, ◌<◌, min, take, vec_len, IfOk, IfSome, IfNone};
ghost use Rattle.flow_shop.specs.Rows.{AreRows};
ghost use Rattle.flow_shop.specs.Sequences.{IsSequence};
ghost use Rattle.flow_improve.specs.internal.Beams.{ArePasses, HasBounds, HasLeastBound, IsEntry};

use crate::deadline::Deadline;
use crate::two_ended::best_children::{BestChildren, Child};
use crate::two_ended::bounds::ChildBounds;
use crate::two_ended::child_order::{ChildOrder, Mode};
use crate::two_ended::entry::{Entry, copies};
use flow_nodes::{Vector, groups};
use flow_shop::{End, Instance, Row};
use std::alloc::{AllocError, Global};
use std::mem;

/// What a pass goes by.
#[derive(Clone, Copy)]
pub(crate) struct PassPlan {
    /// The most nodes of a list.
    pub(crate) width: u32,
    pub(crate) mode: Mode,
    /// A node is opened at the end where fewer children are below this threshold, and then where their bounds sum to
    /// more. No child is below 0: then the sum alone decides.
    pub(crate) fewer: u64,
    /// Children are kept whose bound is below this threshold.
    pub(crate) below: u64,
}

impl PassPlan {
    /// The same pass over children below a threshold too.
    pub(crate) fn at_most(&self, threshold: u64) -> PassPlan
        ensures { result ≡ record {
          width = self.now.width;
          mode = self.now.mode;
          fewer = self.now.fewer;
          below = min self.now.below threshold;
        } }
    {
        PassPlan {
            width: self.width,
            mode: self.mode,
            fewer: self.fewer,
            below: self.below.min(threshold),
        }
    }
}

/// What passes compute in. It is made once for all passes.
#[derive(Drop)]
pub(crate) struct Passes<V> {
    rows: Vec<Row>,
    /// The greatest time of a job on a machine.
    greatest: u32,
    groups: Vec<Vec<V>>,
    bounds: ChildBounds,
    root: Entry,
    /// The list of nodes, and how many there are.
    list: Vec<Entry>,
    count: usize,
    /// Room for the next list.
    next: Vec<Entry>,
    kept: BestChildren,
    /// The steps of all passes: a node whose children are bounded takes two for each job left and machine.
    pub(crate) steps: u64,
}

/// The greatest time of a job on a machine.
pub(crate) fn greatest_time(rows: &[Row]) -> u32 {
    let mut greatest = 0;
    for row in rows {
        greatest = row
            .times
            .iter()
            .fold(greatest, |most, time| most.max(*time));
    }
    greatest
}

/// What the children of a node are offered by.
#[derive(Clone, Copy)]
struct Offers {
    order: ChildOrder,
    /// Children are offered whose bound is below this threshold.
    below: u64,
    /// The place of the node in the list.
    parent: usize,
    /// The end at which it is opened.
    end: End,
}

impl Offers {
    /// Offers the children of a node.
    fn offer(
        &self,
        instance: &Instance,
        rows: &[Row],
        entry: &Entry,
        bounds: &ChildBounds,
        kept: &mut BestChildren,
    ) -> Result<(), AllocError>
        requires rows { AreRows instance.now rows.now }
        requires entry { IsEntry instance.now entry.now }
        requires bounds { HasBounds instance.now entry.now bounds.now }
    {
        let same = self.order.kept_deficit(&entry.node, self.end);
        let mut least_dropped = self.below.min(kept.least_dropped(&self.order, same));
        for place in entry.first..entry.before {
            let bound = bounds.at(instance, entry, self.end, place);
            if u64::from(bound) >= least_dropped {
                continue;
            }
            let job = entry.jobs[place];
            let times = &rows[usize::from(job) - 1].times;
            let most = kept.most_deficit(&self.order, bound).saturating_sub(same);
            let changed = self
                .order
                .changed_deficit(&entry.node, self.end, times, most);
            kept.offer(Child {
                key: self.order.key(bound, same.wrapping_add(changed)),
                parent: self.parent,
                job,
                place: place as u16,
                at_back: self.end == End::Back,
            })?;
            least_dropped = self.below.min(kept.least_dropped(&self.order, same));
        }
        Ok(())
    }
}

impl<V: Vector> Passes<V> {
    /// Room for passes of at most this width.
    pub(crate) fn new(
        alloc: Global,
        instance: &Instance,
        rows: Vec<Row>,
        width: usize,
    ) -> Result<Passes<V>, AllocError>
        requires wide { V.WIDTH ≡ 16 }
        requires rows { AreRows instance.now rows.items }
        ensures { IfOk result (ArePasses V.list V.CAP V.WIDTH instance.now) }
    {
        let greatest = greatest_time(rows.as_slice());
        let root = Entry::root(alloc, instance)?;
        let list = copies(alloc, instance, &root, width.max(1))?;
        let next = copies(alloc, instance, &root, width.max(1))?;
        Ok(Passes {
            rows,
            greatest,
            groups: groups(alloc, instance)?,
            bounds: ChildBounds::new(V::CAP),
            root,
            list,
            count: 0,
            next,
            kept: BestChildren::new(alloc, width)?,
            steps: 0,
        })
    }

    /// Bounds the children of the node at a place of the list, and offers them.
    fn open(&mut self, instance: &Instance, plan: &PassPlan, place: usize) -> Result<(), AllocError>
        requires wide { V.WIDTH ≡ 16 }
        requires passes { ArePasses V.list V.CAP V.WIDTH instance.now self.old }
        requires place { place < self.old.count }
        ensures passes { ArePasses V.list V.CAP V.WIDTH instance.now self.new }
        ensures count { self.new.count ≡ self.old.count }
    {
        let entry = &self.list[place];
        let machines = usize::from(instance.machines());
        let steps = 2 * entry.left(instance) * machines;
        self.steps = self.steps.saturating_add(steps as u64);
        self.bounds.fill(instance, self.groups.as_slice(), entry);
        let offers = Offers {
            order: ChildOrder {
                mode: plan.mode,
                greatest: self.greatest,
                machines,
            },
            below: plan.below,
            parent: place,
            end: self.bounds.plain_end(instance, entry, plan.fewer),
        };
        let rows = self.rows.as_slice();
        offers.offer(instance, rows, entry, &self.bounds, &mut self.kept)
    }

    /// Finds the children of the list that are kept.
    fn bound_children(&mut self, instance: &Instance, plan: &PassPlan) -> Result<(), AllocError>
        requires wide { V.WIDTH ≡ 16 }
        requires passes { ArePasses V.list V.CAP V.WIDTH instance.now self.old }
        ensures { ArePasses V.list V.CAP V.WIDTH instance.now self.new }
    {
        for place in 0..self.count {
            self.open(instance, plan, place)?;
        }
        Ok(())
    }

    /// Writes a child to its place in the next list. Its job is left at its parent.
    fn write(&mut self, instance: &Instance, place: usize, child: &Child)
        requires passes { ArePasses V.list V.CAP V.WIDTH instance.now self.old }
        requires place { place < vec_len self.old.next }
        ensures passes { ArePasses V.list V.CAP V.WIDTH instance.now self.new }
        ensures count { vec_len self.new.next ≡ vec_len self.old.next }
    {
        let from = usize::from(child.place);
        if let Some(parent) = self.list.get(child.parent)
            && parent.first <= from
            && from < parent.before
        {
            let entry = &mut self.next[place];
            entry.copy_from(instance, parent);
            entry.put(instance, child.end(), from);
        }
    }

    /// Makes the children that are kept the list, in their order.
    fn turn(&mut self, instance: &Instance)
        requires passes { ArePasses V.list V.CAP V.WIDTH instance.now self.old }
        ensures { ArePasses V.list V.CAP V.WIDTH instance.now self.new }
    {
        let count = self.kept.sort().min(self.next.len());
        for place in 0..count {
            if let Some(child) = self.kept.child(place) {
                self.write(instance, place, &child);
            }
        }
        mem::swap(&mut self.list, &mut self.next);
        self.count = count;
    }

    /// A pass. Returns whether no child was dropped. Where the time is over before its end, its list has no node then.
    pub(crate) fn pass<D: Deadline>(
        &mut self,
        instance: &Instance,
        plan: &PassPlan,
        deadline: &D,
    ) -> Result<bool, AllocError>
        requires wide { V.WIDTH ≡ 16 }
        requires passes { ArePasses V.list V.CAP V.WIDTH instance.now self.old }
        ensures { ArePasses V.list V.CAP V.WIDTH instance.now self.new }
    {
        self.list[0].copy_from(instance, &self.root);
        self.count = 1;
        let mut is_whole = true;
        for _ in 0..instance.jobs() {
            if deadline.is_over() {
                self.count = 0;
                return Ok(false);
            }
            self.kept.clear(plan.width as usize);
            self.bound_children(instance, plan)?;
            self.turn(instance);
            is_whole = is_whole && !self.kept.has_dropped();
        }
        Ok(is_whole)
    }

    /// The jobs of the first node of least bound in the list, if there is one.
    pub(crate) fn least(&self, instance: &Instance) -> Option<&[u16]>
        requires passes { ArePasses V.list V.CAP V.WIDTH instance.now self.now }
        ensures each { IfSome result (λ jobs. IsSequence instance.now.jobs jobs.now) }
        ensures least { IfSome result
            (λ jobs. HasLeastBound instance.now (take self.now.count self.now.list.items) jobs.now) }
        ensures none { IfNone result (self.now.count ≡ 0) }
    {
        if self.count == 0 {
            return None;
        }
        let mut least = 0;
        let mut bound = self.list[0].node.bound(instance);
        for place in 1..self.count {
            let other = self.list[place].node.bound(instance);
            if other < bound {
                least = place;
                bound = other;
            }
        }
        Some(self.list[least].jobs.as_slice())
    }
}
