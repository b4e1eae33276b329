//! An entry of a list: a node, with the jobs of its two lists and those left.

ghost use Rattle.std.specs.Prelude.{◌≡◌, ◌<◌, ◌≤◌, vec_len, IfOk};
ghost use Rattle.flow_limits.specs.Limits.{most_jobs};
ghost use Rattle.flow_improve.specs.internal.Beams.{AreEntries, IsEntry};

use crate::list::numbers;
use flow_nodes::Node;
use flow_shop::{End, Instance};
use std::alloc::{AllocError, Global};

/// A node, and all jobs of its instance in an order: its first list, the jobs left in any order, and its last list.
#[derive(Drop)]
pub(crate) struct Entry {
    pub(crate) node: Node,
    pub(crate) jobs: Vec<u16>,
    /// How many jobs its first list has.
    pub(crate) first: usize,
    /// How many jobs stand before its last list.
    pub(crate) before: usize,
}

impl Entry {
    /// The node at which all jobs are left.
    pub(crate) fn root(alloc: Global, instance: &Instance) -> Result<Entry, AllocError>
        ensures { IfOk result (IsEntry instance.now) }
    {
        Ok(Entry {
            node: Node::root(instance),
            jobs: numbers(alloc, instance)?,
            first: 0,
            before: usize::from(instance.jobs()),
        })
    }

    /// How many jobs are left.
    pub(crate) fn left(&self, instance: &Instance) -> usize
        requires { IsEntry instance.now self.now }
        ensures { result ≤ most_jobs }
    {
        self.before - self.first
    }

    /// Another entry of the same node.
    fn copy(&self, alloc: Global, instance: &Instance) -> Result<Entry, AllocError>
        requires { IsEntry instance.now self.now }
        ensures entry { IfOk result (IsEntry instance.now) }
        ensures node { IfOk result (λ entry. entry.node ≡ self.now.node) }
        ensures jobs { IfOk result (λ entry. entry.jobs.items ≡ self.now.jobs.items) }
        ensures first { IfOk result (λ entry. entry.first ≡ self.now.first) }
        ensures before { IfOk result (λ entry. entry.before ≡ self.now.before) }
    {
        Ok(Entry {
            node: self.node,
            jobs: Vec::from_slice(alloc, self.jobs.as_slice())?,
            first: self.first,
            before: self.before,
        })
    }

    /// Becomes the same as another.
    pub(crate) fn copy_from(&mut self, instance: &Instance, other: &Entry)
        requires here { IsEntry instance.now self.old }
        requires other { IsEntry instance.now other.now }
        ensures entry { IsEntry instance.now self.new }
        ensures node { self.new.node ≡ other.now.node }
        ensures jobs { self.new.jobs.items ≡ other.now.jobs.items }
        ensures first { self.new.first ≡ other.now.first }
        ensures before { self.new.before ≡ other.now.before }
    {
        self.node = other.node;
        self.jobs
            .as_mut_slice()
            .copy_from_slice(other.jobs.as_slice());
        self.first = other.first;
        self.before = other.before;
    }

    /// Puts the job left at a place at an end: becomes the child of its node.
    pub(crate) fn put(&mut self, instance: &Instance, end: End, place: usize)
        requires entry { IsEntry instance.now self.old }
        requires from { self.old.first ≤ place }
        requires before { place < self.old.before }
        ensures { IsEntry instance.now self.new }
    {
        let job = self.jobs[place];
        self.node.put(instance, end, job);
        match end {
            End::Front => {
                self.jobs.as_mut_slice().swap(place, self.first);
                self.first += 1;
            }
            End::Back => {
                self.before -= 1;
                self.jobs.as_mut_slice().swap(place, self.before);
            }
        }
    }
}

/// So many entries, each of the node of another one.
pub(crate) fn copies(
    alloc: Global,
    instance: &Instance,
    entry: &Entry,
    count: usize,
) -> Result<Vec<Entry>, AllocError>
    requires { IsEntry instance.now entry.now }
    ensures entries { IfOk result (λ entries. AreEntries instance.now entries.items) }
    ensures count { IfOk result (λ entries. vec_len entries ≡ count) }
{
    let mut entries = Vec::with_capacity(alloc, count)?;
    'entries: while entries.len() < count {
        entries.push(entry.copy(alloc, instance)?)?;
    }
    Ok(entries)
}
