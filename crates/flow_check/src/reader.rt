//! The reader of the trees: how it goes from a list of jobs to a child, and back.

ghost use Rattle.std.specs.Prelude.{◌≡◌, ◌≢◌, ℕ, suc, ◌<◌, ◌≤◌, List, [], length, slice_index, IfOk};
ghost use Rattle.flow_check.specs.internal.Links.{AreLinks, IsPlace};
ghost use Rattle.flow_check.specs.internal.Reader.{Stands, Opened, Closed, frame_at};
ghost use Rattle.flow_shop.specs.Limits.{most_jobs};

use crate::node::ListNode;
use crate::release::forget;
use crate::trees_text::TreesText;
use flow_shop::{Instance, LeastPairs, has_releases};
use std::alloc::{AllocError, Global};

/// A place in the text of the trees.
#[derive(Clone, Copy)]
pub(crate) struct Spot {
    /// Its line, counted from 1 at the first line of the text.
    pub(crate) line: usize,
    /// How many bytes of the text stand before it.
    pub(crate) at: usize,
}

/// A list of jobs, and which of its children is being read.
#[derive(Clone, Copy)]
pub(crate) struct ListFrame {
    /// What is kept of the list.
    pub(crate) node: ListNode,
    /// The job that the child has at its end.
    pub(crate) job: u16,
    /// The job left before it, or 0. Its link leads to `job` again once the child is read.
    pub(crate) last: u16,
}

/// Reads trees. It stands at a list of jobs. A child of the list has one more job, one of the jobs left, at its end.
#[derive(Drop)]
pub(crate) struct TreeReader {
    /// The linked list of the jobs left, in increasing order. The link of 0 is the least of them, the link of each is
    /// the next greater one, and the link of the greatest is 0.
    pub(crate) links: Vec<u16>,
    /// The frames of the list and of the lists above it: at place `k` that of the list whose children have `k` jobs
    /// left.
    pub(crate) frames: Vec<ListFrame>,
    /// In version 2 the two least lags of the list's jobs left to each machine, where they are found; in version 1
    /// there are none.
    pub(crate) lags: Vec<Option<LeastPairs>>,
    /// How many jobs are left at each child of the list: the place of the list's frame.
    pub(crate) child_left: usize,
}

/// The linked list of the jobs left at the empty list, which are all jobs: the link of 0 is job 1, the link of each job
/// is the next one, and the link of the last job is 0.
fn all_links(alloc: Global, jobs: u16) -> Result<Vec<u16>, AllocError>
    requires { jobs ≤ most_jobs }
    ensures { IfOk result (λ links. AreLinks jobs [] links.items) }
{
    let mut links = Vec::with_capacity(alloc, jobs as usize + 1)?;
    for job in 1..jobs + 1 {
        links.push(job)?;
    }
    links.push(0)?;
    Ok(links)
}

impl TreeReader {
    /// A reader of a version that stands at the empty list.
    pub(crate) fn new(
        alloc: Global,
        instance: &Instance,
        version: u32,
    ) -> Result<TreeReader, AllocError>
        ensures { IfOk result (λ reader. Stands instance.now [] reader) }
    {
        let jobs = instance.jobs();
        let links = all_links(alloc, jobs)?;
        let root = ListFrame {
            node: ListNode::root(instance),
            job: 0,
            last: 0,
        };
        let frames = vec![in alloc; root; jobs as usize]?;
        let places = if has_releases(version) {
            instance.machines()
        } else {
            0
        };
        let lags = vec![in alloc; None; places as usize]?;
        Ok(TreeReader {
            links,
            frames,
            lags,
            child_left: jobs as usize - 1,
        })
    }

    /// Goes to the child that has `job` at its end, where the link of `last` is `job`.
    pub(crate) fn open(&mut self, text: &TreesText, last: u16, job: u16)
        requires at { (list : List ℕ) × Stands text.now.shop.now list self.old
            × IsPlace text.now.shop.now.jobs list last }
        requires next { slice_index self.old.links.items last ≡ job }
        requires some { job ≢ 0 }
        requires more { 0 < self.old.child_left }
        ensures { Opened text.now.shop.now last job self.old self.new }
    {
        self.links[last as usize] = self.links[job as usize];
        let child_left = self.child_left;
        let (lower, upper) = self.frames.as_mut_slice().split_at_mut(child_left);
        let frame = &mut upper[0];
        frame.job = job;
        frame.last = last;
        lower[child_left - 1]
            .node
            .become_child(text, &frame.node, job);
        self.child_left = child_left - 1;
        forget(self.lags.as_mut_slice());
    }

    /// Goes back to the list above, once the child is read. Returns the job that the child had at its end.
    pub(crate) fn close(&mut self) -> u16
        requires above { suc self.old.child_left < length self.old.frames.items }
        requires last { (frame_at self.old.frames.items (suc self.old.child_left)).last < length self.old.links.items }
        ensures closed { Closed (frame_at self.old.frames.items (suc self.old.child_left)) self.old self.new }
        ensures job { result ≡ (frame_at self.old.frames.items (suc self.old.child_left)).job }
    {
        self.child_left += 1;
        let frame = &self.frames[self.child_left];
        let job = frame.job;
        self.links[frame.last as usize] = job;
        forget(self.lags.as_mut_slice());
        job
    }
}
