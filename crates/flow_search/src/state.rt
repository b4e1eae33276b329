//! The state of a search.

ghost use Rattle.std.specs.Prelude.{◌≡◌, ℕ, ◌≤◌, List, [], ◌∷◌, ◌++◌, length, Err, IfOk, OnOk};
ghost use Rattle.flow_limits.specs.Limits.{most_jobs};
ghost use Rattle.flow_search.specs.internal.Nodes.{IsFresh, Wrote, Saw, Entered, Left};

use crate::budget::{SearchFault, write_within};
use flow_shop::{Instance, JobSet};
use std::alloc::{AllocError, AllocFailed, Global};

/// The state of a search: its node, its incumbent, and the tree that it wrote.
#[derive(Drop)]
pub struct SearchState {
    /// The jobs of the node, in order.
    pub node: Vec<u16>,
    /// The jobs that the node leaves.
    pub unscheduled: JobSet,
    /// The makespan of the incumbent.
    pub value: u64,
    /// Whether a sequence with a smaller makespan than the start was found.
    pub improved: bool,
    /// The last such sequence, which is the incumbent.
    pub best: Vec<u16>,
    /// The tree so far.
    pub tree: Vec<u8>,
}

impl SearchState {
    /// The search at the node of the empty list, with memory for the jobs of a sequence.
    pub fn new(alloc: Global, instance: &Instance, start: u64) -> Result<SearchState, AllocError>
        ensures { IfOk result (λ search. IsFresh instance.now start search) }
    {
        let jobs = instance.jobs() as usize;
        Ok(SearchState {
            node: Vec::with_capacity(alloc, jobs)?,
            unscheduled: JobSet::all(instance),
            value: start,
            improved: false,
            best: Vec::with_capacity(alloc, jobs)?,
            tree: Vec::new(alloc),
        })
    }

    /// Appends a byte to the tree. `OverBudget` where the tree is as long as the budget.
    pub fn write(&mut self, budget: usize, byte: u8) -> Result<(), SearchFault>
        ensures done { OnOk result (Wrote budget byte self.old self.new) }
        ensures over { result ≡ Err SearchFault.OverBudget → budget ≤ length self.old.tree.items }
    {
        write_within(budget, &mut self.tree, byte)
    }

    /// Makes the sequence of the node the incumbent, where its makespan is smaller.
    pub fn see(&mut self, value: u64) -> Result<(), AllocError>
        ensures { OnOk result (Saw value self.old self.new) }
    {
        if value < self.value {
            self.best.clear();
            self.best.extend_from_slice(&self.node)?;
            self.value = value;
            self.improved = true;
        }
        Ok(())
    }

    /// Goes to the child node of a job.
    pub fn enter(&mut self, job: u16) -> Result<(), AllocFailed<u16>>
        requires from { 1 ≤ job }
        requires to { job ≤ most_jobs }
        ensures { OnOk result (Entered job self.old self.new) }
    {
        self.unscheduled.remove(job);
        self.node.push(job)?;
        Ok(())
    }

    /// Goes back from the child node of a job.
    pub fn leave(&mut self, job: u16)
        requires from { 1 ≤ job }
        requires to { job ≤ most_jobs }
        ensures { (jobs : List ℕ) → self.old.node.items ≡ jobs ++ job ∷ [] → Left job jobs self.old self.new }
    {
        self.node.pop();
        self.unscheduled.insert(job);
    }
}
