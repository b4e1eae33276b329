//! The lists of a node: the first one at the beginning of an array, and the last one at its end.

ghost use Rattle.std.specs.Prelude.{◌≡◌, ℕ, ◌+◌, ◌<◌, ◌≤◌, List, [], ◌++◌, length, IfOk};
ghost use Rattle.flow_shop.specs.Directions.{first_with, last_with};
ghost use Rattle.flow_directions.specs.internal.Left.{IsNodePart, AreChildrenPart};
ghost use Rattle.flow_directions.specs.internal.Lists.{HasLists};

use crate::found::Part;
use flow_shop::End;
use std::alloc::{AllocError, Global};

/// The two lists of a node, in an array that has a place for each job of the instance.
#[derive(Drop)]
pub(crate) struct Lists {
    /// The first list at the beginning, and the last one at the end.
    pub(crate) jobs: Vec<u16>,
    /// How many jobs the first list has.
    pub(crate) first: usize,
    /// How many jobs the last list has.
    pub(crate) last: usize,
}

impl Lists {
    /// Two empty lists, with room for so many jobs.
    pub(crate) fn new(alloc: Global, jobs: u16) -> Result<Lists, AllocError>
        ensures { IfOk result (λ lists. HasLists jobs [] [] lists) }
    {
        Ok(Lists {
            jobs: vec![in alloc; 0; jobs as usize]?,
            first: 0,
            last: 0,
        })
    }

    /// Puts a job at an end.
    #[inline(always)]
    pub(crate) fn put(&mut self, end: End, job: u16)
        requires { self.old.first + self.old.last < length self.old.jobs.items }
        ensures { (jobs : ℕ) (first last : List ℕ) → HasLists jobs first last self.old →
            HasLists jobs (first_with end first job) (last_with end last job) self.new }
    {
        match end {
            End::Front => {
                self.jobs[self.first] = job;
                self.first += 1;
            }
            End::Back => {
                self.last += 1;
                let place = self.jobs.len() - self.last;
                self.jobs[place] = job;
            }
        }
    }

    /// Takes the job away that was put last at an end.
    #[inline(always)]
    pub(crate) fn take(&mut self, end: End)
        requires { (jobs : ℕ) × (first : List ℕ) × (last : List ℕ) × (job : ℕ)
            × HasLists jobs (first_with end first job) (last_with end last job) self.old }
        ensures { (jobs : ℕ) (first last : List ℕ) (job : ℕ) →
            HasLists jobs (first_with end first job) (last_with end last job) self.old →
            HasLists jobs first last self.new }
    {
        match end {
            End::Front => self.first -= 1,
            End::Back => self.last -= 1,
        }
    }

    /// The first list.
    pub(crate) fn begin(&self) -> &[u16]
        requires { self.now.first ≤ length self.now.jobs.items }
        ensures { (jobs : ℕ) (first last : List ℕ) → HasLists jobs first last self.now → result.now ≡ first }
    {
        &self.jobs[..self.first]
    }

    /// The last list.
    pub(crate) fn end(&self) -> &[u16]
        requires { self.now.last ≤ length self.now.jobs.items }
        ensures { (jobs : ℕ) (first last : List ℕ) → HasLists jobs first last self.now → result.now ≡ last }
    {
        &self.jobs[self.jobs.len() - self.last..]
    }

    /// The part of a search that is the node.
    pub(crate) fn node(&self, alloc: Global) -> Result<Part, AllocError>
        requires { (jobs : ℕ) × (first : List ℕ) × (last : List ℕ) × HasLists jobs first last self.now }
        ensures { (jobs : ℕ) (first last : List ℕ) → HasLists jobs first last self.now →
            IfOk result (λ part. IsNodePart first last part) }
    {
        let first = Vec::from_slice(alloc, self.begin())?;
        let last = Vec::from_slice(alloc, self.end())?;
        Ok(Part::Node { first, last })
    }

    /// The part of a search that is the children of the node that put some jobs at an end.
    pub(crate) fn children(
        &self,
        alloc: Global,
        end: End,
        jobs: Vec<u16>,
    ) -> Result<Part, AllocError>
        requires { (count : ℕ) × (first : List ℕ) × (last : List ℕ) × HasLists count first last self.now }
        ensures { (count : ℕ) (first last : List ℕ) → HasLists count first last self.now →
            IfOk result (λ part. AreChildrenPart first last end jobs.items part) }
    {
        let first = Vec::from_slice(alloc, self.begin())?;
        let last = Vec::from_slice(alloc, self.end())?;
        Ok(Part::Children {
            first,
            last,
            end,
            jobs,
        })
    }

    /// The jobs, where the lists have all of them.
    pub(crate) fn all(&self) -> &[u16]
        ensures value { result.now ≡ self.now.jobs.items }
        ensures lists { (jobs : ℕ) (first last : List ℕ) → HasLists jobs first last self.now →
            length (first ++ last) ≡ jobs → result.now ≡ first ++ last }
    {
        self.jobs.as_slice()
    }
}
