//! The results of the first prefixes of a plan, put together prefix by prefix.

ghost use Rattle.std.specs.Prelude.{◌≡◌, ℕ, ◌+◌, ◌<◌, length, IfOk, OnOk};
ghost use Rattle.flow_search.specs.Plans.{Planned, prefixes_of};
ghost use Rattle.flow_search.specs.Outcomes.{IsLawful, IsDone};
ghost use Rattle.flow_search.specs.Verdicts.{IsVerdict, IsLeast};
ghost use Rattle.flow_search.specs.internal.Tally.{IsTally, undercuts};

use crate::outcome::{Best, Outcome};
use crate::plan::Plan;
use crate::verdict::Verdict;
use flow_shop::Sequence;
use std::alloc::{AllocError, Global};

/// The trees of the first prefixes, and the least of their bests.
#[derive(Drop)]
pub struct Tally {
    /// The trees, in the order of their prefixes.
    pub trees: Vec<Vec<u8>>,
    /// The least of the bests, on ties the first; `None` where no prefix has one.
    pub best: Option<Best>,
}

/// Whether the next best has a smaller makespan than the least so far. A best is smaller than none.
fn undercuts(next: &Option<Best>, least: &Option<Best>) -> bool
    ensures { result ≡ undercuts next.now least.now }
{
    match (next, least) {
        (Some(next), Some(least)) => next.value < least.value,
        (Some(_), None) => true,
        (None, _) => false,
    }
}

impl Tally {
    /// The tally of no prefix, with room for so many trees.
    pub fn new(alloc: Global, count: usize) -> Result<Tally, AllocError>
        ensures { IfOk result (λ tally. (plan : Planned) → IsTally plan 0 tally) }
    {
        Ok(Tally {
            trees: Vec::with_capacity(alloc, count)?,
            best: None,
        })
    }

    /// Adds the best and the tree of the next prefix, where its outcome is `Done`; else there is no error, and it stays
    /// as it is.
    pub fn add(&mut self, outcome: Outcome) -> Result<(), AllocError>
        ensures done { OnOk result ((plan : Planned) (number : ℕ) → number < length (prefixes_of plan) →
            IsTally plan number self.old → IsLawful plan number outcome → IsDone outcome →
            IsTally plan (number + 1) self.new) }
        ensures other { (¬ IsDone outcome) → (self.new ≡ self.old) × (result ≡ Ok tt) }
    {
        let Outcome::Done { best, tree } = outcome else {
            return Ok(());
        };
        if undercuts(&best, &self.best) {
            self.best = best;
        }
        self.trees.push(tree)?;
        Ok(())
    }

    /// The verdict, from a tally of all prefixes.
    pub fn verdict(self, alloc: Global, plan: &Plan) -> Result<Verdict, AllocError>
        requires { IsTally plan.now (length (prefixes_of plan.now)) self }
        ensures verdict { IfOk result (λ verdict. IsVerdict plan.now verdict) }
        ensures least { IfOk result (λ verdict. IsLeast plan.now.shop verdict) }
    {
        let start = plan.start();
        let Tally { trees, best } = self;
        if let Some(Best { value, sequence }) = best {
            return Ok(Verdict {
                value,
                sequence,
                trees,
            });
        }
        Ok(Verdict {
            value: plan.start_value(),
            sequence: Sequence::of_known(alloc, start.jobs())?,
            trees,
        })
    }
}
