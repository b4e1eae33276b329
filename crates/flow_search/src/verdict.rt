//! The verdict of a plan, from the outcomes of its prefixes.

ghost use Rattle.std.specs.Prelude.{◌≡◌, ℕ, ◌≤◌, ◌⊎◌, length, vec_len, None, Some, IfOk, OnOk, IfErr, All};
ghost use Rattle.flow_limits.specs.Limits.{most_prefixes};
ghost use Rattle.flow_shop.specs.Paths.{span};
ghost use Rattle.flow_shop.specs.Sequences.{IsSequence, IsLeastMakespan};
ghost use Rattle.flow_search.specs.Plans.{prefixes_of};
ghost use Rattle.flow_search.specs.Outcomes.{AreLawful, IsDone, first_over_budget};
ghost use Rattle.flow_search.specs.Verdicts.{IsVerdict, refusal, first_refusal};
ghost use Rattle.flow_search.specs.declared.verdict.RunFault.TheVariants.{Memory};

use crate::outcome::{Outcome, answer};
use crate::plan::Plan;
use crate::tally::Tally;
use flow_shop::Sequence;
use std::alloc::{AllocError, Global};
use thiserror::Error;

/// The least makespan, a sequence that attains it, and the tree of each prefix.
#[derive(Debug, PartialEq, Eq, Drop)]
pub struct Verdict {
    /// The least makespan.
    pub value: u64,
    /// A sequence that attains it.
    pub sequence: Sequence,
    /// The tree of each prefix, in the order of the prefixes.
    pub trees: Vec<Vec<u8>>,
}

/// Why a run has no verdict.
#[derive(Clone, Copy, Debug, PartialEq, Eq, Error)]
pub enum RunFault {
    /// The tree of this prefix, counted from 0, is the first that is longer than the budget.
    #[error("OverBudget {0}")]
    OverBudget(u32),
    /// Memory ran out.
    #[error("Memory")]
    Memory,
}

impl From<AllocError> for RunFault {
    ghost from_gives = { λ _ fault. fault ≡ Memory };

    fn from(_error: AllocError) -> RunFault {
        RunFault::Memory
    }
}

/// The verdict of a plan, from the outcomes of all its prefixes in order; or the fault of the first that is not `Done`;
/// or `Memory`.
pub fn conclude(alloc: Global, plan: &Plan, outcomes: Vec<Outcome>) -> Result<Verdict, RunFault>
    requires count { vec_len outcomes ≡ length (prefixes_of plan.now) }
    requires lawful { AreLawful plan.now outcomes.items }
    ensures verdict { IfOk result (λ verdict. IsVerdict plan.now verdict) }
    ensures least { IfOk result (λ verdict. IsLeastMakespan plan.now.shop verdict.value) }
    ensures attained { IfOk result (λ verdict. span plan.now.shop verdict.sequence ≡ verdict.value) }
    ensures sequence { IfOk result (λ verdict. IsSequence plan.now.shop.jobs verdict.sequence) }
    ensures within { OnOk result (first_over_budget plan.now ≡ None) }
    ensures over { (number : ℕ) → result ≡ Err (RunFault.OverBudget number) → first_over_budget plan.now ≡ Some number }
    ensures done { OnOk result (All IsDone outcomes.items) }
    ensures refused { IfErr result (λ fault. (first_refusal 0 outcomes.items ≡ Some fault)
        ⊎ ((first_refusal 0 outcomes.items ≡ None) × (fault ≡ Memory))) }
{
    let count = plan.prefixes();
    if let Some(fault) = first_refusal(&outcomes) {
        return Err(fault);
    }
    let mut tally = Tally::new(alloc, count as usize)?;
    for outcome in outcomes {
        tally.add(outcome)?;
    }
    let verdict = tally.verdict(alloc, plan)?;
    Ok(verdict)
}

/// Solves a plan on one thread, prefix by prefix. It ends at the first outcome that is not `Done`.
pub fn solve_plain(alloc: Global, plan: &Plan) -> Result<Verdict, RunFault>
    ensures verdict { IfOk result (λ verdict. IsVerdict plan.now verdict) }
    ensures least { IfOk result (λ verdict. IsLeastMakespan plan.now.shop verdict.value) }
    ensures attained { IfOk result (λ verdict. span plan.now.shop verdict.sequence ≡ verdict.value) }
    ensures sequence { IfOk result (λ verdict. IsSequence plan.now.shop.jobs verdict.sequence) }
    ensures within { OnOk result (first_over_budget plan.now ≡ None) }
    ensures over { (number : ℕ) → result ≡ Err (RunFault.OverBudget number) → first_over_budget plan.now ≡ Some number }
{
    let count = plan.prefixes();
    let mut tally = Tally::new(alloc, count as usize)?;
    for number in 0..count {
        let outcome = answer(alloc, plan, number);
        if let Some(fault) = refusal(number, &outcome) {
            return Err(fault);
        }
        tally.add(outcome)?;
    }
    let verdict = tally.verdict(alloc, plan)?;
    Ok(verdict)
}

/// The fault of the outcome of this number; `None` where it is `Done`.
fn refusal(number: u32, outcome: &Outcome) -> Option<RunFault>
    ensures { result ≡ refusal number outcome.now }
{
    match outcome {
        Outcome::Done { .. } => None,
        Outcome::OverBudget => Some(RunFault::OverBudget(number)),
        Outcome::NoMemory | Outcome::NoPrefix => Some(RunFault::Memory),
    }
}

/// The fault of the first outcome that is not `Done`.
pub fn first_refusal(outcomes: &[Outcome]) -> Option<RunFault>
    requires { length outcomes.now ≤ most_prefixes }
    ensures { result ≡ first_refusal 0 outcomes.now }
{
    for (number, outcome) in outcomes.iter().enumerate() {
        if let Some(fault) = refusal(number as u32, outcome) {
            return Some(fault);
        }
    }
    None
}
