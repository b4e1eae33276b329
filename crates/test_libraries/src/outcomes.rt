//! The outcomes of a plan, and a comparison of verdicts.

ghost use Rattle.std.specs.Prelude.{◌≡◌, true, length, map, vec_len, IfOk};
ghost use Rattle.flow_search.specs.Plans.{prefixes_of};
ghost use Rattle.flow_search.specs.Outcomes.{AreLawful};

use flow_search::{Outcome, Plan, Verdict, answer};
use std::alloc::{AllocError, Global};

/// A budget that no tree of the worked examples exceeds.
pub const AMPLE: u32 = 1_000_000;

/// A budget that the last tree of the instance with three machines exceeds, at depth 1.
pub const TIGHT: u32 = 3;

/// The outcomes of all prefixes in order.
pub fn all_outcomes(alloc: Global, plan: &Plan) -> Result<Vec<Outcome>, AllocError>
    ensures count { IfOk result (λ outcomes. vec_len outcomes ≡ length (prefixes_of plan.now)) }
    ensures lawful { IfOk result (λ outcomes. AreLawful plan.now outcomes.items) }
{
    let mut outcomes = Vec::new(alloc);
    for number in 0..plan.prefixes() {
        outcomes.push(answer(alloc, plan, number))?;
    }
    Ok(outcomes)
}

/// Whether a verdict has this value, this sequence and these trees.
pub fn is_verdict(verdict: &Verdict, value: u64, sequence: &[u16], trees: &[&[u8]]) -> bool
    ensures value { result ≡ true → verdict.now.value ≡ value }
    ensures sequence { result ≡ true → verdict.now.sequence ≡ sequence.now }
    ensures trees { result ≡ true →
        map (λ tree. tree.items) verdict.now.trees.items ≡ map (λ tree. tree.now) trees.now }
{
    if verdict.value != value || verdict.sequence.jobs() != sequence {
        return false;
    }
    if verdict.trees.len() != trees.len() {
        return false;
    }
    for (index, tree) in verdict.trees.iter().enumerate() {
        if tree.as_slice() != trees[index] {
            return false;
        }
    }
    true
}
