//! The search for directions that prove a threshold for a node. A child whose bound is at or above the threshold is
//! pruned where its node is opened, in `opening.rt` of flow_nodes, which marks the others.

ghost use Rattle.std.specs.Prelude.{◌≡◌, ◌↔◌, ℕ, ◌≤◌, ◌<◌, Err, List, [], ◌++◌, IfOk, OnOk};
ghost use Rattle.flow_shop.specs.Sequences.{AreJobs};
ghost use Rattle.flow_shop.specs.Ends.{end_bound};
ghost use Rattle.flow_nodes.specs.Vectors.{limit_of};
ghost use Rattle.flow_directions.specs.Search.{IsAdvanced, IsCounted, IsFound, IsTallied, Shows};
ghost use Rattle.flow_directions.specs.internal.Outcomes.{HasCome};
ghost use Rattle.flow_directions.specs.internal.Start.{IsStart};
ghost use Rattle.flow_directions.specs.declared.found.ProveFault.TheVariants.{Jobs};

use crate::found::{Advanced, Counted, Found, Outcome, ProveFault, Tallied};
use crate::signs::Signs;
use crate::start::StartNode;
use crate::tree::Tree;
use crate::walk::{Terms, search, sequence_of};
use flow_nodes::{Vector, fits_narrow_lanes, group_count, limit_of};
use flow_shop::Instance;
use std::alloc::{AllocError, Global};
use std::simd::prelude::*;

/// Searches the node of a start that is below the threshold, at which some job is left. Adds the signs of its
/// directions to none.
fn run<V: Vector, S: Signs>(
    alloc: Global,
    instance: &Instance,
    start: StartNode,
    terms: Terms,
    signs: &mut S,
) -> Result<Outcome, AllocError>
    requires wide { V.WIDTH ≡ 16 }
    requires cap { limit_of terms.threshold ≤ V.CAP }
    requires some { 1 ≤ start.left }
    requires at { (first : List ℕ) × (last : List ℕ) × IsStart instance.now first last start
        × (end_bound instance.now first last < terms.threshold) }
    requires none { S.are signs.old [] }
    ensures found { (first last : List ℕ) → IsStart instance.now first last start →
        end_bound instance.now first last < terms.threshold →
        IfOk result (λ outcome.
        HasCome (S.are signs.new) instance.now terms.threshold terms.budget first last outcome) }
{
    let mut tree = Tree::<V>::new(
        alloc,
        instance,
        group_count(start.left),
        limit_of(terms.threshold),
    )?;
    start.open(instance, &mut tree)?;
    let left = start.left;
    search(instance, terms, tree, start.lists, left, signs)
}

/// Searches a node. Adds the signs of its directions to none. `Jobs` where the lists have a job that is not one of the
/// instance, or one twice; `Memory` where memory ran out.
fn search_node<S: Signs>(
    alloc: Global,
    instance: &Instance,
    first: &[u16],
    last: &[u16],
    terms: Terms,
    signs: &mut S,
) -> Result<Outcome, ProveFault>
    requires none { S.are signs.old [] }
    ensures found { IfOk result (λ outcome.
        HasCome (S.are signs.new) instance.now terms.threshold terms.budget first.now last.now outcome) }
    ensures jobs { OnOk result (AreJobs instance.now.jobs (first.now ++ last.now)) }
    ensures refused { (result ≡ Err Jobs) ↔ (AreJobs instance.now.jobs (first.now ++ last.now) → ⊥) }
{
    let start = StartNode::new(alloc, instance, first, last)?;
    if u64::from(start.node.bound(instance)) >= terms.threshold {
        return Ok(Outcome::Proved);
    }
    if start.left == 0 {
        let outcome = sequence_of(alloc, instance, start.lists.all())?;
        return Ok(outcome);
    }
    if fits_narrow_lanes(terms.threshold) {
        Ok(run::<u16x16, S>(alloc, instance, start, terms, signs)?)
    } else {
        Ok(run::<u32x16, S>(alloc, instance, start, terms, signs)?)
    }
}

/// Searches a node for directions that prove that none of its sequences has a makespan below a threshold, as `prove`
/// does, and where it is over its budget says with which parts it goes on. `Jobs` where the lists have a job that is
/// not one of the instance, or one twice; `Memory` where memory ran out.
pub fn advance(
    alloc: Global,
    instance: &Instance,
    first: &[u16],
    last: &[u16],
    threshold: u64,
    budget: u64,
) -> Result<Advanced, ProveFault>
    ensures advanced { IfOk result (λ found. IsAdvanced instance.now threshold budget first.now last.now found) }
    ensures jobs { OnOk result (AreJobs instance.now.jobs (first.now ++ last.now)) }
    ensures refused { (result ≡ Err Jobs) ↔ (AreJobs instance.now.jobs (first.now ++ last.now) → ⊥) }
{
    let terms = Terms { threshold, budget };
    let mut directions = Vec::new(alloc);
    match search_node(alloc, instance, first, last, terms, &mut directions)? {
        Outcome::Proved => Ok(Advanced::Proved(directions)),
        Outcome::Below { sequence, makespan } => Ok(Advanced::Below {
            sequence,
            makespan,
            directions,
        }),
        Outcome::Rest(parts) => Ok(Advanced::Rest { directions, parts }),
    }
}

/// Searches a node as `advance` does, and counts the directions instead of writing them. `Jobs` where the lists have a
/// job that is not one of the instance, or one twice; `Memory` where memory ran out.
pub fn tally(
    alloc: Global,
    instance: &Instance,
    first: &[u16],
    last: &[u16],
    threshold: u64,
    budget: u64,
) -> Result<Tallied, ProveFault>
    ensures tallied { IfOk result (λ found. IsTallied instance.now threshold budget first.now last.now found) }
    ensures jobs { OnOk result (AreJobs instance.now.jobs (first.now ++ last.now)) }
    ensures refused { (result ≡ Err Jobs) ↔ (AreJobs instance.now.jobs (first.now ++ last.now) → ⊥) }
{
    let terms = Terms { threshold, budget };
    let mut directions = 0_u64;
    match search_node(alloc, instance, first, last, terms, &mut directions)? {
        Outcome::Proved => Ok(Tallied::Proved(directions)),
        Outcome::Below { sequence, makespan } => Ok(Tallied::Below {
            sequence,
            makespan,
            directions,
        }),
        Outcome::Rest(parts) => Ok(Tallied::Rest(parts)),
    }
}

/// Searches a node for directions that prove that none of its sequences has a makespan below a threshold. These
/// sequences begin with the first list and end with the last one. Returns the directions; or the first sequence below
/// the threshold, with its makespan and the number of directions before it; or `Over`, where more directions than the
/// budget come before that sequence, or in all. `Jobs` where the lists have a job that is not one of the instance, or
/// one twice; `Memory` where memory ran out.
pub fn prove(
    alloc: Global,
    instance: &Instance,
    first: &[u16],
    last: &[u16],
    threshold: u64,
    budget: u64,
) -> Result<Found, ProveFault>
    ensures found { IfOk result (λ found. IsFound instance.now threshold budget first.now last.now found) }
    ensures shown { IfOk result (λ found. Shows instance.now threshold first.now last.now found) }
    ensures refused { (result ≡ Err Jobs) ↔ (AreJobs instance.now.jobs (first.now ++ last.now) → ⊥) }
{
    match advance(alloc, instance, first, last, threshold, budget)? {
        Advanced::Proved(directions) => Ok(Found::Proved(directions)),
        Advanced::Below {
            sequence,
            makespan,
            directions,
        } => Ok(Found::Below {
            sequence,
            makespan,
            directions: directions.len() as u64,
        }),
        Advanced::Rest { .. } => Ok(Found::Over),
    }
}

/// Searches a node as `prove` does, and counts the directions instead of writing them. `Jobs` where the lists have a
/// job that is not one of the instance, or one twice; `Memory` where memory ran out.
pub fn count(
    alloc: Global,
    instance: &Instance,
    first: &[u16],
    last: &[u16],
    threshold: u64,
    budget: u64,
) -> Result<Counted, ProveFault>
    ensures counted { IfOk result (λ found. IsCounted instance.now threshold budget first.now last.now found) }
    ensures refused { (result ≡ Err Jobs) ↔ (AreJobs instance.now.jobs (first.now ++ last.now) → ⊥) }
{
    match tally(alloc, instance, first, last, threshold, budget)? {
        Tallied::Proved(directions) => Ok(Counted::Proved(directions)),
        Tallied::Below {
            sequence,
            makespan,
            directions,
        } => Ok(Counted::Below {
            sequence,
            makespan,
            directions,
        }),
        Tallied::Rest(_) => Ok(Counted::Over),
    }
}
