//! The walk through the nodes that the search opens.

ghost use Rattle.std.specs.Prelude.{◌≡◌, ℕ, ◌+◌, ◌*◌, ◌≤◌, List, [], ◌++◌, length, All, IfOk};
ghost use Rattle.flow_shop.specs.Shop.{Shop};
ghost use Rattle.flow_shop.specs.Sequences.{AreJobs, IsSequence};
ghost use Rattle.flow_nodes.specs.Groups.{group_count};
ghost use Rattle.flow_nodes.specs.Vectors.{limit_of};
ghost use Rattle.flow_nodes.specs.Marks.{chosen};
ghost use Rattle.flow_directions.specs.Search.{IsPart, Visit, parts_visits, visits};
ghost use Rattle.flow_directions.specs.internal.Levels.{IsAt, StandsBelow, first_of, last_of, met_with, names_of};
ghost use Rattle.flow_directions.specs.internal.Outcomes.{HasCome, IsReached};
ghost use Rattle.flow_directions.specs.internal.Tree.{IsTree};

use crate::found::{Outcome, Part};
use crate::level::{Level, Spot};
use crate::lists::Lists;
use crate::signs::Signs;
use crate::tree::Tree;
use flow_nodes::{Marks, Pack, Vector, group_count};
use flow_shop::{Instance, Sequence, makespan};
use std::alloc::{AllocError, Global};

/// What a search is to prove, and with how much.
#[derive(Clone, Copy)]
pub(crate) struct Terms {
    /// The threshold.
    pub(crate) threshold: u64,
    /// The most directions.
    pub(crate) budget: u64,
}

/// The jobs that a pack has at marked places, in order.
fn jobs_at<V: Vector>(alloc: Global, pack: &Pack<V>, marks: &Marks) -> Result<Vec<u16>, AllocError>
    requires few { length pack.now.groups.items ≤ 50 }
    requires names { length pack.now.names.items ≡ length pack.now.groups.items * 16 }
    ensures { IfOk result (λ jobs. jobs.items ≡ chosen marks.now.words pack.now.names.items) }
{
    let mut rest = *marks;
    let mut jobs = Vec::new(alloc);
    'places: while let Some(place) = rest.pop(pack.groups.len()) {
        jobs.push(pack.names[place])?;
    }
    Ok(jobs)
}

/// The sequence of jobs that are known to be one, with its makespan.
pub(crate) fn sequence_of(
    alloc: Global,
    instance: &Instance,
    jobs: &[u16],
) -> Result<Outcome, AllocError>
    requires { IsSequence instance.now.jobs jobs.now }
    ensures found { IfOk result (λ outcome. IsReached instance.now jobs.now outcome) }
{
    let sequence = Sequence::of_known(alloc, jobs)?;
    let makespan = makespan(instance, &sequence);
    Ok(Outcome::Below { sequence, makespan })
}

/// The parts with which a search goes on that is over its budget at the child of the last of some levels: the child,
/// and then the children of each level that are still to be searched, the last one's first. So many jobs are left at
/// the child.
#[inline(never)]
fn parts_left<V: Vector>(
    tree: &Tree<V>,
    lists: &mut Lists,
    levels: &mut Vec<Level>,
    left: u16,
) -> Result<Vec<Part>, AllocError>
    requires few { group_count (left + length levels.old.items) ≤ length tree.now.packs.items }
    requires at { (shop : Shop) × (threshold : ℕ) × (first : List ℕ) × (last : List ℕ)
        × IsTree V.CAP shop threshold tree.now
        × StandsBelow shop threshold (names_of tree.now.packs.items) first last (left + length levels.old.items)
        lists.old
        levels.old.items }
    ensures parts { (shop : Shop) (threshold : ℕ) (first last : List ℕ) → IsTree V.CAP shop threshold tree.now →
        StandsBelow shop threshold (names_of tree.now.packs.items) first last (left + length levels.old.items) lists.old
        levels.old.items → IfOk result (λ parts. parts_visits shop threshold parts.items
        ≡ met_with shop threshold (names_of tree.now.packs.items) (left + length levels.old.items) first last
        levels.old.items (visits shop threshold (first_of first levels.old.items) (last_of last levels.old.items))) }
    ensures each { (shop : Shop) (threshold : ℕ) (first last : List ℕ) → IsTree V.CAP shop threshold tree.now →
        StandsBelow shop threshold (names_of tree.now.packs.items) first last (left + length levels.old.items) lists.old
        levels.old.items → AreJobs shop.jobs (first ++ last) → IfOk result (λ parts. All (IsPart shop) parts.items) }
    ensures count { IfOk result (λ parts. length parts.items ≡ length levels.old.items + 1) }
{
    let alloc = tree.alloc;
    let mut left = left;
    let mut parts = Vec::with_capacity(alloc, levels.len() + 1)?;
    parts.push(lists.node(alloc)?)?;
    'levels: while let Some(level) = levels.pop() {
        left += 1;
        lists.take(level.end);
        let jobs = jobs_at(alloc, &tree.packs[group_count(left) - 1], &level.rest)?;
        parts.push(lists.children(alloc, level.end, jobs)?)?;
    }
    Ok(parts)
}

/// Searches the node that stands at the first place of a tree's list, at which so many jobs are left. Adds the signs of
/// its directions to none.
pub(crate) fn search<V: Vector, S: Signs>(
    instance: &Instance,
    terms: Terms,
    mut tree: Tree<V>,
    mut lists: Lists,
    left: u16,
    signs: &mut S,
) -> Result<Outcome, AllocError>
    requires wide { V.WIDTH ≡ 16 }
    requires some { 1 ≤ left }
    requires tree { IsTree V.CAP instance.now terms.threshold tree }
    requires few { group_count left ≤ length tree.packs.items }
    requires room { 1 ≤ length tree.nodes.items }
    requires at { (first : List ℕ) × (last : List ℕ) × AreJobs instance.now.jobs (first ++ last)
        × IsAt V.list V.CAP V.WIDTH instance.now terms.threshold first last left lists tree }
    requires none { S.are signs.old [] }
    ensures found { (first last : List ℕ) → AreJobs instance.now.jobs (first ++ last) →
        IsAt V.list V.CAP V.WIDTH instance.now terms.threshold first last left lists tree →
        IfOk result (λ outcome.
        HasCome (S.are signs.new) instance.now terms.threshold terms.budget first last outcome) }
{
    let alloc = tree.alloc;
    let mut levels = Vec::with_capacity(alloc, left as usize)?;
    if terms.budget == 0 {
        let parts = parts_left(&tree, &mut lists, &mut levels, left)?;
        return Ok(Outcome::Rest(parts));
    }
    let mut budget = terms.budget - 1;
    let mut left = left;
    let mut here = Level::empty();
    tree.enter(instance, Spot { at: 0, top: 1 }, left, &mut here)?;
    signs.add(here.end)?;
    'walk: loop {
        match here.next(&tree.packs[group_count(left) - 1]) {
            None => {
                let Some(level) = levels.pop() else {
                    return Ok(Outcome::Proved);
                };
                here = level;
                lists.take(here.end);
                left += 1;
            }
            Some(place) => {
                lists.put(here.end, here.job);
                left -= 1;
                if left == 0 {
                    return sequence_of(alloc, instance, lists.all());
                }
                if budget == 0 {
                    levels.push(here)?;
                    let parts = parts_left(&tree, &mut lists, &mut levels, left)?;
                    return Ok(Outcome::Rest(parts));
                }
                tree.go(instance, &mut levels, &mut here, place, left)?;
                signs.add(here.end)?;
                budget -= 1;
            }
        }
    }
}
