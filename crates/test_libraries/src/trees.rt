//! Trees of generated instances, as a plain recursion over the words of the definitions finds them.

use crate::plain::{bound, completion, has};
use crate::plans::planned;
use flow_core::{Instance, generate};
use flow_search::{Outcome, answer};
use std::alloc::{AllocError, Global};
use std::test::Fail;

/// Writes the tree of a list that leaves so many jobs. The value is the bound in force.
fn walk(
    instance: &Instance,
    version: u32,
    left: u32,
    jobs: &mut Vec<u16>,
    value: &mut u64,
    tree: &mut Vec<u8>,
) -> Result<(), AllocError> {
    if left == 0 {
        tree.push(b'.')?;
        *value = (*value).min(completion(instance, jobs, instance.machines()));
        return Ok(());
    }
    for machine in 1..instance.machines() + 1 {
        if bound(instance, version, jobs, machine) >= *value {
            tree.push(b'@' + machine as u8)?;
            return Ok(());
        }
    }
    tree.push(b'+')?;
    let below = left - 1;
    for job in 1..instance.jobs() + 1 {
        if !has(jobs, job) {
            jobs.push(job)?;
            walk(instance, version, below, jobs, value, tree)?;
            jobs.pop();
        }
    }
    Ok(())
}

/// The tree of an instance with ten jobs, as a plain recursion finds it from the makespan of a start.
fn plain_tree(
    alloc: Global,
    instance: &Instance,
    version: u32,
    start: u64,
) -> Result<Vec<u8>, AllocError> {
    let mut value = start;
    let mut jobs = Vec::new(alloc);
    let mut tree = Vec::new(alloc);
    walk(instance, version, 10, &mut jobs, &mut value, &mut tree)?;
    Ok(tree)
}

/// Whether an outcome has this tree.
fn has_tree(outcome: &Outcome, tree: &[u8]) -> bool {
    match outcome {
        Outcome::Done {
            best: _,
            tree: found,
        } => found.as_slice() == tree,
        _ => false,
    }
}

/// How long the tree of an instance is in a version; none where a plain recursion finds another tree.
fn length_of(alloc: Global, instance: &Instance, version: u32) -> Result<Option<usize>, Fail> {
    let plan = planned(alloc, instance, 1, (0, version, 100_000_000))?;
    let plain = plain_tree(alloc, instance, version, plan.start_value())?;
    let is_alike = plan.prefixes() == 1 && has_tree(&answer(alloc, &plan, 0), plain.as_slice());
    Ok(if is_alike { Some(plain.len()) } else { None })
}

#[test]
fn answers_have_the_trees_of_a_plain_recursion(rt: HostRuntime) -> Result<(), Fail> {
    let mut differ = false;
    for seed in 1..5u32 {
        let instance = generate(rt.alloc(), 10, seed + 2, seed)?;
        let first = length_of(rt.alloc(), &instance, 1)?;
        let second = length_of(rt.alloc(), &instance, 2)?;
        assert!(rt;
            second.is_some() && second <= first,
            "seed {seed}: {first:?}, {second:?}"
        );
        differ = differ || second < first;
    }
    // Else the two versions were not told apart.
    assert!(rt; differ);
    Ok(())
}
