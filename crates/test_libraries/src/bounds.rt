//! Bounds, and the starting sequence.

ghost use Rattle.std.specs.Prelude.{◌≡◌, ℕ, ◌<◌, false, length, IfSome};
ghost use Rattle.flow_core.specs.Front.{IsWithinFront};
ghost use Rattle.flow_core.specs.JobSet.{contains, members};

use crate::instances::{three_machines, two_machines};
use crate::shops::{Shop, made};
use flow_bound::{Rest, bound, insertion_spans, neh, released_bound, taillard_bound};
use flow_core::{Front, Instance, JobSet, Sequence, front_push};
use std::alloc::{AllocError, Global};
use std::test::Fail;

/// The front of a list, and the jobs that it leaves; none where they are no jobs of the instance, or leave none.
fn node(instance: &Instance, jobs: &[u16]) -> Option<(Front, JobSet)>
    ensures within { IfSome result (λ node. IsWithinFront instance.now node.0) }
    ensures left { IfSome result (λ node. (job : ℕ) → instance.now.jobs < job → contains node.1 job ≡ false) }
    ensures some { IfSome result (λ node. 0 < length (members node.1)) }
{
    let most = instance.jobs();
    if jobs.len() > most as usize {
        return None;
    }
    let mut front = Front::empty();
    let mut left = JobSet::all(instance);
    for job in jobs {
        if *job < 1 || *job > most {
            return None;
        }
        front_push(instance, &mut front, *job);
        left.remove(*job);
    }
    if left.count() == 0 {
        return None;
    }
    Some((front, left))
}

/// One job on one machine.
const ONE_JOB: Shop = Shop::Seed(1, 1, 2_147_483_646);

/// A list, and for each machine the completion time and the bound.
type Bounded = (Shop, &'static [u16], &'static [(u64, u64)]);

static BOUNDS: [Bounded; 15] = [
    (Shop::Three, &[], &[(0, 7), (0, 10), (0, 5)]),
    (Shop::Three, &[1], &[(4, 7), (4, 14), (8, 9)]),
    (Shop::Three, &[2], &[(0, 7), (8, 11), (8, 13)]),
    (Shop::Three, &[3], &[(0, 8), (2, 10), (3, 7)]),
    (Shop::Three, &[1, 2], &[(4, 7), (12, 15), (12, 13)]),
    (Shop::Three, &[1, 3], &[(4, 12), (6, 14), (9, 9)]),
    (Shop::Three, &[2, 1], &[(4, 7), (8, 11), (12, 13)]),
    (Shop::Three, &[2, 3], &[(0, 8), (10, 14), (11, 15)]),
    (Shop::Three, &[3, 1], &[(4, 12), (4, 12), (8, 8)]),
    (Shop::Three, &[3, 2], &[(0, 8), (10, 14), (10, 14)]),
    (Shop::Two, &[], &[(0, 8), (0, 8)]),
    (Shop::Two, &[1], &[(3, 8), (5, 11)]),
    (Shop::Two, &[2], &[(1, 8), (5, 9)]),
    (Shop::Two, &[3], &[(2, 8), (4, 10)]),
    (ONE_JOB, &[], &[(0, 99)]),
];

#[test]
fn bounds_are_the_worked_ones(rt: HostRuntime) -> Result<(), Fail> {
    for (number, (shop, jobs, wanted)) in BOUNDS.iter().enumerate() {
        let instance = made(rt.alloc(), *shop)?;
        let (front, left) = node(&instance, jobs).ok_or("no node")?;
        for machine in 1..instance.machines() + 1 {
            let found = (front.at(machine), bound(&instance, &front, &left, machine));
            assert_eq!(rt;
                wanted.get(machine as usize - 1),
                Some(&found),
                "row {number}"
            );
        }
        assert_eq!(rt; wanted.len(), instance.machines() as usize);
    }
    Ok(())
}

/// A list, and the released bound of each machine, by the jobs left and by the rest that they are.
type Released = (Shop, &'static [u16], &'static [u64]);

static RELEASED_BOUNDS: [Released; 4] = [
    (Shop::Two, &[], &[8, 9]),
    (Shop::Three, &[], &[7, 10, 7]),
    (Shop::Three, &[3], &[8, 10, 8]),
    (Shop::Three, &[3, 1], &[12, 12, 12]),
];

#[test]
fn released_bounds_are_the_worked_ones(rt: HostRuntime) -> Result<(), Fail> {
    for (number, (shop, jobs, wanted)) in RELEASED_BOUNDS.iter().enumerate() {
        let instance = made(rt.alloc(), *shop)?;
        let (front, left) = node(&instance, jobs).ok_or("no node")?;
        let rest = Rest::of(&instance, &left);
        for machine in 1..instance.machines() + 1 {
            let found = released_bound(&instance, &front, &left, machine);
            assert_eq!(rt;
                wanted.get(machine as usize - 1),
                Some(&found),
                "row {number}"
            );
            assert_eq!(rt; rest.released_bound(&front, machine), found, "row {number}");
        }
        assert_eq!(rt; wanted.len(), instance.machines() as usize);
    }
    Ok(())
}

/// Whether each machine has this sum and least tail in a rest, and this bound behind a front.
fn has_rest(instance: &Instance, rest: &Rest, front: &Front, row: &[(u32, u32, u64)]) -> bool
    requires machines { rest.now.loads.machines ≡ instance.now.machines }
    requires within { IsWithinFront instance.now front.now }
{
    for machine in 1..instance.machines() + 1 {
        let bound = rest.bound(front, machine);
        let found = (rest.sum(machine), rest.tail(machine), bound);
        if row.get(machine as usize - 1) != Some(&found) {
            return false;
        }
    }
    row.len() == instance.machines() as usize
}

/// The rest of a set with one job more, and the rest of the set by a step from it.
fn rests(instance: &Instance, after: &JobSet, job: u16) -> Option<(Rest, Rest)>
    requires some { 0 < length (members after.now) }
    requires left { (job : ℕ) → instance.now.jobs < job → contains after.now job ≡ false }
    ensures before { IfSome result (λ rests. rests.0.loads.machines ≡ instance.now.machines) }
    ensures after { IfSome result (λ rests. rests.1.loads.machines ≡ instance.now.machines) }
{
    if job < 1 || job > instance.jobs() || after.contains(job) {
        return None;
    }
    let mut before = *after;
    before.insert(job);
    if before.count() == 0 {
        return None;
    }
    let rest = Rest::of(instance, &before);
    Some((rest, rest.step(instance, after, job)))
}

/// The rests of all three jobs and of those behind job 3, at each machine: the sum, the least tail, and the bound.
static OF_ALL: [(u32, u32, u64); 3] = [(4, 3, 7), (10, 0, 10), (5, 0, 5)];

static BEHIND_3: [(u32, u32, u64); 3] = [(4, 4, 8), (8, 0, 10), (4, 0, 7)];

/// The second rest comes by a step from the first, and anew.
#[test]
fn rests_of_three_machines_are_the_worked_ones(rt: HostRuntime) -> Result<(), Fail> {
    let instance = three_machines(rt.alloc())?;
    let (empty, _left) = node(&instance, &[]).ok_or("no node")?;
    let (front, left) = node(&instance, &[3]).ok_or("no node")?;
    let (all, step) = rests(&instance, &left, 3).ok_or("no rests")?;
    assert!(rt; has_rest(&instance, &all, &empty, &OF_ALL));
    assert!(rt; has_rest(&instance, &step, &front, &BEHIND_3));
    assert!(rt; has_rest(&instance, &Rest::of(&instance, &left), &front, &BEHIND_3));
    Ok(())
}

/// Two jobs of the instance with two machines, and when they leave the second.
static ENDS: [(&[u16], u64); 2] = [(&[2, 1], 7), (&[1, 2], 9)];

#[test]
fn two_jobs_end_sooner_with_the_second_first(rt: HostRuntime) -> Result<(), Fail> {
    let instance = two_machines(rt.alloc())?;
    for (jobs, end) in &ENDS {
        let (front, _left) = node(&instance, jobs).ok_or("no node")?;
        assert_eq!(rt; front.at(2), *end, "{jobs:?}");
    }
    Ok(())
}

/// Whether these makespans were found.
fn are_spans(found: Result<Vec<u64>, AllocError>, spans: &[u64]) -> bool {
    match found {
        Ok(found) => found.as_slice() == spans,
        Err(_) => false,
    }
}

/// Whether these are the makespans of the first jobs of a sequence with the next job put in at each place.
pub(crate) fn has_spans(
    alloc: Global,
    instance: &Instance,
    sequence: &Sequence,
    count: usize,
    spans: &[u64],
) -> bool {
    let jobs = sequence.jobs();
    if jobs.len() != instance.jobs() as usize || count >= jobs.len() {
        return false;
    }
    let found: Result<_, _> = insertion_spans(alloc, instance, &jobs[..count], jobs[count]);
    are_spans(found, spans)
}

/// The first jobs of a sequence of three jobs, how many they are, and the makespans with the next job put in.
type Inserted = (&'static [u16], usize, &'static [u64]);

static INSERTIONS: [Inserted; 3] = [
    (&[2, 1, 3], 2, &[14, 15, 13]),
    (&[1, 2, 3], 1, &[12, 12]),
    (&[1, 2, 3], 0, &[8]),
];

#[test]
fn insertions_are_the_worked_ones(rt: HostRuntime) -> Result<(), Fail> {
    let instance = three_machines(rt.alloc())?;
    for (jobs, count, spans) in &INSERTIONS {
        let sequence = Sequence::new(rt.alloc(), &instance, jobs)?;
        assert!(rt;
            has_spans(rt.alloc(), &instance, &sequence, *count, spans),
            "{count} of {jobs:?}"
        );
    }
    Ok(())
}

/// Starting sequences and their makespans.
static STARTS: [(Shop, &[u16], u64); 4] = [
    (Shop::Three, &[2, 1, 3], 13),
    (Shop::Two, &[2, 3, 1], 9),
    (Shop::Seed(2, 2, 1), &[1, 2], 122),
    (ONE_JOB, &[1], 99),
];

#[test]
fn starting_sequences_are_the_worked_ones(rt: HostRuntime) -> Result<(), Fail> {
    for (shop, jobs, makespan) in &STARTS {
        let instance = made(rt.alloc(), *shop)?;
        let (sequence, found) = neh(rt.alloc(), &instance)?;
        assert_eq!(rt; (sequence.jobs(), found), (*jobs, *makespan));
    }
    Ok(())
}

/// Instances and their bounds. That of the last was published with the instance.
static TAILLARD_BOUNDS: [(Shop, u64); 5] = [
    (Shop::Three, 10),
    (Shop::Two, 9),
    (Shop::Seed(2, 2, 1), 122),
    (ONE_JOB, 99),
    (Shop::Seed(20, 5, 873_654_221), 1_232),
];

#[test]
fn taillard_bounds_are_the_worked_ones(rt: HostRuntime) -> Result<(), Fail> {
    for (number, (shop, bound)) in TAILLARD_BOUNDS.iter().enumerate() {
        let instance = made(rt.alloc(), *shop)?;
        assert_eq!(rt; taillard_bound(&instance), *bound, "row {number}");
    }
    Ok(())
}
