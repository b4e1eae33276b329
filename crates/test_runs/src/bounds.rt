//! What a search for bounds comes to, which no contract says, where it keeps signs and where it counts. The directions
//! and the bounds are those of a slow search in Python, written apart; the least makespans of the drawn instances are
//! known.

use crate::searches::{ANY, effort_of, start_of};
use flow_certify::{
    Certified, MAX_COUNTED_DIRECTIONS, MostDirections, Proof, ProofLimits, certify,
};
use flow_core::{Instance, generate};
use flow_directions::Alone;
use std::alloc::Global;

/// The times of three jobs on three machines, machine by machine. The least makespan is 12.
const THREE_MACHINES: [u32; 9] = [4, 0, 0, 0, 8, 2, 4, 0, 1];

/// The times of three jobs on two machines. The bound of the empty lists is 9, the least makespan.
const TWO_MACHINES: [u32; 6] = [3, 1, 2, 2, 4, 2];

/// The times of fourteen jobs on two machines: thirteen with times 1 and 1, and one with 10 and 10. All sequences have
/// makespan 33. The bound of the empty lists is 24, and directions that prove more are very many.
const ONE_LONG_JOB: [u32; 28] = [
    1, 1, 1, 1, 1, 1, 1, 1, 1, 1, 1, 1, 1, 10, 1, 1, 1, 1, 1, 1, 1, 1, 1, 1, 1, 1, 1, 10,
];

/// Width, rounds, seed and work of no beam and no rounds.
const NO_EFFORT: [u32; 4] = [0, 0, 1, 0];

/// Those of some beam and rounds.
const SOME_EFFORT: [u32; 4] = [64, 1_000, 1, 1_000];

/// Both bounds, and the directions.
type Wanted = (u64, u64, &'static [u8]);

/// Whether these are the bounds, and the directions or how many they are.
fn is_wanted(found: &Certified, wanted: Wanted) -> bool {
    let (lower, upper, directions) = wanted;
    let count = directions.len() as u64;
    let is_kept = match &found.proof {
        Proof::Signs(signs) => signs.as_slice() == directions,
        Proof::Count(kept) => *kept == count,
    };
    found.lower == lower && found.upper == upper && is_kept && found.proof.directions() == count
}

/// Whether a search comes to what is wanted, from a start, with an effort and at most so many directions: with signs,
/// and, by the same sequence, where it counts. It is none where a number or a memory is refused.
fn comes_to(
    alloc: Global,
    instance: &Instance,
    start: &[u16],
    effort: [u32; 4],
    most: u64,
    wanted: Wanted,
) -> Option<bool> {
    let start = start_of(alloc, instance, start)?;
    let effort = effort_of(effort)?;
    let most = MostDirections::new(most)?;
    let limits = |keeps_signs| ProofLimits { most, keeps_signs };
    let signed = certify(alloc, &Alone, instance, &start, &effort, limits(true)).ok()?;
    let counted = certify(alloc, &Alone, instance, &start, &effort, limits(false)).ok()?;
    let is_same = signed.sequence == counted.sequence;
    Some(is_same && is_wanted(&signed, wanted) && is_wanted(&counted, wanted))
}

/// Jobs, machines and times; a start, and the most directions; and what is wanted.
type Row = (u32, u32, &'static [u32], &'static [u16], u64, Wanted);

static ROWS: [Row; 14] = rows! {
    // Below 13 there is a sequence of 12, and two directions prove 12.
    3, 3, &THREE_MACHINES, &[2, 1, 3], 100_000_000, (12, 12, b"++");
    3, 3, &THREE_MACHINES, &[2, 1, 3], MAX_COUNTED_DIRECTIONS, (12, 12, b"++");
    3, 3, &THREE_MACHINES, &[2, 1, 3], 3, (12, 12, b"++");
    3, 3, &THREE_MACHINES, &[3, 1, 2], 2, (12, 12, b"++");
    // Empty directions prove 10. No sequence is reached by one direction.
    3, 3, &THREE_MACHINES, &[2, 1, 3], 1, (10, 13, b"");
    3, 3, &THREE_MACHINES, &[3, 1, 2], 1, (10, 12, b"");
    // The empty lists have the least makespan as their bound.
    3, 2, &TWO_MACHINES, &[1, 2, 3], 100, (9, 9, b"");
    3, 2, &TWO_MACHINES, &[2, 1, 3], 1, (9, 9, b"");
    3, 2, &TWO_MACHINES, &[1, 2, 3], 1, (9, 11, b"");
    // The start has Taillard's bound, so the first search has the greatest budget.
    2, 2, &[10, 0, 10, 0], &[1, 2], MAX_COUNTED_DIRECTIONS, (20, 20, b"++");
    14, 2, &ONE_LONG_JOB, ANY, 30_000, (24, 33, b"");
    14, 2, &ONE_LONG_JOB, ANY, 1, (24, 33, b"");
    1, 1, &[7], ANY, 5, (7, 7, b"");
    // All makespans are 0.
    800, 26, &[0; 20_800], ANY, 5, (0, 0, b"");
};

/// Whether the search comes to what a row says, with no effort.
fn holds(alloc: Global, row: &Row) -> bool {
    let (jobs, machines, times, start, most, wanted) = *row;
    let Ok(instance) = Instance::new(alloc, jobs, machines, times) else {
        return false;
    };
    comes_to(alloc, &instance, start, NO_EFFORT, most, wanted) == Some(true)
}

#[test]
fn search_comes_to_these_bounds(rt: HostRuntime) {
    for (number, row) in ROWS.iter().enumerate() {
        assert!(rt; holds(rt.alloc(), row), "row {number}");
    }
}

/// Jobs, machines and seed of an instance; its least makespan; and directions that prove it.
type Drawn = ([u32; 3], u64, &'static [u8]);

static DRAWN: [Drawn; 4] = [
    ([20, 5, 873_654_221], 1278, b"-----+-"),
    ([20, 5, 1_369_363_414], 1234, b"+-"),
    ([50, 5, 1_328_042_058], 2724, b"-"),
    ([100, 5, 896_678_084], 5493, b"----"),
];

/// Whether the search proves the least makespan of a row, from the starting sequence.
fn proves(alloc: Global, drawn: &Drawn) -> bool {
    let ([jobs, machines, seed], least, directions) = *drawn;
    let Ok(instance) = generate(alloc, jobs, machines, seed) else {
        return false;
    };
    let wanted = (least, least, directions);
    comes_to(alloc, &instance, ANY, SOME_EFFORT, 1_000_000, wanted) == Some(true)
}

#[test]
fn search_proves_least_makespans(rt: HostRuntime) {
    for (number, drawn) in DRAWN.iter().enumerate() {
        assert!(rt; proves(rt.alloc(), drawn), "row {number}");
    }
}
