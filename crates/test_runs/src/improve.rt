//! What beam and rounds come to, alone and together, which no contract says. Values and sequences are those of the
//! plain program bench/improve.rs, where nothing else is said.

use crate::searches::{ANY, DOWN, comes_to, effort_of, start_of};
use flow_bound::{neh, taillard_bound};
use flow_core::{Instance, generate};
use flow_improve::{Never, Reached, beam, improve, rounds_of_both};
use std::alloc::Global;

/// What rounds and a beam of width 32 come to together, of fifteen jobs on eight machines; and what that beam does.
const OF_BOTH: &[u16] = &[1, 3, 4, 11, 6, 8, 7, 5, 9, 12, 15, 2, 10, 14, 13];

const OF_BEAM: &[u16] = &[1, 5, 4, 3, 11, 6, 8, 7, 9, 15, 2, 12, 10, 14, 13];

/// Jobs, machines and seed of an instance; a start; width, rounds, seed and work; and the makespan, the jobs, and
/// whether the search was whole.
type Row = (
    [u32; 3],
    &'static [u16],
    [u32; 4],
    u64,
    &'static [u16],
    bool,
);

static ROWS: [Row; 24] = rows! {
    // The beam alone searches everything.
    [20, 5, 379_008_056], ANY, [4_096, 10_000, 1, 8_500], 1359, &[6, 10, 17, 7, 3, 18, 15, 12, 13, 9, 5, 8, 1, 16, 4,
        19, 11, 20, 14, 2], true;
    // The beam has 1208, and four rounds from the start 1214.
    [15, 8, 7], ANY, [32, 4, 1, 8_500], 1206, &[1, 3, 4, 11, 6, 8, 7, 5, 9, 12, 15, 2, 10, 14, 13], false;
    // The beam has 1636, and three rounds from the start 1629.
    [20, 10, 587_595_453], ANY, [16, 3, 1, 8_500], 1591, &[18, 4, 2, 9, 3, 17, 19, 5, 12, 8, 15, 10, 6, 14, 20, 11,
        13, 7, 1, 16], false;
    // The beam gives the start back, so both runs are one.
    [30, 20, 5], ANY, [16, 3, 1, 8_500], 2773, &[7, 28, 13, 20, 25, 1, 16, 22, 14, 17, 8, 2, 24, 19, 18, 10, 5, 4, 9,
        6, 23, 27, 30, 12, 15, 29, 11, 3, 26, 21], false;
    // Rounds from the best of the beam come to 1499. The seed is a large one.
    [20, 10, 4], ANY, [8, 50, 2_147_483_645, 8_500], 1495, &[14, 18, 7, 20, 16, 2, 11, 6, 5, 3, 4, 17, 1, 10, 8, 12,
        13, 15, 19, 9], false;
    // One round of the start is within the steps. With none the best would have 2004, with two 1995.
    [25, 13, 601], ANY, [16, 10_000, 7, 1], 2000, &[2, 3, 9, 20, 6, 17, 4, 1, 19, 7, 13, 5, 10, 8, 22, 11, 25, 21, 16,
        23, 24, 18, 14, 15, 12], false;
    // One round is within the steps. With none the best would have 2327, with two 2269.
    [30, 13, 5], ANY, [0, 10_000, 7, 1], 2271, &[18, 17, 13, 28, 30, 15, 6, 3, 24, 21, 11, 2, 29, 25, 19, 22, 14, 16,
        8, 26, 23, 5, 27, 20, 12, 4, 7, 9, 10, 1], false;
    // The first round has the bound 415.
    [6, 3, 17], ANY, [0, 100_000_000, 1, 8_500], 415, &[1, 6, 3, 2, 5, 4], true;
    // The beam has the bound 415, and there is no round.
    [6, 3, 17], ANY, [4, 100_000_000, 1, 8_500], 415, &[1, 2, 3, 5, 6, 4], true;
    // All sequences have one makespan, which is the bound.
    [7, 1, 9], ANY, [4, 600, 1, 8_500], 331, &[1, 4, 2, 7, 5, 3, 6], true;
    // From here on rounds without a beam, of which both runs are the same.
    [20, 10, 587_595_453], ANY, [0, 20, 3, 8_500], 1596, &[18, 5, 9, 12, 17, 3, 15, 4, 6, 19, 8, 2, 20, 10, 11, 14,
        13, 7, 1, 16], false;
    // The starting sequence. A round that takes a worse list for the best returns another.
    [20, 5, 873_654_221], ANY, [0, 5, 7, 8_500], 1286, &[3, 17, 9, 8, 15, 14, 11, 16, 13, 19, 6, 4, 5, 18, 1, 2, 10,
        7, 20, 12], false;
    [20, 10, 587_595_453], ANY, [0, 50, 3, 8_500], 1583, &[18, 5, 2, 12, 9, 10, 15, 17, 4, 13, 3, 6, 19, 8, 20, 11,
        14, 7, 16, 1], false;
    [20, 10, 587_595_453], ANY, [0, 1_000, 3, 8_500], 1582, &[18, 5, 2, 12, 9, 10, 4, 14, 13, 15, 17, 3, 6, 19, 8, 20,
        11, 7, 1, 16], false;
    [20, 10, 587_595_453], ANY, [0, 50, 2_147_483_645, 8_500], 1586, &[18, 5, 2, 12, 17, 15, 3, 9, 10, 14, 4, 6, 19,
        8, 20, 11, 13, 7, 1, 16], false;
    [21, 26, 8], ANY, [0, 40, 1, 8_500], 2638, &[2, 17, 10, 9, 12, 19, 8, 5, 18, 7, 1, 20, 13, 21, 3, 15, 6, 14, 4,
        16, 11], false;
    // The start has a makespan of one more than the bound, which the first round has; all these rounds would take
    // hours.
    [6, 3, 17], ANY, [0, 5, 1, 8_500], 415, &[1, 6, 3, 2, 5, 4], true;
    [6, 3, 17], ANY, [0, 100_000_000, 1, 8_500], 415, &[1, 6, 3, 2, 5, 4], true;
    // No sequence has the bound, 363: all 40,320 were tried.
    [8, 3, 12], ANY, [0, 20, 1, 8_500], 369, &[1, 3, 4, 8, 6, 5, 2, 7], false;
    // The seed is the greatest.
    [15, 7, 4], ANY, [0, 12, 2_147_483_646, 8_500], 969, &[3, 1, 14, 12, 2, 10, 13, 6, 5, 15, 7, 9, 8, 4, 11], false;
    // All jobs leave the list in each round.
    [3, 4, 1], ANY, [0, 6, 5, 8_500], 272, &[1, 3, 2], false;
    // One job has one sequence; its makespan is the sum of its times, which are the generator's first three numbers.
    [1, 3, 5], ANY, [0, 4, 9, 8_500], 145, &[1], true;
    // With no round, the start and its makespan, by the recurrence; and on one machine, where all sequences have one
    // makespan, the sum of the times, and none is below that of the start.
    [6, 4, 8], DOWN, [0, 0, 3, 8_500], 413, DOWN, false;
    [6, 1, 8], DOWN, [0, 9, 3, 8_500], 180, DOWN, true;
};

/// What is reached from a start of an instance; none where its numbers are no effort, or it is refused.
fn reached(
    alloc: Global,
    instance: &Instance,
    start: &[u16],
    numbers: [u32; 4],
) -> Option<Reached> {
    let Some(effort) = effort_of(numbers) else {
        return None;
    };
    match start_of(alloc, instance, start) {
        Some(start) => improve(alloc, instance, &start, &effort).ok(),
        None => None,
    }
}

/// Whether beam and rounds come to what a row says.
fn holds(alloc: Global, row: &Row) -> bool {
    let ([jobs, machines, of_instance], start, numbers, value, list, whole) = *row;
    let Ok(instance) = generate(alloc, jobs, machines, of_instance) else {
        return false;
    };
    match reached(alloc, &instance, start, numbers) {
        Some(best) => comes_to(&best, value, list, whole),
        None => false,
    }
}

#[test]
fn beam_and_rounds_improve_the_start(rt: HostRuntime) {
    for (number, row) in ROWS.iter().enumerate() {
        assert!(rt; holds(rt.alloc(), row), "row {number}");
    }
}

/// Jobs, machines and seed of an instance; the makespan of its starting sequence, and its bound.
static STARTS: [([u32; 3], u64, u64); 5] = [
    ([20, 5, 379_008_056], 1365, 1290),
    ([15, 8, 7], 1247, 1151),
    ([30, 5, 129], 1656, 1623),
    ([6, 3, 17], 416, 415),
    ([8, 3, 12], 372, 363),
];

/// Whether the starting sequence and the bound of an instance are those of a row.
fn begins(alloc: Global, row: &([u32; 3], u64, u64)) -> bool {
    let ([jobs, machines, seed], value, bound) = *row;
    let Ok(instance) = generate(alloc, jobs, machines, seed) else {
        return false;
    };
    match neh(alloc, &instance) {
        Ok((_, makespan)) => makespan == value && taillard_bound(&instance) == bound,
        Err(_) => false,
    }
}

#[test]
fn starts_and_bounds_are_those_of_the_tables(rt: HostRuntime) {
    for (number, row) in STARTS.iter().enumerate() {
        assert!(rt; begins(rt.alloc(), row), "row {number}");
    }
}

/// Work, and the steps of its beam: 12 of 17 parts, rounded down.
static STEPS: [(u32, u64); 6] = [
    (0, 0),
    (1, 705_882),
    (2, 1_411_764),
    (17, 12_000_000),
    (8_500, 6_000_000_000),
    (1_000_000, 705_882_352_941),
];

/// Whether the beam has the steps of a row.
fn are_dealt(row: &(u32, u64)) -> bool {
    match effort_of([1, 1, 1, row.0]) {
        Some(effort) => effort.beam_work() == row.1,
        None => false,
    }
}

#[test]
fn steps_are_dealt(rt: HostRuntime) {
    for row in &STEPS {
        assert!(rt; are_dealt(row), "of {}", row.0);
    }
}

/// What four rounds from both come to after a beam of width 32, which may be taken for whole; none where memory ran
/// out.
fn rounds_after(alloc: Global, instance: &Instance, whole: bool) -> Option<Reached> {
    let Some(effort) = effort_of([32, 4, 1, 8_500]) else {
        return None;
    };
    let Some(start) = start_of(alloc, instance, ANY) else {
        return None;
    };
    match beam(alloc, instance, &start, effort.width(), effort.beam_work()) {
        Ok(mut beamed) => {
            beamed.whole = whole;
            rounds_of_both(alloc, instance, &start, &beamed, &effort, &Never).ok()
        }
        Err(_) => None,
    }
}

/// Whether these rounds come to this.
fn come_to(alloc: Global, whole: bool, value: u64, jobs: &[u16]) -> bool {
    let Ok(instance) = generate(alloc, 15, 8, 7) else {
        return false;
    };
    match rounds_after(alloc, &instance, whole) {
        Some(best) => comes_to(&best, value, jobs, whole),
        None => false,
    }
}

// The four rounds from both come to 1206, and a beam of 1208 that is whole needs none.
#[test]
fn a_beam_that_is_whole_stays(rt: HostRuntime) {
    assert!(rt; come_to(rt.alloc(), false, 1206, OF_BOTH));
    assert!(rt; come_to(rt.alloc(), true, 1208, OF_BEAM));
}
