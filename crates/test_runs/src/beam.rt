//! What the two-ended beam search comes to, which no contract says. Makespans and sequences are those of the plain
//! program bench/improve.rs without rounds, where nothing else is said.

use crate::searches::{ANY, DOWN, comes_to, start_of};
use flow_core::{Instance, generate};
use flow_improve::{Reached, beam, beam_below};
use std::alloc::Global;

/// More steps than the passes of these tests take.
const WORK: u64 = 6_000_000_000;

/// Jobs, machines and seed of an instance; a start; the greatest width and the steps; and the makespan, the jobs, and
/// whether the search was whole.
type Row = (
    [u32; 3],
    &'static [u16],
    u32,
    u64,
    u64,
    &'static [u16],
    bool,
);

static ROWS: [Row; 23] = rows! {
    // The pass of width 16 by bounds drops no child.
    [20, 5, 379_008_056], ANY, 16, WORK, 1359, WHOLE, true;
    [20, 5, 379_008_056], ANY, 4096, WORK, 1359, WHOLE, true;
    // Some pass drops a child.
    [15, 8, 7], ANY, 32, WORK, 1208, &[1, 5, 4, 3, 11, 6, 8, 7, 9, 15, 2, 12, 10, 14, 13], false;
    [20, 10, 587_595_453], ANY, 16, WORK, 1636, &[18, 9, 3, 17, 5, 19, 12, 4, 2, 20, 8, 13, 10, 6, 11, 14, 15, 7, 16,
        1], false;
    [30, 20, 5], ANY, 16, WORK, 2781, &[18, 7, 13, 20, 25, 1, 16, 28, 14, 8, 22, 2, 24, 19, 17, 10, 4, 9, 6, 23, 27,
        30, 12, 5, 15, 29, 11, 3, 26, 21], false;
    // A pass of width 1 may take 15 * 16 * 8 steps, so with fewer there is none.
    [15, 8, 7], ANY, 32, 0, 1247, NEH, false;
    [15, 8, 7], ANY, 32, 15 * 16 * 8 - 1, 1247, NEH, false;
    // Steps, and the makespan where no more are allowed: each is the least number with which one more pass is made, or
    // one less.
    [20, 10, 587_595_453], ANY, 4096, 81_479, 1680, ANY, false;
    [20, 10, 587_595_453], ANY, 4096, 81_480, 1670, ANY, false;
    [20, 10, 587_595_453], ANY, 4096, 112_279, 1670, ANY, false;
    [20, 10, 587_595_453], ANY, 4096, 112_280, 1661, ANY, false;
    [20, 10, 587_595_453], ANY, 4096, 176_439, 1661, ANY, false;
    [20, 10, 587_595_453], ANY, 4096, 176_440, 1636, ANY, false;
    [20, 10, 587_595_453], ANY, 4096, 365_539, 1636, ANY, false;
    [20, 10, 587_595_453], ANY, 4096, 365_540, 1608, ANY, false;
    [20, 10, 587_595_453], ANY, 4096, 481_219, 1608, ANY, false;
    [20, 10, 587_595_453], ANY, 4096, 481_220, 1601, ANY, false;
    // One job has one sequence, whose makespan is the bound: the search ends before its first pass.
    [1, 3, 5], ANY, 4, WORK, 145, &[1], true;
    // The second pass of width 1, which is the last one, has the bound.
    [30, 5, 129], ANY, 1, WORK, 1623, &[7, 19, 1, 8, 4, 24, 25, 6, 10, 28, 30, 2, 13, 23, 16, 11, 26, 12, 15, 3, 14,
        27, 5, 21, 17, 22, 29, 9, 20, 18], true;
    // With no pass, with no steps, the start and its makespan, by the recurrence; and on one machine, where the start
    // has the bound, the sum of its times, since all sequences have one makespan.
    [6, 4, 8], DOWN, 0, WORK, 413, DOWN, false;
    [6, 4, 8], DOWN, 8, 0, 413, DOWN, false;
    [6, 1, 8], DOWN, 8, WORK, 180, DOWN, true;
    [6, 1, 8], DOWN, 1, 0, 180, DOWN, true;
};

/// The best sequence of the first instance.
const WHOLE: &[u16] = &[
    6, 10, 17, 7, 3, 18, 15, 12, 13, 9, 5, 8, 1, 16, 4, 19, 11, 20, 14, 2,
];

/// The starting sequence of fifteen jobs on eight machines.
const NEH: &[u16] = &[4, 3, 7, 5, 15, 8, 10, 11, 6, 9, 2, 1, 12, 14, 13];

/// What the search comes to from a start of an instance; none where it is refused.
fn reached(
    alloc: Global,
    instance: &Instance,
    start: &[u16],
    width: u32,
    work: u64,
) -> Option<Reached> {
    match start_of(alloc, instance, start) {
        Some(start) => beam(alloc, instance, &start, width, work).ok(),
        None => None,
    }
}

/// Whether the search comes to what a row says.
fn holds(alloc: Global, row: &Row) -> bool {
    let ([jobs, machines, seed], start, width, work, value, list, whole) = *row;
    let Ok(instance) = generate(alloc, jobs, machines, seed) else {
        return false;
    };
    match reached(alloc, &instance, start, width, work) {
        Some(best) => comes_to(&best, value, list, whole),
        None => false,
    }
}

#[test]
fn beam_ends_at_its_widths_and_steps(rt: HostRuntime) {
    for (number, row) in ROWS.iter().enumerate() {
        assert!(rt; holds(rt.alloc(), row), "row {number}");
    }
}

/// A number, and what a search below it comes to with passes up to the width 32, of twenty jobs on ten machines: the
/// makespan, the jobs, and whether the search was whole. The start has the makespan 1680, and the bound is 1448.
static BELOW: [(u64, u64, &[u16], bool); 7] = rows! {
    0, 1680, OF_TWENTY, true;
    // A pass of width 1 keeps few children, and drops none.
    1449, 1680, OF_TWENTY, true;
    // No pass comes to a sequence.
    1601, 1680, OF_TWENTY, false;
    // The second pass of width 32 comes to it.
    1610, 1609, &[5, 9, 12, 17, 15, 4, 2, 3, 8, 19, 10, 14, 18, 6, 13, 11, 1, 20, 7, 16], false;
    1637, 1633, &[4, 5, 2, 12, 9, 18, 8, 15, 10, 14, 6, 3, 17, 19, 13, 16, 11, 1, 20, 7], false;
    // The makespan of the start is not below itself.
    1680, 1677, &[5, 4, 15, 9, 12, 17, 2, 18, 16, 8, 19, 3, 7, 14, 6, 20, 11, 1, 13, 10], false;
    // The start is below the threshold.
    1681, 1680, OF_TWENTY, false;
};

/// The starting sequence of these jobs.
const OF_TWENTY: &[u16] = &[
    18, 5, 2, 17, 3, 6, 12, 9, 15, 10, 20, 13, 8, 14, 19, 11, 4, 7, 1, 16,
];

/// Whether the search below a threshold comes to what a row says.
fn ends_below(alloc: Global, row: &(u64, u64, &'static [u16], bool)) -> bool {
    let (number, value, list, whole) = *row;
    let Ok(instance) = generate(alloc, 20, 10, 587_595_453) else {
        return false;
    };
    let Some(start) = start_of(alloc, &instance, ANY) else {
        return false;
    };
    match beam_below(alloc, &instance, &start, number, 32, WORK) {
        Ok(best) => comes_to(&best, value, list, whole),
        Err(_) => false,
    }
}

#[test]
fn beam_below_ends_with_a_sequence_below(rt: HostRuntime) {
    for row in &BELOW {
        assert!(rt; ends_below(rt.alloc(), row), "below {}", row.0);
    }
}

/// Times, and the bound where each of 800 jobs has this time on each of 26 machines.
static EVEN: [(u32, u64); 2] = [(0, 0), (999_999, 824_999_175)];

/// The instance of 800 jobs with this time on each of 26 machines; none where memory ran out.
fn even(alloc: Global, time: u32) -> Option<Instance> {
    match vec![in alloc; time; 20_800] {
        Ok(times) => Instance::new(alloc, 800, 26, times.as_slice()).ok(),
        Err(_) => None,
    }
}

/// Whether the search ends at the bound of a row.
fn ends_even(alloc: Global, row: &(u32, u64)) -> bool {
    let Some(instance) = even(alloc, row.0) else {
        return false;
    };
    match reached(alloc, &instance, ANY, 2, WORK) {
        Some(best) => comes_to(&best, row.1, ANY, true),
        None => false,
    }
}

// All sequences have one makespan, which is the bound.
#[test]
fn even_times_have_the_bound(rt: HostRuntime) {
    for row in &EVEN {
        assert!(rt; ends_even(rt.alloc(), row), "at {}", row.0);
    }
}

/// The instance with each time multiplied; none where it is refused.
fn scaled(alloc: Global, instance: &Instance, factor: u32) -> Option<Instance> {
    let Ok(mut times) = instance.times(alloc) else {
        return None;
    };
    for time in times.as_mut_slice() {
        *time = time.saturating_mul(factor);
    }
    let jobs = u32::from(instance.jobs());
    let machines = u32::from(instance.machines());
    Instance::new(alloc, jobs, machines, times.as_slice()).ok()
}

/// Whether the search comes to the same sequence in both instances, and in the second to 10,101 times the makespan.
fn are_alike(alloc: Global, instance: &Instance, greater: &Instance, width: u32) -> bool {
    let Some(best) = reached(alloc, instance, ANY, width, WORK) else {
        return false;
    };
    match reached(alloc, greater, ANY, width, WORK) {
        Some(same) => {
            same.value == best.value.saturating_mul(10_101)
                && same.sequence.jobs() == best.sequence.jobs()
        }
        None => false,
    }
}

/// Jobs, machines and the width.
static SCALED: [(u32, u32, u32); 3] = [(20, 10, 8), (60, 26, 4), (800, 26, 1)];

/// Whether the search comes to the same sequence where each time is multiplied by 10,101, and the makespan is, too.
fn stays(alloc: Global, row: &(u32, u32, u32)) -> bool {
    let (jobs, machines, width) = *row;
    let Ok(instance) = generate(alloc, jobs, machines, 11) else {
        return false;
    };
    match scaled(alloc, &instance, 10_101) {
        Some(greater) => are_alike(alloc, &instance, &greater, width),
        None => false,
    }
}

// Bounds grow with the times, and deficits and their sums with bounds by the square, so the order of children stays,
// and the search comes to the same sequence. The greatest time of these instances is 99, and 999,999 then.
#[test]
fn greater_times_have_the_same_sequence(rt: HostRuntime) {
    for row in &SCALED {
        assert!(rt; stays(rt.alloc(), row), "at {}", row.0);
    }
}
