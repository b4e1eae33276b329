//! Whole runs, in threads.

use crate::gates::{Calls, Hold, Holding};
use flow_pool::{Gate, Open, Report, SolveFault, solve, solve_limited};
use flow_search::{Options, Plan, Verdict, prepare, solve_plain};
use flow_shop::Instance;
use std::alloc::Global;
use std::sync::Wait;
use std::thread::Threads;

/// A budget that no tree exceeds.
pub(crate) const AMPLE: u32 = 1_000_000;

/// The numbers of jobs and machines of an instance, and its times, machine by machine.
pub(crate) type Shop = (u32, u32, &'static [u32]);

/// Three jobs on three machines, with rows `4 0 0`, `0 8 2` and `4 0 1`.
pub(crate) const THREE_MACHINES: Shop = (3, 3, &[4, 0, 0, 0, 8, 2, 4, 0, 1]);

/// Eight jobs of times 1 and 1, and one of times 10 and 10. Each sequence has makespan 28, and no bound is 28 before
/// the last job is there. So the search of a prefix takes much longer than the hub takes to park again.
const ONE_LONG_JOB: Shop = (
    9,
    2,
    &[1, 1, 1, 1, 1, 1, 1, 1, 10, 1, 1, 1, 1, 1, 1, 1, 1, 10],
);

/// Ten jobs on one machine, all of time 0.
const NO_TIME: Shop = (10, 1, &[0, 0, 0, 0, 0, 0, 0, 0, 0, 0]);

/// How a plan is run.
#[derive(Clone, Copy)]
enum How {
    /// By `solve`.
    Solve,
    /// By `solve_limited`, where so many workers may start.
    Limited(u32),
    /// By `solve_plain`, on one thread.
    Plain,
}

/// What is to come of a run.
#[derive(Clone, Copy)]
enum Wanted {
    /// The verdict of the three machines, with these trees, and the lanes of all workers.
    Worked(&'static [&'static [u8]]),
    /// The least makespan, and so many trees.
    Found(u64, usize),
    /// A fault.
    Fault(SolveFault),
}

/// A run: the instance, the workers, the depth, the budget, how it is run, and what is to come of it.
#[derive(Clone, Copy)]
struct Run {
    shop: Shop,
    workers: u32,
    depth: u32,
    budget: u32,
    how: How,
    wanted: Wanted,
}

/// The verdict of the three machines at depth 1.
const WORKED: Wanted = Wanted::Worked(&[b"B", b"C", b"++.B"]);

/// The verdict of the three machines at depth 0.
const ROOT: Wanted = Wanted::Worked(&[b"+BC++.B"]);

/// The verdict of the three machines at depth 3.
const LEAVES: Wanted = Wanted::Worked(&[b".", b".", b".", b".", b".", b"."]);

/// A run of the three machines at depth 1 with one worker.
const RUN: Run = Run {
    shop: THREE_MACHINES,
    workers: 1,
    depth: 1,
    budget: AMPLE,
    how: How::Solve,
    wanted: WORKED,
};

/// Whether a verdict is that of the three machines, with these trees.
fn is_worked(verdict: &Verdict, trees: &[&[u8]]) -> bool {
    let mut same = verdict.value == 12
        && verdict.sequence.jobs() == [3, 1, 2].as_slice()
        && verdict.trees.len() == trees.len();
    for (tree, want) in verdict.trees.iter().zip(trees) {
        same = same && tree.as_slice() == *want;
    }
    same
}

/// Whether that came of a run by `solve` or by `solve_limited`.
fn came(solved: &Result<Report, SolveFault>, run: &Run) -> bool {
    match (solved, run.wanted) {
        (Ok(report), Wanted::Worked(trees)) => {
            is_worked(&report.verdict, trees) && report.lanes.len() == run.workers as usize
        }
        (Ok(report), Wanted::Found(value, trees)) => {
            report.verdict.value == value && report.verdict.trees.len() == trees
        }
        (Err(fault), Wanted::Fault(other)) => *fault == other,
        _ => false,
    }
}

/// Whether one thread finds the verdict of a run.
fn is_plain(alloc: Global, plan: &Plan, run: &Run) -> bool {
    let Wanted::Worked(trees) = run.wanted else {
        return false;
    };
    match solve_plain(alloc, plan) {
        Ok(verdict) => is_worked(&verdict, trees),
        Err(_) => false,
    }
}

/// A plan with the workers, the depth and the budget of these options.
pub(crate) fn planned<'a>(
    alloc: Global,
    instance: &'a Instance,
    options: (u32, u32, u32),
) -> Option<Plan<'a>> {
    let (workers, depth, budget) = options;
    match Options::new(workers, depth, budget) {
        Ok(options) => prepare(alloc, instance, options).ok(),
        Err(_) => None,
    }
}

/// Whether a run of a plan comes to what it should.
fn comes_right<R: Threads + Wait + Sync, G: Gate + Sync>(
    rt: &R,
    alloc: Global,
    plan: &Plan,
    run: &Run,
    gate: &G,
) -> bool {
    match run.how {
        How::Solve => came(&solve(rt, alloc, plan, gate), run),
        How::Limited(starts) => came(&solve_limited(rt, alloc, plan, gate, starts), run),
        How::Plain => is_plain(alloc, plan, run),
    }
}

/// Whether a run comes to what it should.
fn is_right<R: Threads + Wait + Sync, G: Gate + Sync>(
    rt: &R,
    alloc: Global,
    run: &Run,
    gate: &G,
) -> bool {
    let (jobs, machines, times) = run.shop;
    let Ok(instance) = Instance::new(alloc, jobs, machines, times) else {
        return false;
    };
    match planned(alloc, &instance, (run.workers, run.depth, run.budget)) {
        Some(plan) => comes_right(rt, alloc, &plan, run, gate),
        None => false,
    }
}

/// Whether so many workers, and one thread, come to the verdict of the three machines.
fn succeed<R: Threads + Wait + Sync>(rt: &R, alloc: Global, workers: u32) -> bool {
    let run = Run { workers, ..RUN };
    let plain = Run {
        how: How::Plain,
        ..run
    };
    is_right(rt, alloc, &run, &Open) && is_right(rt, alloc, &plain, &Open)
}

#[test]
fn solve_and_serve_succeed(rt: HostRuntime) {
    for workers in 1..65u32 {
        assert!(rt; succeed(&rt, rt.alloc(), workers), "{workers} workers");
    }
}

/// A run of ten jobs of no time with two workers.
const ALL_PREFIXES: Run = Run {
    shop: NO_TIME,
    workers: 2,
    depth: 2,
    wanted: Wanted::Found(0, 90),
    ..RUN
};

#[test]
fn hub_is_unparked_at_each_prefix(rt: HostRuntime) {
    let run = ALL_PREFIXES;
    for _ in 0..20u32 {
        assert!(rt; is_right(&rt, rt.alloc(), &run, &Open));
    }
}

/// How many workers there are, the budget, and what is to come.
type Budgeted = (u32, u32, Wanted);

/// The budget is exceeded by prefix 2.
const OVER: Wanted = Wanted::Fault(SolveFault::OverBudget(2));

static BUDGETS: [Budgeted; 8] = [
    (1, 3, OVER),
    (1, 4, WORKED),
    (2, 3, OVER),
    (2, 4, WORKED),
    (3, 3, OVER),
    (3, 4, WORKED),
    (64, 3, OVER),
    (64, 4, WORKED),
];

/// Whether a run within a budget comes to what it should.
fn is_budgeted<R: Threads + Wait + Sync>(rt: &R, alloc: Global, row: &Budgeted) -> bool {
    let (workers, budget, wanted) = *row;
    let run = Run {
        workers,
        budget,
        wanted,
        ..RUN
    };
    is_right(rt, alloc, &run, &Open)
}

#[test]
fn budget_is_exceeded_by_the_same_prefix(rt: HostRuntime) {
    for (number, row) in BUDGETS.iter().enumerate() {
        assert!(rt; is_budgeted(&rt, rt.alloc(), row), "row {number}");
    }
}

/// For how many turns a worker is held so that the hub parks.
const PARKED: u64 = 2_000_000;

/// A run whose workers are held, where they are held, and the bits of prefixes that are reached.
type Held = (Run, &'static [Hold], u32);

/// The first two or three prefixes are held until all of them were reached. In the last run prefix 0 is held until
/// prefix 9 was reached, and then so long that the hub parks: the lane of worker 0 is full, answer 0 is the next in
/// turn, and worker 1 receives no more. There prefix 2 is held until prefix 11 was reached, which the hub has still to
/// send.
static HELD: [Held; 3] = rows! {
    Run { workers: 2, ..RUN }, &[(0, 0b11, 0), (1, 0b11, 0)], 0b111;
    Run { workers: 3, ..RUN }, &[(0, 0b111, 0), (1, 0b111, 0), (2, 0b111, 0)], 0b111;
    Run { shop: ONE_LONG_JOB, workers: 2, depth: 2, wanted: Wanted::Found(28, 72), ..RUN }, &[(0, 0b10_0000_0000,
        PARKED), (2, 0b1000_0000_0000, 0)], 0b1111_1111_1111;
};

/// Whether a run comes to what it should where its workers are held, none of them gives up, and its prefixes are
/// reached.
fn is_held<R: Threads + Wait + Sync>(rt: &R, alloc: Global, row: &Held) -> bool {
    let gate = Holding::new(row.1);
    is_right(rt, alloc, &row.0, &gate) && gate.has_reached(row.2) && !gate.is_late()
}

/// Workers run side by side, and the hub is unparked before the gate is told.
#[test]
fn solve_runs_workers_side_by_side(rt: HostRuntime) {
    for (number, row) in HELD.iter().enumerate() {
        assert!(rt; is_held(&rt, rt.alloc(), row), "row {number}");
    }
}

/// Runs whose calls of the gate are noted, and how many prefixes they have.
static TOLD: [(Run, u32); 4] = rows! {
    Run { workers: 2, depth: 0, wanted: ROOT, ..RUN }, 1;
    Run { depth: 3, wanted: LEAVES, ..RUN }, 6;
    Run { workers: 64, ..RUN }, 3;
    Run { workers: 64, ..ALL_PREFIXES }, 90;
};

/// Whether each prefix was told once, by its worker; and in its turn, where there is one worker.
fn are_told(calls: &Calls, prefixes: u32, workers: u32) -> bool {
    for number in 0..prefixes {
        let Some(lane) = number.checked_rem(workers) else {
            return false;
        };
        let in_turn = workers > 1 || calls.is(number as usize, lane, number);
        if !in_turn || !calls.is_once(lane, number) {
            return false;
        }
    }
    calls.count() == prefixes as usize
}

/// Whether a run comes to what it should, and each of its prefixes was told once.
fn is_told<R: Threads + Wait + Sync>(rt: &R, alloc: Global, row: &(Run, u32)) -> bool {
    match Calls::new(alloc, row.1) {
        Ok(calls) => {
            is_right(rt, alloc, &row.0, &calls) && are_told(&calls, row.1, row.0.workers)
        }
        Err(_) => false,
    }
}

#[test]
fn gate_is_told_once_of_each_prefix(rt: HostRuntime) {
    for (number, row) in TOLD.iter().enumerate() {
        assert!(rt; is_told(&rt, rt.alloc(), row), "row {number}");
    }
}

/// How often the gate is told in a run; none where the run does not come to what it should.
fn told<R: Threads + Wait + Sync>(rt: &R, alloc: Global, run: &Run) -> Option<usize> {
    match Calls::new(alloc, 0) {
        Ok(calls) => {
            if is_right(rt, alloc, run, &calls) {
                Some(calls.count())
            } else {
                None
            }
        }
        Err(_) => None,
    }
}

/// Whether a run over its budget ends soon. Until the hub takes an answer, a worker was sent nine prefixes at most:
/// four answers stand in its lane, it holds a fifth, and four tasks stand in its other lane.
fn ends_soon<R: Threads + Wait + Sync>(rt: &R, alloc: Global, workers: u32) -> bool {
    let run = Run {
        shop: ONE_LONG_JOB,
        workers,
        depth: 2,
        budget: 1,
        wanted: Wanted::Fault(SolveFault::OverBudget(0)),
        ..RUN
    };
    match told(rt, alloc, &run) {
        Some(count) => count as u64 <= 9 * u64::from(workers),
        None => false,
    }
}

#[test]
fn run_over_its_budget_ends_soon(rt: HostRuntime) {
    for workers in 1..5u32 {
        assert!(rt; ends_soon(&rt, rt.alloc(), workers), "{workers} workers");
    }
}

/// How many of three workers may start, what is to come of it, and how often the gate is told.
type Limited = (u32, Wanted, usize);

static LIMITED: [Limited; 4] = [
    (0, Wanted::Fault(SolveFault::Threads), 0),
    (1, Wanted::Fault(SolveFault::Threads), 0),
    (2, Wanted::Fault(SolveFault::Threads), 0),
    (3, WORKED, 3),
];

/// Whether a run with so many workers comes to what it should.
fn is_limited<R: Threads + Wait + Sync>(rt: &R, alloc: Global, row: &Limited) -> bool {
    let (starts, wanted, count) = *row;
    let run = Run {
        workers: 3,
        how: How::Limited(starts),
        wanted,
        ..RUN
    };
    told(rt, alloc, &run) == Some(count)
}

#[test]
fn no_prefix_is_reached_where_a_start_fails(rt: HostRuntime) {
    for (number, row) in LIMITED.iter().enumerate() {
        assert!(rt; is_limited(&rt, rt.alloc(), row), "row {number}");
    }
}

/// The faults of a run, and how they are printed.
static FAULTS: [(SolveFault, &str); 3] = [
    (SolveFault::Memory, "Memory"),
    (SolveFault::Threads, "Threads"),
    (SolveFault::OverBudget(2), "OverBudget 2"),
];

/// Whether a fault is printed so.
fn is_printed(alloc: Global, row: &(SolveFault, &str)) -> bool {
    match format!(in alloc; "{}", row.0) {
        Ok(text) => text.as_str() == row.1,
        Err(_) => false,
    }
}

#[test]
fn faults_are_printed_by_their_names(rt: HostRuntime) {
    for (number, row) in FAULTS.iter().enumerate() {
        assert!(rt; is_printed(rt.alloc(), row), "row {number}");
    }
}
