//! Workers in threads.

ghost use Rattle.std.specs.Prelude.{◌≡◌};

use crate::groups::refused_where;
use crate::search::{is_worked, planned};
use flow_commands::CommandFault;
use flow_core::Instance;
use flow_lanes::{Sender, lane, settle};
use flow_pool::{
    Answer, Gate, Open, Report, SolveFault, Task, WorkerEnds, serve, solve, solve_limited,
};
use flow_search::{Outcome, Plan};
use std::alloc::Global;
use std::sync::Wait;
use std::sync::atomic::{AtomicU32, Ordering};
use std::thread::Threads;
use test_libraries::{AMPLE, TIGHT, three_machines};

/// Counts how often it is told of each of the three prefixes.
#[derive(Drop)]
struct Counts {
    told: [AtomicU32; 3],
}

impl Counts {
    /// No prefix yet.
    fn new() -> Counts {
        Counts {
            told: [AtomicU32::new(0), AtomicU32::new(0), AtomicU32::new(0)],
        }
    }

    /// Whether it was told so often of each prefix.
    fn are(&self, count: u32) -> bool {
        for told in &self.told {
            if told.load(Ordering::SeqCst) != count {
                return false;
            }
        }
        true
    }
}

impl Gate for Counts {
    fn reached(&self, _lane: u32, number: u32) {
        let place = (number as usize).min(2);
        self.told[place].fetch_add(1, Ordering::SeqCst);
    }
}

/// Whether an answer is that to prefix 2, where all else was right. One that has no memory is a refusal.
fn is_answer(answer: Option<Answer>, right: bool) -> Result<bool, CommandFault> {
    let Some(Answer { number, outcome }) = answer else {
        return Ok(false);
    };
    let right = right && number == 2;
    match outcome {
        Outcome::Done { best: _, tree } => Ok(right && tree.as_slice() == b"++.B".as_slice()),
        Outcome::NoMemory => refused_where(right),
        _ => Ok(false),
    }
}

/// Sends prefix 2, and then the end.
fn sends_tasks(sender: &mut Sender<Task>) -> bool
    ensures { sender.new.lane ≡ sender.old.lane }
{
    sender.try_send(Task::Prefix(2)).is_ok() && sender.try_send(Task::End).is_ok()
}

/// Whether `serve` answers one prefix, up to the end. The lane of its tasks has two slots, so it takes both.
fn is_served<T: Wait>(rt: &T, alloc: Global, plan: &Plan) -> Result<bool, CommandFault> {
    let (mut sender, tasks) = lane(alloc, 2)?;
    let (answers, mut receiver) = lane(alloc, 1)?;
    let sent = sends_tasks(&mut sender);
    let ends = serve(rt, alloc, plan, 0, WorkerEnds { tasks, answers }, &Open);
    let answer = receiver.try_recv();
    let tasks = settle(sender, ends.tasks).is_ok();
    let answers = settle(ends.answers, receiver).is_ok();
    is_answer(answer, sent && tasks && answers)
}

/// `serve`.
fn worker_serves<T: Wait>(
    rt: &T,
    alloc: Global,
    instance: &Instance,
) -> Result<bool, CommandFault> {
    let plan = planned(alloc, instance, 1, 1, AMPLE)?;
    is_served(rt, alloc, &plan)
}

/// A run of three prefixes: how many workers it has, its budget, how many of them may start, and its fault, if it has
/// one.
type Limited = (u32, u32, Option<u32>, Option<SolveFault>);

/// `solve` by three workers; by two workers beyond the budget; and `solve_limited` where the third may not start.
static SOLVES: [Limited; 3] = [
    (3, AMPLE, None, None),
    (2, TIGHT, None, Some(SolveFault::OverBudget(2))),
    (3, AMPLE, Some(2), Some(SolveFault::Threads)),
];

/// Whether a run came to what it should. Where the gate was told of one prefix, it was told of all three; where a
/// worker could not be started, of none.
fn is_right(
    solved: &Result<Report, SolveFault>,
    counts: &Counts,
    wanted: Option<SolveFault>,
) -> Result<bool, CommandFault> {
    match solved {
        Ok(report) => Ok(wanted.is_none() && is_worked(&report.verdict) && counts.are(1)),
        Err(SolveFault::Threads) if wanted == Some(SolveFault::Threads) => Ok(counts.are(0)),
        Err(SolveFault::Threads) => refused_where(counts.are(0)),
        Err(SolveFault::Memory) if wanted == Some(SolveFault::Threads) => refused_where(counts.are(
            0,
        )),
        Err(SolveFault::Memory) => refused_where(counts.are(0) || counts.are(1)),
        Err(fault) => Ok(wanted == Some(*fault)),
    }
}

/// `solve` and `solve_limited`.
fn plan_is_solved<T: Threads + Wait + Sync>(
    rt: &T,
    alloc: Global,
    instance: &Instance,
    limited: &Limited,
) -> Result<bool, CommandFault> {
    let (workers, budget, starts, wanted) = *limited;
    let plan = planned(alloc, instance, workers, 1, budget)?;
    let counts = Counts::new();
    let solved = match starts {
        Some(starts) => solve_limited(rt, alloc, &plan, &counts, starts),
        None => solve(rt, alloc, &plan, &counts),
    };
    is_right(&solved, &counts, wanted)
}

/// `serve`, `solve` and `solve_limited`.
pub(crate) fn workers_solve<T: Threads + Wait + Sync>(
    threads: &T,
    alloc: Global,
) -> Result<bool, CommandFault> {
    let instance = three_machines(alloc)?;
    let mut right = worker_serves(threads, alloc, &instance)?;
    for limited in &SOLVES {
        right = plan_is_solved(threads, alloc, &instance, limited)? && right;
    }
    Ok(right)
}
