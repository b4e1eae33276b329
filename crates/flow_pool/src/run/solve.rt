//! The whole run of a plan: workers, hub, settled lanes and verdict.

ghost use Rattle.std.specs.Prelude.{◌≡◌, ◌<◌, ◌≤◌, ◌⊎◌, [], Err, IfOk, IfErr, map, vec_len, vec_capacity};
ghost use Rattle.flow_pool.specs.declared.run.solve.SolveFault.TheVariants.{Memory, Threads};
ghost use Rattle.flow_pool.specs.Report.{IsReport, IsSolveFault, solve_fault};
ghost use Rattle.flow_pool.specs.internal.Runs.{IsMade, IsRun};

use crate::lane_ends::HubState;
use crate::refusal::Refusal;
use crate::run::make::{Made, make_run};
use crate::settling::{LanePair, settle_all};
use crate::threads::{Ended, Started, run_workers};
use crate::waker::HubGate;
use crate::{Answer, Gate};
use flow_search::{Outcome, Plan, RunFault, Verdict, conclude, first_refusal};
use std::alloc::{AllocError, Global};
use std::sync::Wait;
use std::thread::Threads;
use thiserror::Error;

/// The verdict of a run, and the settled lanes of its workers.
#[derive(Drop)]
pub struct Report {
    /// The least makespan, a sequence that attains it, and the tree of each prefix.
    pub verdict: Verdict,
    /// The settled lanes of each worker, in the order of the workers.
    pub lanes: Vec<LanePair>,
}

/// What comes of a run that may start only some of its workers.
#[derive(Drop)]
enum RunOutcome {
    /// All workers were started, and this is the verdict.
    Whole(Verdict),
    /// All workers were started, and there is no verdict.
    Fault(RunFault),
    /// As many workers were started as may be, and the plan has more.
    UsedUp,
    /// The system refused to start a worker.
    Refused(Refusal),
}

/// Why a run has no report.
#[derive(Clone, Copy, Debug, PartialEq, Eq, Error)]
pub enum SolveFault {
    /// Memory ran out, in this thread or in a worker.
    #[error("Memory")]
    Memory,
    /// A worker could not be started.
    #[error("Threads")]
    Threads,
    /// The tree of this prefix, counted from 0, is the first that is longer than the budget.
    #[error("OverBudget {0}")]
    OverBudget(u32),
}

impl From<AllocError> for SolveFault {
    ghost from_gives = { λ _ fault. fault ≡ Memory };

    fn from(_error: AllocError) -> SolveFault {
        SolveFault::Memory
    }
}

impl From<RunFault> for SolveFault {
    ghost from_gives = { λ run fault. fault ≡ solve_fault run };

    fn from(fault: RunFault) -> SolveFault {
        match fault {
            RunFault::OverBudget(number) => SolveFault::OverBudget(number),
            RunFault::Memory => SolveFault::Memory,
        }
    }
}

/// The outcomes of the answers, put into `room`, which has memory for them.
fn outcomes_of(answers: Vec<Answer>, room: Vec<Outcome>) -> Vec<Outcome>
    requires { (room.items ≡ []) × (vec_len answers ≤ vec_capacity room) }
    ensures { result.items ≡ map (λ answer. answer.outcome) answers.items }
{
    let mut outcomes = room;
    'each: for answer in answers {
        let Answer { number: _, outcome } = answer;
        outcomes.push_reserved(outcome);
    }
    outcomes
}

/// Runs as `solve_limited` does, from the start of the first worker on, and tells apart why not all workers were
/// started. Where the starts are used up it says so, whether or not there is memory. Returns what comes of it, and the
/// settled lanes of each worker that was started.
fn run_made<R: Threads + Wait + Sync, G: Gate + Sync>(
    rt: &R,
    alloc: Global,
    plan: &Plan,
    gate: &HubGate<G>,
    starts: u32,
    made: Made,
) -> (RunOutcome, Vec<LanePair>)
    requires { IsMade plan.now made }
    ensures { IsRun plan.now starts result.0 result.1 }
{
    let Made {
        ends,
        hub,
        room,
        mut lanes,
    } = made;
    let ended = run_workers(rt, alloc, plan, gate, starts, ends, hub);
    let Ended {
        start,
        workers,
        hub,
    } = ended;
    let HubState { hubs, answers, .. } = hub;
    settle_all(hubs, workers, &mut lanes);
    match start {
        Started::Complete => {}
        Started::UsedUp => return (RunOutcome::UsedUp, lanes),
        Started::Refused(refusal) => return (RunOutcome::Refused(refusal), lanes),
    }
    let outcomes = outcomes_of(answers, room);
    if let Some(fault) = first_refusal(&outcomes) {
        return (RunOutcome::Fault(fault), lanes);
    }
    match conclude(alloc, plan, outcomes) {
        Ok(verdict) => (RunOutcome::Whole(verdict), lanes),
        Err(fault) => (RunOutcome::Fault(fault), lanes),
    }
}

/// Solves the plan as `solve` does, but starts at most `starts` workers: the next start counts as one that failed.
/// Where the plan has more workers it refuses, by `Memory` before any worker starts, else by `Threads`. So a caller can
/// try a start that fails.
pub fn solve_limited<R: Threads + Wait + Sync, G: Gate + Sync>(
    rt: &R,
    alloc: Global,
    plan: &Plan,
    gate: &G,
    starts: u32,
) -> Result<Report, SolveFault>
    ensures report { IfOk result (λ report. IsReport plan.now report) }
    ensures fault { IfErr result (λ fault. IsSolveFault plan.now fault) }
    ensures limited { starts < plan.now.options.workers → (result ≡ Err Memory) ⊎ (result ≡ Err Threads) }
{
    let made = make_run(alloc, plan)?;
    let gate = HubGate::new(gate, &made.hub.parker)?;
    let (outcome, lanes) = run_made(rt, alloc, plan, &gate, starts, made);
    match outcome {
        RunOutcome::Whole(verdict) => Ok(Report { verdict, lanes }),
        RunOutcome::Fault(fault) => Err(SolveFault::from(fault)),
        RunOutcome::UsedUp => {
            let workers = plan.options().workers();
            prove!(starts < workers);
            Err(SolveFault::Threads)
        }
        RunOutcome::Refused(_) => Err(SolveFault::Threads),
    }
}

/// Solves the plan. Each worker answers its prefixes in its own thread; this thread sends the prefixes and collects the
/// answers. All lanes and lists are made before a worker starts. If a fault comes after that, it is returned once each
/// worker that was started has ended and its lanes are settled. Once an answer is over the budget no more prefixes are
/// sent.
pub fn solve<R: Threads + Wait + Sync, G: Gate + Sync>(
    rt: &R,
    alloc: Global,
    plan: &Plan,
    gate: &G,
) -> Result<Report, SolveFault>
    ensures report { IfOk result (λ report. IsReport plan.now report) }
    ensures fault { IfErr result (λ fault. IsSolveFault plan.now fault) }
{
    solve_limited(rt, alloc, plan, gate, plan.options().workers())
}
