//! What a worker does in its thread.

ghost use Rattle.std.specs.Prelude.{◌≡◌, ◌++◌, [], ◌∷◌};
ghost use Rattle.flow_pool.specs.Work.{IsFresh, IsLawfulAnswer, Fit, worker_lanes};

use crate::{Answer, Gate, Task, WorkerEnds};
use crossbeam_utils::Backoff;
use flow_lanes::{Receiver, Sender};
use flow_search::{Outcome, Plan, answer};
use std::alloc::Global;
use std::sync::Wait;

/// Waits for the next item of the lane, and returns it.
fn receive<T>(rt: &impl Wait, lane: &mut Receiver<T>) -> T
    ensures lane { lane.new.lane ≡ lane.old.lane }
    ensures received { lane.new.received ≡ lane.old.received ++ result ∷ [] }
{
    let backoff = Backoff::new();
    for _ in rt.forever() {
        if let Some(item) = lane.try_recv() {
            return item;
        }
        backoff.snooze();
    }
    unreachable!()
}

/// Sends the item, and waits until the lane has room for it.
fn send<T>(rt: &impl Wait, lane: &mut Sender<T>, item: T)
    ensures lane { lane.new.lane ≡ lane.old.lane }
    ensures sent { lane.new.sent ≡ lane.old.sent ++ item ∷ [] }
{
    let backoff = Backoff::new();
    let mut item = item;
    for _ in rt.forever() {
        match lane.try_send(item) {
            Ok(()) => return,
            Err(back) => item = back,
        }
        backoff.snooze();
    }
    unreachable!()
}

/// The answer to the prefix of a number; `NoPrefix` where the plan has none of this number.
fn answer_to(alloc: Global, plan: &Plan, number: u32) -> Answer
    ensures number { result.number ≡ number }
    ensures lawful { IsLawfulAnswer plan.now result }
{
    let outcome = if number < plan.prefixes() {
        answer(alloc, plan, number)
    } else {
        Outcome::NoPrefix
    };
    Answer { number, outcome }
}

/// Receives tasks up to the first `End`, and no more, and answers each prefix before it receives the next. Returns the
/// same ends. `lane` is the worker's index, which the gate is told.
pub fn serve<R: Wait, G: Gate>(
    rt: &R,
    alloc: Global,
    plan: &Plan,
    lane: u32,
    ends: WorkerEnds,
    gate: &G,
) -> WorkerEnds
    requires fresh { IsFresh ends }
    ensures same_lanes { worker_lanes result ≡ worker_lanes ends }
    ensures fit { Fit plan.now result.tasks.received result.answers.sent }
{
    let mut ends = ends;
    for _ in rt.forever() {
        let Task::Prefix(number) = receive(rt, &mut ends.tasks) else {
            break;
        };
        gate.reached(lane, number);
        send(rt, &mut ends.answers, answer_to(alloc, plan, number));
    }
    ends
}
