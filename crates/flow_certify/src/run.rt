//! A run of `certify`, as numbers: which task is next, and what an answer changes.

ghost use Rattle.std.specs.Prelude.{◌≡◌, ◌↔◌, ◌<◌, ◌≤◌, cond, true, false, None, [], length};
ghost use Rattle.std.specs.Prelude.{◌&&◌, IfSome, IsSome, IsSomeAnd, IsTrue, if◌then◌else◌};
ghost use Rattle.flow_shop.specs.Paths.{span};
ghost use Rattle.flow_shop.specs.Ends.{end_bound};
ghost use Rattle.flow_bound.specs.Taillard.{taillard_bound};
ghost use Rattle.flow_certify.specs.Schedule.{IsNext, act_at_hand, asked_of, beam_made, beam_of, first_run, halved};
ghost use Rattle.flow_certify.specs.Schedule.{improved, passed, raised, ran_over, rounds_of, run_after, search_of};
ghost use Rattle.flow_certify.specs.Schedule.{went_on};
ghost use Rattle.flow_certify.specs.Signs.{most_searched};
ghost use Rattle.flow_certify.specs.declared.task.Task.TheVariants.{End};
ghost use Rattle.flow_certify.specs.Tasks.{acts, IsAnswered, IsAsked, HasSameBounds, may_ask, may_become};

use crate::acts::{ACTS, Act, WHOLE};
use crate::budgets::{Budget, Fund};
use crate::most::MostDirections;
use crate::task::{Answer, Origin, Task};
use flow_bound::taillard_bound;
use flow_improve::{BeamLimits, Effort, RunLimits};
use flow_limits::MAX_WIDTH;
use flow_nodes::Node;
use flow_shop::{Instance, Sequence, makespan};

/// The widest beam after which the searches have small budgets, before the whole beam.
const NARROW: u32 = 16;

/// How many times the steps of the beam a beam may take that is aimed at the number after the proved one.
const AIMED_SHARE: u64 = 4;

/// The most tasks of a run. No run comes near it.
const MOST_TASKS: u32 = 1_000_000_000;

/// Where a run stands. It is numbers alone: it can be copied, kept in a file, and gone on with. `next` says what is to
/// be done, `put` takes what became of it. Who does so keeps three sequences, the start, the best one and the one that
/// was the best before it, and the directions that proved the lower bound, or how many they are.
#[repr(C)]
#[derive(Clone, Copy, Debug)]
pub struct Run {
    /// No sequence has a smaller makespan.
    pub lower: u64,
    /// The makespan of the best sequence.
    pub upper: u64,
    /// Taillard's lower bound.
    pub least: u64,
    /// The makespan of the start.
    pub start: u64,
    /// How many directions the searches may write.
    pub fund: Fund,
    /// The greatest budget with which the search below the makespan of the best sequence was over; 0 where none was.
    pub over: u64,
    /// The lower bound at the beginning of the step.
    pub step_lower: u64,
    /// The upper bound at the beginning of the step.
    pub step_upper: u64,
    /// By how much the lower bound is to be raised next.
    pub stride: u64,
    /// The least threshold whose search was over since the act began; the greatest number where none was.
    pub top: u64,
    /// The greatest threshold that a beam came to no sequence below since the act began; 0 where there is none.
    pub missed: u64,
    /// How many tasks may follow.
    pub tasks: u32,
    /// The step, of 8.
    pub step: u32,
    /// The place of the act at hand.
    pub act: u32,
    /// 1 where the time of the run is limited, else 0.
    pub limited: u32,
}

impl Run {
    /// A run from a start, each of whose searches writes at most so many directions.
    pub fn new(instance: &Instance, start: &Sequence, most: MostDirections, limited: bool) -> Run
        requires { length start.now ≡ instance.now.jobs }
        ensures first { result ≡ first_run instance.now start.now most limited }
        ensures lower { result.lower ≡ end_bound instance.now [] [] }
        ensures upper { result.upper ≡ span instance.now start.now }
        ensures least { result.least ≡ taillard_bound instance.now }
        ensures most { result.fund.most ≤ most_searched most }
        ensures limited { result.limited ≡ cond limited 1 0 }
    {
        let upper = makespan(instance, start);
        let least = taillard_bound(instance);
        // What empty directions prove: the bound of the node of two empty lists.
        let lower = u64::from(Node::root(instance).bound(instance));
        Run {
            lower,
            upper,
            least,
            start: upper,
            fund: Fund::new(instance, upper, most),
            over: 0,
            step_lower: lower,
            step_upper: upper,
            stride: 1,
            top: u64::MAX,
            missed: 0,
            tasks: MOST_TASKS,
            step: 1,
            act: if upper == least { WHOLE } else { 0 },
            limited: if limited { 1 } else { 0 },
        }
    }

    /// The act at hand. There is none where the best sequence is proved, no task may follow, or all acts are passed.
    #[tactic(auto, unfolding(crate::specs::Schedule::act_at_hand))]
    fn act_at_hand(&self) -> Option<Act>
        ensures act { result ≡ act_at_hand self.now }
        ensures open { IsSome result → (self.now.lower < self.now.upper) × (self.now.act < acts) }
        ensures end { result ≡ None → IsAsked self.now End }
    {
        if self.lower >= self.upper || self.tasks == 0 {
            return None;
        }
        ACTS.get(self.act as usize).copied()
    }

    /// What is to be done next.
    pub fn next(&mut self, effort: &Effort) -> Task
        ensures next { IsNext effort.now self.old self.new result }
        ensures asked { IsAsked self.new result }
        ensures bounds { HasSameBounds self.old self.new }
        ensures tasks { self.new.tasks ≡ self.old.tasks }
    {
        'acts: while let Some(act) = self.act_at_hand() {
            if let Some(task) = self.task_of(act, effort) {
                return task;
            }
            self.pass(act);
        }
        Task::End
    }

    /// What an act has to do at this moment, where there is something.
    fn task_of(&self, act: Act, effort: &Effort) -> Option<Task>
        requires { self.now.lower < self.now.upper }
        ensures task { result ≡ asked_of effort.now self.now act }
        ensures asked { IfSome result (IsAsked self.now) }
    {
        let (lower, upper) = (self.lower, self.upper);
        let (width, work) = (effort.width(), effort.beam_work());
        match act {
            Act::Upper(budget) => self.search(upper, budget),
            Act::Raise(budget) => self.search(self.raised()?, budget),
            Act::RaiseEarly(budget) if self.limited != 0 => self.search(self.raised()?, budget),
            Act::NarrowBeam => beam(Origin::Start, None, width.min(NARROW), work),
            Act::WideBeam if width > NARROW => beam(Origin::Start, None, width, work),
            Act::RoundsOfStart if upper < self.start => {
                self.rounds(Origin::Start, effort.from_start())
            }
            Act::RoundsOfBest if upper < self.step_upper => {
                self.rounds(Origin::Before, effort.from_beam())
            }
            Act::RoundsOfBest => self.rounds(Origin::Best, effort.from_beam()),
            Act::Aim if self.missed <= lower => {
                let aimed = Some(lower.saturating_add(1));
                let width = width.saturating_mul(8).min(MAX_WIDTH);
                beam(Origin::Best, aimed, width, work.saturating_mul(AIMED_SHARE))
            }
            Act::Halve => beam(Origin::Best, Some(self.halved()?), width / 4, work / 2),
            _ => None,
        }
    }

    /// A search below a threshold with a budget, where it may write something and is not known to be over.
    fn search(&self, threshold: u64, budget: Budget) -> Option<Task>
        requires from { self.now.lower < threshold }
        requires to { threshold ≤ self.now.upper }
        ensures task { result ≡ search_of self.now budget threshold }
        ensures asked { IfSome result (IsAsked self.now) }
    {
        let budget = self.fund.granted(budget);
        let is_over = threshold == self.upper && budget <= self.over;
        if budget == 0 || is_over {
            return None;
        }
        Some(Task::Search { threshold, budget })
    }

    /// Rounds from a sequence, where there are some, and the best sequence has not Taillard's lower bound.
    fn rounds(&self, from: Origin, limits: RunLimits) -> Option<Task>
        requires { self.now.lower < self.now.upper }
        ensures task { result ≡ rounds_of self.now from limits }
        ensures asked { IfSome result (IsAsked self.now) }
    {
        if limits.rounds() == 0 || self.upper <= self.least {
            return None;
        }
        Some(Task::Rounds { from, limits })
    }

    /// The threshold by which the lower bound is raised, if there is one to try.
    fn raised(&self) -> Option<u64>
        requires { self.now.lower < self.now.upper }
        ensures threshold { result ≡ raised self.now }
        ensures between { IfSome result (λ threshold. (self.now.lower < threshold) × (threshold ≤ self.now.upper)) }
    {
        let between = self
            .top
            .min(self.upper.saturating_add(1))
            .saturating_sub(self.lower)
            / 2;
        if between == 0 {
            return None;
        }
        Some(self.lower + self.stride.max(1).min(between))
    }

    /// The threshold half of the way to the makespan of the best sequence, if there is one to aim at.
    fn halved(&self) -> Option<u64>
        requires { self.now.lower < self.now.upper }
        ensures { result ≡ halved self.now }
    {
        let missed = self.missed.max(self.lower.saturating_add(1));
        let half = self.upper.saturating_sub(missed) / 2;
        if half == 0 {
            return None;
        }
        Some(missed.saturating_add(half))
    }

    /// Ends an act, and begins the next one.
    fn pass(&mut self, act: Act)
        ensures passed { self.new ≡ passed act self.old }
        ensures later { self.old.act < 4294967295 → self.old.act < self.new.act }
        ensures bounds { HasSameBounds self.old self.new }
        ensures tasks { self.new.tasks ≡ self.old.tasks }
    {
        self.act = self.act.saturating_add(1);
        self.stride = 1;
        self.top = u64::MAX;
        self.missed = 0;
        match act {
            Act::Step(step) => {
                self.step = step;
                self.step_lower = self.lower;
                self.step_upper = self.upper;
            }
            Act::Release => self.fund.release(),
            Act::PassOver(acts) => self.act = self.act.saturating_add(acts),
            Act::EndUnlessRaised if self.lower == self.step_lower => self.act = u32::MAX,
            _ => {}
        }
    }

    /// Takes what became of a task that the run asked for. Returns whether the sequence that was reached becomes the
    /// best one; `None` where the run may not ask for such a task, or this is no answer to it: then nothing changes.
    pub fn put(&mut self, task: &Task, answer: &Answer) -> Option<bool>
        ensures after { (may_ask self.old task.now && may_become task.now answer.now) ≡ true →
            self.new ≡ run_after self.old task.now answer.now }
        ensures accepted { (may_ask self.old task.now && may_become task.now answer.now) ≡ true →
            IsSomeAnd result (IsAnswered self.old self.new task.now answer.now) }
        ensures refused { (may_ask self.old task.now && may_become task.now answer.now) ≡ false →
            (result ≡ None) × (self.new ≡ self.old) }
    {
        if !self.may_ask(task) || !task.may_become(answer) {
            return None;
        }
        Some(self.answered(task, answer))
    }

    /// Whether an answer to this task is taken, as far as the bounds tell.
    fn may_ask(&self, task: &Task) -> bool
        ensures { result ≡ may_ask self.now task.now }
    {
        match task {
            Task::Search { threshold, budget } => {
                self.lower < *threshold && *threshold <= self.upper && *budget <= self.fund.most
            }
            Task::Beam { .. } | Task::Rounds { .. } => true,
            Task::End => false,
        }
    }

    /// The same of an answer that may be given.
    pub(crate) fn answered(&mut self, task: &Task, answer: &Answer) -> bool
        requires { may_become task.now answer.now ≡ true }
        ensures after { self.new ≡ run_after self.old task.now answer.now }
        ensures answered { IsAnswered self.old self.new task.now answer.now result }
    {
        self.tasks = self.tasks.saturating_sub(1);
        match (task, answer) {
            (Task::Search { threshold, .. }, Answer::Proved { directions }) => {
                self.lower = *threshold;
                self.go_on(*directions);
                false
            }
            (
                Task::Search { .. },
                Answer::Below {
                    makespan,
                    directions,
                },
            ) => {
                self.go_on(*directions);
                self.take(*makespan, true)
            }
            (Task::Search { threshold, budget }, Answer::Over) => {
                self.note_over(*threshold, *budget);
                false
            }
            (Task::Beam { limits, .. }, Answer::Reached { makespan, whole }) => {
                let better = self.take(*makespan, *makespan < self.upper);
                self.end_beam(limits, better, *whole);
                better
            }
            (Task::Rounds { from, .. }, Answer::Reached { makespan, .. }) => {
                self.act = self.act.saturating_add(1);
                let better = match from {
                    Origin::Before => *makespan <= self.upper,
                    Origin::Start | Origin::Best => *makespan < self.upper,
                };
                self.take(*makespan, better)
            }
            _ => false,
        }
    }

    /// Takes a makespan where that is so. Returns whether it is.
    fn take(&mut self, makespan: u64, better: bool) -> bool
        ensures same { result ≡ better }
        ensures after { self.new ≡ (if better then improved makespan self.old else self.old) }
    {
        if better {
            self.upper = makespan;
            self.over = 0;
        }
        better
    }

    /// Counts the directions of a search that was not over. The lower bound is raised further the next time.
    fn go_on(&mut self, directions: u64)
        ensures { self.new ≡ went_on directions self.old }
    {
        self.fund.spend(directions);
        self.stride = self.stride.saturating_mul(2);
    }

    /// Notes that a search was over its budget.
    fn note_over(&mut self, threshold: u64, budget: u64)
        ensures { self.new ≡ ran_over threshold budget self.old }
    {
        self.fund.spend(budget);
        self.top = threshold;
        if threshold == self.upper {
            self.over = budget;
        }
    }

    /// Ends a beam: one that is aimed at a threshold may be followed by the next one; after another that was whole no
    /// better sequence is looked for.
    fn end_beam(&mut self, limits: &BeamLimits, better: bool, whole: bool)
        ensures { self.new ≡ beam_made limits.now.below better whole self.old }
    {
        match limits.below {
            Some(threshold) if !better => self.missed = threshold,
            Some(_) => {}
            None if whole => self.act = WHOLE,
            None => self.act = self.act.saturating_add(1),
        }
    }
}

/// A beam from a sequence, where it has a width.
fn beam(from: Origin, below: Option<u64>, width: u32, work: u64) -> Option<Task>
    ensures task { result ≡ beam_of from below width work }
    ensures asked { (run : Run) → run.lower < run.upper → IfSome result (IsAsked run) }
{
    if width == 0 {
        return None;
    }
    let limits = BeamLimits { below, width, work };
    Some(Task::Beam { from, limits })
}
