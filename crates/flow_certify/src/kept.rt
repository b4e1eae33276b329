//! What a run of `certify` keeps, and how it does its tasks.

ghost use Rattle.std.specs.Prelude.{◌≡◌, ◌≤◌, ◌-◌, true, [], length, IfOk};
ghost use Rattle.flow_shop.specs.Shop.{Shop};
ghost use Rattle.flow_shop.specs.Paths.{span};
ghost use Rattle.flow_shop.specs.Ends.{end_bound};
ghost use Rattle.flow_shop.specs.Sequences.{IsSequence};
ghost use Rattle.flow_certify.specs.Searched.{has_signs};
ghost use Rattle.flow_certify.specs.Signs.{most_searched};
ghost use Rattle.flow_certify.specs.Tasks.{IsAsked, may_become};
ghost use Rattle.flow_certify.specs.declared.task.Task.TheVariants.{Search};
ghost use Rattle.flow_certify.specs.declared.task.Answer.TheVariants as answer;
ghost use Rattle.flow_certify.specs.internal.Keeping.{IsLater, IsProved};
ghost use Rattle.flow_certify.specs.internal.Outcomes.{IsToldOf};

use crate::proof::{Outcome, Proof, ProofLimits, search};
use crate::run::Run;
use crate::shared::Shared;
use crate::task::{Answer, Origin, Task};
use flow_directions::{News, Prover};
use flow_improve::{Reached, beam_until, rounds_from};
use flow_shop::{Instance, Sequence};
use std::alloc::{AllocError, Global};
use std::mem;

/// What a run keeps.
#[derive(Drop)]
pub(crate) struct Kept {
    /// Where it stands.
    pub(crate) run: Run,
    /// The start.
    start: Sequence,
    /// The best sequence.
    pub(crate) best: Sequence,
    /// The sequence that was the best before this one.
    before: Sequence,
    /// The directions that prove the lower bound, or how many they are.
    pub(crate) proof: Proof,
}

impl Kept {
    /// What a run keeps at its beginning: the start, and no directions.
    pub(crate) fn new(
        alloc: Global,
        instance: &Instance,
        start: &Sequence,
        limits: ProofLimits,
        is_limited: bool,
    ) -> Result<Kept, AllocError>
        requires { length start.now ≡ instance.now.jobs }
        ensures proved { IfOk result (IsProved instance.now) }
        ensures lower { IfOk result (λ kept. kept.run.lower ≡ end_bound instance.now [] []) }
        ensures upper { IfOk result (λ kept. kept.run.upper ≡ span instance.now start.now) }
        ensures most { IfOk result (λ kept. kept.run.fund.most ≤ most_searched limits.most) }
        ensures form { IfOk result (λ kept. has_signs kept.proof ≡ limits.keeps_signs) }
    {
        Ok(Kept {
            run: Run::new(instance, start, limits.most, is_limited),
            start: Sequence::of_known(alloc, start.jobs())?,
            best: Sequence::of_known(alloc, start.jobs())?,
            before: Sequence::of_known(alloc, start.jobs())?,
            proof: Proof::none(alloc, limits.keeps_signs),
        })
    }

    /// Tells the prover which bounds are known.
    pub(crate) fn tell<P: Prover>(&self, shared: &Shared<P>)
        requires { IsProved shared.now.instance.now self.now }
    {
        let bounds = News::Bounds {
            lower: self.run.lower,
            upper: self.run.upper,
        };
        shared.prover.tell(shared.instance, bounds);
    }

    /// Does what is next. Returns whether the run goes on: it is over where nothing is next, or its time is over.
    pub(crate) fn go_on<P: Prover>(
        &mut self,
        shared: &Shared<P>,
        task: &Task,
    ) -> Result<bool, AllocError>
        requires ready { P.is_ready shared.now.prover.now }
        requires proved { IsProved shared.now.instance.now self.old }
        requires asked { IsAsked self.old.run task.now }
        ensures later { IsLater shared.now.instance.now self.old self.new }
        ensures tasks { IfOk result (λ goes_on. goes_on ≡ true → self.new.run.tasks ≡ self.old.run.tasks - 1) }
    {
        match task {
            Task::Search { threshold, budget } => self.search(shared, task, *threshold, *budget),
            Task::Beam { from, limits } => {
                let from = self.origin(*from);
                let reached = beam_until(shared.alloc, shared.instance, from, *limits, shared)?;
                self.take(task, reached);
                Ok(true)
            }
            Task::Rounds { from, limits } => {
                let from = self.origin(*from);
                let reached = rounds_from(shared.alloc, shared.instance, from, limits, shared)?;
                self.take(task, reached);
                Ok(true)
            }
            Task::End => Ok(false),
        }
    }

    /// The sequence from which a beam or rounds begin.
    fn origin(&self, from: Origin) -> &Sequence
        ensures { (shop : Shop) → IsProved shop self.now → IsSequence shop.jobs result.now }
    {
        match from {
            Origin::Start => &self.start,
            Origin::Best => &self.best,
            Origin::Before => &self.before,
        }
    }

    /// Searches below a threshold with a budget, and keeps what it finds. Returns whether the run goes on: it is over
    /// where its time is.
    fn search<P: Prover>(
        &mut self,
        shared: &Shared<P>,
        task: &Task,
        threshold: u64,
        budget: u64,
    ) -> Result<bool, AllocError>
        requires ready { P.is_ready shared.now.prover.now }
        requires proved { IsProved shared.now.instance.now self.old }
        requires task { task.now ≡ Search threshold budget }
        requires asked { IsAsked self.old.run task.now }
        ensures later { IsLater shared.now.instance.now self.old self.new }
        ensures told { IfOk result (λ goes_on. goes_on ≡ true →
            IsToldOf shared.now.instance.now threshold budget task.now self.old.run self.new.run) }
        ensures tasks { IfOk result (λ goes_on. goes_on ≡ true → self.new.run.tasks ≡ self.old.run.tasks - 1) }
    {
        let Some(outcome) = search(shared, self.proof.has_signs(), threshold, budget)? else {
            return Ok(false);
        };
        match outcome {
            Outcome::Proved(proof) => {
                let directions = proof.directions();
                self.run.answered(task, &Answer::Proved { directions });
                self.proof = proof;
            }
            Outcome::Below {
                sequence,
                makespan,
                directions,
            } => {
                self.run.answered(
                    task,
                    &Answer::Below {
                        makespan,
                        directions,
                    },
                );
                self.become_better(sequence);
            }
            Outcome::Over => {
                self.run.answered(task, &Answer::Over);
            }
        }
        Ok(true)
    }

    /// Takes what a beam or rounds came to.
    fn take(&mut self, task: &Task, reached: Reached)
        requires { may_become task.now (answer.Reached reached.value reached.whole) ≡ true }
        ensures later { (shop : Shop) → IsProved shop self.old → IsSequence shop.jobs reached.sequence →
            reached.value ≡ span shop reached.sequence → IsLater shop self.old self.new }
        ensures tasks { self.new.run.tasks ≡ self.old.run.tasks - 1 }
    {
        let answer = Answer::Reached {
            makespan: reached.value,
            whole: reached.whole,
        };
        if self.run.answered(task, &answer) {
            self.become_better(reached.sequence);
        }
    }

    /// Keeps a sequence as the best one.
    fn become_better(&mut self, sequence: Sequence)
        ensures best { self.new.best ≡ sequence }
        ensures before { self.new.before ≡ self.old.best }
        ensures run { self.new.run ≡ self.old.run }
        ensures start { self.new.start ≡ self.old.start }
        ensures proof { self.new.proof ≡ self.old.proof }
    {
        self.before = mem::replace(&mut self.best, sequence);
    }
}
