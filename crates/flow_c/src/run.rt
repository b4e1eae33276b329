//! A run of `certify`, task by task.

ghost use Rattle.std.specs.Prelude.{◌≡◌, ◌⊎◌, ◌≤◌, nat_eq, not, Bool, cond, None, [], true, false};
ghost use Rattle.std.specs.Prelude.{IfOk, OnOk, IfErr, IsSomeAnd};
ghost use Rattle.std.specs.Option.{option_map};
ghost use Rattle.flow_shop.specs.Paths.{span};
ghost use Rattle.flow_shop.specs.Ends.{end_bound};
ghost use Rattle.flow_bound.specs.Taillard.{taillard_bound};
ghost use Rattle.flow_certify.specs.Schedule.{first_run};
ghost use Rattle.flow_certify.specs.Signs.{most_searched};
ghost use Rattle.flow_c.specs.Statuses.{number, done, memory};
ghost use Rattle.flow_c.specs.Faults.{shop_of, numbers_fault, fault_of_effort, IsFaultOf, IsDone, HasFault, Reports};
ghost use Rattle.flow_c.specs.Runs.{AsksFor, IsPut, answer_of, beam_of, is_taken, origin_number, origin_of};
ghost use Rattle.flow_c.specs.Runs.{rounds_of, run_fault, task_numbers, task_of};
ghost use Rattle.flow_improve.specs.Effort as effort;
ghost use Rattle.flow_c.specs.declared.fault.Fault.TheVariants.{Effort, NoAnswer};

use crate::beam::BeamOptions;
use crate::certify::most_of;
use crate::effort::EffortNumbers;
use crate::fault::Fault;
use crate::outcome::Outcome;
use crate::rounds::RoundsOptions;
use crate::shop::ShopNumbers;
use flow_certify::{Answer, MAX_COUNTED_DIRECTIONS, Origin, Run, Task};
use flow_improve::{BeamLimits, RunLimits};
use flow_shop::Sequence;
use std::alloc::Global;

/// What a run asks for.
#[repr(C)]
#[derive(Drop)]
pub struct TaskNumbers {
    /// 0 where nothing more is asked for; 1 for a search, 2 for a beam, and 3 for rounds.
    pub kind: u32,
    /// The sequence from which a beam or rounds begin: 0 for the start, 1 for the best one, and 2 for the one that was
    /// the best before it.
    pub from: u32,
    /// The number that a search is to prove.
    pub number: u64,
    /// The most directions of a search.
    pub budget: u64,
    /// How far a beam goes.
    pub beam: BeamOptions,
    /// When rounds end.
    pub rounds: RoundsOptions,
}

/// What became of a task.
#[repr(C)]
pub struct AnswerNumbers {
    /// Of a search: 1 where the number is proved, 2 where a sequence is below it, and 3 where it was over its budget. 4
    /// for a beam or rounds.
    pub found: u32,
    /// Whether a beam or rounds were whole: 1, or else 0.
    pub whole: u32,
    /// The makespan of the sequence, where there is one.
    pub makespan: u64,
    /// How many directions a search wrote or counted.
    pub directions: u64,
}

/// The sequence of this number from which a beam or rounds begin.
fn origin_of(number: u32) -> Option<Origin>
    ensures { result ≡ origin_of number }
{
    match number {
        0 => Some(Origin::Start),
        1 => Some(Origin::Best),
        2 => Some(Origin::Before),
        _ => None,
    }
}

impl TaskNumbers {
    /// How far the beam goes.
    fn beam_limits(&self) -> BeamLimits
        ensures { result ≡ beam_of self.now }
    {
        BeamLimits {
            below: if self.beam.number == 0 {
                None
            } else {
                Some(self.beam.number)
            },
            width: self.beam.width,
            work: self.beam.steps,
        }
    }

    /// When the rounds end, where the numbers are within their limits.
    fn run_limits(&self) -> Option<RunLimits>
        ensures { result ≡ rounds_of (effort.run_fault self.now.rounds.rounds self.now.rounds.seed) self.now }
    {
        RunLimits::new(self.rounds.rounds, self.rounds.seed, self.rounds.steps).ok()
    }

    /// The task, where the numbers say one that is to be answered.
    fn task(&self) -> Option<Task>
        ensures { result ≡ task_of self.now }
    {
        match self.kind {
            1 => Some(Task::Search {
                threshold: self.number,
                budget: self.budget,
            }),
            2 => Some(Task::Beam {
                from: origin_of(self.from)?,
                limits: self.beam_limits(),
            }),
            3 => Some(Task::Rounds {
                from: origin_of(self.from)?,
                limits: self.run_limits()?,
            }),
            _ => None,
        }
    }
}

impl AnswerNumbers {
    /// What became of a task, where the numbers say something.
    fn answer(&self) -> Option<Answer>
        ensures { result ≡ answer_of self.now }
    {
        match self.found {
            1 => Some(Answer::Proved {
                directions: self.directions,
            }),
            2 => Some(Answer::Below {
                makespan: self.makespan,
                directions: self.directions,
            }),
            3 => Some(Answer::Over),
            4 => Some(Answer::Reached {
                makespan: self.makespan,
                whole: self.whole != 0,
            }),
            _ => None,
        }
    }
}

/// A run of the instance of these numbers, from a sequence of it.
fn run_of(
    alloc: Global,
    shop: &ShopNumbers,
    start: &[u16],
    directions: u64,
    limited: u32,
) -> Result<Run, Fault>
    ensures lower { IfOk result (λ run. run.lower ≡ end_bound (shop_of shop.now) [] []) }
    ensures upper { IfOk result (λ run. run.upper ≡ span (shop_of shop.now) start.now) }
    ensures least { IfOk result (λ run. run.least ≡ taillard_bound (shop_of shop.now)) }
    ensures most { IfOk result (λ run. run.fund.most ≤ most_searched directions) }
    ensures limited { IfOk result (λ run. run.limited ≡ cond (nat_eq limited 0) 0 1) }
    ensures first { IfOk result (λ run.
        run ≡ first_run (shop_of shop.now) start.now directions (not (nat_eq limited 0))) }
    ensures accepted { OnOk result (run_fault shop.now start.now directions ≡ None) }
    ensures refused { IfErr result (IsFaultOf (run_fault shop.now start.now directions)) }
    ensures memory { IfErr result (λ fault. number fault ≡ memory → numbers_fault shop.now ≡ None) }
{
    let instance = shop.instance(alloc)?;
    let start = Sequence::new(alloc, &instance, start)?;
    let most = most_of(directions, MAX_COUNTED_DIRECTIONS)?;
    Ok(Run::new(&instance, &start, most, limited != 0))
}

/// A run from a sequence of an instance, whose searches have at most so many directions each. Where these are more than
/// the signs of a certificate may be, they are to be counted. Its time is limited where `limited` is not 0: then it
/// raises the lower bound early.
#[unsafe(no_mangle)]
pub extern "C" fn flowshop_run(
    alloc: Global,
    shop: &ShopNumbers,
    start: &[u16],
    directions: u64,
    limited: u32,
    run: &mut Run,
) -> Outcome
    ensures status { Reports (run_fault shop.now start.now directions) result }
    ensures memory { result.status ≡ memory → numbers_fault shop.now ≡ None }
    ensures lower { result.status ≡ done → run.new.lower ≡ end_bound (shop_of shop.now) [] [] }
    ensures upper { result.status ≡ done → run.new.upper ≡ span (shop_of shop.now) start.now }
    ensures least { result.status ≡ done → run.new.least ≡ taillard_bound (shop_of shop.now) }
    ensures most { result.status ≡ done → run.new.fund.most ≤ most_searched directions }
    ensures limited { result.status ≡ done → run.new.limited ≡ cond (nat_eq limited 0) 0 1 }
    ensures first { result.status ≡ done →
        run.new ≡ first_run (shop_of shop.now) start.now directions (not (nat_eq limited 0)) }
    ensures stays { result.status ≡ done → result.place ≡ 0 }
    ensures kept { (result.status ≡ done) ⊎ (run.new ≡ run.old) }
{
    match run_of(alloc, shop, start, directions, limited) {
        Ok(found) => {
            *run = found;
            Outcome::done()
        }
        Err(fault) => Outcome::refused(fault),
    }
}

/// The number of the sequence from which a beam or rounds begin.
fn origin(from: Origin) -> u32
    ensures { result ≡ origin_number from }
{
    match from {
        Origin::Start => 0,
        Origin::Best => 1,
        Origin::Before => 2,
    }
}

/// A task as numbers; those that it has not are 0.
fn numbers_of_task(task: Task) -> TaskNumbers
    ensures { result ≡ task_numbers task }
{
    let mut numbers = TaskNumbers {
        kind: 0,
        from: 0,
        number: 0,
        budget: 0,
        beam: BeamOptions {
            number: 0,
            width: 0,
            steps: 0,
        },
        rounds: RoundsOptions {
            rounds: 0,
            seed: 0,
            steps: 0,
        },
    };
    match task {
        Task::End => {}
        Task::Search { threshold, budget } => {
            numbers.kind = 1;
            numbers.number = threshold;
            numbers.budget = budget;
        }
        Task::Beam { from, limits } => {
            numbers.kind = 2;
            numbers.from = origin(from);
            numbers.beam.number = limits.below.unwrap_or(0);
            numbers.beam.width = limits.width;
            numbers.beam.steps = limits.work;
        }
        Task::Rounds { from, limits } => {
            numbers.kind = 3;
            numbers.from = origin(from);
            numbers.rounds.rounds = limits.rounds();
            numbers.rounds.seed = limits.seed();
            numbers.rounds.steps = limits.work();
        }
    }
    numbers
}

/// What a run asks for next, which is the task that is next in it.
#[unsafe(no_mangle)]
pub extern "C" fn flowshop_run_next(
    run: &mut Run,
    effort: &EffortNumbers,
    task: &mut TaskNumbers,
) -> Outcome
    ensures status { Reports (option_map Effort (fault_of_effort effort.now)) result }
    ensures next { result.status ≡ done → AsksFor effort.now run.old run.new task.new }
    ensures kept { (result.status ≡ done) ⊎ ((run.new ≡ run.old) × (task.new ≡ task.old)) }
{
    match effort.effort() {
        Ok(effort) => {
            *task = numbers_of_task(run.next(&effort));
            Outcome::done()
        }
        Err(fault) => Outcome::refused(Fault::Effort(fault)),
    }
}

/// Takes what became of a task. Returns whether its sequence becomes the best one; `None` where it is not taken, and
/// then nothing changes.
fn take(run: &mut Run, task: &TaskNumbers, answer: &AnswerNumbers) -> Option<bool>
    ensures taken { is_taken run.old (task_of task.now) (answer_of answer.now) ≡ true →
        IsSomeAnd result (IsPut run.old run.new (task_of task.now) (answer_of answer.now)) }
    ensures refused { is_taken run.old (task_of task.now) (answer_of answer.now) ≡ false →
        (result ≡ None) × (run.new ≡ run.old) }
{
    let task = task.task()?;
    let answer = answer.answer()?;
    run.put(&task, &answer)
}

/// Takes what became of a task that the run asked for. `better` becomes 1 where its sequence becomes the best one, or
/// else 0.
#[unsafe(no_mangle)]
pub extern "C" fn flowshop_run_put(
    run: &mut Run,
    task: &TaskNumbers,
    answer: &AnswerNumbers,
    better: &mut u32,
) -> Outcome
    ensures taken { is_taken run.old (task_of task.now) (answer_of answer.now) ≡ true → IsDone result
        × ((is_better : Bool) × IsPut run.old run.new (task_of task.now) (answer_of answer.now) is_better
        × (better.new ≡ cond is_better 1 0)) }
    ensures refused { is_taken run.old (task_of task.now) (answer_of answer.now) ≡ false →
        HasFault NoAnswer result × (run.new ≡ run.old) × (better.new ≡ better.old) }
{
    match take(run, task, answer) {
        Some(is_better) => {
            *better = if is_better { 1 } else { 0 };
            Outcome::done()
        }
        None => Outcome::refused(Fault::NoAnswer),
    }
}
