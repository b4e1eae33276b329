//! How much a search of better sequences may do.

ghost use Rattle.std.specs.Prelude.{◌≡◌, ◌*◌, ◌≤◌, None, Some, IfOk, OnOk, IfErr, cond};
ghost use Rattle.flow_limits.specs.Limits.{most_work};
ghost use Rattle.flow_improve.specs.Effort.{beam_steps, run_from_start, run_from_beam};
ghost use Rattle.flow_improve.specs.Effort.{run_fault, effort_fault};

use flow_generator::Taillard;
use flow_limits::{MAX_ROUNDS, MAX_WIDTH, MAX_WORK, may_be_seed};
use std::marker::Model;
use thiserror::Error;

/// Why the numbers of an effort are refused, in the order of the tests.
#[derive(Clone, Copy, Debug, PartialEq, Eq, Error)]
pub enum EffortFault {
    /// The width is above `MAX_WIDTH`.
    #[error("Width")]
    Width,
    /// The rounds are above `MAX_ROUNDS`.
    #[error("Rounds")]
    Rounds,
    /// The seed is not in `1..=MAX_SEED`.
    #[error("Seed")]
    Seed,
    /// The work is above `MAX_WORK`.
    #[error("Work")]
    Work,
}

/// Tests the numbers of a run of rounds.
fn test_run(rounds: u32, seed: u32) -> Result<(), EffortFault>
    ensures accepted { OnOk result (run_fault rounds seed ≡ None) }
    ensures refused { IfErr result (λ fault. run_fault rounds seed ≡ Some fault) }
{
    if rounds > MAX_ROUNDS {
        return Err(EffortFault::Rounds);
    }
    if !may_be_seed(seed) {
        return Err(EffortFault::Seed);
    }
    Ok(())
}

/// When a run of rounds ends, and the seed of its random numbers.
#[derive(Clone, Copy)]
pub struct RunLimits {
    rounds: u32,
    seed: u32,
    /// The round that reaches so many steps is the last.
    work: u64,
}

impl Model for RunLimits {
    ghost use Rattle.std.specs.Prelude.{◌≡◌, None};
    ghost use Rattle.flow_improve.specs.Effort.{RunLimits, run_fault};

    ghost Value = { RunLimits };

    ghost view = { λ l. record { rounds = l.rounds; seed = l.seed; work = l.work } };

    ghost invariant = { λ l. run_fault l.rounds l.seed ≡ None };

    ghost inverse = { λ l. record { rounds = l.rounds; seed = l.seed; work = l.work } };
}

impl RunLimits {
    /// The limits of a run; or the first fault.
    pub fn new(rounds: u32, seed: u32, work: u64) -> Result<RunLimits, EffortFault>
        ensures value { IfOk result
            (λ limits. limits ≡ record { rounds = rounds; seed = seed; work = work }) }
        ensures accepted { OnOk result (run_fault rounds seed ≡ None) }
        ensures refused { IfErr result (λ fault. run_fault rounds seed ≡ Some fault) }
    {
        test_run(rounds, seed)?;
        Ok(RunLimits { rounds, seed, work })
    }

    /// The most rounds.
    pub fn rounds(&self) -> u32
        ensures { result ≡ self.now.rounds }
    {
        self.rounds
    }

    /// The seed of the random numbers.
    pub fn seed(&self) -> u32
        ensures { result ≡ self.now.seed }
    {
        self.seed
    }

    /// How many steps end the rounds.
    pub fn work(&self) -> u64
        ensures { result ≡ self.now.work }
    {
        self.work
    }

    /// The random numbers of the run.
    pub(crate) fn draws(&self) -> Taillard
        ensures { result ≡ self.now.seed }
    {
        Taillard::new(self.seed).unwrap()
    }

    /// The same limits, but with no round where that is so.
    pub(crate) fn none_if(self, is_done: bool) -> RunLimits
        ensures { result ≡ record { rounds = cond is_done 0 self.rounds; seed = self.seed; work = self.work } }
    {
        RunLimits {
            rounds: if is_done { 0 } else { self.rounds },
            ..self
        }
    }
}

/// How much a search of better sequences may do.
#[derive(Clone, Copy)]
pub struct Effort {
    width: u32,
    rounds: u32,
    seed: u32,
    /// The most steps of beam and rounds, in millions.
    work: u32,
}

impl Model for Effort {
    ghost use Rattle.std.specs.Prelude.{◌≡◌, None};
    ghost use Rattle.flow_improve.specs.Effort.{Effort, effort_fault};

    ghost Value = { Effort };

    ghost view = { λ e. record { width = e.width; rounds = e.rounds; seed = e.seed; work = e.work } };

    ghost invariant = { λ e. effort_fault e.width e.rounds e.seed e.work ≡ None };

    ghost inverse = { λ e. record { width = e.width; rounds = e.rounds; seed = e.seed; work = e.work } };
}

impl Effort {
    /// The effort of the greatest width of the beam, of which there is none where it is 0; the most rounds of each run,
    /// and their seed; and the most steps of beam and rounds, in millions. Or the first fault.
    pub fn new(width: u32, rounds: u32, seed: u32, work: u32) -> Result<Effort, EffortFault>
        ensures value { IfOk result
            (λ effort. effort ≡ record { width = width; rounds = rounds; seed = seed; work = work }) }
        ensures accepted { OnOk result (effort_fault width rounds seed work ≡ None) }
        ensures refused { IfErr result (λ fault. effort_fault width rounds seed work ≡ Some fault) }
    {
        if width > MAX_WIDTH {
            return Err(EffortFault::Width);
        }
        test_run(rounds, seed)?;
        if work > MAX_WORK {
            return Err(EffortFault::Work);
        }
        Ok(Effort {
            width,
            rounds,
            seed,
            work,
        })
    }

    /// The greatest width of the beam.
    pub fn width(&self) -> u32
        ensures { result ≡ self.now.width }
    {
        self.width
    }

    /// The most steps of beam and rounds.
    fn steps(&self) -> u64
        ensures value { result ≡ self.now.work * 1000000 }
        ensures few { result ≤ most_work * 1000000 }
    {
        u64::from(self.work) * 1_000_000
    }

    /// The most steps of the beam.
    pub fn beam_work(&self) -> u64
        ensures { result ≡ beam_steps self.now.work }
    {
        self.steps() * 12 / 17
    }

    /// The limits of a run that ends after so many steps.
    fn run(&self, work: u64) -> RunLimits
        ensures { result ≡ record { rounds = self.now.rounds; seed = self.now.seed; work = work } }
    {
        RunLimits {
            rounds: self.rounds,
            seed: self.seed,
            work,
        }
    }

    /// The limits of the rounds from the start.
    pub fn from_start(&self) -> RunLimits
        ensures { result ≡ run_from_start self.now }
    {
        self.run(self.steps() / 17)
    }

    /// The limits of the rounds from the best of the beam.
    pub fn from_beam(&self) -> RunLimits
        ensures { result ≡ run_from_beam self.now }
    {
        self.run(self.steps() * 4 / 17)
    }
}
