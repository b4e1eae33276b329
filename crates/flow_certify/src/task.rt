//! What a run of `certify` does next, and what may become of it.

ghost use Rattle.std.specs.Prelude.{◌≡◌};
ghost use Rattle.flow_certify.specs.Tasks.{may_become};

use flow_improve::{BeamLimits, RunLimits};

/// What a run does next.
#[derive(Clone, Copy)]
pub enum Task {
    /// A search below a threshold, from the node of two empty lists.
    Search {
        /// The threshold.
        threshold: u64,
        /// The most directions that it may write.
        budget: u64,
    },
    /// A beam.
    Beam {
        /// Where it begins.
        from: Origin,
        /// How far it goes.
        limits: BeamLimits,
    },
    /// Rounds.
    Rounds {
        /// Where they begin.
        from: Origin,
        /// When they end.
        limits: RunLimits,
    },
    /// Nothing more.
    End,
}

/// The sequence from which a beam or rounds begin.
#[derive(Clone, Copy, Debug, PartialEq, Eq)]
pub enum Origin {
    /// The start of the run.
    Start,
    /// The best sequence.
    Best,
    /// The sequence that was the best before this one.
    Before,
}

/// What became of a task.
#[derive(Clone, Copy, Debug, PartialEq, Eq)]
pub enum Answer {
    /// The search wrote so many directions, which prove its threshold.
    Proved {
        /// How many.
        directions: u64,
    },
    /// The search came to a sequence below its threshold.
    Below {
        /// The makespan of the sequence.
        makespan: u64,
        /// How many directions the search wrote before it.
        directions: u64,
    },
    /// The search was over its budget.
    Over,
    /// The beam or the rounds came to a sequence.
    Reached {
        /// Its makespan.
        makespan: u64,
        /// Whether they ended because the makespan has Taillard's bound, or because a pass dropped nothing.
        whole: bool,
    },
}

impl Task {
    /// Whether this may become of the task: within its budget a proof, or a smaller makespan than its threshold, of a
    /// search; or that it was over; a sequence of a beam or of rounds.
    pub(crate) fn may_become(&self, answer: &Answer) -> bool
        ensures { result ≡ may_become self.now answer.now }
    {
        match (self, answer) {
            (Task::Search { budget, .. }, Answer::Proved { directions }) => directions <= budget,
            (
                Task::Search { threshold, budget },
                Answer::Below {
                    makespan,
                    directions,
                },
            ) => makespan < threshold && directions <= budget,
            (Task::Search { .. }, Answer::Over) => true,
            (Task::Beam { .. } | Task::Rounds { .. }, Answer::Reached { .. }) => true,
            _ => false,
        }
    }
}
