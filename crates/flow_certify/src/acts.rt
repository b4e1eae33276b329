//! What a run of `certify` does, one after the other.

use crate::budgets::Budget;

/// One thing that a run does.
#[derive(Clone, Copy)]
pub(crate) enum Act {
    /// A step begins.
    Step(u32),
    /// What was kept for the last searches is given to the next ones.
    Release,
    /// So many of the next ones are passed over.
    PassOver(u32),
    /// The run ends where the step did not raise the proved number.
    EndUnlessRaised,
    /// Searches below the makespan of the best sequence, from each better one, until it is proved or one is over.
    Upper(Budget),
    /// Searches that raise the proved number: by 1, 2, 4 and so on, but by no more than half of the way to the least
    /// number whose search was over.
    Raise(Budget),
    /// The same, where the time of the run is limited.
    RaiseEarly(Budget),
    /// A beam from the start, no wider than `NARROW`.
    NarrowBeam,
    /// The whole beam from the start, where it is wider.
    WideBeam,
    /// Rounds from the start, where it is not the best sequence.
    RoundsOfStart,
    /// Rounds from the sequence that was the best at the beginning of the step.
    RoundsOfBest,
    /// A beam from the best sequence that is aimed at the number after the proved one.
    Aim,
    /// Narrower beams from the best sequence, each aimed half of the way between the proved number, or the greatest one
    /// that such a beam came to no sequence below, and the best makespan.
    Halve,
}

/// The acts of a run. Steps 1 to 4 search below the makespan of better and better sequences. Where no better one
/// exists, the run goes on at `WHOLE`. Steps 5 to 8 raise the proved number, and use the greatest budget. Where the
/// time is limited, the proved number is raised a little before the beams, and more before the longest search, since
/// the run may end before step 5.
pub(crate) const ACTS: [Act; 38] = [
    Act::Step(1),
    Act::Upper(Budget::Of(10_000)),
    Act::Upper(Budget::Of(100_000)),
    Act::RaiseEarly(Budget::Of(10_000)),
    Act::Step(2),
    Act::NarrowBeam,
    Act::Upper(Budget::Of(10_000)),
    Act::Upper(Budget::Of(100_000)),
    Act::Step(3),
    Act::WideBeam,
    Act::Upper(Budget::Of(10_000)),
    Act::Upper(Budget::Of(100_000)),
    Act::Upper(Budget::Of(1_000_000)),
    Act::Step(4),
    Act::RoundsOfStart,
    Act::RoundsOfBest,
    Act::Upper(Budget::Of(10_000)),
    Act::Upper(Budget::Of(100_000)),
    Act::Upper(Budget::Of(1_000_000)),
    Act::RaiseEarly(Budget::Of(100_000)),
    Act::Upper(Budget::Tenth),
    Act::PassOver(2),
    Act::Release,
    Act::Upper(Budget::Most),
    Act::Release,
    Act::Step(5),
    Act::Raise(Budget::First),
    Act::Raise(Budget::Thirtieth),
    Act::Step(6),
    Act::Aim,
    Act::Step(7),
    Act::Halve,
    Act::Upper(Budget::Most),
    Act::Step(8),
    Act::Raise(Budget::Tenth),
    Act::EndUnlessRaised,
    Act::Aim,
    Act::Upper(Budget::Most),
];

/// The place of the act with which a run goes on where no better sequence exists.
pub(crate) const WHOLE: u32 = 22;
