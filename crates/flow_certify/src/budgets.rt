//! The budgets of the searches for a certificate: how many directions each may write, and all of them together.

ghost use Rattle.std.specs.Prelude.{◌≡◌, ◌≤◌};
ghost use Rattle.flow_certify.specs.Funds.{charged, first_fund, granted, released};
ghost use Rattle.flow_certify.specs.Signs.{most_searched};

use crate::most::MostDirections;
use flow_nodes::fits_narrow_lanes;
use flow_shop::Instance;

/// The budget of a search.
#[derive(Clone, Copy)]
pub(crate) enum Budget {
    /// So many directions.
    Of(u64),
    /// The greatest budget.
    Most,
    /// A tenth of it.
    Tenth,
    /// A thirtieth of it.
    Thirtieth,
    /// The first one with which the proved number is raised: a tenth of the greatest, and no more than 10,000.
    First,
}

/// All searches together may write this many times the caller's limit of directions, divided by what a direction costs.
const SHARE: u64 = 850;

/// The part of a direction's cost that does not depend on the shop; each job adds 1 for each machine. Where 16 bits are
/// too few for the makespan of the start, a direction costs twice as much.
const FIXED: u64 = 450;

/// How many directions the searches may write. There are fewer where each of them costs more.
#[repr(C)]
#[derive(Clone, Copy, Debug)]
pub struct Fund {
    /// The greatest budget of one search.
    pub most: u64,
    /// How many directions the next searches may write.
    pub left: u64,
    /// How many are kept for the last searches.
    pub kept: u64,
    /// What a search costs beside its directions, as so many of them. On the first way down, where most children are
    /// below the threshold, looking ahead takes longer the more jobs are left.
    pub entry: u64,
}

impl Fund {
    /// What searches may write, where `limit` is the caller's, and `makespan` is that of the start. One search may
    /// write no more than the limit lets it, and four fifths of what all may.
    pub(crate) fn new(instance: &Instance, makespan: u64, limit: MostDirections) -> Fund
        ensures fund { result ≡ first_fund instance.now makespan limit }
        ensures most { result.most ≤ most_searched limit }
    {
        let jobs = u64::from(instance.jobs());
        let narrow = jobs * u64::from(instance.machines()) + FIXED;
        let cost = if fits_narrow_lanes(makespan) {
            narrow
        } else {
            narrow * 2
        };
        let all = limit.count() * SHARE / cost;
        Fund {
            most: limit.searched().min(all - all / 5),
            left: all - all / 2,
            kept: all / 2,
            entry: jobs * jobs / 3,
        }
    }

    /// How many directions a search with a budget may write: no more than the greatest budget, and than are left.
    pub(crate) fn granted(self, budget: Budget) -> u64
        ensures { result ≡ granted self budget }
    {
        let wanted = match budget {
            Budget::Of(directions) => directions,
            Budget::Most => self.most,
            Budget::Tenth => self.most / 10,
            Budget::Thirtieth => self.most / 30,
            Budget::First => (self.most / 10).min(10_000),
        };
        wanted.min(self.most).min(self.left)
    }

    /// Takes off what a search cost that wrote so many directions.
    pub(crate) fn spend(&mut self, directions: u64)
        ensures { self.new ≡ charged directions self.old }
    {
        if directions > 0 {
            let cost = directions.saturating_add(self.entry);
            self.left = self.left.saturating_sub(cost);
        }
    }

    /// Gives what is kept to the next searches.
    pub(crate) fn release(&mut self)
        ensures { self.new ≡ released self.old }
    {
        self.left = self.left.saturating_add(self.kept);
        self.kept = 0;
    }
}
