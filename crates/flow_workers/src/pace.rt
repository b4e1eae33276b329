//! How much is searched in a round.

ghost use Rattle.std.specs.Prelude.{◌≡◌, ◌≤◌, ◌<◌, ◌*◌, max};
ghost use Rattle.flow_workers.specs.internal.Paces.{GoesOn, IsShared, left_of, bytes_of_piece, most_bytes};
ghost use Rattle.flow_workers.specs.internal.Paces.{first_alone, nodes_of};

/// One worker searches alone until the directions so far, times the jobs, are at least this: threads would cost more
/// than they save.
const ALONE: u64 = 240_000;

/// The least directions of a round, for each worker, or as many as there are so far where that is less.
const LEAST: u64 = 2_000;

/// The most directions of a round, for each worker.
const MOST: u64 = 200_000;

/// The least directions that a node is given, so that dealing it costs little beside its search.
const LEAST_OF_NODE: u64 = 500;

/// Where the pieces are reckoned to have more bytes than this, a round searches one node alone, so that it adds few
/// pieces.
const MOST_BYTES: usize = 100_000_000;

/// How much is searched in a round.
#[derive(Clone, Copy)]
pub(crate) struct Pace {
    /// How many workers there are.
    pub(crate) workers: usize,
    /// How many nodes are dealt.
    pub(crate) nodes: usize,
    /// The directions of the round: after so many no further node is searched, and behind so many that are known no
    /// further piece is dealt.
    pub(crate) whole: u64,
    /// The least directions that a node is given.
    pub(crate) least: u64,
    /// One more than the directions that are left of the budget.
    pub(crate) left: u64,
}

impl Pace {
    /// The pace of the next round, with so many workers and pieces, after so many directions of the budget. A round has
    /// an eighth of the directions so far, so that what is searched in vain, behind a sequence or behind the place
    /// where the budget ends, is little beside them.
    pub(crate) fn new(workers: usize, jobs: u16, pieces: usize, written: u64, budget: u64) -> Pace
        ensures goes_on { GoesOn result }
        ensures left { result.left ≡ left_of budget written }
        ensures within { result.whole ≤ result.left }
        ensures early { written < first_alone jobs → (result.workers ≡ 1) × (result.nodes ≡ 1) }
        ensures few { most_bytes < pieces * bytes_of_piece jobs → (result.workers ≡ 1) × (result.nodes ≡ 1) }
        ensures workers { IsShared jobs pieces written → result.workers ≡ max workers 1 }
        ensures nodes { IsShared jobs pieces written → result.nodes ≡ nodes_of result.workers result.whole }
    {
        let left = budget.saturating_sub(written).saturating_add(1);
        let first = (ALONE / u64::from(jobs.max(1))).max(LEAST_OF_NODE);
        if written < first {
            return Pace::of_one(first.min(left), left);
        }
        let workers = workers.max(1);
        let least = LEAST.saturating_mul(workers as u64).min(written);
        let most = most_of_worker(jobs);
        let whole = (written / 8)
            .max(least)
            .min(most.saturating_mul(workers as u64))
            .min(left);
        if pieces.saturating_mul(bytes_of_piece(jobs)) > MOST_BYTES {
            return Pace::of_one(whole.min(most).max(1), left);
        }
        Pace {
            workers,
            nodes: ((whole / 100) as usize).saturating_add(workers.saturating_mul(8)),
            whole,
            least: LEAST_OF_NODE,
            left,
        }
    }

    /// The pace of a round in which one worker searches one node for so many directions.
    fn of_one(whole: u64, left: u64) -> Pace
        ensures { (result.workers ≡ 1) × (result.nodes ≡ 1) × (result.whole ≡ whole) × (result.least ≡ whole)
            × (result.left ≡ left) }
    {
        Pace {
            workers: 1,
            nodes: 1,
            whole,
            least: whole,
            left,
        }
    }

    /// How many directions the next node is given after so many of the round: by one worker all that are left of it;
    /// else fewer towards its end, so that all workers end at about the same time.
    pub(crate) fn grant(&self, written: u64) -> u64
        ensures some { GoesOn self.now → 1 ≤ result }
        ensures within { result ≤ self.now.left }
    {
        let rest = self.whole.saturating_sub(written);
        let share = match self.workers {
            0 | 1 => rest,
            workers => rest / 2 / workers as u64,
        };
        share.max(self.least).min(self.left)
    }
}

/// The most directions of a round for each worker, where there are so many jobs: about those of a quarter of a second,
/// or of half a second where bounds need 32 bits, since a run asks between two rounds whether its time is over.
fn most_of_worker(jobs: u16) -> u64
    ensures { 1 ≤ result }
{
    (375_000_000 / (u64::from(jobs) * 26 + 450)).clamp(1, MOST)
}

/// About how many bytes a piece has of so many jobs.
fn bytes_of_piece(jobs: u16) -> usize
    ensures { result ≡ bytes_of_piece jobs }
{
    150 + 2 * jobs as usize
}
