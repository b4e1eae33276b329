//! The order in which the children of a list of nodes are kept.

ghost use Rattle.std.specs.Prelude.{◌≡◌, ◌+◌, ◌<◌, ◌≤◌};
ghost use Rattle.flow_limits.specs.Limits.{most_machines};
ghost use Rattle.flow_shop.specs.declared.end.End.TheVariants.{Front, Back};

use flow_limits::MAX_MACHINES;
use flow_nodes::Node;
use flow_shop::End;

/// A time for each machine, with machine 1 first.
type MachineTimes = [u32; MAX_MACHINES];

/// What the order goes by.
#[derive(Clone, Copy)]
pub(crate) enum Mode {
    /// By the bound, and then by the deficit.
    Bound,
    /// By a sum of the bound and the deficit.
    Sum,
    /// By the deficit, and then by the bound.
    Deficit,
}

/// The order of the children in a pass.
#[derive(Clone, Copy)]
pub(crate) struct ChildOrder {
    pub(crate) mode: Mode,
    /// The greatest time of a job on a machine.
    pub(crate) greatest: u32,
    /// How many machines there are.
    pub(crate) machines: usize,
    ghost few: { machines ≤ most_machines },
}

/// What a bound counts in a sum with the deficit, in greatest times.
const BOUND_WEIGHT: u64 = 30;

/// What children are ordered by: the first number, and then the second.
#[derive(Clone, Copy, PartialEq, Eq, PartialOrd, Ord)]
pub(crate) struct Key {
    first: u64,
    second: u64,
}

/// The square of how far a machine's work in store is below the cap. Its work in store is the time from the front or
/// back of the machine next to it to its own.
fn lack(cap: u32, later: u32, earlier: u32) -> u64 {
    let below = u64::from(cap.saturating_sub(later.wrapping_sub(earlier)));
    below.wrapping_mul(below)
}

impl ChildOrder {
    /// The work in store from which on a machine lacks none.
    fn cap(&self) -> u32 {
        match self.mode {
            Mode::Bound => self.greatest.wrapping_mul(2),
            Mode::Sum => self.greatest,
            Mode::Deficit => self.greatest.wrapping_add(self.greatest / 2),
        }
    }

    /// What a bound counts in a sum.
    fn weight(&self) -> u64 {
        BOUND_WEIGHT.wrapping_mul(u64::from(self.greatest))
    }

    /// The key of a bound and a deficit. It is below 2^56, since bounds are below 2^30, and times below 2^20.
    pub(crate) fn key(&self, bound: u32, deficit: u64) -> Key {
        let bound = u64::from(bound);
        match self.mode {
            Mode::Bound => Key {
                first: bound,
                second: deficit,
            },
            Mode::Sum => Key {
                first: self.weight().wrapping_mul(bound).wrapping_add(deficit),
                second: 0,
            },
            Mode::Deficit => Key {
                first: deficit,
                second: bound,
            },
        }
    }

    /// The least bound whose key with a deficit is above a key.
    pub(crate) fn bound_above(&self, key: &Key, deficit: u64) -> u64 {
        match self.mode {
            Mode::Bound => key.first.wrapping_add(u64::from(deficit <= key.second)),
            Mode::Sum if key.first < deficit => 0,
            Mode::Sum => match (key.first - deficit).checked_div(self.weight()) {
                Some(most) => most.wrapping_add(1),
                None => u64::MAX,
            },
            Mode::Deficit if deficit < key.first => u64::MAX,
            Mode::Deficit if deficit == key.first => key.second.wrapping_add(1),
            Mode::Deficit => 0,
        }
    }

    /// A deficit such that the key of a bound with any greater deficit is above a key.
    pub(crate) fn most_deficit(&self, key: &Key, bound: u32) -> u64 {
        let bound = u64::from(bound);
        match self.mode {
            Mode::Bound if bound < key.first => u64::MAX,
            Mode::Bound => key.second,
            Mode::Sum => key.first.saturating_sub(self.weight().wrapping_mul(bound)),
            Mode::Deficit => key.first,
        }
    }

    /// The deficit of the end of a node at which no job is put.
    pub(crate) fn kept_deficit(&self, node: &Node, end: End) -> u64 {
        let (later, earlier) = match end {
            End::Front => (&node.backs()[..], &node.backs()[1..]),
            End::Back => (&node.fronts()[1..], &node.fronts()[..]),
        };
        let cap = self.cap();
        let mut deficit: u64 = 0;
        for place in 1..self.machines {
            deficit = deficit.wrapping_add(lack(cap, later[place - 1], earlier[place - 1]));
        }
        deficit
    }

    /// The place of a machine that has so many machines before it, counted from an end.
    #[inline(always)]
    fn place_from(&self, end: End, count: usize) -> usize
        requires { count < self.now.machines }
        ensures within { result < self.now.machines }
        ensures front { end ≡ Front → result ≡ count }
        ensures back { end ≡ Back → result + count + 1 ≡ self.now.machines }
    {
        match end {
            End::Front => count,
            End::Back => self.machines - 1 - count,
        }
    }

    /// The deficit of an end with these fronts or backs at which a job with these times is put; or a part of it that is
    /// above the most.
    #[inline(always)]
    fn deficit_with(
        &self,
        end: End,
        starts: &MachineTimes,
        times: &MachineTimes,
        most: u64,
    ) -> u64 {
        let cap = self.cap();
        let mut deficit: u64 = 0;
        let mut earlier: u32 = 0;
        for count in 0..self.machines {
            let place = self.place_from(end, count);
            let free = starts[place].max(earlier).wrapping_add(times[place]);
            if count > 0 {
                deficit = deficit.wrapping_add(lack(cap, free, earlier));
            }
            if deficit > most {
                break;
            }
            earlier = free;
        }
        deficit
    }

    /// The deficit of the end of a node at which a job with these times is put; or a part of it that is above the most.
    pub(crate) fn changed_deficit(
        &self,
        node: &Node,
        end: End,
        times: &MachineTimes,
        most: u64,
    ) -> u64 {
        // One loop for each end, so that its step is known.
        match end {
            End::Front => self.deficit_with(End::Front, node.fronts(), times, most),
            End::Back => self.deficit_with(End::Back, node.backs(), times, most),
        }
    }
}
