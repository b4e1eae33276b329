//! At each of several places the two least of the numbers that some jobs have there. A place stands for a machine, and
//! a job's number is its tail behind that machine, or its lag from there to another.

ghost use Rattle.std.specs.Prelude.{◌≡◌, ℕ, ◌<◌, ◌≤◌, min, max, List, [], ◌∷◌, ◌++◌, slice_index};
ghost use Rattle.flow_limits.specs.Limits.{most_machines};
ghost use Rattle.flow_shop.specs.TwoLeast.{AreTwoLeast};

use crate::two_least::TwoLeast;
use flow_limits::MAX_MACHINES;

/// The two least of some jobs' numbers at each place. Where there is no job, both are the greatest number of 32 bits,
/// and where there is one, the second is. Where two jobs have the least, both are the same.
#[derive(Clone, Copy)]
pub struct LeastPairs {
    /// The least.
    pub least: [u32; MAX_MACHINES],
    /// The second least.
    pub second: [u32; MAX_MACHINES],
}

impl LeastPairs {
    /// Those of no job.
    pub fn none() -> LeastPairs
        ensures { (number : ℕ → ℕ → ℕ) (count : ℕ) → count ≤ most_machines → AreTwoLeast number count [] result }
    {
        LeastPairs {
            least: [u32::MAX; MAX_MACHINES],
            second: [u32::MAX; MAX_MACHINES],
        }
    }

    /// The two least at a place.
    #[inline(always)]
    pub fn at(&self, place: usize) -> TwoLeast
        requires { place < most_machines }
        ensures least { result.least ≡ slice_index self.now.least place }
        ensures second { result.second ≡ slice_index self.now.second place }
    {
        TwoLeast {
            least: self.least[place],
            second: self.second[place],
        }
    }

    /// Takes one job more in, by its numbers at the first `count` places. The other places stay as they were.
    #[inline]
    pub fn take(&mut self, numbers: &[u32; MAX_MACHINES], count: usize)
        requires { count ≤ most_machines }
        ensures least { (place : ℕ) → place < count →
            slice_index self.new.least place ≡ min (slice_index self.old.least place) (slice_index numbers.now place) }
        ensures second { (place : ℕ) → place < count →
            slice_index self.new.second place ≡ min (slice_index self.old.second place)
            (max (slice_index self.old.least place) (slice_index numbers.now place)) }
        ensures others { (place : ℕ) → count ≤ place →
            (slice_index self.new.least place ≡ slice_index self.old.least place) ×
            (slice_index self.new.second place ≡ slice_index self.old.second place) }
        ensures two { (number : ℕ → ℕ → ℕ) (jobs : List ℕ) (job : ℕ) →
            ((place : ℕ) → place < count → slice_index numbers.now place ≡ number place job) →
            AreTwoLeast number count jobs self.old → AreTwoLeast number count (jobs ++ job ∷ []) self.new }
    {
        for place in 0..count {
            let two = self.at(place).with(numbers[place]);
            self.least[place] = two.least;
            self.second[place] = two.second;
        }
    }
}
