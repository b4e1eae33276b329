//! Draws of random numbers: a place in a list, and the order of a list.

ghost use Rattle.std.specs.Prelude.{◌<◌, ◌≤◌, length};
ghost use Rattle.std.specs.List.Sorted.{IsPermutation};
ghost use Rattle.flow_limits.specs.Limits.{most_jobs};

use flow_generator::Taillard;

/// A place in a list of so many entries, counted from 0.
pub(crate) fn place_in(draws: &mut Taillard, count: usize) -> usize
    requires some { 1 ≤ count }
    requires few { count ≤ most_jobs }
    ensures { result < count }
{
    draws.next(1, count as u32) as usize - 1
}

/// Puts a list in an order that is drawn: each entry from the last to the second is swapped with one that is not after
/// it.
pub(crate) fn shuffle(draws: &mut Taillard, list: &mut [u16])
    requires { length list.old ≤ most_jobs }
    ensures { IsPermutation list.old list.new }
{
    for index in (1..list.len()).rev() {
        let other = place_in(draws, index + 1);
        list.swap(index, other);
    }
}
