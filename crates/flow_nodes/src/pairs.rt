//! What the groups of a node share at an end, as pairs, each of which is put into all lanes.

ghost use Rattle.std.specs.Prelude.{◌≡◌, ◌⊎◌, ℕ, ◌+◌, ◌<◌, ◌≤◌, slice_index};
ghost use Rattle.flow_limits.specs.Limits.{most_machines};
ghost use Rattle.flow_nodes.specs.internal.Pairs.{IsPaired, fits_at};

use crate::few_groups::known_or;
use crate::node::Node;
use crate::scan::{FOUR, four_of, put_four};
use crate::vector::Vector;
use flow_limits::MAX_MACHINES;
use flow_shop::End;

/// What the groups of a node share at an end, a pair for each machine.
#[derive(Clone, Copy)]
pub(crate) struct EndPairs {
    /// What is at the end.
    pub(crate) near: [u32; MAX_MACHINES],
    /// The time of the jobs left and what is at the other end.
    pub(crate) rest: [u32; MAX_MACHINES],
}

/// The pairs of the numbers of so many machines.
#[inline(always)]
fn pairs_of<V: Vector, const M: usize>(
    numbers: &[u32; MAX_MACHINES],
    machines: usize,
) -> [u32; MAX_MACHINES]
    requires constant { (M ≡ 0) ⊎ (M ≡ machines) }
    requires few { machines ≤ most_machines }
    requires fit { (place : ℕ) → place < machines → slice_index numbers.now place ≤ V.CAP }
    ensures { (place : ℕ) → place < machines →
        slice_index result place ≡ V.pair_of (slice_index numbers.now place) }
{
    let mut pairs = [0; MAX_MACHINES];
    let count = known_or::<M>(machines);
    let mut at = 0;
    'fours: while at < count {
        let from = at.min(MAX_MACHINES - FOUR);
        put_four(V::pairs(four_of(numbers, from)), from, &mut pairs);
        at += FOUR;
    }
    pairs
}

/// The pairs of the sums of two numbers for each of so many machines.
#[inline(always)]
pub(crate) fn pairs_of_sums<V: Vector, const M: usize>(
    first: &[u32; MAX_MACHINES],
    second: &[u32; MAX_MACHINES],
    machines: usize,
) -> [u32; MAX_MACHINES]
    requires constant { (M ≡ 0) ⊎ (M ≡ machines) }
    requires few { machines ≤ most_machines }
    requires fit { (place : ℕ) → place < machines →
        slice_index first.now place + slice_index second.now place ≤ V.CAP }
    requires small { (place : ℕ) → place < machines →
        slice_index first.now place + slice_index second.now place ≤ 4294967295 }
    ensures { (place : ℕ) → place < machines →
        slice_index result place ≡ V.pair_of (slice_index first.now place + slice_index second.now place) }
{
    let mut pairs = [0; MAX_MACHINES];
    let count = known_or::<M>(machines);
    let mut at = 0;
    'fours: while at < count {
        let from = at.min(MAX_MACHINES - FOUR);
        let sums = four_of(first, from) + four_of(second, from);
        put_four(V::pairs(sums), from, &mut pairs);
        at += FOUR;
    }
    pairs
}

impl EndPairs {
    /// What the groups of a node share at an end.
    #[inline(always)]
    pub(crate) fn of<V: Vector, const M: usize>(node: &Node, end: End, machines: usize) -> EndPairs
        requires constant { (M ≡ 0) ⊎ (M ≡ machines) }
        requires few { machines ≤ most_machines }
        requires fit { (place : ℕ) → place < machines → fits_at V.CAP node.now place }
        ensures { IsPaired V.pair_of V.CAP machines end node.now result }
    {
        match end {
            End::Front => EndPairs {
                near: pairs_of::<V, M>(&node.front, machines),
                rest: pairs_of_sums::<V, M>(&node.work, &node.back, machines),
            },
            End::Back => EndPairs {
                near: pairs_of::<V, M>(&node.back, machines),
                rest: pairs_of_sums::<V, M>(&node.work, &node.front, machines),
            },
        }
    }
}
