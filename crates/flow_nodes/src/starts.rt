//! The bounds of the children that put the jobs of a group at an end, from when they start there.

ghost use Rattle.std.specs.Prelude.{◌≡◌, ◌⊎◌, ℕ, ◌-◌, ◌<◌, ◌≤◌, List, length, slice_index, slice_index_or};
ghost use Rattle.flow_nodes.specs.declared.node.Node.{Node};
ghost use Rattle.flow_limits.specs.Limits.{most_machines};
ghost use Rattle.flow_shop.specs.Shop.{Shop};
ghost use Rattle.flow_shop.specs.declared.end.End.{End};
ghost use Rattle.flow_shop.specs.declared.end.End.TheVariants.{Front, Back};
ghost use Rattle.flow_nodes.specs.Vectors.{HasLane};
ghost use Rattle.flow_nodes.specs.Nodes.{IsMachine, IsNode};
ghost use Rattle.flow_nodes.specs.Groups.{IsGroup};
ghost use Rattle.flow_nodes.specs.Open.{start_at};
ghost use Rattle.flow_nodes.specs.internal.Children.{greatest_at};
ghost use Rattle.flow_nodes.specs.internal.Pairs.{AreRests, IsPaired};

use crate::few_groups::known_or;
use crate::pairs::EndPairs;
use crate::vector::Vector;
use flow_limits::MAX_MACHINES;

/// The bounds of the children that put the jobs of a group at an end, from their starts there, and from the pairs of
/// the time of the jobs left and what is at the other end. Copies the starts.
#[inline(always)]
pub(crate) fn keep_starts<V: Vector, const M: usize>(
    starts: &[V],
    rest: &[u32; MAX_MACHINES],
    kept: &mut [V],
) -> V
    requires constant { (M ≡ 0) ⊎ (M ≡ length starts.now) }
    requires machines { length starts.now ≤ most_machines }
    requires kept { length kept.old ≡ length starts.now }
    ensures copied { kept.new ≡ starts.now }
    ensures bounds { (shop : Shop) (end : End) (first last : List ℕ) (job : ℕ) (node : Node) (lane : ℕ) →
        IsNode shop first last node → AreRests V.pair_of V.CAP shop.machines end node rest.now →
        length starts.now ≡ shop.machines → lane < V.WIDTH →
        ((machine : ℕ) (none : V) → IsMachine shop machine →
        HasLane V.CAP V.WIDTH (V.list (slice_index_or starts.now (machine - 1) none)) lane
        (start_at shop end first last job machine)) →
        HasLane V.CAP V.WIDTH (V.list result) lane (greatest_at shop end first last job) }
{
    let mut bounds = V::each(0);
    let machines = known_or::<M>(starts.len());
    for place in 0..machines {
        let start = starts[place];
        kept[place] = start;
        bounds = bounds.at_least(start.plus(V::from_pair(rest[place])));
    }
    bounds
}
