//! The bounds of the children that put the jobs of a group at an end, side by side.

ghost use Rattle.std.specs.Prelude.{◌≡◌, ◌⊎◌, ℕ, ◌/◌, ◌%◌, ◌<◌, ◌≤◌, ◌↔◌, false, List, ◌++◌, length};
ghost use Rattle.std.specs.Prelude.{slice_index, slice_index_or, IsBitSet};
ghost use Rattle.std.specs.Global.{Vec};
ghost use Rattle.flow_limits.specs.Limits.{most_machines};
ghost use Rattle.flow_shop.specs.Shop.{Shop};
ghost use Rattle.flow_shop.specs.Ends.{end_bound};
ghost use Rattle.flow_shop.specs.Sequences.{has};
ghost use Rattle.flow_shop.specs.declared.end.End.TheVariants.{Front, Back};
ghost use Rattle.flow_nodes.specs.Vectors.{HasLane, limit_of};
ghost use Rattle.flow_nodes.specs.Nodes.{IsNode};
ghost use Rattle.flow_nodes.specs.Groups.{IsGroup, child_bound, most_groups};
ghost use Rattle.flow_nodes.specs.Marks.{mark};
ghost use Rattle.flow_nodes.specs.internal.Children.{greatest_at};

use crate::few_groups::{small_back_bounds, small_front_bounds};
use crate::marks::Marks;
use crate::node::Node;
use crate::vector::Vector;
use flow_shop::End;

/// The bounds of the children that put the jobs of a group at the front.
#[inline(always)]
fn front_bounds<V: Vector>(node: &Node, group: &[V]) -> V
    requires machines { length group.now ≤ most_machines }
    ensures { (shop : Shop) (first last jobs : List ℕ) (lane : ℕ) → IsNode shop first last node.now →
        IsGroup V.list V.CAP V.WIDTH shop jobs group.now → lane < V.WIDTH →
        HasLane V.CAP V.WIDTH (V.list result) lane (greatest_at shop Front first last (slice_index jobs lane)) }
{
    let mut free = V::each(0);
    let mut bounds = free;
    for place in 0..group.len() {
        let start = free.at_least(V::all(u64::from(node.front[place])));
        let rest = u64::from(node.work[place]) + u64::from(node.back[place]);
        bounds = bounds.at_least(start.plus(V::all(rest)));
        free = start.plus(group[place]);
    }
    bounds
}

/// The bounds of the children that put the jobs of a group at the back.
#[inline(always)]
fn back_bounds<V: Vector>(node: &Node, group: &[V]) -> V
    requires machines { length group.now ≤ most_machines }
    ensures { (shop : Shop) (first last jobs : List ℕ) (lane : ℕ) → IsNode shop first last node.now →
        IsGroup V.list V.CAP V.WIDTH shop jobs group.now → lane < V.WIDTH →
        HasLane V.CAP V.WIDTH (V.list result) lane (greatest_at shop Back first last (slice_index jobs lane)) }
{
    let mut free = V::each(0);
    let mut bounds = free;
    let mut machine = group.len();
    while machine > 0 {
        let place = machine - 1;
        let start = free.at_least(V::all(u64::from(node.back[place])));
        let rest = u64::from(node.work[place]) + u64::from(node.front[place]);
        bounds = bounds.at_least(start.plus(V::all(rest)));
        free = start.plus(group[place]);
        machine = place;
    }
    bounds
}

impl Node {
    /// The bounds of the children that put the jobs of a group at an end, a lane for each. A lane whose job is not left
    /// has some number.
    #[inline(always)]
    pub fn child_bounds<V: Vector>(&self, end: End, group: &[V]) -> V
        requires { length group.now ≤ most_machines }
        ensures { (shop : Shop) (first last jobs : List ℕ) (lane : ℕ) → IsNode shop first last self.now →
            IsGroup V.list V.CAP V.WIDTH shop jobs group.now → lane < V.WIDTH →
            has (first ++ last) (slice_index jobs lane) ≡ false →
            HasLane V.CAP V.WIDTH (V.list result) lane (child_bound shop end first last (slice_index jobs lane)) }
    {
        match end {
            End::Front => front_bounds(self, group),
            End::Back => back_bounds(self, group),
        }
    }

    /// The same bounds, where the node's own bound is no greater than the cap. The constant is the number of machines,
    /// or 0.
    #[inline(always)]
    pub fn small_child_bounds<V: Vector, const M: usize>(&self, end: End, group: &[V]) -> V
        requires constant { (M ≡ 0) ⊎ (M ≡ length group.now) }
        requires machines { length group.now ≤ most_machines }
        requires small { (shop : Shop) × (first : List ℕ) × (last : List ℕ) × IsNode shop first last self.now
            × (length group.now ≡ shop.machines) × (end_bound shop first last ≤ V.CAP) }
        ensures { (shop : Shop) (first last jobs : List ℕ) (lane : ℕ) → IsNode shop first last self.now →
            IsGroup V.list V.CAP V.WIDTH shop jobs group.now → lane < V.WIDTH →
            has (first ++ last) (slice_index jobs lane) ≡ false →
            HasLane V.CAP V.WIDTH (V.list result) lane (child_bound shop end first last (slice_index jobs lane)) }
    {
        match end {
            End::Front => small_front_bounds::<V, M>(self, group),
            End::Back => small_back_bounds::<V, M>(self, group),
        }
    }

    /// The children below a threshold, of those that put the jobs of a group at an end: a bit for each lane, and no
    /// other bits. The bit of a lane whose job is not left may be set or not.
    #[inline(always)]
    pub(crate) fn children_below<V: Vector>(&self, end: End, group: &[V], threshold: u32) -> u64
        requires machines { length group.now ≤ most_machines }
        requires threshold { threshold ≤ V.CAP }
        ensures each { (shop : Shop) (first last jobs : List ℕ) (lane : ℕ) → IsNode shop first last self.now →
            IsGroup V.list V.CAP V.WIDTH shop jobs group.now → lane < V.WIDTH →
            has (first ++ last) (slice_index jobs lane) ≡ false →
            IsBitSet result lane ↔ (child_bound shop end first last (slice_index jobs lane) < threshold) }
        ensures none { (lane : ℕ) → V.WIDTH ≤ lane → ¬ IsBitSet result lane }
    {
        self.child_bounds(end, group).below(threshold)
    }

    /// Marks the jobs left that make children below a threshold at an end, among those of the groups. The limit is that
    /// of the threshold in 32 bits. The places behind those of the groups keep their marks.
    #[inline(always)]
    pub fn mark_below<V: Vector>(
        &self,
        end: End,
        groups: &[Vec<V>],
        left: &Marks,
        limit: u32,
        below: &mut Marks,
    )
        requires wide { V.WIDTH ≡ 16 }
        requires limit { limit ≤ V.CAP }
        requires few { length groups.now ≤ most_groups }
        requires machines { (group : ℕ) (none : Vec V) → group < length groups.now →
            length (slice_index_or groups.now group none).items ≤ most_machines }
        ensures rest { (place : ℕ) → length groups.now ≤ place / 16 →
            mark below.new.words place ≡ mark below.old.words place }
        ensures within { (place : ℕ) → place / 16 < length groups.now → mark below.new.words place ≡ 1 →
            mark left.now.words place ≡ 1 }
        ensures exact { (shop : Shop) (threshold : ℕ) (first last jobs : List ℕ) (place : ℕ) (none : Vec V) →
            limit ≡ limit_of threshold → IsNode shop first last self.now → place / 16 < length groups.now →
            IsGroup V.list V.CAP V.WIDTH shop jobs (slice_index_or groups.now (place / 16) none).items →
            mark left.now.words place ≡ 1 → has (first ++ last) (slice_index jobs (place % 16)) ≡ false →
            mark below.new.words place ≡ 1
            ↔ (child_bound shop end first last (slice_index jobs (place % 16)) < threshold) }
    {
        for group in 0..groups.len() {
            let word = left.words[group];
            if word != 0 {
                let bits = self.children_below(end, groups[group].as_slice(), limit);
                below.words[group] = (bits & u64::from(word)) as u16;
            } else {
                below.words[group] = 0;
            }
        }
    }
}
