//! The children of a node that are below a threshold, where few groups have the jobs left: from the numbers of the
//! node, four machines at a time, with no vectors that the groups share.

ghost use Rattle.std.specs.Prelude.{◌≡◌, ◌⊎◌, ℕ, ◌+◌, ◌/◌, ◌%◌, ◌<◌, ◌≤◌, ◌↔◌, false, max, List, ◌++◌, length};
ghost use Rattle.std.specs.Prelude.{slice_index, slice_index_or, IsBitSet};
ghost use Rattle.std.specs.Global.{Vec};
ghost use Rattle.flow_limits.specs.Limits.{most_machines};
ghost use Rattle.flow_shop.specs.Shop.{Shop};
ghost use Rattle.flow_shop.specs.Sequences.{has};
ghost use Rattle.flow_shop.specs.declared.end.End.TheVariants.{Front, Back};
ghost use Rattle.flow_nodes.specs.Vectors.{HasLane, limit_of};
ghost use Rattle.flow_nodes.specs.Nodes.{IsNode};
ghost use Rattle.flow_nodes.specs.Groups.{IsGroup, child_bound, most_groups};
ghost use Rattle.flow_nodes.specs.Marks.{mark};
ghost use Rattle.flow_nodes.specs.internal.Children.{greatest_at};
ghost use Rattle.flow_nodes.specs.internal.Passes.{HasPassed};
ghost use Rattle.flow_nodes.specs.internal.Small.{IsSmall};

use crate::marks::Marks;
use crate::node::Node;
use crate::passes::Pass;
use crate::scan::{FOUR, four_of};
use crate::vector::Vector;
use flow_shop::End;
use std::simd::prelude::*;

/// The number of machines, which the constant is, unless it is 0.
#[inline(always)]
pub(crate) fn known_or<const M: usize>(machines: usize) -> usize
    requires constant { (M ≡ 0) ⊎ (M ≡ machines) }
    ensures { result ≡ machines }
{
    if M == 0 { machines } else { M }
}

/// Goes over a machine with jobs that are put at an end: by what is at the end in all lanes, the time of the jobs left
/// and what is at the other end, likewise, and the times of these jobs.
#[inline(always)]
fn over_machine<V: Vector>(pass: Pass<V>, near: V, rest: V, times: V) -> Pass<V>
    ensures free { (lane free at time : ℕ) → HasLane V.CAP V.WIDTH (V.list pass.free) lane free →
        HasLane V.CAP V.WIDTH (V.list near) lane at → HasLane V.CAP V.WIDTH (V.list times) lane time →
        HasLane V.CAP V.WIDTH (V.list result.free) lane (max free at + time) }
    ensures bounds { (lane free bound at others : ℕ) → HasLane V.CAP V.WIDTH (V.list pass.free) lane free →
        HasLane V.CAP V.WIDTH (V.list pass.bounds) lane bound → HasLane V.CAP V.WIDTH (V.list near) lane at →
        HasLane V.CAP V.WIDTH (V.list rest) lane others →
        HasLane V.CAP V.WIDTH (V.list result.bounds) lane (max bound (max free at + others)) }
{
    let start = pass.free.at_least(near);
    Pass {
        free: start.plus(times),
        bounds: pass.bounds.at_least(start.plus(rest)),
    }
}

/// Goes over four machines, from that at a place on, with jobs that are put at the front.
#[inline(always)]
fn over_four_at_front<V: Vector>(node: &Node, group: &[V], at: usize, pass: Pass<V>) -> Pass<V>
    requires at { at + 4 ≤ length group.now }
    requires machines { length group.now ≤ most_machines }
    requires small { IsSmall V.CAP (length group.now) node.now }
    ensures { (shop : Shop) (first last jobs : List ℕ) (lane : ℕ) → IsNode shop first last node.now →
        IsGroup V.list V.CAP V.WIDTH shop jobs group.now → lane < V.WIDTH →
        HasPassed V.list V.CAP V.WIDTH shop Front first last (slice_index jobs lane) lane at pass →
        HasPassed V.list V.CAP V.WIDTH shop Front first last (slice_index jobs lane) lane (at + 4) result }
{
    let near = V::pairs(four_of(&node.front, at)).to_array();
    let rest = V::pairs(four_of(&node.work, at) + four_of(&node.back, at)).to_array();
    let mut four = pass;
    for machine in 0..FOUR {
        let near = V::from_pair(near[machine]);
        four = over_machine(four, near, V::from_pair(rest[machine]), group[at + machine]);
    }
    four
}

/// Goes over four machines, down to that at a place, with jobs that are put at the back.
#[inline(always)]
fn over_four_at_back<V: Vector>(node: &Node, group: &[V], at: usize, pass: Pass<V>) -> Pass<V>
    requires at { at + 4 ≤ length group.now }
    requires machines { length group.now ≤ most_machines }
    requires small { IsSmall V.CAP (length group.now) node.now }
    ensures { (shop : Shop) (first last jobs : List ℕ) (lane : ℕ) → IsNode shop first last node.now →
        IsGroup V.list V.CAP V.WIDTH shop jobs group.now → lane < V.WIDTH →
        HasPassed V.list V.CAP V.WIDTH shop Back first last (slice_index jobs lane) lane (at + 4) pass →
        HasPassed V.list V.CAP V.WIDTH shop Back first last (slice_index jobs lane) lane at result }
{
    let near = V::pairs(four_of(&node.back, at)).to_array();
    let rest = V::pairs(four_of(&node.work, at) + four_of(&node.front, at)).to_array();
    let mut four = pass;
    let mut machine = FOUR;
    while machine > 0 {
        machine -= 1;
        let near = V::from_pair(near[machine]);
        four = over_machine(four, near, V::from_pair(rest[machine]), group[at + machine]);
    }
    four
}

/// The bounds of the children that put the jobs of a group at the front.
#[inline(always)]
pub(crate) fn small_front_bounds<V: Vector, const M: usize>(node: &Node, group: &[V]) -> V
    requires constant { (M ≡ 0) ⊎ (M ≡ length group.now) }
    requires machines { length group.now ≤ most_machines }
    requires small { IsSmall V.CAP (length group.now) node.now }
    ensures { (shop : Shop) (first last jobs : List ℕ) (lane : ℕ) → IsNode shop first last node.now →
        IsGroup V.list V.CAP V.WIDTH shop jobs group.now → lane < V.WIDTH →
        HasLane V.CAP V.WIDTH (V.list result) lane (greatest_at shop Front first last (slice_index jobs lane)) }
{
    let zeros = V::each(0);
    let mut pass = Pass {
        free: zeros,
        bounds: zeros,
    };
    let machines = known_or::<M>(group.len());
    let mut at = 0;
    'fours: while at + FOUR <= machines {
        pass = over_four_at_front(node, group, at, pass);
        at += FOUR;
    }
    'others: while at < machines {
        let near = V::each(node.front[at]);
        let rest = V::each(node.work[at] + node.back[at]);
        pass = over_machine(pass, near, rest, group[at]);
        at += 1;
    }
    pass.bounds
}

/// The bounds of the children that put the jobs of a group at the back.
#[inline(always)]
pub(crate) fn small_back_bounds<V: Vector, const M: usize>(node: &Node, group: &[V]) -> V
    requires constant { (M ≡ 0) ⊎ (M ≡ length group.now) }
    requires machines { length group.now ≤ most_machines }
    requires small { IsSmall V.CAP (length group.now) node.now }
    ensures { (shop : Shop) (first last jobs : List ℕ) (lane : ℕ) → IsNode shop first last node.now →
        IsGroup V.list V.CAP V.WIDTH shop jobs group.now → lane < V.WIDTH →
        HasLane V.CAP V.WIDTH (V.list result) lane (greatest_at shop Back first last (slice_index jobs lane)) }
{
    let zeros = V::each(0);
    let mut pass = Pass {
        free: zeros,
        bounds: zeros,
    };
    let mut end = known_or::<M>(group.len());
    'others: while end % FOUR > 0 {
        end -= 1;
        let near = V::each(node.back[end]);
        let rest = V::each(node.work[end] + node.front[end]);
        pass = over_machine(pass, near, rest, group[end]);
    }
    'fours: while end > 0 {
        end -= FOUR;
        pass = over_four_at_back(node, group, end, pass);
    }
    pass.bounds
}

/// The children below a limit, of those that put the jobs of a group at an end: a bit for each lane, and no other bits.
/// The bit of a lane whose job is not left may be set or not.
#[inline(always)]
fn small_below<V: Vector, const M: usize>(node: &Node, end: End, group: &[V], limit: u32) -> u64
    requires constant { (M ≡ 0) ⊎ (M ≡ length group.now) }
    requires machines { length group.now ≤ most_machines }
    requires small { IsSmall V.CAP (length group.now) node.now }
    requires limit { limit ≤ V.CAP }
    ensures each { (shop : Shop) (first last jobs : List ℕ) (lane : ℕ) → IsNode shop first last node.now →
        IsGroup V.list V.CAP V.WIDTH shop jobs group.now → lane < V.WIDTH →
        has (first ++ last) (slice_index jobs lane) ≡ false →
        IsBitSet result lane ↔ (child_bound shop end first last (slice_index jobs lane) < limit) }
    ensures none { (lane : ℕ) → V.WIDTH ≤ lane → ¬ IsBitSet result lane }
{
    match end {
        End::Front => small_front_bounds::<V, M>(node, group).below(limit),
        End::Back => small_back_bounds::<V, M>(node, group).below(limit),
    }
}

/// Marks the jobs left that make children below a threshold at an end, among those of the groups, where the limit
/// stands for the threshold.
#[inline(always)]
pub(crate) fn mark_few<V: Vector, const M: usize>(
    node: &Node,
    end: End,
    groups: &[Vec<V>],
    left: &Marks,
    limit: u32,
    below: &mut Marks,
)
    requires wide { V.WIDTH ≡ 16 }
    requires constant { (group : ℕ) (none : Vec V) → group < length groups.now →
        (M ≡ 0) ⊎ (M ≡ length (slice_index_or groups.now group none).items) }
    requires limit { limit ≤ V.CAP }
    requires few { length groups.now ≤ most_groups }
    requires machines { (group : ℕ) (none : Vec V) → group < length groups.now →
        length (slice_index_or groups.now group none).items ≤ most_machines }
    requires small { (group : ℕ) (none : Vec V) → group < length groups.now →
        IsSmall V.CAP (length (slice_index_or groups.now group none).items) node.now }
    ensures within { (place : ℕ) → place / 16 < length groups.now → mark below.new.words place ≡ 1 →
        mark left.now.words place ≡ 1 }
    ensures exact { (shop : Shop) (threshold : ℕ) (first last jobs : List ℕ) (place : ℕ) (none : Vec V) →
        limit ≡ limit_of threshold → IsNode shop first last node.now → place / 16 < length groups.now →
        IsGroup V.list V.CAP V.WIDTH shop jobs (slice_index_or groups.now (place / 16) none).items →
        mark left.now.words place ≡ 1 → has (first ++ last) (slice_index jobs (place % 16)) ≡ false →
        mark below.new.words place ≡ 1
        ↔ (child_bound shop end first last (slice_index jobs (place % 16)) < threshold) }
{
    for group in 0..groups.len() {
        let word = left.words[group];
        if word != 0 {
            let bits = small_below::<V, M>(node, end, groups[group].as_slice(), limit);
            below.words[group] = (bits & u64::from(word)) as u16;
        } else {
            below.words[group] = 0;
        }
    }
}
