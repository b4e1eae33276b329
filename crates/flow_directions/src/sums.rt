//! The sums of the bounds of a node's children.

ghost use Rattle.std.specs.Prelude.{◌≡◌, ◌⊎◌, ℕ, ◌*◌, ◌<◌, ◌≤◌, false, List, ◌++◌, sum_by, length, slice_index, Some};
ghost use Rattle.std.specs.Prelude.{take, drop};
ghost use Rattle.std.specs.Int.{bit_at};
ghost use Rattle.flow_nodes.specs.Vectors.{HasLane};
ghost use Rattle.flow_nodes.specs.Nodes.{IsNode};
ghost use Rattle.flow_nodes.specs.Groups.{IsGroup, child_bound};
ghost use Rattle.flow_shop.specs.Shop.{Shop};
ghost use Rattle.flow_shop.specs.Ends.{end_bound};
ghost use Rattle.flow_shop.specs.Sequences.{has};
ghost use Rattle.flow_directions.specs.Search.{bound_sum};
ghost use Rattle.flow_nodes.specs.Marks.{picked};
ghost use Rattle.flow_nodes.specs.Packs.{IsPack};
ghost use Rattle.flow_nodes.specs.Open.{HasRoomToOpen, IsOpenNode};

use flow_nodes::{LANES, Marks, Node, OpenNode, Pack, Vector};
use flow_shop::{End, Instance};

/// The sum of the bounds of the children that put the jobs of a group at an end, of those whose lanes are marked,
/// lane by lane: exact also where a lane has the cap.
#[cold]
#[inline(never)]
fn sum_lane_by_lane<V: Vector>(
    instance: &Instance,
    node: &Node,
    end: End,
    group: &[V],
    names: &[u16],
    left: u16,
) -> u64
    requires wide { V.WIDTH ≡ 16 }
    requires names { length names.now ≡ 16 }
    requires at { (first : List ℕ) × (last : List ℕ) × IsNode instance.now first last node.now
        × IsGroup V.list V.CAP V.WIDTH instance.now names.now group.now
        × ((lane : ℕ) → lane < 16 → bit_at left lane ≡ 1 → has (first ++ last) (slice_index names.now lane) ≡ false) }
    ensures small { result ≤ 16 * 4294967295 }
    ensures sum { (first last : List ℕ) → IsNode instance.now first last node.now →
        IsGroup V.list V.CAP V.WIDTH instance.now names.now group.now →
        ((lane : ℕ) → lane < 16 → bit_at left lane ≡ 1 → has (first ++ last) (slice_index names.now lane) ≡ false) →
        result ≡ sum_by (child_bound instance.now end first last) (picked left 0 names.now) }
{
    let bounds = node.child_bounds(end, group);
    let mut sum = 0;
    for lane in 0..LANES {
        if left >> lane & 1 == 1 {
            let bound = node.bound_from_lane(instance, end, names[lane], bounds.at(lane), V::CAP);
            sum += u64::from(bound);
        }
    }
    sum
}

/// The bounds of the children that put the jobs of a group at an end: those that are known, or else computed. The
/// constant is the number of machines, or 0.
#[inline(always)]
fn known_or_computed<V: Vector, const M: usize>(
    node: &Node,
    end: End,
    group: &[V],
    known: Option<V>,
) -> V
    requires constant { (M ≡ 0) ⊎ (M ≡ length group.now) }
    requires at { (shop : Shop) × (first : List ℕ) × (last : List ℕ) × IsNode shop first last node.now
        × (length group.now ≡ shop.machines) × (end_bound shop first last ≤ V.CAP) }
    ensures { (shop : Shop) (first last jobs : List ℕ) (lane : ℕ) → IsNode shop first last node.now →
        IsGroup V.list V.CAP V.WIDTH shop jobs group.now → lane < V.WIDTH →
        has (first ++ last) (slice_index jobs lane) ≡ false →
        ((bounds : V) → known ≡ Some bounds →
        HasLane V.CAP V.WIDTH (V.list bounds) lane (child_bound shop end first last (slice_index jobs lane))) →
        HasLane V.CAP V.WIDTH (V.list result) lane (child_bound shop end first last (slice_index jobs lane)) }
{
    match known {
        Some(bounds) => bounds,
        None => node.small_child_bounds::<V, M>(end, group),
    }
}

/// The sum of the bounds of the children that put the jobs left of a group of the pack at an end. The constant is the
/// number of machines, or 0.
#[inline(always)]
fn sum_of_group<V: Vector, const M: usize>(
    instance: &Instance,
    pack: &Pack<V>,
    opened: &OpenNode<V>,
    end: End,
    group: usize,
) -> u64
    requires wide { V.WIDTH ≡ 16 }
    requires constant { (M ≡ 0) ⊎ (M ≡ instance.now.machines) }
    requires within { group < length pack.now.groups.items }
    requires room { HasRoomToOpen instance.now (length pack.now.groups.items) opened.now }
    requires at { (threshold : ℕ) × (first : List ℕ) × (last : List ℕ)
        × IsOpenNode V.list V.CAP V.WIDTH instance.now threshold first last pack.now opened.now
        × (end_bound instance.now first last ≤ V.CAP) × IsPack V.list V.CAP V.WIDTH instance.now pack.now }
    ensures small { result ≤ 16 * 4294967295 }
    ensures sum { (threshold : ℕ) (first last : List ℕ) →
        IsOpenNode V.list V.CAP V.WIDTH instance.now threshold first last pack.now opened.now →
        IsPack V.list V.CAP V.WIDTH instance.now pack.now → result ≡ sum_by (child_bound instance.now end first last)
        (picked (slice_index opened.now.left.words group) 0 (take 16 (drop (group * 16) pack.now.names.items))) }
{
    let left = opened.left.words[group];
    let times = pack.groups[group].as_slice();
    let bounds = known_or_computed::<V, M>(&opened.node, end, times, opened.at(end).bounds[group]);
    let marked = u64::from(left);
    if bounds.below(V::CAP) & marked == marked {
        bounds.sum_marked(left)
    } else {
        let from = group * LANES;
        let names = &pack.names[from..from + LANES];
        sum_lane_by_lane(instance, &opened.node, end, times, names, left)
    }
}

/// The marks of a group.
#[inline(always)]
fn word_of(marks: &Marks, group: usize) -> u16
    requires { group < 50 }
    ensures size { length marks.now.words ≡ 50 }
    ensures value { result ≡ slice_index marks.now.words group }
{
    marks.words[group]
}

/// The sum of the bounds of a node's children at an end. Its jobs left stand at marked places of a pack. The constant
/// is the number of machines, or 0.
#[inline(never)]
fn sum_with<V: Vector, const M: usize>(
    instance: &Instance,
    pack: &Pack<V>,
    opened: &OpenNode<V>,
    end: End,
) -> u64
    requires wide { V.WIDTH ≡ 16 }
    requires constant { (M ≡ 0) ⊎ (M ≡ instance.now.machines) }
    requires room { HasRoomToOpen instance.now (length pack.now.groups.items) opened.now }
    requires at { (threshold : ℕ) × (first : List ℕ) × (last : List ℕ)
        × IsOpenNode V.list V.CAP V.WIDTH instance.now threshold first last pack.now opened.now
        × (end_bound instance.now first last ≤ V.CAP) × IsPack V.list V.CAP V.WIDTH instance.now pack.now }
    ensures { (threshold : ℕ) (first last : List ℕ) →
        IsOpenNode V.list V.CAP V.WIDTH instance.now threshold first last pack.now opened.now →
        IsPack V.list V.CAP V.WIDTH instance.now pack.now → result ≡ bound_sum instance.now end first last }
{
    let mut sum = 0;
    for group in 0..pack.groups.len() {
        let word = word_of(&opened.left, group);
        if word != 0 {
            sum += sum_of_group::<V, M>(instance, pack, opened, end, group);
        }
    }
    sum
}

/// The sum of the bounds of a node's children at an end. Its jobs left stand at marked places of a pack.
#[inline(always)]
pub(crate) fn sum_of_bounds<V: Vector>(
    instance: &Instance,
    pack: &Pack<V>,
    opened: &OpenNode<V>,
    end: End,
) -> u64
    requires wide { V.WIDTH ≡ 16 }
    requires room { HasRoomToOpen instance.now (length pack.now.groups.items) opened.now }
    requires at { (threshold : ℕ) × (first : List ℕ) × (last : List ℕ)
        × IsOpenNode V.list V.CAP V.WIDTH instance.now threshold first last pack.now opened.now
        × (end_bound instance.now first last ≤ V.CAP) × IsPack V.list V.CAP V.WIDTH instance.now pack.now }
    ensures { (threshold : ℕ) (first last : List ℕ) →
        IsOpenNode V.list V.CAP V.WIDTH instance.now threshold first last pack.now opened.now →
        IsPack V.list V.CAP V.WIDTH instance.now pack.now → result ≡ bound_sum instance.now end first last }
{
    match instance.machines() {
        5 => sum_with::<V, 5>(instance, pack, opened, end),
        10 => sum_with::<V, 10>(instance, pack, opened, end),
        20 => sum_with::<V, 20>(instance, pack, opened, end),
        _ => sum_with::<V, 0>(instance, pack, opened, end),
    }
}
