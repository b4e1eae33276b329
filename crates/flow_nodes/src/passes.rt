//! Passes over the machines from an end of a node: when the jobs of a group start there, side by side, and the bounds
//! of the children.

ghost use Rattle.std.specs.Prelude.{◌≡◌, ◌⊎◌, ◌↔◌, ℕ, ◌+◌, ◌-◌, ◌<◌, ◌≤◌, false, List, ◌++◌, length, slice_index};
ghost use Rattle.std.specs.Prelude.{slice_index_or, Some};
ghost use Rattle.std.specs.Int.{bit_at};
ghost use Rattle.flow_nodes.specs.declared.node.Node.{Node};
ghost use Rattle.flow_limits.specs.Limits.{most_machines};
ghost use Rattle.flow_shop.specs.Shop.{Shop};
ghost use Rattle.flow_shop.specs.Sequences.{has};
ghost use Rattle.flow_shop.specs.declared.end.End.TheVariants.{Front, Back};
ghost use Rattle.flow_nodes.specs.Vectors.{HasLane, limit_of};
ghost use Rattle.flow_nodes.specs.Nodes.{IsNode};
ghost use Rattle.flow_nodes.specs.Groups.{IsGroup, child_bound};
ghost use Rattle.flow_nodes.specs.Open.{HasStartsAndBound, start_at};
ghost use Rattle.flow_nodes.specs.internal.Pairs.{IsPaired};
ghost use Rattle.flow_nodes.specs.internal.Passes.{HasPassed};

use crate::few_groups::known_or;
use crate::pairs::EndPairs;
use crate::vector::Vector;
use flow_shop::End;

/// What a pass over machines has come to, for the jobs of a group.
#[derive(Clone, Copy)]
pub(crate) struct Pass<V> {
    /// When they are free for the next machine.
    pub(crate) free: V,
    /// The greatest bounds so far.
    pub(crate) bounds: V,
}

/// Which children are sought among those of a group.
#[derive(Clone, Copy)]
pub(crate) struct Sought {
    /// Those below this limit.
    pub(crate) limit: u32,
    /// Whether a pass ends after a third, or two, of the machines where no job left makes one any more.
    pub(crate) looks: bool,
}

/// What is found of the children that put the jobs of a group at an end.
#[derive(Clone, Copy)]
pub(crate) struct Found<V> {
    /// The lanes of the jobs left that make children that are sought.
    pub(crate) below: u16,
    /// The bounds of all of them, where the jobs have passed all machines.
    pub(crate) bounds: Option<V>,
}

/// A pass that has not begun.
#[inline(always)]
fn begun<V: Vector>() -> Pass<V>
    ensures free { (lane : ℕ) → lane < V.WIDTH → HasLane V.CAP V.WIDTH (V.list result.free) lane 0 }
    ensures bounds { (lane : ℕ) → lane < V.WIDTH → HasLane V.CAP V.WIDTH (V.list result.bounds) lane 0 }
{
    let zeros = V::each(0);
    Pass {
        free: zeros,
        bounds: zeros,
    }
}

/// Goes over the machines behind the place `from`, up to the place `to`, with jobs that are put at the front. Writes
/// when they start there.
#[inline(always)]
fn pass_front<V: Vector>(
    pairs: &EndPairs,
    group: &[V],
    starts: &mut [V],
    pass: Pass<V>,
    from: usize,
    to: usize,
) -> Pass<V>
    requires order { from ≤ to }
    requires within { to ≤ length group.now }
    requires machines { length group.now ≤ most_machines }
    requires starts { length starts.old ≡ length group.now }
    ensures passed { (shop : Shop) (first last jobs : List ℕ) (node : Node) (lane : ℕ) → IsNode shop first last node →
        IsPaired V.pair_of V.CAP (length group.now) Front node pairs.now →
        IsGroup V.list V.CAP V.WIDTH shop jobs group.now → lane < V.WIDTH →
        HasPassed V.list V.CAP V.WIDTH shop Front first last (slice_index jobs lane) lane from pass →
        HasPassed V.list V.CAP V.WIDTH shop Front first last (slice_index jobs lane) lane to result }
    ensures starts { (shop : Shop) (first last jobs : List ℕ) (node : Node) (lane place : ℕ) (none : V) →
        IsNode shop first last node → IsPaired V.pair_of V.CAP (length group.now) Front node pairs.now →
        IsGroup V.list V.CAP V.WIDTH shop jobs group.now → lane < V.WIDTH →
        HasPassed V.list V.CAP V.WIDTH shop Front first last (slice_index jobs lane) lane from pass →
        from ≤ place → place < to → HasLane V.CAP V.WIDTH (V.list (slice_index_or starts.new place none)) lane
        (start_at shop Front first last (slice_index jobs lane) (place + 1)) }
    ensures others { (place : ℕ) (none : V) → (place < from) ⊎ (to ≤ place) →
        slice_index_or starts.new place none ≡ slice_index_or starts.old place none }
{
    let mut free = pass.free;
    let mut bounds = pass.bounds;
    for place in from..to {
        let start = free.at_least(V::from_pair(pairs.near[place]));
        starts[place] = start;
        bounds = bounds.at_least(start.plus(V::from_pair(pairs.rest[place])));
        free = start.plus(group[place]);
    }
    Pass { free, bounds }
}

/// Goes over the machines up to the place `to`, and down to that behind the place `from`, with jobs that are put at the
/// back. Writes when they start there.
#[inline(always)]
fn pass_back<V: Vector>(
    pairs: &EndPairs,
    group: &[V],
    starts: &mut [V],
    pass: Pass<V>,
    from: usize,
    to: usize,
) -> Pass<V>
    requires order { from ≤ to }
    requires within { to ≤ length group.now }
    requires machines { length group.now ≤ most_machines }
    requires starts { length starts.old ≡ length group.now }
    ensures passed { (shop : Shop) (first last jobs : List ℕ) (node : Node) (lane : ℕ) → IsNode shop first last node →
        IsPaired V.pair_of V.CAP (length group.now) Back node pairs.now →
        IsGroup V.list V.CAP V.WIDTH shop jobs group.now → lane < V.WIDTH →
        HasPassed V.list V.CAP V.WIDTH shop Back first last (slice_index jobs lane) lane to pass →
        HasPassed V.list V.CAP V.WIDTH shop Back first last (slice_index jobs lane) lane from result }
    ensures starts { (shop : Shop) (first last jobs : List ℕ) (node : Node) (lane place : ℕ) (none : V) →
        IsNode shop first last node → IsPaired V.pair_of V.CAP (length group.now) Back node pairs.now →
        IsGroup V.list V.CAP V.WIDTH shop jobs group.now → lane < V.WIDTH →
        HasPassed V.list V.CAP V.WIDTH shop Back first last (slice_index jobs lane) lane to pass →
        from ≤ place → place < to → HasLane V.CAP V.WIDTH (V.list (slice_index_or starts.new place none)) lane
        (start_at shop Back first last (slice_index jobs lane) (place + 1)) }
    ensures others { (place : ℕ) (none : V) → (place < from) ⊎ (to ≤ place) →
        slice_index_or starts.new place none ≡ slice_index_or starts.old place none }
{
    let mut free = pass.free;
    let mut bounds = pass.bounds;
    let mut machine = to;
    while machine > from {
        let place = machine - 1;
        let start = free.at_least(V::from_pair(pairs.near[place]));
        starts[place] = start;
        bounds = bounds.at_least(start.plus(V::from_pair(pairs.rest[place])));
        free = start.plus(group[place]);
        machine = place;
    }
    Pass { free, bounds }
}

/// The lanes below a limit, of those that a word has.
#[inline(always)]
fn kept_below<V: Vector>(bounds: V, limit: u32, word: u16) -> u16
    requires limit { limit ≤ V.CAP }
    ensures within { (lane : ℕ) → bit_at result lane ≡ 1 → bit_at word lane ≡ 1 }
    ensures each { (lane value : ℕ) → HasLane V.CAP V.WIDTH (V.list bounds) lane value → bit_at word lane ≡ 1 →
        bit_at result lane ≡ 1 ↔ (value < limit) }
{
    (bounds.below(limit) & u64::from(word)) as u16
}

/// What is found of the children of a group whose bounds these are. A word has the lanes of the jobs left.
#[inline(always)]
fn find_below<V: Vector>(bounds: V, limit: u32, word: u16) -> Found<V>
    requires limit { limit ≤ V.CAP }
    ensures within { (lane : ℕ) → bit_at result.below lane ≡ 1 → bit_at word lane ≡ 1 }
    ensures each { (lane value : ℕ) → HasLane V.CAP V.WIDTH (V.list bounds) lane value → bit_at word lane ≡ 1 →
        bit_at result.below lane ≡ 1 ↔ (value < limit) }
    ensures bounds { result.bounds ≡ Some bounds }
{
    Found {
        below: kept_below(bounds, limit, word),
        bounds: Some(bounds),
    }
}

/// The bounds of the children that put the jobs of a group at the front. Writes when the jobs start there. Half of the
/// machines are few enough for a loop to be unrolled.
#[inline(always)]
fn whole_front<V: Vector, const M: usize>(pairs: &EndPairs, group: &[V], starts: &mut [V]) -> V
    requires constant { (M ≡ 0) ⊎ (M ≡ length group.now) }
    requires machines { length group.now ≤ most_machines }
    requires starts { length starts.old ≡ length group.now }
    ensures { (shop : Shop) (first last jobs : List ℕ) (node : Node) (lane : ℕ) → IsNode shop first last node →
        IsPaired V.pair_of V.CAP (length group.now) Front node pairs.now →
        IsGroup V.list V.CAP V.WIDTH shop jobs group.now → lane < V.WIDTH →
        has (first ++ last) (slice_index jobs lane) ≡ false →
        HasStartsAndBound V.list V.CAP V.WIDTH shop Front first last (slice_index jobs lane) lane starts.new result }
{
    let machines = known_or::<M>(group.len());
    let half = machines / 2;
    let part = pass_front(pairs, group, starts, begun(), 0, half);
    let whole = pass_front(pairs, group, starts, part, half, machines);
    whole.bounds
}

/// The same at the back.
#[inline(always)]
fn whole_back<V: Vector, const M: usize>(pairs: &EndPairs, group: &[V], starts: &mut [V]) -> V
    requires constant { (M ≡ 0) ⊎ (M ≡ length group.now) }
    requires machines { length group.now ≤ most_machines }
    requires starts { length starts.old ≡ length group.now }
    ensures { (shop : Shop) (first last jobs : List ℕ) (node : Node) (lane : ℕ) → IsNode shop first last node →
        IsPaired V.pair_of V.CAP (length group.now) Back node pairs.now →
        IsGroup V.list V.CAP V.WIDTH shop jobs group.now → lane < V.WIDTH →
        has (first ++ last) (slice_index jobs lane) ≡ false →
        HasStartsAndBound V.list V.CAP V.WIDTH shop Back first last (slice_index jobs lane) lane starts.new result }
{
    let machines = known_or::<M>(group.len());
    let half = machines / 2;
    let part = pass_back(pairs, group, starts, begun(), half, machines);
    let whole = pass_back(pairs, group, starts, part, 0, half);
    whole.bounds
}

/// The children below a limit that put the jobs left of a group at the front; a word has the lanes of these jobs.
/// Writes when they start there.
#[inline(always)]
fn below_at_front<V: Vector, const M: usize>(
    pairs: &EndPairs,
    group: &[V],
    starts: &mut [V],
    word: u16,
    sought: Sought,
) -> Found<V>
    requires limit { sought.limit ≤ V.CAP }
    requires constant { (M ≡ 0) ⊎ (M ≡ length group.now) }
    requires machines { length group.now ≤ most_machines }
    requires starts { length starts.old ≡ length group.now }
    ensures within { (lane : ℕ) → bit_at result.below lane ≡ 1 → bit_at word lane ≡ 1 }
    ensures exact { (shop : Shop) (threshold : ℕ) (first last jobs : List ℕ) (node : Node) (lane : ℕ) →
        sought.limit ≡ limit_of threshold → IsNode shop first last node →
        IsPaired V.pair_of V.CAP (length group.now) Front node pairs.now →
        IsGroup V.list V.CAP V.WIDTH shop jobs group.now → lane < V.WIDTH → bit_at word lane ≡ 1 →
        has (first ++ last) (slice_index jobs lane) ≡ false →
        bit_at result.below lane ≡ 1 ↔ (child_bound shop Front first last (slice_index jobs lane) < threshold) }
    ensures known { (lane : ℕ) → bit_at result.below lane ≡ 1 → (bounds : V) × (result.bounds ≡ Some bounds) }
    ensures whole { (shop : Shop) (first last jobs : List ℕ) (node : Node) (lane : ℕ) (bounds : V) →
        IsNode shop first last node → IsPaired V.pair_of V.CAP (length group.now) Front node pairs.now →
        IsGroup V.list V.CAP V.WIDTH shop jobs group.now → lane < V.WIDTH →
        has (first ++ last) (slice_index jobs lane) ≡ false → result.bounds ≡ Some bounds →
        HasStartsAndBound V.list V.CAP V.WIDTH shop Front first last (slice_index jobs lane) lane starts.new bounds }
{
    if !sought.looks {
        let bounds = whole_front::<V, M>(pairs, group, starts);
        return find_below(bounds, sought.limit, word);
    }
    let machines = known_or::<M>(group.len());
    let third = machines / 3;
    let one = pass_front(pairs, group, starts, begun(), 0, third);
    if kept_below(one.bounds, sought.limit, word) == 0 {
        return Found {
            below: 0,
            bounds: None,
        };
    }
    let two = pass_front(pairs, group, starts, one, third, machines - third);
    if kept_below(two.bounds, sought.limit, word) == 0 {
        return Found {
            below: 0,
            bounds: None,
        };
    }
    let whole = pass_front(pairs, group, starts, two, machines - third, machines);
    find_below(whole.bounds, sought.limit, word)
}

/// The same at the back.
#[inline(always)]
fn below_at_back<V: Vector, const M: usize>(
    pairs: &EndPairs,
    group: &[V],
    starts: &mut [V],
    word: u16,
    sought: Sought,
) -> Found<V>
    requires limit { sought.limit ≤ V.CAP }
    requires constant { (M ≡ 0) ⊎ (M ≡ length group.now) }
    requires machines { length group.now ≤ most_machines }
    requires starts { length starts.old ≡ length group.now }
    ensures within { (lane : ℕ) → bit_at result.below lane ≡ 1 → bit_at word lane ≡ 1 }
    ensures exact { (shop : Shop) (threshold : ℕ) (first last jobs : List ℕ) (node : Node) (lane : ℕ) →
        sought.limit ≡ limit_of threshold → IsNode shop first last node →
        IsPaired V.pair_of V.CAP (length group.now) Back node pairs.now →
        IsGroup V.list V.CAP V.WIDTH shop jobs group.now → lane < V.WIDTH → bit_at word lane ≡ 1 →
        has (first ++ last) (slice_index jobs lane) ≡ false →
        bit_at result.below lane ≡ 1 ↔ (child_bound shop Back first last (slice_index jobs lane) < threshold) }
    ensures known { (lane : ℕ) → bit_at result.below lane ≡ 1 → (bounds : V) × (result.bounds ≡ Some bounds) }
    ensures whole { (shop : Shop) (first last jobs : List ℕ) (node : Node) (lane : ℕ) (bounds : V) →
        IsNode shop first last node → IsPaired V.pair_of V.CAP (length group.now) Back node pairs.now →
        IsGroup V.list V.CAP V.WIDTH shop jobs group.now → lane < V.WIDTH →
        has (first ++ last) (slice_index jobs lane) ≡ false → result.bounds ≡ Some bounds →
        HasStartsAndBound V.list V.CAP V.WIDTH shop Back first last (slice_index jobs lane) lane starts.new bounds }
{
    if !sought.looks {
        let bounds = whole_back::<V, M>(pairs, group, starts);
        return find_below(bounds, sought.limit, word);
    }
    let machines = known_or::<M>(group.len());
    let third = machines / 3;
    let one = pass_back(pairs, group, starts, begun(), machines - third, machines);
    if kept_below(one.bounds, sought.limit, word) == 0 {
        return Found {
            below: 0,
            bounds: None,
        };
    }
    let two = pass_back(pairs, group, starts, one, third, machines - third);
    if kept_below(two.bounds, sought.limit, word) == 0 {
        return Found {
            below: 0,
            bounds: None,
        };
    }
    let whole = pass_back(pairs, group, starts, two, 0, third);
    find_below(whole.bounds, sought.limit, word)
}

/// The children below a limit that put the jobs left of a group at an end; a word has the lanes of these jobs. Writes
/// when they start there.
#[inline(always)]
pub(crate) fn below_at<V: Vector, const M: usize>(
    end: End,
    pairs: &EndPairs,
    group: &[V],
    starts: &mut [V],
    word: u16,
    sought: Sought,
) -> Found<V>
    requires limit { sought.limit ≤ V.CAP }
    requires constant { (M ≡ 0) ⊎ (M ≡ length group.now) }
    requires machines { length group.now ≤ most_machines }
    requires starts { length starts.old ≡ length group.now }
    ensures within { (lane : ℕ) → bit_at result.below lane ≡ 1 → bit_at word lane ≡ 1 }
    ensures exact { (shop : Shop) (threshold : ℕ) (first last jobs : List ℕ) (node : Node) (lane : ℕ) →
        sought.limit ≡ limit_of threshold → IsNode shop first last node →
        IsPaired V.pair_of V.CAP (length group.now) end node pairs.now →
        IsGroup V.list V.CAP V.WIDTH shop jobs group.now → lane < V.WIDTH → bit_at word lane ≡ 1 →
        has (first ++ last) (slice_index jobs lane) ≡ false →
        bit_at result.below lane ≡ 1 ↔ (child_bound shop end first last (slice_index jobs lane) < threshold) }
    ensures known { (lane : ℕ) → bit_at result.below lane ≡ 1 → (bounds : V) × (result.bounds ≡ Some bounds) }
    ensures whole { (shop : Shop) (first last jobs : List ℕ) (node : Node) (lane : ℕ) (bounds : V) →
        IsNode shop first last node → IsPaired V.pair_of V.CAP (length group.now) end node pairs.now →
        IsGroup V.list V.CAP V.WIDTH shop jobs group.now → lane < V.WIDTH →
        has (first ++ last) (slice_index jobs lane) ≡ false → result.bounds ≡ Some bounds →
        HasStartsAndBound V.list V.CAP V.WIDTH shop end first last (slice_index jobs lane) lane starts.new bounds }
{
    match end {
        End::Front => below_at_front::<V, M>(pairs, group, starts, word, sought),
        End::Back => below_at_back::<V, M>(pairs, group, starts, word, sought),
    }
}
