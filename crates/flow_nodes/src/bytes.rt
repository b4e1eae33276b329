//! The children of a node that are at or above a threshold, as far as numbers of one byte tell: how much later a job
//! can start than the node lets it, up to 255.

ghost use Rattle.std.specs.Prelude.{◌≡◌, ◌⊎◌, ℕ, ◌+◌, ◌-◌, ◌<◌, ◌≤◌, min, List, ◌++◌, length, slice_index};
ghost use Rattle.std.specs.Prelude.{slice_index_or, IsBitSet};
ghost use Rattle.std.proofs.Common.{rules};
ghost use Rattle.flow_limits.specs.Limits.{most_machines};
ghost use Rattle.flow_shop.specs.Shop.{Shop};
ghost use Rattle.flow_shop.specs.declared.end.End.TheVariants.{Front, Back};
ghost use Rattle.flow_nodes.specs.Vectors.{HasLane};
ghost use Rattle.flow_nodes.specs.Nodes.{IsNode};
ghost use Rattle.flow_nodes.specs.Groups.{IsGroup};
ghost use Rattle.flow_nodes.specs.declared.node.Node.{Node};
ghost use Rattle.flow_nodes.specs.internal.Children.{greatest_at};
ghost use Rattle.flow_nodes.specs.internal.Bytes.{HaveGaps, HaveSlacks};

use crate::few_groups::known_or;
use crate::node::Node;
use crate::scan::{FOUR, four_of};
use crate::vector::Vector;
use flow_limits::MAX_MACHINES;
use flow_shop::End;
use std::simd::prelude::*;

/// The greatest number of a lane of 8 bits.
const BYTE_CAP: u32 = 255;

impl Vector for u8x16 {
    const CAP: u32 = BYTE_CAP;

    ghost CAP = { 255 };

    const WIDTH: usize = 16;

    ghost WIDTH = { 16 };

    ghost list = { λ lanes. lanes };

    #[inline(always)]
    fn all(number: u64) -> u8x16 {
        u8x16::splat(number.min(BYTE_CAP as u64) as u8)
    }

    #[inline(always)]
    fn each(number: u32) -> u8x16 {
        u8x16::splat(number as u8)
    }

    ghost pair_of = { λ number. number };

    #[inline(always)]
    fn pairs(four: u32x4) -> u32x4 {
        four
    }

    #[inline(always)]
    fn from_pair(pair: u32) -> u8x16 {
        u8x16::splat(pair.min(BYTE_CAP) as u8)
    }

    #[inline(always)]
    fn at_least(self, other: u8x16) -> u8x16 {
        self.simd_max(other)
    }

    #[inline(always)]
    fn plus(self, other: u8x16) -> u8x16 {
        self.saturating_add(other)
    }

    #[inline(always)]
    fn below(self, number: u32) -> u64 {
        self.simd_lt(u8x16::splat(number as u8)).to_bitmask()
    }

    #[inline(always)]
    fn sum_marked(self, word: u16) -> u64 {
        let bytes = self.to_array();
        let mut numbers = [0; 16];
        for lane in 0..16 {
            numbers[lane] = u32::from(bytes[lane]);
        }
        u32x16::from_array(numbers).sum_marked(word)
    }

    #[inline(always)]
    fn at(self, lane: usize) -> u32 {
        u32::from(self.to_array()[lane])
    }

    #[inline(always)]
    fn load(numbers: &[u32]) -> u8x16 {
        let mut lanes = [0; 16];
        for lane in 0..16 {
            lanes[lane] = numbers[lane].min(BYTE_CAP) as u8;
        }
        u8x16::from_array(lanes)
    }

    ghost narrow = { Prim.search rules };
}

/// In each lane by how much a number exceeds another; 0 where it does not.
#[inline(always)]
fn excess(one: u8x16, other: u8x16) -> u8x16
    ensures { (lane first second : ℕ) → HasLane 255 16 one lane first → HasLane 255 16 other lane second →
        HasLane 255 16 result lane (min first 255 - min second 255) }
{
    one.saturating_sub(other)
}

/// The lanes of a group whose children at the front may be below a limit: a bit for each, and no other bits.
#[inline(always)]
pub(crate) fn open_at_front<const M: usize>(
    gaps: &[u8x16],
    slacks: &[u8x16],
    times: &[u8x16],
) -> u64
    requires constant { (M ≡ 0) ⊎ (M ≡ length times.now) }
    requires gaps { length gaps.now ≡ length times.now }
    requires slacks { length slacks.now ≡ length times.now }
    ensures { (shop : Shop) (first last jobs : List ℕ) (node : Node) (limit lane : ℕ) → IsNode shop first last node →
        HaveGaps Front node gaps.now → HaveSlacks limit node slacks.now →
        IsGroup (λ lanes. lanes) 255 16 shop jobs times.now → lane < 16 →
        IsBitSet result lane ⊎ (limit ≤ greatest_at shop Front first last (slice_index jobs lane)) }
{
    let mut late = u8x16::each(0);
    let mut over = late;
    let machines = known_or::<M>(times.len());
    for place in 0..machines {
        let start = excess(late, gaps[place]);
        over = over.at_least(excess(start, slacks[place]));
        late = start.plus(times[place]);
    }
    over.below(1)
}

/// The lanes of a group whose children at the back may be below a limit: a bit for each, and no other bits.
#[inline(always)]
pub(crate) fn open_at_back<const M: usize>(gaps: &[u8x16], slacks: &[u8x16], times: &[u8x16]) -> u64
    requires constant { (M ≡ 0) ⊎ (M ≡ length times.now) }
    requires gaps { length gaps.now ≡ length times.now }
    requires slacks { length slacks.now ≡ length times.now }
    ensures { (shop : Shop) (first last jobs : List ℕ) (node : Node) (limit lane : ℕ) → IsNode shop first last node →
        HaveGaps Back node gaps.now → HaveSlacks limit node slacks.now →
        IsGroup (λ lanes. lanes) 255 16 shop jobs times.now → lane < 16 →
        IsBitSet result lane ⊎ (limit ≤ greatest_at shop Back first last (slice_index jobs lane)) }
{
    let mut late = u8x16::each(0);
    let mut over = late;
    let mut machine = known_or::<M>(times.len());
    while machine > 0 {
        let place = machine - 1;
        let start = excess(late, gaps[place]);
        over = over.at_least(excess(start, slacks[place]));
        late = start.plus(times[place]);
        machine = place;
    }
    over.below(1)
}

/// Of each of four numbers by how much it exceeds another; 0 where it does not.
#[inline(always)]
fn excess_of_four(four: u32x4, others: u32x4) -> u32x4
    requires sizes { (length four ≡ 4) × (length others ≡ 4) }
    ensures size { length result ≡ 4 }
    ensures each { (lane : ℕ) → lane < 4 →
        slice_index result lane ≡ slice_index four lane - slice_index others lane }
{
    four.simd_max(others) - others
}

/// Writes four numbers in bytes, from a place on: each in all lanes of a vector.
#[inline(always)]
fn put_bytes(four: u32x4, at: usize, bytes: &mut [u8x16])
    requires four { length four ≡ 4 }
    requires at { at + 4 ≤ length bytes.old }
    ensures each { (place lane : ℕ) (none : List ℕ) → place < at + 4 → lane < 16 → at ≤ place →
        HasLane 255 16 (slice_index_or bytes.new place none) lane (slice_index four (place - at)) }
    ensures before { (place : ℕ) (none : List ℕ) → place < at →
        slice_index_or bytes.new place none ≡ slice_index_or bytes.old place none }
{
    let most = u32x4::splat(BYTE_CAP);
    let small = (most - excess_of_four(most, four)).to_array();
    for machine in 0..FOUR {
        bytes[at + machine] = u8x16::each(small[machine]);
    }
}

/// Writes, from a machine on, by how much what is at the front of a node exceeds what is there on the machine before:
/// for four machines where it can, or for one. Returns the place behind them.
#[inline(always)]
fn front_gaps_from(fronts: &[u32; MAX_MACHINES], at: usize, gaps: &mut [u8x16]) -> usize
    requires machines { length gaps.old ≤ most_machines }
    requires at { at < length gaps.old }
    ensures more { at < result }
    ensures within { result ≤ length gaps.old }
    ensures gaps { (place lane : ℕ) (none : List ℕ) → at ≤ place → place < result → lane < 16 →
        HasLane 255 16 (slice_index_or gaps.new place none) lane
        (slice_index fronts.now place - slice_index fronts.now (place - 1)) }
    ensures before { (place : ℕ) (none : List ℕ) → place < at →
        slice_index_or gaps.new place none ≡ slice_index_or gaps.old place none }
{
    if at > 0 && at + FOUR <= gaps.len() {
        let four = excess_of_four(four_of(fronts, at), four_of(fronts, at - 1));
        put_bytes(four, at, gaps);
        return at + FOUR;
    }
    let gap = fronts[at].saturating_sub(fronts[at.saturating_sub(1)]);
    gaps[at] = u8x16::all(u64::from(gap));
    at + 1
}

/// Writes by how much what is at the front of a node exceeds what is there on the machine before.
#[inline(always)]
fn write_front_gaps(fronts: &[u32; MAX_MACHINES], gaps: &mut [u8x16])
    requires machines { length gaps.old ≤ most_machines }
    ensures gaps { (place lane : ℕ) (none : List ℕ) → place < length gaps.old → lane < 16 →
        HasLane 255 16 (slice_index_or gaps.new place none) lane
        (slice_index fronts.now place - slice_index fronts.now (place - 1)) }
{
    let mut at = 0;
    'machines: while at < gaps.len() {
        at = front_gaps_from(fronts, at, gaps);
    }
}

/// Writes, from a machine on, by how much what is at the back of a node exceeds what is there on the machine behind:
/// for four machines where it can, or for one. Returns the place behind them.
#[inline(always)]
fn back_gaps_from(backs: &[u32; MAX_MACHINES], at: usize, gaps: &mut [u8x16]) -> usize
    requires machines { length gaps.old ≤ most_machines }
    requires at { at < length gaps.old }
    ensures more { at < result }
    ensures within { result ≤ length gaps.old }
    ensures gaps { (place lane : ℕ) (none : List ℕ) → at ≤ place → place < result → lane < 16 →
        HasLane 255 16 (slice_index_or gaps.new place none) lane
        (slice_index backs.now place - slice_index backs.now (min (place + 1) 25)) }
    ensures before { (place : ℕ) (none : List ℕ) → place < at →
        slice_index_or gaps.new place none ≡ slice_index_or gaps.old place none }
{
    if at + FOUR <= gaps.len() && at + FOUR < MAX_MACHINES {
        let four = excess_of_four(four_of(backs, at), four_of(backs, at + 1));
        put_bytes(four, at, gaps);
        return at + FOUR;
    }
    let gap = backs[at].saturating_sub(backs[(at + 1).min(MAX_MACHINES - 1)]);
    gaps[at] = u8x16::all(u64::from(gap));
    at + 1
}

/// Writes by how much what is at the back of a node exceeds what is there on the machine behind.
#[inline(always)]
fn write_back_gaps(backs: &[u32; MAX_MACHINES], gaps: &mut [u8x16])
    requires machines { length gaps.old ≤ most_machines }
    ensures gaps { (place lane : ℕ) (none : List ℕ) → place < length gaps.old → lane < 16 →
        HasLane 255 16 (slice_index_or gaps.new place none) lane
        (slice_index backs.now place - slice_index backs.now (min (place + 1) 25)) }
{
    let mut at = 0;
    'machines: while at < gaps.len() {
        at = back_gaps_from(backs, at, gaps);
    }
}

/// Writes by how much what is at an end of a node exceeds what is there on the machine that comes before from that end.
#[inline(always)]
pub(crate) fn write_gaps(node: &Node, end: End, gaps: &mut [u8x16])
    requires machines { length gaps.old ≤ most_machines }
    ensures gaps { HaveGaps end node.now gaps.new }
    ensures size { length gaps.new ≡ length gaps.old }
{
    match end {
        End::Front => write_front_gaps(&node.front, gaps),
        End::Back => write_back_gaps(&node.back, gaps),
    }
}

/// Writes, from a machine on, how much later than the node lets it a job may start, where its child is below the limit:
/// for four machines where it can, or for one. Returns the place behind them.
#[inline(always)]
fn slacks_from(node: &Node, limit: u32, at: usize, slacks: &mut [u8x16]) -> usize
    requires machines { length slacks.old ≤ most_machines }
    requires at { at < length slacks.old }
    requires small { (place : ℕ) → place < length slacks.old →
        slice_index node.now.front place + slice_index node.now.work place + slice_index node.now.back place < limit }
    ensures more { at < result }
    ensures within { result ≤ length slacks.old }
    ensures slacks { (place lane : ℕ) (none : List ℕ) → at ≤ place → place < result → lane < 16 →
        HasLane 255 16 (slice_index_or slacks.new place none) lane (limit - 1
        - (slice_index node.now.front place + slice_index node.now.work place + slice_index node.now.back place)) }
    ensures before { (place : ℕ) (none : List ℕ) → place < at →
        slice_index_or slacks.new place none ≡ slice_index_or slacks.old place none }
{
    if at + FOUR <= slacks.len() {
        let bounds = four_of(&node.front, at) + four_of(&node.work, at) + four_of(&node.back, at);
        put_bytes(u32x4::splat(limit - 1) - bounds, at, slacks);
        return at + FOUR;
    }
    let bound = node.front[at] + node.work[at] + node.back[at];
    slacks[at] = u8x16::all(u64::from(limit - 1 - bound));
    at + 1
}

/// Writes how much later than the node lets it a job may start on each machine, where its child is below the limit.
#[inline(always)]
pub(crate) fn write_slacks(node: &Node, limit: u32, slacks: &mut [u8x16])
    requires machines { length slacks.old ≤ most_machines }
    requires small { (place : ℕ) → place < length slacks.old →
        slice_index node.now.front place + slice_index node.now.work place + slice_index node.now.back place < limit }
    ensures slacks { HaveSlacks limit node.now slacks.new }
    ensures size { length slacks.new ≡ length slacks.old }
{
    let mut at = 0;
    'machines: while at < slacks.len() {
        at = slacks_from(node, limit, at, slacks);
    }
}
