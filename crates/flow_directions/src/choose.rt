//! The end at which a node is opened: by the plain rule, and by a look-ahead, whose children are kept.

ghost use Rattle.std.specs.Prelude.{◌≡◌, ℕ, ◌+◌, ◌*◌, ◌<◌, ◌≤◌, ◌&&◌, true, cond, List, length, take, nat_le};
ghost use Rattle.std.specs.Prelude.{slice_index_or, IfOk, OnOk, Some, None};
ghost use Rattle.flow_shop.specs.Shop.{Shop};
ghost use Rattle.flow_nodes.specs.Packs.{left_below};
ghost use Rattle.flow_nodes.specs.declared.pack.Pack.{Pack};
ghost use Rattle.flow_directions.specs.Search.{end_taken, fewest_below, looks_ahead, other, plain_end, weight};
ghost use Rattle.flow_nodes.specs.Open.{IsOpenNode, children_at};
ghost use Rattle.flow_directions.specs.internal.Tree.{AreKept, IsOpenAt, IsTree};
ghost use Rattle.flow_nodes.specs.declared.open.OpenNode.{OpenNode};

use crate::sums::sum_of_bounds;
use crate::tree::Tree;
use flow_nodes::{OpenNode, Put, Vector, fewer_below, greater_sum};
use flow_shop::{End, Instance};
use std::alloc::AllocError;

/// The most starts that the nodes of a list have, in vectors at each end, so that they take 16 MB where a vector has 16
/// lanes of 16 bits.
const MOST_STARTS: usize = 262_144;

/// The end at which a node is opened, and its children there.
#[derive(Clone, Copy)]
pub(crate) struct Chosen {
    /// The end.
    pub(crate) end: End,
    /// Where the first of them stands in the list of nodes, where all of them are kept there, one behind the other.
    pub(crate) kept: Option<u32>,
    /// The first place of the list behind the node and the children that are kept.
    pub(crate) top: usize,
}

/// How the children of a node at an end that are below the threshold are made and weighed.
#[derive(Clone, Copy)]
struct Weighing {
    /// The end.
    end: End,
    /// The place of the list at which the first of them is made.
    to: usize,
    /// Whether each further one is made behind the one before, and not in its place.
    keeps: bool,
    /// The weight with which the further ones need not be made.
    enough: u32,
}

/// The end that is not this one.
#[inline(always)]
fn other_end(end: End) -> End
    ensures { result ≡ other end }
{
    match end {
        End::Front => End::Back,
        End::Back => End::Front,
    }
}

/// Whether the search looks ahead at a node, by how many of its children are below the threshold at the plain rule's
/// end and at the other end, and by how many jobs are left.
#[inline(always)]
fn looks_ahead(plain: u32, other: u32, left: u32) -> bool
    ensures { result ≡ nat_le 2 plain && nat_le (2 * other) (3 * plain) && nat_le 3 left }
{
    plain >= 2 && 2 * u64::from(other) <= 3 * u64::from(plain) && left >= 3
}

/// How many children of a node are below the threshold at the end where they are fewer.
#[inline(always)]
fn fewest<V: Vector>(node: &OpenNode<V>) -> u32
    ensures { (shop : Shop) (threshold : ℕ) (first last : List ℕ) (pack : Pack V) →
        IsOpenNode V.list V.CAP V.WIDTH shop threshold first last pack node.now →
        result ≡ fewest_below shop threshold first last }
{
    node.front.count.min(node.back.count)
}

/// A place, where children are kept.
#[inline(always)]
fn place_kept(keeps: bool, place: usize) -> Option<u32>
    requires { keeps ≡ true → place ≤ 4294967295 }
    ensures { result ≡ cond keeps (Some place) None }
{
    if keeps { Some(place as u32) } else { None }
}

/// How many of so many children are kept.
#[inline(always)]
fn count_kept(keeps: bool, count: u32) -> usize
    ensures { result ≡ cond keeps count 0 }
{
    if keeps { count as usize } else { 0 }
}

impl<V: Vector> Tree<V> {
    /// The end that the plain rule takes at the node at a place.
    #[inline(always)]
    fn plain_end(&self, instance: &Instance, groups: usize, at: usize) -> End
        requires wide { V.WIDTH ≡ 16 }
        requires some { 1 ≤ groups }
        requires few { groups ≤ length self.now.packs.items }
        requires within { at < length self.now.nodes.items }
        requires at { (threshold : ℕ) × (first : List ℕ) × (last : List ℕ)
            × IsTree V.CAP instance.now threshold self.now
            × IsOpenAt V.list V.CAP V.WIDTH instance.now threshold first last groups at self.now.packs.items
            self.now.nodes.items }
        ensures { (threshold : ℕ) (first last : List ℕ) →
            IsOpenAt V.list V.CAP V.WIDTH instance.now threshold first last groups at self.now.packs.items
            self.now.nodes.items →
            result ≡ plain_end instance.now threshold first last }
    {
        let open = &self.nodes[at];
        match fewer_below(open.front.count, open.back.count) {
            Some(end) => end,
            None => {
                let pack = &self.packs[groups - 1];
                let front = sum_of_bounds(instance, pack, open, End::Front);
                let back = sum_of_bounds(instance, pack, open, End::Back);
                greater_sum(front, back)
            }
        }
    }

    /// Whether so many nodes may be kept.
    #[inline(always)]
    fn has_room(&self, instance: &Instance, count: usize) -> bool
        ensures { result ≡ true → count ≤ 4294967295 }
    {
        let starts = count
            .saturating_mul(self.packs.len())
            .saturating_mul(usize::from(instance.machines()));
        count <= MOST_STARTS && starts <= MOST_STARTS
    }

    /// Makes the children of the node at a place at an end that are below the threshold, until their weight is enough.
    /// Returns the weight of those that were made.
    #[inline(never)]
    fn weigh(&mut self, instance: &Instance, groups: usize, at: usize, weighing: Weighing) -> u32
        requires wide { V.WIDTH ≡ 16 }
        requires some { 1 ≤ groups }
        requires few { groups ≤ length self.old.packs.items }
        requires order { at < weighing.to }
        requires room { weighing.to < length self.old.nodes.items }
        requires kept { (empty : OpenNode V) → weighing.keeps ≡ true →
            weighing.to + (children_at weighing.end (slice_index_or self.old.nodes.items at empty)).count
            ≤ length self.old.nodes.items }
        requires at { (threshold : ℕ) × (first : List ℕ) × (last : List ℕ)
            × IsTree V.CAP instance.now threshold self.old
            × IsOpenAt V.list V.CAP V.WIDTH instance.now threshold first last groups at self.old.packs.items
            self.old.nodes.items }
        ensures tree { (threshold : ℕ) → IsTree V.CAP instance.now threshold self.old →
            IsTree V.CAP instance.now threshold self.new }
        ensures packs { self.new.packs ≡ self.old.packs }
        ensures size { length self.new.nodes.items ≡ length self.old.nodes.items }
        ensures above { take weighing.to self.new.nodes.items ≡ take weighing.to self.old.nodes.items }
        ensures small { result ≤ 640000 }
        ensures exact { (threshold : ℕ) (first last : List ℕ) → IsTree V.CAP instance.now threshold self.old →
            IsOpenAt V.list V.CAP V.WIDTH instance.now threshold first last groups at self.old.packs.items
            self.old.nodes.items → result < weighing.enough →
            result ≡ weight instance.now threshold weighing.end first last }
        ensures reaches { (threshold : ℕ) (first last : List ℕ) → IsTree V.CAP instance.now threshold self.old →
            IsOpenAt V.list V.CAP V.WIDTH instance.now threshold first last groups at self.old.packs.items
            self.old.nodes.items → weighing.enough ≤ result →
            weighing.enough ≤ weight instance.now threshold weighing.end first last }
        ensures kept { (threshold : ℕ) (first last : List ℕ) → IsTree V.CAP instance.now threshold self.old →
            IsOpenAt V.list V.CAP V.WIDTH instance.now threshold first last groups at self.old.packs.items
            self.old.nodes.items → weighing.keeps ≡ true → result < weighing.enough →
            AreKept V.list V.CAP V.WIDTH instance.now threshold weighing.end first last groups
            (left_below instance.now threshold weighing.end first last) weighing.to self.new.packs.items
            self.new.nodes.items }
    {
        let end = weighing.end;
        let mut rest = self.nodes[at].at(end).below;
        let mut next = 0;
        let mut to = weighing.to;
        let mut weight = 0;
        'children: while let Some(place) = rest.pop_from(next, groups) {
            self.make(instance, groups, at, Put { end, place }, to);
            weight += fewest(&self.nodes[to]);
            if weight >= weighing.enough {
                return weight;
            }
            next = place + 1;
            if weighing.keeps {
                to += 1;
            }
        }
        weight
    }

    /// The same as `choose`, at a node at which the search looks ahead, where the plain rule takes an end.
    #[inline(never)]
    fn look_ahead(
        &mut self,
        instance: &Instance,
        groups: usize,
        at: usize,
        top: usize,
        plain: End,
    ) -> Result<Chosen, AllocError>
        requires wide { V.WIDTH ≡ 16 }
        requires some { 1 ≤ groups }
        requires few { groups ≤ length self.old.packs.items }
        requires order { at < top }
        requires room { top ≤ length self.old.nodes.items }
        requires at { (threshold : ℕ) × (first : List ℕ) × (last : List ℕ)
            × IsTree V.CAP instance.now threshold self.old
            × IsOpenAt V.list V.CAP V.WIDTH instance.now threshold first last groups at self.old.packs.items
            self.old.nodes.items }
        ensures tree { (threshold : ℕ) → IsTree V.CAP instance.now threshold self.old →
            OnOk result (IsTree V.CAP instance.now threshold self.new) }
        ensures packs { self.new.packs ≡ self.old.packs }
        ensures above { take top self.new.nodes.items ≡ take top self.old.nodes.items }
        ensures top { IfOk result (λ chosen. top ≤ chosen.top) }
        ensures room { IfOk result (λ chosen. chosen.top < length self.new.nodes.items) }
        ensures end { (threshold : ℕ) (first last : List ℕ) → IsTree V.CAP instance.now threshold self.old →
            IsOpenAt V.list V.CAP V.WIDTH instance.now threshold first last groups at self.old.packs.items
            self.old.nodes.items → plain ≡ plain_end instance.now threshold first last →
            looks_ahead instance.now threshold first last ≡ true →
            IfOk result (λ chosen. chosen.end ≡ end_taken instance.now threshold first last) }
        ensures from { IfOk result (λ chosen. (from : ℕ) → chosen.kept ≡ Some from → top ≤ from) }
        ensures small { IfOk result (λ chosen. (from : ℕ) → chosen.kept ≡ Some from → chosen.top ≤ 4294967295) }
        ensures kept { (threshold : ℕ) (first last : List ℕ) → IsTree V.CAP instance.now threshold self.old →
            IsOpenAt V.list V.CAP V.WIDTH instance.now threshold first last groups at self.old.packs.items
            self.old.nodes.items →
            IfOk result (λ chosen. (from : ℕ) → chosen.kept ≡ Some from →
            (from + length (left_below instance.now threshold chosen.end first last) ≤ chosen.top)
            × AreKept V.list V.CAP V.WIDTH instance.now threshold chosen.end first last groups
            (left_below instance.now threshold chosen.end first last) from self.new.packs.items self.new.nodes.items) }
    {
        let other = other_end(plain);
        let plain_count = self.nodes[at].at(plain).count;
        let other_count = self.nodes[at].at(other).count;
        let keeps = self.has_room(instance, top + plain_count as usize + other_count as usize);
        let behind = top + count_kept(keeps, plain_count);
        let last = behind + count_kept(keeps, other_count);
        self.grow(instance, last + 1)?;
        let weighing = Weighing {
            end: plain,
            to: top,
            keeps,
            enough: u32::MAX,
        };
        let weight = self.weigh(instance, groups, at, weighing);
        let weighing = Weighing {
            end: other,
            to: behind,
            keeps,
            enough: weight,
        };
        if self.weigh(instance, groups, at, weighing) < weight {
            return Ok(Chosen {
                end: other,
                kept: place_kept(keeps, behind),
                top: last,
            });
        }
        Ok(Chosen {
            end: plain,
            kept: place_kept(keeps, top),
            top: behind,
        })
    }

    /// Finds the end at which the node at a place of the list is opened, where its jobs left stand in the pack of so
    /// many groups. Writes the list only from `top` on.
    pub(crate) fn choose(
        &mut self,
        instance: &Instance,
        groups: usize,
        at: usize,
        top: usize,
    ) -> Result<Chosen, AllocError>
        requires wide { V.WIDTH ≡ 16 }
        requires some { 1 ≤ groups }
        requires few { groups ≤ length self.old.packs.items }
        requires order { at < top }
        requires room { top ≤ length self.old.nodes.items }
        requires at { (threshold : ℕ) × (first : List ℕ) × (last : List ℕ)
            × IsTree V.CAP instance.now threshold self.old
            × IsOpenAt V.list V.CAP V.WIDTH instance.now threshold first last groups at self.old.packs.items
            self.old.nodes.items }
        ensures tree { (threshold : ℕ) → IsTree V.CAP instance.now threshold self.old →
            OnOk result (IsTree V.CAP instance.now threshold self.new) }
        ensures packs { self.new.packs ≡ self.old.packs }
        ensures above { take top self.new.nodes.items ≡ take top self.old.nodes.items }
        ensures top { IfOk result (λ chosen. top ≤ chosen.top) }
        ensures room { IfOk result (λ chosen. chosen.top < length self.new.nodes.items) }
        ensures end { (threshold : ℕ) (first last : List ℕ) → IsTree V.CAP instance.now threshold self.old →
            IsOpenAt V.list V.CAP V.WIDTH instance.now threshold first last groups at self.old.packs.items
            self.old.nodes.items →
            IfOk result (λ chosen. chosen.end ≡ end_taken instance.now threshold first last) }
        ensures from { IfOk result (λ chosen. (from : ℕ) → chosen.kept ≡ Some from → top ≤ from) }
        ensures small { IfOk result (λ chosen. (from : ℕ) → chosen.kept ≡ Some from → chosen.top ≤ 4294967295) }
        ensures kept { (threshold : ℕ) (first last : List ℕ) → IsTree V.CAP instance.now threshold self.old →
            IsOpenAt V.list V.CAP V.WIDTH instance.now threshold first last groups at self.old.packs.items
            self.old.nodes.items →
            IfOk result (λ chosen. (from : ℕ) → chosen.kept ≡ Some from →
            (from + length (left_below instance.now threshold chosen.end first last) ≤ chosen.top)
            × AreKept V.list V.CAP V.WIDTH instance.now threshold chosen.end first last groups
            (left_below instance.now threshold chosen.end first last) from self.new.packs.items self.new.nodes.items) }
    {
        let plain = self.plain_end(instance, groups, at);
        let open = &self.nodes[at];
        let plain_count = open.at(plain).count;
        let other_count = open.at(other_end(plain)).count;
        if looks_ahead(plain_count, other_count, open.left.count(groups)) {
            return self.look_ahead(instance, groups, at, top, plain);
        }
        self.grow(instance, top + 1)?;
        Ok(Chosen {
            end: plain,
            kept: None,
            top,
        })
    }
}
