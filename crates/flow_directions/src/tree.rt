//! The open nodes of a search, in a list, and what they share.

ghost use Rattle.std.specs.Prelude.{◌≡◌, ◌≢◌, ℕ, ◌+◌, ◌-◌, ◌*◌, ◌<◌, ◌≤◌, List, [], ◌++◌, length, take, slice_index};
ghost use Rattle.std.specs.Prelude.{set, slice_index_or, IfOk, OnOk};
ghost use Rattle.flow_shop.specs.Shop.{Shop};
ghost use Rattle.flow_shop.specs.Ends.{end_bound};
ghost use Rattle.flow_shop.specs.Rows.{AreRows};
ghost use Rattle.flow_shop.specs.Sequences.{jobs_left};
ghost use Rattle.flow_shop.specs.Directions.{first_with, last_with};
ghost use Rattle.flow_nodes.specs.Vectors.{limit_of};
ghost use Rattle.flow_nodes.specs.Marks.{mark};
ghost use Rattle.flow_nodes.specs.Packs.{HasRoom, HasRoomFor, IsPack, jobs_at};
ghost use Rattle.flow_nodes.specs.declared.pack.Pack.{Pack};
ghost use Rattle.flow_nodes.specs.Open.{HasRoomToOpen, IsOpenNode, children_at};
ghost use Rattle.flow_directions.specs.internal.Tree.{IsOpenAt, IsTree};
ghost use Rattle.flow_nodes.specs.declared.open.OpenNode.{OpenNode};

use flow_nodes::{LANES, Marks, OpenNode, Opener, Pack, Put, Vector};
use flow_shop::{Instance, Row};
use std::alloc::{AllocError, Global};

/// The open nodes of a search, and what they share.
#[derive(Drop)]
pub(crate) struct Tree<V> {
    /// Where memory comes from.
    pub(crate) alloc: Global,
    /// The nodes of the walk, and the children of these that are kept.
    pub(crate) nodes: Vec<OpenNode<V>>,
    /// The packs: that of one group first, and each with one group more than the one before.
    pub(crate) packs: Vec<Pack<V>>,
    /// What opens the nodes.
    pub(crate) opener: Opener<V>,
}

/// A child to be made: of the node at a place of a list, at the place `to`.
#[derive(Clone, Copy)]
struct Making {
    /// The place of the node.
    at: usize,
    /// Which job it puts, and at which end.
    put: Put,
    /// The place of the child.
    to: usize,
}

/// Makes a child of a node of a list.
#[inline(always)]
fn make_child<V: Vector>(
    nodes: &mut [OpenNode<V>],
    opener: &Opener<V>,
    instance: &Instance,
    pack: &Pack<V>,
    making: Making,
)
    requires wide { V.WIDTH ≡ 16 }
    requires limit { opener.now.limit ≤ V.CAP }
    requires order { making.at < making.to }
    requires room { making.to < length nodes.old }
    requires at { (empty : OpenNode V) → (threshold : ℕ) × (first : List ℕ) × (last : List ℕ)
        × IsOpenNode V.list V.CAP V.WIDTH instance.now threshold first last pack.now
        (slice_index_or nodes.old making.at empty)
        × IsPack V.list V.CAP V.WIDTH instance.now pack.now × HasRoomFor instance.now opener.now
        × (opener.now.limit ≡ limit_of threshold) × (end_bound instance.now first last < threshold)
        × (making.put.place < length pack.now.names.items)
        × (mark (children_at making.put.end (slice_index_or nodes.old making.at empty)).below.words making.put.place
        ≡ 1)
        × HasRoomToOpen instance.now (length pack.now.groups.items) (slice_index_or nodes.old making.at empty)
        × HasRoomToOpen instance.now (length pack.now.groups.items) (slice_index_or nodes.old making.to empty) }
    ensures { (child : OpenNode V) × (nodes.new ≡ set nodes.old making.to child)
        × ((shop : Shop) (groups : ℕ) (empty : OpenNode V) →
        HasRoomToOpen shop groups (slice_index_or nodes.old making.to empty) → HasRoomToOpen shop groups child)
        × ((threshold : ℕ) (first last : List ℕ) (empty : OpenNode V) →
        IsOpenNode V.list V.CAP V.WIDTH instance.now threshold first last pack.now
        (slice_index_or nodes.old making.at empty) →
        IsPack V.list V.CAP V.WIDTH instance.now pack.now → HasRoomFor instance.now opener.now →
        opener.now.limit ≡ limit_of threshold →
        mark (children_at making.put.end (slice_index_or nodes.old making.at empty)).below.words making.put.place ≡ 1 →
        IsOpenNode V.list V.CAP V.WIDTH instance.now threshold
        (first_with making.put.end first (slice_index pack.now.names.items making.put.place))
        (last_with making.put.end last (slice_index pack.now.names.items making.put.place)) pack.now child) }
{
    let (above, deeper) = nodes.split_at_mut(making.to);
    opener.open_child(
        instance,
        pack,
        &above[making.at],
        making.put,
        &mut deeper[0],
    );
}

/// Fills the pack of so many groups with the jobs at marked places of the pack that has one group more.
#[inline(always)]
fn refill<V: Vector>(
    packs: &mut [Pack<V>],
    instance: &Instance,
    rows: &[Row],
    groups: usize,
    left: &Marks,
)
    requires wide { V.WIDTH ≡ 16 }
    requires rows { AreRows instance.now rows.now }
    requires some { 1 ≤ groups }
    requires more { groups < length packs.old }
    requires rooms { (none : Pack V) → HasRoom instance.now (slice_index_or packs.old (groups - 1) none) }
    requires from { (none : Pack V) → HasRoom instance.now (slice_index_or packs.old groups none) }
    requires fits { (none : Pack V) → length (jobs_at (slice_index_or packs.old groups none) left.now)
        ≤ length (slice_index_or packs.old (groups - 1) none).names.items }
    ensures pack { (pack : Pack V) × (packs.new ≡ set packs.old (groups - 1) pack)
        × IsPack V.list V.CAP V.WIDTH instance.now pack
        × ((none : Pack V) → length pack.groups.items
        ≡ length (slice_index_or packs.old (groups - 1) none).groups.items)
        × ((none : Pack V) → take (length (jobs_at (slice_index_or packs.old groups none) left.now)) pack.names.items
        ≡ jobs_at (slice_index_or packs.old groups none) left.now) }
{
    let (fewer, more) = packs.split_at_mut(groups);
    fewer[groups - 1].fill(instance, rows, &more[0], left);
}

impl<V: Vector> Tree<V> {
    /// A tree with no node yet, with packs of up to so many groups.
    pub(crate) fn new(
        alloc: Global,
        instance: &Instance,
        groups: usize,
        limit: u32,
    ) -> Result<Tree<V>, AllocError>
        requires few { groups ≤ 50 }
        ensures tree { (threshold : ℕ) → limit ≡ limit_of threshold → limit ≤ V.CAP →
            IfOk result (λ tree. IsTree V.CAP instance.now threshold tree) }
        ensures packs { IfOk result (λ tree. length tree.packs.items ≡ groups) }
        ensures nodes { IfOk result (λ tree. tree.nodes.items ≡ []) }
    {
        let mut packs = Vec::with_capacity(alloc, groups)?;
        'packs: while packs.len() < groups {
            let pack = Pack::new(alloc, instance, packs.len() + 1)?;
            packs.push(pack)?;
        }
        Ok(Tree {
            alloc,
            nodes: Vec::new(alloc),
            packs,
            opener: Opener::new(alloc, instance, limit)?,
        })
    }

    /// Makes nodes behind those of the list, until they are so many.
    #[cold]
    #[inline(never)]
    fn add_nodes(&mut self, instance: &Instance, count: usize) -> Result<(), AllocError>
        requires few { length self.old.packs.items ≤ 50 }
        ensures tree { (threshold : ℕ) → IsTree V.CAP instance.now threshold self.old →
            IsTree V.CAP instance.now threshold self.new }
        ensures packs { self.new.packs ≡ self.old.packs }
        ensures begin { take (length self.old.nodes.items) self.new.nodes.items ≡ self.old.nodes.items }
        ensures more { length self.old.nodes.items ≤ length self.new.nodes.items }
        ensures size { OnOk result (count ≤ length self.new.nodes.items) }
    {
        'nodes: while self.nodes.len() < count {
            let node = OpenNode::new(self.alloc, instance, self.packs.len())?;
            self.nodes.push(node)?;
        }
        Ok(())
    }

    /// Grows the list to so many nodes, where it has fewer.
    #[inline(always)]
    pub(crate) fn grow(&mut self, instance: &Instance, count: usize) -> Result<(), AllocError>
        requires few { length self.old.packs.items ≤ 50 }
        ensures tree { (threshold : ℕ) → IsTree V.CAP instance.now threshold self.old →
            IsTree V.CAP instance.now threshold self.new }
        ensures packs { self.new.packs ≡ self.old.packs }
        ensures begin { take (length self.old.nodes.items) self.new.nodes.items ≡ self.old.nodes.items }
        ensures more { length self.old.nodes.items ≤ length self.new.nodes.items }
        ensures size { OnOk result (count ≤ length self.new.nodes.items) }
    {
        if self.nodes.len() < count {
            return self.add_nodes(instance, count);
        }
        Ok(())
    }

    /// Makes the child of the node at a place that puts a job at an end, at the place `to` of the list.
    #[inline(always)]
    pub(crate) fn make(
        &mut self,
        instance: &Instance,
        groups: usize,
        at: usize,
        put: Put,
        to: usize,
    )
        requires wide { V.WIDTH ≡ 16 }
        requires some { 1 ≤ groups }
        requires few { groups ≤ length self.old.packs.items }
        requires order { at < to }
        requires room { to < length self.old.nodes.items }
        requires at { (threshold : ℕ) × (first : List ℕ) × (last : List ℕ)
            × IsTree V.CAP instance.now threshold self.old
            × IsOpenAt V.list V.CAP V.WIDTH instance.now threshold first last groups at self.old.packs.items
            self.old.nodes.items }
        requires place { put.place < groups * 16 }
        requires marked { (empty : OpenNode V) →
            mark (children_at put.end (slice_index_or self.old.nodes.items at empty)).below.words put.place ≡ 1 }
        ensures tree { (threshold : ℕ) → IsTree V.CAP instance.now threshold self.old →
            IsTree V.CAP instance.now threshold self.new }
        ensures packs { self.new.packs ≡ self.old.packs }
        ensures size { length self.new.nodes.items ≡ length self.old.nodes.items }
        ensures above { take to self.new.nodes.items ≡ take to self.old.nodes.items }
        ensures child { (threshold : ℕ) (first last : List ℕ) (none : Pack V) →
            IsTree V.CAP instance.now threshold self.old →
            IsOpenAt V.list V.CAP V.WIDTH instance.now threshold first last groups at self.old.packs.items
            self.old.nodes.items →
            IsOpenAt V.list V.CAP V.WIDTH instance.now threshold
            (first_with put.end first
            (slice_index (slice_index_or self.old.packs.items (groups - 1) none).names.items put.place))
            (last_with put.end last
            (slice_index (slice_index_or self.old.packs.items (groups - 1) none).names.items put.place))
            groups to self.new.packs.items self.new.nodes.items }
    {
        make_child(
            self.nodes.as_mut_slice(),
            &self.opener,
            instance,
            &self.packs[groups - 1],
            Making { at, put, to },
        );
    }

    /// Packs the jobs left at the node at a place anew, in so many groups, which they fill, and opens it at the place
    /// `to`.
    #[inline(never)]
    pub(crate) fn repack(&mut self, instance: &Instance, groups: usize, at: usize, to: usize)
        requires wide { V.WIDTH ≡ 16 }
        requires some { 1 ≤ groups }
        requires more { groups < length self.old.packs.items }
        requires order { at < to }
        requires room { to < length self.old.nodes.items }
        requires at { (threshold : ℕ) × (first : List ℕ) × (last : List ℕ)
            × IsTree V.CAP instance.now threshold self.old
            × IsOpenAt V.list V.CAP V.WIDTH instance.now threshold first last (groups + 1) at self.old.packs.items
            self.old.nodes.items
            × (length (jobs_left instance.now.jobs (first ++ last)) ≡ groups * 16) }
        ensures tree { (threshold : ℕ) → IsTree V.CAP instance.now threshold self.old →
            IsTree V.CAP instance.now threshold self.new }
        ensures count { length self.new.packs.items ≡ length self.old.packs.items }
        ensures others { (place : ℕ) (none : Pack V) → place ≢ groups - 1 →
            slice_index_or self.new.packs.items place none ≡ slice_index_or self.old.packs.items place none }
        ensures size { length self.new.nodes.items ≡ length self.old.nodes.items }
        ensures above { take to self.new.nodes.items ≡ take to self.old.nodes.items }
        ensures node { (threshold : ℕ) (first last : List ℕ) →
            IsTree V.CAP instance.now threshold self.old →
            IsOpenAt V.list V.CAP V.WIDTH instance.now threshold first last (groups + 1) at self.old.packs.items
            self.old.nodes.items →
            length (jobs_left instance.now.jobs (first ++ last)) ≡ groups * 16 →
            IsOpenAt V.list V.CAP V.WIDTH instance.now threshold first last groups to self.new.packs.items
            self.new.nodes.items }
    {
        refill(
            self.packs.as_mut_slice(),
            instance,
            self.opener.rows.as_slice(),
            groups,
            &self.nodes[at].left,
        );
        let node = self.nodes[at].node;
        let packed = &mut self.nodes[to];
        packed.node = node;
        packed.left = Marks::first((groups * LANES) as u16);
        self.opener.open(&self.packs[groups - 1], packed);
    }
}
