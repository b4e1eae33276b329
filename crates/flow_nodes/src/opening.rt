//! Opens nodes at both ends for the search: `Opener::open` opens a node, and `Opener::open_child` makes and opens a
//! child. Both mark the children at each end that are below a threshold, and the others are pruned.

ghost use Rattle.std.specs.Prelude.{◌≡◌, ◌⊎◌, ℕ, ◌-◌, ◌*◌, ◌/◌, ◌%◌, ◌<◌, ◌≤◌, ◌↔◌, false, List, ◌++◌, length};
ghost use Rattle.std.specs.Prelude.{slice_index, slice_index_or, Some, None};
ghost use Rattle.std.specs.Global.{Vec};
ghost use Rattle.flow_nodes.specs.declared.node.Node.{Node};
ghost use Rattle.flow_limits.specs.Limits.{most_machines};
ghost use Rattle.flow_shop.specs.Shop.{Shop};
ghost use Rattle.flow_shop.specs.Sequences.{has};
ghost use Rattle.flow_shop.specs.Directions.{first_with, last_with};
ghost use Rattle.flow_shop.specs.Ends.{end_bound};
ghost use Rattle.flow_shop.specs.declared.end.End.{End};
ghost use Rattle.flow_nodes.specs.Vectors.{limit_of};
ghost use Rattle.flow_nodes.specs.Nodes.{IsJob, IsNode};
ghost use Rattle.flow_nodes.specs.Groups.{IsGroup, child_bound, most_groups};
ghost use Rattle.flow_nodes.specs.Marks.{chosen, mark};
ghost use Rattle.flow_nodes.specs.Packs.{HasLeft, HasRoomFor, IsPack};
ghost use Rattle.flow_nodes.specs.Open.{AreChildren, HasRoomToOpen, HasStartRoom, HasStarts, HasStartsAndBound};
ghost use Rattle.flow_nodes.specs.Open.{IsOpenNode, children_at};
ghost use Rattle.flow_nodes.specs.internal.Pairs.{AreRests, IsPaired};

use crate::few_groups::known_or;
use crate::marks::Marks;
use crate::node::Node;
use crate::open::{Children, OpenNode, Put};
use crate::opener::Opener;
use crate::pack::Pack;
use crate::pairs::{EndPairs, pairs_of_sums};
use crate::passes::{Sought, below_at};
use crate::starts::keep_starts;
use crate::vector::Vector;
use flow_limits::MAX_MACHINES;
use flow_shop::{End, Instance};

/// With more machines, passes over several groups end early where they can.
const LOOKED_AT: usize = 12;

/// The number of groups, which is 1 where the constant says so.
#[inline(always)]
fn count_of<const ONE: bool>(groups: usize) -> usize
    requires { (ONE ≡ false) ⊎ (groups ≡ 1) }
    ensures { result ≡ groups }
{
    if ONE { 1 } else { groups }
}

/// The bounds of a group, where those of its parent's children are known.
#[inline(always)]
fn where_known<V: Vector>(parent: Option<V>, bounds: V) -> Option<V>
    ensures known { (old : V) → parent ≡ Some old → result ≡ Some bounds }
    ensures none { (new : V) → result ≡ Some new → (new ≡ bounds) × ((old : V) × (parent ≡ Some old)) }
{
    match parent {
        Some(_) => Some(bounds),
        None => None,
    }
}

impl<V: Vector> Opener<V> {
    /// Finds the children of a node at an end that are below the threshold (the others are pruned), and when their jobs
    /// start there, among the jobs left that stand in the groups, from what the groups share there.
    #[inline(always)]
    fn find_children<const M: usize, const ONE: bool>(
        &self,
        end: End,
        pairs: &EndPairs,
        groups: &[Vec<V>],
        left: &Marks,
        children: &mut Children<V>,
    )
        requires wide { V.WIDTH ≡ 16 }
        requires limit { self.now.limit ≤ V.CAP }
        requires few { length groups.now ≤ most_groups }
        requires constant { (M ≡ 0) ⊎ (M ≡ self.now.machines) }
        requires one { (ONE ≡ false) ⊎ (length groups.now ≡ 1) }
        requires most { self.now.machines ≤ most_machines }
        requires machines { (group : ℕ) (none : Vec V) → group < length groups.now →
            length (slice_index_or groups.now group none).items ≡ self.now.machines }
        requires room { (shop : Shop) × HasStartRoom shop (length groups.now) children.old.starts.items
            × ((group : ℕ) (none : Vec V) → group < length groups.now →
            length (slice_index_or groups.now group none).items ≡ shop.machines) }
        requires bounds { length groups.now ≤ length children.old.bounds.items }
        ensures room { (shop : Shop) (count : ℕ) → HasStartRoom shop count children.old.starts.items →
            HasStartRoom shop count children.new.starts.items }
        ensures within { (place : ℕ) → place / 16 < length groups.now → mark children.new.below.words place ≡ 1 →
            mark left.now.words place ≡ 1 }
        ensures exact { (shop : Shop) (threshold : ℕ) (first last jobs : List ℕ) (node : Node) (place : ℕ)
            (none : Vec V) → self.now.limit ≡ limit_of threshold → IsNode shop first last node →
            IsPaired V.pair_of V.CAP self.now.machines end node pairs.now → place / 16 < length groups.now →
            IsGroup V.list V.CAP V.WIDTH shop jobs (slice_index_or groups.now (place / 16) none).items →
            mark left.now.words place ≡ 1 → has (first ++ last) (slice_index jobs (place % 16)) ≡ false →
            mark children.new.below.words place ≡ 1
            ↔ (child_bound shop end first last (slice_index jobs (place % 16)) < threshold) }
        ensures known { (place : ℕ) → place / 16 < length groups.now → mark children.new.below.words place ≡ 1 →
            (bounds : V) × (slice_index_or children.new.bounds.items (place / 16) None ≡ Some bounds) }
        ensures whole { (shop : Shop) (first last jobs : List ℕ) (node : Node) (place : ℕ) (none : Vec V)
            (bounds : V) → IsNode shop first last node →
            IsPaired V.pair_of V.CAP self.now.machines end node pairs.now → place / 16 < length groups.now →
            IsGroup V.list V.CAP V.WIDTH shop jobs (slice_index_or groups.now (place / 16) none).items →
            mark left.now.words place ≡ 1 → has (first ++ last) (slice_index jobs (place % 16)) ≡ false →
            slice_index_or children.new.bounds.items (place / 16) None ≡ Some bounds →
            HasStartsAndBound V.list V.CAP V.WIDTH shop end first last (slice_index jobs (place % 16)) (place % 16)
            (slice_index_or children.new.starts.items (place / 16) none).items bounds }
        ensures bound_count { length children.new.bounds.items ≡ length children.old.bounds.items }
        ensures count { (names : List ℕ) → length names ≡ length groups.now * 16 →
            children.new.count ≡ length (chosen children.new.below.words names) }
    {
        let sought = Sought {
            limit: self.limit,
            looks: !ONE && known_or::<M>(self.machines) > LOOKED_AT,
        };
        let count = count_of::<ONE>(groups.len());
        for group in 0..count {
            let word = left.words[group];
            if word != 0 {
                let starts = children.starts[group].as_mut_slice();
                let times = groups[group].as_slice();
                let found = below_at::<V, M>(end, pairs, times, starts, word, sought);
                children.below.words[group] = found.below;
                children.bounds[group] = found.bounds;
            } else {
                children.below.words[group] = 0;
            }
        }
        children.count = children.below.count(count);
    }

    /// Finds the children of a node at an end that are below the threshold, where its parent has the same list: among
    /// those that are marked, from their starts at the parent, and from the pairs of the time of the jobs left and what
    /// is at the other end. Copies the starts.
    #[inline(always)]
    fn keep_children<const M: usize, const ONE: bool>(
        &self,
        groups: usize,
        rest: &[u32; MAX_MACHINES],
        parent: &Children<V>,
        children: &mut Children<V>,
    )
        requires wide { V.WIDTH ≡ 16 }
        requires limit { self.now.limit ≤ V.CAP }
        requires few { groups ≤ most_groups }
        requires constant { (M ≡ 0) ⊎ (M ≡ self.now.machines) }
        requires one { (ONE ≡ false) ⊎ (groups ≡ 1) }
        requires room { (shop : Shop) × (self.now.machines ≡ shop.machines) × (shop.machines ≤ most_machines)
            × HasStartRoom shop groups parent.now.starts.items × HasStartRoom shop groups children.old.starts.items }
        requires bounds { (groups ≤ length parent.now.bounds.items) × (groups ≤ length children.old.bounds.items) }
        ensures room { (shop : Shop) (count : ℕ) → HasStartRoom shop count children.old.starts.items →
            HasStartRoom shop count children.new.starts.items }
        ensures within { (place : ℕ) → place / 16 < groups → mark children.new.below.words place ≡ 1 →
            mark children.old.below.words place ≡ 1 }
        ensures exact { (shop : Shop) (threshold : ℕ) (end : End) (first last : List ℕ) (job : ℕ) (node : Node)
            (place : ℕ) → self.now.limit ≡ limit_of threshold → HasStartRoom shop groups parent.now.starts.items →
            IsNode shop first last node → AreRests V.pair_of V.CAP shop.machines end node rest.now → IsJob shop job →
            has (first ++ last) job ≡ false → place / 16 < groups → mark children.old.below.words place ≡ 1 →
            ((none : Vec V) → HasStarts V.list V.CAP V.WIDTH shop end first last job (place % 16)
            (slice_index_or parent.now.starts.items (place / 16) none).items) →
            mark children.new.below.words place ≡ 1 ↔ (child_bound shop end first last job < threshold) }
        ensures known { (place : ℕ) (old : V) → place / 16 < groups → mark children.new.below.words place ≡ 1 →
            slice_index_or parent.now.bounds.items (place / 16) None ≡ Some old →
            (bounds : V) × (slice_index_or children.new.bounds.items (place / 16) None ≡ Some bounds) }
        ensures whole { (shop : Shop) (end : End) (first last : List ℕ) (job : ℕ) (node : Node) (place : ℕ)
            (none : Vec V) (bounds : V) → HasStartRoom shop groups parent.now.starts.items →
            IsNode shop first last node → AreRests V.pair_of V.CAP shop.machines end node rest.now → IsJob shop job →
            has (first ++ last) job ≡ false → place / 16 < groups →
            slice_index_or children.new.bounds.items (place / 16) None ≡ Some bounds →
            ((old : V) → slice_index_or parent.now.bounds.items (place / 16) None ≡ Some old →
            HasStarts V.list V.CAP V.WIDTH shop end first last job (place % 16)
            (slice_index_or parent.now.starts.items (place / 16) none).items) →
            HasStartsAndBound V.list V.CAP V.WIDTH shop end first last job (place % 16)
            (slice_index_or children.new.starts.items (place / 16) none).items bounds }
        ensures bound_count { length children.new.bounds.items ≡ length children.old.bounds.items }
        ensures count { (names : List ℕ) → length names ≡ groups * 16 →
            children.new.count ≡ length (chosen children.new.below.words names) }
    {
        let count = count_of::<ONE>(groups);
        for group in 0..count {
            let word = children.below.words[group];
            if word != 0 {
                let starts = children.starts[group].as_mut_slice();
                let bounds = keep_starts::<V, M>(parent.starts[group].as_slice(), rest, starts);
                children.below.words[group] = (bounds.below(self.limit) & u64::from(word)) as u16;
                children.bounds[group] = where_known(parent.bounds[group], bounds);
            } else {
                children.below.words[group] = 0;
                children.bounds[group] = None;
            }
        }
        let kept = children.below.count(count);
        children.count = kept;
    }

    /// Opens a node at one end. Its jobs left stand at marked places of a pack.
    #[inline(always)]
    fn open_at<const M: usize, const ONE: bool>(
        &self,
        end: End,
        pack: &Pack<V>,
        node: &Node,
        left: &Marks,
        children: &mut Children<V>,
    )
        requires wide { V.WIDTH ≡ 16 }
        requires limit { self.now.limit ≤ V.CAP }
        requires constant { (M ≡ 0) ⊎ (M ≡ self.now.machines) }
        requires one { (ONE ≡ false) ⊎ (length pack.now.groups.items ≡ 1) }
        requires at { (shop : Shop) × (threshold : ℕ) × (first : List ℕ) × (last : List ℕ)
            × IsNode shop first last node.now × IsPack V.list V.CAP V.WIDTH shop pack.now × HasRoomFor shop self.now
            × (self.now.limit ≡ limit_of threshold) × (end_bound shop first last < threshold)
            × HasStartRoom shop (length pack.now.groups.items) children.old.starts.items }
        requires bounds { length pack.now.groups.items ≤ length children.old.bounds.items }
        ensures room { (shop : Shop) (count : ℕ) → HasStartRoom shop count children.old.starts.items →
            HasStartRoom shop count children.new.starts.items }
        ensures children { (shop : Shop) (threshold : ℕ) (first last : List ℕ) → self.now.limit ≡ limit_of threshold →
            IsNode shop first last node.now → IsPack V.list V.CAP V.WIDTH shop pack.now →
            HasLeft shop first last pack.now.names.items left.now →
            AreChildren V.list V.CAP V.WIDTH shop threshold end first last pack.now.names.items left.now children.new }
        ensures bound_count { length children.new.bounds.items ≡ length children.old.bounds.items }
    {
        let pairs = EndPairs::of::<V, M>(node, end, self.machines);
        self.find_children::<M, ONE>(end, &pairs, pack.groups.as_slice(), left, children);
    }

    /// The same as `open`. The constant is the number of machines, or 0.
    #[inline(never)]
    fn open_of<const M: usize>(&self, pack: &Pack<V>, node: &mut OpenNode<V>)
        requires wide { V.WIDTH ≡ 16 }
        requires limit { self.now.limit ≤ V.CAP }
        requires constant { (M ≡ 0) ⊎ (M ≡ self.now.machines) }
        requires at { (shop : Shop) × (threshold : ℕ) × (first : List ℕ) × (last : List ℕ)
            × IsNode shop first last node.old.node × IsPack V.list V.CAP V.WIDTH shop pack.now
            × HasRoomFor shop self.now × (self.now.limit ≡ limit_of threshold) × (end_bound shop first last < threshold)
            × HasRoomToOpen shop (length pack.now.groups.items) node.old }
        ensures room { (shop : Shop) (groups : ℕ) → HasRoomToOpen shop groups node.old →
            HasRoomToOpen shop groups node.new }
        ensures node { (shop : Shop) (threshold : ℕ) (first last : List ℕ) → self.now.limit ≡ limit_of threshold →
            IsNode shop first last node.old.node → IsPack V.list V.CAP V.WIDTH shop pack.now →
            HasLeft shop first last pack.now.names.items node.old.left →
            IsOpenNode V.list V.CAP V.WIDTH shop threshold first last pack.now node.new }
    {
        self.open_at::<M, false>(End::Front, pack, &node.node, &node.left, &mut node.front);
        self.open_at::<M, false>(End::Back, pack, &node.node, &node.left, &mut node.back);
    }

    /// Opens a node at both ends. Its jobs left stand at marked places of a pack.
    pub fn open(&self, pack: &Pack<V>, node: &mut OpenNode<V>)
        requires wide { V.WIDTH ≡ 16 }
        requires limit { self.now.limit ≤ V.CAP }
        requires at { (shop : Shop) × (threshold : ℕ) × (first : List ℕ) × (last : List ℕ)
            × IsNode shop first last node.old.node × IsPack V.list V.CAP V.WIDTH shop pack.now
            × HasRoomFor shop self.now × (self.now.limit ≡ limit_of threshold) × (end_bound shop first last < threshold)
            × HasLeft shop first last pack.now.names.items node.old.left
            × HasRoomToOpen shop (length pack.now.groups.items) node.old }
        ensures room { (shop : Shop) (groups : ℕ) → HasRoomToOpen shop groups node.old →
            HasRoomToOpen shop groups node.new }
        ensures node { (shop : Shop) (threshold : ℕ) (first last : List ℕ) → self.now.limit ≡ limit_of threshold →
            IsNode shop first last node.old.node → IsPack V.list V.CAP V.WIDTH shop pack.now →
            HasLeft shop first last pack.now.names.items node.old.left →
            IsOpenNode V.list V.CAP V.WIDTH shop threshold first last pack.now node.new }
    {
        match self.machines {
            5 => self.open_of::<5>(pack, node),
            10 => self.open_of::<10>(pack, node),
            20 => self.open_of::<20>(pack, node),
            _ => self.open_of::<0>(pack, node),
        }
    }

    /// The same as `open_child`. The constants are the number of machines, or 0, and whether the pack has one group.
    #[inline(never)]
    fn open_child_of<const M: usize, const ONE: bool>(
        &self,
        instance: &Instance,
        pack: &Pack<V>,
        parent: &OpenNode<V>,
        put: Put,
        child: &mut OpenNode<V>,
    )
        requires wide { V.WIDTH ≡ 16 }
        requires limit { self.now.limit ≤ V.CAP }
        requires constant { (M ≡ 0) ⊎ (M ≡ self.now.machines) }
        requires one { (ONE ≡ false) ⊎ (length pack.now.groups.items ≡ 1) }
        requires at { (threshold : ℕ) × (first : List ℕ) × (last : List ℕ)
            × IsOpenNode V.list V.CAP V.WIDTH instance.now threshold first last pack.now parent.now
            × IsPack V.list V.CAP V.WIDTH instance.now pack.now × HasRoomFor instance.now self.now
            × (self.now.limit ≡ limit_of threshold) × (end_bound instance.now first last < threshold)
            × (put.place < length pack.now.names.items)
            × (mark (children_at put.end parent.now).below.words put.place ≡ 1)
            × HasRoomToOpen instance.now (length pack.now.groups.items) parent.now
            × HasRoomToOpen instance.now (length pack.now.groups.items) child.old }
        ensures room { (shop : Shop) (groups : ℕ) → HasRoomToOpen shop groups child.old →
            HasRoomToOpen shop groups child.new }
        ensures child { (threshold : ℕ) (first last : List ℕ) →
            IsOpenNode V.list V.CAP V.WIDTH instance.now threshold first last pack.now parent.now →
            IsPack V.list V.CAP V.WIDTH instance.now pack.now → HasRoomFor instance.now self.now →
            self.now.limit ≡ limit_of threshold →
            mark (children_at put.end parent.now).below.words put.place ≡ 1 →
            IsOpenNode V.list V.CAP V.WIDTH instance.now threshold
            (first_with put.end first (slice_index pack.now.names.items put.place))
            (last_with put.end last (slice_index pack.now.names.items put.place)) pack.now child.new }
    {
        let row = &self.rows[usize::from(pack.names[put.place]) - 1];
        child
            .node
            .become_child::<M>(&parent.node, instance, put.end, row);
        child.left = parent.left;
        child.left.clear(put.place);
        let groups = pack.groups.len();
        match put.end {
            End::Front => {
                self.open_at::<M, ONE>(
                    End::Front,
                    pack,
                    &child.node,
                    &child.left,
                    &mut child.front,
                );
                child.back.below = parent.back.below;
                child.back.below.clear(put.place);
                let node = &child.node;
                let rest = pairs_of_sums::<V, M>(&node.work, &node.front, self.machines);
                self.keep_children::<M, ONE>(groups, &rest, &parent.back, &mut child.back);
            }
            End::Back => {
                self.open_at::<M, ONE>(End::Back, pack, &child.node, &child.left, &mut child.back);
                child.front.below = parent.front.below;
                child.front.below.clear(put.place);
                let node = &child.node;
                let rest = pairs_of_sums::<V, M>(&node.work, &node.back, self.machines);
                self.keep_children::<M, ONE>(groups, &rest, &parent.front, &mut child.front);
            }
        }
    }

    /// Makes the child of a node that puts a job at an end, opened at both ends.
    pub fn open_child(
        &self,
        instance: &Instance,
        pack: &Pack<V>,
        parent: &OpenNode<V>,
        put: Put,
        child: &mut OpenNode<V>,
    )
        requires wide { V.WIDTH ≡ 16 }
        requires limit { self.now.limit ≤ V.CAP }
        requires at { (threshold : ℕ) × (first : List ℕ) × (last : List ℕ)
            × IsOpenNode V.list V.CAP V.WIDTH instance.now threshold first last pack.now parent.now
            × IsPack V.list V.CAP V.WIDTH instance.now pack.now × HasRoomFor instance.now self.now
            × (self.now.limit ≡ limit_of threshold) × (end_bound instance.now first last < threshold)
            × (put.place < length pack.now.names.items)
            × (mark (children_at put.end parent.now).below.words put.place ≡ 1)
            × HasRoomToOpen instance.now (length pack.now.groups.items) parent.now
            × HasRoomToOpen instance.now (length pack.now.groups.items) child.old }
        ensures room { (shop : Shop) (groups : ℕ) → HasRoomToOpen shop groups child.old →
            HasRoomToOpen shop groups child.new }
        ensures child { (threshold : ℕ) (first last : List ℕ) →
            IsOpenNode V.list V.CAP V.WIDTH instance.now threshold first last pack.now parent.now →
            IsPack V.list V.CAP V.WIDTH instance.now pack.now → HasRoomFor instance.now self.now →
            self.now.limit ≡ limit_of threshold →
            mark (children_at put.end parent.now).below.words put.place ≡ 1 →
            IsOpenNode V.list V.CAP V.WIDTH instance.now threshold
            (first_with put.end first (slice_index pack.now.names.items put.place))
            (last_with put.end last (slice_index pack.now.names.items put.place)) pack.now child.new }
    {
        if pack.groups.len() == 1 {
            match self.machines {
                5 => self.open_child_of::<5, true>(instance, pack, parent, put, child),
                10 => self.open_child_of::<10, true>(instance, pack, parent, put, child),
                20 => self.open_child_of::<20, true>(instance, pack, parent, put, child),
                _ => self.open_child_of::<0, true>(instance, pack, parent, put, child),
            }
        } else {
            match self.machines {
                5 => self.open_child_of::<5, false>(instance, pack, parent, put, child),
                10 => self.open_child_of::<10, false>(instance, pack, parent, put, child),
                20 => self.open_child_of::<20, false>(instance, pack, parent, put, child),
                _ => self.open_child_of::<0, false>(instance, pack, parent, put, child),
            }
        }
    }
}
