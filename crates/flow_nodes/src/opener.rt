//! Opens nodes at one end for the checker: `Opener::mark_below` marks the children there that are below a threshold,
//! and the others are pruned. Where there are many groups, `bytes.rt` first tells of most children that they are not
//! below it; of those that remain `few_groups.rt` tells which are. `opening.rt` opens nodes at both ends.

ghost use Rattle.std.specs.Prelude.{◌≡◌, ◌⊎◌, ℕ, ◌+◌, ◌/◌, ◌%◌, ◌<◌, ◌≤◌, ◌↔◌, true, false, List, ◌++◌, length};
ghost use Rattle.std.specs.Prelude.{slice_index, slice_index_or, IsBitSet, IfOk};
ghost use Rattle.std.specs.Global.{Vec};
ghost use Rattle.flow_nodes.specs.declared.node.Node.{Node};
ghost use Rattle.flow_shop.specs.Shop.{Shop};
ghost use Rattle.flow_shop.specs.Sequences.{has};
ghost use Rattle.flow_shop.specs.Ends.{end_bound};
ghost use Rattle.flow_nodes.specs.Vectors.{limit_of};
ghost use Rattle.flow_nodes.specs.Nodes.{IsNode};
ghost use Rattle.flow_nodes.specs.Groups.{IsGroup, child_bound, most_groups};
ghost use Rattle.flow_nodes.specs.Marks.{mark};
ghost use Rattle.flow_nodes.specs.Packs.{AreBytes, HasByteRoom, HasLeft, HasRoomFor, IsPack, jobs_at, left_below};
ghost use Rattle.flow_nodes.specs.internal.Bytes.{HaveGaps, HaveSlacks};

use crate::bytes::{open_at_back, open_at_front, write_gaps, write_slacks};
use crate::few_groups::mark_few;
use crate::marks::Marks;
use crate::node::Node;
use crate::pack::Pack;
use crate::vector::Vector;
use flow_shop::{End, Instance, Row, rows};
use std::alloc::{AllocError, Global};
use std::marker::PhantomData;
use std::simd::prelude::*;

/// So many groups or fewer have no times in bytes.
pub(crate) const FEW_GROUPS: usize = 3;

/// Opens nodes: finds their children below a threshold. It has memory for what the groups of a node share in bytes.
#[derive(Drop)]
pub struct Opener<V> {
    /// The limit that stands for the threshold in 32 bits.
    pub(crate) limit: u32,
    /// How many machines there are.
    pub(crate) machines: usize,
    /// By how much what is at the end of the node exceeds what is there on the machine that comes before, in bytes: for
    /// each machine a vector with the same number in each lane.
    pub(crate) gaps: Vec<u8x16>,
    /// How much later than the node lets it a job may start, where its child is below the threshold, in bytes:
    /// likewise.
    pub(crate) slacks: Vec<u8x16>,
    /// The times of the jobs, a row for each.
    pub rows: Vec<Row>,
    /// The lanes of the packs whose jobs it looks at.
    pub(crate) lanes: PhantomData<V>,
}

impl<V: Vector> Opener<V> {
    /// What opens nodes of an instance with a limit.
    pub fn new(alloc: Global, instance: &Instance, limit: u32) -> Result<Opener<V>, AllocError>
        ensures limit { IfOk result (λ opener. opener.limit ≡ limit) }
        ensures room { IfOk result (λ opener. HasRoomFor instance.now opener) }
    {
        let machines = usize::from(instance.machines());
        let gaps = vec![in alloc; u8x16::each(0); machines]?;
        let slacks = vec![in alloc; u8x16::each(0); machines]?;
        let rows = rows(alloc, instance)?;
        Ok(Opener {
            limit,
            machines,
            gaps,
            slacks,
            rows,
            lanes: PhantomData,
        })
    }

    /// Writes what the groups of a node share at an end in bytes.
    #[inline(always)]
    fn write_bytes(&mut self, node: &Node, end: End)
        requires { (shop : Shop) × (first : List ℕ) × (last : List ℕ) × IsNode shop first last node.now
            × (length self.old.gaps.items ≡ shop.machines) × (length self.old.slacks.items ≡ shop.machines)
            × (end_bound shop first last < self.old.limit) }
        ensures limit { self.new.limit ≡ self.old.limit }
        ensures machines { self.new.machines ≡ self.old.machines }
        ensures rows { self.new.rows ≡ self.old.rows }
        ensures gap_count { length self.new.gaps.items ≡ length self.old.gaps.items }
        ensures slack_count { length self.new.slacks.items ≡ length self.old.slacks.items }
        ensures gaps { HaveGaps end node.now self.new.gaps.items }
        ensures slacks { HaveSlacks self.old.limit node.now self.new.slacks.items }
    {
        write_gaps(node, end, self.gaps.as_mut_slice());
        write_slacks(node, self.limit, self.slacks.as_mut_slice());
    }

    /// The children that may be below the threshold, of those that put the jobs of a group at an end, once what the
    /// groups share there is written in bytes: a bit for each lane. The bit of a lane whose job is not left may be set
    /// or not.
    #[inline(always)]
    fn open_lanes<const M: usize>(&self, end: End, group: &[u8x16]) -> u64
        requires constant { (M ≡ 0) ⊎ (M ≡ length group.now) }
        requires gaps { length self.now.gaps.items ≡ length group.now }
        requires slacks { length self.now.slacks.items ≡ length group.now }
        ensures { (shop : Shop) (first last jobs : List ℕ) (node : Node) (lane : ℕ) → IsNode shop first last node →
            HaveGaps end node self.now.gaps.items → HaveSlacks self.now.limit node self.now.slacks.items →
            IsGroup (λ lanes. lanes) 255 16 shop jobs group.now → lane < 16 →
            has (first ++ last) (slice_index jobs lane) ≡ false →
            IsBitSet result lane ⊎ (self.now.limit ≤ child_bound shop end first last (slice_index jobs lane)) }
    {
        let gaps = self.gaps.as_slice();
        let slacks = self.slacks.as_slice();
        match end {
            End::Front => open_at_front::<M>(gaps, slacks, group),
            End::Back => open_at_back::<M>(gaps, slacks, group),
        }
    }

    /// Marks the jobs left whose children at an end may be below the threshold, among those of the groups, once what
    /// the groups share there is written in bytes. Returns 0 where there is none.
    #[inline(always)]
    fn mark_open<const M: usize>(
        &self,
        end: End,
        groups: &[Vec<u8x16>],
        left: &Marks,
        kept: &mut Marks,
    ) -> u16
        requires constant { (M ≡ 0) ⊎ (M ≡ length self.now.gaps.items) }
        requires few { length groups.now ≤ most_groups }
        requires gaps { (group : ℕ) (none : Vec (List ℕ)) → group < length groups.now →
            length self.now.gaps.items ≡ length (slice_index_or groups.now group none).items }
        requires slacks { (group : ℕ) (none : Vec (List ℕ)) → group < length groups.now →
            length self.now.slacks.items ≡ length (slice_index_or groups.now group none).items }
        ensures within { (place : ℕ) → place / 16 < length groups.now → mark kept.new.words place ≡ 1 →
            mark left.now.words place ≡ 1 }
        ensures rest { (shop : Shop) (threshold : ℕ) (first last jobs : List ℕ) (node : Node) (place : ℕ)
            (none : Vec (List ℕ)) → self.now.limit ≡ limit_of threshold → IsNode shop first last node →
            HaveGaps end node self.now.gaps.items → HaveSlacks self.now.limit node self.now.slacks.items →
            place / 16 < length groups.now →
            IsGroup (λ lanes. lanes) 255 16 shop jobs (slice_index_or groups.now (place / 16) none).items →
            mark left.now.words place ≡ 1 → has (first ++ last) (slice_index jobs (place % 16)) ≡ false →
            (mark kept.new.words place ≡ 1)
            ⊎ (threshold ≤ child_bound shop end first last (slice_index jobs (place % 16))) }
        ensures none { result ≡ 0 → (place : ℕ) → place / 16 < length groups.now →
            mark kept.new.words place ≡ 0 }
    {
        let mut union = 0;
        for group in 0..groups.len() {
            let word = left.words[group];
            if word != 0 {
                let bits = self.open_lanes::<M>(end, groups[group].as_slice());
                let rest = (bits & u64::from(word)) as u16;
                kept.words[group] = rest;
                union |= rest;
            } else {
                kept.words[group] = 0;
            }
        }
        union
    }

    /// Whether a pack has the times of all its groups in bytes, and this has memory for what they share.
    #[inline(always)]
    fn reads_bytes(&self, pack: &Pack<V>) -> bool
        ensures count { result ≡ true → length pack.now.bytes.items ≡ length pack.now.groups.items }
        ensures gaps { result ≡ true → length self.now.gaps.items ≡ self.now.machines }
        ensures slacks { result ≡ true → length self.now.slacks.items ≡ self.now.machines }
    {
        pack.bytes.len() == pack.groups.len()
            && self.gaps.len() == self.machines
            && self.slacks.len() == self.machines
    }

    /// Marks the jobs of a pack whose children at an end are below the threshold, of those left: first those of which
    /// bytes do not tell that they are not.
    #[inline(always)]
    fn mark_by_bytes<const M: usize>(
        &mut self,
        node: &Node,
        end: End,
        pack: &Pack<V>,
        left: &Marks,
        below: &mut Marks,
    )
        requires wide { V.WIDTH ≡ 16 }
        requires constant { (M ≡ 0) ⊎ (M ≡ self.old.machines) }
        requires limit { self.old.limit ≤ V.CAP }
        requires count { length pack.now.bytes.items ≡ length pack.now.groups.items }
        requires at { (shop : Shop) × (threshold : ℕ) × (first : List ℕ) × (last : List ℕ)
            × IsNode shop first last node.now × IsPack V.list V.CAP V.WIDTH shop pack.now × HasRoomFor shop self.old
            × (self.old.limit ≡ limit_of threshold) × (end_bound shop first last < threshold)
            × HasByteRoom shop pack.now
            × (length self.old.gaps.items ≡ shop.machines) × (length self.old.slacks.items ≡ shop.machines) }
        ensures limit { self.new.limit ≡ self.old.limit }
        ensures room { (shop : Shop) → HasRoomFor shop self.old → HasRoomFor shop self.new }
        ensures within { (place : ℕ) → place / 16 < length pack.now.groups.items → mark below.new.words place ≡ 1 →
            mark left.now.words place ≡ 1 }
        ensures below { (shop : Shop) (threshold : ℕ) (first last : List ℕ) → self.old.limit ≡ limit_of threshold →
            IsNode shop first last node.now → IsPack V.list V.CAP V.WIDTH shop pack.now → AreBytes shop pack.now →
            HasLeft shop first last pack.now.names.items left.now →
            jobs_at pack.now below.new ≡ left_below shop threshold end first last }
    {
        self.write_bytes(node, end);
        let union = self.mark_open::<M>(end, pack.bytes.as_slice(), left, below);
        if union != 0 {
            let open = *below;
            mark_few::<V, M>(node, end, pack.groups.as_slice(), &open, self.limit, below);
        }
    }

    /// Marks the jobs of a pack whose children at an end are below the threshold, of those left. The constant is the
    /// number of machines, or 0.
    #[inline(always)]
    pub fn mark_below<const M: usize>(
        &mut self,
        node: &Node,
        end: End,
        pack: &Pack<V>,
        left: &Marks,
        below: &mut Marks,
    )
        requires wide { V.WIDTH ≡ 16 }
        requires constant { (M ≡ 0) ⊎ (M ≡ self.old.machines) }
        requires limit { self.old.limit ≤ V.CAP }
        requires at { (shop : Shop) × (threshold : ℕ) × (first : List ℕ) × (last : List ℕ)
            × IsNode shop first last node.now × IsPack V.list V.CAP V.WIDTH shop pack.now × HasRoomFor shop self.old
            × (self.old.limit ≡ limit_of threshold) × (end_bound shop first last < threshold)
            × HasByteRoom shop pack.now }
        ensures limit { self.new.limit ≡ self.old.limit }
        ensures room { (shop : Shop) → HasRoomFor shop self.old → HasRoomFor shop self.new }
        ensures within { (place : ℕ) → place / 16 < length pack.now.groups.items → mark below.new.words place ≡ 1 →
            mark left.now.words place ≡ 1 }
        ensures below { (shop : Shop) (threshold : ℕ) (first last : List ℕ) → self.old.limit ≡ limit_of threshold →
            IsNode shop first last node.now → IsPack V.list V.CAP V.WIDTH shop pack.now → AreBytes shop pack.now →
            HasLeft shop first last pack.now.names.items left.now →
            jobs_at pack.now below.new ≡ left_below shop threshold end first last }
    {
        if self.reads_bytes(pack) {
            self.mark_by_bytes::<M>(node, end, pack, left, below);
        } else {
            mark_few::<V, M>(node, end, pack.groups.as_slice(), left, self.limit, below);
        }
    }
}
