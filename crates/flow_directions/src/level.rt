//! The nodes whose children are searched.

ghost use Rattle.std.specs.Prelude.{◌≡◌, ℕ, ◌+◌, ◌-◌, ◌*◌, ◌<◌, ◌≤◌, List, ◌++◌, ◌∷◌, [], length, take, slice_index};
ghost use Rattle.std.specs.Prelude.{slice_index_or, IfOk, IfSome, IfNone, OnOk};
ghost use Rattle.flow_limits.specs.Limits.{most_jobs};
ghost use Rattle.flow_shop.specs.Sequences.{jobs_left};
ghost use Rattle.flow_shop.specs.Directions.{first_with, last_with};
ghost use Rattle.flow_nodes.specs.Groups.{group_count};
ghost use Rattle.flow_nodes.specs.Marks.{chosen, mark};
ghost use Rattle.flow_nodes.specs.declared.pack.Pack.{Pack};
ghost use Rattle.flow_directions.specs.declared.level.Level.{Level};
ghost use Rattle.flow_directions.specs.internal.Levels.{IsBegun, IsLevel, IsNext};
ghost use Rattle.flow_directions.specs.internal.Tree.{IsOpenAt, IsTree};

use crate::tree::Tree;
use flow_nodes::{LANES, Marks, Pack, Put, Vector, group_count};
use flow_shop::{End, Instance};
use std::alloc::AllocError;

/// Where an open node stands in the list of nodes.
#[derive(Clone, Copy)]
pub(crate) struct Spot {
    /// Its place.
    pub(crate) at: usize,
    /// The first place of the list behind it that is free.
    pub(crate) top: usize,
}

/// A node that is opened, and its children at an end that are still to be searched.
#[derive(Clone, Copy)]
pub(crate) struct Level {
    /// Where the node stands in the list of nodes.
    pub(crate) at: usize,
    /// The first free place of the list, behind the node and its children that are kept.
    pub(crate) top: usize,
    /// Where the first of the children that are still to be searched stands in the list, where they are kept there, one
    /// behind the other.
    pub(crate) kept: Option<u32>,
    /// The places of the jobs whose children are still to be searched.
    pub(crate) rest: Marks,
    /// The job of the child that is searched, or 0 before the first.
    pub(crate) job: u16,
    /// The end.
    pub(crate) end: End,
}

impl Level {
    /// A level of no node, to be written over.
    pub(crate) fn empty() -> Level {
        Level {
            at: 0,
            top: 0,
            kept: None,
            rest: Marks::none(),
            job: 0,
            end: End::Front,
        }
    }

    /// The place of the next job whose child is to be searched, in the pack that has the jobs left. `None` where
    /// there is none.
    #[inline(always)]
    pub(crate) fn next<V: Vector>(&mut self, pack: &Pack<V>) -> Option<usize>
        requires few { length pack.now.groups.items ≤ 50 }
        requires names { length pack.now.names.items ≡ length pack.now.groups.items * 16 }
        ensures at { self.new.at ≡ self.old.at }
        ensures top { self.new.top ≡ self.old.top }
        ensures end { self.new.end ≡ self.old.end }
        ensures kept { self.new.kept ≡ self.old.kept }
        ensures fewer { (place : ℕ) → mark self.new.rest.words place ≡ 1 → mark self.old.rest.words place ≡ 1 }
        ensures within { IfSome result (λ place. place < length pack.now.names.items) }
        ensures marked { IfSome result (λ place. mark self.old.rest.words place ≡ 1) }
        ensures job { IfSome result (λ place. self.new.job ≡ slice_index pack.now.names.items place) }
        ensures first { IfSome result (λ place. chosen self.old.rest.words pack.now.names.items
            ≡ self.new.job ∷ chosen self.new.rest.words pack.now.names.items) }
        ensures none { IfNone result (chosen self.old.rest.words pack.now.names.items ≡ []) }
    {
        let place = self.rest.pop(pack.groups.len())?;
        self.job = pack.names[place];
        Some(place)
    }
}

impl<V: Vector> Tree<V> {
    /// Begins with the children of the node at a spot, at the end that is taken, where so many jobs are left. Writes
    /// the level over another one.
    #[inline(always)]
    pub(crate) fn enter(
        &mut self,
        instance: &Instance,
        spot: Spot,
        left: u16,
        level: &mut Level,
    ) -> Result<(), AllocError>
        requires wide { V.WIDTH ≡ 16 }
        requires some { 1 ≤ left }
        requires few { group_count left ≤ length self.old.packs.items }
        requires order { spot.at < spot.top }
        requires room { spot.top ≤ length self.old.nodes.items }
        requires at { (threshold : ℕ) × (first : List ℕ) × (last : List ℕ)
            × IsTree V.CAP instance.now threshold self.old
            × IsOpenAt V.list V.CAP V.WIDTH instance.now threshold first last (group_count left) spot.at
            self.old.packs.items self.old.nodes.items }
        ensures tree { (threshold : ℕ) → IsTree V.CAP instance.now threshold self.old →
            OnOk result (IsTree V.CAP instance.now threshold self.new) }
        ensures packs { self.new.packs ≡ self.old.packs }
        ensures above { take spot.top self.new.nodes.items ≡ take spot.top self.old.nodes.items }
        ensures top { OnOk result (spot.top ≤ level.new.top) }
        ensures room { OnOk result (level.new.top < length self.new.nodes.items) }
        ensures level { (threshold : ℕ) (first last : List ℕ) → IsTree V.CAP instance.now threshold self.old →
            IsOpenAt V.list V.CAP V.WIDTH instance.now threshold first last (group_count left) spot.at
            self.old.packs.items self.old.nodes.items →
            length (jobs_left instance.now.jobs (first ++ last)) ≡ left →
            OnOk result (IsBegun V.list V.CAP V.WIDTH instance.now threshold self.new.packs.items
            self.new.nodes.items left first last level.new) }
    {
        let chosen = self.choose(instance, group_count(left), spot.at, spot.top)?;
        level.at = spot.at;
        level.top = chosen.top;
        level.end = chosen.end;
        level.rest = self.nodes[spot.at].at(chosen.end).below;
        level.kept = chosen.kept;
        level.job = 0;
        Ok(())
    }

    /// Finds the child of a level that puts the job of a place, where it is kept, or makes it. So many jobs are left at
    /// the child.
    #[inline(always)]
    fn child(&mut self, instance: &Instance, here: &mut Level, place: usize, left: u16) -> Spot
        requires wide { V.WIDTH ≡ 16 }
        requires some { 1 ≤ left }
        requires few { group_count (left + 1) ≤ length self.old.packs.items }
        requires room { here.old.top < length self.old.nodes.items }
        requires at { (threshold : ℕ) × (first : List ℕ) × (last : List ℕ)
            × IsTree V.CAP instance.now threshold self.old
            × IsNext V.list V.CAP V.WIDTH instance.now threshold self.old.packs.items self.old.nodes.items (left + 1)
            first last place here.old }
        ensures tree { (threshold : ℕ) → IsTree V.CAP instance.now threshold self.old →
            IsTree V.CAP instance.now threshold self.new }
        ensures packs { self.new.packs ≡ self.old.packs }
        ensures above { take here.old.top self.new.nodes.items ≡ take here.old.top self.old.nodes.items }
        ensures size { length self.new.nodes.items ≡ length self.old.nodes.items }
        ensures end { here.new.end ≡ here.old.end }
        ensures job { here.new.job ≡ here.old.job }
        ensures rest { here.new.rest ≡ here.old.rest }
        ensures top { here.new.top ≡ here.old.top }
        ensures order { result.at < result.top }
        ensures behind { here.old.top ≤ result.top }
        ensures room { result.top ≤ length self.new.nodes.items }
        ensures level { (threshold : ℕ) (first last : List ℕ) → IsTree V.CAP instance.now threshold self.old →
            IsNext V.list V.CAP V.WIDTH instance.now threshold self.old.packs.items self.old.nodes.items (left + 1)
            first last place here.old →
            IsLevel V.list V.CAP V.WIDTH instance.now threshold self.new.packs.items self.new.nodes.items (left + 1)
            first last here.new }
        ensures child { (threshold : ℕ) (first last : List ℕ) → IsTree V.CAP instance.now threshold self.old →
            IsNext V.list V.CAP V.WIDTH instance.now threshold self.old.packs.items self.old.nodes.items (left + 1)
            first last place here.old →
            IsOpenAt V.list V.CAP V.WIDTH instance.now threshold
            (first_with here.old.end first here.old.job) (last_with here.old.end last here.old.job)
            (group_count (left + 1)) result.at self.new.packs.items self.new.nodes.items }
    {
        if let Some(at) = here.kept {
            here.kept = Some(at + 1);
            return Spot {
                at: at as usize,
                top: here.top,
            };
        }
        let put = Put {
            end: here.end,
            place,
        };
        self.make(instance, group_count(left + 1), here.at, put, here.top);
        Spot {
            at: here.top,
            top: here.top + 1,
        }
    }

    /// Packs the jobs left at the node at a spot anew, where they are whole groups, and opens it behind the spot then.
    /// They are so many, and stand in the pack that the node above it has.
    #[inline(always)]
    fn settle(&mut self, instance: &Instance, spot: Spot, left: u16) -> Result<Spot, AllocError>
        requires wide { V.WIDTH ≡ 16 }
        requires some { 1 ≤ left }
        requires few { group_count (left + 1) ≤ length self.old.packs.items }
        requires order { spot.at < spot.top }
        requires room { spot.top ≤ length self.old.nodes.items }
        requires at { (threshold : ℕ) × (first : List ℕ) × (last : List ℕ)
            × IsTree V.CAP instance.now threshold self.old
            × IsOpenAt V.list V.CAP V.WIDTH instance.now threshold first last (group_count (left + 1)) spot.at
            self.old.packs.items self.old.nodes.items
            × (length (jobs_left instance.now.jobs (first ++ last)) ≡ left) }
        ensures tree { (threshold : ℕ) → IsTree V.CAP instance.now threshold self.old →
            OnOk result (IsTree V.CAP instance.now threshold self.new) }
        ensures count { length self.new.packs.items ≡ length self.old.packs.items }
        ensures others { (more : ℕ) (none : Pack V) → left < more →
            slice_index_or self.new.packs.items (group_count more - 1) none
            ≡ slice_index_or self.old.packs.items (group_count more - 1) none }
        ensures above { take spot.top self.new.nodes.items ≡ take spot.top self.old.nodes.items }
        ensures order { IfOk result (λ new. new.at < new.top) }
        ensures behind { IfOk result (λ new. spot.top ≤ new.top) }
        ensures room { IfOk result (λ new. new.top ≤ length self.new.nodes.items) }
        ensures node { (threshold : ℕ) (first last : List ℕ) → IsTree V.CAP instance.now threshold self.old →
            IsOpenAt V.list V.CAP V.WIDTH instance.now threshold first last (group_count (left + 1)) spot.at
            self.old.packs.items self.old.nodes.items →
            length (jobs_left instance.now.jobs (first ++ last)) ≡ left →
            IfOk result (λ new. IsOpenAt V.list V.CAP V.WIDTH instance.now threshold first last (group_count left)
            new.at
            self.new.packs.items self.new.nodes.items) }
    {
        let spare = left as usize % LANES;
        if spare != 0 {
            return Ok(spot);
        }
        self.grow(instance, spot.top + 1)?;
        self.repack(instance, group_count(left), spot.at, spot.top);
        Ok(Spot {
            at: spot.top,
            top: spot.top + 1,
        })
    }

    /// Goes to the child of a level that puts the job of a place: puts the level behind those above it, and writes that
    /// of the child in its place. So many jobs are left at the child.
    #[inline(always)]
    pub(crate) fn go(
        &mut self,
        instance: &Instance,
        levels: &mut Vec<Level>,
        here: &mut Level,
        place: usize,
        left: u16,
    ) -> Result<(), AllocError>
        requires wide { V.WIDTH ≡ 16 }
        requires some { 1 ≤ left }
        requires few { group_count (left + 1) ≤ length self.old.packs.items }
        requires room { here.old.top < length self.old.nodes.items }
        requires at { (threshold : ℕ) × (first : List ℕ) × (last : List ℕ)
            × IsTree V.CAP instance.now threshold self.old
            × IsNext V.list V.CAP V.WIDTH instance.now threshold self.old.packs.items self.old.nodes.items (left + 1)
            first last place here.old }
        ensures tree { (threshold : ℕ) → IsTree V.CAP instance.now threshold self.old →
            OnOk result (IsTree V.CAP instance.now threshold self.new) }
        ensures count { length self.new.packs.items ≡ length self.old.packs.items }
        ensures others { (more : ℕ) (none : Pack V) → left < more →
            slice_index_or self.new.packs.items (group_count more - 1) none
            ≡ slice_index_or self.old.packs.items (group_count more - 1) none }
        ensures above { take here.old.top self.new.nodes.items ≡ take here.old.top self.old.nodes.items }
        ensures deeper { OnOk result (length levels.new.items ≡ length levels.old.items + 1) }
        ensures behind { OnOk result (here.old.top ≤ here.new.top) }
        ensures room { OnOk result (here.new.top < length self.new.nodes.items) }
        ensures above_it { OnOk result ((level : Level) × (levels.new.items ≡ levels.old.items ++ level ∷ [])
            × (level.end ≡ here.old.end) × (level.job ≡ here.old.job) × (level.top ≡ here.old.top)
            × (level.rest ≡ here.old.rest) × ((threshold : ℕ) (first last : List ℕ) →
            IsTree V.CAP instance.now threshold self.old →
            IsNext V.list V.CAP V.WIDTH instance.now threshold self.old.packs.items self.old.nodes.items (left + 1)
            first last place here.old →
            IsLevel V.list V.CAP V.WIDTH instance.now threshold self.new.packs.items self.new.nodes.items (left + 1)
            first last level)) }
        ensures level { (threshold : ℕ) (first last : List ℕ) → IsTree V.CAP instance.now threshold self.old →
            IsNext V.list V.CAP V.WIDTH instance.now threshold self.old.packs.items self.old.nodes.items (left + 1)
            first last place here.old →
            OnOk result (IsBegun V.list V.CAP V.WIDTH instance.now threshold self.new.packs.items
            self.new.nodes.items left (first_with here.old.end first here.old.job)
            (last_with here.old.end last here.old.job) here.new) }
    {
        let child = self.child(instance, here, place, left);
        let spot = self.settle(instance, child, left)?;
        levels.push(*here)?;
        self.enter(instance, spot, left, here)
    }
}
