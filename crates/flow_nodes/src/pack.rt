//! Packs: the times of jobs side by side, sixteen to a group, and the names of the jobs.

ghost use Rattle.std.specs.Prelude.{◌≡◌, ◌<◌, ◌≤◌, ◌*◌, ℕ, [], length, take, drop, slice_index, slice_index_or, IfOk};
ghost use Rattle.std.specs.Global.{Vec};
ghost use Rattle.flow_shop.specs.Rows.{AreRows};
ghost use Rattle.flow_shop.specs.Sequences.{jobs_left};
ghost use Rattle.flow_nodes.specs.Nodes.{IsJob};
ghost use Rattle.flow_nodes.specs.Groups.{IsGroup};
ghost use Rattle.flow_nodes.specs.Packs.{AreBytes, HasByteRoom, HasRoom, IsPack, jobs_at};

use crate::group::{LANES, turn_group};
use crate::marks::Marks;
use crate::opener::FEW_GROUPS;
use crate::vector::Vector;
use flow_shop::{Instance, Row};
use std::alloc::{AllocError, Global};
use std::simd::prelude::*;

/// Groups of sixteen jobs.
#[derive(Drop)]
pub struct Pack<V> {
    /// For each group and machine a vector of times.
    pub groups: Vec<Vec<V>>,
    /// The jobs, sixteen for each group. A job may have several places.
    pub names: Vec<u16>,
    /// The times of the first groups once more, in bytes, or of none.
    pub(crate) bytes: Vec<Vec<u8x16>>,
}

/// Writes the group of sixteen jobs in bytes, where there is a vector for each machine.
fn turn_bytes(instance: &Instance, rows: &[Row], jobs: &[u16], group: &mut [u8x16])
    requires rows { AreRows instance.now rows.now }
    requires jobs { length jobs.now ≡ 16 }
    requires each { (lane : ℕ) → lane < 16 → IsJob instance.now (slice_index jobs.now lane) }
    ensures size { length group.new ≡ length group.old }
    ensures group { length group.old ≡ instance.now.machines →
        IsGroup (λ lanes. lanes) 255 16 instance.now jobs.now group.new }
{
    if group.len() == instance.machines() as usize {
        turn_group(instance, rows, jobs, group);
    }
}

impl<V: Vector> Pack<V> {
    /// A pack with room for so many groups.
    pub fn new(alloc: Global, instance: &Instance, count: usize) -> Result<Pack<V>, AllocError>
        requires { count ≤ 50 }
        ensures room { IfOk result (λ pack. HasRoom instance.now pack) }
        ensures count { IfOk result (λ pack. length pack.groups.items ≡ count) }
        ensures bytes { IfOk result (λ pack. HasByteRoom instance.now pack) }
    {
        let machines = instance.machines() as usize;
        let names = vec![in alloc; 1; count * LANES]?;
        let mut groups = Vec::with_capacity(alloc, count)?;
        'groups: while groups.len() < count {
            groups.push(vec![in alloc; V::all(0); machines]?)?;
        }
        Ok(Pack {
            groups,
            names,
            bytes: Vec::new(alloc),
        })
    }

    /// A pack with room for so many groups; and where they are not few, for their times in bytes.
    pub fn with_bytes(
        alloc: Global,
        instance: &Instance,
        count: usize,
    ) -> Result<Pack<V>, AllocError>
        requires { count ≤ 50 }
        ensures room { IfOk result (λ pack. HasRoom instance.now pack) }
        ensures count { IfOk result (λ pack. length pack.groups.items ≡ count) }
        ensures bytes { IfOk result (λ pack. HasByteRoom instance.now pack) }
    {
        let machines = instance.machines() as usize;
        let wanted = if count > FEW_GROUPS { count } else { 0 };
        let mut bytes = Vec::with_capacity(alloc, wanted)?;
        'groups: while bytes.len() < wanted {
            bytes.push(vec![in alloc; u8x16::splat(0); machines]?)?;
        }
        let Pack { groups, names, .. } = Pack::new(alloc, instance, count)?;
        Ok(Pack {
            groups,
            names,
            bytes,
        })
    }

    /// Writes the times of the jobs named.
    pub fn load(&mut self, instance: &Instance, rows: &[Row])
        requires wide { V.WIDTH ≡ 16 }
        requires rows { AreRows instance.now rows.now }
        requires room { HasRoom instance.now self.old }
        ensures pack { IsPack V.list V.CAP V.WIDTH instance.now self.new }
        ensures names { self.new.names ≡ self.old.names }
        ensures count { length self.new.groups.items ≡ length self.old.groups.items }
        ensures bytes { HasByteRoom instance.now self.old → AreBytes instance.now self.new }
    {
        self.load_groups(instance, rows);
        self.load_bytes(instance, rows);
    }

    /// Writes the times of the jobs named in bytes, as far as there is room.
    fn load_bytes(&mut self, instance: &Instance, rows: &[Row])
        requires rows { AreRows instance.now rows.now }
        requires room { HasRoom instance.now self.old }
        ensures groups { self.new.groups ≡ self.old.groups }
        ensures names { self.new.names ≡ self.old.names }
        ensures bytes { HasByteRoom instance.now self.old → AreBytes instance.now self.new }
    {
        let count = self.bytes.len().min(self.groups.len());
        for group in 0..count {
            let from = group * LANES;
            let names = &self.names[from..from + LANES];
            turn_bytes(instance, rows, names, self.bytes[group].as_mut_slice());
        }
    }

    /// Writes the times of the jobs named in the lanes of the groups.
    fn load_groups(&mut self, instance: &Instance, rows: &[Row])
        requires wide { V.WIDTH ≡ 16 }
        requires rows { AreRows instance.now rows.now }
        requires room { HasRoom instance.now self.old }
        ensures pack { IsPack V.list V.CAP V.WIDTH instance.now self.new }
        ensures names { self.new.names ≡ self.old.names }
        ensures count { length self.new.groups.items ≡ length self.old.groups.items }
        ensures bytes { self.new.bytes ≡ self.old.bytes }
    {
        for group in 0..self.groups.len() {
            let from = group * LANES;
            let names = &self.names[from..from + LANES];
            turn_group(instance, rows, names, self.groups[group].as_mut_slice());
        }
    }

    /// Fills the pack with the jobs that another one has at marked places, in order.
    pub fn fill(&mut self, instance: &Instance, rows: &[Row], from: &Pack<V>, marks: &Marks)
        requires wide { V.WIDTH ≡ 16 }
        requires rows { AreRows instance.now rows.now }
        requires room { HasRoom instance.now self.old }
        requires from { HasRoom instance.now from.now }
        requires fits { length (jobs_at from.now marks.now) ≤ length self.old.names.items }
        ensures pack { IsPack V.list V.CAP V.WIDTH instance.now self.new }
        ensures count { length self.new.groups.items ≡ length self.old.groups.items }
        ensures jobs { take (length (jobs_at from.now marks.now)) self.new.names.items ≡ jobs_at from.now marks.now }
        ensures bytes { HasByteRoom instance.now self.old → AreBytes instance.now self.new }
    {
        let mut rest = *marks;
        let mut count = 0;
        let mut next = 0;
        'places: while let Some(place) = rest.pop_from(next, from.groups.len()) {
            self.names[count] = from.names[place];
            count += 1;
            next = place + 1;
        }
        self.load(instance, rows);
    }

    /// Fills the pack with all jobs of an instance, in increasing order.
    pub fn fill_all(&mut self, instance: &Instance, rows: &[Row])
        requires wide { V.WIDTH ≡ 16 }
        requires rows { AreRows instance.now rows.now }
        requires room { HasRoom instance.now self.old }
        requires fits { instance.now.jobs ≤ length self.old.names.items }
        ensures pack { IsPack V.list V.CAP V.WIDTH instance.now self.new }
        ensures count { length self.new.groups.items ≡ length self.old.groups.items }
        ensures jobs { take instance.now.jobs self.new.names.items ≡ jobs_left instance.now.jobs [] }
        ensures bytes { HasByteRoom instance.now self.old → AreBytes instance.now self.new }
    {
        for job in 1..instance.jobs() + 1 {
            self.names[job as usize - 1] = job;
        }
        self.load(instance, rows);
    }
}
