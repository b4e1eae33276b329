//! Groups: the times of jobs side by side, for each machine a vector with a lane for each job.

ghost use Rattle.std.specs.Prelude.{◌≡◌, ℕ, ◌+◌, ◌-◌, ◌*◌, ◌<◌, ◌≤◌, length, slice_index, slice_index_or, IfOk};
ghost use Rattle.flow_shop.specs.Shop.{time};
ghost use Rattle.flow_shop.specs.Rows.{AreRows};
ghost use Rattle.flow_nodes.specs.Vectors.{HasLane};
ghost use Rattle.flow_nodes.specs.Nodes.{IsJob, IsMachine};
ghost use Rattle.flow_nodes.specs.Groups.{AreGroups, AreNames, IsGroup, group_count, most_groups};

use crate::vector::Vector;
use flow_limits::{MAX_JOBS, MAX_MACHINES};
use flow_shop::{Instance, Row};
use std::alloc::{AllocError, Global};
use std::simd::prelude::*;

/// How many jobs stand in each group of `groups`.
pub const LANES: usize = 16;

/// How many groups the most jobs have.
pub const MAX_GROUPS: usize = (MAX_JOBS + (LANES - 1)) / LANES;

/// The most lanes.
const MOST_LANES: usize = 64;

/// How many machines are turned at once, of as many jobs at once.
const TURNED: usize = 4;

/// How many numbers sixteen jobs have on so many machines.
const BLOCK: usize = LANES * TURNED;

/// Writes the times of some jobs on a machine.
fn write_times(instance: &Instance, jobs: &[u16], machine: u16, times: &mut [u32; MOST_LANES])
    requires few { length jobs.now ≤ 64 }
    requires each { (lane : ℕ) → lane < length jobs.now → IsJob instance.now (slice_index jobs.now lane) }
    requires machine { IsMachine instance.now machine }
    ensures length { length times.new ≡ 64 }
    ensures each { (lane : ℕ) → lane < length jobs.now →
        slice_index times.new lane ≡ time instance.now (slice_index jobs.now lane) machine }
{
    for lane in 0..jobs.len() {
        times[lane] = instance.time(jobs[lane], machine);
    }
}

/// Writes the group of some jobs, one for each lane. A job may stand in several lanes.
pub fn write_group<V: Vector>(instance: &Instance, jobs: &[u16], group: &mut [V])
    requires jobs { length jobs.now ≡ V.WIDTH }
    requires each { (lane : ℕ) → lane < V.WIDTH → IsJob instance.now (slice_index jobs.now lane) }
    requires machines { length group.old ≡ instance.now.machines }
    ensures { IsGroup V.list V.CAP V.WIDTH instance.now jobs.now group.new }
{
    let machines = instance.machines();
    let mut times = [0; MOST_LANES];
    for machine in 1..machines + 1 {
        write_times(instance, jobs, machine, &mut times);
        group[machine as usize - 1] = V::load(&times[..jobs.len()]);
    }
}

/// Four times of a job, from that at a place on.
#[inline(always)]
fn four_times(instance: &Instance, rows: &[Row], job: u16, at: usize) -> u32x4
    requires rows { AreRows instance.now rows.now }
    requires job { IsJob instance.now job }
    requires at { at ≤ 22 }
    ensures size { length result ≡ 4 }
    ensures each { (place : ℕ) → place < 4 → at + place < instance.now.machines →
        slice_index result place ≡ time instance.now job (at + place + 1) }
{
    let row = &rows[job as usize - 1];
    let times = &row.times[..];
    u32x4::from_slice(&times[at..])
}

/// Writes four numbers side by side, from a place on.
#[inline(always)]
fn write_part(part: u32x4, at: usize, block: &mut [u32; BLOCK])
    requires at { at ≤ 60 }
    requires part { length part ≡ 4 }
    ensures size { length block.new ≡ 64 }
    ensures each { (each place : ℕ) → each < 4 → place ≡ at + each →
        slice_index block.new place ≡ slice_index part each }
    ensures before { (place : ℕ) → place < at → slice_index block.new place ≡ slice_index block.old place }
    ensures behind { (place : ℕ) → at + 4 ≤ place → slice_index block.new place ≡ slice_index block.old place }
{
    part.copy_to_slice(&mut block[at..at + TURNED]);
}

/// Writes four numbers of each of four jobs from a lane on, those at the same place side by side, sixteen lanes to a
/// place.
#[inline(always)]
fn turn_four(
    one: u32x4,
    two: u32x4,
    three: u32x4,
    four: u32x4,
    lane: usize,
    block: &mut [u32; BLOCK],
)
    requires lane { lane ≤ 12 }
    requires sizes { (length one ≡ 4) × (length two ≡ 4) × (length three ≡ 4) × (length four ≡ 4) }
    ensures size { length block.new ≡ 64 }
    ensures before { (place other : ℕ) → place < 4 → other < lane →
        slice_index block.new (place * 16 + other) ≡ slice_index block.old (place * 16 + other) }
    ensures one { (place : ℕ) → place < 4 → slice_index block.new (place * 16 + lane) ≡ slice_index one place }
    ensures two { (place : ℕ) → place < 4 → slice_index block.new (place * 16 + (lane + 1)) ≡ slice_index two place }
    ensures three { (place : ℕ) → place < 4 →
        slice_index block.new (place * 16 + (lane + 2)) ≡ slice_index three place }
    ensures four { (place : ℕ) → place < 4 → slice_index block.new (place * 16 + (lane + 3)) ≡ slice_index four place }
{
    let near = one.shuffle(two, [0, 4, 1, 5]);
    let far = one.shuffle(two, [2, 6, 3, 7]);
    let other_near = three.shuffle(four, [0, 4, 1, 5]);
    let other_far = three.shuffle(four, [2, 6, 3, 7]);
    write_part(near.shuffle(other_near, [0, 1, 4, 5]), lane, block);
    write_part(near.shuffle(other_near, [2, 3, 6, 7]), lane + 16, block);
    write_part(far.shuffle(other_far, [0, 1, 4, 5]), lane + 32, block);
    write_part(far.shuffle(other_far, [2, 3, 6, 7]), lane + 48, block);
}

/// Writes the times of sixteen jobs on four machines, from that at a place on: those on a machine side by side.
#[inline(always)]
fn turn_sixteen(
    instance: &Instance,
    rows: &[Row],
    jobs: &[u16],
    at: usize,
    block: &mut [u32; BLOCK],
)
    requires rows { AreRows instance.now rows.now }
    requires jobs { length jobs.now ≡ 16 }
    requires each { (lane : ℕ) → lane < 16 → IsJob instance.now (slice_index jobs.now lane) }
    requires at { at ≤ 22 }
    ensures size { length block.new ≡ 64 }
    ensures each { (place lane : ℕ) → place < 4 → lane < 16 → at + place < instance.now.machines →
        slice_index block.new (place * 16 + lane) ≡ time instance.now (slice_index jobs.now lane) (at + place + 1) }
{
    for part in 0..4 {
        let lane = part * TURNED;
        let one = four_times(instance, rows, jobs[lane], at);
        let two = four_times(instance, rows, jobs[lane + 1], at);
        let three = four_times(instance, rows, jobs[lane + 2], at);
        let four = four_times(instance, rows, jobs[lane + 3], at);
        turn_four(one, two, three, four, lane, block);
    }
}

/// Writes the vectors of four machines, from that at a place on, as far as there are so many.
#[inline(always)]
fn write_four<V: Vector>(block: &[u32; BLOCK], at: usize, group: &mut [V])
    requires wide { V.WIDTH ≡ 16 }
    requires at { at ≤ 22 }
    requires few { length group.old ≤ 26 }
    ensures size { length group.new ≡ length group.old }
    ensures before { (place : ℕ) (none : V) → place < at →
        slice_index_or group.new place none ≡ slice_index_or group.old place none }
    ensures each { (place lane : ℕ) (none : V) → at ≤ place → place < at + 4 → place < length group.old →
        lane < V.WIDTH → HasLane V.CAP V.WIDTH (V.list (slice_index_or group.new place none)) lane
        (slice_index block.now ((place - at) * 16 + lane)) }
{
    let end = (at + TURNED).min(group.len());
    for place in at..end {
        let from = (place - at) * LANES;
        group[place] = V::load(&block[from..from + LANES]);
    }
}

/// Writes the group of sixteen jobs, by their rows. A job may stand in several lanes.
pub(crate) fn turn_group<V: Vector>(
    instance: &Instance,
    rows: &[Row],
    jobs: &[u16],
    group: &mut [V],
)
    requires wide { V.WIDTH ≡ 16 }
    requires rows { AreRows instance.now rows.now }
    requires jobs { length jobs.now ≡ 16 }
    requires each { (lane : ℕ) → lane < 16 → IsJob instance.now (slice_index jobs.now lane) }
    requires machines { length group.old ≡ instance.now.machines }
    ensures { IsGroup V.list V.CAP V.WIDTH instance.now jobs.now group.new }
{
    let machines = usize::from(instance.machines());
    let mut block = [0; BLOCK];
    let mut at = 0;
    'machines: while at < machines {
        let from = at.min(MAX_MACHINES - TURNED);
        turn_sixteen(instance, rows, jobs, from, &mut block);
        write_four(&block, from, group);
        at += TURNED;
    }
}

/// The jobs of a group. The places behind the last job of the instance have that job.
fn names_of(instance: &Instance, group: usize) -> [u16; LANES]
    requires { group < most_groups }
    ensures count { length result ≡ 16 }
    ensures each { AreNames instance.now group result }
{
    let jobs = instance.jobs();
    let mut names = [0; LANES];
    for lane in 0..LANES {
        names[lane] = ((group * LANES + lane + 1) as u16).min(jobs);
    }
    names
}

/// How many groups so many jobs have.
#[inline(always)]
pub fn group_count(jobs: u16) -> usize
    ensures { result ≡ group_count jobs }
{
    (usize::from(jobs) + (LANES - 1)) / LANES
}

/// The groups of all jobs of an instance, in increasing order. The last job also stands in each lane that is left over.
pub fn groups<V: Vector>(alloc: Global, instance: &Instance) -> Result<Vec<Vec<V>>, AllocError>
    requires wide { V.WIDTH ≡ 16 }
    ensures { IfOk result (λ groups. AreGroups V.list V.CAP V.WIDTH instance.now groups.items) }
{
    let machines = usize::from(instance.machines());
    let count = group_count(instance.jobs());
    let mut groups = Vec::with_capacity(alloc, count)?;
    'groups: while groups.len() < count {
        let mut group = vec![in alloc; V::all(0); machines]?;
        let names = names_of(instance, groups.len());
        write_group(instance, &names, group.as_mut_slice());
        groups.push(group)?;
    }
    Ok(groups)
}
