//! The first node of a subtree with at most eight jobs left.

ghost use Rattle.std.specs.Prelude.{◌≡◌, ℕ, ◌<◌, ◌≤◌, List, length, slice_index, sum_by};
ghost use Rattle.flow_limits.specs.Limits.{greatest_time};
ghost use Rattle.flow_shop.specs.Shop.{time};
ghost use Rattle.flow_search.specs.internal.Columns.{AreJobsOf, IsFew, IsFrameOf, most_columns};
ghost use Rattle.flow_search.specs.declared.few_left.group.TheConstants.{GONE};

use crate::few_left::group::{COLUMNS, ColumnFrame, GONE, Group, MachineRow};
use crate::few_left::vectors::sums;
use flow_shop::{Front, Instance};

/// The times of some jobs on a machine, each in its column; 0 in the other columns.
fn times_of(instance: &Instance, jobs: &[u16], machine: u16) -> [u32; COLUMNS]
    requires few { length jobs.now ≤ most_columns }
    requires jobs { AreJobsOf instance.now jobs.now }
    requires from { 1 ≤ machine }
    requires to { machine ≤ instance.now.machines }
    ensures size { length result ≡ most_columns }
    ensures each { (column : ℕ) → column < length jobs.now →
        slice_index result column ≡ time instance.now (slice_index jobs.now column) machine }
    ensures small { (column : ℕ) → column < most_columns → slice_index result column ≤ greatest_time }
{
    let mut made = [0u32; COLUMNS];
    for column in 0..jobs.len() {
        made[column] = instance.time(jobs[column], machine);
    }
    made
}

/// The sum of the times of some jobs on a machine.
fn load(instance: &Instance, jobs: &[u16], machine: u16) -> u32
    requires few { length jobs.now ≤ most_columns }
    requires jobs { AreJobsOf instance.now jobs.now }
    requires from { 1 ≤ machine }
    requires to { machine ≤ instance.now.machines }
    ensures value { result ≡ sum_by (λ job. time instance.now job machine) jobs.now }
{
    let mut total = 0u32;
    for column in 0..jobs.len() {
        total += instance.time(jobs[column], machine);
    }
    total
}

/// Some jobs, each in its column.
fn in_columns(jobs: &[u16]) -> [u16; COLUMNS]
    requires few { length jobs.now ≤ most_columns }
    ensures { (column : ℕ) → column < length jobs.now → slice_index result column ≡ slice_index jobs.now column }
{
    let mut made = [0u16; COLUMNS];
    for column in 0..jobs.len() {
        made[column] = jobs[column];
    }
    made
}

/// What marks the columns from a number on.
fn gone_from(count: usize) -> [u32; COLUMNS]
    ensures left { (column : ℕ) → column < most_columns → column < count → slice_index result column ≡ 0 }
    ensures gone { (column : ℕ) → column < most_columns → count ≤ column → slice_index result column ≡ GONE }
{
    let mut made = [0u32; COLUMNS];
    for column in 0..COLUMNS {
        made[column] = if column < count { 0 } else { GONE };
    }
    made
}

/// Puts the jobs that are left, in increasing order, into the columns of a group, and makes the first node.
pub fn enter_few(
    instance: &Instance,
    front: &Front,
    jobs: &[u16],
    group: &mut Group,
    frame: &mut ColumnFrame,
)
    requires { (list : List ℕ) × IsFew instance.now list front.now jobs.now }
    ensures at { (list : List ℕ) → IsFew instance.now list front.now jobs.now →
        IsFrameOf instance.now list group.new frame.new }
    ensures next { frame.new.next ≡ 0 }
{
    let mut machine = instance.machines();
    let mut behind = [0u32; COLUMNS];
    while machine > 0 {
        let place = machine as usize - 1;
        let time = times_of(instance, jobs, machine);
        group.rows[place] = MachineRow { time, tail: behind };
        frame.front[place] = front.at(machine) as u32;
        frame.sum[place] = load(instance, jobs, machine);
        behind = sums(&behind, &time);
        machine -= 1;
    }
    group.jobs = in_columns(jobs);
    frame.gone = gone_from(jobs.len());
    frame.columns = [0, 1, 2, 3, 4, 5, 6, 7];
    frame.next = 0;
}
