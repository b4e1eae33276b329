//! The bounds of the children of a node, at both ends.

ghost use Rattle.std.specs.Prelude.{◌≡◌, ◌≢◌, ℕ, ◌+◌, ◌*◌, ◌/◌, ◌-◌, ◌<◌, ◌≤◌, true, false, All};
ghost use Rattle.std.specs.Prelude.{length, slice_index, slice_index_or};
ghost use Rattle.flow_limits.specs.Limits.{most_jobs};
ghost use Rattle.flow_nodes.specs.Vectors.{capped, HasLane};
ghost use Rattle.flow_nodes.specs.Groups.{AreGroups, child_bound};
ghost use Rattle.flow_improve.specs.internal.Beams.{HasBounds, IsEntry, first_of, job_at, last_of};
ghost use Rattle.flow_improve.specs.internal.Opens.{bound_sum, count_below, plain_end};

use crate::two_ended::entry::Entry;
use flow_limits::MAX_JOBS;
use flow_nodes::{LANES, Vector, fewer_below, greater_sum};
use flow_shop::{End, Instance};

/// How many groups of jobs there are at most.
const GROUPS: usize = MAX_JOBS / LANES;

/// The groups in which one of these jobs stands.
fn groups_of(jobs: &[u16]) -> [bool; GROUPS]
    requires { All (λ job. (1 ≤ job) × (job ≤ most_jobs)) jobs.now }
    ensures count { length result ≡ 50 }
    ensures each { (place : ℕ) → place < length jobs.now →
        slice_index_or result ((slice_index jobs.now place - 1) / 16) false ≡ true }
{
    let mut groups = [false; GROUPS];
    for place in 0..jobs.len() {
        groups[(usize::from(jobs[place]) - 1) / LANES] = true;
    }
    groups
}

/// Writes the numbers of a group.
fn write_lanes<V: Vector>(numbers: &mut [u32; MAX_JOBS], group: usize, lanes: V)
    requires wide { V.WIDTH ≡ 16 }
    requires group { group < 50 }
    ensures count { length numbers.new ≡ most_jobs }
    ensures here { (lane value : ℕ) → lane < 16 → HasLane V.CAP V.WIDTH (V.list lanes) lane value →
        slice_index numbers.new (group * 16 + lane) ≡ capped V.CAP value }
    ensures others { (place : ℕ) → place / 16 ≢ group → slice_index numbers.new place ≡ slice_index numbers.old place }
{
    let from = group * LANES;
    for lane in 0..LANES {
        numbers[from + lane] = lanes.at(lane);
    }
}

/// What the plain rule compares of the children at an end.
#[derive(Clone, Copy)]
struct Totals {
    /// How many of them are below a threshold.
    below: u32,
    /// The sum of their bounds.
    sum: u64,
}

/// The bounds of the children of a node, by their jobs: a number of the cap or more stands as the cap.
#[derive(Drop)]
pub(crate) struct ChildBounds {
    cap: u32,
    front: [u32; MAX_JOBS],
    back: [u32; MAX_JOBS],
}

impl ChildBounds {
    /// Room for bounds up to a cap.
    pub(crate) fn new(cap: u32) -> ChildBounds
        ensures { result.cap ≡ cap }
    {
        ChildBounds {
            cap,
            front: [0; MAX_JOBS],
            back: [0; MAX_JOBS],
        }
    }

    /// Computes the bounds of all children of a node.
    pub(crate) fn fill<V: Vector>(&mut self, instance: &Instance, groups: &[Vec<V>], entry: &Entry)
        requires wide { V.WIDTH ≡ 16 }
        requires cap { self.old.cap ≡ V.CAP }
        requires groups { AreGroups V.list V.CAP V.WIDTH instance.now groups.now }
        requires entry { IsEntry instance.now entry.now }
        ensures cap { self.new.cap ≡ self.old.cap }
        ensures bounds { HasBounds instance.now entry.now self.new }
    {
        let used = groups_of(&entry.jobs[entry.first..entry.before]);
        for group in 0..groups.len() {
            if used[group] {
                let times = groups[group].as_slice();
                let fronts = entry.node.child_bounds(End::Front, times);
                let backs = entry.node.child_bounds(End::Back, times);
                write_lanes(&mut self.front, group, fronts);
                write_lanes(&mut self.back, group, backs);
            }
        }
    }

    /// The bound of the child that puts the job left at a place at an end.
    pub(crate) fn at(&self, instance: &Instance, entry: &Entry, end: End, place: usize) -> u32
        requires entry { IsEntry instance.now entry.now }
        requires bounds { HasBounds instance.now entry.now self.now }
        requires from { entry.now.first ≤ place }
        requires before { place < entry.now.before }
        ensures { result ≡
            child_bound instance.now end (first_of entry.now) (last_of entry.now) (job_at entry.now place) }
    {
        let job = entry.jobs[place];
        let bounds = match end {
            End::Front => &self.front,
            End::Back => &self.back,
        };
        let lane = bounds[usize::from(job) - 1];
        entry
            .node
            .bound_from_lane(instance, end, job, lane, self.cap)
    }

    /// How many children at an end are below a threshold, and the sum of the bounds of all of them.
    fn totals(&self, instance: &Instance, entry: &Entry, end: End, threshold: u64) -> Totals
        requires entry { IsEntry instance.now entry.now }
        requires bounds { HasBounds instance.now entry.now self.now }
        ensures below { result.below ≡ count_below instance.now entry.now end threshold }
        ensures sum { result.sum ≡ bound_sum instance.now entry.now end }
    {
        let mut below = 0;
        let mut sum = 0;
        for place in entry.first..entry.before {
            let bound = u64::from(self.at(instance, entry, end, place));
            if bound < threshold {
                below += 1;
            }
            sum += bound;
        }
        Totals { below, sum }
    }

    /// The end where fewer children are below a threshold; where as many are, the end whose bounds sum to more; and the
    /// front where these sums are equal too.
    pub(crate) fn plain_end(&self, instance: &Instance, entry: &Entry, threshold: u64) -> End
        requires entry { IsEntry instance.now entry.now }
        requires bounds { HasBounds instance.now entry.now self.now }
        ensures { result ≡ plain_end instance.now entry.now threshold }
    {
        let front = self.totals(instance, entry, End::Front, threshold);
        let back = self.totals(instance, entry, End::Back, threshold);
        match fewer_below(front.below, back.below) {
            Some(end) => end,
            None => greater_sum(front.sum, back.sum),
        }
    }
}
