//! Room in which insertions are computed, and the place at which a job is put in: the earliest of those with the least
//! makespan.

ghost use Rattle.std.specs.Prelude.{◌≡◌, ℕ, ◌+◌, ◌<◌, ◌≤◌, length, insert, slice_index, vec_len, All, IfOk, false};
ghost use Rattle.flow_shop.specs.Paths.{span};
ghost use Rattle.flow_shop.specs.Sequences.{has, AreJobs};
ghost use Rattle.flow_bound.specs.Rooms.{IsRoomFor};

use crate::start::insertion::{Times, fill_tails, span_and_push, span_between};
use flow_limits::MAX_MACHINES;
use flow_shop::{Instance, Row, rows};
use std::alloc::{AllocError, Global};

/// A place in a list, counted from 0, and the makespan with a job put in there.
#[derive(Clone, Copy, Debug)]
pub struct Insertion {
    /// How many jobs stand before it.
    pub index: usize,
    /// The makespan with the job put in.
    pub makespan: u64,
}

/// What insertions are computed in: the rows of an instance, and an entry for each place of a partial sequence. It is
/// made once for many insertions.
#[derive(Drop)]
pub struct InsertionRoom {
    rows: Vec<Row>,
    tails: Vec<Times>,
    spans: Vec<u64>,
}

/// The earliest place of the least of several makespans.
fn earliest_least(spans: &[u64]) -> usize
    requires some { 0 < length spans.now }
    ensures within { result < length spans.now }
    ensures least { (place : ℕ) → place < length spans.now →
        slice_index spans.now result ≤ slice_index spans.now place }
    ensures earliest { (place : ℕ) → place < result → slice_index spans.now result < slice_index spans.now place }
{
    let mut best = 0;
    for (place, makespan) in spans.iter().enumerate() {
        if *makespan < spans[best] {
            best = place;
        }
    }
    best
}

impl InsertionRoom {
    /// The room for an instance.
    pub fn new(alloc: Global, instance: &Instance) -> Result<InsertionRoom, AllocError>
        ensures { IfOk result (IsRoomFor instance.now) }
    {
        let jobs = usize::from(instance.jobs());
        Ok(InsertionRoom {
            rows: rows(alloc, instance)?,
            tails: vec![in alloc; [0; MAX_MACHINES]; jobs]?,
            spans: vec![in alloc; 0; jobs]?,
        })
    }

    /// Writes the makespan with a job put in at each place of a partial sequence.
    fn fill_spans(&mut self, instance: &Instance, partial: &[u16], job: u16)
        requires room { IsRoomFor instance.now self.old }
        requires short { length partial.now < instance.now.jobs }
        requires jobs { All (λ job. (1 ≤ job) × (job ≤ instance.now.jobs)) partial.now }
        requires job_from { 1 ≤ job }
        requires job_to { job ≤ instance.now.jobs }
        ensures room { IsRoomFor instance.now self.new }
        ensures each { (place : ℕ) → place ≤ length partial.now →
            slice_index self.new.spans.items place ≡ span instance.now (insert partial.now place job) }
    {
        let rows = self.rows.as_slice();
        fill_tails(instance, rows, partial, self.tails.as_mut_slice());
        let tails = self.tails.as_slice();
        let spans = self.spans.as_mut_slice();
        let mut front = [0; MAX_MACHINES];
        for (index, next) in partial.iter().enumerate() {
            spans[index] = span_and_push(instance, rows, &mut front, job, &tails[index], *next);
        }
        let last = partial.len();
        spans[last] = span_between(instance, rows, &front, job, &tails[last]);
    }

    /// The earliest place at which a job put into a partial sequence gives the least makespan.
    pub fn best_place(&mut self, instance: &Instance, partial: &[u16], job: u16) -> Insertion
        requires room { IsRoomFor instance.now self.old }
        requires short { length partial.now < instance.now.jobs }
        requires jobs { All (λ job. (1 ≤ job) × (job ≤ instance.now.jobs)) partial.now }
        requires job_from { 1 ≤ job }
        requires job_to { job ≤ instance.now.jobs }
        ensures room { IsRoomFor instance.now self.new }
        ensures within { result.index ≤ length partial.now }
        ensures makespan { result.makespan ≡ span instance.now (insert partial.now result.index job) }
        ensures least { (place : ℕ) → place ≤ length partial.now →
            result.makespan ≤ span instance.now (insert partial.now place job) }
        ensures earliest { (place : ℕ) → place < result.index →
            result.makespan < span instance.now (insert partial.now place job) }
    {
        self.fill_spans(instance, partial, job);
        let spans = self.spans.as_slice();
        let index = earliest_least(&spans[..partial.len() + 1]);
        Insertion {
            index,
            makespan: spans[index],
        }
    }
}

/// The makespan of a partial sequence with a job put in at each place; entry `i`: put in behind the first `i` jobs. For
/// callers alone: `neh` calls `InsertionRoom::best_place`, which needs no memory.
pub fn insertion_spans(
    alloc: Global,
    instance: &Instance,
    partial: &[u16],
    job: u16,
) -> Result<Vec<u64>, AllocError>
    requires jobs { AreJobs instance.now.jobs partial.now }
    requires job_from { 1 ≤ job }
    requires job_to { job ≤ instance.now.jobs }
    requires other { has partial.now job ≡ false }
    ensures count { IfOk result (λ spans. vec_len spans ≡ length partial.now + 1) }
    ensures each { IfOk result (λ spans. (place : ℕ) → place ≤ length partial.now →
        slice_index spans.items place ≡ span instance.now (insert partial.now place job)) }
{
    let mut room = InsertionRoom::new(alloc, instance)?;
    room.fill_spans(instance, partial, job);
    room.spans.truncate(partial.len() + 1);
    Ok(room.spans)
}
