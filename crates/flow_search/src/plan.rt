//! Plans: an instance, its starting sequence, the options, and the prefixes into which the search is divided.

ghost use Rattle.std.specs.Prelude.{◌≡◌, ◌<◌, None, Some, length, IfOk, OnOk, IfErr};
ghost use Rattle.flow_shop.specs.Rows.{AreRows};
ghost use Rattle.flow_shop.specs.Paths.{span};
ghost use Rattle.flow_shop.specs.Sequences.{AreJobs, IsSequence, cut};
ghost use Rattle.flow_bound.specs.Neh.{IsNeh};
ghost use Rattle.flow_search.specs.Plans.{IsPlan, prefixes_of, prefix_of, plan_fault, but_memory};
ghost use Rattle.flow_search.specs.declared.plan.PlanFault.TheVariants.{Memory};

use crate::cut_lists::{extend, prefix_count};
use crate::options::Options;
use flow_bound::neh;
use flow_shop::{Instance, Row, Sequence, makespan, rows};
use std::alloc::{AllocError, AllocFailed, Global};
use std::marker::Model;
use thiserror::Error;

/// Why there is no plan, in the order of the tests.
#[derive(Clone, Copy, Debug, PartialEq, Eq, Error)]
pub enum PlanFault {
    /// The depth is above the number of jobs.
    #[error("Depth")]
    Depth,
    /// There are more than `MAX_PREFIXES` prefixes.
    #[error("Prefixes")]
    Prefixes,
    /// Memory ran out.
    #[error("Memory")]
    Memory,
}

impl From<AllocError> for PlanFault {
    ghost from_gives = { λ _ fault. fault ≡ Memory };

    fn from(_error: AllocError) -> PlanFault {
        PlanFault::Memory
    }
}

impl<T: Drop> From<AllocFailed<T>> for PlanFault {
    ghost from_gives = { λ _ fault. fault ≡ Memory };

    fn from(_error: AllocFailed<T>) -> PlanFault {
        PlanFault::Memory
    }
}

/// An instance with its starting sequence, the options of the search, and the prefixes of the cut.
#[derive(Debug, Drop)]
pub struct Plan<'a> {
    instance: &'a Instance,
    options: Options,
    start: Sequence,
    start_value: u64,
    /// How many prefixes there are.
    count: u32,
    /// The jobs of the prefixes, one prefix after another.
    lists: Vec<u16>,
    /// The times and tails of the jobs, which every search uses.
    rows: Vec<Row>,
}

impl<'a> Model for Plan<'a> {
    ghost use Rattle.flow_search.specs.Plans.{Planned};
    ghost use Rattle.flow_search.specs.internal.Stored.{IsStored};

    ghost Value = { Planned };

    ghost view = { λ p. record {
      shop = p.instance.now;
      start = record { value = p.start_value; sequence = p.start };
      options = p.options;
    } };

    ghost invariant = { λ p. IsStored (record {
      shop = p.instance.now;
      start = record { value = p.start_value; sequence = p.start };
      options = p.options;
    }) p.count p.lists.items p.rows.items };
}

impl<'a> Plan<'a> {
    /// The instance.
    pub fn instance(&self) -> &Instance
        ensures value { result.now ≡ self.now.shop }
        ensures plan { IsPlan self.now }
    {
        self.instance
    }

    /// The options.
    pub fn options(&self) -> Options
        ensures value { result ≡ self.now.options }
        ensures plan { IsPlan self.now }
    {
        self.options
    }

    /// How many prefixes there are.
    pub fn prefixes(&self) -> u32
        ensures value { result ≡ length (prefixes_of self.now) }
        ensures plan { IsPlan self.now }
    {
        self.count
    }

    /// The prefix of a number, counted from 0.
    pub fn prefix(&self, number: u32) -> &[u16]
        requires { number < length (prefixes_of self.now) }
        ensures value { result.now ≡ prefix_of self.now number }
        ensures jobs { AreJobs self.now.shop.jobs result.now }
        ensures size { length result.now ≡ self.now.options.depth }
        ensures plan { IsPlan self.now }
    {
        let depth = self.options.depth() as usize;
        let from = number as usize * depth;
        &self.lists[from..from + depth]
    }

    /// The times and tails of the jobs, that of job 1 first.
    pub(crate) fn rows(&self) -> &[Row]
        ensures { AreRows self.now.shop result.now }
    {
        &self.rows
    }

    /// The starting sequence.
    pub fn start(&self) -> &Sequence
        ensures value { result.now ≡ self.now.start.sequence }
        ensures plan { IsPlan self.now }
    {
        &self.start
    }

    /// The makespan of the starting sequence.
    pub fn start_value(&self) -> u64
        ensures value { result ≡ self.now.start.value }
        ensures plan { IsPlan self.now }
    {
        self.start_value
    }
}

/// How many prefixes the plan of an instance and options has; or its first fault.
fn count_of(instance: &Instance, options: Options) -> Result<u32, PlanFault>
    ensures count { IfOk result (λ count. count ≡ length (cut instance.now.jobs options.depth)) }
    ensures accepted { OnOk result (plan_fault instance.now options ≡ None) }
    ensures refused { IfErr result (λ fault. plan_fault instance.now options ≡ Some fault) }
{
    let jobs = instance.jobs();
    let depth = options.depth();
    if depth > u32::from(jobs) {
        return Err(PlanFault::Depth);
    }
    prefix_count(jobs, depth).ok_or(PlanFault::Prefixes)
}

/// The plan of an instance and options that have no fault, from a sequence with its makespan; `count` says how many
/// prefixes it has.
fn plan_from<'a>(
    alloc: Global,
    instance: &'a Instance,
    options: Options,
    count: u32,
    start: Sequence,
    start_value: u64,
) -> Result<Plan<'a>, AllocError>
    requires accepted { plan_fault instance.now options ≡ None }
    requires count { count ≡ length (cut instance.now.jobs options.depth) }
    requires is_sequence { IsSequence instance.now.jobs start }
    requires is_span { start_value ≡ span instance.now start }
    ensures shop { IfOk result (λ plan. plan.shop ≡ instance.now) }
    ensures options { IfOk result (λ plan. plan.options ≡ options) }
    ensures start { IfOk result (λ plan. plan.start.sequence ≡ start) }
    ensures plan { IfOk result (λ plan. IsPlan plan) }
{
    let depth = options.depth();
    let mut list = Vec::with_capacity(alloc, depth as usize)?;
    let mut lists = Vec::with_capacity(alloc, count as usize * depth as usize)?;
    extend(instance.jobs(), depth, &mut list, &mut lists)?;
    let rows = rows(alloc, instance)?;
    Ok(Plan {
        instance,
        options,
        start,
        start_value,
        count,
        lists,
        rows,
    })
}

/// The plan of an instance and options, from the starting sequence of Nawaz, Enscore and Ham; or the first fault; or
/// `Memory`.
pub fn prepare<'a>(
    alloc: Global,
    instance: &'a Instance,
    options: Options,
) -> Result<Plan<'a>, PlanFault>
    ensures shop { IfOk result (λ plan. plan.shop ≡ instance.now) }
    ensures options { IfOk result (λ plan. plan.options ≡ options) }
    ensures start { IfOk result (λ plan. IsNeh plan.shop plan.start.sequence) }
    ensures plan { IfOk result (λ plan. IsPlan plan) }
    ensures accepted { OnOk result (plan_fault instance.now options ≡ None) }
    ensures refused { IfErr result (λ fault. plan_fault instance.now options ≡ but_memory fault) }
{
    let count = count_of(instance, options)?;
    let (start, start_value) = neh(alloc, instance)?;
    Ok(plan_from(alloc, instance, options, count, start, start_value)?)
}

/// The plan of an instance and options, from a sequence of the instance; or the first fault; or `Memory`.
pub fn prepare_from<'a>(
    alloc: Global,
    instance: &'a Instance,
    start: Sequence,
    options: Options,
) -> Result<Plan<'a>, PlanFault>
    requires { IsSequence instance.now.jobs start }
    ensures shop { IfOk result (λ plan. plan.shop ≡ instance.now) }
    ensures options { IfOk result (λ plan. plan.options ≡ options) }
    ensures start { IfOk result (λ plan. plan.start.sequence ≡ start) }
    ensures plan { IfOk result (λ plan. IsPlan plan) }
    ensures accepted { OnOk result (plan_fault instance.now options ≡ None) }
    ensures refused { IfErr result (λ fault. plan_fault instance.now options ≡ but_memory fault) }
{
    let count = count_of(instance, options)?;
    let start_value = makespan(instance, &start);
    Ok(plan_from(alloc, instance, options, count, start, start_value)?)
}
