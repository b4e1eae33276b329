//! The two-ended beam search: sequences built from both ends at once.

ghost use Rattle.std.specs.Prelude.{◌≡◌, ◌-◌, ◌^◌, ◌<◌, ◌≤◌, ◌↔◌, true, false, cond, length};
ghost use Rattle.std.specs.Prelude.{is_some, unwrap_or, Ok, IfOk, IfSome, IfNone, IsTrue, IsFalse};
ghost use Rattle.flow_bound.specs.Taillard.{taillard_bound};
ghost use Rattle.flow_shop.specs.Paths.{span};
ghost use Rattle.flow_shop.specs.Rows.{AreRows};
ghost use Rattle.flow_shop.specs.Sequences.{IsSequence};
ghost use Rattle.flow_improve.specs.internal.Beams.{ArePasses};
ghost use Rattle.flow_improve.specs.internal.Reaches.{HasMakespan};
ghost use Rattle.flow_improve.specs.declared.two_ended.child_order.Mode.TheVariants.{Bound, Sum, Deficit};

mod best_children;
mod bounds;
mod child_order;
mod entry;
mod pass;

use crate::deadline::{Deadline, Never};
use crate::reached::Reached;
use crate::two_ended::child_order::Mode;
use crate::two_ended::pass::{PassPlan, Passes, greatest_time};
use flow_bound::taillard_bound;
use flow_nodes::{Vector, fits_narrow_lanes};
use flow_shop::{Instance, Row, Sequence, rows};
use std::alloc::{AllocError, Global};
use std::simd::prelude::*;

/// How far a beam search goes.
#[derive(Clone, Copy, Debug)]
pub struct BeamLimits {
    /// The threshold below which a sequence is sought, if there is one.
    pub below: Option<u64>,
    /// The greatest width of a pass.
    pub width: u32,
    /// The most steps of all passes.
    pub work: u64,
}

/// When a search ends.
#[derive(Clone, Copy)]
struct Limits<'a, D> {
    /// Taillard's lower bound.
    least: u64,
    /// The number that is aimed at: no child is kept whose bound is not below it, and a sequence below it ends the
    /// search.
    aim: Option<u64>,
    /// The greatest width of a pass.
    width: u32,
    /// The most steps of a pass of width 1. One of another width has as many for each unit of its width.
    steps_by_width: u64,
    /// The most steps of all passes.
    work: u64,
    deadline: &'a D,
}

impl<'a, D: Deadline> Limits<'a, D> {
    /// Those of an instance.
    fn of(instance: &Instance, limits: BeamLimits, deadline: &'a D) -> Limits<'a, D>
        ensures least { result.least ≡ taillard_bound instance.now }
        ensures aim { result.aim ≡ limits.below }
        ensures width { result.width ≡ limits.width }
        ensures work { result.work ≡ limits.work }
    {
        let jobs = u64::from(instance.jobs());
        let machines = u64::from(instance.machines());
        Limits {
            least: taillard_bound(instance),
            aim: limits.below,
            width: limits.width,
            steps_by_width: jobs
                .saturating_mul(jobs.saturating_add(1))
                .saturating_mul(machines),
            work: limits.work,
            deadline,
        }
    }

    /// The most steps of a pass.
    fn steps(&self, plan: &PassPlan) -> u64 {
        self.steps_by_width.saturating_mul(u64::from(plan.width))
    }

    /// A width that no pass exceeds.
    fn widest(&self) -> usize {
        u64::from(self.width).min(self.work / self.steps_by_width.max(1)) as usize
    }

    /// Whether a sequence of this makespan is below the threshold that is aimed at.
    fn is_reached(&self, makespan: u64) -> bool
        ensures aimed { IfSome self.now.aim (λ threshold. IsTrue result ↔ makespan < threshold) }
        ensures free { IfNone self.now.aim (IsFalse result) }
    {
        self.aim.is_some_and(|threshold| makespan < threshold)
    }

    /// A pass of a width in a mode. Where a number is aimed at, all children that are kept are below it, so their
    /// bounds say little: then the deficit decides, and the mode does not matter.
    fn plan(&self, width: u32, mode: Mode, fewer: u64) -> PassPlan
        ensures { result ≡ record {
          width = width;
          mode = cond (is_some self.now.aim) Deficit mode;
          fewer = fewer;
          below = unwrap_or self.now.aim (2 ^ 64 - 1);
        } }
    {
        let mode = if self.aim.is_some() {
            Mode::Deficit
        } else {
            mode
        };
        PassPlan {
            width,
            mode,
            fewer,
            below: self.aim.unwrap_or(u64::MAX),
        }
    }

    /// The first pass of a width.
    fn first(&self, width: u32) -> PassPlan
        ensures { result ≡ record {
          width = width;
          mode = cond (is_some self.now.aim) Deficit Bound;
          fewer = unwrap_or self.now.aim 0;
          below = unwrap_or self.now.aim (2 ^ 64 - 1);
        } }
    {
        self.plan(width, Mode::Bound, self.aim.unwrap_or(0))
    }

    /// The second pass of a width.
    fn second(&self, width: u32) -> PassPlan
        ensures { result ≡ record {
          width = width;
          mode = cond (is_some self.now.aim) Deficit Sum;
          fewer = 0;
          below = unwrap_or self.now.aim (2 ^ 64 - 1);
        } }
    {
        self.plan(width, Mode::Sum, 0)
    }
}

/// Makes a pass, unless the search has ended, and takes the sequence that it comes to. Returns whether the search had
/// ended, or the pass dropped nothing. That the pass came to the aim or to Taillard's bound, or to the end of its time,
/// is seen by the next call.
fn ends_with<V: Vector, D: Deadline>(
    alloc: Global,
    instance: &Instance,
    limits: &Limits<D>,
    passes: &mut Passes<V>,
    reached: &mut Reached,
    plan: &PassPlan,
) -> Result<bool, AllocError>
    requires wide { V.WIDTH ≡ 16 }
    requires passes { ArePasses V.list V.CAP V.WIDTH instance.now passes.old }
    requires reached { HasMakespan instance.now reached.old }
    ensures passes { ArePasses V.list V.CAP V.WIDTH instance.now passes.new }
    ensures reached { HasMakespan instance.now reached.new }
    ensures least { reached.new.value ≤ reached.old.value }
    ensures bound { reached.old.value ≤ limits.now.least → (result ≡ Ok true) × (reached.new.whole ≡ true) }
    ensures open { result ≡ Ok false → reached.new.whole ≡ false }
{
    if reached.value <= limits.least {
        reached.whole = true;
        return Ok(true);
    }
    if limits.is_reached(reached.value)
        || limits.deadline.is_over()
        || passes.steps.saturating_add(limits.steps(plan)) > limits.work
    {
        return Ok(true);
    }
    let is_whole = passes.pass(instance, &plan.at_most(reached.value), limits.deadline)?;
    if let Some(jobs) = passes.least(instance) {
        reached.take(alloc, instance, jobs)?;
    }
    reached.whole = is_whole;
    Ok(is_whole)
}

/// Makes passes of the widths 1, 2, 4 and so on, two of each, until the search has ended.
fn search<V: Vector, D: Deadline>(
    alloc: Global,
    instance: &Instance,
    limits: &Limits<D>,
    passes: &mut Passes<V>,
    reached: &mut Reached,
) -> Result<(), AllocError>
    requires wide { V.WIDTH ≡ 16 }
    requires passes { ArePasses V.list V.CAP V.WIDTH instance.now passes.old }
    requires reached { HasMakespan instance.now reached.old }
    ensures reached { HasMakespan instance.now reached.new }
    ensures least { reached.new.value ≤ reached.old.value }
{
    for doublings in 0..32_u32 {
        let width = 1_u32 << doublings;
        if width > limits.width {
            break;
        }
        let first = limits.first(width);
        let second = limits.second(width);
        if ends_with(alloc, instance, limits, passes, reached, &first)?
            || ends_with(alloc, instance, limits, passes, reached, &second)?
        {
            break;
        }
    }
    Ok(())
}

/// Makes passes until the search has ended, with bounds side by side in lanes.
fn search_in<V: Vector, D: Deadline>(
    alloc: Global,
    instance: &Instance,
    limits: &Limits<D>,
    rows: Vec<Row>,
    reached: &mut Reached,
) -> Result<(), AllocError>
    requires wide { V.WIDTH ≡ 16 }
    requires rows { AreRows instance.now rows.items }
    requires reached { HasMakespan instance.now reached.old }
    ensures reached { HasMakespan instance.now reached.new }
    ensures least { reached.new.value ≤ reached.old.value }
{
    if limits.deadline.is_over() {
        return Ok(());
    }
    let mut passes = Passes::<V>::new(alloc, instance, rows, limits.widest())?;
    search(alloc, instance, limits, &mut passes, reached)
}

/// The best sequence of a search within limits, and whether the search is whole.
fn best_within<D: Deadline>(
    alloc: Global,
    instance: &Instance,
    start: &Sequence,
    limits: &Limits<D>,
) -> Result<Reached, AllocError>
    requires start { length start.now ≡ instance.now.jobs }
    ensures reached { IfOk result (HasMakespan instance.now) }
    ensures least { IfOk result (λ reached. reached.value ≤ span instance.now start.now) }
    ensures whole { IfOk result (λ reached. reached.value ≤ limits.now.least → reached.whole ≡ true) }
{
    let mut reached = Reached::new(alloc, instance, start)?;
    let rows = rows(alloc, instance)?;
    // No bound is the sum of more times than these, so each is below the threshold `above`.
    let most = u64::from(instance.jobs()) + u64::from(instance.machines());
    let above = most * u64::from(greatest_time(rows.as_slice())) + 1;
    if fits_narrow_lanes(above) {
        search_in::<u16x16, D>(alloc, instance, limits, rows, &mut reached)?;
    } else {
        search_in::<u32x16, D>(alloc, instance, limits, rows, &mut reached)?;
    }
    reached.whole = reached.whole || reached.value <= limits.least;
    Ok(reached)
}

/// The best sequence of a two-ended beam search, and its makespan, which is at most that of the start. The search makes
/// passes of the widths 1, 2, 4 and so on, up to the greatest, and none with which the steps of all passes might exceed
/// `work`. Where a sequence is sought below a threshold, no child is kept whose bound is at least that, and the search
/// ends as soon as it comes to such a sequence; where it finds none, it ends with the start. Then children are ordered
/// by the deficit, and the first pass of each width opens a node at the end where fewer of its children are below the
/// threshold. The search also ends where its time is over. It takes its memory before the first pass, but for the
/// sequences that it comes to.
pub fn beam_until<D: Deadline>(
    alloc: Global,
    instance: &Instance,
    start: &Sequence,
    limits: BeamLimits,
    deadline: &D,
) -> Result<Reached, AllocError>
    requires start { length start.now ≡ instance.now.jobs }
    ensures each { IfOk result (λ reached. IsSequence instance.now.jobs reached.sequence) }
    ensures value { IfOk result (λ reached. reached.value ≡ span instance.now reached.sequence) }
    ensures least { IfOk result (λ reached. reached.value ≤ span instance.now start.now) }
    ensures whole { IfOk result (λ reached. reached.value ≤ taillard_bound instance.now → reached.whole ≡ true) }
{
    let limits = Limits::of(instance, limits, deadline);
    best_within(alloc, instance, start, &limits)
}

/// The same with no threshold and no end of time.
pub fn beam(
    alloc: Global,
    instance: &Instance,
    start: &Sequence,
    width: u32,
    work: u64,
) -> Result<Reached, AllocError>
    requires start { length start.now ≡ instance.now.jobs }
    ensures each { IfOk result (λ reached. IsSequence instance.now.jobs reached.sequence) }
    ensures value { IfOk result (λ reached. reached.value ≡ span instance.now reached.sequence) }
    ensures least { IfOk result (λ reached. reached.value ≤ span instance.now start.now) }
    ensures whole { IfOk result (λ reached. reached.value ≤ taillard_bound instance.now → reached.whole ≡ true) }
{
    let limits = BeamLimits {
        below: None,
        width,
        work,
    };
    beam_until(alloc, instance, start, limits, &Never)
}

/// The same for a sequence below a threshold, with no end of time.
pub fn beam_below(
    alloc: Global,
    instance: &Instance,
    start: &Sequence,
    threshold: u64,
    width: u32,
    work: u64,
) -> Result<Reached, AllocError>
    requires start { length start.now ≡ instance.now.jobs }
    ensures each { IfOk result (λ reached. IsSequence instance.now.jobs reached.sequence) }
    ensures value { IfOk result (λ reached. reached.value ≡ span instance.now reached.sequence) }
    ensures least { IfOk result (λ reached. reached.value ≤ span instance.now start.now) }
    ensures whole { IfOk result (λ reached. reached.value ≤ taillard_bound instance.now → reached.whole ≡ true) }
{
    let limits = BeamLimits {
        below: Some(threshold),
        width,
        work,
    };
    beam_until(alloc, instance, start, limits, &Never)
}
