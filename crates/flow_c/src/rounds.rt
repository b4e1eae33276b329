//! Rounds of iterated greedy search.

ghost use Rattle.std.specs.Prelude.{◌≡◌, nat_le, cond, length, IfOk};
ghost use Rattle.flow_bound.specs.Taillard.{taillard_bound};
ghost use Rattle.flow_c.specs.Statuses.{done};
ghost use Rattle.flow_c.specs.Faults.{rounds_fault, shop_of};
ghost use Rattle.flow_c.specs.Reached.{Finds, GivesReached};

use crate::fault::Fault;
use crate::outcome::Outcome;
use crate::reached::ReachedRoom;
use crate::room::need;
use crate::shop::ShopNumbers;
use flow_improve::{Never, Reached, RunLimits, rounds_from};
use flow_shop::Sequence;
use std::alloc::Global;

/// What the caller chooses of a run of rounds.
#[repr(C)]
#[derive(Drop)]
pub struct RoundsOptions {
    /// The most rounds.
    pub rounds: u32,
    /// The seed of the random numbers.
    pub seed: u32,
    /// How many steps end the rounds: the round that reaches them is the last.
    pub steps: u64,
}

/// What rounds reach from a sequence of the instance of these numbers, where there is room for it.
fn rounds_of(
    alloc: Global,
    shop: &ShopNumbers,
    start: &[u16],
    options: &RoundsOptions,
    entries: usize,
) -> Result<Reached, Fault>
    ensures finds { Finds shop.now start.now (rounds_fault shop.now start.now options.now entries) entries result }
    ensures whole { IfOk result (λ reached. reached.whole ≡ nat_le reached.value (taillard_bound (shop_of shop.now))) }
{
    let instance = shop.instance(alloc)?;
    let start = Sequence::new(alloc, &instance, start)?;
    let limits = RunLimits::new(options.rounds, options.seed, options.steps)?;
    need(shop.jobs as usize, entries)?;
    Ok(rounds_from(alloc, &instance, &start, &limits, &Never)?)
}

/// The best sequence of rounds of iterated greedy search, its makespan, which is at most that of the starting sequence,
/// and whether they ended with Taillard's bound. The first entries of the room become the jobs.
#[unsafe(no_mangle)]
pub extern "C" fn flowshop_rounds(
    alloc: Global,
    shop: &ShopNumbers,
    start: &[u16],
    options: &RoundsOptions,
    reached: &mut ReachedRoom,
) -> Outcome
    ensures gives { GivesReached shop.now start.now
        (rounds_fault shop.now start.now options.now (length reached.old.sequence.now)) reached.old reached.new result }
    ensures whole { result.status ≡ done →
        reached.new.whole ≡ cond (nat_le reached.new.makespan (taillard_bound (shop_of shop.now))) 1 0 }
{
    let found = rounds_of(alloc, shop, start, options, reached.sequence.len());
    reached.answer(found)
}
