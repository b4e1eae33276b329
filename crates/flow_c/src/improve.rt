//! Better sequences.

ghost use Rattle.std.specs.Prelude.{length};
ghost use Rattle.flow_c.specs.Faults.{improve_fault};
ghost use Rattle.flow_c.specs.Reached.{Finds, GivesReached};

use crate::effort::EffortNumbers;
use crate::fault::Fault;
use crate::outcome::Outcome;
use crate::reached::ReachedRoom;
use crate::room::need;
use crate::shop::ShopNumbers;
use flow_improve::{Reached, improve};
use flow_shop::Sequence;
use std::alloc::Global;

/// A sequence of the instance of these numbers that is no worse than the start, where there is room for it.
fn improve_numbers(
    alloc: Global,
    shop: &ShopNumbers,
    start: &[u16],
    effort: &EffortNumbers,
    entries: usize,
) -> Result<Reached, Fault>
    ensures { Finds shop.now start.now (improve_fault shop.now start.now effort.now entries) entries result }
{
    let instance = shop.instance(alloc)?;
    let start = Sequence::new(alloc, &instance, start)?;
    let effort = effort.effort()?;
    need(shop.jobs as usize, entries)?;
    Ok(improve(alloc, &instance, &start, &effort)?)
}

/// A sequence whose makespan is at most that of the starting sequence, and its makespan: by a two-ended beam search,
/// and then by rounds of iterated greedy search. The first entries of the room become the jobs.
#[unsafe(no_mangle)]
pub extern "C" fn flowshop_improve(
    alloc: Global,
    shop: &ShopNumbers,
    start: &[u16],
    effort: &EffortNumbers,
    reached: &mut ReachedRoom,
) -> Outcome
    ensures { GivesReached shop.now start.now
        (improve_fault shop.now start.now effort.now (length reached.old.sequence.now)) reached.old reached.new result }
{
    let found = improve_numbers(alloc, shop, start, effort, reached.sequence.len());
    reached.answer(found)
}
