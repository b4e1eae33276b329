//! A two-ended beam search.

ghost use Rattle.std.specs.Prelude.{length};
ghost use Rattle.flow_c.specs.Faults.{beam_fault};
ghost use Rattle.flow_c.specs.Reached.{Finds, GivesReached};

use crate::fault::Fault;
use crate::outcome::Outcome;
use crate::reached::ReachedRoom;
use crate::room::need;
use crate::shop::ShopNumbers;
use flow_improve::{EffortFault, Reached, beam, beam_below};
use flow_limits::MAX_WIDTH;
use flow_shop::Sequence;
use std::alloc::Global;

/// What the caller chooses of a beam search.
#[repr(C)]
#[derive(Drop)]
pub struct BeamOptions {
    /// The number that it is aimed at: a sequence below it ends the search. It is aimed at none where this is 0.
    pub number: u64,
    /// The greatest width.
    pub width: u32,
    /// The most steps.
    pub steps: u64,
}

/// What a beam search reaches from a sequence of the instance of these numbers, where there is room for it.
fn beam_of(
    alloc: Global,
    shop: &ShopNumbers,
    start: &[u16],
    options: &BeamOptions,
    entries: usize,
) -> Result<Reached, Fault>
    ensures { Finds shop.now start.now (beam_fault shop.now start.now options.now entries) entries result }
{
    let instance = shop.instance(alloc)?;
    let start = Sequence::new(alloc, &instance, start)?;
    let &BeamOptions {
        number,
        width,
        steps,
    } = options;
    if width > MAX_WIDTH {
        return Err(Fault::Effort(EffortFault::Width));
    }
    need(shop.jobs as usize, entries)?;
    if number == 0 {
        Ok(beam(alloc, &instance, &start, width, steps)?)
    } else {
        Ok(beam_below(alloc, &instance, &start, number, width, steps)?)
    }
}

/// The best sequence of a two-ended beam search, its makespan, which is at most that of the starting sequence, and
/// whether the search was whole. Where the number is not 0, the search is aimed at it: it ends with a sequence below
/// it. The first entries of the room become the jobs.
#[unsafe(no_mangle)]
pub extern "C" fn flowshop_beam(
    alloc: Global,
    shop: &ShopNumbers,
    start: &[u16],
    options: &BeamOptions,
    reached: &mut ReachedRoom,
) -> Outcome
    ensures { GivesReached shop.now start.now
        (beam_fault shop.now start.now options.now (length reached.old.sequence.now)) reached.old reached.new result }
{
    let found = beam_of(alloc, shop, start, options, reached.sequence.len());
    reached.answer(found)
}
