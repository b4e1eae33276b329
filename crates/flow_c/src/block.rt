//! The block of a benchmark text that an index names.

ghost use Rattle.std.specs.Prelude.{◌≡◌, ◌⊎◌, ◌*◌, ◌≤◌, IfOk, IfErr, length, drop};
ghost use Rattle.flow_shop.specs.Shop.{IsWithinLimits};
ghost use Rattle.flow_text.specs.Picks.{HasBlock};
ghost use Rattle.flow_c.specs.Statuses.{number, done, memory};
ghost use Rattle.flow_c.specs.Blocks.{IsBlockFault, ReportsBlock, block_in};
ghost use Rattle.flow_c.specs.Rooms.{IsSameRoom};

use crate::fault::Fault;
use crate::outcome::Outcome;
use crate::room::{fill, need};
use flow_text::{Block, Pick, pick_block};
use std::alloc::Global;

/// Room for the times of a block, and what it states.
#[repr(C)]
pub struct BlockRoom<'a> {
    /// How many jobs there are.
    pub jobs: u32,
    /// How many machines there are.
    pub machines: u32,
    /// Room for the times, machine by machine.
    pub times: &'a mut [u32],
    /// The seed.
    pub seed: u32,
    /// The upper bound.
    pub upper: u32,
    /// The lower bound.
    pub lower: u32,
}

/// The block of a text that an index names, and its times, where there is room for them.
fn times_of_block(
    alloc: Global,
    text: &[u8],
    index: u32,
    entries: usize,
) -> Result<(Block, Vec<u32>), Fault>
    ensures named { IfOk result (λ found. HasBlock text.now index found.0) }
    ensures times { IfOk result (λ found. found.1.items ≡ found.0.instance.times) }
    ensures limits { IfOk result (λ found. IsWithinLimits found.0.instance) }
    ensures enough { IfOk result (λ found. length found.1.items ≤ entries) }
    ensures refused { IfErr result (λ fault. (number fault ≡ memory) ⊎ IsBlockFault text.now index entries fault) }
{
    let Pick { block, .. } = pick_block(alloc, text, index)?;
    let count = usize::from(block.instance.jobs()) * usize::from(block.instance.machines());
    need(count, entries)?;
    let times = block.instance.times(alloc)?;
    Ok((block, times))
}

/// The block of a benchmark text that an index names, counted from 1: its jobs and machines, its times, and the seed
/// and the bounds that the text states. The times become the first entries of their room, machine by machine.
#[unsafe(no_mangle)]
pub extern "C" fn flowshop_block(
    alloc: Global,
    text: &[u8],
    index: u32,
    block: &mut BlockRoom,
) -> Outcome
    ensures status { ReportsBlock text.now index (length block.old.times.now) result }
    ensures block { result.status ≡ done → HasBlock text.now index (block_in block.new) }
    ensures rest { drop (block.new.jobs * block.new.machines) block.new.times.now
        ≡ drop (block.new.jobs * block.new.machines) block.old.times.now }
    ensures room { IsSameRoom block.new.times block.old.times }
    ensures stays { result.status ≡ done → result.place ≡ 0 }
    ensures kept { (result.status ≡ done) ⊎ (block.new ≡ block.old) }
{
    match times_of_block(alloc, text, index, block.times.len()) {
        Ok((found, times)) => {
            fill(times.as_slice(), block.times);
            block.jobs = u32::from(found.instance.jobs());
            block.machines = u32::from(found.instance.machines());
            block.seed = found.seed;
            block.upper = found.upper;
            block.lower = found.lower;
            Outcome::done()
        }
        Err(fault) => Outcome::refused(fault),
    }
}
