//! The block of a benchmark text that an index names.

ghost use Rattle.std.specs.Prelude.{◌≡◌, ◌⊎◌, IfOk, IfErr, Err};
ghost use Rattle.flow_commands.specs.internal.Devices.{NamesNoDevice};
ghost use Rattle.flow_commands.specs.Block.{IsPicked, Picks};
ghost use Rattle.flow_commands.specs.internal.Picked.{origin_of};

use crate::refusals::CommandFault;
use flow_core::{Block, Pick, pick_block};
use std::alloc::Global;

/// A block that an index names, and the text that it is from.
#[derive(Drop)]
pub(crate) struct PickedBlock {
    /// The text.
    pub(crate) text: Vec<u8>,
    /// Its number in the text, from 1.
    pub(crate) index: u32,
    /// How many blocks the text has.
    pub(crate) count: usize,
    /// The block.
    pub(crate) block: Block,
}

/// The block of a text that the index names. Blocks are counted from 1.
pub(crate) fn block_at(
    alloc: Global,
    text: Vec<u8>,
    index: u32,
) -> Result<PickedBlock, CommandFault>
    ensures picked { IfOk result (λ picked. IsPicked text.items index (origin_of picked)) }
    ensures refused { IfErr result (λ fault. (fault ≡ CommandFault.Memory) ⊎ Picks text.items index (Err fault)) }
    ensures device { NamesNoDevice result }
{
    let Pick { block, count } = pick_block(alloc, text.as_slice(), index)?;
    Ok(PickedBlock {
        text,
        index,
        count,
        block,
    })
}
