//! The block of a benchmark text that an index names.

ghost use Rattle.std.specs.Prelude.{◌≡◌, ◌≢◌, IfOk, IfErr};
ghost use Rattle.flow_text.specs.Picks.{HasBlock, HasBlocks, IsPickFault};
ghost use Rattle.flow_text.specs.declared.text.fault.TextFault.TheVariants.{Memory};
ghost use Rattle.flow_text.specs.declared.text.pick.PickFault.TheVariants.{Text};

use crate::text::block::Block;
use crate::text::fault::TextFault;
use crate::text::read::read_blocks;
use std::alloc::Global;
use thiserror::Error;

/// Why an index names no block of a text.
#[derive(Clone, Copy, Debug, PartialEq, Eq, Error)]
pub enum PickFault {
    /// The text has no reading; or memory ran out.
    #[error("{0}")]
    Text(TextFault),
    /// The text has no block of this index; it has this many blocks.
    #[error("Index {0}")]
    Index(usize),
}

impl From<TextFault> for PickFault {
    ghost from_gives = { λ fault given. given ≡ Text fault };

    fn from(fault: TextFault) -> PickFault {
        PickFault::Text(fault)
    }
}

/// A block of a text, and how many blocks the text has.
#[derive(Debug, Drop)]
pub struct Pick {
    /// The block.
    pub block: Block,
    /// How many blocks the text has.
    pub count: usize,
}

/// The block of a text that an index names, counted from 1; or the text's first fault; or that it has no such block; or
/// `Memory`.
pub fn pick_block(alloc: Global, text: &[u8], index: u32) -> Result<Pick, PickFault>
    ensures named { IfOk result (λ pick. HasBlock text.now index pick.block) }
    ensures counted { IfOk result (λ pick. HasBlocks text.now pick.count) }
    ensures refused { IfErr result (λ fault. fault ≢ Text Memory → IsPickFault text.now index fault) }
{
    let mut blocks = read_blocks(alloc, text)?;
    let count = blocks.len();
    if index == 0 || index as usize > count {
        return Err(PickFault::Index(count));
    }
    let block = blocks.swap_remove(index as usize - 1);
    Ok(Pick { block, count })
}
