//! How a whole text is read.

ghost use Rattle.std.specs.Prelude.{◌≡◌, ◌≢◌, List, None, Some, IfOk, OnOk, IfErr};
ghost use Rattle.flow_text.specs.Lines.{lines_of};
ghost use Rattle.flow_text.specs.Text.{Reads};
ghost use Rattle.flow_text.specs.TextFaults.{text_fault};
ghost use Rattle.flow_text.specs.internal.TextWalk.{walk, Gives};
ghost use Rattle.flow_text.specs.internal.TextState.{start};
ghost use Rattle.flow_text.specs.declared.text.block.Block.{Block};
ghost use Rattle.flow_text.specs.declared.text.fault.TextFault.TheVariants.{Memory};

use crate::text::block::Block;
use crate::text::fault::TextFault;
use crate::text::line::first_line;
use crate::text::line_kinds::{begin, finish, take_line};
use std::alloc::Global;

/// The blocks of a text in order; or its first fault; or `Memory`.
pub fn read_blocks(alloc: Global, text: &[u8]) -> Result<Vec<Block>, TextFault>
    ensures value { IfOk result (λ blocks. Reads text.now blocks.items) }
    ensures accepted { OnOk result (text_fault text.now ≡ None) }
    ensures refused { IfErr result (λ fault. fault ≢ Memory → text_fault text.now ≡ Some fault) }
    // A text that has a reading is refused only where memory ran out.
    ensures only { (blocks : List Block) → Reads text.now blocks → IfErr result (λ fault. fault ≡ Memory) }
{
    walk_text(alloc, text)
}

/// Reads the text line by line. The contract speaks of the states between the lines.
#[tactic(auto, unfolding(crate::specs::internal::TextWalk::walk))]
fn walk_text(alloc: Global, text: &[u8]) -> Result<Vec<Block>, TextFault>
    ensures { Gives TextFault.Memory (λ blocks. blocks.items) result (walk start 0 (lines_of text.now)) }
{
    let mut progress = begin(alloc);
    let mut numbers = Vec::new(alloc);
    let mut rest = text;
    let mut count = 0usize;
    while !rest.is_empty() {
        let (line, behind) = first_line(rest);
        count += 1;
        if let Err(fault) = take_line(alloc, &mut progress, line, &mut numbers) {
            return Err(fault.at(count));
        }
        rest = behind;
    }
    finish(progress, count + 1)
}
