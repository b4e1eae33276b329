//! The search of one node.

ghost use Rattle.std.specs.Prelude.{◌≡◌, map, IfOk};
ghost use Rattle.flow_workers.specs.internal.Steps.{pieces_of};
ghost use Rattle.flow_workers.specs.declared.piece.Piece.TheVariants.{Left};

use crate::piece::Piece;
use flow_directions::Part;
use flow_shop::Instance;
use std::alloc::{AllocError, Global};
use std::collections::VecDeque;

/// What is sought: the sequences of an instance below a threshold.
#[derive(Clone, Copy)]
pub(crate) struct Sought<'a> {
    pub(crate) alloc: Global,
    pub(crate) instance: &'a Instance,
    pub(crate) threshold: u64,
}

/// What the search of a node came to.
#[derive(Drop)]
pub(crate) struct Step<K> {
    /// The node, as far as it was searched.
    pub(crate) piece: Piece<K>,
    /// The parts that are left behind it.
    pub(crate) left: Vec<Part>,
}

/// Parts as pieces that are still to be searched.
fn left_pieces<K: Drop>(alloc: Global, parts: Vec<Part>) -> Result<VecDeque<Piece<K>>, AllocError>
    ensures { IfOk result (λ pieces. pieces.items ≡ map Left parts.items) }
{
    let mut parts = parts;
    let mut pieces = VecDeque::new(alloc);
    'parts: while let Some(part) = parts.pop() {
        pieces.push_front(Piece::Left(part))?;
    }
    Ok(pieces)
}

/// The pieces that stand for a node.
pub(crate) fn pieces_of<K: Drop>(
    alloc: Global,
    step: Step<K>,
) -> Result<VecDeque<Piece<K>>, AllocError>
    ensures { IfOk result (λ pieces. pieces.items ≡ pieces_of step) }
{
    let mut pieces = left_pieces(alloc, step.left)?;
    pieces.push_front(step.piece)?;
    Ok(pieces)
}
