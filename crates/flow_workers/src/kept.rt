//! What a search keeps of its directions: their signs, or how many they are.

ghost use Rattle.std.specs.Prelude.{◌≡◌, ◌+◌, ◌<◌, ◌^◌, ℕ, List, [], ◌++◌, length, replicate, IfOk};

use crate::node::{Sought, Step};
use crate::piece::Piece;
use flow_directions::{Advanced, Tallied, advance, tally};
use std::alloc::{AllocError, Global};

/// What is kept of some directions, one after the other.
pub(crate) trait Kept: Drop + Send + Sync {
    ghost use Rattle.flow_workers.specs.internal.Steps.{IsStep};
    ghost use Rattle.flow_workers.specs.internal.Pieces.{reading_of};

    // The directions, as they are kept.
    ghost text: { Self → List ℕ };

    // What is kept of a sign.
    ghost mark: { ℕ → ℕ };

    /// Of no directions.
    fn none(alloc: Global) -> Self
        ensures { text result ≡ [] };

    /// How many directions there are.
    fn count(&self) -> u64
        ensures { result ≡ length (text self.now) };

    /// Puts more directions behind these.
    fn join(&mut self, more: Self) -> Result<(), AllocError>
        requires { length (text self.old) + length (text more) < 2 ^ 64 }
        ensures { IfOk result (λ _. text self.new ≡ text self.old ++ text more) };

    /// Searches the node of two lists, until as many directions are written as the budget, or nothing of the node is
    /// left to be searched.
    fn search(
        sought: &Sought,
        first: &[u16],
        last: &[u16],
        budget: u64,
    ) -> Result<Step<Self>, AllocError>
        ensures { IfOk result (IsStep (reading_of text mark sought.now) budget first.now last.now) };
}

/// The signs of the directions.
impl Kept for Vec<u8> {
    ghost text = { λ signs. signs.items };

    ghost mark = { λ sign. sign };

    fn none(alloc: Global) -> Vec<u8> {
        Vec::new(alloc)
    }

    fn count(&self) -> u64 {
        self.len() as u64
    }

    fn join(&mut self, more: Vec<u8>) -> Result<(), AllocError> {
        self.extend_from_slice(more.as_slice())
    }

    fn search(
        sought: &Sought,
        first: &[u16],
        last: &[u16],
        budget: u64,
    ) -> Result<Step<Vec<u8>>, AllocError> {
        let none = Vec::new(sought.alloc);
        match advance(
            sought.alloc,
            sought.instance,
            first,
            last,
            sought.threshold,
            budget,
        ) {
            Ok(Advanced::Proved(directions)) => Ok(Step {
                piece: Piece::Done(directions),
                left: none,
            }),
            Ok(
                Advanced::Below {
                    sequence,
                    directions,
                    ..
                },
            ) => Ok(Step {
                piece: Piece::Reached {
                    sequence,
                    directions,
                },
                left: none,
            }),
            Ok(Advanced::Rest { directions, parts }) => Ok(Step {
                piece: Piece::Done(directions),
                left: parts,
            }),
            // The lists of a part are those of a node, so a fault is that memory ran out.
            Err(_) => Err(AllocError),
        }
    }
}

/// How many directions there are.
impl Kept for u64 {
    // Nothing is kept of a sign but that it is there.
    ghost text = { λ count. replicate count 0 };

    ghost mark = { λ sign. 0 };

    fn none(_alloc: Global) -> u64 {
        0
    }

    fn count(&self) -> u64 {
        *self
    }

    fn join(&mut self, more: u64) -> Result<(), AllocError> {
        *self += more;
        Ok(())
    }

    fn search(
        sought: &Sought,
        first: &[u16],
        last: &[u16],
        budget: u64,
    ) -> Result<Step<u64>, AllocError> {
        let none = Vec::new(sought.alloc);
        match tally(
            sought.alloc,
            sought.instance,
            first,
            last,
            sought.threshold,
            budget,
        ) {
            Ok(Tallied::Proved(directions)) => Ok(Step {
                piece: Piece::Done(directions),
                left: none,
            }),
            Ok(
                Tallied::Below {
                    sequence,
                    directions,
                    ..
                },
            ) => Ok(Step {
                piece: Piece::Reached {
                    sequence,
                    directions,
                },
                left: none,
            }),
            Ok(Tallied::Rest(parts)) => Ok(Step {
                piece: Piece::Done(budget),
                left: parts,
            }),
            // The lists of a part are those of a node, so a fault is that memory ran out.
            Err(_) => Err(AllocError),
        }
    }
}
