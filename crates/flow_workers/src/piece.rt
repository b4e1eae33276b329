//! Pieces of a search.

ghost use Rattle.std.specs.Prelude.{◌≡◌};
ghost use Rattle.flow_workers.specs.internal.Pieces.{has_reached, written};

use crate::kept::Kept;
use flow_directions::Part;
use flow_shop::Sequence;
use std::collections::VecDeque;

/// A piece of a search, with what is kept of its directions.
#[derive(Drop)]
pub(crate) enum Piece<K> {
    /// It was searched: its directions. It reaches no sequence below the threshold.
    Done(K),
    /// It was searched up to the first sequence below the threshold.
    Reached {
        /// The sequence.
        sequence: Sequence,
        /// The directions before it.
        directions: K,
    },
    /// It is still to be searched.
    Left(Part),
}

impl<K: Kept> Piece<K> {
    /// How many directions it has.
    pub(crate) fn written(&self) -> u64
        ensures { result ≡ written K.text self.now }
    {
        match self {
            Piece::Done(directions) | Piece::Reached { directions, .. } => directions.count(),
            Piece::Left(_) => 0,
        }
    }

    /// Whether it has reached a sequence.
    pub(crate) fn has_reached(&self) -> bool
        ensures { result ≡ has_reached self.now }
    {
        matches!(self, Piece::Reached { .. })
    }
}

/// A piece that is dealt in a round.
#[derive(Drop)]
pub(crate) enum Dealt<K> {
    /// It was not searched in this round.
    Open(Piece<K>),
    /// It was searched: these stand for it.
    Searched(VecDeque<Piece<K>>),
}

/// What a worker found for a piece that was dealt.
#[derive(Drop)]
pub(crate) struct Reply<K> {
    /// The place of the piece among those that were dealt.
    pub(crate) place: usize,
    /// What stands for the piece.
    pub(crate) pieces: VecDeque<Piece<K>>,
}
