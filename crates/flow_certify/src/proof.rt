//! What is kept of the directions that prove a lower bound: their signs, or how many they are.

ghost use Rattle.std.specs.Prelude.{◌≡◌, [], IfOk, IfSome};
ghost use Rattle.flow_certify.specs.Searched.{Keeps, count_of, has_signs};
ghost use Rattle.flow_certify.specs.internal.Outcomes.{HasForm, IsOutcome, counted_outcome, found_outcome};

use crate::most::MostDirections;
use crate::shared::Shared;
use flow_directions::{Counted, Found, Prover};
use flow_shop::Sequence;
use std::alloc::{AllocError, Global};

/// The directions that prove a lower bound.
#[derive(Debug, Drop)]
pub enum Proof {
    /// The directions. Each byte is `+`, for the front, or `-`, for the back.
    Signs(Vec<u8>),
    /// How many directions they are.
    Count(u64),
}

impl Proof {
    /// No directions, with their signs or counted.
    pub(crate) fn none(alloc: Global, keeps_signs: bool) -> Proof
        ensures none { Keeps result [] }
        ensures form { has_signs result ≡ keeps_signs }
    {
        if keeps_signs {
            Proof::Signs(Vec::new(alloc))
        } else {
            Proof::Count(0)
        }
    }

    /// How many directions there are.
    pub fn directions(&self) -> u64
        ensures { result ≡ count_of self.now }
    {
        match self {
            Proof::Signs(signs) => signs.len() as u64,
            Proof::Count(count) => *count,
        }
    }

    /// Whether it has the signs.
    pub(crate) fn has_signs(&self) -> bool
        ensures { result ≡ has_signs self.now }
    {
        matches!(self, Proof::Signs(_))
    }
}

/// How many directions a certificate may have, and what is kept of them.
#[derive(Clone, Copy)]
pub struct ProofLimits {
    /// The most directions.
    pub most: MostDirections,
    /// Whether the signs are kept. Else the directions are counted, which needs no memory for them.
    pub keeps_signs: bool,
}

/// What a search for directions came to.
#[derive(Drop)]
pub(crate) enum Outcome {
    /// No sequence is below the threshold.
    Proved(Proof),
    /// The first sequence below the threshold.
    Below {
        /// The sequence.
        sequence: Sequence,
        /// Its makespan.
        makespan: u64,
        /// How many directions come before it.
        directions: u64,
    },
    /// There are more directions than the budget.
    Over,
}

/// Searches below a threshold with a budget, and keeps the signs of the directions or counts them. Returns none where
/// the time was over before anything was found.
pub(crate) fn search<P: Prover>(
    shared: &Shared<P>,
    keeps_signs: bool,
    threshold: u64,
    budget: u64,
) -> Result<Option<Outcome>, AllocError>
    requires { P.is_ready shared.now.prover.now }
    ensures outcome { IfOk result (λ found. IfSome found (IsOutcome shared.now.instance.now threshold budget)) }
    ensures form { IfOk result (λ found. IfSome found (HasForm keeps_signs)) }
{
    let Shared {
        alloc,
        instance,
        prover,
    } = *shared;
    if keeps_signs {
        match prover.prove(alloc, instance, threshold, budget)? {
            None => Ok(None),
            Some(found) => Ok(Some(found_outcome(found))),
        }
    } else {
        match prover.count_directions(alloc, instance, threshold, budget)? {
            None => Ok(None),
            Some(counted) => Ok(Some(counted_outcome(counted))),
        }
    }
}

/// What a search found, with the signs.
fn found_outcome(found: Found) -> Outcome
    ensures { result ≡ found_outcome found }
{
    match found {
        Found::Proved(signs) => Outcome::Proved(Proof::Signs(signs)),
        Found::Below {
            sequence,
            makespan,
            directions,
        } => Outcome::Below {
            sequence,
            makespan,
            directions,
        },
        Found::Over => Outcome::Over,
    }
}

/// What a search found that counts.
fn counted_outcome(counted: Counted) -> Outcome
    ensures { result ≡ counted_outcome counted }
{
    match counted {
        Counted::Proved(count) => Outcome::Proved(Proof::Count(count)),
        Counted::Below {
            sequence,
            makespan,
            directions,
        } => Outcome::Below {
            sequence,
            makespan,
            directions,
        },
        Counted::Over => Outcome::Over,
    }
}
