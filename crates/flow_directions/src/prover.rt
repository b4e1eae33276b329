//! Who searches an instance for directions, or counts them.

use crate::directions::{count, prove};
use crate::found::{Counted, Found};
use flow_shop::Instance;
use std::alloc::{AllocError, Global};

/// What a run that asks for directions tells of itself.
#[derive(Clone, Copy, Debug, PartialEq, Eq)]
pub enum News {
    /// The step that begins.
    Step(u32),
    /// The bounds that are known.
    Bounds {
        /// No sequence has a smaller makespan.
        lower: u64,
        /// Some sequence has this makespan.
        upper: u64,
    },
    /// How many directions the search that goes on has written.
    Directions(u64),
    /// The run ended.
    Ended,
}

/// Searches an instance for directions.
pub trait Prover {
    ghost use Rattle.std.specs.Prelude.{[], IfOk, IfSome};
    ghost use Rattle.flow_directions.specs.News.{MayBeTold};
    ghost use Rattle.flow_directions.specs.Search.{IsCounted, IsFound, Shows};

    // What has to hold where it searches.
    ghost is_ready: { Self → Type 0 };

    /// Searches for directions that prove that no sequence of an instance has a makespan below a threshold, with a
    /// budget, as `prove` does from the node of two empty lists. Returns none where the time was over before it was
    /// found. The fault is that memory ran out.
    fn prove(
        &self,
        alloc: Global,
        instance: &Instance,
        threshold: u64,
        budget: u64,
    ) -> Result<Option<Found>, AllocError>
        requires { is_ready self.now }
        ensures found { IfOk result (λ found. IfSome found (λ found.
            IsFound instance.now threshold budget [] [] found)) }
        ensures shown { IfOk result (λ found. IfSome found (λ found. Shows instance.now threshold [] [] found)) };

    /// Searches as `prove` does, and counts the directions instead of writing them. Returns none where the time was
    /// over before it was found. The fault is that memory ran out.
    fn count_directions(
        &self,
        alloc: Global,
        instance: &Instance,
        threshold: u64,
        budget: u64,
    ) -> Result<Option<Counted>, AllocError>
        requires { is_ready self.now }
        ensures counted { IfOk result (λ found. IfSome found (λ found.
            IsCounted instance.now threshold budget [] [] found)) };

    /// Whether the time of the run is limited.
    fn is_limited(&self) -> bool;

    /// Whether the time of the run is over.
    fn is_over(&self) -> bool;

    /// Is told something new of an instance: bounds are told only where they are proved. It changes nothing of what is
    /// found.
    fn tell(&self, instance: &Instance, news: News)
        requires { MayBeTold instance.now news };
}

/// Counts the directions of an instance.
pub trait Counter {
    ghost use Rattle.std.specs.Prelude.{[], IfOk};
    ghost use Rattle.flow_directions.specs.Search.{IsCounted};

    // What has to hold where it counts.
    ghost is_ready: { Self → Type 0 };

    /// Counts the directions that prove that no sequence of an instance has a makespan below a threshold, with a
    /// budget, as `count` does from the node of two empty lists. The fault is that memory ran out.
    fn count(
        &self,
        alloc: Global,
        instance: &Instance,
        threshold: u64,
        budget: u64,
    ) -> Result<Counted, AllocError>
        requires { is_ready self.now }
        ensures { IfOk result (λ found. IsCounted instance.now threshold budget [] [] found) };
}

/// Searches on the calling thread.
#[derive(Clone, Copy, Debug)]
pub struct Alone;

impl Prover for Alone {
    ghost is_ready = { λ _. Unit {0} };

    fn prove(
        &self,
        alloc: Global,
        instance: &Instance,
        threshold: u64,
        budget: u64,
    ) -> Result<Option<Found>, AllocError> {
        match prove(alloc, instance, &[], &[], threshold, budget) {
            Ok(found) => Ok(Some(found)),
            // Two empty lists are a node, so a fault is that memory ran out.
            Err(_) => Err(AllocError),
        }
    }

    fn count_directions(
        &self,
        alloc: Global,
        instance: &Instance,
        threshold: u64,
        budget: u64,
    ) -> Result<Option<Counted>, AllocError> {
        Ok(Some(Alone.count(alloc, instance, threshold, budget)?))
    }

    fn is_limited(&self) -> bool {
        false
    }

    fn is_over(&self) -> bool {
        false
    }

    fn tell(&self, _instance: &Instance, _news: News) {}
}

impl Counter for Alone {
    ghost is_ready = { λ _. Unit {0} };

    fn count(
        &self,
        alloc: Global,
        instance: &Instance,
        threshold: u64,
        budget: u64,
    ) -> Result<Counted, AllocError> {
        // Two empty lists are a node, so a fault is that memory ran out.
        count(alloc, instance, &[], &[], threshold, budget).map_err(|_| AllocError)
    }
}
