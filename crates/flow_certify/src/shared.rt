//! What all steps of a search for bounds share.

use flow_directions::Prover;
use flow_improve::Deadline;
use flow_shop::Instance;
use std::alloc::Global;

/// An instance, and who searches it for directions.
#[derive(Clone, Copy)]
pub(crate) struct Shared<'a, P> {
    pub(crate) alloc: Global,
    pub(crate) instance: &'a Instance,
    pub(crate) prover: &'a P,
}

impl<'a, P: Prover> Deadline for Shared<'a, P> {
    fn is_over(&self) -> bool {
        self.prover.is_over()
    }
}
