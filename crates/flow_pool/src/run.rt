//! The whole run of a plan.

pub(crate) mod make;
pub(crate) mod solve;
