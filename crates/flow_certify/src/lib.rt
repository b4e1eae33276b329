//! Bounds of the least makespan: a sequence that has the upper one, and the directions that prove the lower
//! one, or their number.
//!
//! - `bounds.rt`: bounds of the least makespan, from a start.
//! - `run.rt`: a run, as numbers: which task is next, and what an answer changes.
//! - `acts.rt`: what a run does, one after the other.
//! - `task.rt`: what a run does next, and what may become of it.
//! - `kept.rt`: what a run keeps, and how it does its tasks.
//! - `budgets.rt`: the budgets of the searches.
//! - `most.rt`: the limit that a caller sets on the directions of a certificate.
//! - `proof.rt`: what is kept of the directions: their signs, or how many they are.
//! - `shared.rt`: what all tasks share.
//! - `laws.rt`: laws of the definitions.
#![tactic(auto)]

mod acts;
mod bounds;
mod budgets;
mod kept;
mod laws;
mod most;
mod proof;
mod run;
mod shared;
mod task;

pub use bounds::{Certified, certify};
pub use budgets::Fund;
pub use most::{MAX_COUNTED_DIRECTIONS, MostDirections};
pub use proof::{Proof, ProofLimits};
pub use run::Run;
pub use task::{Answer, Origin, Task};
