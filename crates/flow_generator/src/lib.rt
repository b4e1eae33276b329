//! Taillard's generator of random numbers and instances.
//!
//! - `generator.rt`: the generator.
#![tactic(auto)]

mod generator;

pub use generator::{Taillard, generate};
