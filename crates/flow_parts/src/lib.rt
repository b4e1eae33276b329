//! A search for directions in parts, which workers search anywhere and in any order. It is numbers alone: the places at
//! which parts stand one after the other, and what was found of them so far.
//!
//! - `place.rt`: the places of a search, in an array of the caller.
//! - `answer.rt`: what became of a place, and of the whole search.
//! - `search.rt`: the search: which place is given next, and what an answer changes.
//! - `walks.rt`: walks through the places.
//! - `laws.rt`: laws of the definitions.
//! - `tests.rt`: searches call by call.
#![tactic(auto)]

mod answer;
mod laws;
mod place;
mod search;
#[cfg(test)]
mod tests;
mod walks;

pub use answer::{Decided, Put, Searched};
pub use place::Place;
pub use search::Search;
