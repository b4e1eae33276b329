//! The search for directions that prove a lower bound on the makespans of a node's sequences.
//!
//! - `directions.rt`: the search for directions that prove a threshold for a node.
//! - `found.rt`: what a search finds.
//! - `prover.rt`: who searches an instance for directions, or counts them.
//! - `start.rt`: the node at which a search begins.
//! - `signs.rt`: the signs of the directions that a search takes.
//! - `walk.rt`: the walk through the nodes that the search opens.
//! - `tree.rt`: the open nodes of a search, and what they share.
//! - `level.rt`: the nodes whose children are searched.
//! - `lists.rt`: the lists of a node.
//! - `choose.rt`: the end at which a node is opened.
//! - `sums.rt`: the sums of the bounds of a node's children.
//! - `laws.rt`: laws of the definitions.
#![tactic(auto)]

mod choose;
mod directions;
mod found;
mod laws;
mod level;
mod lists;
mod prover;
mod signs;
mod start;
mod sums;
mod tree;
mod walk;

pub use directions::{advance, count, prove, tally};
pub use found::{Advanced, Counted, Found, Part, ProveFault, Tallied};
pub use laws::{directions_by_children, directions_prove, search_reaches_what_is_below};
pub use prover::{Alone, Counter, News, Prover};
