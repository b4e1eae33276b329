//! The search for directions on several threads.
//!
//! - `workers.rt`: the whole search: rounds, in each of which the workers search the first pieces.
//! - `watch.rt`: watches, which are told how far a search is.
//! - `piece.rt`: pieces of a search.
//! - `round.rt`: a round.
//! - `deal.rt`: which pieces are dealt in a round.
//! - `pace.rt`: how much is searched in a round.
//! - `node.rt`: the search of one node.
//! - `kept.rt`: what is kept of directions: their signs, or how many they are.
#![tactic(auto)]

mod deal;
mod kept;
mod node;
mod pace;
mod piece;
mod round;
mod watch;
mod workers;

pub use flow_directions::News;
pub use watch::{Unwatched, Watch};
pub use workers::{Workers, count_by, prove_by};
