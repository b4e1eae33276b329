//! Better sequences: by a two-ended beam search, by iterated greedy search (Ruiz and Stützle), and by both.
//!
//! - `effort.rt`: how much a search may do.
//! - `reached.rt`: what a search comes to: a sequence and its makespan.
//! - `deadline.rt`: when the time of a search is over.
//! - `improvement.rt`: a better sequence than a given one, by both searches.
//! - `two_ended.rt`: the two-ended beam search.
//! - `two_ended/pass.rt`: a pass, from the node at which all jobs are left to nodes at which none is.
//! - `two_ended/entry.rt`: an entry of a list: a node, with its jobs.
//! - `two_ended/bounds.rt`: the bounds of the children of a node, at both ends.
//! - `two_ended/child_order.rt`: the order in which the children of a list of nodes are kept.
//! - `two_ended/best_children.rt`: the children that are kept for the next list.
//! - `rounds.rt`: rounds of iterated greedy search.
//! - `round.rt`: one round.
//! - `list.rt`: what a round does with its list of jobs.
//! - `place.rt`: jobs placed in a list.
//! - `draws.rt`: draws of random numbers.
#![tactic(auto)]

mod deadline;
mod draws;
mod effort;
mod improvement;
mod list;
mod place;
mod reached;
mod round;
mod rounds;
mod two_ended;

pub use deadline::{Deadline, Never};
pub use effort::{Effort, EffortFault, RunLimits};
pub use improvement::{improve, improve_until, rounds_of_both};
pub use reached::Reached;
pub use rounds::rounds_from;
pub use two_ended::{BeamLimits, beam, beam_below, beam_until};
