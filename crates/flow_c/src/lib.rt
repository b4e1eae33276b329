//! The calls for C: a static library over the crates of the shop, the starting sequence, the search and the checker.
//! Each function takes numbers, slices and records of these, writes its results to records that the caller lends, and
//! returns its outcome. What a Rust caller proves of its arguments is tested here.
//!
//! - `shop.rt`: the numbers of a shop, as a caller lends them.
//! - `room.rt`: slices that the caller lends for results.
//! - `outcome.rt`: the outcome of a call.
//! - `fault.rt`: why a call refused, and the numbers by which C knows it.
//! - `text.rt`: texts: one that is written, and one in room that a caller lends.
//! - `reached.rt`: a sequence that a search reached, in lent room.
//! - `bounds.rt`: a sequence and bounds, in lent room.
//! - `effort.rt`: how much a search may do, as a caller says it.
//! - `node.rt`: the lists of a node, as a caller lends them.
//! - `part.rt`: parts of a search, as numbers.
//! - `version.rt`: `flowshop_version`.
//! - `limits.rt`: `flowshop_limits`.
//! - `generate.rt`: `flowshop_generate`.
//! - `block.rt`: `flowshop_block`.
//! - `span.rt`: the makespan of a sequence, two jobs at a time.
//! - `makespan.rt`: `flowshop_makespan`.
//! - `makespans.rt`: `flowshop_makespans`.
//! - `timetable.rt`: `flowshop_timetable`.
//! - `picture.rt`: `flowshop_picture`.
//! - `neh.rt`: `flowshop_neh`.
//! - `improve.rt`: `flowshop_improve`.
//! - `beam.rt`: `flowshop_beam`.
//! - `rounds.rt`: `flowshop_rounds`.
//! - `solve.rt`: `flowshop_solve`.
//! - `certify.rt`: `flowshop_certify`.
//! - `run.rt`: `flowshop_run`, `flowshop_run_next` and `flowshop_run_put`.
//! - `run_text.rt`: `flowshop_run_text` and `flowshop_run_counted`.
//! - `search.rt`: `flowshop_search`, `flowshop_search_give`, `flowshop_search_put` and `flowshop_search_found`.
//! - `came.rt`: what a search for directions came to, as it is told.
//! - `prove.rt`: `flowshop_prove`.
//! - `tally.rt`: `flowshop_tally`.
//! - `check.rt`: `flowshop_check` and `flowshop_check_within`.
//! - `laws.rt`: laws of the definitions.
#![tactic(auto)]

mod beam;
mod block;
mod bounds;
mod came;
mod certify;
mod check;
mod effort;
mod fault;
mod generate;
mod improve;
mod laws;
mod limits;
mod makespan;
mod makespans;
mod neh;
mod node;
mod outcome;
mod part;
mod picture;
mod prove;
mod reached;
mod room;
mod rounds;
mod run;
mod run_text;
mod search;
mod shop;
mod solve;
mod span;
mod tally;
mod text;
mod timetable;
mod version;
