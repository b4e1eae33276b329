//! Worked examples: two instances with what they should give, for other crates too, and tests of the public calls of
//! the libraries. What the tests expect was worked out by hand, and computed again by a script from the definitions;
//! where it has another source, a comment says which.
//!
//! - `instances.rt`: the two instances that are used most, with their texts and certificates.
//! - `shops.rt`: the instances of tables of tests.
//! - `plain.rt`: the definitions of fronts and bounds, computed anew from the times.
//! - `parts.rt`: texts taken apart, for plain readings.
//! - `values.rt`: instances, sequences, makespans, sets of jobs and the generator.
//! - `nodes.rt`: children's bounds, groups and marks of flow_nodes.
//! - `bounds.rt`: bounds, and the starting sequence.
//! - `bytes.rt`: sinks and sources.
//! - `text.rt`: benchmark text.
//! - `start_text.rt`: start text.
//! - `changes.rt`: the texts that are close to a text.
//! - `changed_text.rt`: texts that differ in a byte or two from one with two blocks.
//! - `pictures.rt`: the module of timetables, tables and pictures.
//! - `pictures/worked.rt`: those of small instances.
//! - `pictures/greatest.rt`: those of the greatest sizes and times.
//! - `plans.rt`: the plans of tests.
//! - `outcomes.rt`: the outcomes of a plan, and a comparison of verdicts.
//! - `starts.rt`: plans from a given start.
//! - `search.rt`: options, plans, outcomes and verdicts.
//! - `trees.rt`: trees of generated instances, beside a plain recursion.
//! - `searches.rt`: the search for directions.
//! - `small_budgets.rt`: the same with a few directions at a time.
//! - `drawn_searches.rt`: what a program written apart finds for drawn instances.
//! - `writer.rt`: certificates as they are written.
//! - `kinds.rt`: the kinds of text, and the checker of both.
//! - `checker.rt`: the checker of certificates with trees.
//! - `changed_certificate.rt`: certificates that differ in a byte or two from one at depth 2.
//! - `two_ended.rt`: the checker of two-ended certificates.
//! - `two_ended_drawn.rt`: two-ended certificates of drawn instances.
//! - `greatest.rt`: the module of tests at the limits.
//! - `greatest/texts.rt`: texts that are made of parts.
//! - `greatest/written.rt`: certificates as they are written and checked.
//! - `greatest/equal_times.rt`: 800 jobs on 26 machines, with equal times.
//! - `greatest/many_prefixes.rt`: 316 jobs on one machine, at depth 2.
//! - `greatest/letters.rt`: trees with the letters of up to 26 machines.
//! - `greatest/long_trees.rt`: trees of millions of bytes.
//! - `greatest/directions.rt`: two-ended certificates with the most jobs, and with many signs.
//! - `greatest/searches.rt`: the search for directions with the most jobs and the greatest times.
#![tactic(auto)]

/// A table: the fields of each row, on a line or more, end at a semicolon.
#[cfg(test)]
macro_rules! rows {
    ($($($field:expr),+);* $(;)?) => { [$(($($field),+)),*] };
}

#[cfg(test)]
mod bounds;
#[cfg(test)]
mod bytes;
#[cfg(test)]
mod changed_certificate;
#[cfg(test)]
mod changed_text;
#[cfg(test)]
mod changes;
#[cfg(test)]
mod checker;
#[cfg(test)]
mod drawn_searches;
#[cfg(test)]
mod greatest;
mod instances;
#[cfg(test)]
mod kinds;
#[cfg(test)]
mod nodes;
mod outcomes;
#[cfg(test)]
mod parts;
#[cfg(test)]
mod pictures;
#[cfg(test)]
mod plain;
#[cfg(test)]
mod plans;
#[cfg(test)]
mod search;
#[cfg(test)]
mod searches;
#[cfg(test)]
mod shops;
#[cfg(test)]
mod small_budgets;
#[cfg(test)]
mod start_text;
#[cfg(test)]
mod starts;
#[cfg(test)]
mod text;
#[cfg(test)]
mod trees;
#[cfg(test)]
mod two_ended;
#[cfg(test)]
mod two_ended_drawn;
#[cfg(test)]
mod values;
#[cfg(test)]
mod writer;

pub use instances::{
    CERTIFICATE_AT_DEPTH_0, GENERATED_TEXT, THREE_MACHINES_TEXT, TREES_AT_DEPTH_1, TWO_ENDED_11,
    TWO_ENDED_12, TWO_MACHINES_TEXT, WEAK_CERTIFICATE, three_machines, two_machines,
};
pub use outcomes::{AMPLE, TIGHT, all_outcomes, is_verdict};
