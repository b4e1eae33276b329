//! Tests of `improve`, of its beam and its rounds, of the bounds of `certify`, and of what the commands write and
//! refuse.
//!
//! - `searches.rt`: instances, starts and what a search of better sequences comes to.
//! - `beam.rt`: what the beam search comes to.
//! - `improve.rt`: what beam and rounds come to, alone and together.
//! - `bounds.rt`: what a search for bounds comes to.
//! - `times.rt`: runs whose time is over.
//! - `commands.rt`: the module of what the commands write and refuse.
//! - `commands/texts.rt`: texts of instances, of starts and of certificates.
//! - `commands/endless.rt`: a source without an end.
//! - `commands/starts.rt`: starts, as `solve` and `schedule` take them.
//! - `commands/certify.rt`: `certify`.
//! - `commands/check.rt`: `check`.
//! - `commands/schedule.rt`: `schedule`.
//! - `commands/solve.rt`: `solve` by its numbers.
//! - `commands/improve.rt`: `improve`.
//! - `commands/neh.rt`: `neh`.
//! - `commands/span.rt`: `span`.
//! - `commands/generate.rt`: `gen`.
//! - `commands/faults.rt`: the lines on standard error that no run of the program shows in the other tests.
#![tactic(auto)]

/// A table: the fields of each row, on a line or more, end at a semicolon.
#[cfg(test)]
macro_rules! rows {
    ($($($field:expr),+);* $(;)?) => { [$(($($field),+)),*] };
}

#[cfg(test)]
mod beam;
#[cfg(test)]
mod bounds;
#[cfg(test)]
mod commands;
#[cfg(test)]
mod improve;
#[cfg(test)]
mod searches;
#[cfg(test)]
mod times;
