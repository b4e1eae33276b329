//! Tests of what starts threads: lanes between two threads, workers and the hub, whole runs, and the search for
//! directions.
//!
//! - `lanes.rt`: a lane in one thread, and from one thread to another.
//! - `gates.rt`: gates: what notes the calls, what holds workers, and what watches a lane.
//! - `workers.rt`: a worker, and the hub.
//! - `runs.rt`: whole runs.
//! - `directions.rt`: the search for directions on several threads.
#![tactic(auto)]

/// A table: the fields of each row, on a line or more, end at a semicolon.
#[cfg(test)]
macro_rules! rows {
    ($($($field:expr),+);* $(;)?) => { [$(($($field),+)),*] };
}

#[cfg(test)]
mod directions;
#[cfg(test)]
mod gates;
#[cfg(test)]
mod lanes;
#[cfg(test)]
mod runs;
#[cfg(test)]
mod workers;
