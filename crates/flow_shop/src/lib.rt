//! The permutation flow shop: instances, sequences, completion times and bounds.
//!
//! - `instance.rt`: an instance: the times of jobs on machines.
//! - `sequence.rt`: a sequence: the jobs of an instance in some order.
//! - `job_set.rt`: a set of jobs.
//! - `end.rt`: the ends of a sequence.
//! - `front.rt`: fronts: when each machine is free again, after some jobs.
//! - `row.rt`: the times, tails and lags of the jobs, a row for each.
//! - `two_least.rt`: the two least of some numbers.
//! - `least_pairs.rt`: the two least of the numbers that some jobs have at each of several places.
//! - `version.rt`: which bound a version of certificates has.
//! - `laws.rt`: laws of the definitions.
#![tactic(auto)]

mod end;
mod front;
mod instance;
mod job_set;
mod laws;
mod least_pairs;
mod row;
mod sequence;
mod two_least;
mod version;

pub use end::End;
pub use front::{Front, front_push, makespan};
pub use instance::{Instance, InstanceFault, size_fault};
pub use job_set::JobSet;
pub use laws::{
    bound_is_admissible, completion_by_recurrence, completion_is_greatest, directions_are_one,
    directions_are_sound, end_bound_is_admissible, end_bound_is_exact, ends_by_recurrence,
    instances_have_no_fault, least_is_least, least_makespan_is_one, least_without_one,
    released_bound_is_admissible, released_bound_is_stronger, second_is_second,
    sequences_have_no_fault,
};
pub use least_pairs::LeastPairs;
pub use row::{Row, rows};
pub use sequence::{Sequence, SequenceFault, first_job_at_fault, insert_all};
pub use two_least::TwoLeast;
pub use version::has_releases;
