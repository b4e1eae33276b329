//! The limits of the numbers and texts that calls and commands take.

ghost use Rattle.std.specs.Prelude.{◌≡◌};
ghost use Rattle.flow_c.specs.Faults.{IsDone};
ghost use Rattle.flow_c.specs.Limits.{all_limits};

use crate::outcome::Outcome;
use flow_certify::MAX_COUNTED_DIRECTIONS;
use flow_check::MOST_NODES;
use flow_limits::{
    MAX_BUDGET, MAX_CERTIFICATE, MAX_DEPTH, MAX_DIRECTIONS, MAX_JOBS, MAX_MACHINES, MAX_NUMBER,
    MAX_PREFIXES, MAX_ROUNDS, MAX_SEED, MAX_TEXT, MAX_TIME, MAX_VERSION, MAX_WIDTH, MAX_WORK,
    MAX_WORKERS, MIN_VERSION,
};

/// The most bytes that a two-ended text has beside its directions.
const MAX_BESIDE: u32 = 3300;

/// The limits, as numbers.
#[repr(C)]
#[derive(Clone, Copy, Debug)]
pub struct LimitNumbers {
    /// The most jobs.
    pub max_jobs: u32,
    /// The most machines.
    pub max_machines: u32,
    /// The greatest time.
    pub max_time: u32,
    /// The greatest number in a benchmark text.
    pub max_number: u32,
    /// The greatest number that is read as a job, whether it is one or not.
    pub max_job: u32,
    /// The greatest seed.
    pub max_seed: u32,
    /// The greatest width of a beam.
    pub max_width: u32,
    /// The most rounds.
    pub max_rounds: u32,
    /// The most work, in millions of steps.
    pub max_work: u32,
    /// The most directions of `flowshop_certify`.
    pub max_directions: u32,
    /// The greatest depth.
    pub max_depth: u32,
    /// The most prefixes of a plan.
    pub max_prefixes: u32,
    /// The greatest budget of a tree, in bytes.
    pub max_budget: u32,
    /// The least version of a certificate with trees.
    pub min_version: u32,
    /// The greatest version of a certificate with trees.
    pub max_version: u32,
    /// The most workers of a run of the program.
    pub max_workers: u32,
    /// The most bytes of a benchmark text or a start text that the program reads.
    pub max_text: u32,
    /// The most bytes of a certificate that the program reads.
    pub max_certificate: u32,
    /// The most bytes that a two-ended text has beside its directions, and that a counted one has.
    pub max_beside: u32,
    /// The most nodes that a counted certificate may state, where a caller names no other number.
    pub max_nodes: u64,
    /// The greatest limit of the directions of a run, which may be counted.
    pub max_counted: u64,
}

/// Writes all limits.
#[unsafe(no_mangle)]
pub extern "C" fn flowshop_limits(limits: &mut LimitNumbers) -> Outcome
    ensures done { IsDone result }
    ensures limits { limits.new ≡ all_limits }
{
    *limits = LimitNumbers {
        max_jobs: MAX_JOBS as u32,
        max_machines: MAX_MACHINES as u32,
        max_time: MAX_TIME,
        max_number: MAX_NUMBER,
        max_job: u32::from(u16::MAX),
        max_seed: MAX_SEED,
        max_width: MAX_WIDTH,
        max_rounds: MAX_ROUNDS,
        max_work: MAX_WORK,
        max_directions: MAX_DIRECTIONS,
        max_depth: MAX_DEPTH,
        max_prefixes: MAX_PREFIXES,
        max_budget: MAX_BUDGET,
        min_version: MIN_VERSION,
        max_version: MAX_VERSION,
        max_workers: MAX_WORKERS,
        max_text: MAX_TEXT as u32,
        max_certificate: MAX_CERTIFICATE as u32,
        max_beside: MAX_BESIDE,
        max_nodes: MOST_NODES,
        max_counted: MAX_COUNTED_DIRECTIONS,
    };
    Outcome::done()
}
