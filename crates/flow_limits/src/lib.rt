//! The limits as constants. Contracts name the numbers in `specs/Limits.antt`; the law says that these are the same.
//!
//! - `laws.rt`: that law.
#![tactic(auto)]

ghost use Rattle.std.specs.Int.{is_in_range};
ghost use Rattle.std.specs.Prelude.{◌≡◌};
ghost use Rattle.flow_limits.specs.Limits.{most_jobs, most_machines, greatest_seed};

mod laws;

pub use laws::limits_are_those_stated;

/// The most jobs of an instance.
pub const MAX_JOBS: usize = 800;

/// The most machines of an instance.
pub const MAX_MACHINES: usize = 26;

/// The greatest time of a job on a machine.
pub const MAX_TIME: u32 = 999_999;

/// The greatest number in a benchmark text.
pub const MAX_NUMBER: u32 = 4_294_967_295;

/// The greatest seed of random numbers.
pub const MAX_SEED: u32 = 2_147_483_646;

/// The greatest depth of a cut.
pub const MAX_DEPTH: u32 = 3;

/// The least version of a certificate.
pub const MIN_VERSION: u32 = 1;

/// The greatest version of a certificate.
pub const MAX_VERSION: u32 = 2;

/// The most workers of a run.
pub const MAX_WORKERS: u32 = 64;

/// The most prefixes of a plan.
pub const MAX_PREFIXES: u32 = 100_000;

/// The greatest budget: how many bytes the tree of a prefix may have.
pub const MAX_BUDGET: u32 = 100_000_000;

/// The most bytes of a benchmark text or a start text that a command reads.
pub const MAX_TEXT: usize = 16_777_216;

/// The most bytes of a certificate that a command reads.
pub const MAX_CERTIFICATE: usize = 1_000_000_000;

/// The most rounds of an improvement.
pub const MAX_ROUNDS: u32 = 100_000_000;

/// The greatest width of a beam.
pub const MAX_WIDTH: u32 = 65_536;

/// The most steps of an improvement, in millions.
pub const MAX_WORK: u32 = 1_000_000;

/// The most directions of a proof.
pub const MAX_DIRECTIONS: u32 = 1_000_000_000;

/// Whether an instance may have so many jobs.
pub fn may_have_jobs(jobs: u32) -> bool
    ensures { result ≡ is_in_range 1 most_jobs jobs }
{
    jobs >= 1 && jobs as usize <= MAX_JOBS
}

/// Whether an instance may have so many machines.
pub fn may_have_machines(machines: u32) -> bool
    ensures { result ≡ is_in_range 1 most_machines machines }
{
    machines >= 1 && machines as usize <= MAX_MACHINES
}

/// Whether random numbers may begin with a seed.
pub fn may_be_seed(seed: u32) -> bool
    ensures { result ≡ is_in_range 1 greatest_seed seed }
{
    seed >= 1 && seed <= MAX_SEED
}
