//! The law that the constants are the limits of the definitions.

ghost use Rattle.std.specs.Prelude.{◌≡◌};
ghost use Rattle.flow_limits.specs.Limits.{most_jobs, most_machines, greatest_time};
ghost use Rattle.flow_limits.specs.Limits.{greatest_number, greatest_seed};
ghost use Rattle.flow_limits.specs.Limits.{greatest_depth, least_version, greatest_version};
ghost use Rattle.flow_limits.specs.Limits.{most_workers, most_prefixes, greatest_budget};
ghost use Rattle.flow_limits.specs.Limits.{most_text, most_certificate, most_rounds, most_width, most_work};
ghost use Rattle.flow_limits.specs.Limits.{most_directions};

use crate::{
    MAX_BUDGET, MAX_CERTIFICATE, MAX_DEPTH, MAX_DIRECTIONS, MAX_JOBS, MAX_MACHINES, MAX_NUMBER,
    MAX_PREFIXES, MAX_ROUNDS, MAX_SEED, MAX_TEXT, MAX_TIME, MAX_VERSION, MAX_WIDTH, MAX_WORK,
    MAX_WORKERS, MIN_VERSION,
};

/// The constants of the code are the limits that the contracts name.
pub fn limits_are_those_stated()
    ensures jobs { MAX_JOBS ≡ most_jobs }
    ensures machines { MAX_MACHINES ≡ most_machines }
    ensures time { MAX_TIME ≡ greatest_time }
    ensures number { MAX_NUMBER ≡ greatest_number }
    ensures seed { MAX_SEED ≡ greatest_seed }
    ensures depth { MAX_DEPTH ≡ greatest_depth }
    ensures least_version { MIN_VERSION ≡ least_version }
    ensures greatest_version { MAX_VERSION ≡ greatest_version }
    ensures workers { MAX_WORKERS ≡ most_workers }
    ensures prefixes { MAX_PREFIXES ≡ most_prefixes }
    ensures budget { MAX_BUDGET ≡ greatest_budget }
    ensures text { MAX_TEXT ≡ most_text }
    ensures certificate { MAX_CERTIFICATE ≡ most_certificate }
    ensures rounds { MAX_ROUNDS ≡ most_rounds }
    ensures width { MAX_WIDTH ≡ most_width }
    ensures work { MAX_WORK ≡ most_work }
    ensures directions { MAX_DIRECTIONS ≡ most_directions }
{}
