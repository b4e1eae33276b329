//! The plans of tests.

use flow_core::Instance;
use flow_search::{Options, Plan, prepare};
use std::alloc::Global;
use std::test::Fail;

/// The plan of an instance for so many workers, with this depth, version and budget.
pub fn planned<'a>(
    alloc: Global,
    instance: &'a Instance,
    workers: u32,
    (depth, version, budget): (u32, u32, u32),
) -> Result<Plan<'a>, Fail> {
    let options = Options::versioned(workers, depth, budget, version)?;
    Ok(prepare(alloc, instance, options)?)
}
