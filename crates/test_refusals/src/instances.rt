//! Instances, sequences and the generator.

use flow_commands::CommandFault;
use flow_core::{Instance, Sequence, generate, makespan, rows};
use std::alloc::Global;
use test_libraries::{three_machines, two_machines};

/// Whether jobs are a sequence of the instance, of this makespan.
fn has_makespan(
    alloc: Global,
    instance: &Instance,
    jobs: &[u16],
    value: u64,
) -> Result<bool, CommandFault> {
    let sequence = Sequence::new(alloc, instance, jobs)?;
    Ok(makespan(instance, &sequence) == value)
}

/// `Instance::new` and `Sequence::new`.
pub(crate) fn instances_are_made(alloc: Global) -> Result<bool, CommandFault> {
    let three = three_machines(alloc)?;
    let two = two_machines(alloc)?;
    Ok(has_makespan(alloc, &three, &[3, 1, 2], 12)? && has_makespan(alloc, &two, &[2, 3, 1], 9)?)
}

/// `generate`.
pub(crate) fn instance_is_generated(alloc: Global) -> Result<bool, CommandFault> {
    let instance = generate(alloc, 2, 2, 1)?;
    Ok(instance == Instance::new(alloc, 2, 2, &[1, 14, 75, 46])?)
}

/// `rows` of the instance with two machines.
pub(crate) fn rows_are_made(alloc: Global, two: &Instance) -> Result<bool, CommandFault> {
    let made = rows(alloc, two)?;
    let [first, second, third] = made.as_slice() else {
        return Ok(false);
    };
    Ok(
        (first.times[0], second.times[0], third.times[0]) == (3, 1, 2)
            && (first.tails[0], second.tails[0], third.tails[0]) == (2, 4, 2),
    )
}
