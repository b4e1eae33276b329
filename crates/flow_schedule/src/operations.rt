//! When each job of a sequence starts and ends on each machine.

ghost use Rattle.std.specs.Prelude.{◌≡◌, ◌-◌, ◌≤◌, ◌++◌, length, take, All, IfOk, OnOk};
ghost use Rattle.flow_limits.specs.Limits.{greatest_completion};
ghost use Rattle.flow_shop.specs.Paths.{span};
ghost use Rattle.flow_shop.specs.Front.{IsFrontOf};
ghost use Rattle.flow_schedule.specs.Timetable.{operations_at, timetable, IsOperationOf};

use flow_shop::{Front, Instance, Sequence, front_push};
use std::alloc::{AllocError, Global};

/// What a job does on a machine, in the unit of the instance's times. A job whose time there is 0 ends as it starts.
#[derive(Clone, Copy, Debug, PartialEq, Eq)]
pub struct Operation {
    /// The job's place in the sequence, counted from 1.
    pub place: u16,
    /// The job, counted from 1.
    pub job: u16,
    /// The machine, counted from 1.
    pub machine: u16,
    /// When the job starts on the machine.
    pub start: u64,
    /// When the job leaves the machine.
    pub end: u64,
}

/// Adds the operations of the job at a place, by the front of the jobs before it.
fn push_operations(
    operations: &mut Vec<Operation>,
    instance: &Instance,
    front: &Front,
    jobs: &[u16],
    place: u16,
) -> Result<(), AllocError>
    requires from { 1 ≤ place }
    requires to { place ≤ length jobs.now }
    requires count { length jobs.now ≡ instance.now.jobs }
    requires range { All (λ job. (1 ≤ job) × (job ≤ instance.now.jobs)) jobs.now }
    requires front { IsFrontOf instance.now (take (place - 1) jobs.now) front.now }
    ensures { OnOk result
        (operations.new.items ≡ operations.old.items ++ operations_at instance.now jobs.now place) }
{
    let job = jobs[place as usize - 1];
    let mut ready = 0;
    for machine in 1..instance.machines() + 1 {
        let start = front.at(machine).max(ready);
        let end = start + u64::from(instance.time(job, machine));
        operations.push(Operation {
            place,
            job,
            machine,
            start,
            end,
        })?;
        ready = end;
    }
    Ok(())
}

/// The timetable of a sequence of all the instance's jobs: for each job in the order of the sequence, and for each
/// machine, when the job starts and ends there.
pub fn timetable(
    alloc: Global,
    instance: &Instance,
    sequence: &Sequence,
) -> Result<Vec<Operation>, AllocError>
    requires { length sequence.now ≡ instance.now.jobs }
    ensures value { IfOk result (λ operations. operations.items ≡ timetable instance.now sequence.now) }
    ensures each { IfOk result (λ operations. All (IsOperationOf instance.now) operations.items) }
    ensures makespan { OnOk result (span instance.now sequence.now ≤ greatest_completion) }
{
    let jobs = sequence.jobs();
    let count = instance.jobs();
    let mut operations = Vec::with_capacity(alloc, jobs.len() * usize::from(instance.machines()))?;
    let mut front = Front::empty();
    for place in 1..count + 1 {
        push_operations(&mut operations, instance, &front, jobs, place)?;
        front_push(instance, &mut front, jobs[place as usize - 1]);
    }
    Ok(operations)
}
