//! A heaviest staircase path of a sequence.

ghost use Rattle.std.specs.Prelude.{◌≡◌, ℕ, ◌+◌, ◌-◌, ◌*◌, ◌<◌, ◌≤◌, List, length, true, false, IfOk};
ghost use Rattle.flow_schedule.specs.Timetable.{operation, start_at, end_at, timetable};
ghost use Rattle.flow_schedule.specs.HeaviestPath.{IsHeaviestPath};

use crate::operations::Operation;
use flow_shop::Instance;
use std::alloc::{AllocError, Global};

/// The operation of the job at a place on a machine, found in the timetable.
fn operation_of(
    operations: &[Operation],
    instance: &Instance,
    place: u16,
    machine: u16,
) -> Operation
    requires count { length operations.now ≡ instance.now.jobs * instance.now.machines }
    requires place_from { 1 ≤ place }
    requires place_to { place ≤ instance.now.jobs }
    requires machine_from { 1 ≤ machine }
    requires machine_to { machine ≤ instance.now.machines }
    // For every sequence that has this timetable.
    ensures { (sequence : List ℕ) → length sequence ≡ instance.now.jobs →
        operations.now ≡ timetable instance.now sequence →
        result ≡ operation instance.now sequence place machine }
{
    let index = (place as usize - 1) * instance.machines() as usize + (machine as usize - 1);
    operations[index]
}

/// Whether the job at a place starts on a machine as the job before leaves it. If not, it starts there as it leaves the
/// machine before.
fn follows_job(operations: &[Operation], instance: &Instance, place: u16, machine: u16) -> bool
    requires count { length operations.now ≡ instance.now.jobs * instance.now.machines }
    requires place_from { 1 ≤ place }
    requires place_to { place ≤ instance.now.jobs }
    requires machine_from { 1 ≤ machine }
    requires machine_to { machine ≤ instance.now.machines }
    requires more { 2 < place + machine }
    ensures job { (sequence : List ℕ) → length sequence ≡ instance.now.jobs →
        operations.now ≡ timetable instance.now sequence → result ≡ true →
        (1 < place)
        × (start_at instance.now sequence place machine ≡ end_at instance.now sequence (place - 1) machine) }
    ensures machine { (sequence : List ℕ) → length sequence ≡ instance.now.jobs →
        operations.now ≡ timetable instance.now sequence → result ≡ false →
        (1 < machine)
        × (start_at instance.now sequence place machine ≡ end_at instance.now sequence place (machine - 1)) }
{
    if place == 1 {
        return false;
    }
    let start = operation_of(operations, instance, place, machine).start;
    start == operation_of(operations, instance, place - 1, machine).end
}

/// A heaviest staircase path of the jobs, by the last machine of each. It is followed back from the last job on the
/// last machine; where a job waited for both, it comes from the job before.
pub(crate) fn heaviest_path(
    alloc: Global,
    instance: &Instance,
    jobs: &[u16],
    operations: &[Operation],
) -> Result<Vec<u16>, AllocError>
    requires count { length jobs.now ≡ instance.now.jobs }
    requires timetable { operations.now ≡ timetable instance.now jobs.now }
    ensures { IfOk result (λ path. IsHeaviestPath instance.now jobs.now path.items) }
{
    let mut machine = instance.machines();
    let mut place = instance.jobs();
    let mut path = vec![in alloc; machine; jobs.len()]?;
    while place + machine > 2 {
        if follows_job(operations, instance, place, machine) {
            place -= 1;
            path[place as usize - 1] = machine;
        } else {
            machine -= 1;
        }
    }
    Ok(path)
}
