//! Taillard's lower bound on the makespan of every sequence.

ghost use Rattle.std.specs.Prelude.{◌≡◌, ℕ, ◌-◌, ◌≤◌, List, map};
ghost use Rattle.flow_shop.specs.Shop.{numbers};
ghost use Rattle.flow_shop.specs.Least.{greatest};
ghost use Rattle.flow_shop.specs.Paths.{span};
ghost use Rattle.flow_shop.specs.Sequences.{IsSequence};
ghost use Rattle.flow_bound.specs.Totals.{total};
ghost use Rattle.flow_bound.specs.internal.Times.{AreTimes};
ghost use Rattle.flow_bound.specs.Taillard.{machine_load, taillard_bound};

use crate::sums::totals_of;
use flow_limits::MAX_JOBS;
use flow_shop::Instance;

/// The greatest total of a job.
fn greatest_total(instance: &Instance, totals: &[u32; MAX_JOBS]) -> u32
    requires { AreTimes instance.now totals.now 1 instance.now.machines }
    ensures { result ≡ greatest (map (total instance.now) (numbers 1 instance.now.jobs)) }
{
    let mut most: u32 = 0;
    for job in 1..instance.jobs() + 1 {
        most = most.max(totals[job as usize - 1]);
    }
    most
}

/// The load of a machine: the least head, its time for all jobs, and the least tail, in one sum. The heads become those
/// of the next machine.
fn load_of(
    instance: &Instance,
    heads: &mut [u32; MAX_JOBS],
    totals: &[u32; MAX_JOBS],
    machine: u16,
) -> u64
    requires from { 1 ≤ machine }
    requires to { machine ≤ instance.now.machines }
    requires heads { AreTimes instance.now heads.old 1 (machine - 1) }
    requires totals { AreTimes instance.now totals.now 1 instance.now.machines }
    ensures value { result ≡ machine_load instance.now machine }
    ensures heads { AreTimes instance.now heads.new 1 machine }
{
    let mut least_head = u32::MAX;
    let mut work = 0;
    let mut least_tail = u32::MAX;
    for job in 1..instance.jobs() + 1 {
        let place = job as usize - 1;
        let time = instance.time(job, machine);
        least_head = least_head.min(heads[place]);
        work += time;
        heads[place] += time;
        least_tail = least_tail.min(totals[place] - heads[place]);
    }
    u64::from(least_head) + u64::from(work) + u64::from(least_tail)
}

/// Taillard's lower bound: no sequence has a smaller makespan.
pub fn taillard_bound(instance: &Instance) -> u64
    ensures value { result ≡ taillard_bound instance.now }
    ensures admissible { (sequence : List ℕ) → IsSequence instance.now.jobs sequence →
        result ≤ span instance.now sequence }
{
    let totals = totals_of(instance);
    let mut most = u64::from(greatest_total(instance, &totals));
    let mut heads = [0; MAX_JOBS];
    for machine in 1..instance.machines() + 1 {
        most = most.max(load_of(instance, &mut heads, &totals, machine));
    }
    most
}
