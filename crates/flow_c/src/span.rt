//! The makespan of a sequence.

ghost use Rattle.std.specs.Prelude.{◌≡◌, ◌+◌, ◌-◌, ◌<◌, length, take};
ghost use Rattle.flow_shop.specs.Paths.{span};
ghost use Rattle.flow_shop.specs.Front.{IsFrontOf};
ghost use Rattle.flow_shop.specs.Sequences.{AreJobs};

use flow_limits::MAX_MACHINES;
use flow_shop::Instance;

/// Puts the next two jobs of a sequence behind so many first ones: turns the front of these into that of all of them.
/// With two jobs at a time a processor takes about half as long, since the steps of one wait little for the other.
fn push_two(instance: &Instance, sequence: &[u16], count: usize, front: &mut [u64; MAX_MACHINES])
    requires each { AreJobs instance.now.jobs sequence.now }
    requires whole { length sequence.now ≡ instance.now.jobs }
    requires within { count + 1 < length sequence.now }
    requires front { IsFrontOf instance.now (take count sequence.now) front.old }
    ensures { IsFrontOf instance.now (take (count + 2) sequence.now) front.new }
{
    let (job, next) = (sequence[count], sequence[count + 1]);
    let end = instance.machines() + 1;
    let mut first = 0;
    let mut second = 0;
    for machine in 1..end {
        let place = machine as usize - 1;
        first = front[place].max(first) + u64::from(instance.time(job, machine));
        second = first.max(second) + u64::from(instance.time(next, machine));
        front[place] = second;
    }
}

/// When the last job of a sequence leaves the last machine, by the front of all jobs before it.
fn end_of_last(instance: &Instance, sequence: &[u16], front: &[u64; MAX_MACHINES]) -> u64
    requires each { AreJobs instance.now.jobs sequence.now }
    requires whole { length sequence.now ≡ instance.now.jobs }
    requires front { IsFrontOf instance.now (take (length sequence.now - 1) sequence.now) front.now }
    ensures { result ≡ span instance.now sequence.now }
{
    let end = instance.machines() + 1;
    let job = sequence[usize::from(instance.jobs()) - 1];
    let mut free = 0;
    for machine in 1..end {
        free = front[machine as usize - 1].max(free) + u64::from(instance.time(job, machine));
    }
    free
}

/// The makespan of a sequence of the instance.
pub(crate) fn span_of(instance: &Instance, sequence: &[u16]) -> u64
    requires each { AreJobs instance.now.jobs sequence.now }
    requires count { length sequence.now ≡ instance.now.jobs }
    ensures { result ≡ span instance.now sequence.now }
{
    let count = sequence.len();
    let mut front = [0; MAX_MACHINES];
    for pair in 0..count / 2 {
        push_two(instance, sequence, 2 * pair, &mut front);
    }
    if count % 2 == 1 {
        return end_of_last(instance, sequence, &front);
    }
    front[usize::from(instance.machines()) - 1]
}
