//! Fronts: when each machine is free again, after some jobs.

ghost use Rattle.std.specs.Prelude.{◌≡◌, ℕ, ◌-◌, ◌≤◌, List, [], ◌∷◌, ◌++◌, length, slice_index};
ghost use Rattle.flow_shop.specs.Shop.{Shop};
ghost use Rattle.flow_shop.specs.Paths.{span};
ghost use Rattle.flow_shop.specs.Front.{IsFrontOf, IsWithinFront, SameElsewhere};
ghost use Rattle.flow_limits.specs.Limits.{most_machines};

use crate::instance::Instance;
use crate::sequence::Sequence;
use flow_limits::MAX_MACHINES;
use std::marker::Model;

/// A completion time for each machine, in the unit of the instance's times.
#[derive(Clone, Copy, Debug, PartialEq, Eq)]
pub struct Front {
    times: [u64; MAX_MACHINES],
}

impl Model for Front {
    ghost use Rattle.std.specs.Prelude.{List, ℕ};

    ghost Value = { List ℕ };

    ghost view = { λ f. f.times };

    ghost inverse = { λ times. record { times = times } };
}

impl Front {
    /// The front of the empty list, for every instance.
    pub fn empty() -> Self
        ensures front { (shop : Shop) → IsFrontOf shop [] result }
        ensures within { (shop : Shop) → IsWithinFront shop result }
    {
        Front {
            times: [0; MAX_MACHINES],
        }
    }

    /// The completion time on a machine, which is one of `1..=MAX_MACHINES`.
    pub fn at(&self, machine: u16) -> u64
        requires from { 1 ≤ machine }
        requires to { machine ≤ most_machines }
        ensures { result ≡ slice_index self.now (machine - 1) }
    {
        self.times[machine as usize - 1]
    }
}

/// Puts one of the instance's jobs at the end of a list: turns the front of the list into that of the longer list.
pub fn front_push(instance: &Instance, front: &mut Front, job: u16)
    requires job_from { 1 ≤ job }
    requires job_to { job ≤ instance.now.jobs }
    requires within { IsWithinFront instance.now front.old }
    // For every list that has this front.
    ensures front { (jobs : List ℕ) → IsFrontOf instance.now jobs front.old →
        IsFrontOf instance.now (jobs ++ job ∷ []) front.new }
    ensures elsewhere { SameElsewhere instance.now front.old front.new }
{
    let end = instance.machines() + 1;
    let mut free = 0;
    for machine in 1..end {
        let place = machine as usize - 1;
        free = front.times[place].max(free) + u64::from(instance.time(job, machine));
        front.times[place] = free;
    }
}

/// The makespan of a sequence of all the instance's jobs: the weight of the heaviest staircase path.
pub fn makespan(instance: &Instance, sequence: &Sequence) -> u64
    requires { length sequence.now ≡ instance.now.jobs }
    ensures { result ≡ span instance.now sequence.now }
{
    let machines = instance.machines();
    let mut front = Front::empty();
    for job in sequence.jobs() {
        front_push(instance, &mut front, *job);
    }
    front.at(machines)
}
