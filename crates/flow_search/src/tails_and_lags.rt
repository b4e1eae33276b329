//! The two least tails of a set of jobs, and their two least lags. A job's lag from a machine to another is its time on
//! the machines from there to the one before the other.

ghost use Rattle.std.specs.Prelude.{◌-◌, ◌≤◌};
ghost use Rattle.flow_shop.specs.JobSet.{members, IsSetOf};
ghost use Rattle.flow_shop.specs.TwoLeast.{AreTwoLeast, time_to};
ghost use Rattle.flow_search.specs.internal.Tails.{tail_at};
ghost use Rattle.flow_search.specs.internal.Settings.{shop_of, HasLags};

use crate::setting::Setting;
use flow_limits::MAX_MACHINES;
use flow_shop::{JobSet, LeastPairs, has_releases};

/// The two least lags of some jobs to each machine, from each earlier one; those to machine 1 first.
pub type LeastLags = [LeastPairs; MAX_MACHINES];

/// The two least tails of a set of jobs after each machine.
pub fn least_tails(setting: &Setting, set: &JobSet) -> LeastPairs
    requires jobs { IsSetOf (shop_of setting.now) set.now }
    ensures { AreTwoLeast (tail_at (shop_of setting.now)) (shop_of setting.now).machines (members set.now) result }
{
    let instance = setting.instance;
    let machines = instance.machines() as usize;
    let mut tails = LeastPairs::none();
    for job in 1..instance.jobs() + 1 {
        if set.contains(job) {
            tails.take(&setting.rows[job as usize - 1].tails, machines);
        }
    }
    tails
}

/// The two least lags of a set of jobs from each earlier machine to a machine.
pub fn least_lags(setting: &Setting, set: &JobSet, machine: u16) -> LeastPairs
    requires jobs { IsSetOf (shop_of setting.now) set.now }
    requires from { 1 ≤ machine }
    requires to { machine ≤ (shop_of setting.now).machines }
    ensures { AreTwoLeast (time_to (shop_of setting.now) machine) (machine - 1) (members set.now) result }
{
    let instance = setting.instance;
    prove!(machine <= instance.machines());
    let mut lags = LeastPairs::none();
    for job in 1..instance.jobs() + 1 {
        if set.contains(job) {
            let own = setting.rows[job as usize - 1].lags_to(machine);
            lags.take(&own, machine as usize - 1);
        }
    }
    lags
}

/// Makes the lags those of a set of jobs, where the bound of the version has releases.
pub fn renew_lags(setting: &Setting, set: &JobSet, lags: &mut LeastLags)
    requires jobs { IsSetOf (shop_of setting.now) set.now }
    ensures { HasLags setting.now set.now lags.new }
{
    if !has_releases(setting.version) {
        return;
    }
    // No machine is before machine 1, so no lag leads there.
    for machine in 2..setting.instance.machines() + 1 {
        lags[machine as usize - 1] = least_lags(setting, set, machine);
    }
}
