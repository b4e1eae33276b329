//! Where times and machines stand on the picture. Its units are hundredths of a pixel.

ghost use Rattle.std.specs.Prelude.{◌≡◌, ◌≤◌};
ghost use Rattle.flow_limits.specs.Limits.{greatest_completion};
ghost use Rattle.flow_schedule.specs.Scale.{breadth_of, x_of, y_of, greatest_breadth, greatest_x};

use flow_shop::Instance;

/// Where time 0 stands.
pub(crate) const LEFT: u64 = 9_000;

/// How wide the makespan is at least.
const LEAST: u64 = 96_000;

/// How wide the makespan is for each job and each machine.
const EACH: u64 = 3_600;

/// Where the bars of machine 1 begin.
pub(crate) const TOP: u64 = 6_200;

/// How high a row is.
pub(crate) const ROW: u64 = 3_000;

/// How wide the makespan is drawn.
pub(crate) fn breadth_of(instance: &Instance) -> u64
    ensures value { result ≡ breadth_of instance.now }
    ensures least { 96000 ≤ result }
    ensures within { result ≤ greatest_breadth }
{
    let rows = u64::from(instance.jobs()) + u64::from(instance.machines());
    LEAST.max(rows * EACH)
}

/// Where a time stands.
pub(crate) fn x_of(breadth: u64, makespan: u64, time: u64) -> u64
    requires breadth { breadth ≤ greatest_breadth }
    requires time { time ≤ greatest_completion }
    ensures value { result ≡ x_of breadth makespan time }
    ensures within { result ≤ greatest_x }
{
    LEFT + time * breadth / makespan.max(1)
}

/// Where the bars of a machine begin.
pub(crate) fn y_of(machine: u16) -> u64
    requires { 1 ≤ machine }
    ensures value { result ≡ y_of machine }
    ensures within { result ≤ 1000000000 }
{
    TOP + (u64::from(machine) - 1) * ROW
}
