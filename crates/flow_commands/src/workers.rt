//! The number of workers that is asked for.

ghost use Rattle.std.specs.Prelude.{◌≡◌, None, Some, IfOk, OnOk, IfErr};
ghost use Rattle.flow_commands.specs.internal.Devices.{NamesNoDevice};
ghost use Rattle.flow_commands.specs.Certify.{workers_fault};

use crate::refusals::CommandFault;
use flow_core::MAX_WORKERS;

/// A number of workers that is within its limits.
pub(crate) fn worker_count(workers: u32) -> Result<usize, CommandFault>
    ensures count { IfOk result (λ count. count ≡ workers) }
    ensures accepted { OnOk result (workers_fault workers ≡ None) }
    ensures refused { IfErr result (λ fault. workers_fault workers ≡ Some fault) }
    ensures device { NamesNoDevice result }
{
    if workers < 1 || workers > MAX_WORKERS {
        return Err(CommandFault::Workers);
    }
    Ok(workers as usize)
}
