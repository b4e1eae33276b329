//! The outcome of a call.

ghost use Rattle.std.specs.Prelude.{◌≡◌, ◌<◌};
ghost use Rattle.flow_c.specs.Statuses.{memory};
ghost use Rattle.flow_c.specs.Faults.{HasFault, IsDone};

use crate::fault::Fault;

/// The outcome of a call.
#[repr(C)]
#[derive(Clone, Copy, Debug)]
pub struct Outcome {
    /// That it was done, or the number of the fault.
    pub status: u32,
    /// The place of the fault; 0 where it has none, or where the call was done.
    pub place: usize,
}

impl Outcome {
    /// The call was done.
    pub(crate) fn done() -> Outcome
        ensures { IsDone result }
    {
        Outcome {
            status: 0,
            place: 0,
        }
    }

    /// The call refused.
    pub(crate) fn refused(fault: Fault) -> Outcome
        ensures fault { HasFault fault result }
        ensures refused { 0 < result.status }
        ensures memory { result.status ≡ memory → result.place ≡ 0 }
    {
        let (status, place) = fault.status();
        Outcome { status, place }
    }
}
