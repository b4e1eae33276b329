//! How much a search of better sequences may do, as a caller says it.

ghost use Rattle.std.specs.Prelude.{◌≡◌, None, Some, IfOk, OnOk, IfErr};
ghost use Rattle.flow_c.specs.Faults.{effort_of, fault_of_effort};

use flow_improve::{Effort, EffortFault};

/// How much a search of better sequences may do.
#[repr(C)]
pub struct EffortNumbers {
    /// The greatest width of the beam; there is none where it is 0.
    pub width: u32,
    /// The most rounds of each run.
    pub rounds: u32,
    /// The seed of the random numbers of each run.
    pub seed: u32,
    /// The most steps of beam and rounds, in millions.
    pub work: u32,
}

impl EffortNumbers {
    /// The effort of the numbers; or the first fault.
    pub(crate) fn effort(&self) -> Result<Effort, EffortFault>
        ensures value { IfOk result (λ effort. effort ≡ effort_of self.now) }
        ensures accepted { OnOk result (fault_of_effort self.now ≡ None) }
        ensures refused { IfErr result (λ fault. fault_of_effort self.now ≡ Some fault) }
    {
        Effort::new(self.width, self.rounds, self.seed, self.work)
    }
}
