//! Laws of the definitions: each contract is a theorem, and no body does anything.

ghost use Rattle.flow_certify.specs.Schedule.{OneTaskIsNext, StepsAreInOrder, WholeIsPassedOver};

/// A run has one task that is next, and stands at one place when that is known.
pub fn one_task_is_next()
    ensures { OneTaskIsNext }
{}

/// The acts begin eight steps in order. Those with which a run goes on where no better sequence is looked for are
/// passed over by a run that comes there act by act.
pub fn acts_are_in_order()
    ensures steps { StepsAreInOrder }
    ensures whole { WholeIsPassedOver }
{}
