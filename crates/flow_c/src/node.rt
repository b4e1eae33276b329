//! The lists of a node, as a caller lends them.

ghost use Rattle.std.specs.Prelude.{◌≡◌, ◌++◌, [], None, Some, OnOk, IfErr};
ghost use Rattle.std.specs.Option.{option_map};
ghost use Rattle.flow_shop.specs.Sequences.{AreJobs};
ghost use Rattle.flow_shop.specs.SequenceFaults.{place_fault};
ghost use Rattle.flow_c.specs.declared.fault.Fault.TheVariants.{Sequence};

use crate::fault::Fault;
use flow_shop::{Instance, JobSet, insert_all};

/// The lists of a node: its sequences begin with the first one, and end with the last one.
#[repr(C)]
pub struct NodeLists<'a> {
    /// The first list.
    pub first: &'a [u16],
    /// The last list.
    pub last: &'a [u16],
}

impl NodeLists<'_> {
    /// Refuses lists with a job that is not one of an instance, or one twice. The places of faults are those in the
    /// first list and then the last one.
    pub(crate) fn test(&self, instance: &Instance) -> Result<(), Fault>
        ensures accepted { OnOk result
            (place_fault instance.now.jobs [] (self.now.first.now ++ self.now.last.now) ≡ None) }
        ensures jobs { OnOk result (AreJobs instance.now.jobs (self.now.first.now ++ self.now.last.now)) }
        ensures refused { IfErr result (λ fault. option_map Sequence
            (place_fault instance.now.jobs [] (self.now.first.now ++ self.now.last.now)) ≡ Some fault) }
    {
        let mut taken = JobSet::none();
        if let Some(fault) = insert_all(instance, &mut taken, 0, self.first) {
            return Err(Fault::Sequence(fault));
        }
        match insert_all(instance, &mut taken, self.first.len(), self.last) {
            Some(fault) => Err(Fault::Sequence(fault)),
            None => Ok(()),
        }
    }
}
