//! The two instances that are used most, with their texts, and the certificates of the one with three machines.

ghost use Rattle.std.specs.Prelude.{◌≡◌, IfOk};

use flow_core::{Instance, InstanceFault};
use std::alloc::Global;

/// Three jobs on three machines, with rows `4 0 0`, `0 8 2` and `4 0 1`.
pub fn three_machines(alloc: Global) -> Result<Instance, InstanceFault>
    ensures { IfOk result (λ instance. (instance.jobs ≡ 3) × (instance.machines ≡ 3)) }
{
    Instance::new(alloc, 3, 3, &[4, 0, 0, 0, 8, 2, 4, 0, 1])
}

/// Three jobs on two machines, with rows `3 1 2` and `2 4 2`.
pub fn two_machines(alloc: Global) -> Result<Instance, InstanceFault>
    ensures { IfOk result (λ instance. (instance.jobs ≡ 3) × (instance.machines ≡ 2)) }
{
    Instance::new(alloc, 3, 2, &[3, 1, 2, 2, 4, 2])
}

/// A text of the instance with three machines.
pub const THREE_MACHINES_TEXT: &[u8] = b"a\n3 3 0 0 0\nb\n4 0 0\n0 8 2\n4 0 1\n";

/// The text of the instance with two machines, as it is written.
pub const TWO_MACHINES_TEXT: &[u8] =
    b"number of jobs, number of machines, initial seed, upper bound and lower bound :\n\
    3 2 0 0 0\nprocessing times :\n3 1 2\n2 4 2\n";

/// The text of the instance of seed 1 with two jobs on two machines, as `gen` writes it.
pub const GENERATED_TEXT: &[u8] =
    b"number of jobs, number of machines, initial seed, upper bound and lower bound :\n\
    2 2 1 122 122\nprocessing times :\n1 14\n75 46\n";

/// The certificate of the instance with three machines at depth 0.
pub const CERTIFICATE_AT_DEPTH_0: [u8; 50] =
    *b"flowshop certificate 1\n3 3 0\n12\n3 1 2\n+BC++.B\nend\n";

/// The trees of the instance with three machines at depth 1.
pub const TREES_AT_DEPTH_1: [&[u8]; 3] = [b"B", b"C", b"++.B"];

/// A text for the same instance at depth 1 that is no certificate: the letter of its third tree, on line 7, has a bound
/// below the value.
pub const WEAK_CERTIFICATE: &[u8] = b"flowshop certificate 1\n3 3 1\n12\n3 1 2\nB\nC\n++.A\nend\n";

/// A two-ended certificate of the instance with three machines. The bound with no job put is 10. With 1, 2 and 3 at the
/// front the bounds are 14, 13 and 10; with 3 1 and 3 2 at the front they are 12 and 14.
pub const TWO_ENDED_12: &[u8] = b"flowshop two-ended 1\n3 3\n12 12\n3 1 2\n++\nend\n";

/// One of bounds that differ, for the same instance. With 1, 2 and 3 at the back the bounds are 14, 12 and 11.
pub const TWO_ENDED_11: &[u8] = b"flowshop two-ended 1\n3 3\n11 13\n2 1 3\n-\nend\n";
