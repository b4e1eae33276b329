//! Slices that the caller lends for results.

ghost use Rattle.std.specs.Prelude.{◌≡◌, ◌<◌, ◌≤◌, None, Some, length, take, drop, OnOk, IfErr};
ghost use Rattle.flow_c.specs.Faults.{room_fault};
ghost use Rattle.flow_c.specs.declared.fault.Fault.TheVariants.{Room};

use crate::fault::Fault;

/// The entries of the slices for a sequence and for a text.
#[derive(Clone, Copy, Debug)]
pub(crate) struct Entries {
    pub(crate) sequence: usize,
    pub(crate) text: usize,
}

/// Refuses a slice that has fewer entries than are needed.
pub(crate) fn need(needed: usize, entries: usize) -> Result<(), Fault>
    ensures accepted { OnOk result (room_fault needed entries ≡ None) }
    ensures refused { IfErr result (λ fault. room_fault needed entries ≡ Some fault) }
    ensures short { IfErr result (λ fault. (fault ≡ Room needed) × (entries < needed)) }
    ensures enough { OnOk result (needed ≤ entries) }
{
    if needed > entries {
        return Err(Fault::Room(needed));
    }
    Ok(())
}

/// Copies numbers to the front of a slice that has room for them.
pub(crate) fn fill<T: Copy>(from: &[T], room: &mut [T])
    requires { length from.now ≤ length room.old }
    ensures front { take (length from.now) room.new ≡ from.now }
    ensures rest { drop (length from.now) room.new ≡ drop (length from.now) room.old }
{
    room[..from.len()].copy_from_slice(from);
}
