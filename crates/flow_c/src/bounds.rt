//! A sequence and bounds, in room that a caller lends.

ghost use Rattle.std.specs.Prelude.{◌≡◌, ◌≤◌, length, take, drop};
ghost use Rattle.flow_c.specs.Rooms.{IsSameRoom, bounds_in};

use crate::room::fill;
use flow_check::Bounds;
use flow_shop::Sequence;

/// Room for a sequence, and bounds between which the least makespan lies.
#[repr(C)]
pub struct BoundsRoom<'a> {
    /// Room for the jobs.
    pub sequence: &'a mut [u16],
    /// No sequence has a smaller makespan.
    pub lower: u64,
    /// The makespan of the sequence.
    pub upper: u64,
}

impl BoundsRoom<'_> {
    /// Takes a sequence and bounds.
    pub(crate) fn put(&mut self, sequence: &Sequence, bounds: Bounds)
        requires { length sequence.now ≤ length self.old.sequence.now }
        ensures sequence { take (length sequence.now) self.new.sequence.now ≡ sequence.now }
        ensures rest { drop (length sequence.now) self.new.sequence.now
            ≡ drop (length sequence.now) self.old.sequence.now }
        ensures bounds { bounds_in self.new ≡ bounds }
        ensures room { IsSameRoom self.new.sequence self.old.sequence }
    {
        fill(sequence.jobs(), self.sequence);
        self.lower = bounds.lower;
        self.upper = bounds.upper;
    }
}
