//! The end of a lane that receives.
ghost use Rattle.std.specs.Prelude.{◌≡◌, ◌<◌, ◌≤◌, [], ◌∷◌, ◌++◌, length, IsSome, IfSome, IfNone};
ghost use mathlib.Core.List.{IsPrefix};

use rtrb::Consumer;
use std::marker::Model;

/// The end of a lane that receives. A contract sees all that was received on it.
#[derive(Drop)]
pub struct Receiver<T> {
    pub(crate) consumer: Consumer<T>,
}

impl<T> Model for Receiver<T> {
    ghost use Rattle.flow_lanes.specs.Lane.{ReceivingEnd};
    ghost use Rattle.flow_lanes.specs.Views.{receiving_end};

    ghost Value = { ReceivingEnd T };

    ghost view = { λ r. receiving_end r.consumer };
}

impl<T> Receiver<T> {
    /// How many items are known to be in the lane. The next receives, as many as these, succeed. For callers alone: a
    /// run only tries to receive.
    pub fn ready(&mut self) -> usize
        ensures known { result ≡ length self.new.known_items }
        ensures same_lane { self.new.lane ≡ self.old.lane }
        ensures same_received { self.new.received ≡ self.old.received }
        ensures forgets_none { IsPrefix self.old.known_items self.new.known_items }
        ensures within_capacity { result ≤ self.old.lane.capacity }
    {
        self.consumer.slots()
    }

    /// Receives the next item. Where it returns `None` nothing has changed.
    pub fn try_recv(&mut self) -> Option<T>
        ensures same_lane { self.new.lane ≡ self.old.lane }
        ensures at_the_end { IfSome result
            (λ item. self.new.received ≡ self.old.received ++ item ∷ []) }
        ensures first_known { IfSome result
            (λ item. IsPrefix self.old.known_items (item ∷ self.new.known_items)) }
        ensures unchanged_at_none { IfNone result (self.new ≡ self.old) }
        ensures succeeds_where_known { 0 < length self.old.known_items → IsSome result }
    {
        self.consumer.pop().ok()
    }
}
