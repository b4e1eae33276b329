//! The end of a lane that sends.
ghost use Rattle.std.specs.Prelude.{◌≡◌, ◌+◌, ◌<◌, ◌≤◌, [], ◌∷◌, ◌++◌, IsOk, OnOk, IfErr};

use rtrb::{Producer, PushError};
use std::marker::Model;

/// The end of a lane that sends. A contract sees all that was sent on it.
#[derive(Drop)]
pub struct Sender<T> {
    pub(crate) producer: Producer<T>,
}

impl<T> Model for Sender<T> {
    ghost use Rattle.flow_lanes.specs.Lane.{SendingEnd};
    ghost use Rattle.flow_lanes.specs.Views.{sending_end};

    ghost Value = { SendingEnd T };

    ghost view = { λ s. sending_end s.producer };
}

impl<T> Sender<T> {
    /// How many slots are known to be free. The next sends, as many as these, succeed. For callers alone: a run only
    /// tries to send.
    pub fn room(&mut self) -> usize
        ensures known { self.new ≡ record self.old { known_free = result } }
        ensures forgets_none { self.old.known_free ≤ result }
        ensures within_capacity { result ≤ self.old.lane.capacity }
    {
        self.producer.slots()
    }

    /// Sends `item`. Where no slot is free it returns `item`, and changes nothing.
    pub fn try_send(&mut self, item: T) -> Result<(), T>
        ensures same_lane { self.new.lane ≡ self.old.lane }
        ensures at_the_end { OnOk result (self.new.sent ≡ self.old.sent ++ item ∷ []) }
        ensures uses_at_most_one { OnOk result (self.old.known_free ≤ self.new.known_free + 1) }
        ensures handed_back { IfErr result (λ back. (back ≡ item) × (self.new ≡ self.old)) }
        ensures succeeds_where_known { 0 < self.old.known_free → IsOk result }
    {
        match self.producer.push(item) {
            Ok(()) => Ok(()),
            Err(PushError::Full(back)) => Err(back),
        }
    }
}
