//! Settled lanes: all that was sent was received, and nothing more can be sent.
ghost use Rattle.std.specs.Prelude.{◌≡◌, ◌+◌, ◌≤◌, ◌++◌, ◌↔◌, length, IsOk, IfOk, IfErr};
ghost use mathlib.Core.List.{IsPrefix};

use crate::{Receiver, Sender};
use std::marker::Model;

/// Both ends of a lane from which all was received that was sent. Nothing can be sent or received any more.
#[derive(Drop)]
pub struct Settled<T> {
    sender: Sender<T>,
    receiver: Receiver<T>,
}

impl<T> Model for Settled<T> {
    ghost use Rattle.std.specs.Prelude.{◌≡◌};
    ghost use Rattle.flow_lanes.specs.Lane.{SettledLane};

    ghost Value = { SettledLane T };

    ghost view = { λ s. record { lane = s.sender.lane; sent = s.sender.sent; received = s.receiver.received } };

    ghost invariant = { λ s. (s.receiver.lane ≡ s.sender.lane) × (s.receiver.received ≡ s.sender.sent) };
}

/// The settled lane of both ends, where all that was sent was received: nothing more can be sent. Otherwise returns
/// both ends: what was sent and received is unchanged, and the receiver knows each item that is still in the lane.
pub fn settle<T>(
    mut sender: Sender<T>,
    mut receiver: Receiver<T>,
) -> Result<Settled<T>, (Sender<T>, Receiver<T>)>
    requires { sender.lane ≡ receiver.lane }
    ensures received_in_order { IsPrefix receiver.received sender.sent }
    ensures within_capacity { length sender.sent ≤ length receiver.received + sender.lane.capacity }
    ensures ok_where_all_received { IsOk result ↔ (receiver.received ≡ sender.sent) }
    ensures settled { IfOk result
        (λ settled. (settled.lane ≡ sender.lane) × (settled.sent ≡ sender.sent)
        × (settled.received ≡ receiver.received)) }

    // Neither end knows less than before.
    ensures sender_back { IfErr result (λ ends.
        (ends.0.lane ≡ sender.lane) × (ends.0.sent ≡ sender.sent)
        × (sender.known_free ≤ ends.0.known_free)) }
    ensures receiver_back { IfErr result (λ ends.
        (ends.1.lane ≡ receiver.lane) × (ends.1.received ≡ receiver.received)
        × IsPrefix receiver.known_items ends.1.known_items) }
    ensures rest_is_known { IfErr result
        (λ ends. ends.1.received ++ ends.1.known_items ≡ ends.0.sent) }
{
    if receiver.consumer.slots_beside(&mut sender.producer) == 0 {
        Ok(Settled { sender, receiver })
    } else {
        Err((sender, receiver))
    }
}
