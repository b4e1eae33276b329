//! Lanes: bounded queues from one thread to another, in one direction, over the rings of `rtrb`. The thread that owns
//! an end uses it, and may give it to another thread. No call waits for the other end.
//!
//! - `sender.rt`: the end of a lane that sends.
//! - `receiver.rt`: the end of a lane that receives.
//! - `settled.rt`: settled lanes: all that was sent was received, and nothing more can be sent.
#![tactic(auto)]

ghost use Rattle.std.specs.Prelude.{◌≡◌, ◌≤◌, [], IfOk};
ghost use Rattle.flow_lanes.specs.Lane.{most_slots};

mod receiver;
mod sender;
mod settled;

pub use receiver::Receiver;
use rtrb::RingBuffer;
pub use sender::Sender;
pub use settled::{Settled, settle};
use std::alloc::{AllocError, Global};

/// The two ends of a new, empty lane with `capacity` slots, 1 to 100,001. `AllocError` where memory ran out.
pub fn lane<T: Send + Drop>(
    alloc: Global,
    capacity: usize,
) -> Result<(Sender<T>, Receiver<T>), AllocError>
    requires at_least_one { 1 ≤ capacity }
    requires within_limit { capacity ≤ most_slots }
    ensures one_lane { IfOk result (λ ends. ends.0.lane ≡ ends.1.lane) }
    ensures its_capacity { IfOk result (λ ends. ends.0.lane.capacity ≡ capacity) }
    ensures fresh_sender { IfOk result
        (λ ends. (ends.0.sent ≡ []) × (ends.0.known_free ≡ capacity)) }
    ensures fresh_receiver { IfOk result
        (λ ends. (ends.1.received ≡ []) × (ends.1.known_items ≡ [])) }
{
    let (producer, consumer) = RingBuffer::new(alloc, capacity)?;
    Ok((Sender { producer }, Receiver { consumer }))
}
