//! A lane used step by step in one thread, and a thousand items sent from one thread to another.
ghost use Rattle.std.specs.Prelude.{◌≡◌};

use flow_lanes::{Receiver, Sender, lane, settle};
use std::alloc::Global;
use std::sync::Wait;
use std::thread::{self, Threads};

/// A step at a lane of numbers, with what it gives.
enum Step {
    /// An item is taken.
    Sent(u32),
    /// An item is handed back.
    HandedBack(u32),
    /// So many items are known to be in the lane.
    Ready(usize),
    /// So many slots are known to be free.
    Room(usize),
    /// What is received.
    Received(Option<u32>),
}

impl Step {
    /// Makes the step, and says whether it gave what it should.
    fn is_right(&self, sender: &mut Sender<u32>, receiver: &mut Receiver<u32>) -> bool
        ensures sender { sender.new.lane ≡ sender.old.lane }
        ensures receiver { receiver.new.lane ≡ receiver.old.lane }
    {
        match self {
            Step::Sent(item) => sender.try_send(*item) == Ok(()),
            Step::HandedBack(item) => sender.try_send(*item) == Err(*item),
            Step::Ready(count) => receiver.ready() == *count,
            Step::Room(count) => sender.room() == *count,
            Step::Received(item) => receiver.try_recv() == *item,
        }
    }
}

/// Steps at a lane of two slots.
static STEPS: [Step; 10] = [
    Step::Sent(5),
    Step::Sent(6),
    Step::HandedBack(7),
    Step::Ready(2),
    Step::Received(Some(5)),
    Step::Sent(7),
    Step::Received(Some(6)),
    Step::Received(Some(7)),
    Step::Received(None),
    Step::Room(2),
];

/// Whether all steps give what they should, and the lane is settled then.
fn are_right(alloc: Global) -> bool {
    let Ok((mut sender, mut receiver)) = lane(alloc, 2) else {
        return false;
    };
    let mut right = true;
    'steps: for step in &STEPS {
        right = step.is_right(&mut sender, &mut receiver) && right;
    }
    settle(sender, receiver).is_ok() && right
}

#[test]
fn lane_gives_what_is_known(rt: HostRuntime) {
    assert!(rt; are_right(rt.alloc()));
}

/// Whether a lane is handed back, since this item alone stands in it; and settled once it was received.
pub(crate) fn holds_only<T: PartialEq + Drop>(
    sender: Sender<T>,
    receiver: Receiver<T>,
    item: T,
) -> bool
    requires { sender.lane ≡ receiver.lane }
{
    let Err((sender, mut receiver)) = settle(sender, receiver) else {
        return false;
    };
    receiver.try_recv() == Some(item) && settle(sender, receiver).is_ok()
}

/// Whether a lane with an item is handed back.
fn is_handed_back(alloc: Global) -> bool {
    let Ok((mut sender, receiver)) = lane(alloc, 2) else {
        return false;
    };
    let sent = sender.try_send(7) == Ok(());
    holds_only(sender, receiver, 7u32) && sent
}

#[test]
fn settle_hands_back_a_lane_with_an_item(rt: HostRuntime) {
    assert!(rt; is_handed_back(rt.alloc()));
}

// Sends the numbers from 1 to 1,000. Tries each again until the lane takes it.
fn send_thousand<R: Wait>(rt: &R, mut sender: Sender<u32>) -> Sender<u32>
    ensures { result.lane ≡ sender.lane }
{
    let mut next = 1u32;
    'sending: for _ in rt.forever() {
        if next > 1000 {
            break;
        }
        match sender.try_send(next) {
            Ok(()) => next += 1,
            Err(_) => thread::yield_now(),
        }
    }
    sender
}

// Receives 1,000 items, and returns whether they are the numbers from 1 to 1,000 in order.
fn receive_thousand<R: Wait>(rt: &R, mut receiver: Receiver<u32>) -> (Receiver<u32>, bool)
    ensures { result.0.lane ≡ receiver.lane }
{
    let mut in_order = true;
    let mut next = 1u32;
    'receiving: for _ in rt.forever() {
        if next > 1000 {
            break;
        }
        match receiver.try_recv() {
            Some(item) => {
                in_order = in_order && item == next;
                next += 1;
            }
            None => thread::yield_now(),
        }
    }
    (receiver, in_order)
}

/// Whether a thousand items cross between threads in order, and the lane is settled then.
fn cross<R: Threads + Wait + Sync>(rt: &R, alloc: Global) -> bool {
    let Ok((sender, receiver)) = lane(alloc, 4) else {
        return false;
    };
    let (sender, (receiver, in_order)) = thread::join(
        rt,
        move || send_thousand(rt, sender),
        move || receive_thousand(rt, receiver),
    );
    settle(sender, receiver).is_ok() && in_order
}

#[test]
fn thousand_items_cross_between_threads(rt: HostRuntime) {
    assert!(rt; cross(&rt, rt.alloc()));
}
