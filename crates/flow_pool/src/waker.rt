//! What wakes the hub: a gate that unparks it for each prefix that a worker receives, and when a worker has ended.

use crate::Gate;
use crossbeam_utils::sync::{Parker, Unparker};
use std::alloc::AllocError;

/// The gate that a run hands to its workers: it unparks the hub, and then tells the caller's gate. Not the other way
/// round: the caller's gate may hold a worker until another prefix is reached, which the hub has still to send.
#[derive(Drop)]
pub(crate) struct HubGate<'a, G> {
    gate: &'a G,
    hub: Unparker,
}

impl<'a, G> HubGate<'a, G> {
    /// The gate that unparks the hub, which parks at this parker.
    pub(crate) fn new(gate: &'a G, parker: &Parker) -> Result<HubGate<'a, G>, AllocError> {
        let hub = parker.unparker().clone()?;
        Ok(HubGate { gate, hub })
    }

    /// Unparks the hub, since a worker has served its last task.
    pub(crate) fn ended(&self) {
        self.hub.unpark();
    }
}

impl<'a, G: Gate> Gate for HubGate<'a, G> {
    fn reached(&self, lane: u32, number: u32) {
        self.hub.unpark();
        self.gate.reached(lane, number);
    }
}
