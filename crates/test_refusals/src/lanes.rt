//! Lanes between threads.

use flow_commands::CommandFault;
use flow_lanes::{lane, settle};
use std::alloc::Global;

/// `lane`: a lane of two slots takes two items, and gives them in order.
pub(crate) fn lane_is_used(alloc: Global) -> Result<bool, CommandFault> {
    let (mut sender, mut receiver) = lane::<u32>(alloc, 2)?;
    let sent = sender.try_send(5).is_ok() && sender.try_send(6).is_ok();
    let received = receiver.try_recv() == Some(5) && receiver.try_recv() == Some(6);
    Ok(settle(sender, receiver).is_ok() && sent && received)
}
