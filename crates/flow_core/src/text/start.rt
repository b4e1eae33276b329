//! What a start text says, and its faults.

pub use flow_text::{Claim, StartFault};
