//! Faults of devices.

pub use flow_text::{ReadFault, WriteFault};
