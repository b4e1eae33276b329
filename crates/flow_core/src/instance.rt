//! Faults of instances.

pub use flow_shop::InstanceFault;
