//! Faults of sequences.

pub use flow_shop::SequenceFault;
