//! The module of faults of devices, by the name that contracts of other crates use.

pub mod fault;
