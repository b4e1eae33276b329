//! The modules of blocks, of faults and of starts, by the names that contracts of other crates use.

pub mod block;
pub mod fault;
pub mod pick;
pub mod start;
