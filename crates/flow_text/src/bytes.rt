//! Where bytes go and where they come from, and the calls that move all of them.

mod all_bytes;
mod device;
mod fault;
mod memory;
mod standard;

pub use all_bytes::{put_all, read_all, read_by_begin};
pub use device::{Sink, Source};
pub use fault::{ReadFault, Refused, WriteFault};
pub use memory::{MemorySink, MemorySource};
pub use standard::{StdSink, StdSource};
