//! Benchmark text: blocks of an instance with a seed and two bounds. Start text: a sequence, and its makespan.

mod block;
mod fault;
mod line;
mod line_kinds;
mod pick;
mod progress;
mod read;
mod start;
mod write;

pub use block::Block;
pub use fault::TextFault;
pub use pick::{Pick, PickFault, pick_block};
pub use read::read_blocks;
pub use start::{Claim, Start, StartFault, read_start};
pub use write::block_text;
