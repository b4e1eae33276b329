//! Blocks.

pub use flow_text::Block;
