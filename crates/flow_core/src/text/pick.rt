//! Blocks that an index names, and why it names none.

pub use flow_text::{Pick, PickFault};
