//! Faults of texts.

pub use flow_text::TextFault;
