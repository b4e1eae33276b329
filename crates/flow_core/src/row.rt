//! Rows.

pub use flow_shop::Row;
