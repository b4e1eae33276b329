//! Subtrees with at most eight jobs left: the children of a node side by side, one in each column.

mod children;
mod entry;
mod group;
mod releases;
mod vectors;
mod walk;

pub(crate) use group::{ColumnMemory, FEW};
pub(crate) use walk::walk_few;
