//! What stays the same while a tree is walked.

ghost use Rattle.flow_shop.specs.Rows.{AreRows};

use flow_shop::{Instance, Row};

/// What stays the same while a tree is walked.
#[derive(Drop)]
pub struct Setting<'a> {
    /// The instance.
    pub instance: &'a Instance,
    /// The times of its jobs, a row for each job from 1 on.
    pub rows: &'a [Row],
    /// The most bytes that the tree may have.
    pub budget: usize,
    /// The version of the certificate, which says by which bound nodes are pruned.
    pub version: u32,
    ghost are_rows: { AreRows instance.now rows.now },
}
