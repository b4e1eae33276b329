//! What stays the same while the trees of a certificate are read.

ghost use Rattle.std.proofs.Props.{props};
ghost use Rattle.flow_shop.specs.Rows.{AreRows};

use flow_shop::{Instance, Row};

/// The text of the trees, and what they are to show: that no sequence of the shop has a makespan below the value.
#[derive(Drop)]
pub(crate) struct TreesText<'a> {
    /// The instance.
    pub(crate) shop: &'a Instance,
    /// The times of the instance, a row for each job from 1 on.
    pub(crate) rows: &'a [Row],
    /// The version of the certificate: 1 or 2. Each has its own bound.
    pub(crate) version: u32,
    /// The value. A bound or a makespan in the trees that is below it is a fault.
    pub(crate) value: u64,
    /// The text, from the first tree to its end.
    pub(crate) bytes: &'a [u8],
    ghost are_rows: { AreRows shop.now rows.now } by { Prim.hlevel props },
}
