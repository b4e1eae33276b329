//! Reading the trees of a certificate.

ghost use Rattle.std.specs.Prelude.{◌≤◌};
ghost use Rattle.flow_check.specs.internal.Trees.{TreesGive};

use crate::fault::CheckFault;
use crate::heading::Heading;
use crate::reader::{Spot, TreeReader};
use crate::trees_text::TreesText;
use flow_shop::{Instance, rows};
use std::alloc::Global;

/// The line of the first tree, counted from 1.
const FIRST_TREE: usize = 5;

/// Reads the trees of the cut that a heading asks for, a line each. Returns the place where the last line begins.
pub(crate) fn trees_end(
    alloc: Global,
    instance: &Instance,
    heading: &Heading,
) -> Result<usize, CheckFault>
    requires { heading.now.depth ≤ instance.now.jobs }
    ensures { TreesGive instance.now heading.now.version heading.now.depth heading.now.value
        heading.now.trees.now result }
{
    let rows = rows(alloc, instance)?;
    let mut reader = TreeReader::new(alloc, instance, heading.version)?;
    let text = TreesText {
        shop: instance,
        rows: rows.as_slice(),
        version: heading.version,
        value: heading.value,
        bytes: heading.trees,
    };
    let first = Spot {
        line: FIRST_TREE,
        at: 0,
    };
    if heading.depth == 0 {
        let end = reader.read_one_line(&text, first)?;
        return Ok(end.at);
    }
    let end = reader.read_lines(&text, heading.depth, first)?;
    Ok(end.at)
}
