//! Certificates as they are written and checked.

use crate::plans::planned;
use flow_cert::write_certificate;
use flow_check::check;
use flow_core::{Instance, MemorySink};
use flow_search::solve_plain;
use std::alloc::Global;
use std::test::Fail;

/// Whether an instance has so many prefixes at a depth, its certificate there, within a budget of one byte for a tree,
/// is this text, and the checker accepts it for this makespan. The sink takes no more bytes.
pub(crate) fn is_written(
    alloc: Global,
    instance: &Instance,
    depth: u32,
    prefixes: u32,
    text: &[u8],
    value: u64,
) -> Result<bool, Fail> {
    let plan = planned(alloc, instance, 1, (depth, 1, 1))?;
    let verdict = solve_plain(alloc, &plan)?;
    let mut sink = MemorySink::new(alloc, text.len());
    write_certificate(&plan, &verdict, &mut sink)?;
    let is_text = plan.prefixes() == prefixes && sink.bytes() == text;
    Ok(is_text && check(alloc, instance, text)? == value)
}
