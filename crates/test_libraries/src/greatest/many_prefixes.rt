//! 316 jobs on one machine, which all take 0. At depth 2 they have 316 * 315 = 99,540 prefixes.

use crate::greatest::texts::{jobs_line, joined};
use crate::greatest::written::is_written;
use flow_core::Instance;
use std::test::Fail;

/// The certificate at depth 2, of 200,273 bytes. All totals are equal, and so are all places: each job is put in before
/// those of a lower number. Every bound is 0, so machine 1 ends each tree at once.
#[test]
fn certificate_of_99_540_prefixes_is_written_and_accepted(rt: HostRuntime) -> Result<(), Fail> {
    let instance = Instance::new(rt.alloc(), 316, 1, &[0; 316])?;
    let jobs: Vec<u16> = (1..317u16).rev().collect(rt.alloc())?;
    let line = jobs_line(rt.alloc(), jobs.as_slice())?;
    let trees = b"A\n".repeat(rt.alloc(), 99_540)?;
    let title = b"flowshop certificate 1\n316 1 2\n0\n";
    let text = joined(
        rt.alloc(),
        &[title, line.as_slice(), trees.as_slice(), b"end\n"],
    )?;
    assert_eq!(rt; text.len(), 200_273);
    assert!(rt; is_written(rt.alloc(), &instance, 2, 99_540, text.as_slice(), 0)?);
    Ok(())
}
