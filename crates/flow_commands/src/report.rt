//! The report of `check`.

ghost use Rattle.std.specs.Prelude.{◌≡◌, IfOk};
ghost use Rattle.std.specs.List.{count_by};
ghost use Rattle.flow_commands.specs.Report.{block_line, block_lines, is_direction, is_drawn, is_line_end};
ghost use Rattle.flow_commands.specs.Report.{nodes_in, proof_line, report_lines, size_lines, sum_line, times_line};
ghost use Rattle.flow_commands.specs.internal.Picked.{origin_of};

use crate::block::PickedBlock;
use crate::printed::{line_of, value_line, values_line};
use flow_check::TextKind;
use flow_core::{Block, Instance, InstanceFault, generate};
use sha2::{Digest, Sha256};
use std::alloc::{AllocError, Global};

/// How many bytes of a text end a line.
fn line_ends(text: &[u8]) -> usize
    ensures { result ≡ count_by is_line_end text.now }
{
    let mut count = 0;
    for byte in text {
        if *byte == b'\n' {
            count += 1;
        }
    }
    count
}

/// How many bytes of a text are directions.
fn directions(text: &[u8]) -> usize
    ensures { result ≡ count_by is_direction text.now }
{
    let mut count = 0;
    for byte in text {
        if *byte == b'+' || *byte == b'-' {
            count += 1;
        }
    }
    count
}

/// The nodes that a counted certificate states, in digits: its fifth line.
fn nodes(text: &[u8]) -> &[u8]
    ensures { result.now ≡ nodes_in text.now }
{
    text.split(|byte| *byte == b'\n').nth(4).unwrap_or(&[])
}

/// The line of how long the proof of a text is.
fn proof_line(alloc: Global, kind: TextKind, text: &[u8]) -> Result<Vec<u8>, AllocError>
    ensures { IfOk result (λ line. line.items ≡ proof_line kind text.now) }
{
    match kind {
        TextKind::Certificate => {
            let trees = line_ends(text).saturating_sub(5);
            value_line(alloc, b"trees ", trees as u64)
        }
        TextKind::TwoEnded => {
            let directions = directions(text).saturating_sub(1);
            value_line(alloc, b"directions ", directions as u64)
        }
        TextKind::Counted => line_of(alloc, b"nodes ", nodes(text)),
    }
}

/// Whether Taillard's generator draws an instance from a seed.
fn is_drawn(alloc: Global, instance: &Instance, seed: u32) -> Result<bool, AllocError>
    ensures { IfOk result (λ is. is ≡ is_drawn instance.now seed) }
{
    let jobs = u32::from(instance.jobs());
    let machines = u32::from(instance.machines());
    match generate(alloc, jobs, machines, seed) {
        Ok(drawn) => Ok(drawn == *instance),
        Err(InstanceFault::Memory) => Err(AllocError),
        Err(_) => Ok(false),
    }
}

/// The line of whether the times of a block are those of the seed in its head, which is 0 where there is none.
fn times_line(alloc: Global, block: &Block) -> Result<Vec<u8>, AllocError>
    ensures { IfOk result (λ line. line.items ≡ times_line block.now) }
{
    if block.seed == 0 {
        return Vec::from_slice(alloc, b"the head has no seed\n");
    }
    let seed = u64::from(block.seed);
    if is_drawn(alloc, &block.instance, block.seed)? {
        value_line(alloc, b"the times are those of seed ", seed)
    } else {
        value_line(alloc, b"the times are not those of seed ", seed)
    }
}

/// The line of the SHA-256 of some bytes.
fn sum_line(alloc: Global, words: &[u8], bytes: &[u8]) -> Result<Vec<u8>, AllocError>
    ensures { IfOk result (λ line. line.items ≡ sum_line words.now bytes.now) }
{
    let digits = hex::encode(alloc, Sha256::digest(bytes))?;
    line_of(alloc, words, digits.as_bytes())
}

/// The line of a block's number, and of how many blocks its text has.
fn block_line(alloc: Global, index: u32, count: usize) -> Result<Vec<u8>, AllocError>
    ensures { IfOk result (λ line. line.items ≡ block_line index count) }
{
    values_line(alloc, b"block ", u64::from(index), b" of ", count as u64)
}

/// The lines of the jobs and the machines.
fn size_lines(alloc: Global, instance: &Instance) -> Result<Vec<u8>, AllocError>
    ensures { IfOk result (λ lines. lines.items ≡ size_lines instance.now) }
{
    let mut lines = value_line(alloc, b"jobs ", u64::from(instance.jobs()))?;
    let machines = value_line(alloc, b"machines ", u64::from(instance.machines()))?;
    lines.extend_from_slice(machines.as_slice())?;
    Ok(lines)
}

/// The lines on the block that an index names.
fn block_lines(alloc: Global, picked: &PickedBlock) -> Result<Vec<u8>, AllocError>
    ensures { IfOk result (λ lines. lines.items ≡ block_lines (origin_of picked.now)) }
{
    let sum = sum_line(alloc, b"SHA-256 of the text ", picked.text.as_slice())?;
    let mut lines = block_line(alloc, picked.index, picked.count)?;
    lines.extend_from_slice(size_lines(alloc, &picked.block.instance)?.as_slice())?;
    lines.extend_from_slice(times_line(alloc, &picked.block)?.as_slice())?;
    lines.extend_from_slice(sum.as_slice())?;
    Ok(lines)
}

/// The lines of a report: on the block that an index names, and on a certificate.
pub(crate) fn report_lines(
    alloc: Global,
    picked: &PickedBlock,
    kind: TextKind,
    bytes: &[u8],
) -> Result<Vec<u8>, AllocError>
    ensures { IfOk result (λ lines.
        lines.items ≡ report_lines (origin_of picked.now) kind bytes.now) }
{
    let sum = sum_line(alloc, b"SHA-256 of the certificate ", bytes)?;
    let mut lines = block_lines(alloc, picked)?;
    lines.extend_from_slice(proof_line(alloc, kind, bytes)?.as_slice())?;
    lines.extend_from_slice(sum.as_slice())?;
    Ok(lines)
}
