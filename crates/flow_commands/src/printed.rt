//! The lines that commands print.

ghost use Rattle.std.specs.Prelude.{◌≡◌, ◌++◌, IfOk, codes};
ghost use Rattle.flow_commands.specs.Printed.{bounds_line, makespan_line, optimal_line, sequence_line};
ghost use Rattle.flow_commands.specs.Printed.{value_line, values_line};

use itoa::Buffer;
use std::alloc::{AllocError, Global};

/// The line of a makespan.
pub(crate) fn makespan_line(alloc: Global, value: u64) -> Result<Vec<u8>, AllocError>
    ensures { IfOk result (λ line. line.items ≡ makespan_line value) }
{
    value_line(alloc, b"makespan ", value)
}

/// The line of a value that a text proves least.
pub(crate) fn optimal_line(alloc: Global, value: u64) -> Result<Vec<u8>, AllocError>
    ensures { IfOk result (λ line. line.items ≡ optimal_line value) }
{
    value_line(alloc, b"optimal ", value)
}

/// The line of the bounds that a text proves.
pub(crate) fn bounds_line(alloc: Global, lower: u64, upper: u64) -> Result<Vec<u8>, AllocError>
    ensures { IfOk result (λ line. line.items ≡ bounds_line lower upper) }
{
    values_line(alloc, b"bounds ", lower, b" ", upper)
}

/// A line of some words and a value.
pub(crate) fn value_line(alloc: Global, words: &[u8], value: u64) -> Result<Vec<u8>, AllocError>
    ensures { IfOk result (λ line. line.items ≡ value_line words.now value) }
{
    let mut buffer = Buffer::new();
    line_of(alloc, words, buffer.format(value).as_bytes())
}

/// A line of some words, a value, words between, and another value.
pub(crate) fn values_line(
    alloc: Global,
    words: &[u8],
    value: u64,
    between: &[u8],
    other: u64,
) -> Result<Vec<u8>, AllocError>
    ensures { IfOk result (λ line. line.items ≡ values_line words.now value between.now other) }
{
    let mut buffer = Buffer::new();
    let mut line = Vec::from_slice(alloc, words)?;
    line.extend_from_slice(buffer.format(value).as_bytes())?;
    line.extend_from_slice(between)?;
    line.extend_from_slice(buffer.format(other).as_bytes())?;
    line.push(b'\n')?;
    Ok(line)
}

/// A line of some words and what follows them.
pub(crate) fn line_of(alloc: Global, words: &[u8], rest: &[u8]) -> Result<Vec<u8>, AllocError>
    ensures { IfOk result (λ line. line.items ≡ words.now ++ rest.now ++ codes "\n") }
{
    let mut line = Vec::from_slice(alloc, words)?;
    line.extend_from_slice(rest)?;
    line.push(b'\n')?;
    Ok(line)
}

/// The line of a sequence.
fn sequence_line(alloc: Global, jobs: &[u16]) -> Result<Vec<u8>, AllocError>
    ensures { IfOk result (λ line. line.items ≡ sequence_line jobs.now) }
{
    let mut buffer = Buffer::new();
    let mut line = Vec::from_slice(alloc, b"sequence")?;
    for job in jobs {
        line.push(b' ')?;
        line.extend_from_slice(buffer.format(*job).as_bytes())?;
    }
    line.push(b'\n')?;
    Ok(line)
}

/// The lines of a sequence and its makespan.
pub(crate) fn sequence_lines(
    alloc: Global,
    jobs: &[u16],
    makespan: u64,
) -> Result<Vec<u8>, AllocError>
    ensures { IfOk result (λ lines. lines.items ≡ sequence_line jobs.now ++ makespan_line makespan) }
{
    let mut lines = sequence_line(alloc, jobs)?;
    lines.extend_from_slice(makespan_line(alloc, makespan)?.as_slice())?;
    Ok(lines)
}
