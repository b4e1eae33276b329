//! How a block is written.

ghost use Rattle.std.specs.Prelude.{◌≡◌, ◌<◌, ◌≤◌, ◌++◌, ◌∷◌, [], length, OnOk, IfOk, decimal};
ghost use Rattle.flow_text.specs.Text.{Reads};
ghost use Rattle.flow_text.specs.Written.{row_text, head_label, times_label, written};
ghost use Rattle.flow_limits.specs.Limits.{greatest_number};

use crate::text::block::Block;
use flow_shop::Instance;
use itoa::Buffer;
use std::alloc::{AllocError, Global};

const HEAD_LABEL: &[u8] =
    b"number of jobs, number of machines, initial seed, upper bound and lower bound :\n";

const TIMES_LABEL: &[u8] = b"processing times :\n";

/// Appends a number without leading zeros.
fn push_number(out: &mut Vec<u8>, number: u32) -> Result<(), AllocError>
    ensures { OnOk result (out.new.items ≡ out.old.items ++ decimal number) }
{
    let mut buffer = Buffer::new();
    out.extend_from_slice(buffer.format(number).as_bytes())
}

/// Appends numbers with a space between each two, and the end of the line.
fn push_row(out: &mut Vec<u8>, numbers: &[u32]) -> Result<(), AllocError>
    requires { 0 < length numbers.now }
    ensures { OnOk result (out.new.items ≡ out.old.items ++ row_text numbers.now) }
{
    push_number(out, numbers[0])?;
    let others = &numbers[1..];
    for number in others {
        out.push(b' ')?;
        push_number(out, *number)?;
    }
    out.push(b'\n')?;
    Ok(())
}

/// Appends the head of a block: a line of five numbers.
fn push_head(
    out: &mut Vec<u8>,
    instance: &Instance,
    seed: u32,
    upper: u32,
    lower: u32,
) -> Result<(), AllocError>
    ensures row { OnOk result (out.new.items ≡ out.old.items
        ++ row_text (instance.now.jobs ∷ instance.now.machines ∷ seed ∷ upper ∷ lower ∷ [])) }
    ensures small { (seed ≤ greatest_number) × (upper ≤ greatest_number) × (lower ≤ greatest_number) }
{
    let jobs = u32::from(instance.jobs());
    let machines = u32::from(instance.machines());
    push_row(out, &[jobs, machines, seed, upper, lower])
}

/// Appends the label line of a head.
#[tactic(auto, unfolding(crate::specs::Written::head_label))]
fn push_head_label(out: &mut Vec<u8>) -> Result<(), AllocError>
    ensures { OnOk result (out.new.items ≡ out.old.items ++ head_label) }
{
    out.extend_from_slice(HEAD_LABEL)
}

/// Appends the label line of the times.
#[tactic(auto, unfolding(crate::specs::Written::times_label))]
fn push_times_label(out: &mut Vec<u8>) -> Result<(), AllocError>
    ensures { OnOk result (out.new.items ≡ out.old.items ++ times_label) }
{
    out.extend_from_slice(TIMES_LABEL)
}

/// The text of a block; `AllocError` where memory ran out.
pub fn block_text(alloc: Global, block: &Block) -> Result<Vec<u8>, AllocError>
    ensures value { IfOk result (λ text. text.items ≡ written block.now) }
    // It reads as that block alone.
    ensures again { IfOk result (λ text. Reads text.items (block.now ∷ [])) }
{
    let mut out = Vec::new(alloc);
    let instance = &block.instance;
    let jobs = instance.jobs() as usize;
    let machines = instance.machines() as usize;
    push_head_label(&mut out)?;
    push_head(&mut out, instance, block.seed, block.upper, block.lower)?;
    push_times_label(&mut out)?;
    let all_times = instance.times(alloc)?;
    let times = all_times.as_slice();
    for machine in 0..machines {
        let from = machine * jobs;
        push_row(&mut out, &times[from..from + jobs])?;
    }
    Ok(out)
}
