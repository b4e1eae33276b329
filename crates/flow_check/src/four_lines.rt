//! The first four lines of a text that states two bounds and a sequence.

ghost use Rattle.std.specs.Prelude.{◌≡◌, ℕ, ◌++◌, List, IfOk, IfSome, IfErr};
ghost use Rattle.std.specs.Option.{IsSomeAnd};
ghost use Rattle.flow_shop.specs.Shop.{IsWithinLimits};
ghost use Rattle.flow_check.specs.CertificateFaults.{UnlessMemory};
ghost use Rattle.flow_check.specs.FourLinesFaults.{HasFourLines, FailsWithinFour};
ghost use Rattle.flow_check.specs.internal.FourLines.{BeginsWithJobs, BeginsWithBounds};
ghost use Rattle.flow_check.specs.declared.bounds.Bounds.{Bounds};

use crate::bounds::Bounds;
use crate::fault::CheckFault;
use crate::heading::{after_counts, read_sequence_line};
use crate::number::read_number;
use flow_shop::{Instance, Sequence};
use std::alloc::Global;

/// What the four lines say, where they have no fault.
#[derive(Drop)]
pub(crate) struct FourLines<'a> {
    /// The bounds.
    pub(crate) bounds: Bounds,
    /// The sequence, whose makespan is the upper bound.
    pub(crate) sequence: Sequence,
    /// The text that follows.
    pub(crate) rest: &'a [u8],
}

/// The text after a title, with which a text begins.
fn after_title<'a>(title: &[u8], text: &'a [u8]) -> Option<&'a [u8]>
    ensures found { IfSome result (λ rest. text.now ≡ title.now ++ rest.now) }
    ensures only { (rest : List ℕ) → text.now ≡ title.now ++ rest → IsSomeAnd result (λ r. r.now ≡ rest) }
{
    text.strip_prefix(title)
}

/// The text after the line of so many jobs and machines, with which a text begins.
fn after_size(jobs: u16, machines: u16, text: &[u8]) -> Option<&[u8]>
    ensures found { IfSome result (λ rest. BeginsWithJobs jobs machines text.now rest.now) }
    ensures only { (rest : List ℕ) → BeginsWithJobs jobs machines text.now rest →
        IsSomeAnd result (λ r. r.now ≡ rest) }
{
    after_counts(jobs, machines, text, b'\n')
}

/// The bounds in the line with which a text begins, and the text after that line.
fn read_bounds(text: &[u8]) -> Option<(Bounds, &[u8])>
    ensures found { IfSome result (λ r. BeginsWithBounds text.now r.0 r.1.now) }
    ensures only { (bounds : Bounds) (rest : List ℕ) → BeginsWithBounds text.now bounds rest →
        IsSomeAnd result (λ r. (r.0 ≡ bounds) × (r.1.now ≡ rest)) }
{
    let (lower, upper_text) = read_number(text, b' ')?;
    let (upper, rest) = read_number(upper_text, b'\n')?;
    Some((Bounds { lower, upper }, rest))
}

/// Reads four lines, the first of which is a title. Returns what they say, or their first fault.
pub(crate) fn read_four_lines<'a>(
    alloc: Global,
    instance: &Instance,
    title: &[u8],
    text: &'a [u8],
) -> Result<FourLines<'a>, CheckFault>
    ensures limits { IsWithinLimits instance.now }
    ensures four { IfOk result (λ lines.
        HasFourLines title.now instance.now text.now lines.bounds lines.sequence lines.rest.now) }
    ensures fault { IfErr result (λ fault. UnlessMemory (FailsWithinFour title.now instance.now text.now) fault) }
{
    let jobs = instance.jobs();
    let machines = instance.machines();
    let Some(size_text) = after_title(title, text) else {
        // No command comes here: where line 1 is another, `kind_of` has the text read as another kind.
        return Err(CheckFault::Header);
    };
    let Some(bounds_text) = after_size(jobs, machines, size_text) else {
        return Err(CheckFault::Size);
    };
    let Some((bounds, sequence_text)) = read_bounds(bounds_text) else {
        return Err(CheckFault::Value);
    };
    let line = read_sequence_line(alloc, instance, sequence_text)?;
    if line.makespan != bounds.upper {
        return Err(CheckFault::NotAttained);
    }
    Ok(FourLines {
        bounds,
        sequence: line.sequence,
        rest: line.rest,
    })
}
