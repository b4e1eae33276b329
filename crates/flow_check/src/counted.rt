//! The checker of counted certificates. Lines 1 to 4 are read in `four_lines.rt`, lines 5 and 6 here.

ghost use Rattle.std.specs.Prelude.{◌≡◌, ◌⊎◌, ◌≤◌, ℕ, List, IfOk, IfErr, IsOkAnd, OnOk, Err};
ghost use Rattle.flow_shop.specs.LeastMakespan.{IsSequence, IsLeastMakespan};
ghost use Rattle.flow_check.specs.Bounds.{AreBounds};
ghost use Rattle.flow_check.specs.CertificateFaults.{UnlessMemory};
ghost use Rattle.flow_check.specs.Counted.{IsCountedText, IsCountedAbove, OpensInAll};
ghost use Rattle.flow_check.specs.CountedFaults.{HasSearchFault, IsCountedFault, IsNotCounted};
ghost use Rattle.flow_check.specs.declared.bounds.Bounds.{Bounds};
ghost use Rattle.flow_check.specs.declared.fault.CheckFault.TheVariants.{Memory, Most};

use crate::checker::is_ending;
use crate::fault::CheckFault;
use crate::four_lines::read_four_lines;
use crate::number::read_number;
use crate::shown::Shown;
use crate::titles::COUNTED_TITLE;
use flow_directions::{Counted, Counter};
use flow_shop::Instance;
use std::alloc::Global;

/// The most nodes that a check of a counted certificate opens, where its reader names no other number.
pub const MOST_NODES: u64 = 10_000_000_000;

/// The line of the count, counted from 1.
const COUNT: usize = 5;

/// Searches below a threshold, from the node of two empty lists, with a count as the budget. The fault says how the
/// count is not that of the search.
fn check_search<C: Counter>(
    alloc: Global,
    counter: &C,
    instance: &Instance,
    threshold: u64,
    count: u64,
) -> Result<(), CheckFault>
    requires { C.is_ready counter.now }
    ensures opens { OnOk result (OpensInAll instance.now threshold count) }
    ensures fault { IfErr result (λ fault. UnlessMemory (HasSearchFault instance.now threshold count) fault) }
{
    match counter.count(alloc, instance, threshold, count)? {
        Counted::Proved(nodes) if nodes == count => Ok(()),
        Counted::Below { .. } => Err(CheckFault::Low(COUNT)),
        Counted::Proved(_) | Counted::Over => Err(CheckFault::Tree(COUNT)),
    }
}

/// What a lawful counted certificate shows, or the first fault of the text. Any lawful one is accepted, whoever made
/// it: `Most` only where it states more nodes than `most`, `Memory` only where memory ran out. The count of the text is
/// the budget of the search.
pub fn check_counted<C: Counter>(
    alloc: Global,
    counter: &C,
    instance: &Instance,
    bytes: &[u8],
    most: u64,
) -> Result<Shown, CheckFault>
    requires { C.is_ready counter.now }
    ensures text { IfOk result (λ shown. IsCountedText instance.now bytes.now shown.bounds shown.sequence) }
    ensures within { IfOk result (λ shown. ¬ IsCountedAbove instance.now most bytes.now) }
    ensures each { IfOk result (λ shown. IsSequence instance.now.jobs shown.sequence) }
    ensures bounds { IfOk result (λ shown. AreBounds instance.now shown.bounds) }
    ensures least { IfOk result (λ shown. shown.bounds.lower ≡ shown.bounds.upper →
        IsLeastMakespan instance.now shown.bounds.lower) }
    ensures lawful { (bounds : Bounds) (sequence : List ℕ) → IsCountedText instance.now bytes.now bounds sequence →
        IsOkAnd result (λ shown. (shown.bounds ≡ bounds) × (shown.sequence ≡ sequence)) ⊎ (result ≡ Err Memory)
        ⊎ ((result ≡ Err Most) × IsCountedAbove instance.now most bytes.now) }
    ensures fault { IfErr result (λ fault. IsCountedFault instance.now most bytes.now fault) }
    ensures none { IfErr result (λ fault. IsNotCounted instance.now bytes.now fault) }
{
    let lines = read_four_lines(alloc, instance, COUNTED_TITLE, bytes)?;
    let Some((count, last)) = read_number(lines.rest, b'\n') else {
        return Err(CheckFault::Value);
    };
    if count > most {
        return Err(CheckFault::Most);
    }
    check_search(alloc, counter, instance, lines.bounds.lower, count)?;
    if !is_ending(last) {
        return Err(CheckFault::End);
    }
    Ok(Shown {
        bounds: lines.bounds,
        sequence: lines.sequence,
    })
}
