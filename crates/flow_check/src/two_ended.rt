//! The checker of two-ended certificates. Lines 1 to 4 are read in `four_lines.rt`, line 5 in `walk.rt`, and the last
//! line here.

ghost use Rattle.std.specs.Prelude.{◌≡◌, ◌⊎◌, ◌∷◌, ℕ, List, IfOk, IfErr, IsOkAnd, OnOk, Err};
ghost use Rattle.flow_shop.specs.Characters.{line_feed};
ghost use Rattle.flow_shop.specs.LeastMakespan.{IsSequence, IsLeastMakespan};
ghost use Rattle.flow_check.specs.Bounds.{AreBounds};
ghost use Rattle.flow_check.specs.TextLines.{line, ending};
ghost use Rattle.flow_check.specs.TwoEnded.{IsTwoEnded};
ghost use Rattle.flow_check.specs.TwoEndedFaults.{IsTwoEndedFault, IsNotTwoEnded};
ghost use Rattle.flow_check.specs.internal.DirectionsEnd.{IsEndFault};
ghost use Rattle.flow_check.specs.declared.bounds.Bounds.{Bounds};
ghost use Rattle.flow_check.specs.declared.fault.CheckFault.TheVariants.{Memory};

mod walk;

use crate::checker::is_ending;
use crate::fault::CheckFault;
use crate::four_lines::read_four_lines;
use crate::shown::Shown;
use crate::titles::TWO_ENDED_TITLE;
use flow_shop::Instance;
use std::alloc::Global;
use walk::directions_end;

/// The line of the directions, counted from 1.
const DIRECTIONS: usize = 5;

/// Whether a text is the end of a line and the last line; or its fault.
fn check_end(text: &[u8]) -> Result<(), CheckFault>
    ensures ends { OnOk result (text.now ≡ line_feed ∷ line ending) }
    ensures fault { IfErr result (λ fault. IsEndFault text.now fault) }
{
    let Some(last) = text.strip_prefix(b"\n") else {
        return Err(CheckFault::Tree(DIRECTIONS));
    };
    if !is_ending(last) {
        return Err(CheckFault::End);
    }
    Ok(())
}

/// What a lawful two-ended certificate shows, or the first fault of the text. Any lawful one is accepted, whoever made
/// it; `Memory` only where memory ran out.
pub fn check_two_ended(
    alloc: Global,
    instance: &Instance,
    bytes: &[u8],
) -> Result<Shown, CheckFault>
    ensures text { IfOk result (λ shown. IsTwoEnded instance.now bytes.now shown.bounds shown.sequence) }
    ensures each { IfOk result (λ shown. IsSequence instance.now.jobs shown.sequence) }
    ensures bounds { IfOk result (λ shown. AreBounds instance.now shown.bounds) }
    ensures least { IfOk result (λ shown. shown.bounds.lower ≡ shown.bounds.upper →
        IsLeastMakespan instance.now shown.bounds.lower) }
    ensures lawful { (bounds : Bounds) (sequence : List ℕ) → IsTwoEnded instance.now bytes.now bounds sequence →
        IsOkAnd result (λ shown. (shown.bounds ≡ bounds) × (shown.sequence ≡ sequence)) ⊎ (result ≡ Err Memory) }
    ensures fault { IfErr result (λ fault. IsTwoEndedFault instance.now bytes.now fault) }
    ensures none { IfErr result (λ fault. IsNotTwoEnded instance.now bytes.now fault) }
{
    let lines = read_four_lines(alloc, instance, TWO_ENDED_TITLE, bytes)?;
    let place = directions_end(alloc, instance, lines.bounds.lower, lines.rest)?;
    check_end(&lines.rest[place..])?;
    Ok(Shown {
        bounds: lines.bounds,
        sequence: lines.sequence,
    })
}
