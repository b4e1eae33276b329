//! The checker of texts of each kind.

ghost use Rattle.std.specs.Prelude.{◌≡◌, ◌⊎◌, ℕ, List, IfOk, IfErr, IsOkAnd, Err};
ghost use Rattle.flow_shop.specs.LeastMakespan.{IsLeastMakespan, IsSequence};
ghost use Rattle.flow_check.specs.Bounds.{AreBounds};
ghost use Rattle.flow_check.specs.Counted.{most_nodes};
ghost use Rattle.flow_check.specs.Faults.{IsFaultAs, IsUnlawfulAs};
ghost use Rattle.flow_check.specs.Stated.{GivesAs, IsAbove};
ghost use Rattle.flow_check.specs.declared.bounds.Bounds.{Bounds};
ghost use Rattle.flow_check.specs.declared.fault.CheckFault.TheVariants.{Memory, Most};

use crate::checker::check_certificate;
use crate::counted::{MOST_NODES, check_counted};
use crate::fault::CheckFault;
use crate::kind::TextKind;
use crate::shown::Shown;
use crate::two_ended::check_two_ended;
use flow_directions::{Alone, Counter};
use flow_shop::Instance;
use std::alloc::Global;

/// What a lawful text of a kind shows, or the first fault of the text. Its bounds hold, and where both are one number,
/// it is the least makespan. Any lawful text of the kind is accepted, whoever made it: `Most` only of a counted
/// certificate that states more nodes than `most`, `Memory` only where memory ran out.
pub fn check_text_by<C: Counter>(
    alloc: Global,
    counter: &C,
    most: u64,
    kind: TextKind,
    instance: &Instance,
    bytes: &[u8],
) -> Result<Shown, CheckFault>
    requires { C.is_ready counter.now }
    ensures text { IfOk result (λ shown. GivesAs kind instance.now bytes.now shown.bounds shown.sequence) }
    ensures within { IfOk result (λ shown. ¬ IsAbove kind most instance.now bytes.now) }
    ensures each { IfOk result (λ shown. IsSequence instance.now.jobs shown.sequence) }
    ensures bounds { IfOk result (λ shown. AreBounds instance.now shown.bounds) }
    ensures least { IfOk result (λ shown. shown.bounds.lower ≡ shown.bounds.upper →
        IsLeastMakespan instance.now shown.bounds.lower) }
    ensures lawful { (bounds : Bounds) (sequence : List ℕ) → GivesAs kind instance.now bytes.now bounds sequence →
        IsOkAnd result (λ shown. (shown.bounds ≡ bounds) × (shown.sequence ≡ sequence)) ⊎ (result ≡ Err Memory)
        ⊎ ((result ≡ Err Most) × IsAbove kind most instance.now bytes.now) }
    ensures fault { IfErr result (λ fault. IsFaultAs kind most instance.now bytes.now fault) }
    ensures none { IfErr result (λ fault. IsUnlawfulAs kind instance.now bytes.now fault) }
{
    match kind {
        TextKind::Certificate => check_certificate(alloc, instance, bytes),
        TextKind::TwoEnded => check_two_ended(alloc, instance, bytes),
        TextKind::Counted => check_counted(alloc, counter, instance, bytes, most),
    }
}

/// What a lawful text of a kind shows, or the first fault of the text, as `check_text_by` returns it. A counted
/// certificate is searched on the calling thread, and may state `MOST_NODES` nodes at most.
pub fn check_text(
    alloc: Global,
    kind: TextKind,
    instance: &Instance,
    bytes: &[u8],
) -> Result<Shown, CheckFault>
    ensures text { IfOk result (λ shown. GivesAs kind instance.now bytes.now shown.bounds shown.sequence) }
    ensures within { IfOk result (λ shown. ¬ IsAbove kind most_nodes instance.now bytes.now) }
    ensures each { IfOk result (λ shown. IsSequence instance.now.jobs shown.sequence) }
    ensures bounds { IfOk result (λ shown. AreBounds instance.now shown.bounds) }
    ensures least { IfOk result (λ shown. shown.bounds.lower ≡ shown.bounds.upper →
        IsLeastMakespan instance.now shown.bounds.lower) }
    ensures lawful { (bounds : Bounds) (sequence : List ℕ) → GivesAs kind instance.now bytes.now bounds sequence →
        IsOkAnd result (λ shown. (shown.bounds ≡ bounds) × (shown.sequence ≡ sequence)) ⊎ (result ≡ Err Memory)
        ⊎ ((result ≡ Err Most) × IsAbove kind most_nodes instance.now bytes.now) }
    ensures fault { IfErr result (λ fault. IsFaultAs kind most_nodes instance.now bytes.now fault) }
    ensures none { IfErr result (λ fault. IsUnlawfulAs kind instance.now bytes.now fault) }
{
    check_text_by(alloc, &Alone, MOST_NODES, kind, instance, bytes)
}
