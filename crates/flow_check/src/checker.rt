//! The checker of certificates.

ghost use Rattle.std.specs.Prelude.{◌≡◌, ◌⊎◌, ℕ, List, IfOk, IfErr, IsOkAnd, Ok, Err};
ghost use Rattle.std.specs.Str.{bytes_eq};
ghost use Rattle.flow_shop.specs.Paths.{span};
ghost use Rattle.flow_shop.specs.LeastMakespan.{IsLeastMakespan, IsSequence};
ghost use Rattle.flow_check.specs.Certificate.{IsCertificate};
ghost use Rattle.flow_check.specs.TextLines.{line, ending};
ghost use Rattle.flow_check.specs.Faults.{IsFirstFault, IsOfNoValue};
ghost use Rattle.flow_check.specs.Stated.{GivesAs, GivesSequence};
ghost use Rattle.flow_check.specs.declared.bounds.Bounds.{Bounds};
ghost use Rattle.flow_check.specs.declared.fault.CheckFault.TheVariants.{Memory};
ghost use Rattle.flow_check.specs.declared.kind.TextKind.TheVariants.{Certificate};

use crate::bounds::Bounds;
use crate::fault::CheckFault;
use crate::heading::read_heading;
use crate::shown::Shown;
use crate::titles::LAST_LINE;
use crate::trees::trees_end;
use flow_shop::{Instance, Sequence};
use std::alloc::Global;

/// Whether a text is the last line alone.
pub(crate) fn is_ending(text: &[u8]) -> bool
    ensures { result ≡ bytes_eq text.now (line ending) }
{
    text == LAST_LINE
}

/// What a lawful certificate shows, or the first fault of the text. Its value is both bounds.
pub(crate) fn check_certificate(
    alloc: Global,
    instance: &Instance,
    bytes: &[u8],
) -> Result<Shown, CheckFault>
    ensures text { IfOk result (λ shown.
        GivesAs Certificate instance.now bytes.now shown.bounds shown.sequence) }
    ensures lawful { (bounds : Bounds) (sequence : List ℕ) →
        GivesAs Certificate instance.now bytes.now bounds sequence →
        IsOkAnd result (λ shown. (shown.bounds ≡ bounds) × (shown.sequence ≡ sequence)) ⊎ (result ≡ Err Memory) }
    ensures fault { IfErr result (λ fault. IsFirstFault instance.now bytes.now fault) }
    ensures none { IfErr result (λ fault. IsOfNoValue instance.now bytes.now fault) }
{
    let heading = read_heading(alloc, instance, bytes)?;
    let end = trees_end(alloc, instance, &heading)?;
    if !is_ending(&heading.trees[end..]) {
        return Err(CheckFault::End);
    }
    let value = heading.value;
    Ok(Shown {
        bounds: Bounds {
            lower: value,
            upper: value,
        },
        sequence: heading.sequence,
    })
}

/// The value of a lawful certificate, which is the instance's least makespan, or the first fault of the text. Any
/// lawful certificate is accepted, whoever made it; `Memory` only where memory ran out.
pub fn check(alloc: Global, instance: &Instance, bytes: &[u8]) -> Result<u64, CheckFault>
    ensures value { IfOk result (λ value. IsCertificate instance.now bytes.now value) }
    ensures least { IfOk result (λ value. IsLeastMakespan instance.now value) }
    ensures sound { (value : ℕ) → IsCertificate instance.now bytes.now value → IsLeastMakespan instance.now value }
    ensures lawful { (value : ℕ) → IsCertificate instance.now bytes.now value →
        (result ≡ Ok value) ⊎ (result ≡ Err Memory) }
    ensures fault { IfErr result (λ fault. IsFirstFault instance.now bytes.now fault) }
    ensures none { IfErr result (λ fault. IsOfNoValue instance.now bytes.now fault) }
{
    let shown = check_certificate(alloc, instance, bytes)?;
    Ok(shown.bounds.lower)
}

/// The sequence of a lawful certificate, whose makespan is the instance's least, or the first fault of the text.
/// Accepts and refuses what `check` does.
pub fn check_sequence(
    alloc: Global,
    instance: &Instance,
    bytes: &[u8],
) -> Result<Sequence, CheckFault>
    ensures sequence { IfOk result (GivesSequence instance.now bytes.now) }
    ensures each { IfOk result (IsSequence instance.now.jobs) }
    ensures least { IfOk result (λ sequence. IsLeastMakespan instance.now (span instance.now sequence)) }
    ensures fault { IfErr result (λ fault. IsFirstFault instance.now bytes.now fault) }
    ensures none { IfErr result (λ fault. IsOfNoValue instance.now bytes.now fault) }
{
    let Shown { sequence, .. } = check_certificate(alloc, instance, bytes)?;
    Ok(sequence)
}
