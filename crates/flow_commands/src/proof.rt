//! How a proof by directions is kept and written, by the form that is asked for and the limit on directions.

ghost use Rattle.std.specs.Prelude.{◌≡◌, None, Some, IfOk, OnOk, IfErr};
ghost use Rattle.flow_commands.specs.internal.Devices.{NamesNoDevice};
ghost use Rattle.flow_commands.specs.Certify.{directions_fault, keeps_signs, writes_signs};

use crate::refusals::CommandFault;
use flow_certify::{MAX_COUNTED_DIRECTIONS, MostDirections, ProofLimits};
use flow_core::MAX_DIRECTIONS;
use flow_requests::ProofForm;

/// The greatest limit on directions with which their signs are kept where no form is asked for.
const MOST_KEPT: u64 = 100_000_000;

/// The most directions that are written as signs where no form is asked for.
const MOST_UNASKED: u64 = 10_000_000;

/// Whether a run keeps the signs of its proof; else it keeps their number alone.
fn keeps_signs(form: ProofForm, most: u64) -> bool
    ensures { result ≡ keeps_signs form most }
{
    match form {
        ProofForm::ByLength => most <= MOST_KEPT,
        ProofForm::Signs => true,
        ProofForm::Count => false,
    }
}

/// Whether a proof of so many directions is written as signs.
pub(crate) fn writes_signs(form: ProofForm, most: u64, directions: u64) -> bool
    ensures { result ≡ writes_signs form most directions }
{
    match form {
        ProofForm::ByLength => keeps_signs(form, most) && directions <= MOST_UNASKED,
        ProofForm::Signs | ProofForm::Count => keeps_signs(form, most),
    }
}

/// What a proof is limited to; or the fault of the limit on directions.
pub(crate) fn limits_of(form: ProofForm, most: u64) -> Result<ProofLimits, CommandFault>
    ensures most { IfOk result (λ limits. limits.most ≡ most) }
    ensures signs { IfOk result (λ limits. limits.keeps_signs ≡ keeps_signs form most) }
    ensures accepted { OnOk result (directions_fault form most ≡ None) }
    ensures refused { IfErr result (λ fault. directions_fault form most ≡ Some fault) }
    ensures device { NamesNoDevice result }
{
    let (greatest, fault) = match form {
        ProofForm::Signs => (u64::from(MAX_DIRECTIONS), CommandFault::SignedDirections),
        ProofForm::ByLength | ProofForm::Count => {
            (MAX_COUNTED_DIRECTIONS, CommandFault::Directions)
        }
    };
    if most > greatest {
        return Err(fault);
    }
    Ok(ProofLimits {
        most: MostDirections::new(most).ok_or(fault)?,
        keeps_signs: keeps_signs(form, most),
    })
}
