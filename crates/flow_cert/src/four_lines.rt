//! Writing the first four lines of a two-ended or a counted certificate.

ghost use Rattle.std.specs.Prelude.{◌≡◌, [], ◌∷◌, ◌++◌, false, is_err, OnOk, OnErr};
ghost use Rattle.flow_text.specs.Bytes.{AddsProperPrefix};
ghost use Rattle.flow_check.specs.TextLines.{line, spaced};
ghost use Rattle.flow_check.specs.FourLines.{sequence_lines};
ghost use Rattle.flow_cert.specs.internal.Gathered.{HandsOn};

use crate::gathered::Gathered;
use flow_check::Bounds;
use flow_shop::{Instance, Sequence};
use flow_text::{Sink, WriteFault};

/// Adds the line of the jobs and machines.
fn add_size<S: Sink>(
    gathered: &mut Gathered,
    out: &mut S,
    instance: &Instance,
) -> Result<(), WriteFault>
    requires { S.has_failed out.old ≡ false }
    ensures failed { S.has_failed out.new ≡ is_err result }
    ensures ok { OnOk result
        (HandsOn (S.taken out.old) (S.taken out.new)
        gathered.old (line (spaced (instance.now.jobs ∷ instance.now.machines ∷ []))) gathered.new) }
    ensures err { OnErr result
        (AddsProperPrefix (S.taken out.old) (S.taken out.new)
        (gathered.old ++ line (spaced (instance.now.jobs ∷ instance.now.machines ∷ [])))) }
{
    let jobs = instance.jobs();
    let machines = instance.machines();
    gathered.add_numbers(out, &[jobs, machines])
}

/// Adds the first four lines of a text with a title.
pub(crate) fn add_four_lines<S: Sink>(
    gathered: &mut Gathered,
    out: &mut S,
    title: &[u8],
    instance: &Instance,
    bounds: Bounds,
    sequence: &Sequence,
) -> Result<(), WriteFault>
    requires { S.has_failed out.old ≡ false }
    ensures failed { S.has_failed out.new ≡ is_err result }
    ensures ok { OnOk result
        (HandsOn (S.taken out.old) (S.taken out.new)
        gathered.old (sequence_lines title.now instance.now bounds sequence.now) gathered.new) }
    ensures err { OnErr result
        (AddsProperPrefix (S.taken out.old) (S.taken out.new)
        (gathered.old ++ sequence_lines title.now instance.now bounds sequence.now)) }
{
    gathered.add(out, title)?;
    add_size(gathered, out, instance)?;
    gathered.add_bounds(out, bounds)?;
    gathered.add_numbers(out, sequence.jobs())
}
