//! Writing a certificate.

ghost use Rattle.std.specs.Prelude.{◌≡◌, ◌↔◌, ◌++◌, false, true, length, map, is_err, IsErr, OnOk, OnErr};
ghost use Rattle.std.specs.List.{flat_map};
ghost use Rattle.std.specs.Io.KnownBytes.{Appends};
ghost use Rattle.flow_text.specs.Bytes.{AddsProperPrefix};
ghost use Rattle.flow_search.specs.Plans.{prefixes_of};
ghost use Rattle.flow_search.specs.Verdicts.{IsVerdict};
ghost use Rattle.flow_check.specs.TextLines.{line, title};
ghost use Rattle.flow_cert.specs.internal.Gathered.{HandsOn};
ghost use Rattle.flow_cert.specs.PlanCertificates.{certificate_of, text_with};
ghost use Rattle.flow_cert.specs.internal.HeadingText.{size_line, heading_with};

use crate::gathered::Gathered;
use flow_check::{LAST_LINE, TITLE};
use flow_search::{Plan, Verdict};
use flow_text::{Sink, WriteFault};

/// Adds the first line, with the version of the plan.
fn add_title<S: Sink>(gathered: &mut Gathered, out: &mut S, plan: &Plan) -> Result<(), WriteFault>
    requires { S.has_failed out.old ≡ false }
    ensures failed { S.has_failed out.new ≡ is_err result }
    ensures ok { OnOk result
        (HandsOn (S.taken out.old) (S.taken out.new)
        gathered.old (line (title plan.now.options.version)) gathered.new) }
    ensures err { OnErr result
        (AddsProperPrefix (S.taken out.old) (S.taken out.new)
        (gathered.old ++ line (title plan.now.options.version))) }
{
    gathered.add(out, TITLE)?;
    gathered.add_number(out, u64::from(plan.options().version()))?;
    gathered.add(out, b"\n")
}

/// Adds the line of the sizes.
fn add_sizes<S: Sink>(gathered: &mut Gathered, out: &mut S, plan: &Plan) -> Result<(), WriteFault>
    requires { S.has_failed out.old ≡ false }
    ensures failed { S.has_failed out.new ≡ is_err result }
    ensures ok { OnOk result
        (HandsOn (S.taken out.old) (S.taken out.new) gathered.old (size_line plan.now) gathered.new) }
    ensures err { OnErr result
        (AddsProperPrefix (S.taken out.old) (S.taken out.new) (gathered.old ++ size_line plan.now)) }
{
    let jobs = plan.instance().jobs();
    let machines = plan.instance().machines();
    let depth = plan.options().depth() as u16;
    gathered.add_numbers(out, &[jobs, machines, depth])
}

/// Adds the lines before the trees.
fn add_heading<S: Sink>(
    gathered: &mut Gathered,
    out: &mut S,
    plan: &Plan,
    verdict: &Verdict,
) -> Result<(), WriteFault>
    requires { S.has_failed out.old ≡ false }
    ensures failed { S.has_failed out.new ≡ is_err result }
    ensures ok { OnOk result
        (HandsOn (S.taken out.old) (S.taken out.new) gathered.old (heading_with plan.now verdict.now) gathered.new) }
    ensures err { OnErr result
        (AddsProperPrefix (S.taken out.old) (S.taken out.new) (gathered.old ++ heading_with plan.now verdict.now)) }
{
    add_title(gathered, out, plan)?;
    add_sizes(gathered, out, plan)?;
    gathered.add_value(out, verdict.value)?;
    gathered.add_numbers(out, verdict.sequence.jobs())
}

/// Adds a line for each tree.
fn add_trees<S: Sink>(
    gathered: &mut Gathered,
    out: &mut S,
    trees: &[Vec<u8>],
) -> Result<(), WriteFault>
    requires { S.has_failed out.old ≡ false }
    ensures failed { S.has_failed out.new ≡ is_err result }
    ensures ok { OnOk result
        (HandsOn (S.taken out.old) (S.taken out.new)
        gathered.old (flat_map line (map (λ tree. tree.items) trees.now)) gathered.new) }
    ensures err { OnErr result
        (AddsProperPrefix (S.taken out.old) (S.taken out.new)
        (gathered.old ++ flat_map line (map (λ tree. tree.items) trees.now))) }
{
    for tree in trees {
        gathered.add(out, tree.as_slice())?;
        gathered.add(out, b"\n")?;
    }
    Ok(())
}

/// Writes the certificate of a plan into a sink that did not refuse yet. The verdict has a tree for each prefix of the
/// plan. `Device` where the sink refused; then it took a proper prefix of the text.
pub fn write_certificate<S: Sink>(
    plan: &Plan,
    verdict: &Verdict,
    out: &mut S,
) -> Result<(), WriteFault>
    requires works { S.has_failed out.old ≡ false }
    requires each { length verdict.now.trees.items ≡ length (prefixes_of plan.now) }
    ensures device { IsErr result ↔ (S.has_failed out.new ≡ true) }
    ensures ok { OnOk result (Appends (S.taken out.old) (S.taken out.new) (text_with plan.now verdict.now)) }
    ensures err { OnErr result (AddsProperPrefix (S.taken out.old) (S.taken out.new) (text_with plan.now verdict.now)) }
    ensures of_plan { IsVerdict plan.now verdict.now → text_with plan.now verdict.now ≡ certificate_of plan.now }
{
    let mut gathered = Gathered::none();
    add_heading(&mut gathered, out, plan, verdict)?;
    add_trees(&mut gathered, out, verdict.trees.as_slice())?;
    gathered.add(out, LAST_LINE)?;
    gathered.put(out)
}
