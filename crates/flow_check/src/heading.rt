//! The lines of a certificate before its trees.

ghost use Rattle.std.specs.Prelude.{◌≡◌, ℕ, ◌+◌, ◌-◌, ◌<◌, ◌≤◌, ◌++◌, List, IfSome, IfOk, IfErr, Err};
ghost use Rattle.std.specs.Option.{IsSomeAnd};
ghost use Rattle.flow_shop.specs.Shop.{IsWithinLimits};
ghost use Rattle.flow_shop.specs.Paths.{span};
ghost use Rattle.flow_check.specs.CertificateFaults.{UnlessMemory};
ghost use Rattle.flow_check.specs.TextLines.{IsVersion, line, title};
ghost use Rattle.flow_check.specs.internal.Reading.{text_value};
ghost use Rattle.flow_check.specs.internal.Heading.{BeginsWithCounts, BeginsWithJob, BeginsWithSize};
ghost use Rattle.flow_check.specs.internal.Heading.{BeginsWithSequence, end_of};
ghost use Rattle.flow_check.specs.internal.Heading.{BeginsWithHeading, IsHeadingOf, IsSequenceFault};

use crate::fault::CheckFault;
use crate::number::read_number;
use crate::titles::TITLE;
use flow_limits::{MAX_DEPTH, MAX_VERSION, MIN_VERSION};
use flow_shop::{Front, Instance, JobSet, Sequence, front_push};
use std::alloc::Global;

/// What the four lines before the trees say, where they have no fault.
#[derive(Drop)]
pub(crate) struct Heading<'a> {
    /// The version of the certificate: 1 or 2. Each has its own bound of lists.
    pub(crate) version: u32,
    /// The depth of the cut: how many jobs each prefix has. There is one tree for each prefix.
    pub(crate) depth: u16,
    /// The value.
    pub(crate) value: u64,
    /// The sequence, whose makespan is the value.
    pub(crate) sequence: Sequence,
    /// The text that follows, from the first tree on.
    pub(crate) trees: &'a [u8],
}

/// The line of a sequence, and what follows it.
#[derive(Drop)]
pub(crate) struct SequenceLine<'a> {
    /// The sequence.
    pub(crate) sequence: Sequence,
    /// Its makespan.
    pub(crate) makespan: u64,
    /// The text after the line.
    pub(crate) rest: &'a [u8],
}

/// The version that the first line names, where a text begins with that line, and the text after it.
fn read_title(text: &[u8]) -> Option<(u32, &[u8])>
    ensures found { IfSome result (λ r. IsVersion r.0 × (text.now ≡ line (title r.0) ++ r.1.now)) }
    ensures only { (version : ℕ) (rest : List ℕ) → IsVersion version → text.now ≡ line (title version) ++ rest →
        IsSomeAnd result (λ r. (r.0 ≡ version) × (r.1.now ≡ rest)) }
{
    let number = text.strip_prefix(TITLE)?;
    let (version, rest) = read_number(number, b'\n')?;
    if version < u64::from(MIN_VERSION) || version > u64::from(MAX_VERSION) {
        return None;
    }
    Some((version as u32, rest))
}

/// The text after two numbers with which a text begins: so many jobs, and so many machines. A space ends the first
/// number, `end` the second.
pub(crate) fn after_counts(jobs: u16, machines: u16, text: &[u8], end: u8) -> Option<&[u8]>
    requires { end < 48 }
    ensures found { IfSome result (λ rest. BeginsWithCounts jobs machines text.now end rest.now) }
    ensures only { (rest : List ℕ) → BeginsWithCounts jobs machines text.now end rest →
        IsSomeAnd result (λ r. r.now ≡ rest) }
{
    let (first, machines_text) = read_number(text, b' ')?;
    let (second, rest) = read_number(machines_text, end)?;
    if first != u64::from(jobs) || second != u64::from(machines) {
        return None;
    }
    Some(rest)
}

/// The depth in the line of the sizes, with which a text begins, and the text after that line. `None` where the text
/// begins with no such line of so many jobs and machines.
fn read_size(jobs: u16, machines: u16, text: &[u8]) -> Option<(u16, &[u8])>
    ensures found { IfSome result (λ r. BeginsWithSize jobs machines text.now r.0 r.1.now) }
    ensures only { (depth : ℕ) (rest : List ℕ) → BeginsWithSize jobs machines text.now depth rest →
        IsSomeAnd result (λ r. (r.0 ≡ depth) × (r.1.now ≡ rest)) }
{
    let depth_text = after_counts(jobs, machines, text, b' ')?;
    let (depth, rest) = read_number(depth_text, b'\n')?;
    if depth > u64::from(jobs) || depth > u64::from(MAX_DEPTH) {
        return None;
    }
    Some((depth as u16, rest))
}

/// The job with which a text begins, from 1 to `jobs`, and the text after the byte that ends it.
fn read_job(text: &[u8], end: u8, jobs: u16) -> Option<(u16, &[u8])>
    requires { end < 48 }
    ensures found { IfSome result (λ r. BeginsWithJob jobs text.now end r.0 r.1.now) }
    ensures only { (job : ℕ) (rest : List ℕ) → BeginsWithJob jobs text.now end job rest →
        IsSomeAnd result (λ r. (r.0 ≡ job) × (r.1.now ≡ rest)) }
{
    let (job, rest) = read_number(text, end)?;
    if job < 1 || job > u64::from(jobs) {
        return None;
    }
    Some((job as u16, rest))
}

/// The byte that ends the job at a place, counted from 1, in a line of so many jobs.
fn end_after(place: u16, jobs: u16) -> u8
    ensures value { result ≡ end_of (jobs + 1 - place) }
    ensures small { result < 48 }
{
    if place == jobs { b'\n' } else { b' ' }
}

/// Reads the line of a sequence, with which a text begins. Its jobs go to memory that is reserved before.
pub(crate) fn read_sequence_line<'a>(
    alloc: Global,
    instance: &Instance,
    text: &'a [u8],
) -> Result<SequenceLine<'a>, CheckFault>
    ensures found { IfOk result (λ line.
        BeginsWithSequence instance.now.jobs text.now line.sequence line.rest.now) }
    ensures makespan { IfOk result (λ line. span instance.now line.sequence ≡ line.makespan) }
    ensures fault { IfErr result (λ fault. IsSequenceFault instance.now.jobs text.now fault) }
{
    let jobs = instance.jobs();
    let machines = instance.machines();
    let mut found = Vec::with_capacity(alloc, jobs as usize)?;
    let mut scheduled = JobSet::none();
    let mut front = Front::empty();
    let mut rest = text;
    for place in 1..jobs + 1 {
        let end = end_after(place, jobs);
        let Some((job, after)) = read_job(rest, end, jobs) else {
            return Err(CheckFault::Sequence);
        };
        if scheduled.contains(job) {
            return Err(CheckFault::Sequence);
        }
        scheduled.insert(job);
        front_push(instance, &mut front, job);
        found.push(job)?;
        rest = after;
    }
    Ok(SequenceLine {
        sequence: Sequence::of_known(alloc, found.as_slice())?,
        makespan: front.at(machines),
        rest,
    })
}

/// Reads the lines before the trees. Returns what they say, or their first fault.
pub(crate) fn read_heading<'a>(
    alloc: Global,
    instance: &Instance,
    text: &'a [u8],
) -> Result<Heading<'a>, CheckFault>
    ensures limits { IsWithinLimits instance.now }
    ensures depth { IfOk result (λ heading. heading.depth ≤ instance.now.jobs) }
    ensures found { IfOk result (λ heading. IsHeadingOf instance.now text.now heading) }
    ensures lines { IfOk result (λ heading. BeginsWithHeading instance.now text.now heading) }
    ensures fault { IfErr result (UnlessMemory (λ fault. text_value instance.now text.now ≡ Err fault)) }
{
    let jobs = instance.jobs();
    let machines = instance.machines();
    let Some((version, size_text)) = read_title(text) else {
        return Err(CheckFault::Header);
    };
    let Some((depth, value_text)) = read_size(jobs, machines, size_text) else {
        return Err(CheckFault::Size);
    };
    let Some((value, sequence_text)) = read_number(value_text, b'\n') else {
        return Err(CheckFault::Value);
    };
    let line = read_sequence_line(alloc, instance, sequence_text)?;
    if line.makespan != value {
        return Err(CheckFault::NotAttained);
    }
    Ok(Heading {
        version,
        depth,
        value,
        sequence: line.sequence,
        trees: line.rest,
    })
}
