//! 800 jobs on 26 machines, each of which takes 999,999 on each machine. Each job leaves a machine one time after the
//! job before it, so every sequence has the makespan of 800 + 26 - 1 times, 824,999,175.

ghost use Rattle.std.specs.Prelude.{◌≡◌, IfOk};

use crate::bounds::has_spans;
use crate::greatest::texts::{jobs_line, joined};
use crate::greatest::written::is_written;
use crate::plans::planned;
use flow_bound::neh;
use flow_check::{CheckFault, check};
use flow_core::{Instance, InstanceFault, Sequence, makespan, rows};
use flow_search::{Options, Outcome, PlanFault, answer, prepare};
use std::alloc::{AllocError, Global};
use std::test::Fail;

/// The instance.
fn equal_times(alloc: Global) -> Result<Instance, InstanceFault>
    ensures { IfOk result (λ instance. (instance.jobs ≡ 800) × (instance.machines ≡ 26)) }
{
    Instance::new(alloc, 800, 26, &[999_999; 20_800])
}

/// The jobs 1 to 800.
fn upwards(alloc: Global) -> Result<Vec<u16>, AllocError> {
    (1..801u16).collect(alloc)
}

/// The jobs 800 to 1. This is the starting sequence: all totals are equal, so the jobs are put in from 1 on, and all
/// places are equally good, so each is put in first.
fn backwards(alloc: Global) -> Result<Vec<u16>, AllocError> {
    let mut jobs = upwards(alloc)?;
    jobs.as_mut_slice().reverse();
    Ok(jobs)
}

/// The times of a job on all machines.
static TIMES: [u32; 26] = [999_999; 26];

/// All rows have these times, and the tails of the first and the last machine.
#[test]
fn parts_of_the_instance_are_made(rt: HostRuntime) -> Result<(), Fail> {
    let instance = equal_times(rt.alloc())?;
    assert!(rt; instance.times(rt.alloc())?.as_slice() == [999_999; 20_800].as_slice());
    let rows = rows(rt.alloc(), &instance)?;
    assert_eq!(rt; rows.len(), 800);
    for row in &rows {
        assert_eq!(rt;
            (row.times, row.tails[0], row.tails[25]),
            (TIMES, 24_999_975, 0)
        );
    }
    Ok(())
}

#[test]
fn sequences_have_the_makespan(rt: HostRuntime) -> Result<(), Fail> {
    let instance = equal_times(rt.alloc())?;
    let jobs = upwards(rt.alloc())?;
    let sequence = Sequence::new(rt.alloc(), &instance, jobs.as_slice())?;
    assert_eq!(rt; makespan(&instance, &sequence), 824_999_175);
    let (start, value) = neh(rt.alloc(), &instance)?;
    assert_eq!(rt; value, 824_999_175);
    assert!(rt; start.jobs() == backwards(rt.alloc())?.as_slice());
    Ok(())
}

/// One job more than 3 or 799 ends after 3 + 26 or 799 + 26 times, in each of so many places.
static PLACES: [(usize, usize, u64); 2] = [(3, 4, 28_999_971), (799, 800, 824_999_175)];

#[test]
fn all_places_are_equally_good(rt: HostRuntime) -> Result<(), Fail> {
    let instance = equal_times(rt.alloc())?;
    let jobs = upwards(rt.alloc())?;
    let sequence = Sequence::new(rt.alloc(), &instance, jobs.as_slice())?;
    for (count, places, span) in &PLACES {
        let spans = vec![in rt.alloc(); *span; *places]?;
        assert!(rt;
            has_spans(rt.alloc(), &instance, &sequence, *count, spans.as_slice()),
            "{count}"
        );
    }
    Ok(())
}

/// No sequence is better, and the tree has one letter: machine 1 is never idle, so its bound is exact. At depth 2 there
/// is no plan: 800 jobs have 800 * 799 = 639,200 lists of two.
#[test]
fn plans_are_answered(rt: HostRuntime) -> Result<(), Fail> {
    let instance = equal_times(rt.alloc())?;
    for version in 1..3u32 {
        let plan = planned(rt.alloc(), &instance, 1, (0, version, 1))?;
        assert_eq!(rt; plan.prefixes(), 1);
        let Outcome::Done { best, tree } = answer(rt.alloc(), &plan, 0) else {
            return Err(Fail::from("no answer"));
        };
        assert!(rt;
            best.is_none() && tree.as_slice() == b"A".as_slice(),
            "version {version}"
        );
    }
    let refused = prepare(rt.alloc(), &instance, Options::new(1, 2, 1)?).err();
    assert!(rt; refused == Some(PlanFault::Prefixes));
    Ok(())
}

/// A certificate with this version and these sizes, a sequence of these jobs, and these trees.
fn text_of(
    alloc: Global,
    heading: &[u8],
    jobs: &[u16],
    trees: &[u8],
) -> Result<Vec<u8>, AllocError> {
    let line = jobs_line(alloc, jobs)?;
    let parts = [
        b"flowshop certificate ",
        heading,
        b"\n824999175\n",
        line.as_slice(),
        trees,
        b"end\n",
    ];
    joined(alloc, &parts)
}

#[test]
fn certificate_at_depth_1_is_written_and_accepted(rt: HostRuntime) -> Result<(), Fail> {
    let instance = equal_times(rt.alloc())?;
    let jobs = backwards(rt.alloc())?;
    let trees = b"A\n".repeat(rt.alloc(), 800)?;
    let text = text_of(
        rt.alloc(),
        b"1\n800 26 1",
        jobs.as_slice(),
        trees.as_slice(),
    )?;
    assert!(rt; is_written(rt.alloc(), &instance, 1, 800, text.as_slice(), 824_999_175)?);
    Ok(())
}

/// Versions and sizes of certificates at depth 0.
const VERSION_1: &[u8] = b"1\n800 26 0";

const VERSION_2: &[u8] = b"2\n800 26 0";

/// The makespan, where a text is a certificate.
const ACCEPTED: Result<u64, CheckFault> = Ok(824_999_175);

/// What the checker answers for a certificate with this heading and this tree.
fn answer_of(alloc: Global, heading: &[u8], tree: &[u8]) -> Result<Result<u64, CheckFault>, Fail> {
    let instance = equal_times(alloc)?;
    let jobs = upwards(alloc)?;
    let text = text_of(alloc, heading, jobs.as_slice(), tree)?;
    Ok(check(alloc, &instance, text.as_slice()))
}

/// Released by machine 1, machine 26 begins after 25 times. In version 1 it begins at once.
#[test]
fn letter_z_needs_the_release_of_machine_26(rt: HostRuntime) -> Result<(), Fail> {
    assert_eq!(rt; answer_of(rt.alloc(), VERSION_2, b"Z\n")?, ACCEPTED);
    assert_eq!(rt;
        answer_of(rt.alloc(), VERSION_1, b"Z\n")?,
        Err(CheckFault::Weak(5))
    );
    Ok(())
}

/// A tree with more of a letter, and the end of its line. The lists 1 2 .. are branched on up to the whole sequence.
/// Then come 1 + 2 + .. + 799 lists that leave it, the last of which has one job. Behind a job every bound is exact.
fn tree_of(alloc: Global, letter: u8, more: usize) -> Result<Vec<u8>, AllocError> {
    let branches = b"+".repeat(alloc, 800)?;
    let letters = [letter].repeat(alloc, more.saturating_add(319_600))?;
    joined(
        alloc,
        &[branches.as_slice(), b".", letters.as_slice(), b"\n"],
    )
}

/// How many letters more a tree has, its version, and the answer.
type Tree = (usize, &'static [u8], Result<u64, CheckFault>);

static TREES: [Tree; 3] = [
    (0, VERSION_1, ACCEPTED),
    (0, VERSION_2, ACCEPTED),
    (1, VERSION_2, Err(CheckFault::Tree(5))),
];

#[test]
fn tree_of_all_depths_is_accepted(rt: HostRuntime) -> Result<(), Fail> {
    for letter in b"AMZ" {
        for (more, version, answer) in &TREES {
            let tree = tree_of(rt.alloc(), *letter, *more)?;
            let found = answer_of(rt.alloc(), version, tree.as_slice())?;
            assert_eq!(rt; found, *answer, "{more} more of {letter}");
        }
    }
    Ok(())
}
