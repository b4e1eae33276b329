//! Certificates that differ in a byte or two from one at depth 2, beside a plain reading of each.

use crate::changes::{Change, close_texts};
use crate::parts::{number_of, parts};
use crate::plain::{bound, completion, has};
use flow_check::{CheckFault, check};
use flow_core::Instance;
use std::alloc::{AllocError, Global};
use std::test::Fail;

/// The times of four jobs on three machines.
const FOUR_JOBS: [u32; 12] = [6, 2, 8, 7, 7, 6, 9, 1, 6, 1, 4, 7];

/// A certificate of these jobs, as `bench/plain.rs` writes it, which shares nothing with the crates.
const LAWFUL: &[u8] = b"flowshop certificate 1\n4 3 2\n35\n1 3 4 2\n\
+BA\n+B+.\n+AB\n+CA\nC\nA\nC\nB\n++.A\nB\nA\nB\nend\n";

/// The same with a greater value, that of another sequence: the point on line 6 is below it.
const LOW: &[u8] = b"flowshop certificate 1\n4 3 2\n36\n2 4 1 3\n\
+BA\n+B+.\n+AB\n+CA\nC\nA\nC\nB\n++.A\nB\nA\nB\nend\n";

/// What the first lines of a certificate say of its trees.
#[derive(Clone, Copy, Drop)]
struct Heading {
    version: u32,
    depth: u64,
    value: u64,
}

/// The numbers of a line, in decimal and with one space between them; this fault where it is not of that form.
fn numbers_of(alloc: Global, line: &[u8], fault: CheckFault) -> Result<Vec<u64>, CheckFault> {
    let mut numbers = Vec::new(alloc);
    for word in &parts(alloc, line, b" ")? {
        match number_of(word) {
            Some(number) if word.len() == 1 || !word.starts_with(b"0") => numbers.push(number)?,
            _ => return Err(fault),
        }
    }
    Ok(numbers)
}

/// The depth on a certificate's second line.
fn depth_of(alloc: Global, instance: &Instance, line: &[u8]) -> Result<u64, CheckFault> {
    let jobs = u64::from(instance.jobs());
    let machines = u64::from(instance.machines());
    match numbers_of(alloc, line, CheckFault::Size)?.as_slice() {
        [first, second, depth] if *first == jobs && *second == machines && *depth <= jobs.min(3) =>
            { Ok(*depth) }
        _ => Err(CheckFault::Size),
    }
}

/// The value on a certificate's third line.
fn value_of(alloc: Global, line: &[u8]) -> Result<u64, CheckFault> {
    match numbers_of(alloc, line, CheckFault::Value)?.as_slice() {
        [value] => Ok(*value),
        _ => Err(CheckFault::Value),
    }
}

/// The sequence on a certificate's fourth line, which has each job once.
fn sequence_of(alloc: Global, instance: &Instance, line: &[u8]) -> Result<Vec<u16>, CheckFault> {
    let mut jobs = Vec::new(alloc);
    for number in &numbers_of(alloc, line, CheckFault::Sequence)? {
        let Ok(job) = u16::try_from(*number) else {
            return Err(CheckFault::Sequence);
        };
        jobs.push(job)?;
    }
    for job in 1..instance.jobs() + 1 {
        if !has(jobs.as_slice(), job) {
            return Err(CheckFault::Sequence);
        }
    }
    if jobs.len() != instance.jobs() as usize {
        return Err(CheckFault::Sequence);
    }
    Ok(jobs)
}

/// The version that a certificate's first line names.
fn version_of(line: &[u8]) -> Result<u32, CheckFault> {
    if line == b"flowshop certificate 1".as_slice() {
        Ok(1)
    } else if line == b"flowshop certificate 2".as_slice() {
        Ok(2)
    } else {
        Err(CheckFault::Header)
    }
}

/// The line of an index. One that is missing has the same fault as an empty one.
fn line_of<'a>(lines: &[&'a [u8]], index: usize) -> &'a [u8] {
    lines.get(index).copied().unwrap_or(b"")
}

/// The heading of a certificate with these lines.
fn heading_of(alloc: Global, instance: &Instance, lines: &[&[u8]]) -> Result<Heading, CheckFault> {
    let version = version_of(line_of(lines, 0))?;
    let depth = depth_of(alloc, instance, line_of(lines, 1))?;
    let value = value_of(alloc, line_of(lines, 2))?;
    let sequence = sequence_of(alloc, instance, line_of(lines, 3))?;
    if completion(instance, sequence.as_slice(), instance.machines()) != value {
        return Err(CheckFault::NotAttained);
    }
    Ok(Heading {
        version,
        depth,
        value,
    })
}

/// The lists with one job more than a list, in increasing order of this job.
fn children(alloc: Global, instance: &Instance, jobs: &[u16]) -> Result<Vec<Vec<u16>>, AllocError> {
    let mut lists = Vec::new(alloc);
    for job in 1..instance.jobs() + 1 {
        if !has(jobs, job) {
            let mut longer = Vec::from_slice(alloc, jobs)?;
            longer.push(job)?;
            lists.push(longer)?;
        }
    }
    Ok(lists)
}

/// The lists of so many distinct jobs, in lexicographic order.
fn cut(alloc: Global, instance: &Instance, depth: u64) -> Result<Vec<Vec<u16>>, AllocError> {
    let mut lists = Vec::new(alloc);
    lists.push(Vec::new(alloc))?;
    for _ in 0..depth {
        let mut longer = Vec::new(alloc);
        for jobs in &lists {
            longer.append(&mut children(alloc, instance, jobs.as_slice())?)?;
        }
        lists = longer;
    }
    Ok(lists)
}

/// Reads a byte that is a whole tree of a list.
fn read_leaf(
    instance: &Instance,
    heading: Heading,
    jobs: &[u16],
    byte: u8,
    line: usize,
) -> Result<(), CheckFault> {
    let machine = u16::from(byte.saturating_sub(b'@'));
    if jobs.len() == instance.jobs() as usize {
        if byte != b'.' {
            return Err(CheckFault::Tree(line));
        }
        if completion(instance, jobs, instance.machines()) < heading.value {
            return Err(CheckFault::Low(line));
        }
    } else if machine < 1 || machine > instance.machines() {
        return Err(CheckFault::Tree(line));
    } else if bound(instance, heading.version, jobs, machine) < heading.value {
        return Err(CheckFault::Weak(line));
    }
    Ok(())
}

/// Reads the line with the tree of a list.
fn read_tree(
    alloc: Global,
    instance: &Instance,
    heading: Heading,
    prefix: &[u16],
    bytes: &[u8],
    line: usize,
) -> Result<(), CheckFault> {
    // The lists whose trees are still to come, the next one last.
    let mut open = Vec::new(alloc);
    open.push(Vec::from_slice(alloc, prefix)?)?;
    for byte in bytes {
        let Some(jobs) = open.pop() else {
            return Err(CheckFault::Tree(line));
        };
        if *byte == b'+' && jobs.len() < instance.jobs() as usize {
            let mut next = children(alloc, instance, jobs.as_slice())?;
            next.as_mut_slice().reverse();
            open.append(&mut next)?;
        } else {
            read_leaf(instance, heading, jobs.as_slice(), *byte, line)?;
        }
    }
    if open.is_empty() {
        Ok(())
    } else {
        Err(CheckFault::Tree(line))
    }
}

/// Reads the lines with the trees, and returns the number of lines up to there. The last of the lines is no line.
fn read_trees(
    alloc: Global,
    instance: &Instance,
    heading: Heading,
    lines: &[&[u8]],
) -> Result<usize, CheckFault> {
    let mut line: usize = 4;
    for prefix in &cut(alloc, instance, heading.depth)? {
        let bytes = line_of(lines, line);
        line = line.saturating_add(1);
        read_tree(alloc, instance, heading, prefix.as_slice(), bytes, line)?;
        if line >= lines.len() {
            return Err(CheckFault::Tree(line));
        }
    }
    Ok(line)
}

/// Reads a certificate line by line.
fn plain_reading(alloc: Global, instance: &Instance, text: &[u8]) -> Result<u64, CheckFault> {
    let lines = parts(alloc, text, b"\n")?;
    // What stands behind the last LF is no line.
    let Some((_rest, whole)) = lines.as_slice().split_last() else {
        return Err(CheckFault::Header);
    };
    let heading = heading_of(alloc, instance, whole)?;
    let line = read_trees(alloc, instance, heading, lines.as_slice())?;
    match lines.get(line..) {
        Some([last, rest]) if *last == b"end".as_slice() && rest.is_empty() => Ok(heading.value),
        _ => Err(CheckFault::End),
    }
}

/// How many close texts are accepted, counted by another reading, a script over the words of `docs/formats.md`. Line 13
/// of the lawful certificate begins with two bytes that are the same.
static ACCEPTED: [(Change, &[u8], usize); 7] = [
    (Change::Other, LAWFUL, 9),
    (Change::Lost, LAWFUL, 0),
    (Change::Doubled, LAWFUL, 0),
    (Change::Swapped, LAWFUL, 1),
    (Change::Lost, LOW, 0),
    (Change::Doubled, LOW, 0),
    (Change::Swapped, LOW, 0),
];

#[test]
fn changed_certificates_are_read_as_by_the_plain_reading(rt: HostRuntime) -> Result<(), Fail> {
    let instance = Instance::new(rt.alloc(), 4, 3, &FOUR_JOBS)?;
    for (number, (change, text, count)) in ACCEPTED.iter().enumerate() {
        let mut accepted: usize = 0;
        for close in &close_texts(rt.alloc(), *change, text)? {
            let answer = check(rt.alloc(), &instance, close.as_slice());
            let plain = plain_reading(rt.alloc(), &instance, close.as_slice());
            assert_eq!(rt; answer, plain, "row {number}: {close:?}");
            accepted = accepted.saturating_add(usize::from(answer.is_ok()));
        }
        assert_eq!(rt; accepted, *count, "row {number}");
    }
    Ok(())
}
