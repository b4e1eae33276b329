//! Start text: what is read, the first fault, and each text that differs in a byte from a start, beside a plain
//! reading.

use crate::changes::replaced;
use crate::parts::{number_of, parts};
use flow_core::{Claim, Start, StartFault, read_start};
use std::alloc::{AllocError, Global};
use std::test::Fail;

/// A start whose words are spread over lines and blanks.
const A_START: &[u8] = b"\n\tsequence 2 03\r1 \n\r\nmakespan\t9\n";

/// The bytes that stand in for one of a start.
const OTHERS: &[u8] = b" \t\r\n09sx\0\xff";

/// A text, its jobs, and the makespan that it claims.
type Listed = (&'static [u8], &'static [u16], Option<Claim>);

static READ: [Listed; 3] = rows! {
    A_START, &[2, 3, 1], Some(Claim { makespan: 9, line: 4 });
    b"sequence 65535 0 7 7", &[65_535, 0, 7, 7], None;
    b"sequence 800\nmakespan 4294967295", &[800], Some(Claim { makespan: u32::MAX, line: 2 });
};

#[test]
fn a_start_is_read(rt: HostRuntime) -> Result<(), Fail> {
    for (text, jobs, claim) in &READ {
        let start = read_start(rt.alloc(), text)?;
        assert_eq!(rt; (start.jobs.as_slice(), start.claim), (*jobs, *claim));
    }
    Ok(())
}

/// Texts, and the line of the first fault.
static FIRST_FAULTS: [(&[u8], usize); 22] = [
    (b"", 1),
    (b"\n", 2),
    (b" \r\n\t\n ", 4),
    (b"2 3 1\n", 1),
    (b"\n2 3 1\n", 2),
    (b"sequence\n", 1),
    (b"\n sequence \nmakespan 9\n", 2),
    (b"sequence2 3 1\n", 1),
    (b"Sequence 2 3 1\n", 1),
    (b"sequences 2 3 1\n", 1),
    (b"sequence 2,3,1\n", 1),
    (b"sequence 2 -3 1\n", 1),
    (b"sequence 2 3 1 makespan 9\n", 1),
    (b"sequence 65536\n", 1),
    (b"sequence 4294967296\n", 1),
    (b"sequence 2 3\n1\n", 2),
    (b"sequence 2 3 1\nsequence 2 3 1\n", 2),
    (b"sequence 2 3 1\n\nmakespan\n", 3),
    (b"sequence 2 3 1\nmakespan 9 9\n", 2),
    (b"sequence 2 3 1\nmakespan 4294967296\n", 2),
    (b"sequence 2 3 1\nmakespan 9\n\nmakespan 9\n", 4),
    (b"makespan 9\nsequence 2 3 1\n", 1),
];

#[test]
fn the_first_fault_of_a_start_is_named(rt: HostRuntime) {
    for (text, line) in &FIRST_FAULTS {
        assert_eq!(rt;
            read_start(rt.alloc(), text).err(),
            Some(StartFault::Line(*line)),
            "{text:?}"
        );
    }
}

/// The blanks within a line.
const BLANKS: &[u8] = b" \t\r";

/// Whether a line has blanks alone.
fn is_blank(line: &[u8]) -> bool {
    for byte in line {
        if !BLANKS.contains(byte) {
            return false;
        }
    }
    true
}

/// Puts the number that a word is behind others. Whether it is one, up to the greatest.
fn put_number(word: &[u8], most: u64, numbers: &mut Vec<u64>) -> bool {
    match number_of(word) {
        Some(number) => number <= most && numbers.push(number).is_ok(),
        None => false,
    }
}

/// Puts the numbers behind a word on a line into a list. Whether there is nothing else on the line.
fn read_line(
    alloc: Global,
    word: &[u8],
    line: &[u8],
    most: u64,
    numbers: &mut Vec<u64>,
) -> Result<bool, AllocError> {
    let mut is_first = true;
    for part in &parts(alloc, line, BLANKS)? {
        if part.is_empty() {
            continue;
        }
        let is_right = if is_first {
            *part == word
        } else {
            put_number(part, most, numbers)
        };
        if !is_right {
            return Ok(false);
        }
        is_first = false;
    }
    Ok(true)
}

/// Reads a line that is not blank, the first of them or one behind it. Whether it brings what is wanted.
fn read_next(
    alloc: Global,
    line: &[u8],
    number: u64,
    jobs: &mut Vec<u64>,
    claim: &mut Vec<u64>,
) -> Result<bool, AllocError> {
    if jobs.is_empty() {
        return Ok(read_line(alloc, b"sequence", line, 65_535, jobs)? && !jobs.is_empty());
    }
    if !claim.is_empty() || !read_line(alloc, b"makespan", line, 4_294_967_295, claim)? {
        return Ok(false);
    }
    claim.push(number)?;
    Ok(claim.len() == 2)
}

/// Reads a start line by line: the jobs, and the makespan with its line if there is one. The answer is the line at
/// fault, or 0.
fn plain_reading(
    alloc: Global,
    text: &[u8],
    jobs: &mut Vec<u64>,
    claim: &mut Vec<u64>,
) -> Result<usize, AllocError> {
    let mut count = 0usize;
    for line in &parts(alloc, text, b"\n")? {
        count = count.saturating_add(1);
        if !is_blank(line) && !read_next(alloc, line, count as u64, jobs, claim)? {
            return Ok(count);
        }
    }
    if !jobs.is_empty() {
        return Ok(0);
    }
    // Bytes behind the last LF are a line; where there are none, the last line is the one before it.
    if text.is_empty() || text.ends_with(b"\n") {
        return Ok(count);
    }
    Ok(count.saturating_add(1))
}

/// Whether these are the same jobs.
fn are_jobs(found: &[u16], jobs: &[u64]) -> bool {
    for (job, other) in found.iter().zip(jobs) {
        if u64::from(*job) != *other {
            return false;
        }
    }
    found.len() == jobs.len()
}

/// Whether a start has these jobs, and this makespan with its line or none.
fn is_start(start: &Start, jobs: &[u64], claim: &[u64]) -> bool {
    let is_claim = match start.claim {
        Some(found) => claim == [u64::from(found.makespan), found.line as u64].as_slice(),
        None => claim.is_empty(),
    };
    is_claim && are_jobs(start.jobs.as_slice(), jobs)
}

/// Whether a text is read as a plain reading reads it.
fn is_read_alike(alloc: Global, text: &[u8]) -> bool {
    let mut jobs = Vec::new(alloc);
    let mut claim = Vec::new(alloc);
    let Ok(line) = plain_reading(alloc, text, &mut jobs, &mut claim) else {
        return false;
    };
    match read_start(alloc, text) {
        Ok(start) => line == 0 && is_start(&start, jobs.as_slice(), claim.as_slice()),
        Err(fault) => line > 0 && fault == StartFault::Line(line),
    }
}

#[test]
fn truncated_starts_are_read_alike(rt: HostRuntime) {
    for length in 0..A_START.len() + 1 {
        let text = A_START.get(..length).unwrap_or(b"");
        assert!(rt; is_read_alike(rt.alloc(), text), "cut at {length}");
    }
}

#[test]
fn changed_starts_are_read_alike(rt: HostRuntime) -> Result<(), Fail> {
    for place in 0..A_START.len() {
        for other in OTHERS {
            let text = replaced(rt.alloc(), A_START, place, 1, &[*other])?;
            assert!(rt;
                is_read_alike(rt.alloc(), text.as_slice()),
                "{other} at {place}"
            );
        }
    }
    Ok(())
}
