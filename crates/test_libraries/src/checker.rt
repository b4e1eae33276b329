//! The checker.

use crate::changes::{Change, close_texts, replaced, with_line};
use crate::instances::{CERTIFICATE_AT_DEPTH_0, three_machines};
use crate::shops::{Shop, made};
use flow_check::{CheckFault, check};
use std::alloc::{AllocError, Global};
use std::test::Fail;

/// The first line of version 1.
const TITLE: &[u8] = b"flowshop certificate 1\n";

/// The first line of version 2.
const TITLE_2: &[u8] = b"flowshop certificate 2\n";

/// An instance, a first line, what stands behind it, and the answer.
type Row = (Shop, &'static [u8], &'static [u8], Result<u64, CheckFault>);

/// One job on one machine, with time 0.
const ONE_JOB: Shop = Shop::Times(1, 1, &[0]);

static ANSWERS: [Row; 24] = rows! {
    Shop::Three, TITLE, b"3 3 0\n12\n3 1 2\n+BC++.B\nend\n", Ok(12);
    Shop::Three, TITLE, b"3 3 1\n12\n3 1 2\nB\nC\n++.B\nend\n", Ok(12);
    Shop::Three, TITLE, b"3 3 2\n12\n3 1 2\nB\nB\nC\nB\n+.\nB\nend\n", Ok(12);
    Shop::Three, TITLE, b"3 3 3\n12\n3 1 2\n.\n.\n.\n.\n.\n.\nend\n", Ok(12);
    Shop::Three, TITLE, b"3 3 0\n12\n3 1 2\n+B+CB+AB\nend\n", Ok(12);
    ONE_JOB, TITLE, b"1 1 0\n0\n1\nA\nend\n", Ok(0);
    // Depths up to the jobs.
    ONE_JOB, TITLE, b"1 1 1\n0\n1\n.\nend\n", Ok(0);
    ONE_JOB, TITLE, b"1 1 2\n0\n1\n.\nend\n", Err(CheckFault::Size);
    // At the empty list machine 2 has the bound 8, and once it is released by machine 1 the bound 9.
    Shop::Two, TITLE_2, b"3 2 0\n9\n2 3 1\nB\nend\n", Ok(9);
    Shop::Two, TITLE, b"3 2 0\n9\n2 3 1\nB\nend\n", Err(CheckFault::Weak(5));
    Shop::Two, TITLE, b"3 2 0\n9\n2 3 1\n+BBB\nend\n", Ok(9);
    Shop::Two, TITLE_2, b"3 2 0\n9\n2 3 1\n+BBB\nend\n", Ok(9);
    Shop::Two, b"flowshop certificate 3\n", b"3 2 0\n9\n2 3 1\n+BBB\nend\n", Err(CheckFault::Header);
    // The released bounds are 7, 10 and 7 at the empty list, 8, 10 and 8 at 3, and 12, 12 and 12 at 3 1.
    Shop::Three, TITLE_2, b"3 3 0\n12\n3 1 2\n+BC++.B\nend\n", Ok(12);
    Shop::Three, TITLE_2, b"3 3 1\n12\n3 1 2\nB\nC\n++.B\nend\n", Ok(12);
    Shop::Three, TITLE_2, b"3 3 0\n12\n3 1 2\nB\nend\n", Err(CheckFault::Weak(5));
    Shop::Three, TITLE_2, b"3 3 0\n12\n3 1 2\nC\nend\n", Err(CheckFault::Weak(5));
    Shop::Three, TITLE_2, b"3 3 1\n12\n3 1 2\nB\nC\nB\nend\n", Err(CheckFault::Weak(7));
    Shop::Three, TITLE_2, b"3 3 0\n12\n3 1 2\n+BC+AB\nend\n", Ok(12);
    Shop::Three, TITLE_2, b"3 3 0\n12\n3 1 2\n+BC+BB\nend\n", Ok(12);
    Shop::Three, TITLE_2, b"3 3 0\n12\n3 1 2\n+BC+CB\nend\n", Ok(12);
    // At the list 1 3 machine 3 has the bound 9 in version 1. Released by machine 2 it has 14, so that the tree of
    // the first list ends behind it.
    Shop::Three, TITLE, b"3 3 1\n12\n3 1 2\n+BC++.B\nend\n", Err(CheckFault::Weak(5));
    Shop::Three, TITLE_2, b"3 3 1\n12\n3 1 2\n+BC++.B\nend\n", Err(CheckFault::Tree(5));
    Shop::Three, b"flowshop\n", b"3 3\n012\n3 1\nx\nEND\n", Err(CheckFault::Header);
};

#[test]
fn check_answers_certificates(rt: HostRuntime) -> Result<(), Fail> {
    for (number, (shop, title, rest, answer)) in ANSWERS.iter().enumerate() {
        let text = replaced(rt.alloc(), title, title.len(), 0, rest)?;
        let instance = made(rt.alloc(), *shop)?;
        assert_eq!(rt;
            check(rt.alloc(), &instance, text.as_slice()),
            *answer,
            "row {number}"
        );
    }
    Ok(())
}

/// What stands behind a first line for the instance with three machines, and its first fault in either version.
static FIRST_FAULTS: [(&[u8], CheckFault); 18] = rows! {
    b"3 3\n012\n3 1\nx\nEND\n", CheckFault::Size;
    b"3 3 0\n012\n3 1\nx\nEND\n", CheckFault::Value;
    b"3 3 0\n12\n3 1\nx\nEND\n", CheckFault::Sequence;
    b"3 3 0\n12\n1 2 3\nx\nEND\n", CheckFault::NotAttained;
    b"3 3 0\n12\n3 1 2\nx\nEND\n", CheckFault::Tree(5);
    // The sequence 3 1 2 has the makespan 12, which is below 13, and machine 1 has the bound 12 at 3 1.
    b"3 3 0\n13\n2 1 3\n+BC++.B\nend\n", CheckFault::Low(5);
    b"3 3 0\n13\n2 1 3\n+BC++.x\nEND\n", CheckFault::Low(5);
    b"3 3 0\n13\n2 1 3\n+BC++x.\nEND\n", CheckFault::Tree(5);
    b"3 3 0\n13\n2 1 3\n+BC+A.B\nEND\n", CheckFault::Weak(5);
    // At depth 3 the sequences stand in lexicographic order, and 3 1 2 is the fifth.
    b"3 3 3\n13\n2 1 3\n.\n.\n.\n.\n.\n.\nend\n", CheckFault::Low(9);
    // A tree that is weak, missing, or one too many.
    b"3 3 1\n12\n3 1 2\nB\nC\n++.A\nend\n", CheckFault::Weak(7);
    b"3 3 1\n12\n3 1 2\nB\nC\nend\n", CheckFault::Tree(7);
    b"3 3 1\n12\n3 1 2\nB\nC\n++.B\n++.B\nend\n", CheckFault::End;
    b"3 3 1\n12\n3 1 2\nB\nC\n++.B\nend\nx", CheckFault::End;
    // Line ends that are missing.
    b"3 3 1\n12\n3 1 2\nBC\n++.B\nend\n", CheckFault::Tree(5);
    b"3 3 1\n12\n3 1 2\nB\nC\n++.Bend\n", CheckFault::Tree(7);
    b"3 3 1\n12\n3 1 2\nB\nC\n++.B", CheckFault::Tree(7);
    b"3 3 1\n12\n3 1 2\nB\nC\n++.B\nend", CheckFault::End;
};

#[test]
fn checker_names_first_fault(rt: HostRuntime) -> Result<(), Fail> {
    let three = three_machines(rt.alloc())?;
    for (number, (rest, fault)) in FIRST_FAULTS.iter().enumerate() {
        for title in [TITLE, TITLE_2] {
            let text = replaced(rt.alloc(), title, title.len(), 0, rest)?;
            assert_eq!(rt;
                check(rt.alloc(), &three, text.as_slice()),
                Err(*fault),
                "row {number}"
            );
        }
    }
    Ok(())
}

/// A certificate of the instance with three machines, whose trees are single letters.
const LETTERS: [u8; 54] = *b"flowshop certificate 1\n3 3 2\n12\n3 1 2\nB\nB\nC\nB\nA\nB\nend\n";

/// The machines whose bound is at least 12, worked out by hand, at 1 2, 1 3, 2 1, 2 3, 3 1 and 3 2.
static STRONG: [&[u8]; 6] = [b"BC", b"AB", b"C", b"BC", b"AB", b"BC"];

/// What the checker answers where this letter is the tree on a line, and these are those that it accepts there.
fn answer_of(letter: u8, strong: &[u8], line: usize) -> Result<u64, CheckFault> {
    if letter == b'D' {
        Err(CheckFault::Tree(line))
    } else if strong.contains(&letter) {
        Ok(12)
    } else {
        Err(CheckFault::Weak(line))
    }
}

#[test]
fn checker_tests_each_single_letter(rt: HostRuntime) -> Result<(), Fail> {
    let three = three_machines(rt.alloc())?;
    for (index, strong) in STRONG.iter().enumerate() {
        for letter in b'A'..=b'D' {
            let text = replaced(
                rt.alloc(),
                &LETTERS,
                index.saturating_mul(2).saturating_add(38),
                1,
                &[letter],
            )?;
            let answer = answer_of(letter, strong, index + 5);
            assert_eq!(rt;
                check(rt.alloc(), &three, text.as_slice()),
                answer,
                "{index}: {letter}"
            );
        }
    }
    Ok(())
}

/// An instance on one machine, the depth, a tree, how many lines have this tree, and the answer.
type Equal = (Shop, u32, &'static [u8], usize, Result<u64, CheckFault>);

/// 48 jobs have 48 * 47 * 46 = 103,776 lists of three, more than the prefixes of a plan. 4 jobs have 24 lists of three,
/// and as many of four.
static EQUAL_TREES: [Equal; 5] = rows! {
    Shop::Times(48, 1, &[0; 48]), 3, b"A\n", 103_776, Ok(0);
    Shop::Times(48, 1, &[0; 48]), 3, b"A\n", 103_775, Err(CheckFault::Tree(103_780));
    Shop::Times(48, 1, &[0; 48]), 3, b"A\n", 103_777, Err(CheckFault::End);
    Shop::Times(4, 1, &[0; 4]), 3, b"A\n", 24, Ok(0);
    Shop::Times(4, 1, &[0; 4]), 4, b".\n", 24, Err(CheckFault::Size);
};

/// A text for so many jobs on one machine, whose sequence is 1, 2, .. and whose makespan is 0, with so many lines that
/// have this tree.
fn text_of(
    alloc: Global,
    jobs: u16,
    depth: u32,
    tree: &[u8],
    count: usize,
) -> Result<Vec<u8>, AllocError> {
    let mut text = Vec::from_slice(alloc, TITLE)?;
    text.extend_from_slice(format!(in alloc; "{jobs} 1 {depth}\n0\n1")?.as_bytes())?;
    for job in 2..jobs.saturating_add(1) {
        text.extend_from_slice(format!(in alloc; " {job}")?.as_bytes())?;
    }
    text.push(b'\n')?;
    text.append(&mut tree.repeat(alloc, count)?)?;
    text.extend_from_slice(b"end\n")?;
    Ok(text)
}

#[test]
fn checker_reads_a_tree_for_each_list_of_the_depth(rt: HostRuntime) -> Result<(), Fail> {
    for (number, (shop, depth, tree, count, answer)) in EQUAL_TREES.iter().enumerate() {
        let instance = made(rt.alloc(), *shop)?;
        let text = text_of(rt.alloc(), instance.jobs(), *depth, tree, *count)?;
        assert_eq!(rt;
            check(rt.alloc(), &instance, text.as_slice()),
            *answer,
            "row {number}"
        );
    }
    Ok(())
}

/// The first lines of both versions, and the other lines of the certificate at depth 0, without their ends.
static LINES: [[&[u8]; 6]; 2] = [
    [
        b"flowshop certificate 1",
        b"3 3 0",
        b"12",
        b"3 1 2",
        b"+BC++.B",
        b"end",
    ],
    [
        b"flowshop certificate 2",
        b"3 3 0",
        b"12",
        b"3 1 2",
        b"+BC++.B",
        b"end",
    ],
];

#[test]
fn lines_make_the_certificate(rt: HostRuntime) -> Result<(), Fail> {
    let text = with_line(rt.alloc(), &LINES[0], 0, b"")?;
    assert_eq!(rt; text.as_slice(), CERTIFICATE_AT_DEPTH_0.as_slice());
    Ok(())
}

/// The number of a line, its fault, and bytes that have this fault in either version as that line of the certificate at
/// depth 0.
type Changed = (usize, CheckFault, &'static [&'static [u8]]);

static CHANGED_LINES: [Changed; 11] = rows! {
    1, CheckFault::Header, &[b"", b"flowshop certificate 3", b"flowshop certificate 0", b"flowshop certificate 01",
        b"flowshop certificate", b"Flowshop certificate 1", b"flowshop certificate 1 ", b"flowshop certificate 1\r"];
    2, CheckFault::Size, &[b"", b"3 3", b"3 3 0 0", b"3 3 4", b"2 3 0", b"3 2 0", b"03 3 0", b"3 03 0", b"3 3 00",
        b"3  3 0", b" 3 3 0", b"3 3 0 ", b"3 3 +0", b"3 3 0\r"];
    3, CheckFault::Value, &[b"", b"012", b"12 ", b"12 12", b"12\r", b"18446744073709551616"];
    3, CheckFault::NotAttained, &[b"18446744073709551615", b"13", b"11"];
    4, CheckFault::Sequence, &[b"", b"3 1", b"3 1 2 2", b"3 1 1", b"3 1 0", b"3 1 4", b"3 1 02", b"3  1 2", b"3 1 2 ",
        b"3 1 2\r"];
    4, CheckFault::NotAttained, &[b"1 2 3"];
    // The bound of machine 1 is 7 at the empty list, and 8 at 3 2.
    5, CheckFault::Weak(5), &[b"A", b"Ax", b"+BAx", b"+BC++.A"];
    // No byte of a tree, and no machine of the instance.
    5, CheckFault::Tree(5), &[b"xA", b"+BxA", b"D", b"@", b"b", b" +BC++.B"];
    // A point where jobs are left; a plus and a letter where none is left.
    5, CheckFault::Tree(5), &[b".", b"+BC+..", b"+BC+++B", b"+BC++BB"];
    // The end of the line within a tree; a byte behind a whole tree.
    5, CheckFault::Tree(5), &[b"", b"+BC++.", b"+BC++.BA", b"+BC++.B ", b"+BC++.B\r", b"+BC++.Bend"];
    6, CheckFault::End, &[b"", b"END", b"end\r"];
};

#[test]
fn checker_names_fault_of_each_changed_line(rt: HostRuntime) -> Result<(), Fail> {
    let three = three_machines(rt.alloc())?;
    for (line, fault, changes) in &CHANGED_LINES {
        for bytes in *changes {
            for lines in &LINES {
                let text = with_line(rt.alloc(), lines, *line, bytes)?;
                assert_eq!(rt;
                    check(rt.alloc(), &three, text.as_slice()),
                    Err(*fault),
                    "{bytes:?}"
                );
            }
        }
    }
    Ok(())
}

/// How many bytes of the certificate at depth 0 there are, from a first number up to another one, and their fault.
static BEGINNINGS: [(usize, usize, CheckFault); 6] = [
    (0, 23, CheckFault::Header),
    (23, 29, CheckFault::Size),
    (29, 32, CheckFault::Value),
    (32, 38, CheckFault::Sequence),
    (38, 46, CheckFault::Tree(5)),
    (46, 50, CheckFault::End),
];

#[test]
fn checker_names_first_fault_of_each_prefix(rt: HostRuntime) -> Result<(), Fail> {
    let three = three_machines(rt.alloc())?;
    for (from, to, fault) in &BEGINNINGS {
        for length in *from..*to {
            let text = CERTIFICATE_AT_DEPTH_0.get(..length).unwrap_or(b"");
            assert_eq!(rt;
                check(rt.alloc(), &three, text),
                Err(*fault),
                "{length} bytes"
            );
        }
    }
    Ok(())
}

/// The certificates that differ from the one at depth 0 in one byte, in order. Machine 3 has the bound 14 at the list
/// 3 2, and version 2 the same bounds or greater ones.
static CLOSE_CERTIFICATES: [&[u8]; 2] = [
    b"flowshop certificate 2\n3 3 0\n12\n3 1 2\n+BC++.B\nend\n",
    b"flowshop certificate 1\n3 3 0\n12\n3 1 2\n+BC++.C\nend\n",
];

#[test]
fn checker_accepts_two_of_all_changed_bytes(rt: HostRuntime) -> Result<(), Fail> {
    let three = three_machines(rt.alloc())?;
    let mut accepted = CLOSE_CERTIFICATES.iter();
    for text in &close_texts(rt.alloc(), Change::Other, &CERTIFICATE_AT_DEPTH_0)? {
        if let Ok(value) = check(rt.alloc(), &three, text.as_slice()) {
            assert_eq!(rt;
                (value, Some(text.as_slice())),
                (12, accepted.next().copied())
            );
        }
    }
    assert_eq!(rt; accepted.next(), None);
    Ok(())
}
