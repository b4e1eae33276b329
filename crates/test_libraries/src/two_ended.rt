//! The checker of two-ended certificates.

use crate::changes::{Change, close_texts, replaced, with_line};
use crate::instances::{TWO_ENDED_11, TWO_ENDED_12, three_machines};
use crate::shops::{Shop, made};
use flow_check::{CheckFault, check, check_two_ended};
use flow_core::Instance;
use std::alloc::Global;
use std::test::Fail;

/// The bounds of a lawful text, or the first fault.
pub(crate) type Answer = Result<(u64, u64), CheckFault>;

/// The first line.
const TITLE: &[u8] = b"flowshop two-ended 1\n";

/// What the checker answers for an instance.
pub(crate) fn answer_of(alloc: Global, instance: &Instance, text: &[u8]) -> Answer {
    match check_two_ended(alloc, instance, text) {
        Ok(shown) => Ok((shown.bounds.lower, shown.bounds.upper)),
        Err(fault) => Err(fault),
    }
}

/// An instance, what stands behind the first line, and the answer.
type Row = (Shop, &'static [u8], Answer);

/// One job on one machine, with time 0.
const ONE_JOB: Shop = Shop::Times(1, 1, &[0]);

/// The first published instance of 20 jobs on 5 machines.
const PUBLISHED: Shop = Shop::Seed(20, 5, 873_654_221);

/// Texts of some instances.
static ANSWERS: [Row; 34] = rows! {
    // With three machines the node of two empty lists has the bound 10. With one job at the front the bounds are 14, 13
    // and 10, at the back 14, 12 and 11; those of 3 1 and 3 2 are 12 and 14.
    Shop::Three, b"3 3\n0 13\n2 1 3\n\nend\n", Ok((0, 13));
    Shop::Three, b"3 3\n10 12\n3 1 2\n\nend\n", Ok((10, 12));
    Shop::Three, b"3 3\n10 12\n3 1 2\n-\nend\n", Err(CheckFault::Tree(5));
    Shop::Three, b"3 3\n11 13\n2 1 3\n-\nend\n", Ok((11, 13));
    Shop::Three, b"3 3\n11 13\n2 1 3\n++\nend\n", Ok((11, 13));
    Shop::Three, b"3 3\n11 12\n3 1 2\n+-\nend\n", Ok((11, 12));
    Shop::Three, b"3 3\n11 13\n2 1 3\n\nend\n", Err(CheckFault::Tree(5));
    Shop::Three, b"3 3\n11 13\n2 1 3\n+\nend\n", Err(CheckFault::Tree(5));
    Shop::Three, b"3 3\n11 13\n2 1 3\n--\nend\n", Err(CheckFault::Tree(5));
    Shop::Three, b"3 3\n12 12\n3 1 2\n++\nend\n", Ok((12, 12));
    Shop::Three, b"3 3\n12 12\n3 1 2\n+-\nend\n", Ok((12, 12));
    Shop::Three, b"3 3\n12 12\n3 1 2\n-+\nend\n", Ok((12, 12));
    Shop::Three, b"3 3\n12 12\n3 1 2\n--\nend\n", Ok((12, 12));
    Shop::Three, b"3 3\n12 12\n3 1 2\n-\nend\n", Err(CheckFault::Tree(5));
    Shop::Three, b"3 3\n12 13\n2 1 3\n--\nend\n", Ok((12, 13));
    // The sequence 3 1 2 has the makespan 12, which is below 13.
    Shop::Three, b"3 3\n13 13\n2 1 3\n++\nend\n", Err(CheckFault::Tree(5));
    Shop::Three, b"3 3\n13 13\n2 1 3\n+++\nend\n", Err(CheckFault::Low(5));
    Shop::Three, b"3 3\n13 13\n2 1 3\n+++x\nEND\n", Err(CheckFault::Low(5));
    Shop::Three, b"3 3\n13 13\n2 1 3\n---\nend\n", Err(CheckFault::Low(5));
    Shop::Three, b"3 3\n13 12\n3 1 2\n+++\nend\n", Err(CheckFault::Low(5));
    Shop::Three, b"3 3\n18446744073709551615 13\n2 1 3\n+++\nend\n", Err(CheckFault::Low(5));
    Shop::Three, b"3 3\n11 12\n2 1 3\n-\nend\n", Err(CheckFault::NotAttained);
    // With two machines the bound of the node of two empty lists is the least makespan.
    Shop::Two, b"3 2\n9 9\n2 3 1\n\nend\n", Ok((9, 9));
    Shop::Two, b"3 2\n9 9\n2 3 1\n+\nend\n", Err(CheckFault::Tree(5));
    ONE_JOB, b"1 1\n0 0\n1\n\nend\n", Ok((0, 0));
    ONE_JOB, b"1 1\n1 0\n1\n\nend\n", Err(CheckFault::Tree(5));
    ONE_JOB, b"1 1\n1 0\n1\n+\nend\n", Err(CheckFault::Low(5));
    ONE_JOB, b"1 1\n1 0\n1\n-\nend\n", Err(CheckFault::Low(5));
    Shop::Times(1, 3, &[3, 1, 2]), b"1 3\n6 6\n1\n\nend\n", Ok((6, 6));
    Shop::Times(3, 2, &[0; 6]), b"3 2\n0 0\n1 2 3\n\nend\n", Ok((0, 0));
    PUBLISHED, b"20 5\n1278 1278\n9 15 14 17 3 6 18 4 2 7 11 13 19 1 5 16 8 10 20 12\n-----+-\nend\n",
        Ok((1278, 1278));
    PUBLISHED, b"20 5\n1278 1278\n9 15 14 17 3 6 18 4 2 7 11 13 19 1 5 16 8 10 20 12\n-----+\nend\n",
        Err(CheckFault::Tree(5));
    PUBLISHED, b"20 5\n1278 1278\n9 15 14 17 3 6 18 4 2 7 11 13 19 1 5 16 8 10 20 12\n-----+--\nend\n",
        Err(CheckFault::Tree(5));
    PUBLISHED, b"20 5\n1278 1279\n9 15 14 17 3 6 18 4 2 7 11 13 19 1 5 16 8 10 20 12\n-----+-\nend\n",
        Err(CheckFault::NotAttained);
};

#[test]
fn check_two_ended_answers_texts(rt: HostRuntime) -> Result<(), Fail> {
    for (number, (shop, rest, answer)) in ANSWERS.iter().enumerate() {
        let text = replaced(rt.alloc(), TITLE, TITLE.len(), 0, rest)?;
        let instance = made(rt.alloc(), *shop)?;
        assert_eq!(rt;
            answer_of(rt.alloc(), &instance, text.as_slice()),
            *answer,
            "row {number}"
        );
    }
    Ok(())
}

/// The lines of a two-ended certificate of the instance with three machines, without their ends.
static LINES: [&[u8]; 6] = [
    b"flowshop two-ended 1",
    b"3 3",
    b"12 12",
    b"3 1 2",
    b"++",
    b"end",
];

/// The number of a line, its fault, and bytes that have this fault as that line of the certificate.
type Changed = (usize, CheckFault, &'static [&'static [u8]]);

/// Changed lines. What stands on the later ones does not matter.
static CHANGED_LINES: [Changed; 8] = rows! {
    1, CheckFault::Header, &[b"", b"flowshop two-ended 2", b"flowshop two-ended 0", b"flowshop two-ended 01",
        b"flowshop two-ended", b"Flowshop two-ended 1", b"flowshop two-ended 1 ", b"flowshop two-ended 1\r",
        b"flowshop certificate 1", b"flowshop bounds 1", b"flowshop\n3\n012\n3 1"];
    2, CheckFault::Size, &[b"", b"3", b"3 3 0", b"2 3", b"3 2", b"03 3", b"3 03", b"3  3", b" 3 3", b"3 3 ", b"3 +3",
        b"3 3\r", b"4 3\n012\n3 1"];
    3, CheckFault::Value, &[b"", b"12", b"012 12", b"12 012", b"12 12 12", b"12 12 ", b"12  12", b"12 12\r",
        b"12 18446744073709551616", b"18446744073709551616 12", b"12\n3 1"];
    3, CheckFault::NotAttained, &[b"12 18446744073709551615", b"12 13", b"12 11", b"0 0"];
    4, CheckFault::Sequence, &[b"", b"3 1", b"3 1 2 2", b"3 1 1", b"3 1 0", b"3 1 4", b"3 1 02", b"3  1 2", b"3 1 2 ",
        b"3 1 2\r", b"3 1\nx"];
    4, CheckFault::NotAttained, &[b"1 2 3", b"2 1 3\nx"];
    5, CheckFault::Tree(5), &[b"", b"+", b"-", b".", b"x+", b"+x", b"+.", b" ++", b"+++", b"++-", b"++ ", b"++\r",
        b"++x", b"++end"];
    6, CheckFault::End, &[b"", b"END", b"end ", b"end\r", b"end\nx"];
};

#[test]
fn check_two_ended_names_the_first_fault(rt: HostRuntime) -> Result<(), Fail> {
    let three = three_machines(rt.alloc())?;
    for (line, fault, changes) in &CHANGED_LINES {
        for bytes in *changes {
            let text = with_line(rt.alloc(), &LINES, *line, bytes)?;
            assert_eq!(rt;
                answer_of(rt.alloc(), &three, text.as_slice()),
                Err(*fault),
                "{bytes:?}"
            );
        }
    }
    Ok(())
}

/// How many bytes of the certificate there are, from a first number up to another one, and their first fault.
type Beginnings = (usize, usize, CheckFault);

static BEGINNINGS: [Beginnings; 6] = [
    (0, 21, CheckFault::Header),
    (21, 25, CheckFault::Size),
    (25, 31, CheckFault::Value),
    (31, 37, CheckFault::Sequence),
    (37, 40, CheckFault::Tree(5)),
    (40, 44, CheckFault::End),
];

#[test]
fn check_two_ended_names_the_first_fault_of_each_beginning(rt: HostRuntime) -> Result<(), Fail> {
    let three = three_machines(rt.alloc())?;
    for (from, to, fault) in &BEGINNINGS {
        for length in *from..*to {
            let text = TWO_ENDED_12.get(..length).unwrap_or(b"");
            assert_eq!(rt;
                answer_of(rt.alloc(), &three, text),
                Err(*fault),
                "{length} bytes"
            );
        }
    }
    assert_eq!(rt; TWO_ENDED_12.len(), 44);
    Ok(())
}

/// Texts of the instance with three machines, and the texts with one other byte that are lawful too: `-`, `++` and `+-`
/// prove 11, all four strings of two signs prove 12, and none other proves either.
static CLOSE: [(&[u8], &[&[u8]]); 5] = rows! {
    TWO_ENDED_12, &[b"flowshop two-ended 1\n3 3\n11 12\n3 1 2\n++\nend\n",
        b"flowshop two-ended 1\n3 3\n12 12\n3 1 2\n-+\nend\n", b"flowshop two-ended 1\n3 3\n12 12\n3 1 2\n+-\nend\n"];
    b"flowshop two-ended 1\n3 3\n12 12\n3 1 2\n--\nend\n", &[b"flowshop two-ended 1\n3 3\n12 12\n3 1 2\n+-\nend\n",
        b"flowshop two-ended 1\n3 3\n12 12\n3 1 2\n-+\nend\n"];
    b"flowshop two-ended 1\n3 3\n12 13\n2 1 3\n-+\nend\n", &[b"flowshop two-ended 1\n3 3\n12 13\n2 1 3\n++\nend\n",
        b"flowshop two-ended 1\n3 3\n12 13\n2 1 3\n--\nend\n"];
    b"flowshop two-ended 1\n3 3\n11 13\n2 1 3\n+-\nend\n", &[b"flowshop two-ended 1\n3 3\n12 13\n2 1 3\n+-\nend\n",
        b"flowshop two-ended 1\n3 3\n11 13\n2 1 3\n++\nend\n"];
    TWO_ENDED_11, &[];
};

#[test]
fn check_two_ended_accepts_these_of_all_changed_bytes(rt: HostRuntime) -> Result<(), Fail> {
    let three = three_machines(rt.alloc())?;
    for (number, (text, lawful)) in CLOSE.iter().enumerate() {
        let mut lawful = lawful.iter();
        for close in &close_texts(rt.alloc(), Change::Other, text)? {
            if answer_of(rt.alloc(), &three, close.as_slice()).is_ok() {
                assert_eq!(rt;
                    lawful.next().copied(),
                    Some(close.as_slice()),
                    "row {number}"
                );
            }
        }
        assert_eq!(rt; lawful.next(), None, "row {number}");
    }
    Ok(())
}

#[test]
fn each_checker_reads_its_kind_of_text(rt: HostRuntime) -> Result<(), Fail> {
    let three = three_machines(rt.alloc())?;
    let shown = check_two_ended(rt.alloc(), &three, TWO_ENDED_12)?;
    assert_eq!(rt; shown.sequence.jobs(), [3, 1, 2].as_slice());
    assert_eq!(rt;
        check(rt.alloc(), &three, TWO_ENDED_12),
        Err(CheckFault::Header)
    );
    Ok(())
}
