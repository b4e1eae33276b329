//! The kinds of text, and the checker of all of them.

use crate::instances::{CERTIFICATE_AT_DEPTH_0, TWO_ENDED_11, TWO_ENDED_12, three_machines};
use flow_check::{
    Bounds, CheckFault, Shown, TextKind, check_counted, check_text, check_text_by, kind_of,
};
use flow_directions::Alone;
use std::test::Fail;

/// The bounds and the sequence of a lawful text, or the first fault.
type Answer = Result<(u64, u64, &'static [u16]), CheckFault>;

/// A text of the instance with three machines that is no counted certificate, the kind as which it is read, and what the
/// checker answers for it as a certificate with trees, and as a two-ended certificate.
type Row = (&'static [u8], TextKind, Answer, Answer);

static ROWS: [Row; 8] = rows! {
    &CERTIFICATE_AT_DEPTH_0, TextKind::Certificate, Ok((12, 12, &[3, 1, 2])), Err(CheckFault::Header);
    b"flowshop certificate 2\n3 3 0\n12\n3 1 2\n+BC+AB\nend\n", TextKind::Certificate, Ok((12, 12, &[3, 1, 2])),
        Err(CheckFault::Header);
    TWO_ENDED_11, TextKind::TwoEnded, Err(CheckFault::Header), Ok((11, 13, &[2, 1, 3]));
    TWO_ENDED_12, TextKind::TwoEnded, Err(CheckFault::Header), Ok((12, 12, &[3, 1, 2]));
    // The first line alone makes a text a two-ended one, and it ends.
    b"flowshop two-ended 1\n3 3 0\n12\n3 1 2\n+BC++.B\nend\n", TextKind::TwoEnded, Err(CheckFault::Header),
        Err(CheckFault::Size);
    b"flowshop two-ended 1", TextKind::Certificate, Err(CheckFault::Header), Err(CheckFault::Header);
    b"flowshop counted 1", TextKind::Certificate, Err(CheckFault::Header), Err(CheckFault::Header);
    // A text of another kind.
    b"flowshop bounds 1\n3 3 0\n11 13\n2 1 3\n+BB+AB\nend\n", TextKind::Certificate, Err(CheckFault::Header),
        Err(CheckFault::Header);
};

/// A counted certificate of that instance, or what is none, and what the checker answers where so many nodes are allowed.
/// Below 12 the search opens the node of two empty lists and one child; below 13 it opens three nodes, and then meets 3 1
/// 2, whose makespan is 12; the bound of the node of two empty lists is 10.
type CountedRow = (&'static [u8], u64, Answer);

static COUNTED: [CountedRow; 14] = rows! {
    b"flowshop counted 1\n3 3\n12 12\n3 1 2\n2\nend\n", u64::MAX, Ok((12, 12, &[3, 1, 2]));
    b"flowshop counted 1\n3 3\n12 12\n3 1 2\n2\nend\n", 2, Ok((12, 12, &[3, 1, 2]));
    b"flowshop counted 1\n3 3\n12 12\n3 1 2\n2\nend\n", 1, Err(CheckFault::Most);
    b"flowshop counted 1\n3 3\n12 12\n3 1 2\n1\nend\n", 2, Err(CheckFault::Tree(5));
    b"flowshop counted 1\n3 3\n12 12\n3 1 2\n3\nend\n", 3, Err(CheckFault::Tree(5));
    b"flowshop counted 1\n3 3\n12 12\n3 1 2\n02\nend\n", 2, Err(CheckFault::Value);
    b"flowshop counted 1\n3 3\n12 12\n3 1 2\n2\nEnd\n", 2, Err(CheckFault::End);
    b"flowshop counted 1\n3 3\n10 13\n2 1 3\n0\nend\n", 0, Ok((10, 13, &[2, 1, 3]));
    b"flowshop counted 1\n3 3\n10 13\n2 1 3\n1\nend\n", 1, Err(CheckFault::Tree(5));
    b"flowshop counted 1\n3 3\n13 13\n2 1 3\n2\nend\n", 9, Err(CheckFault::Tree(5));
    b"flowshop counted 1\n3 3\n13 13\n2 1 3\n3\nend\n", 9, Err(CheckFault::Low(5));
    b"flowshop counted 1\n3 3\n12 13\n3 1 2\n2\nend\n", 2, Err(CheckFault::NotAttained);
    b"flowshop counted 1\n3 3\n12 12\n3 1 2\n18446744073709551616\nend\n", u64::MAX, Err(CheckFault::Value);
    b"flowshop two-ended 1\n3 3\n12 12\n3 1 2\n2\nend\n", 2, Err(CheckFault::Header);
};

/// Whether the checker answered so.
fn is_answer(found: &Result<Shown, CheckFault>, answer: Answer) -> bool {
    match (found, answer) {
        (Ok(shown), Ok((lower, upper, jobs))) => {
            shown.bounds == Bounds { lower, upper } && shown.sequence.jobs() == jobs
        }
        (Err(fault), Err(wanted)) => *fault == wanted,
        _ => false,
    }
}

#[test]
fn check_text_answers_texts_of_each_kind(rt: HostRuntime) -> Result<(), Fail> {
    let three = three_machines(rt.alloc())?;
    for (number, (text, kind, as_trees, as_two_ended)) in ROWS.iter().enumerate() {
        assert!(rt; kind_of(text) == *kind, "row {number}");
        for (kind, answer) in [
            (TextKind::Certificate, *as_trees),
            (TextKind::TwoEnded, *as_two_ended),
            (TextKind::Counted, Err(CheckFault::Header)),
        ] {
            let found = check_text(rt.alloc(), kind, &three, text);
            assert!(rt; is_answer(&found, answer), "row {number} as {kind:?}");
        }
    }
    for (number, (text, most, answer)) in COUNTED.iter().enumerate() {
        let found = check_counted(rt.alloc(), &Alone, &three, text, *most);
        assert!(rt; is_answer(&found, *answer), "counted row {number}");
        let kind = kind_of(text);
        let is_counted = *answer != Err(CheckFault::Header);
        assert!(rt;
            (kind == TextKind::Counted) == is_counted,
            "counted row {number}"
        );
        if is_counted {
            let found = check_text_by(rt.alloc(), &Alone, *most, kind, &three, text);
            assert!(rt;
                is_answer(&found, *answer),
                "counted row {number}, by its kind"
            );
        }
    }
    Ok(())
}
