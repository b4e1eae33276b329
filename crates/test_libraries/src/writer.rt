//! Certificates and two-ended certificates as they are written.

use crate::instances::{CERTIFICATE_AT_DEPTH_0, TWO_ENDED_11, TWO_ENDED_12};
use crate::plans::planned;
use crate::shops::{Shop, made};
use flow_cert::{write_certificate, write_two_ended};
use flow_check::Bounds;
use flow_core::{MemorySink, Sequence, WriteFault};
use flow_search::solve_plain;
use std::test::Fail;

/// Nine jobs on four machines.
const NINE: Shop = Shop::Times(
    9,
    4,
    &[
        5, 2, 3, 1, 5, 2, 4, 5, 1, //
        2, 1, 2, 5, 1, 5, 1, 1, 2, //
        3, 2, 5, 4, 5, 3, 5, 1, 4, //
        5, 1, 5, 2, 5, 1, 1, 5, 4,
    ],
);

/// Ten jobs on four machines.
const TEN: Shop = Shop::Times(
    10,
    4,
    &[
        0, 0, 3, 2, 8, 5, 5, 0, 8, 6, //
        1, 5, 0, 8, 4, 3, 9, 4, 5, 2, //
        7, 2, 9, 2, 0, 4, 6, 5, 8, 8, //
        6, 7, 1, 2, 3, 0, 8, 7, 0, 8,
    ],
);

/// An instance and a depth, how many bytes the sink takes, the answer, and what the sink has then.
type Row = (Shop, u32, usize, Result<(), WriteFault>, &'static [u8]);

static CERTIFICATES: [Row; 11] = rows! {
    Shop::Three, 0, 50, Ok(()), &CERTIFICATE_AT_DEPTH_0;
    Shop::Three, 0, 10, Err(WriteFault::Device), b"flowshop c";
    // A tree for each prefix.
    Shop::Three, 1, 1_000, Ok(()), b"flowshop certificate 1\n3 3 1\n12\n3 1 2\nB\nC\n++.B\nend\n";
    Shop::Three, 2, 1_000, Ok(()), b"flowshop certificate 1\n3 3 2\n12\n3 1 2\nB\nB\nC\nB\n+.\nB\nend\n";
    Shop::Three, 3, 1_000, Ok(()), b"flowshop certificate 1\n3 3 3\n12\n3 1 2\n.\n.\n.\n.\n.\n.\nend\n";
    // No sequence is below the start.
    Shop::Two, 0, 1_000, Ok(()), b"flowshop certificate 1\n3 2 0\n9\n2 3 1\n+BBB\nend\n";
    Shop::Times(1, 1, &[0]), 0, 1_000, Ok(()), b"flowshop certificate 1\n1 1 0\n0\n1\nA\nend\n";
    // The certificates of nine and ten jobs are as `bench/plain.rs` writes them, which shares nothing with the crates.
    // The search walks a node with nine jobs left in another way than one with eight. These trees go from the one to
    // the other and back, and the bound in force falls on the way.
    NINE, 0, 1_000, Ok(()), b"flowshop certificate 1\n9 4 0\n37\n2 9 1 3 4 8 5 7 6\n\
+C+CDCCCDC++++D+DC++.AD++C+.CACCCCCCCCCDCDCDDCCCCCC+C+CDDDCD+CCCCCADCDCD+CCCCCCC\nend\n";
    NINE, 1, 1_000, Ok(()), b"flowshop certificate 1\n9 4 1\n37\n2 9 1 3 4 8 5 7 6\nC\n\
+CDCCCDC++++D+DC++.AD++C+.CACCCCCCCCCDCDCDD\nD\nC\nC\nC\nD\nC\n\
+++++D+DC++.AD++C+.CACCCCCCCCCCCCCCC+CDDDCD+CCCCCADCDCD+CCCCCCC\nend\n";
    TEN, 0, 1_000, Ok(()), b"flowshop certificate 1\n10 4 0\n52\n1 2 3 4 5 10 8 6 7 9\n\
+++++++C+CB++.ABDC++CADC+ACD+++.ACCC+BC+++.ACCBCCCCCCCCCCCCCCCCCCCCBCCCCCCCCBCCCBC\nend\n";
    TEN, 1, 1_000, Ok(()), b"flowshop certificate 1\n10 4 1\n52\n1 2 3 4 5 10 8 6 7 9\n\
++++++C+CB++.ABDC++CADC+ACD+++.ACCC+BC+++.ACCBCCCCCCCCCCCCCCCCCCCCBCCCCC\nC\n\
+D+++++CDBDCCC++C++.ABCDCDCDDDDDDDDDCCDCDCDCBDCDBD\nC\nC\nC\nC\n\
+++++++CBDC+CDD+++.ACCCCCCCCCCCCCCCCCCCCCCCCCCCCCCCC\nC\nC\nend\n";
};

#[test]
fn write_certificate_writes_what_the_sink_takes(rt: HostRuntime) -> Result<(), Fail> {
    for (number, (shop, depth, room, answer, text)) in CERTIFICATES.iter().enumerate() {
        let instance = made(rt.alloc(), *shop)?;
        let plan = planned(rt.alloc(), &instance, 1, (*depth, 1, 1_000))?;
        let verdict = solve_plain(rt.alloc(), &plan)?;
        let mut sink = MemorySink::new(rt.alloc(), *room);
        assert_eq!(rt;
            write_certificate(&plan, &verdict, &mut sink),
            *answer,
            "row {number}"
        );
        assert_eq!(rt; sink.bytes(), *text, "row {number}");
    }
    Ok(())
}

/// An instance, two bounds, a sequence and the signs of directions, how many bytes the sink takes, the answer, and what
/// the sink has then.
type TwoEnded = (
    Shop,
    (u64, u64),
    &'static [u16],
    &'static [u8],
    usize,
    Result<(), WriteFault>,
    &'static [u8],
);

/// Two-ended certificates; the last text is none, and is written as it is given.
static TWO_ENDED: [TwoEnded; 8] = rows! {
    Shop::Seed(20, 5, 873_654_221), (1_278, 1_278), &[9, 15, 14, 17, 3, 6, 18, 4, 2, 7, 11, 13, 19, 1, 5, 16, 8, 10,
        20, 12], b"-----+-", 99, Ok(()),
        b"flowshop two-ended 1\n20 5\n1278 1278\n9 15 14 17 3 6 18 4 2 7 11 13 19 1 5 16 8 10 20 12\n-----+-\nend\n";
    Shop::Three, (12, 12), &[3, 1, 2], b"++", 44, Ok(()), TWO_ENDED_12;
    Shop::Three, (11, 13), &[2, 1, 3], b"-", 1_000, Ok(()), TWO_ENDED_11;
    Shop::Two, (9, 9), &[2, 3, 1], b"", 1_000, Ok(()), b"flowshop two-ended 1\n3 2\n9 9\n2 3 1\n\nend\n";
    Shop::Times(1, 1, &[0]), (0, 0), &[1], b"", 1_000, Ok(()), b"flowshop two-ended 1\n1 1\n0 0\n1\n\nend\n";
    Shop::Three, (12, 12), &[3, 1, 2], b"++", 43, Err(WriteFault::Device),
        b"flowshop two-ended 1\n3 3\n12 12\n3 1 2\n++\nend";
    Shop::Three, (12, 12), &[3, 1, 2], b"++", 0, Err(WriteFault::Device), b"";
    Shop::Three, (18_446_744_073_709_551_615, 0), &[1, 2, 3], b"x\n", 1_000, Ok(()),
        b"flowshop two-ended 1\n3 3\n18446744073709551615 0\n1 2 3\nx\n\nend\n";
};

#[test]
fn write_two_ended_writes_what_the_sink_takes(rt: HostRuntime) -> Result<(), Fail> {
    for (shop, (lower, upper), jobs, directions, room, answer, text) in &TWO_ENDED {
        let instance = made(rt.alloc(), *shop)?;
        let sequence = Sequence::new(rt.alloc(), &instance, jobs)?;
        let bounds = Bounds {
            lower: *lower,
            upper: *upper,
        };
        let mut sink = MemorySink::new(rt.alloc(), *room);
        let found = write_two_ended(&instance, bounds, &sequence, directions, &mut sink);
        assert_eq!(rt; (found, sink.bytes()), (*answer, *text));
    }
    Ok(())
}
