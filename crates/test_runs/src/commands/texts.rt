//! Texts of instances, of starts and of certificates.

use flow_commands::CommandFault;
use flow_core::{SequenceFault, StartFault};

/// Three jobs on three machines. The least makespan is 12.
pub(super) const THREE_MACHINES: &[u8] = b"a\n3 3 0 0 0\nb\n4 0 0\n0 8 2\n4 0 1\n";

pub(super) const TWO_MACHINES: &[u8] = b"a\n3 2 0 0 0\nb\n3 1 2\n2 4 2\n";

/// One job on one machine, with time 0.
pub(super) const ONE_JOB: &[u8] = b"a\n1 1 0 0 0\nb\n0\n";

/// Nine jobs on four machines, with the times of `gen 9 4 56`.
pub(super) const LONG_TREES: &[u8] =
    b"a\n9 4 0 0 0\nb\n1 37 32 68 83 26 63 2 5\n34 48 9 53 93 99 66 58 43\n\
47 74 38 46 98 11 39 51 15\n62 30 27 97 68 70 66 22 38\n";

/// Its starting sequence. From it the tree has 16,331 bytes.
pub(super) const LONG_TREES_START: &[u8] = b"sequence 1 6 3 7 4 5 9 2 8\nmakespan 626\n";

/// Nine jobs on four machines, with the times of `gen 9 4 50`.
pub(super) const FOUR_MACHINES: &[u8] =
    b"a\n9 4 0 0 0\nb\n1 58 78 93 64 94 35 94 96\n73 18 97 55 73 67 49 56 39\n\
17 34 87 34 45 52 31 35 60\n69 80 6 52 11 13 37 80 41\n";

/// Fourteen jobs on two machines: thirteen with times 1 and 1, and one with 10 and 10. All sequences have makespan 33.
/// The bound with no job put is 24. Below 33 no list is cut before the long job has its place, so each order of the
/// thirteen is tried.
pub(super) const ONE_LONG_JOB: &[u8] =
    b"a\n14 2 0 0 0\nb\n1 1 1 1 1 1 1 1 1 1 1 1 1 10\n1 1 1 1 1 1 1 1 1 1 1 1 1 10\n";

/// Nine jobs on 26 machines: six short ones with time 1 on each, and three long ones with 10. All sequences have the
/// makespan 286, and the bound with no job put is 61. For each number above 61 and up to 286 the directions are as many
/// as the lists of distinct short jobs, 1,957: until a long job is put, at either end each short job is below the
/// number, and no long one is.
pub(super) const LONG_JOBS: &[u8] =
    b"a\n9 26 0 0 0\nb\n1 1 1 1 1 1 10 10 10\n1 1 1 1 1 1 10 10 10\n1 1 1 1 1 1 10 10 10\n1 1 1 1 1 1 10 10 10\n\
1 1 1 1 1 1 10 10 10\n1 1 1 1 1 1 10 10 10\n1 1 1 1 1 1 10 10 10\n1 1 1 1 1 1 10 10 10\n\
1 1 1 1 1 1 10 10 10\n1 1 1 1 1 1 10 10 10\n1 1 1 1 1 1 10 10 10\n1 1 1 1 1 1 10 10 10\n\
1 1 1 1 1 1 10 10 10\n1 1 1 1 1 1 10 10 10\n1 1 1 1 1 1 10 10 10\n1 1 1 1 1 1 10 10 10\n\
1 1 1 1 1 1 10 10 10\n1 1 1 1 1 1 10 10 10\n1 1 1 1 1 1 10 10 10\n1 1 1 1 1 1 10 10 10\n\
1 1 1 1 1 1 10 10 10\n1 1 1 1 1 1 10 10 10\n1 1 1 1 1 1 10 10 10\n1 1 1 1 1 1 10 10 10\n\
1 1 1 1 1 1 10 10 10\n1 1 1 1 1 1 10 10 10\n";

/// Nine jobs on 26 machines: six with no times; one with 10 on each; one with 240 and 10 on the first two; and one with
/// 10 and 240 on the last two. The job of 10 has the total 260. So has the starting sequence, where the last job comes
/// before it, and the other one behind. The bound with no job put is 250. For each number above 250 and up to 260 the
/// directions are again 1,957.
pub(super) const LONG_TOTAL: &[u8] =
    b"a\n9 26 0 0 0\nb\n0 0 0 0 0 0 10 240 0\n0 0 0 0 0 0 10 10 0\n0 0 0 0 0 0 10 0 0\n0 0 0 0 0 0 10 0 0\n\
0 0 0 0 0 0 10 0 0\n0 0 0 0 0 0 10 0 0\n0 0 0 0 0 0 10 0 0\n0 0 0 0 0 0 10 0 0\n\
0 0 0 0 0 0 10 0 0\n0 0 0 0 0 0 10 0 0\n0 0 0 0 0 0 10 0 0\n0 0 0 0 0 0 10 0 0\n\
0 0 0 0 0 0 10 0 0\n0 0 0 0 0 0 10 0 0\n0 0 0 0 0 0 10 0 0\n0 0 0 0 0 0 10 0 0\n\
0 0 0 0 0 0 10 0 0\n0 0 0 0 0 0 10 0 0\n0 0 0 0 0 0 10 0 0\n0 0 0 0 0 0 10 0 0\n\
0 0 0 0 0 0 10 0 0\n0 0 0 0 0 0 10 0 0\n0 0 0 0 0 0 10 0 0\n0 0 0 0 0 0 10 0 0\n\
0 0 0 0 0 0 10 0 10\n0 0 0 0 0 0 10 0 240\n";

/// Seven jobs on two machines, six short ones and a long one. All sequences have the makespan 65,535, and the bound
/// with no job put is 32,772. For each greater number, up to the makespan, the directions are again 1,957.
pub(super) const UP_TO_16_BITS: &[u8] = b"a\n7 2 0 0 0\nb\n1 1 1 1 1 2 32764\n1 1 1 1 1 2 32764\n";

/// The same with 65,536, which is the total of the long job, and with the bound 32,768.
pub(super) const ABOVE_16_BITS: &[u8] = b"a\n7 2 0 0 0\nb\n0 0 0 0 0 0 32768\n0 0 0 0 0 0 32768\n";

/// Four jobs on six machines, and six on five. The first job has the least makespan as its total. The starting
/// sequence has a greater one, and a beam comes to the least one: up to the width 16 in the first text, and beyond in
/// the second.
pub(super) const TOTAL_IN_NARROW: &[u8] =
    b"a\n4 6 0 0 0\nb\n3 0 1 0\n7 4 3 4\n4 3 1 1\n9 3 0 2\n8 2 0 1\n9 2 2 4\n";

pub(super) const TOTAL_IN_WIDE: &[u8] =
    b"a\n6 5 0 0 0\nb\n5 0 0 4 4 0\n4 4 2 3 2 1\n4 4 4 2 1 4\n8 0 1 3 3 4\n4 0 0 2 0 4\n";

/// Eight jobs on three machines, with the times of `gen 8 3 547`. The starting sequence has the makespan 491, and the
/// least one is 484.
pub(super) const AIMED: &[u8] = b"a\n8 3 0 0 0\nb\n1 95 32 88 42 77 73 34\n\
57 28 77 12 54 91 25 74\n12 21 73 56 37 66 17 94\n";

/// Nine jobs on three machines, with the times of `gen 9 3 276`.
pub(super) const HALVED: &[u8] = b"a\n9 3 0 0 0\nb\n1 31 55 59 5 43 98 37 49\n\
97 84 36 35 54 75 20 24 13\n82 45 23 55 56 80 54 43 38\n";

/// Instances with the times of `gen 9 5 17`, of `gen 7 3 191` and of `gen 8 3 111`. Their least makespans are 677, 431
/// and 540.
pub(super) const NINE_JOBS: &[u8] =
    b"a\n9 5 0 0 0\nb\n1 24 84 79 6 72 80 54 55\n89 52 83 13 59 90 1 41 13\n52 14 10 67 2 81 39 95 56\n\
12 8 92 48 95 46 80 51 58\n75 86 84 21 20 70 29 80 8\n";

pub(super) const SEVEN_JOBS: &[u8] =
    b"a\n7 3 0 0 0\nb\n1 13 32 60 76 82 98\n66 74 53 25 21 71 60\n21 18 19 47 24 76 74\n";

pub(super) const ON_THREE: &[u8] =
    b"a\n8 3 0 0 0\nb\n1 60 87 91 14 31 22 36\n40 75 57 65 24 83 93 79\n\
50 85 56 42 34 23 38 28\n";

/// The certificate of the first text at depth 0.
pub(super) const DEPTH_0: &[u8] = b"flowshop certificate 1\n3 3 0\n12\n3 1 2\n+BC++.B\nend\n";

/// Its certificate at depth 1.
pub(super) const DEPTH_1: &[u8] = b"flowshop certificate 1\n3 3 1\n12\n3 1 2\nB\nC\n++.B\nend\n";

/// Its certificate at depth 2.
pub(super) const DEPTH_2: &[u8] =
    b"flowshop certificate 1\n3 3 2\n12\n3 1 2\nB\nB\nC\nB\n+.\nB\nend\n";

/// Its certificate at depth 3.
pub(super) const DEPTH_3: &[u8] =
    b"flowshop certificate 1\n3 3 3\n12\n3 1 2\n.\n.\n.\n.\n.\n.\nend\n";

/// Its certificate in version 2 at depth 0. The tree was worked out apart from the program, by the definitions.
pub(super) const VERSION_2: &[u8] = b"flowshop certificate 2\n3 3 0\n12\n3 1 2\n+BC++.B\nend\n";

/// Starts of the first text with the makespans 15, 14, 13 and 12.
pub(super) const START: &[u8] = b"sequence 1 2 3\nmakespan 15\n";

pub(super) const LAST: &[u8] = b"sequence 3 2 1";

pub(super) const NEH: &[u8] = b"sequence 2 1 3\nmakespan 13\n";

pub(super) const BEST: &[u8] = b"\r\n\tsequence  03 1\t2 \r\n\n makespan 12";

/// Its certificates from three of these starts. They were computed apart from the program, by the definitions.
pub(super) const FROM_START: &[u8] =
    b"flowshop certificate 1\n3 3 0\n12\n3 1 2\n++B+.++.B++.B\nend\n";

pub(super) const FROM_LAST: &[u8] = b"flowshop certificate 1\n3 3 0\n12\n3 1 2\n+B++.B++.B\nend\n";

pub(super) const FROM_BEST: &[u8] = b"flowshop certificate 1\n3 3 0\n12\n3 1 2\n+BC+AB\nend\n";

/// What `gen` writes for two jobs, two machines and seed 1.
pub(super) const GENERATED: &[u8] =
    b"number of jobs, number of machines, initial seed, upper bound and lower bound :\n\
2 2 1 122 122\nprocessing times :\n1 14\n75 46\n";

/// Two-ended certificates of the text with three machines. The heads of its machines are 0, 0 and 2, their tails 3, 0
/// and 0, and the bound with no job put is 10. With 1, 2 and 3 at the back the bounds are 14, 12 and 11, and with them
/// at the front 14, 13 and 10; with 3 1 and 3 2 at the front they are 12 and 14.
pub(super) const TWO_ENDED_12: &[u8] = b"flowshop two-ended 1\n3 3\n12 12\n3 1 2\n++\nend\n";

/// The counted certificate of the same bounds.
pub(super) const COUNTED_12: &[u8] = b"flowshop counted 1\n3 3\n12 12\n3 1 2\n2\nend\n";

pub(super) const TWO_ENDED_11: &[u8] = b"flowshop two-ended 1\n3 3\n11 13\n2 1 3\n-\nend\n";

/// Start texts for three jobs that are refused, and their faults.
pub(super) static OTHER_STARTS: [(&[u8], CommandFault); 12] = rows! {
    b"", CommandFault::Start(StartFault::Line(1));
    b"2 1 3\n", CommandFault::Start(StartFault::Line(1));
    b"sequence 2 1 3\nmakespan x\n", CommandFault::Start(StartFault::Line(2));
    b"sequence 9 9\nmakespan x\n", CommandFault::Start(StartFault::Line(2));
    b"\nsequence 2 1 3\n\nmakespan 14\n", CommandFault::Start(StartFault::Line(4));
    b"sequence 2 1 3\nmakespan 12\n", CommandFault::Start(StartFault::Line(2));
    b"sequence 2 1 3\nmakespan 13\nend\n", CommandFault::Start(StartFault::Line(3));
    b"sequence\n", CommandFault::Start(StartFault::Line(1));
    b"sequence 2 1\nmakespan 14\n", CommandFault::Sequence(SequenceFault::Length);
    b"sequence 2 4 2\n", CommandFault::Sequence(SequenceFault::Job(2));
    b"sequence 2 1 65535\n", CommandFault::Sequence(SequenceFault::Job(3));
    b"sequence 2 2 4\nmakespan 13\n", CommandFault::Sequence(SequenceFault::Twice(2));
};
