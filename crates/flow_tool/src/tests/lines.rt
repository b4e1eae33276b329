//! Command lines, and what each comes to.

use crate::tests::files::{
    COUNTED, DEPTH_0, DEPTH_1, DEPTH_2, GENERATED, OF_TWO_MACHINES, TWO_ENDED,
};

/// How a command line goes on behind its first words, the bytes that it writes, and its line on standard error.
pub(crate) type Row = (&'static str, &'static [u8], &'static str);

/// The certificate of the instance with two machines at depth 0, in version 2.
const OF_TWO_2: &[u8] = b"flowshop certificate 2\n3 2 0\n9\n2 3 1\nB\nend\n";

/// The certificate of the instance of three machines at depth 0, in version 2.
const DEPTH_0_2: &[u8] = b"flowshop certificate 2\n3 3 0\n12\n3 1 2\n+BC++.B\nend\n";

/// Its certificate at depth 1, in version 2.
const DEPTH_1_2: &[u8] = b"flowshop certificate 2\n3 3 1\n12\n3 1 2\nB\nC\n++.B\nend\n";

/// The certificate of the instance of three machines at depth 0 from the start `1 2 3`; it was computed apart from the
/// program, by the definitions.
const FROM_START: &[u8] = b"flowshop certificate 1\n3 3 0\n12\n3 1 2\n++B+.++.B++.B\nend\n";

/// A two-ended certificate of the instance with two machines, whose bound is its least makespan.
const TWO_ENDED_OF_TWO: &[u8] = b"flowshop two-ended 1\n3 2\n9 9\n2 3 1\n\nend\n";

/// The best sequence of the instance of three machines.
const BEST: &[u8] = b"sequence 3 1 2\nmakespan 12\n";

/// Its starting sequence.
const NEH: &[u8] = b"sequence 2 1 3\nmakespan 13\n";

/// The table of the instance of three machines for the sequence 1 2 3, worked out by hand.
const TIMES: &[u8] =
    b"job,machine,start,end\n1,1,0,4\n1,2,4,4\n1,3,4,8\n2,1,4,4\n2,2,4,12\n2,3,12,12\n\
3,1,4,4\n3,2,12,14\n3,3,14,15\n";

/// Commands on files and on standard input, the version of the program, and refusals.
pub(crate) static ANSWERS: [Row; 20] = [
    ("span stdin 1 2 3 1", b"makespan 9\n", ""),
    ("span stdin 2 2 1 3", b"makespan 13\n", ""),
    ("span ./stdin 1 2 1 3", b"makespan 13\n", ""),
    ("span text_three 1 2 1 3", b"makespan 13\n", ""),
    ("span text_both 2 2 1 3", b"makespan 13\n", ""),
    ("gen 2 2 1", GENERATED, ""),
    ("neh stdin 1", b"sequence 2 3 1\nmakespan 9\n", ""),
    ("neh stdin 2", b"sequence 2 1 3\nmakespan 13\n", ""),
    ("neh text_both 1", b"sequence 2 3 1\nmakespan 9\n", ""),
    ("neh text_both 2", b"sequence 2 1 3\nmakespan 13\n", ""),
    ("solve text_three 1", DEPTH_1, ""),
    ("solve text_both 2", DEPTH_1, ""),
    ("solve stdin 2", DEPTH_1, ""),
    (
        "solve stdin 1",
        b"flowshop certificate 1\n3 2 1\n9\n2 3 1\nB\nB\nB\nend\n",
        "",
    ),
    (
        "gen 1 3 1",
        b"number of jobs, number of machines, initial seed, upper bound and lower bound :\n\
1 3 1 90 90\nprocessing times :\n1\n14\n75\n",
        "",
    ),
    (
        "--version",
        b"flowshop 2.0.0, certificates of versions 1 and 2, two-ended and counted certificates of version 1; \
its release is proved and built with rattle-kit-13f logic dac8208d650f15bf\n",
        "",
    ),
    ("span missing 1 1", b"", "failed open"),
    ("gen 801 1 1", b"", "refused instance Jobs"),
    ("sort text_three", b"", "refused command line"),
    ("mirror text_three 1", b"", "refused command line"),
];

/// The options of `solve text_three 1`.
pub(crate) static OPTIONS: [Row; 14] = [
    ("--workers 64", DEPTH_1, ""),
    ("--workers 65", b"", "refused option Workers"),
    ("--workers 0", b"", "refused option Workers"),
    ("--depth 0", DEPTH_0, ""),
    ("--depth 2", DEPTH_2, ""),
    ("--depth 4", b"", "refused option Depth"),
    ("--budget 4", DEPTH_1, ""),
    ("--budget 3", b"", "refused run OverBudget 2"),
    ("--budget 0", b"", "refused option Budget"),
    ("--budget 100000001", b"", "refused option Budget"),
    (
        "--workers 3 --depth 2 --budget 1",
        b"",
        "refused run OverBudget 4",
    ),
    (
        "--budget 1 --depth 2 --workers 3",
        b"",
        "refused run OverBudget 4",
    ),
    ("--workers 2 --depth 0 --budget 7", DEPTH_0, ""),
    (
        "--workers 65 --depth 4 --budget 0",
        b"",
        "refused option Workers",
    ),
];

/// The versions of a certificate, at blocks of `solve stdin`.
pub(crate) static VERSIONS: [Row; 15] = [
    ("1 --depth 0", OF_TWO_MACHINES, ""),
    ("1 --depth 0 --budget 3", b"", "refused run OverBudget 0"),
    ("1 --depth 0 --certificate 2", OF_TWO_2, ""),
    ("1 --depth 0 --certificate 2 --budget 1", OF_TWO_2, ""),
    ("1 --depth 0 --certificate 1", OF_TWO_MACHINES, ""),
    ("2 --depth 0 --certificate 2", DEPTH_0_2, ""),
    ("2 --certificate 2", DEPTH_1_2, ""),
    ("2 --certificate 2 --workers 2", DEPTH_1_2, ""),
    ("2 --certificate 2 --workers 3", DEPTH_1_2, ""),
    ("2 --certificate 2 --workers 64", DEPTH_1_2, ""),
    ("2 --certificate 0", b"", "refused option Version"),
    ("2 --certificate 3", b"", "refused option Version"),
    ("2 --certificate 3 --budget 0", b"", "refused option Budget"),
    ("2 --certificate x", b"", "refused command line"),
    ("3 --certificate 3", b"", "refused index"),
];

/// Starts of `solve`.
pub(crate) static STARTS: [Row; 12] = [
    ("text_three 1 --depth 0 --start start", FROM_START, ""),
    ("text_both 2 --start start --depth 0", FROM_START, ""),
    ("stdin 2 --start start --depth 0", FROM_START, ""),
    ("stdin 2 --start other_start", b"", "refused start 2"),
    ("stdin 2 --start generated", b"", "refused start 1"),
    ("stdin 2 --depth 0 --start stdin", FROM_START, ""),
    ("generated 1 --start start", b"", "refused sequence Length"),
    ("stdin 3 --start other_start", b"", "refused index"),
    ("stdin 2 --start missing", b"", "failed open"),
    ("missing 2 --start start", b"", "failed open"),
    ("text_broken 1 --start missing", b"", "failed open"),
    ("text_three 1 --start broken", b"", "failed read Device"),
];

/// The numbers and the starts of `improve`. The instance of three machines has one best sequence, which the beam finds.
/// The values with few rounds and no beam are those of the plain program bench/improve.rs from the same starting
/// sequences.
pub(crate) static IMPROVE: [Row; 21] = [
    ("stdin 2", BEST, ""),
    ("text_three 1 --seed 2147483646", BEST, ""),
    ("text_both 1", b"sequence 2 3 1\nmakespan 9\n", ""),
    ("text_three 1 --rounds 0", BEST, ""),
    ("text_three 1 --rounds 0 --width 0", NEH, ""),
    ("stdin 2 --start start", BEST, ""),
    (
        "stdin 2 --start start --rounds 0 --width 0",
        b"sequence 1 2 3\nmakespan 15\n",
        "",
    ),
    ("text_three 1 --start start --rounds 1 --width 0", NEH, ""),
    (
        "text_three 1 --start start --rounds 1 --width 0 --seed 4",
        BEST,
        "",
    ),
    ("text_three 1 --start start --rounds 2 --width 0", BEST, ""),
    (
        "stdin 2 --seed 2 --rounds 2 --width 0 --start start",
        NEH,
        "",
    ),
    ("stdin 2 --rounds 100000001", b"", "refused option Rounds"),
    (
        "stdin 2 --rounds 100000001 --seed 0",
        b"",
        "refused option Rounds",
    ),
    ("stdin 2 --seed 0", b"", "refused option Seed"),
    (
        "stdin 2 --start start --seed 2147483647",
        b"",
        "refused option Seed",
    ),
    (
        "stdin 2 --start other_start --seed 0",
        b"",
        "refused start 2",
    ),
    ("stdin 3 --start other_start", b"", "refused index"),
    ("stdin 2 --start missing", b"", "failed open"),
    ("missing 2 --start start", b"", "failed open"),
    ("text_broken 1", b"", "failed read Device"),
    ("text_three 1 --start broken", b"", "failed read Device"),
];

/// The numbers and the starts of `certify`. The instance of three machines has one best sequence. Its directions were
/// computed apart from the program, by the definitions.
pub(crate) static CERTIFY: [Row; 25] = [
    ("stdin 2", TWO_ENDED, ""),
    ("stdin 2 --start best_start", TWO_ENDED, ""),
    ("stdin 1", TWO_ENDED_OF_TWO, ""),
    ("text_both 2 --directions 100", TWO_ENDED, ""),
    ("text_three 1 --rounds 0", TWO_ENDED, ""),
    ("text_three 1 --start start --width 0", TWO_ENDED, ""),
    ("stdin 2 --start start --seed 2147483646", TWO_ENDED, ""),
    ("stdin 2 --directions 100000000", TWO_ENDED, ""),
    ("stdin 2 --directions 100000001", COUNTED, ""),
    (
        "stdin 2 --directions 1000000000 --proof signs",
        TWO_ENDED,
        "",
    ),
    ("stdin 2 --directions 1000000000000000", COUNTED, ""),
    ("text_three 1 --proof signs", TWO_ENDED, ""),
    ("text_three 1 --proof count", COUNTED, ""),
    ("text_three 1 --proof counted", b"", "refused command line"),
    ("text_three 1 --proof", b"", "refused command line"),
    ("stdin 2 --rounds 100000001", b"", "refused option Rounds"),
    (
        "stdin 2 --seed 0 --directions 0",
        b"",
        "refused option Seed",
    ),
    (
        "stdin 2 --directions 0",
        b"",
        "refused option Directions: 1 to 1000000000000000",
    ),
    (
        "stdin 2 --start start --directions 1000000000000001",
        b"",
        "refused option Directions: 1 to 1000000000000000",
    ),
    (
        "stdin 2 --directions 1000000001 --proof signs",
        b"",
        "refused option Directions: 1 to 1000000000 with --proof signs",
    ),
    ("stdin 3 --directions 0", b"", "refused index"),
    (
        "stdin 2 --start other_start --directions 0",
        b"",
        "refused start 2",
    ),
    ("stdin 2 --start missing", b"", "failed open"),
    ("missing 2", b"", "failed open"),
    ("text_three 1 --start broken", b"", "failed read Device"),
];

/// The files and the forms of `schedule`.
pub(crate) static SCHEDULE: [Row; 11] = [
    ("text_three 1 start", TIMES, ""),
    ("stdin 2 start --form csv", TIMES, ""),
    ("text_three 1 stdin", TIMES, ""),
    ("text_three 1 other_start", b"", "refused start 2"),
    ("stdin 1 start", b"", "refused start 2"),
    ("stdin 3 start", b"", "refused index"),
    ("missing 1 start", b"", "failed open"),
    ("text_three 1 missing", b"", "failed open"),
    ("text_three 1 broken --form svg", b"", "failed read Device"),
    ("text_three 1 start --form pdf", b"", "refused command line"),
    ("text_three 1 start --form", b"", "refused command line"),
];

/// The files of `check`: certificates of each kind, and sequences.
pub(crate) static CHECK: [Row; 40] = [
    ("text_three 1 of_three", b"optimal 12\n", ""),
    ("text_three 1 bounds", b"bounds 10 13\n", ""),
    (
        "text_three 1 bounds --sequence",
        b"sequence 2 1 3\nmakespan 13\n",
        "",
    ),
    ("text_three 1 of_three --optimal", b"optimal 12\n", ""),
    ("text_three 1 bounds --optimal", b"", "refused bounds 10 13"),
    (
        "text_three 1 bounds --optimal --sequence",
        b"",
        "refused bounds 10 13",
    ),
    ("text_three 1 two_ended", b"optimal 12\n", ""),
    (
        "text_three 1 two_ended --optimal --sequence",
        b"sequence 3 1 2\nmakespan 12\n",
        "",
    ),
    ("text_three 1 counted", b"optimal 12\n", ""),
    (
        "text_three 1 counted --most 2 --workers 64",
        b"optimal 12\n",
        "",
    ),
    (
        "text_three 1 counted --most 1",
        b"",
        "refused certificate Most",
    ),
    (
        "text_three 1 counted --most 18446744073709551615 --progress",
        b"optimal 12\n",
        "",
    ),
    (
        "text_three 1 counted --most 18446744073709551616",
        b"",
        "refused command line",
    ),
    ("text_three 1 two_ended --most 0", b"optimal 12\n", ""),
    (
        "text_three 1 generated --workers 65",
        b"",
        "refused option Workers",
    ),
    (
        "text_three 1 of_three --workers 0",
        b"",
        "refused option Workers",
    ),
    ("stdin 1 bounds", b"", "refused certificate Size"),
    ("text_three 1 stdin", b"optimal 12\n", ""),
    ("text_both 2 of_three", b"optimal 12\n", ""),
    ("text_both 1 of_two", b"optimal 9\n", ""),
    ("stdin 1 of_two", b"optimal 9\n", ""),
    ("stdin 1 stdin", b"", "refused certificate Size"),
    ("stdin 2 of_three", b"optimal 12\n", ""),
    ("stdin 2 stdin", b"optimal 12\n", ""),
    ("stdin 2 of_two", b"", "refused certificate Size"),
    ("text_both 1 of_three", b"", "refused certificate Size"),
    ("text_both 2 of_two", b"", "refused certificate Size"),
    ("text_both 0 of_three", b"", "refused index"),
    ("text_both 7 of_three", b"", "refused index"),
    ("stdin 0 of_two", b"", "refused index"),
    ("stdin 7 of_three", b"", "refused index"),
    ("of_two 1 of_two", b"", "refused text Head 4"),
    ("text_three 1 of_two", b"", "refused certificate Size"),
    ("text_three 1 missing", b"", "failed open"),
    ("missing 1 of_three", b"", "failed open"),
    ("text_broken 1 missing", b"", "failed open"),
    ("text_broken 1 of_three", b"", "failed read Device"),
    ("text_three 1 broken", b"", "failed read Device"),
    (
        "text_three 1 of_three --sequence",
        b"sequence 3 1 2\nmakespan 12\n",
        "",
    ),
    ("text_three 1 generated", b"", "refused certificate Header"),
];

/// The files of `signs`.
pub(crate) static SIGNS: [Row; 6] = [
    ("text_three 1 counted", TWO_ENDED, ""),
    ("stdin 2 counted", TWO_ENDED, ""),
    ("stdin 1 counted", b"", "refused certificate Size"),
    ("text_three 1 two_ended", b"", "refused certificate Header"),
    ("text_three 1 missing", b"", "failed open"),
    ("text_three 1 counted --most 5", b"", "refused command line"),
];
