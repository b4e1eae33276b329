//! The grammar of the command line: each command with its words.

use clap::{Arg, ArgAction, Command, value_parser};
use std::alloc::{AllocError, Global};

/// The version of the program, those of the texts that it writes and reads, and the kit of the release. The first is
/// that of the file VERSION at the top of the repository; `build` refuses another, and a release by another kit.
const VERSION: &str =
    "2.0.0, certificates of versions 1 and 2, two-ended and counted certificates of version 1; \
its release is proved and built with rattle-kit-13f logic dac8208d650f15bf";

/// A word of a command: its name, how it is read, and what the help says of it.
struct Word {
    name: &'static str,
    kind: Kind,
    help: &'static str,
}

/// How a word of a command is read.
enum Kind {
    /// A word that has to be there.
    Word,
    /// A number that has to be there.
    Number,
    /// The jobs of a sequence, one at least.
    Jobs,
    /// A number after a long name; left out, it is the default.
    Option {
        value: &'static str,
        default: &'static str,
    },
    /// A number after a long name, which may be left out.
    Limit {
        value: &'static str,
    },
    /// A number of up to 64 bits after a long name; left out, it is the default.
    Long {
        value: &'static str,
        default: &'static str,
    },
    /// The name of a file or of a form after a long name, which may be left out.
    Name {
        value: &'static str,
    },
    /// The name of a form after a long name; left out, it is the default.
    Form {
        value: &'static str,
        default: &'static str,
    },
    /// A long name, which may be left out.
    Flag,
}

const FILE: Word = Word {
    name: "FILE",
    kind: Kind::Word,
    help: "The file of a benchmark text, or stdin for standard input",
};

const INDEX: Word = Word {
    name: "INDEX",
    kind: Kind::Number,
    help: "The block of the text, from 1",
};

const START: Word = Word {
    name: "start",
    kind: Kind::Name { value: "SEQUENCE" },
    help: "A file with a starting sequence, in the form that neh prints; left out, it is that of neh",
};

const WIDTH: Word = Word {
    name: "width",
    kind: Kind::Option {
        value: "W",
        default: "4096",
    },
    help: "How wide the beam is at most, 0 to 65536; 0 is for no beam",
};

const ROUNDS: Word = Word {
    name: "rounds",
    kind: Kind::Option {
        value: "R",
        default: "10000",
    },
    help: "How many rounds of improvement there are at most, 0 to 100000000",
};

const SEED: Word = Word {
    name: "seed",
    kind: Kind::Option {
        value: "S",
        default: "1",
    },
    help: "The seed of the random choices, 1 to 2147483646",
};

const WORK: Word = Word {
    name: "work",
    kind: Kind::Option {
        value: "N",
        default: "8500",
    },
    help: "How many millions of steps of improvement there are at most, 0 to 1000000",
};

const WORKERS: Word = Word {
    name: "workers",
    kind: Kind::Option {
        value: "K",
        default: "1",
    },
    help: "How many workers there are, 1 to 64",
};

const TIME_LIMIT: Word = Word {
    name: "time-limit",
    kind: Kind::Limit { value: "S" },
    help: "Ends after so many seconds, 0 to 4294967295, with the best that is known",
};

const PROGRESS: Word = Word {
    name: "progress",
    kind: Kind::Flag,
    help: "Writes lines to standard error that say how far the run is",
};

static NEH: [Word; 2] = [FILE, INDEX];

static CERTIFY: [Word; 12] = [
    FILE,
    INDEX,
    TIME_LIMIT,
    WIDTH,
    ROUNDS,
    SEED,
    WORK,
    Word {
        name: "directions",
        kind: Kind::Long {
            value: "N",
            default: "100000000",
        },
        help: "How many directions a proof has at most, 1 to 1000000000000000, and to 1000000000 with --proof signs; \
fewer where the shop is large. More may prove what fewer do not, and may take up to 8 minutes with one worker for each \
1000000000; --time-limit ends a run",
    },
    Word {
        name: "proof",
        kind: Kind::Name { value: "FORM" },
        help: "signs for a two-ended certificate, which has a sign for each direction: it is as long as the proof, and \
check follows it. count for a counted one, which has their number: it is short, the run keeps no signs, and check \
repeats the search, with check --workers on several threads, and with check --most where there are more than \
10000000000. signs FILE INDEX CERT makes a two-ended one of it. Left out, signs where at most 10000000 directions \
prove the bound and --directions is at most 100000000, else a count",
    },
    WORKERS,
    PROGRESS,
    START,
];

static IMPROVE: [Word; 8] = [FILE, INDEX, TIME_LIMIT, WIDTH, ROUNDS, SEED, WORK, START];

static SPAN: [Word; 3] = [
    FILE,
    INDEX,
    Word {
        name: "JOB",
        kind: Kind::Jobs,
        help: "The jobs in their order, from 1, each once",
    },
];

static GEN: [Word; 3] = [
    Word {
        name: "JOBS",
        kind: Kind::Number,
        help: "How many jobs there are, 1 to 800",
    },
    Word {
        name: "MACHINES",
        kind: Kind::Number,
        help: "How many machines there are, 1 to 26",
    },
    Word {
        name: "SEED",
        kind: Kind::Number,
        help: "The first state of Taillard's generator, 1 to 2147483646",
    },
];

static SOLVE: [Word; 7] = [
    FILE,
    INDEX,
    WORKERS,
    Word {
        name: "depth",
        kind: Kind::Option {
            value: "D",
            default: "1",
        },
        help: "How many jobs each prefix has, 0 to 3: there is a tree for each list of so many jobs, 100000 at most",
    },
    Word {
        name: "budget",
        kind: Kind::Option {
            value: "B",
            default: "1000000",
        },
        help: "The most bytes that a tree may have, 1 to 100000000",
    },
    Word {
        name: "certificate",
        kind: Kind::Option {
            value: "V",
            default: "1",
        },
        help: "The version of the certificate, 1 or 2",
    },
    START,
];

static CHECK: [Word; 9] = [
    FILE,
    INDEX,
    Word {
        name: "CERT",
        kind: Kind::Word,
        help: "The file of the certificate, of any kind; /dev/stdin for standard input",
    },
    Word {
        name: "sequence",
        kind: Kind::Flag,
        help: "Prints the sequence of the text, and its makespan, in the form that neh prints",
    },
    Word {
        name: "verbose",
        kind: Kind::Flag,
        help: "Prints then the block, its size, whether the times are those of its seed, how long the proof is, and \
the SHA-256 of FILE and CERT",
    },
    Word {
        name: "optimal",
        kind: Kind::Flag,
        help: "Refuses a text that does not prove a least makespan: one whose bounds differ",
    },
    Word {
        name: "most",
        kind: Kind::Long {
            value: "N",
            default: "10000000000",
        },
        help: "The most nodes that a counted certificate may state, 0 to 18446744073709551615; one that \
states more is refused before its search",
    },
    Word {
        name: "workers",
        kind: Kind::Option {
            value: "K",
            default: "1",
        },
        help: "How many workers count the nodes of a counted certificate, 1 to 64",
    },
    PROGRESS,
];

static SIGNS: [Word; 3] = [
    FILE,
    INDEX,
    Word {
        name: "CERT",
        kind: Kind::Word,
        help: "The file of the counted certificate; /dev/stdin for standard input",
    },
];

static SCHEDULE: [Word; 4] = [
    FILE,
    INDEX,
    Word {
        name: "SEQUENCE",
        kind: Kind::Word,
        help: "The file of a sequence, in the form that neh prints, or of a certificate; /dev/stdin for standard input",
    },
    Word {
        name: "form",
        kind: Kind::Form {
            value: "FORM",
            default: "csv",
        },
        help: "csv for a table of when each job starts and ends on each machine, svg for a picture of it",
    },
];

/// A command: its name, what it does, what its help ends with, and its words.
#[derive(Drop)]
struct CommandWords {
    name: &'static str,
    about: &'static str,
    ending: &'static str,
    words: &'static [Word],
}

/// All commands, in the order of the help.
fn commands() -> [CommandWords; 9] {
    [
        CommandWords {
            name: "certify",
            about: "Writes a certificate: a sequence, and bounds of the least makespan, which are one number where \
that is proved",
            ending: "Where the bounds differ, more --directions and --work may bring them together, or another --seed \
or --start.\n\nExample: ./flowshop certify examples/three_machines.txt 1 >certificate",
            words: &CERTIFY,
        },
        CommandWords {
            name: "span",
            about: "Prints the makespan of jobs in the given order",
            ending: "Example: ./flowshop span examples/two_machines.txt 1 2 3 1",
            words: &SPAN,
        },
        CommandWords {
            name: "gen",
            about: "Writes the instance of a seed, with its bounds",
            ending: "Example: ./flowshop gen 20 5 873654221",
            words: &GEN,
        },
        CommandWords {
            name: "neh",
            about: "Prints the starting sequence and its makespan",
            ending: "Example: ./flowshop neh examples/three_machines.txt 1",
            words: &NEH,
        },
        CommandWords {
            name: "improve",
            about: "Prints a sequence that is no worse than a starting sequence, and its makespan",
            ending: "Example: ./flowshop improve examples/taillard_20_5.txt 1 --rounds 100",
            words: &IMPROVE,
        },
        CommandWords {
            name: "solve",
            about: "Finds the least makespan, and writes a certificate of it",
            ending: "Example: ./flowshop solve examples/three_machines.txt 1 --depth 0",
            words: &SOLVE,
        },
        CommandWords {
            name: "check",
            about: "Checks a certificate of any kind, and prints what it proves",
            ending: "Example: ./flowshop check examples/three_machines.txt 1 certificate --optimal",
            words: &CHECK,
        },
        CommandWords {
            name: "signs",
            about: "Writes the two-ended certificate of a counted one",
            ending: "It checks the counted certificate, which certify --proof count writes, and repeats its search, on \
one thread. What it writes has a sign for each direction, 999990000 at most: it is long, and check follows the signs \
without a search. The other way, certify with the same options and --proof count writes the counted one.\n\n\
Example: ./flowshop signs examples/three_machines.txt 1 counted",
            words: &SIGNS,
        },
        CommandWords {
            name: "schedule",
            about: "Writes when each job of a sequence or a certificate starts and ends on each machine, as a table or \
a picture",
            ending: "Example: ./flowshop schedule examples/three_machines.txt 1 certificate --form svg",
            words: &SCHEDULE,
        },
    ]
}

/// The grammar of the command line. It keeps a frame of its own: a caller's would hold all commands to its end.
#[inline(never)]
pub fn make_command<'a>(alloc: Global) -> Result<Command<'a>, AllocError> {
    let mut command = Command::new(alloc, "flowshop")
        .about("Least makespans of permutation flow shops, with certificates")
        .after_help("Example: ./flowshop certify examples/taillard_20_5.txt 1 >certificate")
        .version(VERSION)
        .subcommand_required(true);
    for words in &commands() {
        command = command.subcommand(command_of(alloc, words)?)?;
    }
    Ok(command)
}

/// The grammar of a command.
fn command_of<'a>(alloc: Global, command: &CommandWords) -> Result<Command<'a>, AllocError> {
    let mut args = Vec::new(alloc);
    for word in command.words {
        args.push(argument_of(alloc, word))?;
    }
    Command::new(alloc, command.name)
        .about(command.about)
        .after_help(command.ending)
        .args(args)
}

/// The argument of a word.
fn argument_of<'a>(alloc: Global, word: &Word) -> Arg<'a> {
    let argument = Arg::new(alloc, word.name).help(word.help);
    match word.kind {
        Kind::Word => argument.required(true).action(ArgAction::Set),
        Kind::Number => argument.required(true).value_parser(value_parser!(u32)),
        Kind::Jobs => argument
            .required(true)
            .num_args(1..)
            .action(ArgAction::Append)
            .value_parser(value_parser!(u16)),
        Kind::Option { value, default } => argument
            .long(word.name)
            .value_name(value)
            .default_value(default)
            .value_parser(value_parser!(u32)),
        Kind::Limit { value } => argument
            .long(word.name)
            .value_name(value)
            .value_parser(value_parser!(u32)),
        Kind::Long { value, default } => argument
            .long(word.name)
            .value_name(value)
            .default_value(default)
            .value_parser(value_parser!(u64)),
        Kind::Name { value } => argument
            .long(word.name)
            .value_name(value)
            .action(ArgAction::Set),
        Kind::Form { value, default } => argument
            .long(word.name)
            .value_name(value)
            .default_value(default)
            .action(ArgAction::Set),
        Kind::Flag => argument.long(word.name).action(ArgAction::SetTrue),
    }
}
