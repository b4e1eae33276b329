//! What each command is asked for, as the words of a command line or a caller give it. No number is tested here: the
//! commands refuse those beyond their limits.
#![tactic(auto)]

ghost use Rattle.std.specs.Prelude.{◌≡◌};
ghost use Rattle.flow_requests.specs.SecondFile.{file_in};

/// How a block is solved.
#[derive(Clone, Copy, Debug, PartialEq)]
pub struct SolveRequest {
    /// The number of workers.
    pub workers: u32,
    /// The number of jobs in a prefix.
    pub depth: u32,
    /// The most bytes of a tree.
    pub budget: u32,
    /// The version of the certificate.
    pub version: u32,
}

/// How long a starting sequence is improved, and by which choices.
#[derive(Clone, Copy, Debug, PartialEq)]
pub struct ImproveRequest {
    /// The greatest width of the beam; 0 for none.
    pub width: u32,
    /// The most rounds of iterated greedy search.
    pub rounds: u32,
    /// The seed of the random choices.
    pub seed: u32,
    /// The most steps, in millions.
    pub work: u32,
}

/// How a block is certified.
#[derive(Clone, Copy, Debug, PartialEq)]
pub struct CertifyRequest {
    /// How the starting sequence is improved.
    pub improve: ImproveRequest,
    /// The most directions of a proof.
    pub directions: u64,
    /// The number of workers.
    pub workers: u32,
    /// How the proof is written.
    pub proof: ProofForm,
}

/// How a proof by directions is written.
#[derive(Clone, Copy, Debug, PartialEq)]
pub enum ProofForm {
    /// As signs where there are few directions, and else as their number.
    ByLength,
    /// As signs, one for each direction: a two-ended certificate.
    Signs,
    /// As the number of the directions: a counted certificate.
    Count,
}

/// How a certificate is checked, what is printed of a lawful one, and which bounds suffice.
#[derive(Clone, Copy, Debug, PartialEq)]
pub struct CheckRequest {
    /// What is printed of a lawful text.
    pub output: CheckOutput,
    /// Whether a text is refused whose bounds are not one number.
    pub optimal: bool,
    /// The most nodes that a counted certificate may state.
    pub most: u64,
    /// The number of workers that count.
    pub workers: u32,
}

/// What is printed of a lawful text.
#[derive(Clone, Copy, Debug, PartialEq)]
pub enum CheckOutput {
    /// The value that it proves least, or the bounds.
    Proved,
    /// Its sequence, and the makespan of that.
    Sequence,
    /// The value or the bounds, and then a report: of which block, and by how long a proof.
    Report,
}

/// In which form a schedule is written.
#[derive(Clone, Copy, Debug, PartialEq)]
pub enum ScheduleForm {
    /// A table, its columns separated by commas.
    Csv,
    /// A picture.
    Svg,
}

/// What is asked of a block.
#[derive(Debug, PartialEq, Drop)]
pub enum Request {
    /// The makespan of jobs in this order.
    Span {
        /// The numbers of the jobs, from 1, as they were given.
        jobs: Vec<u16>,
    },
    /// The starting sequence and its makespan.
    Neh,
    /// A certificate of the least makespan.
    Solve(SolveRequest),
    /// A better sequence than the starting one.
    Improve {
        /// How long it is improved, and by which choices.
        request: ImproveRequest,
        /// After how many seconds it ends, where its time is limited.
        seconds: Option<u32>,
    },
    /// A two-ended or a counted certificate of the least makespan, or of bounds of it.
    Certify {
        /// How the block is certified.
        request: CertifyRequest,
        /// Whether it is told how far it is.
        progress: bool,
        /// After how many seconds it ends, where its time is limited.
        seconds: Option<u32>,
    },
    /// What a certificate of any kind proves, or its sequence.
    Check {
        /// How it is checked, and what is printed.
        request: CheckRequest,
        /// Whether it is told how far the count is.
        progress: bool,
    },
    /// The two-ended certificate of a counted one.
    Signs,
    /// The times of a sequence, as a table or a picture.
    Schedule(ScheduleForm),
}

/// The file that a request reads beside the text, by what it is read as: its name, its source or its bytes.
#[derive(Clone, Copy, Debug, PartialEq, Drop)]
pub enum SecondFile<F> {
    /// None is read.
    Absent,
    /// A start.
    Start(F),
    /// A certificate of any kind.
    Certificate(F),
    /// A certificate, where it begins as one, and else a start.
    StartOrCertificate(F),
}

impl<F> SecondFile<F> {
    /// The file, where there is one.
    pub fn file(self) -> Option<F>
        ensures { result ≡ file_in self }
    {
        match self {
            SecondFile::Absent => None,
            SecondFile::Start(file) => Some(file),
            SecondFile::Certificate(file) => Some(file),
            SecondFile::StartOrCertificate(file) => Some(file),
        }
    }
}

/// What a command line asks for.
#[derive(Debug, PartialEq, Drop)]
pub enum Invocation<'a> {
    /// The instance of a seed.
    Gen {
        /// The number of jobs.
        jobs: u32,
        /// The number of machines.
        machines: u32,
        /// The seed of the generator.
        seed: u32,
    },
    /// An answer for a block of a text.
    OfBlock {
        /// The name of the text's file.
        file: &'a str,
        /// The block's number in the text, from 1.
        index: u32,
        /// The name of the second file.
        second: SecondFile<&'a str>,
        /// What is asked of the block.
        request: Request,
    },
}
