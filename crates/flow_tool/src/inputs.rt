//! The inputs that a command line names: standard input, and files.

ghost use Rattle.std.specs.Prelude.{◌≡◌, false, IfNone, IfSome, IfOk, IfErr, OnErr};
ghost use Rattle.std.specs.Option.{ForSome};
ghost use Rattle.flow_requests.specs.SecondFile.{file_in};
ghost use Rattle.flow_tool.specs.Inputs.{IsSecond, IsText, Names, RefusedSecond, RefusedText, shown, unknown_names};

use crate::refusal::Stop;
use flow_core::{Refused, Source, StdSource};
use flow_requests::SecondFile;
use std::fs::{File, OpenFile};
use std::io::Input;
use std::rt::Files;

/// Gives standard input, and files by their names.
pub(crate) trait Inputs {
    /// The source that reads standard input.
    type Standard: Source + Drop;

    /// The source that reads a file.
    type File: Source + Drop;

    // What names stand for.
    ghost names: { Self → Names Self.Standard Self.File };

    /// Standard input, of which no byte was read.
    fn standard(&self) -> Self::Standard
        ensures works { Self.Standard.has_failed result ≡ false }
        ensures standard { (names self.now).is_standard result };

    /// The file of this name, opened for reading; none where it can't be opened.
    fn open(&self, name: &str) -> Option<Self::File>
        ensures works { IfSome result (λ file. Self.File.has_failed file ≡ false) }
        ensures opened { IfSome result (λ file. (names self.now).opened name.now file) }
        ensures refused { IfNone result ((names self.now).refused name.now) };
}

/// The word that stands for standard input in the place of a text's file.
const STANDARD: &str = "stdin";

/// What the name of a text stands for.
#[derive(Drop)]
pub(crate) enum Text<A: Drop, B: Drop> {
    /// Standard input.
    Standard(A),
    /// A file.
    File(B),
}

impl<A: Source + Drop, B: Source + Drop> Source for Text<A, B> {
    ghost given = { shown A.given B.given };

    ghost has_ended = { shown A.has_ended B.has_ended };

    ghost has_failed = { shown A.has_failed B.has_failed };

    fn get(&mut self, buffer: &mut [u8]) -> Result<usize, Refused> {
        match self {
            Text::Standard(source) => source.get(buffer),
            Text::File(source) => source.get(buffer),
        }
    }

    fn failed(&self) -> bool {
        match self {
            Text::Standard(source) => source.failed(),
            Text::File(source) => source.failed(),
        }
    }
}

/// The text that a name stands for: standard input for its word, else the file of this name.
pub(crate) fn open_text<I: Inputs>(
    inputs: &I,
    name: &str,
) -> Result<Text<I::Standard, I::File>, Stop>
    ensures works { IfOk result (λ text. shown I.Standard.has_failed I.File.has_failed text ≡ false) }
    ensures opened { IfOk result (IsText (I.names inputs.now) name.now) }
    ensures refused { OnErr result (RefusedText (I.names inputs.now) name.now) }
    ensures stop { IfErr result (λ stop. stop ≡ Stop.Open) }
{
    if name == STANDARD {
        return Ok(Text::Standard(inputs.standard()));
    }
    Ok(Text::File(open_file(inputs, name)?))
}

/// The file of this name, opened for reading.
fn open_file<I: Inputs>(inputs: &I, name: &str) -> Result<I::File, Stop>
    ensures works { IfOk result (λ file. I.File.has_failed file ≡ false) }
    ensures opened { IfOk result ((I.names inputs.now).opened name.now) }
    ensures refused { OnErr result ((I.names inputs.now).refused name.now) }
    ensures stop { IfErr result (λ stop. stop ≡ Stop.Open) }
{
    inputs.open(name).ok_or(Stop::Open)
}

/// The second file, opened for reading, where one is named.
pub(crate) fn open_second<I: Inputs>(
    inputs: &I,
    name: SecondFile<&str>,
) -> Result<SecondFile<I::File>, Stop>
    ensures works { IfOk result (λ second. ForSome (file_in second) (λ file. I.File.has_failed file ≡ false)) }
    ensures opened { IfOk result (IsSecond (I.names inputs.now) name.entry) }
    ensures refused { OnErr result (RefusedSecond (I.names inputs.now) (file_in name.entry)) }
    ensures stop { IfErr result (λ stop. stop ≡ Stop.Open) }
{
    Ok(match name {
        SecondFile::Absent => SecondFile::Absent,
        SecondFile::Start(name) => SecondFile::Start(open_file(inputs, name)?),
        SecondFile::Certificate(name) => SecondFile::Certificate(open_file(inputs, name)?),
        SecondFile::StartOrCertificate(name) => {
            SecondFile::StartOrCertificate(open_file(inputs, name)?)
        }
    })
}

/// Standard input and the files of the system.
#[derive(Drop)]
pub(crate) struct StdInputs<'a, R: Input + Files> {
    rt: &'a R,
}

impl<'a, R: Input + Files> StdInputs<'a, R> {
    /// The inputs of this system. Nothing is opened yet.
    pub(crate) fn new(rt: &'a R) -> StdInputs<'a, R> {
        StdInputs { rt }
    }
}

impl<'a, R: Input + Files> Inputs for StdInputs<'a, R> {
    type Standard = StdSource<R::Reader>;

    type File = StdSource<R::File>;

    // Of what the system has open nothing is known.
    ghost names = { λ _. unknown_names };

    fn standard(&self) -> StdSource<R::Reader> {
        StdSource::new(self.rt.reader())
    }

    /// Opens a file, once, and keeps a second descriptor of it, which is above 2. The first one, where 0, 1 or 2 was
    /// closed when the program started, may be that: the file would be taken for standard input, standard output or
    /// standard error.
    fn open(&self, name: &str) -> Option<StdSource<R::File>> {
        let first = File::open(self.rt, name).ok()?;
        Some(StdSource::new(first.try_clone().ok()?))
    }
}
