//! The files that a command reads: a text, and a second file where there is one.

ghost use Rattle.std.specs.Prelude.{◌≡◌, ◌↔◌, false, true, [], IfOk, IfErr, IfSome, IsErrOf};
ghost use Rattle.std.specs.Prelude.{is_some, unwrap_or};
ghost use Rattle.std.specs.Option.{ForSome};
ghost use Rattle.flow_core.specs.Bytes.{Grows};
ghost use Rattle.flow_core.specs.declared.bytes.fault.ReadFault.TheVariants as read;
ghost use Rattle.flow_core.specs.declared.bytes.fault.WriteFault.TheVariants as write;
ghost use Rattle.flow_requests.specs.SecondFile.{file_in};
ghost use Rattle.flow_commands.specs.Files.{BeginsAsCertificate, kind_of};
ghost use Rattle.flow_commands.specs.Runs.{Came, SecondFailed, Stands, StopsAt};
ghost use Rattle.flow_commands.specs.Runs.{second_run, source_run};
ghost use Rattle.flow_commands.specs.internal.Reading.{SecondCame, SecondStops, bytes_of};

use crate::refusals::CommandFault;
use flow_core::{MAX_CERTIFICATE, MAX_TEXT, Source, read_all, read_by_begin};
use flow_requests::SecondFile;
use std::alloc::Global;

/// What a file is read as: it says how many bytes the file may have.
#[derive(Clone, Copy, Debug, PartialEq, Eq)]
pub(crate) enum FileKind {
    /// A benchmark text, or a start.
    Text,
    /// A certificate.
    Certificate,
    /// A certificate, where it begins as one, and else a start.
    StartOrCertificate,
}

/// What every certificate begins with.
const BEGIN: &[u8] = b"flowshop ";

/// Whether a text begins as every certificate does.
pub(crate) fn begins_as_certificate(text: &[u8]) -> bool
    ensures yes { result ≡ true → BeginsAsCertificate text.now }
    ensures no { result ≡ false → ¬ BeginsAsCertificate text.now }
{
    text.starts_with(BEGIN)
}

/// Reads a file of a kind. It keeps a frame of its own, so that no buffer stays on the stack of a run.
#[inline(never)]
pub(crate) fn read_file<S: Source>(
    alloc: Global,
    file: &mut S,
    kind: FileKind,
) -> Result<Vec<u8>, CommandFault>
    requires { S.has_failed file.old ≡ false }
    ensures came { IfOk result (λ v. Came kind (λ bytes. bytes ≡ v.items) (source_run S.Source file.old file.new)) }
    ensures refused { IfErr result (StopsAt kind (λ _ _. ⊥) (source_run S.Source file.old file.new)) }
    ensures device { IsErrOf result (CommandFault.Read read.Device) ↔ (S.has_failed file.new ≡ true) }
    ensures writes_nothing { IsErrOf result (CommandFault.Write write.Device) → ⊥ }
    ensures stands { Grows (S.given file.old) (S.given file.new) }
{
    match kind {
        FileKind::Text => Ok(read_all(alloc, file, MAX_TEXT)?),
        FileKind::Certificate => Ok(read_all(alloc, file, MAX_CERTIFICATE)?),
        FileKind::StartOrCertificate => {
            Ok(read_by_begin(alloc, file, BEGIN, MAX_TEXT, MAX_CERTIFICATE)?)
        }
    }
}

/// Reads a second file, where there is one.
pub(crate) fn read_second<T: Source>(
    alloc: Global,
    second: &mut SecondFile<T>,
) -> Result<SecondFile<Vec<u8>>, CommandFault>
    requires { ForSome (file_in second.old) (λ file. T.has_failed file ≡ false) }
    ensures came { IfOk result (λ bytes. SecondCame (kind_of second.old)
        (second_run T.Source (file_in second.old) (file_in second.new)) (file_in bytes)) }
    ensures refused { IfErr result (SecondStops (kind_of second.old)
        (second_run T.Source (file_in second.old) (file_in second.new))) }
    ensures device { IsErrOf result (CommandFault.Read read.Device)
        ↔ SecondFailed (second_run T.Source (file_in second.old) (file_in second.new)) }
    ensures writes_nothing { IsErrOf result (CommandFault.Write write.Device) → ⊥ }
    ensures stands { IfSome (second_run T.Source (file_in second.old) (file_in second.new)) Stands }
    ensures stays { is_some (file_in second.new) ≡ is_some (file_in second.old) }
{
    match second {
        SecondFile::Absent => Ok(SecondFile::Absent),
        SecondFile::Start(file) => {
            let start = read_file(alloc, file, FileKind::Text)?;
            Ok(SecondFile::Start(start))
        }
        SecondFile::Certificate(file) => {
            let certificate = read_file(alloc, file, FileKind::Certificate)?;
            Ok(SecondFile::Certificate(certificate))
        }
        SecondFile::StartOrCertificate(file) => {
            let either = read_file(alloc, file, FileKind::StartOrCertificate)?;
            Ok(SecondFile::StartOrCertificate(either))
        }
    }
}

/// The bytes of a second file; none where it is absent.
pub(crate) fn bytes_in(second: &SecondFile<Vec<u8>>) -> &[u8]
    ensures { result.now ≡ unwrap_or (bytes_of (file_in second.now)) [] }
{
    match second {
        SecondFile::Absent => &[],
        SecondFile::Start(bytes) => bytes.as_slice(),
        SecondFile::Certificate(bytes) => bytes.as_slice(),
        SecondFile::StartOrCertificate(bytes) => bytes.as_slice(),
    }
}
