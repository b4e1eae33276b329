//! The command `check`.

ghost use Rattle.std.specs.Prelude.{◌≡◌, ◌⊎◌, false, true, Some, Ok, Err, IfOk, OnOk, IfErr};
ghost use denote.Param.Send.{IsSync};
ghost use Rattle.flow_core.specs.Paths.{span};
ghost use Rattle.flow_commands.specs.Output.{OfBytes};
ghost use Rattle.flow_commands.specs.internal.Devices.{NamesNoDevice};
ghost use Rattle.flow_commands.specs.Check.{AnswersAs, AnswersCheck, AnswersTrees, FallsShortOf, SufficesFor};
ghost use Rattle.flow_commands.specs.Check.{WroteLeast, printed_text, proved_line};
ghost use Rattle.flow_commands.specs.internal.Picked.{origin_of};
ghost use Rattle.flow_commands.specs.Runs.{CameFor, Ran, Responds, run_of, sink_run, source_run};

use crate::block::{PickedBlock, block_at};
use crate::command::Command;
use crate::files::{FileKind, bytes_in, read_file};
use crate::printed::{bounds_line, optimal_line, sequence_lines};
use crate::refusals::CommandFault;
use crate::report::report_lines;
use crate::workers::worker_count;
use flow_check::{Bounds, MOST_NODES, Shown, TextKind, check_text_by, kind_of};
use flow_core::{Sink, Source, put_all};
use flow_directions::{Alone, Counter};
use flow_requests::{CheckOutput, CheckRequest, SecondFile};
use flow_workers::{News, Watch, Workers};
use std::alloc::{AllocError, Global};
use std::thread::Threads;

/// The line of the bounds that a text proves.
fn proved_line(alloc: Global, bounds: Bounds) -> Result<Vec<u8>, AllocError>
    ensures { IfOk result (λ line. line.items ≡ proved_line bounds) }
{
    if bounds.lower == bounds.upper {
        return optimal_line(alloc, bounds.lower);
    }
    bounds_line(alloc, bounds.lower, bounds.upper)
}

/// The text that is printed of what a text of a kind shows of a block.
fn printed_text(
    alloc: Global,
    picked: &PickedBlock,
    kind: TextKind,
    bytes: &[u8],
    shown: &Shown,
    output: CheckOutput,
) -> Result<Vec<u8>, AllocError>
    requires { span picked.now.block.instance shown.now.sequence ≡ shown.now.bounds.upper }
    ensures { IfOk result (λ printed. printed.items
        ≡ printed_text output (origin_of picked.now) kind bytes.now shown.now.bounds shown.now.sequence) }
{
    match output {
        CheckOutput::Proved => proved_line(alloc, shown.bounds),
        CheckOutput::Sequence => sequence_lines(alloc, shown.sequence.jobs(), shown.bounds.upper),
        CheckOutput::Report => {
            let mut text = proved_line(alloc, shown.bounds)?;
            let report = report_lines(alloc, picked, kind, bytes)?;
            text.extend_from_slice(report.as_slice())?;
            Ok(text)
        }
    }
}

/// Whether bounds fall short of a request.
fn falls_short(request: CheckRequest, bounds: Bounds) -> bool
    ensures yes { result ≡ true → FallsShortOf request bounds }
    ensures no { result ≡ false → SufficesFor request bounds }
{
    request.optimal && bounds.lower != bounds.upper
}

/// What is printed of a text of a kind for a block; or why the text is refused, or its bounds are. The counter counts
/// the nodes of a counted certificate.
fn checked_text<C: Counter>(
    alloc: Global,
    counter: &C,
    picked: &PickedBlock,
    kind: TextKind,
    bytes: &[u8],
    request: CheckRequest,
) -> Result<Vec<u8>, CommandFault>
    requires { C.is_ready counter.now }
    ensures text { IfOk result (λ text. AnswersAs kind request (origin_of picked.now) bytes.now (Ok text.items)) }
    ensures refused { IfErr result (λ fault. (fault ≡ CommandFault.Memory)
        ⊎ AnswersAs kind request (origin_of picked.now) bytes.now (Err fault)) }
    ensures device { NamesNoDevice result }
{
    let instance = &picked.block.instance;
    let shown = check_text_by(alloc, counter, request.most, kind, instance, bytes)?;
    if falls_short(request, shown.bounds) {
        let Bounds { lower, upper } = shown.bounds;
        return Err(CommandFault::Bounds { lower, upper });
    }
    Ok(printed_text(alloc, picked, kind, bytes, &shown, request.output)?)
}

/// Answers what a certificate of any kind proves, or its sequence and the makespan of that. The request says which of
/// them, whether bounds have to be one number, and how many nodes a counted certificate may state. The workers count
/// them, on threads where they are two or more; the watch is told how far they are.
#[derive(Drop)]
pub(crate) struct Check<'a, R, W> {
    pub(crate) rt: &'a R,
    pub(crate) watch: &'a W,
    pub(crate) request: CheckRequest,
}

impl<'a, R: Threads + Sync, W: Watch> Command for Check<'a, R, W> {
    // Threads may share what starts them.
    ghost is_ready = { λ _. IsSync R.row };

    ghost answers = { λ s. OfBytes (AnswersCheck s.request) };

    fn respond<K: Sink>(
        &self,
        alloc: Global,
        picked: PickedBlock,
        second: SecondFile<Vec<u8>>,
        out: &mut K,
    ) -> Result<(), CommandFault> {
        let workers = Workers {
            rt: self.rt,
            count: worker_count(self.request.workers)?,
            watch: self.watch,
        };
        let bytes = bytes_in(&second);
        let kind = kind_of(bytes);
        let text = checked_text(alloc, &workers, &picked, kind, bytes, self.request)?;
        self.watch.tell(&picked.block.instance, News::Ended);
        put_all(out, text.as_slice())?;
        Ok(())
    }
}

/// What is printed of any lawful certificate with trees.
const VALUE: CheckRequest = CheckRequest {
    output: CheckOutput::Proved,
    optimal: false,
    most: MOST_NODES,
    workers: 1,
};

/// Writes the value that a certificate with trees proves least for a block.
fn check_trees<K: Sink>(
    alloc: Global,
    picked: &PickedBlock,
    bytes: &[u8],
    out: &mut K,
) -> Result<(), CommandFault>
    requires { K.has_failed out.old ≡ false }
    ensures { Responds (AnswersTrees (origin_of picked.now) bytes.now) (sink_run K.Sink out.old out.new) result }
{
    let kind = TextKind::Certificate;
    let text = checked_text(alloc, &Alone, picked, kind, bytes, VALUE)?;
    put_all(out, text.as_slice())?;
    Ok(())
}

/// Writes the value that a certificate with trees proves least for the block that an index names. No other kind of
/// certificate is accepted.
pub fn run_check<S: Source, C: Source, K: Sink>(
    alloc: Global,
    file: &mut S,
    index: u32,
    cert: &mut C,
    out: &mut K,
) -> Result<(), CommandFault>
    requires file_works { S.has_failed file.old ≡ false }
    requires cert_works { C.has_failed cert.old ≡ false }
    requires out_works { K.has_failed out.old ≡ false }
    ensures ran { Ran FileKind.Certificate (OfBytes AnswersTrees) index
        (run_of (source_run S.Source file.old file.new) (Some (source_run C.Source cert.old cert.new))
        (sink_run K.Sink out.old out.new)) result }
    ensures least { OnOk result (CameFor index (λ shop. WroteLeast shop (sink_run K.Sink out.old out.new))
        (source_run S.Source file.old file.new)) }
{
    // The file is borrowed, so it cannot be moved into the one that `run` takes.
    let text = read_file(alloc, file, FileKind::Text)?;
    let picked = block_at(alloc, text, index)?;
    let bytes = read_file(alloc, cert, FileKind::Certificate)?;
    check_trees(alloc, &picked, bytes.as_slice(), out)
}
