//! The command `solve`.

ghost use Rattle.std.specs.Prelude.{◌≡◌, ◌⊎◌, false, None, Err, IfOk, OnOk, IfErr, IfSome, is_some};
ghost use Rattle.std.specs.Option.{ForSome};
ghost use Rattle.flow_core.specs.Sequences.{IsSequence};
ghost use Rattle.flow_search.specs.Plans.{IsPlan, but_memory, plan_fault};
ghost use Rattle.flow_requests.specs.SecondFile.{file_in};
ghost use Rattle.flow_commands.specs.Output.{Output};
ghost use Rattle.flow_commands.specs.Files.{kind_of};
ghost use Rattle.flow_commands.specs.internal.Devices.{NamesNoDevice};
ghost use Rattle.flow_commands.specs.Runs.{CameFor, Ran, Responds, run_alone, run_of, second_run, sink_run, source_run};
ghost use Rattle.flow_commands.specs.Solve.{AnswersRun, AnswersSolve, WroteCertificate};
ghost use Rattle.flow_commands.specs.Start.{FromStart, StartsFrom};
ghost use Rattle.flow_commands.specs.internal.Picked.{origin_of};
ghost use Rattle.flow_commands.specs.internal.Reading.{bytes_of};

use crate::block::{PickedBlock, block_at};
use crate::files::{FileKind, read_file, read_second};
use crate::refusals::CommandFault;
use crate::start::given_start;
use flow_cert::write_certificate;
use flow_core::{Instance, MemorySource, Sequence, Sink, Source};
use flow_pool::{Gate, solve};
use flow_requests::{SecondFile, SolveRequest};
use flow_search::{Options, Plan, PlanFault, prepare, prepare_from};
use std::alloc::Global;
use std::sync::Wait;
use std::thread::Threads;

/// Solves a plan, and writes its certificate.
fn solve_plan<R: Threads + Wait + Sync, G: Gate + Sync, K: Sink>(
    rt: &R,
    alloc: Global,
    plan: &Plan,
    gate: &G,
    out: &mut K,
) -> Result<(), CommandFault>
    requires out_works { K.has_failed out.old ≡ false }
    requires is_plan { IsPlan plan.now }
    ensures { Responds (AnswersRun plan.now) (sink_run K.Sink out.old out.new) result }
{
    let report = solve(rt, alloc, plan, gate)?;
    write_certificate(plan, &report.verdict, out)?;
    Ok(())
}

/// The plan of an instance and options from a given sequence, or, where none is given, from that of Nawaz, Enscore and
/// Ham.
fn plan_of<'a>(
    alloc: Global,
    instance: &'a Instance,
    given: Option<Sequence>,
    options: Options,
) -> Result<Plan<'a>, PlanFault>
    requires { IfSome given (IsSequence instance.now.jobs) }
    ensures shop { IfOk result (λ plan. plan.shop ≡ instance.now) }
    ensures options { IfOk result (λ plan. plan.options ≡ options) }
    ensures start { IfOk result (λ plan. StartsFrom instance.now given plan.start.sequence) }
    ensures plan { IfOk result (λ plan. IsPlan plan) }
    ensures accepted { OnOk result (plan_fault instance.now options ≡ None) }
    ensures refused { IfErr result (λ fault. plan_fault instance.now options ≡ but_memory fault) }
{
    match given {
        Some(start) => prepare_from(alloc, instance, start, options),
        None => prepare(alloc, instance, options),
    }
}

/// The plan that a request asks for, from a given sequence if there is one.
fn asked_plan<'a>(
    alloc: Global,
    instance: &'a Instance,
    given: Option<Sequence>,
    request: SolveRequest,
) -> Result<Plan<'a>, CommandFault>
    requires { IfSome given (IsSequence instance.now.jobs) }
    ensures plan { IfOk result (λ plan. IsPlan plan) }
    ensures answers { IfOk result (λ plan. (answer : Output) → AnswersRun plan answer →
        AnswersSolve request instance.now given answer) }
    ensures refused { IfErr result (λ fault. (fault ≡ CommandFault.Memory)
        ⊎ AnswersSolve request instance.now given (Err fault)) }
    ensures device { NamesNoDevice result }
{
    let options = Options::versioned(
        request.workers,
        request.depth,
        request.budget,
        request.version,
    )?;
    Ok(plan_of(alloc, instance, given, options)?)
}

/// How a block is solved: by which threads, past which gate, and as a request says. This is no `Command`: the kit
/// proves no method of a trait yet that hands a gate to threads.
#[derive(Drop)]
pub(crate) struct Solve<'a, R, G> {
    pub(crate) rt: &'a R,
    pub(crate) gate: &'a G,
    pub(crate) request: SolveRequest,
}

/// Solves a block, from the sequence of a start text if there is one, and writes the certificate of its plan.
fn solve_block<R: Threads + Wait + Sync, G: Gate + Sync, K: Sink>(
    solve: &Solve<R, G>,
    alloc: Global,
    picked: PickedBlock,
    start: SecondFile<Vec<u8>>,
    out: &mut K,
) -> Result<(), CommandFault>
    requires { K.has_failed out.old ≡ false }
    ensures { Responds (FromStart (AnswersSolve solve.now.request) (origin_of picked) (bytes_of (file_in start)))
        (sink_run K.Sink out.old out.new) result }
{
    let PickedBlock { block, .. } = picked;
    let given = given_start(alloc, &block.instance, start)?;
    let plan = asked_plan(alloc, &block.instance, given, solve.request)?;
    solve_plan(solve.rt, alloc, &plan, solve.gate, out)
}

/// Solves the block of a text that an index names, as `run` runs a command. It starts from the sequence that a start
/// text gives, or, where there is no such text, from that of Nawaz, Enscore and Ham.
#[inline(never)]
pub(crate) fn solve_over<R: Threads + Wait + Sync, S: Source, T: Source, G: Gate + Sync, K: Sink>(
    alloc: Global,
    file: &mut S,
    index: u32,
    second: &mut SecondFile<T>,
    solve: &Solve<R, G>,
    out: &mut K,
) -> Result<(), CommandFault>
    requires file_works { S.has_failed file.old ≡ false }
    requires second_works { ForSome (file_in second.old) (λ source. T.has_failed source ≡ false) }
    requires out_works { K.has_failed out.old ≡ false }
    ensures ran { Ran (kind_of second.old) (FromStart (AnswersSolve solve.now.request)) index
        (run_of (source_run S.Source file.old file.new)
        (second_run T.Source (file_in second.old) (file_in second.new)) (sink_run K.Sink out.old out.new)) result }
    ensures stays { is_some (file_in second.new) ≡ is_some (file_in second.old) }
{
    let text = read_file(alloc, file, FileKind::Text)?;
    let picked = block_at(alloc, text, index)?;
    let bytes = read_second(alloc, second)?;
    solve_block(solve, alloc, picked, bytes, out)
}

/// Solves the block that an index names, from the starting sequence of Nawaz, Enscore and Ham, and writes the
/// certificate of its plan, in a version.
pub fn run_solve<R: Threads + Wait + Sync, S: Source, G: Gate + Sync, K: Sink>(
    rt: &R,
    alloc: Global,
    file: &mut S,
    index: u32,
    workers: u32,
    depth: u32,
    budget: u32,
    version: u32,
    gate: &G,
    out: &mut K,
) -> Result<(), CommandFault>
    requires file_works { S.has_failed file.old ≡ false }
    requires out_works { K.has_failed out.old ≡ false }
    ensures ran { Ran FileKind.Text (FromStart (AnswersSolve (record {
      workers = workers;
      depth = depth;
      budget = budget;
      version = version;
    }))) index
        (run_alone (source_run S.Source file.old file.new) (sink_run K.Sink out.old out.new)) result }
    ensures lawful { OnOk result (CameFor index (λ shop. WroteCertificate shop (sink_run K.Sink out.old out.new))
        (source_run S.Source file.old file.new)) }
{
    let request = SolveRequest {
        workers,
        depth,
        budget,
        version,
    };
    let absent = &mut SecondFile::<MemorySource>::Absent;
    let solve = Solve { rt, gate, request };
    solve_over(alloc, file, index, absent, &solve, out)
}
