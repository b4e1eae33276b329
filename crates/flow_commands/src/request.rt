//! One call for all commands that read a block.

ghost use Rattle.std.specs.Prelude.{◌≡◌, false, OnOk, is_some};
ghost use Rattle.std.specs.Option.{ForSome};
ghost use Rattle.flow_requests.specs.SecondFile.{file_in};
ghost use Rattle.flow_commands.specs.Files.{kind_of};
ghost use Rattle.flow_commands.specs.Request.{SaysTrue, answers};
ghost use Rattle.flow_commands.specs.Runs.{CameBoth, Ran, run_of, second_run, sink_run, source_run};

use crate::certify::Certify;
use crate::check::Check;
use crate::command::run;
use crate::improve::Improve;
use crate::neh::Neh;
use crate::refusals::CommandFault;
use crate::schedule::Schedule;
use crate::signs::Signs;
use crate::solve::{Solve, solve_over};
use crate::span::Span;
use flow_core::{Sink, Source};
use flow_pool::Open;
use flow_requests::{Request, SecondFile};
use flow_workers::Watch;
use std::alloc::Global;
use std::sync::Wait;
use std::thread::Threads;

/// What a run has beside its files: memory, threads, and a watch that is told how far it is.
#[derive(Clone, Copy)]
pub struct Means<'a, R, W> {
    /// What starts threads.
    pub rt: &'a R,
    /// Where memory comes from.
    pub alloc: Global,
    /// What is told how far a run is, and says when its time is over.
    pub watch: &'a W,
}

/// Does what a request asks of the block of a text that an index names, with a second file where there is one.
#[inline(never)]
pub fn run_request<R: Threads + Wait + Sync, S: Source, T: Source, W: Watch, K: Sink>(
    means: &Means<R, W>,
    file: &mut S,
    index: u32,
    second: &mut SecondFile<T>,
    request: &Request,
    out: &mut K,
) -> Result<(), CommandFault>
    requires file_works { S.has_failed file.old ≡ false }
    requires second_works { ForSome (file_in second.old) (λ source. T.has_failed source ≡ false) }
    requires out_works { K.has_failed out.old ≡ false }
    ensures ran { Ran (kind_of second.old) (answers request.now) index
        (run_of (source_run S.Source file.old file.new)
        (second_run T.Source (file_in second.old) (file_in second.new)) (sink_run K.Sink out.old out.new)) result }
    ensures proved { OnOk result (CameBoth (kind_of second.old) index
        (λ origin given. SaysTrue request.now origin given (sink_run K.Sink out.old out.new))
        (run_of (source_run S.Source file.old file.new)
        (second_run T.Source (file_in second.old) (file_in second.new)) (sink_run K.Sink out.old out.new))) }
    ensures stays { is_some (file_in second.new) ≡ is_some (file_in second.old) }
{
    let Means { rt, alloc, watch } = *means;
    match request {
        Request::Span { jobs } => {
            let command = Span {
                jobs: jobs.as_slice(),
            };
            run(alloc, file, index, second, &command, out)
        }
        Request::Neh => run(alloc, file, index, second, &Neh, out),
        Request::Solve(request) => {
            let solve = Solve {
                rt,
                gate: &Open,
                request: *request,
            };
            solve_over(alloc, file, index, second, &solve, out)
        }
        Request::Improve { request, seconds } => {
            watch.begin(false, *seconds);
            let command = Improve {
                watch,
                request: *request,
            };
            run(alloc, file, index, second, &command, out)
        }
        Request::Certify {
            request,
            progress,
            seconds,
        } => {
            watch.begin(*progress, *seconds);
            let command = Certify {
                rt,
                watch,
                request: *request,
            };
            run(alloc, file, index, second, &command, out)
        }
        Request::Check { request, progress } => {
            watch.begin(*progress, None);
            let command = Check {
                rt,
                watch,
                request: *request,
            };
            run(alloc, file, index, second, &command, out)
        }
        Request::Signs => run(alloc, file, index, second, &Signs, out),
        Request::Schedule(form) => {
            let command = Schedule { form: *form };
            run(alloc, file, index, second, &command, out)
        }
    }
}
