//! The command `certify`.

ghost use Rattle.std.specs.Prelude.{◌≡◌, ◌↔◌, false, true, [], None, Some, IfSome};
ghost use Rattle.std.specs.Prelude.{IfOk, OnOk, IsErr, IfErr, OnErr};
ghost use Rattle.std.specs.Io.KnownBytes.{Appends};
ghost use denote.Param.Send.{IsSync};
ghost use Rattle.flow_core.specs.Bytes.{AddsProperPrefix};
ghost use Rattle.flow_core.specs.Directions.{Proves};
ghost use Rattle.flow_core.specs.Paths.{span};
ghost use Rattle.flow_core.specs.Sequences.{IsSequence};
ghost use Rattle.flow_directions.specs.Search.{first_below};
ghost use Rattle.flow_certify.specs.Searched.{Keeps, has_signs};
ghost use Rattle.flow_check.specs.Stated.{GivesAs};
ghost use Rattle.flow_commands.specs.internal.Devices.{NamesNoDevice};
ghost use Rattle.flow_commands.specs.internal.Found.{bounds_of, found_directions, found_text};
ghost use Rattle.flow_commands.specs.Certify.{AnswersCertify, certify_fault, is_signed, keeps_signs, proof_kind};
ghost use Rattle.flow_commands.specs.Runs.{Responds, sink_run};
ghost use Rattle.flow_commands.specs.Start.{FromStart};

use crate::block::PickedBlock;
use crate::command::Command;
use crate::improve::effort_of;
use crate::proof::{limits_of, writes_signs};
use crate::refusals::CommandFault;
use crate::start::{given_start, start_of};
use crate::workers::worker_count;
use flow_cert::{write_counted, write_two_ended};
use flow_certify::{Certified, Proof, ProofLimits, certify};
use flow_check::Bounds;
use flow_core::{Instance, Sequence, Sink, WriteFault};
use flow_improve::Effort;
use flow_requests::{CertifyRequest, SecondFile};
use flow_workers::{Watch, Workers};
use std::alloc::Global;
use std::thread::Threads;

/// The effort of a request, and the limits of its proof, where its numbers are within theirs; else the first fault.
fn tested(request: CertifyRequest) -> Result<(Effort, ProofLimits), CommandFault>
    ensures effort { IfOk result (λ tested. tested.0 ≡ record {
      width = request.improve.width;
      rounds = request.improve.rounds;
      seed = request.improve.seed;
      work = request.improve.work;
    }) }
    ensures most { IfOk result (λ tested. tested.1.most ≡ request.directions) }
    ensures signs { IfOk result (λ tested. tested.1.keeps_signs ≡ keeps_signs request.proof request.directions) }
    ensures accepted { OnOk result (certify_fault request ≡ None) }
    ensures refused { IfErr result (λ fault. certify_fault request ≡ Some fault) }
    ensures device { NamesNoDevice result }
{
    let effort = effort_of(request.improve)?;
    let limits = limits_of(request.proof, request.directions)?;
    worker_count(request.workers)?;
    Ok((effort, limits))
}

/// Writes the certificate of what was found, in the form that is asked for.
fn write_found<K: Sink>(
    instance: &Instance,
    found: &Certified,
    request: CertifyRequest,
    out: &mut K,
) -> Result<(), WriteFault>
    requires works { K.has_failed out.old ≡ false }
    requires kept { Keeps found.now.proof (found_directions instance.now found.now) }
    requires form { has_signs found.now.proof ≡ keeps_signs request.proof request.directions }
    ensures device { IsErr result ↔ (K.has_failed out.new ≡ true) }
    ensures ok { OnOk result (Appends (K.taken out.old) (K.taken out.new)
        (found_text request instance.now found.now)) }
    ensures err { OnErr result (AddsProperPrefix (K.taken out.old) (K.taken out.new)
        (found_text request instance.now found.now)) }
    ensures lawful { IsSequence instance.now.jobs found.now.sequence →
        span instance.now found.now.sequence ≡ found.now.upper →
        Proves instance.now found.now.lower (found_directions instance.now found.now) →
        first_below instance.now found.now.lower [] [] ≡ None →
        GivesAs (proof_kind (is_signed request (found_directions instance.now found.now))) instance.now
        (found_text request instance.now found.now) (bounds_of found.now) found.now.sequence }
{
    let bounds = Bounds {
        lower: found.lower,
        upper: found.upper,
    };
    let sequence = &found.sequence;
    let count = found.proof.directions();
    match &found.proof {
        Proof::Signs(signs) if writes_signs(request.proof, request.directions, count) => {
            write_two_ended(instance, bounds, sequence, signs.as_slice(), out)
        }
        _ => write_counted(instance, bounds, sequence, count, out),
    }
}

/// Writes a certificate with signs or with a count: bounds of the least makespan, which are one number where that was
/// proved. Its sequence is no worse than the one that a start text gives, or, where there is no such text, than that of
/// Nawaz, Enscore and Ham. The workers search for directions, on threads where they are two or more; the watch is told
/// how far the run is, and says when its time is over.
#[derive(Drop)]
pub(crate) struct Certify<'a, R, W> {
    pub(crate) rt: &'a R,
    pub(crate) watch: &'a W,
    pub(crate) request: CertifyRequest,
}

/// Certifies an instance from a given sequence, if there is one, and writes the certificate.
#[inline(never)]
fn certify_instance<R: Threads + Sync, W: Watch, K: Sink>(
    command: &Certify<R, W>,
    alloc: Global,
    instance: Instance,
    given: Option<Sequence>,
    out: &mut K,
) -> Result<(), CommandFault>
    requires out_works { K.has_failed out.old ≡ false }
    requires given { IfSome given (IsSequence instance.jobs) }
    ensures { Responds (AnswersCertify command.now.request instance given) (sink_run K.Sink out.old out.new)
        result }
{
    let request = command.request;
    let (effort, limits) = tested(request)?;
    let start = start_of(alloc, &instance, given)?;
    let workers = Workers {
        rt: command.rt,
        count: request.workers as usize,
        watch: command.watch,
    };
    let found = certify(alloc, &workers, &instance, &start, &effort, limits)?;
    write_found(&instance, &found, request, out)?;
    Ok(())
}

impl<'a, R: Threads + Sync, W: Watch> Command for Certify<'a, R, W> {
    // Threads may share what starts them.
    ghost is_ready = { λ _. IsSync R.row };

    ghost answers = { λ s. FromStart (AnswersCertify s.request) };

    fn respond<K: Sink>(
        &self,
        alloc: Global,
        picked: PickedBlock,
        second: SecondFile<Vec<u8>>,
        out: &mut K,
    ) -> Result<(), CommandFault> {
        let PickedBlock { block, .. } = picked;
        let given = given_start(alloc, &block.instance, second)?;
        certify_instance(self, alloc, block.instance, given, out)
    }
}
