//! The words of a command line become a request here.

use clap::ArgMatches;
use flow_requests::{
    CertifyRequest, CheckOutput, CheckRequest, ImproveRequest, Invocation, ProofForm, Request,
    ScheduleForm, SecondFile, SolveRequest,
};
use std::alloc::{AllocError, Global};

/// What the words ask for; none where a value is missing or does not read as its type.
pub fn invocation_of<'a>(
    alloc: Global,
    matches: &ArgMatches<'a>,
) -> Result<Option<Invocation<'a>>, AllocError> {
    if let Some(given) = matches.subcommand_matches("gen") {
        return Ok(gen_of(given));
    }
    if let Some(given) = matches.subcommand_matches("span") {
        return span_of(alloc, given);
    }
    if let Some(given) = matches.subcommand_matches("neh") {
        return Ok(of_block(given, SecondFile::Absent, Some(Request::Neh)));
    }
    if let Some(given) = matches.subcommand_matches("solve") {
        return Ok(of_block(given, start_of(given), solve_of(given)));
    }
    if let Some(given) = matches.subcommand_matches("improve") {
        return Ok(of_block(given, start_of(given), improve_of(given)));
    }
    if let Some(given) = matches.subcommand_matches("certify") {
        return Ok(of_block(given, start_of(given), certify_of(given)));
    }
    if let Some(given) = matches.subcommand_matches("check") {
        return Ok(check_of(given));
    }
    if let Some(given) = matches.subcommand_matches("signs") {
        return Ok(signs_of(given));
    }
    if let Some(given) = matches.subcommand_matches("schedule") {
        return Ok(schedule_of(given));
    }
    Ok(None)
}

fn gen_of<'a>(given: &ArgMatches<'a>) -> Option<Invocation<'a>> {
    Some(Invocation::Gen {
        jobs: given.get_one::<u32>("JOBS")?,
        machines: given.get_one::<u32>("MACHINES")?,
        seed: given.get_one::<u32>("SEED")?,
    })
}

/// The name of a start, which may be left out.
fn start_of<'a>(given: &ArgMatches<'a>) -> SecondFile<&'a str> {
    match given.get_str("start") {
        Some(name) => SecondFile::Start(name),
        None => SecondFile::Absent,
    }
}

/// What is asked of the block of a text, with the name of the second file; none where nothing is asked.
fn of_block<'a>(
    given: &ArgMatches<'a>,
    second: SecondFile<&'a str>,
    request: Option<Request>,
) -> Option<Invocation<'a>> {
    let request = request?;
    Some(Invocation::OfBlock {
        file: given.get_str("FILE")?,
        index: given.get_one::<u32>("INDEX")?,
        second,
        request,
    })
}

fn span_of<'a>(
    alloc: Global,
    given: &ArgMatches<'a>,
) -> Result<Option<Invocation<'a>>, AllocError> {
    Ok(match jobs_of(alloc, given)? {
        Some(jobs) => of_block(given, SecondFile::Absent, Some(Request::Span { jobs })),
        None => None,
    })
}

fn solve_of(given: &ArgMatches) -> Option<Request> {
    Some(Request::Solve(SolveRequest {
        workers: given.get_one::<u32>("workers")?,
        depth: given.get_one::<u32>("depth")?,
        budget: given.get_one::<u32>("budget")?,
        version: given.get_one::<u32>("certificate")?,
    }))
}

fn improve_of(given: &ArgMatches) -> Option<Request> {
    Some(Request::Improve {
        request: improvement_of(given)?,
        seconds: given.get_one::<u32>("time-limit"),
    })
}

fn certify_of(given: &ArgMatches) -> Option<Request> {
    Some(Request::Certify {
        request: CertifyRequest {
            improve: improvement_of(given)?,
            directions: given.get_one::<u64>("directions")?,
            workers: given.get_one::<u32>("workers")?,
            proof: proof_of(given)?,
        },
        progress: given.get_flag("progress"),
        seconds: given.get_one::<u32>("time-limit"),
    })
}

/// The form of a proof; none where no form has the name.
fn proof_of(given: &ArgMatches) -> Option<ProofForm> {
    let Some(name) = given.get_str("proof") else {
        return Some(ProofForm::ByLength);
    };
    match name {
        "signs" => Some(ProofForm::Signs),
        "count" => Some(ProofForm::Count),
        _ => None,
    }
}

/// The name of a certificate.
fn certificate_of<'a>(given: &ArgMatches<'a>) -> Option<SecondFile<&'a str>> {
    Some(SecondFile::Certificate(given.get_str("CERT")?))
}

fn check_of<'a>(given: &ArgMatches<'a>) -> Option<Invocation<'a>> {
    let request = CheckRequest {
        output: output_of(given)?,
        optimal: given.get_flag("optimal"),
        most: given.get_one::<u64>("most")?,
        workers: given.get_one::<u32>("workers")?,
    };
    let progress = given.get_flag("progress");
    let check = Request::Check { request, progress };
    of_block(given, certificate_of(given)?, Some(check))
}

fn signs_of<'a>(given: &ArgMatches<'a>) -> Option<Invocation<'a>> {
    of_block(given, certificate_of(given)?, Some(Request::Signs))
}

/// What the words of `check` ask to print; none where they ask for two things.
fn output_of(given: &ArgMatches) -> Option<CheckOutput> {
    match (given.get_flag("sequence"), given.get_flag("verbose")) {
        (false, false) => Some(CheckOutput::Proved),
        (true, false) => Some(CheckOutput::Sequence),
        (false, true) => Some(CheckOutput::Report),
        (true, true) => None,
    }
}

fn schedule_of<'a>(given: &ArgMatches<'a>) -> Option<Invocation<'a>> {
    let form = form_of(given.get_str("form")?)?;
    let sequence = SecondFile::StartOrCertificate(given.get_str("SEQUENCE")?);
    of_block(given, sequence, Some(Request::Schedule(form)))
}

/// The form of a name; none where no form has it.
fn form_of(name: &str) -> Option<ScheduleForm> {
    match name {
        "csv" => Some(ScheduleForm::Csv),
        "svg" => Some(ScheduleForm::Svg),
        _ => None,
    }
}

fn improvement_of(given: &ArgMatches) -> Option<ImproveRequest> {
    Some(ImproveRequest {
        width: given.get_one::<u32>("width")?,
        rounds: given.get_one::<u32>("rounds")?,
        seed: given.get_one::<u32>("seed")?,
        work: given.get_one::<u32>("work")?,
    })
}

fn jobs_of(alloc: Global, given: &ArgMatches) -> Result<Option<Vec<u16>>, AllocError> {
    let Some(words) = given.get_strs("JOB") else {
        return Ok(None);
    };
    let mut jobs = Vec::new(alloc);
    for word in words {
        match word.parse::<u16>() {
            Ok(job) => jobs.push(job)?,
            Err(_) => return Ok(None),
        }
    }
    Ok(Some(jobs))
}
