//! Start text: the jobs of a starting sequence, and the makespan that they are said to have.

ghost use Rattle.std.specs.Prelude.{◌≡◌, ◌≢◌, ◌+◌, ◌≤◌, ◌^◌, [], ◌∷◌, length, Some, Ok, Err, IfOk, IfErr};
ghost use Rattle.flow_text.specs.Lines.{lines_of};
ghost use Rattle.flow_text.specs.StartText.{HasStartFault, IsStart, jobs_on, makespan_on, numbers_behind, solid_lines};
ghost use Rattle.flow_text.specs.internal.StartSteps.{IsOfLine, claim_of, numbered, of_start};
ghost use Rattle.flow_text.specs.declared.text.start.StartFault.TheVariants.{Memory};

use crate::text::fault::LineFault;
use crate::text::line::{behind_word, first_line, numbers_in, without_blanks};
use std::alloc::{AllocError, AllocFailed, Global};
use thiserror::Error;

/// The word before the jobs.
const SEQUENCE: &[u8] = b"sequence";

/// The word before the makespan.
const MAKESPAN: &[u8] = b"makespan";

/// The greatest number that is read as a job.
const MAX_JOB_NUMBER: u32 = 65_535;

/// The makespan that jobs are said to have, with the number of its line in the text, counted from 1.
#[derive(Clone, Copy, Debug, PartialEq, Eq)]
pub struct Claim {
    /// The makespan as the text has it, untested.
    pub makespan: u32,
    /// The number of its line.
    pub line: usize,
}

/// What a start text says.
#[derive(Debug, PartialEq, Eq, Drop)]
pub struct Start {
    /// The numbers of the jobs in their order, untested.
    pub jobs: Vec<u16>,
    /// The makespan that they are said to have, where the text has one.
    pub claim: Option<Claim>,
}

/// Why a text is no start.
#[derive(Clone, Copy, Debug, PartialEq, Eq, Error)]
pub enum StartFault {
    /// Memory ran out.
    #[error("Memory")]
    Memory,
    /// The line with this number, counted from 1, is the first at fault. What is missing at the end has the number of
    /// the line after the last.
    #[error("{0}")]
    Line(usize),
}

impl From<AllocError> for StartFault {
    ghost from_gives = { λ _ fault. fault ≡ Memory };

    fn from(_error: AllocError) -> StartFault {
        StartFault::Memory
    }
}

impl<T: Drop> From<AllocFailed<T>> for StartFault {
    ghost from_gives = { λ _ fault. fault ≡ Memory };

    fn from(_error: AllocFailed<T>) -> StartFault {
        StartFault::Memory
    }
}

/// A line that is not blank.
#[derive(Clone, Copy)]
struct Solid<'a> {
    /// Its number in the text, counted from 1.
    number: usize,
    /// Its bytes, without the LF.
    bytes: &'a [u8],
    /// The text behind it.
    rest: &'a [u8],
}

/// The first line that is not blank, where the first line of the text has this number; or the number of the line after
/// the last.
fn first_solid_line(text: &[u8], from: usize) -> Result<Solid, usize>
    requires { from + length text.now ≤ 2 ^ 63 }
    ensures found { IfOk result (λ line. solid_lines from (lines_of text.now)
        ≡ numbered line ∷ solid_lines (line.number + 1) (lines_of line.rest.now)) }
    ensures fewer { IfOk result (λ line. line.number + 1 + length line.rest.now ≤ from + length text.now) }
    ensures none { IfErr result (λ number. (solid_lines from (lines_of text.now) ≡ [])
        × (number ≡ from + length (lines_of text.now))) }
{
    let mut rest = text;
    let mut number = from;
    while !rest.is_empty() {
        let (line, behind) = first_line(rest);
        if !without_blanks(line).is_empty() {
            return Ok(Solid {
                number,
                bytes: line,
                rest: behind,
            });
        }
        number += 1;
        rest = behind;
    }
    Err(number)
}

impl LineFault {
    /// The fault of a start whose line with this number has this fault.
    fn of_start(self, line: usize) -> StartFault
        ensures { result ≡ of_start self line }
    {
        match self {
            LineFault::Memory => StartFault::Memory,
            _ => StartFault::Line(line),
        }
    }
}

/// The numbers behind a word on a line; or the fault of the line.
fn numbers_behind(alloc: Global, word: &[u8], line: &Solid) -> Result<Vec<u32>, StartFault>
    ensures value { IfOk result (λ numbers. numbers_behind word.now line.now.bytes.now ≡ Some numbers.items) }
    ensures refused { IfErr result (λ fault.
        IsOfLine (numbers_behind word.now line.now.bytes.now) line.now.number fault) }
{
    let Some(rest) = behind_word(line.bytes, word) else {
        return Err(StartFault::Line(line.number));
    };
    let mut numbers = Vec::new(alloc);
    match numbers_in(rest, &mut numbers) {
        Ok(()) => Ok(numbers),
        Err(fault) => Err(fault.of_start(line.number)),
    }
}

/// The jobs on the line of a sequence, one at least; or the fault of the line.
#[tactic(auto, unfolding(crate::specs::StartText::sequence_word))]
fn jobs_on(alloc: Global, line: &Solid) -> Result<Vec<u16>, StartFault>
    ensures value { IfOk result (λ jobs. jobs_on line.now.bytes.now ≡ Some jobs.items) }
    ensures refused { IfErr result (λ fault. IsOfLine (jobs_on line.now.bytes.now) line.now.number fault) }
{
    let numbers = numbers_behind(alloc, SEQUENCE, line)?;
    if numbers.is_empty() {
        return Err(StartFault::Line(line.number));
    }
    let mut jobs = Vec::new(alloc);
    for number in numbers.as_slice() {
        if *number > MAX_JOB_NUMBER {
            return Err(StartFault::Line(line.number));
        }
        jobs.push(*number as u16)?;
    }
    Ok(jobs)
}

/// The makespan on a line; or the fault of the line.
#[tactic(auto, unfolding(crate::specs::StartText::makespan_word))]
fn makespan_on(alloc: Global, line: &Solid) -> Result<u32, StartFault>
    ensures value { IfOk result (λ makespan. makespan_on line.now.bytes.now ≡ Some makespan) }
    ensures refused { IfErr result (λ fault. IsOfLine (makespan_on line.now.bytes.now) line.now.number fault) }
{
    let numbers = numbers_behind(alloc, MAKESPAN, line)?;
    match numbers.as_slice() {
        [makespan] => Ok(*makespan),
        _ => Err(StartFault::Line(line.number)),
    }
}

/// The makespan in a text behind the line of a sequence, where the text has lines that are not blank; or the first
/// fault. The first line of the text has this number.
fn claim_in(alloc: Global, text: &[u8], from: usize) -> Result<Option<Claim>, StartFault>
    requires { from + length text.now ≤ 2 ^ 63 }
    ensures value { IfOk result (λ claim. claim_of (solid_lines from (lines_of text.now)) ≡ Ok claim) }
    ensures refused { IfErr result (λ fault. fault ≢ Memory →
        claim_of (solid_lines from (lines_of text.now)) ≡ Err fault) }
{
    let Ok(line) = first_solid_line(text, from) else {
        return Ok(None);
    };
    let makespan = makespan_on(alloc, &line)?;
    match first_solid_line(line.rest, line.number + 1) {
        Ok(other) => Err(StartFault::Line(other.number)),
        Err(_) => Ok(Some(Claim {
            makespan,
            line: line.number,
        })),
    }
}

/// What a text says as a start; or its first fault; or `Memory`.
pub fn read_start(alloc: Global, text: &[u8]) -> Result<Start, StartFault>
    ensures value { IfOk result (λ start.
        IsStart text.now (record { jobs = start.jobs.items; claim = start.claim })) }
    ensures refused { IfErr result (λ fault. fault ≢ Memory → HasStartFault text.now fault) }
{
    match first_solid_line(text, 1) {
        Ok(line) => {
            let jobs = jobs_on(alloc, &line)?;
            let claim = claim_in(alloc, line.rest, line.number + 1)?;
            Ok(Start { jobs, claim })
        }
        Err(number) => Err(StartFault::Line(number)),
    }
}
