//! How each kind of line is read, and which fault it has.

ghost use Rattle.std.specs.Prelude.{◌≡◌, ◌++◌, true, false, length, MatchOption};
ghost use Rattle.flow_text.specs.TextFaults.{is_head, are_times};
ghost use Rattle.flow_text.specs.internal.TextWalk.{after_label, after_head_numbers, after_times};
ghost use Rattle.flow_text.specs.internal.TextState.{state_of, start};
ghost use Rattle.flow_text.specs.internal.TextWalk.{after_numbers, after_line, at_end};
ghost use Rattle.flow_text.specs.internal.TextState.{sizes_of, sizes, SizesFit};
ghost use Rattle.flow_text.specs.internal.TextWalk.{Gives};
ghost use Rattle.flow_text.specs.internal.TextState.{Keeps};

use crate::text::block::Block;
use crate::text::fault::{LineFault, TextFault};
use crate::text::line::{numbers_in, without_blanks};
use crate::text::progress::{Head, Progress, Want};
use flow_limits::{MAX_TIME, may_have_jobs, may_have_machines};
use flow_shop::Instance;
use std::alloc::Global;

/// The progress before the first line.
pub(crate) fn begin(alloc: Global) -> Progress
    ensures { state_of result ≡ start }
{
    Progress {
        want: Want::FirstLabel,
        numbers: Vec::new(alloc),
        head: Head {
            jobs: 1,
            machines: 1,
            seed: 0,
            upper: 0,
            lower: 0,
        },
        blocks: Vec::new(alloc),
    }
}

/// The head of five numbers; `None` where it is not within the limits.
fn head_of(numbers: &[u32]) -> Option<Head>
    requires { length numbers.now ≡ 5 }
    ensures { MatchOption result (is_head numbers.now ≡ false) (λ head. (is_head numbers.now ≡ true)
        × (sizes head ≡ sizes_of numbers.now)) }
{
    let jobs = numbers[0];
    let machines = numbers[1];
    if may_have_jobs(jobs) && may_have_machines(machines) {
        Some(Head {
            jobs: jobs as u16,
            machines: machines as u16,
            seed: numbers[2],
            upper: numbers[3],
            lower: numbers[4],
        })
    } else {
        None
    }
}

/// Takes a label line in; or returns the line's fault.
#[tactic(auto, unfolding(crate::specs::internal::TextWalk::after_label))]
fn take_label(progress: &mut Progress) -> Result<(), LineFault>
    ensures { Gives LineFault.Memory (λ _. state_of progress.new) result (after_label (state_of progress.old)) }
{
    match progress.want {
        Want::FirstLabel => {
            progress.want = Want::HeadNumbers;
            progress.numbers.clear();
            Ok(())
        }
        Want::HeadNumbers => Err(LineFault::Head),
        Want::SecondLabel => {
            progress.want = Want::Times;
            progress.numbers.clear();
            Ok(())
        }
        Want::Times => Err(LineFault::Times),
    }
}

/// Takes more numbers of a head in; or returns the fault of their line.
#[tactic(auto, unfolding(crate::specs::internal::TextWalk::after_head_numbers))]
fn take_head_numbers(progress: &mut Progress, new: &[u32]) -> Result<(), LineFault>
    ensures { Gives LineFault.Memory (λ _. state_of progress.new) result
        (after_head_numbers (state_of progress.old) (progress.old.numbers.items ++ new.now)) }
{
    progress.numbers.extend_from_slice(new)?;
    let count = progress.numbers.len();
    if count > 5 {
        return Err(LineFault::Head);
    }
    if count < 5 {
        return Ok(());
    }
    match head_of(progress.numbers.as_slice()) {
        Some(head) => {
            progress.want = Want::SecondLabel;
            progress.head = head;
            progress.numbers.clear();
            Ok(())
        }
        None => Err(LineFault::Limits),
    }
}

/// Whether each time is within the limit.
fn are_within_limit(times: &[u32]) -> bool
    ensures { result ≡ are_times times.now }
{
    times.iter().all(|time| *time <= MAX_TIME)
}

/// Takes more times of a block in; or returns the fault of their line.
#[tactic(auto, unfolding(crate::specs::internal::TextWalk::after_times))]
fn take_times(alloc: Global, progress: &mut Progress, new: &[u32]) -> Result<(), LineFault>
    requires head { SizesFit (sizes progress.old.head) }
    requires times { are_times progress.old.numbers.items ≡ true }
    ensures { Gives LineFault.Memory (λ _. state_of progress.new) result
        (after_times (state_of progress.old) new.now (progress.old.numbers.items ++ new.now)) }
{
    let head = progress.head;
    let wanted = head.jobs as usize * head.machines as usize;
    progress.numbers.extend_from_slice(new)?;
    let count = progress.numbers.len();
    if count > wanted {
        return Err(LineFault::Times);
    }
    if !are_within_limit(new) {
        return Err(LineFault::Limits);
    }
    if count < wanted {
        return Ok(());
    }
    let times = progress.numbers.as_slice();
    progress.blocks.push(Block {
        seed: head.seed,
        upper: head.upper,
        lower: head.lower,
        instance: Instance::from_times(alloc, head.jobs, head.machines, times)?,
    })?;
    progress.numbers.clear();
    progress.want = Want::FirstLabel;
    Ok(())
}

/// Takes a number line in; or returns the line's fault. `numbers` is a buffer for the line's numbers.
#[tactic(auto, unfolding(crate::specs::internal::TextWalk::after_numbers))]
fn take_numbers(
    alloc: Global,
    progress: &mut Progress,
    line: &[u8],
    numbers: &mut Vec<u32>,
) -> Result<(), LineFault>
    requires { Keeps (state_of progress.old) }
    ensures { Gives LineFault.Memory (λ _. state_of progress.new) result
        (after_numbers (state_of progress.old) line.now) }
{
    match progress.want {
        Want::FirstLabel => Err(LineFault::Label),
        Want::HeadNumbers => {
            numbers_in(line, numbers)?;
            take_head_numbers(progress, numbers.as_slice())
        }
        Want::SecondLabel => Err(LineFault::Label),
        Want::Times => {
            numbers_in(line, numbers)?;
            take_times(alloc, progress, numbers.as_slice())
        }
    }
}

/// Takes a line in; or returns its fault. `numbers` is a buffer for the line's numbers.
#[tactic(auto, unfolding(crate::specs::internal::TextWalk::after_line))]
pub(crate) fn take_line(
    alloc: Global,
    progress: &mut Progress,
    line: &[u8],
    numbers: &mut Vec<u32>,
) -> Result<(), LineFault>
    requires { Keeps (state_of progress.old) }
    ensures { Gives LineFault.Memory (λ _. state_of progress.new) result (after_line (state_of progress.old) line.now) }
{
    match without_blanks(line).first() {
        None => Ok(()),
        Some(byte) => {
            if byte.is_ascii_digit() {
                take_numbers(alloc, progress, line, numbers)
            } else {
                take_label(progress)
            }
        }
    }
}

/// The blocks, if the text may end here; else what is missing. `line` is the number of lines plus 1.
#[tactic(auto, unfolding(crate::specs::internal::TextWalk::at_end))]
pub(crate) fn finish(progress: Progress, line: usize) -> Result<Vec<Block>, TextFault>
    ensures { Gives TextFault.Memory (λ blocks. blocks.items) result (at_end (state_of progress) line) }
{
    match progress.want {
        Want::FirstLabel => {
            if progress.blocks.is_empty() {
                return Err(TextFault::NoBlock);
            }
            Ok(progress.blocks)
        }
        Want::HeadNumbers => Err(TextFault::Head(line)),
        Want::SecondLabel => Err(TextFault::Label(line)),
        Want::Times => Err(TextFault::Times(line)),
    }
}
