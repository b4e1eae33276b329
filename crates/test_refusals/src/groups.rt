//! The groups of library calls, and what each is made on.

use crate::bounds::{
    aimed_beam_is_searched, beam_is_searched, insertions_are_tried, rounds_of_both_are_made,
    start_is_improved, starting_sequence_is_found,
};
use crate::certificates::{
    certificate_is_written, certificates_are_checked, certified_sequence_is_given,
    two_ended_text_is_checked, two_ended_text_is_written,
};
use crate::instances::{instance_is_generated, instances_are_made, rows_are_made};
use crate::lanes::lane_is_used;
use crate::schedules::{picture_is_made, table_is_made};
use crate::search::{
    bounds_are_found, directions_are_found, outcomes_are_concluded, plan_is_solved,
    plan_starts_as_given, prefixes_are_answered,
};
use crate::texts::{sink_takes_all, source_is_read, start_is_read, text_is_read};
use flow_bound::neh;
use flow_commands::CommandFault;
use flow_core::generate;
use flow_pool::SolveFault;
use std::alloc::Global;
use test_libraries::{three_machines, two_machines};

/// What is returned where memory ran out: that, if all else was as it should be.
pub(crate) fn refused_where(right: bool) -> Result<bool, CommandFault> {
    if right {
        Err(CommandFault::Memory)
    } else {
        Ok(false)
    }
}

/// Whether memory ran out, or a worker could not be started.
pub(crate) fn is_refusal(fault: CommandFault) -> bool {
    matches!(
        fault,
        CommandFault::Memory | CommandFault::Run(SolveFault::Threads)
    )
}

/// A group of library calls.
#[derive(Drop)]
pub(crate) enum Group {
    /// Calls on nothing else.
    Alone(Alone),
    /// Calls on the instance with two machines.
    Two(Two),
    /// Calls on the instance with three machines.
    Three(Three),
    /// Calls on an instance that is generated, and on its starting sequence.
    Start(Start),
}

/// Calls on nothing else.
#[derive(Drop)]
pub(crate) enum Alone {
    Instances,
    Generated,
    StartText,
    Source,
    Sink,
    Lane,
}

/// Calls on the instance with two machines.
#[derive(Drop)]
pub(crate) enum Two {
    Rows,
    Text,
    Table,
}

/// Calls on the instance with three machines.
#[derive(Drop)]
pub(crate) enum Three {
    Starting,
    Insertions,
    Prefixes,
    GivenStart,
    Outcomes,
    Plain,
    Bounds,
    Picture,
    Written,
    WrittenTwoEnded,
    Checked,
    CheckedSequence,
    CheckedTwoEnded,
    Directions,
}

/// Calls on an instance that is generated, and on its starting sequence.
#[derive(Drop)]
pub(crate) enum Start {
    Beam,
    AimedBeam,
    Rounds,
    Improved,
}

/// All groups of library calls, but for those of workers, each with its name.
pub(crate) static GROUPS: [(&str, Group); 27] = [
    (
        "Instance::new, Sequence::new",
        Group::Alone(Alone::Instances),
    ),
    ("generate", Group::Alone(Alone::Generated)),
    ("rows", Group::Two(Two::Rows)),
    ("read_blocks, block_text", Group::Two(Two::Text)),
    ("read_start", Group::Alone(Alone::StartText)),
    ("read_all", Group::Alone(Alone::Source)),
    ("the puts of a sink in memory", Group::Alone(Alone::Sink)),
    ("neh", Group::Three(Three::Starting)),
    ("insertion_spans", Group::Three(Three::Insertions)),
    ("beam", Group::Start(Start::Beam)),
    ("beam_below", Group::Start(Start::AimedBeam)),
    ("rounds_of_both", Group::Start(Start::Rounds)),
    ("improve", Group::Start(Start::Improved)),
    ("prepare, answer", Group::Three(Three::Prefixes)),
    ("prepare_from", Group::Three(Three::GivenStart)),
    ("conclude", Group::Three(Three::Outcomes)),
    ("solve_plain", Group::Three(Three::Plain)),
    ("certify", Group::Three(Three::Bounds)),
    ("timetable, timetable_csv", Group::Two(Two::Table)),
    ("timetable_picture", Group::Three(Three::Picture)),
    ("write_certificate", Group::Three(Three::Written)),
    ("write_two_ended", Group::Three(Three::WrittenTwoEnded)),
    ("check of a text", Group::Three(Three::Checked)),
    (
        "check_sequence of a certificate",
        Group::Three(Three::CheckedSequence),
    ),
    ("check_two_ended", Group::Three(Three::CheckedTwoEnded)),
    ("prove", Group::Three(Three::Directions)),
    ("lane", Group::Alone(Alone::Lane)),
];

impl Group {
    /// Makes the calls, and says whether they returned what they should.
    pub(crate) fn made(&self, alloc: Global) -> Result<bool, CommandFault> {
        match self {
            Group::Alone(calls) => calls.made(alloc),
            Group::Two(calls) => calls.made(alloc),
            Group::Three(calls) => calls.made(alloc),
            Group::Start(calls) => calls.made(alloc),
        }
    }
}

impl Alone {
    /// Makes the calls.
    fn made(&self, alloc: Global) -> Result<bool, CommandFault> {
        match self {
            Alone::Instances => instances_are_made(alloc),
            Alone::Generated => instance_is_generated(alloc),
            Alone::StartText => start_is_read(alloc),
            Alone::Source => source_is_read(alloc),
            Alone::Sink => sink_takes_all(alloc),
            Alone::Lane => lane_is_used(alloc),
        }
    }
}

impl Two {
    /// Makes the calls.
    fn made(&self, alloc: Global) -> Result<bool, CommandFault> {
        let two = two_machines(alloc)?;
        match self {
            Two::Rows => rows_are_made(alloc, &two),
            Two::Text => text_is_read(alloc, &two),
            Two::Table => table_is_made(alloc, &two),
        }
    }
}

impl Three {
    /// Makes the calls.
    fn made(&self, alloc: Global) -> Result<bool, CommandFault> {
        let three = three_machines(alloc)?;
        match self {
            Three::Starting => starting_sequence_is_found(alloc, &three),
            Three::Insertions => insertions_are_tried(alloc, &three),
            Three::Prefixes => prefixes_are_answered(alloc, &three),
            Three::GivenStart => plan_starts_as_given(alloc, &three),
            Three::Outcomes => outcomes_are_concluded(alloc, &three),
            Three::Plain => plan_is_solved(alloc, &three),
            Three::Bounds => bounds_are_found(alloc, &three),
            Three::Picture => picture_is_made(alloc, &three),
            Three::Written => certificate_is_written(alloc, &three),
            Three::WrittenTwoEnded => two_ended_text_is_written(alloc, &three),
            Three::Checked => certificates_are_checked(alloc, &three),
            Three::CheckedSequence => certified_sequence_is_given(alloc, &three),
            Three::CheckedTwoEnded => two_ended_text_is_checked(alloc, &three),
            Three::Directions => directions_are_found(alloc, &three),
        }
    }
}

impl Start {
    /// Makes the calls.
    fn made(&self, alloc: Global) -> Result<bool, CommandFault> {
        let instance = generate(alloc, 3, 4, 1)?;
        let (start, _) = neh(alloc, &instance)?;
        match self {
            Start::Beam => beam_is_searched(alloc, &instance, &start),
            Start::AimedBeam => aimed_beam_is_searched(alloc, &instance, &start),
            Start::Rounds => rounds_of_both_are_made(alloc, &instance, &start),
            Start::Improved => start_is_improved(alloc, &instance, &start),
        }
    }
}
