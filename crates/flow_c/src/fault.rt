//! Why a call refused, and the number of its status, which specs/Statuses.antt defines.

ghost use Rattle.std.specs.Prelude.{◌≡◌};
ghost use Rattle.flow_c.specs.Statuses.{number};
ghost use Rattle.flow_c.specs.Places.{place_of};
ghost use Rattle.flow_c.specs.Statuses as statuses;
ghost use Rattle.flow_c.specs.Places as places;
ghost use Rattle.flow_c.specs.declared.fault.Fault.TheVariants as fault;
ghost use Rattle.flow_text.specs.declared.text.pick.PickFault.TheVariants as pick;

use flow_check::CheckFault;
use flow_improve::EffortFault;
use flow_search::{OptionFault, PlanFault, RunFault};
use flow_shop::{InstanceFault, SequenceFault};
use flow_text::{PickFault, TextFault, WriteFault};
use std::alloc::AllocError;

/// Why a call refused.
#[derive(Clone, Copy, Debug, PartialEq, Eq)]
pub enum Fault {
    /// Memory ran out.
    Memory,
    /// A slice for results is too short; it needs this many entries.
    Room(usize),
    /// The numbers are no instance.
    Instance(InstanceFault),
    /// The jobs are no sequence of the instance.
    Sequence(SequenceFault),
    /// The numbers are no options.
    Choice(OptionFault),
    /// The numbers of an improvement are not within their limits.
    Effort(EffortFault),
    /// The directions are not in `1..=MAX_DIRECTIONS`, or, of a run, not in `1..=MAX_COUNTED_DIRECTIONS`.
    Directions,
    /// What is said of a task is no answer to it.
    NoAnswer,
    /// The instance and the options have no plan.
    Plan(PlanFault),
    /// A tree is longer than the budget.
    Run(RunFault),
    /// The bytes are no lawful text of their kind.
    Certificate(CheckFault),
    /// The bytes are no benchmark text.
    Text(TextFault),
    /// A benchmark text has no block of this index; it has this many blocks.
    Index(usize),
}

impl From<AllocError> for Fault {
    ghost from_gives = { λ _ given. given ≡ fault.Memory };

    fn from(_error: AllocError) -> Fault {
        Fault::Memory
    }
}

// The sinks of this crate are in memory, so a refusal is a growth that was refused.
impl From<WriteFault> for Fault {
    ghost from_gives = { λ _ given. given ≡ fault.Memory };

    fn from(_error: WriteFault) -> Fault {
        Fault::Memory
    }
}

impl From<InstanceFault> for Fault {
    ghost from_gives = { λ own given. given ≡ fault.Instance own };

    fn from(fault: InstanceFault) -> Fault {
        Fault::Instance(fault)
    }
}

impl From<SequenceFault> for Fault {
    ghost from_gives = { λ own given. given ≡ fault.Sequence own };

    fn from(fault: SequenceFault) -> Fault {
        Fault::Sequence(fault)
    }
}

impl From<OptionFault> for Fault {
    ghost from_gives = { λ own given. given ≡ fault.Choice own };

    fn from(fault: OptionFault) -> Fault {
        Fault::Choice(fault)
    }
}

impl From<EffortFault> for Fault {
    ghost from_gives = { λ own given. given ≡ fault.Effort own };

    fn from(fault: EffortFault) -> Fault {
        Fault::Effort(fault)
    }
}

impl From<PlanFault> for Fault {
    ghost from_gives = { λ own given. given ≡ fault.Plan own };

    fn from(fault: PlanFault) -> Fault {
        Fault::Plan(fault)
    }
}

impl From<RunFault> for Fault {
    ghost from_gives = { λ own given. given ≡ fault.Run own };

    fn from(fault: RunFault) -> Fault {
        Fault::Run(fault)
    }
}

impl From<CheckFault> for Fault {
    ghost from_gives = { λ own given. given ≡ fault.Certificate own };

    fn from(fault: CheckFault) -> Fault {
        Fault::Certificate(fault)
    }
}

impl From<PickFault> for Fault {
    ghost from_gives = { λ own given.
        given ≡ (elim own [ pick.Text text ↦ fault.Text text | pick.Index count ↦ fault.Index count ]) };

    fn from(fault: PickFault) -> Fault {
        match fault {
            PickFault::Text(fault) => Fault::Text(fault),
            PickFault::Index(count) => Fault::Index(count),
        }
    }
}

/// The number of a fault of an instance, and its place.
fn of_instance(fault: InstanceFault) -> (u32, usize)
    ensures { result ≡ record { 0 = statuses.of_instance fault; 1 = places.place_of_instance fault } }
{
    match fault {
        InstanceFault::Memory => (1, 0),
        InstanceFault::Jobs => (10, 0),
        InstanceFault::Machines => (11, 0),
        InstanceFault::Count => (12, 0),
        InstanceFault::Time(place) => (13, place),
        InstanceFault::Seed => (14, 0),
    }
}

/// The number of a fault of a sequence, and its place.
fn of_sequence(fault: SequenceFault) -> (u32, usize)
    ensures { result ≡ record { 0 = statuses.of_sequence fault; 1 = places.place_of_sequence fault } }
{
    match fault {
        SequenceFault::Memory => (1, 0),
        SequenceFault::Length => (20, 0),
        SequenceFault::Job(place) => (21, place),
        SequenceFault::Twice(place) => (22, place),
    }
}

/// The number of a fault of options.
fn of_choice(fault: OptionFault) -> u32
    ensures { result ≡ statuses.of_choice fault }
{
    match fault {
        OptionFault::Workers => 30,
        OptionFault::Depth => 31,
        OptionFault::Budget => 32,
        OptionFault::Version => 33,
    }
}

/// The number of a fault of the numbers of an improvement.
fn of_effort(fault: EffortFault) -> u32
    ensures { result ≡ statuses.of_effort fault }
{
    match fault {
        EffortFault::Seed => 14,
        EffortFault::Width => 34,
        EffortFault::Rounds => 35,
        EffortFault::Work => 36,
    }
}

/// The number of a fault of a plan.
fn of_plan(fault: PlanFault) -> u32
    ensures { result ≡ statuses.of_plan fault }
{
    match fault {
        PlanFault::Memory => 1,
        PlanFault::Depth => 40,
        PlanFault::Prefixes => 41,
    }
}

/// The number of a fault of a run, and its place.
fn of_run(fault: RunFault) -> (u32, usize)
    ensures { result ≡ record { 0 = statuses.of_run fault; 1 = places.place_of_run fault } }
{
    match fault {
        RunFault::Memory => (1, 0),
        RunFault::OverBudget(number) => (50, number as usize),
    }
}

/// The number of a fault of a certificate, and its line.
fn of_check(fault: CheckFault) -> (u32, usize)
    ensures { result ≡ record { 0 = statuses.of_check fault; 1 = places.place_of_check fault } }
{
    match fault {
        CheckFault::Memory => (1, 0),
        CheckFault::Header => (60, 0),
        CheckFault::Size => (61, 0),
        CheckFault::Value => (62, 0),
        CheckFault::Sequence => (63, 0),
        CheckFault::NotAttained => (64, 0),
        CheckFault::Tree(line) => (65, line),
        CheckFault::Weak(line) => (66, line),
        CheckFault::Low(line) => (67, line),
        CheckFault::End => (68, 0),
        CheckFault::Most => (69, 0),
    }
}

/// The number of a fault of a benchmark text, and its line.
fn of_text(fault: TextFault) -> (u32, usize)
    ensures { result ≡ record { 0 = statuses.of_text fault; 1 = places.place_of_text fault } }
{
    match fault {
        TextFault::Memory => (1, 0),
        TextFault::NoBlock => (70, 0),
        TextFault::Label(line) => (71, line),
        TextFault::Byte(line) => (72, line),
        TextFault::Number(line) => (73, line),
        TextFault::Head(line) => (74, line),
        TextFault::Limits(line) => (75, line),
        TextFault::Times(line) => (76, line),
    }
}

impl Fault {
    /// The number of the fault, which is not 0, and its place.
    pub(crate) fn status(self) -> (u32, usize)
        ensures { result ≡ record { 0 = number self; 1 = place_of self } }
    {
        match self {
            Fault::Memory => (1, 0),
            Fault::Room(needed) => (2, needed),
            Fault::Instance(fault) => of_instance(fault),
            Fault::Sequence(fault) => of_sequence(fault),
            Fault::Choice(fault) => (of_choice(fault), 0),
            Fault::Effort(fault) => (of_effort(fault), 0),
            Fault::Directions => (37, 0),
            Fault::NoAnswer => (38, 0),
            Fault::Plan(fault) => (of_plan(fault), 0),
            Fault::Run(fault) => of_run(fault),
            Fault::Certificate(fault) => of_check(fault),
            Fault::Text(fault) => of_text(fault),
            Fault::Index(count) => (77, count),
        }
    }
}
