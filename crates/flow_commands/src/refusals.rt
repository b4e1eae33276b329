//! Why a command refused, and the words of the line that says so.

ghost use Rattle.std.specs.Prelude.{◌≡◌};
ghost use Rattle.flow_core.specs.declared.bytes.fault.ReadFault.TheVariants as read;
ghost use Rattle.flow_core.specs.declared.text.fault.TextFault.TheVariants as text;
ghost use Rattle.flow_core.specs.declared.text.pick.PickFault.TheVariants as pick;
ghost use Rattle.flow_core.specs.declared.text.start.StartFault.TheVariants as start;
ghost use Rattle.flow_core.specs.declared.sequence.SequenceFault.TheVariants as sequence;
ghost use Rattle.flow_core.specs.declared.instance.InstanceFault.TheVariants as instance;
ghost use Rattle.flow_search.specs.declared.plan.PlanFault.TheVariants as plan;
ghost use Rattle.flow_pool.specs.declared.run.solve.SolveFault.TheVariants as solve;
ghost use Rattle.flow_check.specs.declared.fault.CheckFault.TheVariants as check;
ghost use Rattle.flow_commands.specs.declared.refusals.CommandFault.TheVariants.{Memory, Read, Text, Index, Start};
ghost use Rattle.flow_commands.specs.declared.refusals.CommandFault.TheVariants.{Sequence, Instance, Improve, Choice};
ghost use Rattle.flow_commands.specs.declared.refusals.CommandFault.TheVariants.{Plan, Run, Certificate, Write};

use flow_check::CheckFault;
use flow_core::{
    InstanceFault, PickFault, ReadFault, SequenceFault, StartFault, TextFault, WriteFault,
};
use flow_improve::EffortFault;
use flow_pool::SolveFault;
use flow_search::{OptionFault, PlanFault};
use std::alloc::AllocError;
use thiserror::Error;

/// Why a command refused; its text is the line on standard error. A second file is read after text and index.
#[derive(Clone, Copy, Debug, PartialEq, Eq, Error)]
pub enum CommandFault {
    /// Memory ran out, in whatever layer.
    #[error("refused memory")]
    Memory,
    /// A source refused, or gave more bytes than its limit.
    #[error("failed read {0}")]
    Read(ReadFault),
    /// The text has no reading.
    #[error("refused text {0}")]
    Text(TextFault),
    /// The text has no block of this number.
    #[error("refused index")]
    Index,
    /// The text is no start, or the jobs of a start have another makespan than the text says; at this line.
    #[error("refused start {0}")]
    Start(StartFault),
    /// The jobs are no sequence of the instance.
    #[error("refused sequence {0}")]
    Sequence(SequenceFault),
    /// No instance is generated.
    #[error("refused instance {0}")]
    Instance(InstanceFault),
    /// The numbers of an improvement are refused.
    #[error("refused option {0}")]
    Improve(EffortFault),
    /// The directions of a proof are not from 1 to 1,000,000,000,000,000.
    #[error("refused option Directions: 1 to 1000000000000000")]
    Directions,
    /// The directions of a proof that is to have signs are not from 1 to 1,000,000,000.
    #[error("refused option Directions: 1 to 1000000000 with --proof signs")]
    SignedDirections,
    /// The workers of `certify` are not from 1 to 64.
    #[error("refused option Workers")]
    Workers,
    /// The numbers are no options.
    #[error("refused option {0}")]
    Choice(OptionFault),
    /// The instance and the options have no plan.
    #[error("refused plan {0}")]
    Plan(PlanFault),
    /// A worker could not be started, or a tree is longer than the budget.
    #[error("refused run {0}")]
    Run(SolveFault),
    /// The bytes are no lawful text of their kind, of the instance.
    #[error("refused certificate {0}")]
    Certificate(CheckFault),
    /// The bytes prove bounds that are not one number, and a least makespan was asked for.
    #[error("refused bounds {lower} {upper}")]
    Bounds {
        /// No sequence has a makespan below it.
        lower: u64,
        /// A sequence has this makespan.
        upper: u64,
    },
    /// The sink refused.
    #[error("failed write {0}")]
    Write(WriteFault),
}

/// The fault of a command, under the name of the program's faults.
pub type ToolFault = CommandFault;

impl From<AllocError> for CommandFault {
    ghost from_gives = { λ _ given. given ≡ Memory };

    fn from(_error: AllocError) -> CommandFault {
        CommandFault::Memory
    }
}

impl From<ReadFault> for CommandFault {
    ghost from_gives = { λ fault given. given ≡ (elim fault [ read.Memory ↦ Memory | other ↦ Read other ]) };

    fn from(fault: ReadFault) -> CommandFault {
        match fault {
            ReadFault::Memory => CommandFault::Memory,
            _ => CommandFault::Read(fault),
        }
    }
}

impl From<PickFault> for CommandFault {
    ghost from_gives = { λ fault given. given ≡ (elim fault
        [ pick.Text text.Memory ↦ Memory | pick.Text other ↦ Text other | pick.Index count ↦ Index ]) };

    fn from(fault: PickFault) -> CommandFault {
        match fault {
            PickFault::Text(TextFault::Memory) => CommandFault::Memory,
            PickFault::Text(other) => CommandFault::Text(other),
            PickFault::Index(_) => CommandFault::Index,
        }
    }
}

impl From<StartFault> for CommandFault {
    ghost from_gives = { λ fault given. given ≡ (elim fault [ start.Memory ↦ Memory | other ↦ Start other ]) };

    fn from(fault: StartFault) -> CommandFault {
        match fault {
            StartFault::Memory => CommandFault::Memory,
            _ => CommandFault::Start(fault),
        }
    }
}

impl From<SequenceFault> for CommandFault {
    ghost from_gives = { λ fault given. given ≡ (elim fault [ sequence.Memory ↦ Memory | other ↦ Sequence other ]) };

    fn from(fault: SequenceFault) -> CommandFault {
        match fault {
            SequenceFault::Memory => CommandFault::Memory,
            _ => CommandFault::Sequence(fault),
        }
    }
}

impl From<InstanceFault> for CommandFault {
    ghost from_gives = { λ fault given. given ≡ (elim fault [ instance.Memory ↦ Memory | other ↦ Instance other ]) };

    fn from(fault: InstanceFault) -> CommandFault {
        match fault {
            InstanceFault::Memory => CommandFault::Memory,
            _ => CommandFault::Instance(fault),
        }
    }
}

impl From<EffortFault> for CommandFault {
    ghost from_gives = { λ fault given. given ≡ Improve fault };

    fn from(fault: EffortFault) -> CommandFault {
        CommandFault::Improve(fault)
    }
}

impl From<OptionFault> for CommandFault {
    ghost from_gives = { λ fault given. given ≡ Choice fault };

    fn from(fault: OptionFault) -> CommandFault {
        CommandFault::Choice(fault)
    }
}

impl From<PlanFault> for CommandFault {
    ghost from_gives = { λ fault given. given ≡ (elim fault [ plan.Memory ↦ Memory | other ↦ Plan other ]) };

    fn from(fault: PlanFault) -> CommandFault {
        match fault {
            PlanFault::Memory => CommandFault::Memory,
            _ => CommandFault::Plan(fault),
        }
    }
}

impl From<SolveFault> for CommandFault {
    ghost from_gives = { λ fault given. given ≡ (elim fault [ solve.Memory ↦ Memory | other ↦ Run other ]) };

    fn from(fault: SolveFault) -> CommandFault {
        match fault {
            SolveFault::Memory => CommandFault::Memory,
            _ => CommandFault::Run(fault),
        }
    }
}

impl From<CheckFault> for CommandFault {
    ghost from_gives = { λ fault given. given ≡ (elim fault [ check.Memory ↦ Memory | other ↦ Certificate other ]) };

    fn from(fault: CheckFault) -> CommandFault {
        match fault {
            CheckFault::Memory => CommandFault::Memory,
            _ => CommandFault::Certificate(fault),
        }
    }
}

impl From<WriteFault> for CommandFault {
    ghost from_gives = { λ fault given. given ≡ Write fault };

    fn from(fault: WriteFault) -> CommandFault {
        CommandFault::Write(fault)
    }
}
