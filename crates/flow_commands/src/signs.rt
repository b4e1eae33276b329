//! The command `signs`.

ghost use Rattle.std.specs.Prelude.{◌≡◌, ◌⊎◌, Err, IfOk, IfErr};
ghost use Rattle.flow_commands.specs.Output.{OfBytes};
ghost use Rattle.flow_commands.specs.Signs.{AnswersSigns};
ghost use Rattle.flow_commands.specs.internal.Devices.{NamesNoDevice};
ghost use Rattle.flow_commands.specs.internal.Found.{SignsOf};

use crate::block::PickedBlock;
use crate::command::Command;
use crate::files::bytes_in;
use crate::refusals::CommandFault;
use flow_cert::write_two_ended;
use flow_check::{Shown, TextKind, check_text_by};
use flow_core::{Instance, Sink};
use flow_directions::{Alone, Found, prove};
use flow_requests::SecondFile;
use std::alloc::Global;

/// The most signs of a two-ended certificate that is written.
const MOST_SIGNS: u64 = 999_990_000;

/// What a counted certificate shows, and the directions that the search below its lower bound writes; or its first
/// fault, where it may state no more nodes than signs are written.
fn signs_of(
    alloc: Global,
    instance: &Instance,
    bytes: &[u8],
) -> Result<(Shown, Vec<u8>), CommandFault>
    ensures signs { IfOk result (λ found. SignsOf instance.now bytes.now found.0 found.1.items) }
    ensures refused { IfErr result (λ fault. (fault ≡ CommandFault.Memory)
        ⊎ AnswersSigns instance.now bytes.now (Err fault)) }
    ensures device { NamesNoDevice result }
{
    let kind = TextKind::Counted;
    let shown = check_text_by(alloc, &Alone, MOST_SIGNS, kind, instance, bytes)?;
    // Two empty lists are a node, so a fault is that memory ran out.
    let Ok(found) = prove(alloc, instance, &[], &[], shown.bounds.lower, MOST_SIGNS) else {
        return Err(CommandFault::Memory);
    };
    let Found::Proved(directions) = found else {
        unreachable!()
    };
    Ok((shown, directions))
}

/// Writes the two-ended certificate of a counted one: the same bounds and the same sequence, with a sign for each
/// direction.
#[derive(Drop)]
pub(crate) struct Signs;

impl Command for Signs {
    ghost is_ready = { λ _. Unit {0} };

    ghost answers = { λ _. OfBytes (λ origin. AnswersSigns origin.block.instance) };

    fn respond<K: Sink>(
        &self,
        alloc: Global,
        picked: PickedBlock,
        second: SecondFile<Vec<u8>>,
        out: &mut K,
    ) -> Result<(), CommandFault> {
        let instance = &picked.block.instance;
        let (shown, directions) = signs_of(alloc, instance, bytes_in(&second))?;
        let Shown { bounds, sequence } = shown;
        write_two_ended(instance, bounds, &sequence, directions.as_slice(), out)?;
        Ok(())
    }
}
