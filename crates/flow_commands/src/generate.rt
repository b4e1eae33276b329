//! The command `gen`.

ghost use Rattle.std.specs.Prelude.{◌≡◌, false, IfOk};
ghost use Rattle.flow_commands.specs.Generate.{AnswersGen, IsGeneratedText};
ghost use Rattle.flow_commands.specs.Runs.{Responds, sink_run};

use crate::refusals::CommandFault;
use flow_bound::{neh, taillard_bound};
use flow_core::{Block, Instance, Sink, block_text, generate, put_all};
use std::alloc::{AllocError, Global};

/// The text of an instance with its bounds.
fn generated_text(alloc: Global, seed: u32, instance: Instance) -> Result<Vec<u8>, AllocError>
    ensures { IfOk result (λ text. IsGeneratedText seed instance text.items) }
{
    let upper = neh(alloc, &instance)?.1 as u32;
    let lower = taillard_bound(&instance) as u32;
    let block = Block {
        seed,
        upper,
        lower,
        instance,
    };
    block_text(alloc, &block)
}

/// Writes the instance of a seed as one block, with its bounds.
pub fn run_gen<K: Sink>(
    alloc: Global,
    jobs: u32,
    machines: u32,
    seed: u32,
    out: &mut K,
) -> Result<(), CommandFault>
    requires { K.has_failed out.old ≡ false }
    ensures { Responds (AnswersGen jobs machines seed) (sink_run K.Sink out.old out.new) result }
{
    let instance = generate(alloc, jobs, machines, seed)?;
    let text = generated_text(alloc, seed, instance)?;
    put_all(out, text.as_slice())?;
    Ok(())
}
