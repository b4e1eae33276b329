//! The generator of random instances.

ghost use Rattle.std.specs.Prelude.{◌≡◌, ◌⊎◌, ◌*◌, None, IfOk, OnOk, IfErr, length, take, drop};
ghost use Rattle.flow_generator.specs.Generator.{generated, generator_fault};
ghost use Rattle.flow_c.specs.Statuses.{number, done, memory};
ghost use Rattle.flow_c.specs.Faults.{generate_fault, IsFaultOf, Reports};

use crate::fault::Fault;
use crate::outcome::Outcome;
use crate::room::{fill, need};
use flow_generator::generate;
use std::alloc::Global;

/// The times of the instance of a seed, where there is room for them.
fn times_of_seed(
    alloc: Global,
    jobs: u32,
    machines: u32,
    seed: u32,
    entries: usize,
) -> Result<Vec<u32>, Fault>
    ensures times { IfOk result (λ times. times.items ≡ (generated jobs machines seed).times) }
    ensures count { IfOk result (λ times. length times.items ≡ jobs * machines) }
    ensures accepted { OnOk result (generate_fault jobs machines seed entries ≡ None) }
    ensures refused { IfErr result (IsFaultOf (generate_fault jobs machines seed entries)) }
    ensures memory { IfErr result (λ fault. number fault ≡ memory → generator_fault jobs machines seed ≡ None) }
{
    let instance = generate(alloc, jobs, machines, seed)?;
    need(
        usize::from(instance.jobs()) * usize::from(instance.machines()),
        entries,
    )?;
    Ok(instance.times(alloc)?)
}

/// The instance of a seed, by Taillard's generator, with times from 1 to 99. The first entries of `times` become the
/// times, machine by machine.
#[unsafe(no_mangle)]
pub extern "C" fn flowshop_generate(
    alloc: Global,
    jobs: u32,
    machines: u32,
    seed: u32,
    times: &mut [u32],
) -> Outcome
    ensures status { Reports (generate_fault jobs machines seed (length times.old)) result }
    ensures memory { result.status ≡ memory → generator_fault jobs machines seed ≡ None }
    ensures times { result.status ≡ done → take (jobs * machines) times.new ≡ (generated jobs machines seed).times }
    ensures rest { drop (jobs * machines) times.new ≡ drop (jobs * machines) times.old }
    ensures stays { result.status ≡ done → result.place ≡ 0 }
    ensures kept { (result.status ≡ done) ⊎ (times.new ≡ times.old) }
{
    match times_of_seed(alloc, jobs, machines, seed, times.len()) {
        Ok(drawn) => {
            fill(drawn.as_slice(), times);
            Outcome::done()
        }
        Err(fault) => Outcome::refused(fault),
    }
}
