//! Taillard's generator of random numbers and instances.

ghost use Rattle.std.specs.Prelude.{◌≡◌, ℕ, ◌+◌, ◌<◌, ◌≤◌, None, IfOk, OnOk, IfErr};
ghost use Rattle.std.specs.Option.{SomeIff};
ghost use Rattle.flow_generator.specs.Generator.{modulus, state_after, drawn, generated, generator_fault};
ghost use Rattle.flow_shop.specs.InstanceFaults.{but_memory};

use flow_limits::may_be_seed;
use flow_shop::{Instance, InstanceFault, size_fault};
use std::alloc::Global;
use std::marker::Model;

const MULTIPLIER: u32 = 16_807;

const MODULUS: u32 = 2_147_483_647;

/// The modulus divided by the multiplier, rounded down.
const QUOTIENT: u32 = 127_773;

/// The remainder of that division.
const REMAINDER: u32 = 2_836;

const LEAST_TIME: u32 = 1;

const GREATEST_TIME: u32 = 99;

/// Taillard's random numbers; the view is the state.
#[derive(Debug, Drop)]
pub struct Taillard {
    state: u32,
}

impl Model for Taillard {
    ghost use Rattle.std.specs.Prelude.{ℕ, ◌<◌};
    ghost use Rattle.flow_generator.specs.Generator.{modulus};

    ghost Value = { ℕ };

    ghost view = { λ g. g.state };

    ghost invariant = { λ g. g.state < modulus };
}

impl Taillard {
    /// The generator whose first state is the seed; `None` for a seed that is not in `1..=2147483646`.
    pub fn new(seed: u32) -> Option<Taillard>
        ensures { SomeIff result ((1 ≤ seed) × (seed < modulus)) seed }
    {
        if may_be_seed(seed) {
            Some(Taillard { state: seed })
        } else {
            None
        }
    }

    /// The state, below 2147483647.
    pub fn state(&self) -> u32
        ensures value { result ≡ self.now }
        ensures small { result < modulus }
    {
        self.state
    }

    /// Makes one step, and returns the number from `low` to `high` that the new state stands for.
    pub fn next(&mut self, low: u32, high: u32) -> u32
        requires { low ≤ high }
        // For every seed, and every number of steps before this one.
        ensures state { (seed steps : ℕ) → self.old ≡ state_after seed steps → self.new ≡ state_after seed (steps + 1) }
        ensures number { result ≡ drawn low high self.new }
        ensures range { (low ≤ result) × (result ≤ high) }
    {
        self.step();
        let width = u64::from(high - low) + 1;
        low + (u64::from(self.state) * width / u64::from(MODULUS)) as u32
    }

    /// Multiplies the state by the multiplier, modulo the modulus (Schrage's method). No product needs more than 32
    /// bits.
    fn step(&mut self)
        ensures { self.new ≡ state_after self.old 1 }
    {
        let up = MULTIPLIER * (self.state % QUOTIENT);
        let down = REMAINDER * (self.state / QUOTIENT);
        self.state = if up < down {
            up + MODULUS - down
        } else {
            up - down
        };
    }
}

/// The instance of a seed, with times from 1 to 99; or `Jobs`, `Machines`, `Seed` or `Memory`, tested in this order.
pub fn generate(
    alloc: Global,
    jobs: u32,
    machines: u32,
    seed: u32,
) -> Result<Instance, InstanceFault>
    ensures value { IfOk result (λ instance. instance ≡ generated jobs machines seed) }
    ensures accepted { OnOk result (generator_fault jobs machines seed ≡ None) }
    ensures refused { IfErr result (λ fault. generator_fault jobs machines seed ≡ but_memory fault) }
{
    if let Some(fault) = size_fault(jobs, machines) {
        return Err(fault);
    }
    let Some(mut generator) = Taillard::new(seed) else {
        return Err(InstanceFault::Seed);
    };
    let count = jobs as usize * machines as usize;
    let mut times = Vec::with_capacity(alloc, count)?;
    for _ in 0..count {
        times.push_reserved(generator.next(LEAST_TIME, GREATEST_TIME));
    }
    let times = times.as_slice();
    Ok(Instance::from_times(alloc, jobs as u16, machines as u16, times)?)
}
