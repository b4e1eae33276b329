//! The instances of tables of tests.

use crate::instances::{three_machines, two_machines};
use flow_core::{Instance, InstanceFault, generate};
use std::alloc::Global;

/// An instance of a table.
#[derive(Clone, Copy)]
pub enum Shop {
    /// The instance with three machines.
    Three,
    /// The instance with two machines.
    Two,
    /// Jobs, machines, and the times machine by machine.
    Times(u32, u32, &'static [u32]),
    /// Jobs, machines, and the seed of the times.
    Seed(u32, u32, u32),
}

/// Makes an instance of a table.
pub fn made(alloc: Global, shop: Shop) -> Result<Instance, InstanceFault> {
    match shop {
        Shop::Three => three_machines(alloc),
        Shop::Two => two_machines(alloc),
        Shop::Times(jobs, machines, times) => Instance::new(alloc, jobs, machines, times),
        Shop::Seed(jobs, machines, seed) => generate(alloc, jobs, machines, seed),
    }
}
