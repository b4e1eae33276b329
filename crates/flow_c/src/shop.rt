//! The numbers of a shop, as a caller lends them.

ghost use Rattle.std.specs.Prelude.{◌≡◌, IfOk, OnOk, IfErr, None};
ghost use Rattle.flow_shop.specs.InstanceFaults.{but_memory};
ghost use Rattle.flow_c.specs.Faults.{numbers_fault, shop_of};

use flow_shop::{Instance, InstanceFault};
use std::alloc::Global;

/// The numbers of a shop.
#[repr(C)]
pub struct ShopNumbers<'a> {
    /// How many jobs there are.
    pub jobs: u32,
    /// How many machines there are.
    pub machines: u32,
    /// The times, machine by machine.
    pub times: &'a [u32],
}

impl ShopNumbers<'_> {
    /// The instance of the numbers.
    pub(crate) fn instance(&self, alloc: Global) -> Result<Instance, InstanceFault>
        ensures value { IfOk result (λ instance. instance ≡ shop_of self.now) }
        ensures accepted { OnOk result (numbers_fault self.now ≡ None) }
        ensures refused { IfErr result (λ fault. numbers_fault self.now ≡ but_memory fault) }
    {
        Instance::new(alloc, self.jobs, self.machines, self.times)
    }
}
