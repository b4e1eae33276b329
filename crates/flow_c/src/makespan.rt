//! The makespan of a sequence.

ghost use Rattle.std.specs.Prelude.{◌≡◌, ◌⊎◌, None, IfOk, OnOk, IfErr};
ghost use Rattle.flow_shop.specs.Paths.{span};
ghost use Rattle.flow_c.specs.Statuses.{number, done, memory};
ghost use Rattle.flow_c.specs.Faults.{shop_of, numbers_fault, makespan_fault, IsFaultOf, Reports};

use crate::fault::Fault;
use crate::outcome::Outcome;
use crate::shop::ShopNumbers;
use flow_shop::{Sequence, makespan};
use std::alloc::Global;

/// The makespan of a sequence of the instance of these numbers.
fn makespan_of(alloc: Global, shop: &ShopNumbers, sequence: &[u16]) -> Result<u64, Fault>
    ensures value { IfOk result (λ value. value ≡ span (shop_of shop.now) sequence.now) }
    ensures accepted { OnOk result (makespan_fault shop.now sequence.now ≡ None) }
    ensures refused { IfErr result (IsFaultOf (makespan_fault shop.now sequence.now)) }
    ensures memory { IfErr result (λ fault. number fault ≡ memory → numbers_fault shop.now ≡ None) }
{
    let instance = shop.instance(alloc)?;
    let sequence = Sequence::new(alloc, &instance, sequence)?;
    Ok(makespan(&instance, &sequence))
}

/// The makespan of a sequence.
#[unsafe(no_mangle)]
pub extern "C" fn flowshop_makespan(
    alloc: Global,
    shop: &ShopNumbers,
    sequence: &[u16],
    value: &mut u64,
) -> Outcome
    ensures status { Reports (makespan_fault shop.now sequence.now) result }
    ensures memory { result.status ≡ memory → numbers_fault shop.now ≡ None }
    ensures value { result.status ≡ done → value.new ≡ span (shop_of shop.now) sequence.now }
    ensures stays { result.status ≡ done → result.place ≡ 0 }
    ensures kept { (result.status ≡ done) ⊎ (value.new ≡ value.old) }
{
    match makespan_of(alloc, shop, sequence) {
        Ok(found) => {
            *value = found;
            Outcome::done()
        }
        Err(fault) => Outcome::refused(fault),
    }
}
