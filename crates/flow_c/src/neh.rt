//! The starting sequence.

ghost use Rattle.std.specs.Prelude.{◌≡◌, ◌⊎◌, ◌≤◌, false, None, IfOk, OnOk, IfErr, length, take, drop};
ghost use Rattle.flow_shop.specs.Paths.{span};
ghost use Rattle.flow_shop.specs.Sequences.{IsSequence};
ghost use Rattle.flow_bound.specs.Neh.{IsNeh};
ghost use Rattle.flow_c.specs.Statuses.{number, done, memory};
ghost use Rattle.flow_c.specs.Faults.{shop_of, numbers_fault, instance_room_fault, IsFaultOf, Reports};
ghost use Rattle.flow_c.specs.Rooms.{IsSameRoom};

use crate::fault::Fault;
use crate::outcome::Outcome;
use crate::reached::ReachedRoom;
use crate::room::need;
use crate::shop::ShopNumbers;
use flow_bound::neh;
use flow_improve::Reached;
use std::alloc::Global;

/// The starting sequence of the instance of these numbers, with its makespan, where there is room for it.
fn start_of(alloc: Global, shop: &ShopNumbers, entries: usize) -> Result<Reached, Fault>
    ensures start { IfOk result (λ start. IsNeh (shop_of shop.now) start.sequence) }
    ensures value { IfOk result (λ start. start.value ≡ span (shop_of shop.now) start.sequence) }
    ensures each { IfOk result (λ start. IsSequence shop.now.jobs start.sequence) }
    ensures whole { IfOk result (λ start. start.whole ≡ false) }
    ensures accepted { OnOk result (instance_room_fault shop.now entries ≡ None) }
    ensures enough { OnOk result (shop.now.jobs ≤ entries) }
    ensures refused { IfErr result (IsFaultOf (instance_room_fault shop.now entries)) }
    ensures memory { IfErr result (λ fault. number fault ≡ memory → numbers_fault shop.now ≡ None) }
{
    let instance = shop.instance(alloc)?;
    need(shop.jobs as usize, entries)?;
    let (sequence, value) = neh(alloc, &instance)?;
    Ok(Reached {
        sequence,
        value,
        whole: false,
    })
}

/// The starting sequence of Nawaz, Enscore and Ham, and its makespan. The first entries of the room become the jobs.
#[unsafe(no_mangle)]
pub extern "C" fn flowshop_neh(
    alloc: Global,
    shop: &ShopNumbers,
    start: &mut ReachedRoom,
) -> Outcome
    ensures status { Reports (instance_room_fault shop.now (length start.old.sequence.now)) result }
    ensures memory { result.status ≡ memory → numbers_fault shop.now ≡ None }
    ensures start { result.status ≡ done → IsNeh (shop_of shop.now) (take shop.now.jobs start.new.sequence.now) }
    ensures each { result.status ≡ done → IsSequence shop.now.jobs (take shop.now.jobs start.new.sequence.now) }
    ensures value { result.status ≡ done →
        start.new.makespan ≡ span (shop_of shop.now) (take shop.now.jobs start.new.sequence.now) }
    ensures whole { result.status ≡ done → start.new.whole ≡ 0 }
    ensures rest { drop shop.now.jobs start.new.sequence.now ≡ drop shop.now.jobs start.old.sequence.now }
    ensures room { IsSameRoom start.new.sequence start.old.sequence }
    ensures stays { result.status ≡ done → result.place ≡ 0 }
    ensures kept { (result.status ≡ done) ⊎ (start.new ≡ start.old) }
{
    match start_of(alloc, shop, start.sequence.len()) {
        Ok(found) => {
            start.put(&found);
            Outcome::done()
        }
        Err(fault) => Outcome::refused(fault),
    }
}
