//! The timetable of a sequence.

ghost use Rattle.std.specs.Prelude.{◌≡◌, ◌⊎◌, ◌*◌, ◌≤◌, None, IfOk, OnOk, IfErr, length, map, take, drop};
ghost use Rattle.flow_schedule.specs.Timetable.{timetable};
ghost use Rattle.flow_schedule.specs.declared.operations.Operation.{Operation};
ghost use Rattle.flow_c.specs.Statuses.{number, done, memory};
ghost use Rattle.flow_c.specs.Faults.{shop_of, numbers_fault, timetable_fault, IsFaultOf, Reports};
ghost use Rattle.flow_c.specs.Rooms.{IsSameRoom};

use crate::fault::Fault;
use crate::outcome::Outcome;
use crate::room::{fill, need};
use crate::shop::ShopNumbers;
use flow_schedule::{Operation, timetable};
use flow_shop::Sequence;
use std::alloc::{AllocError, Global};

/// Room for the times at which operations start and end.
#[repr(C)]
pub struct SpansRoom<'a> {
    /// Room for those at which they start.
    pub starts: &'a mut [u64],
    /// Room for those at which they end.
    pub ends: &'a mut [u64],
}

/// When operations start and when they end.
#[derive(Debug, Drop)]
struct Spans {
    starts: Vec<u64>,
    ends: Vec<u64>,
}

/// When operations start and when they end.
fn starts_and_ends(alloc: Global, operations: &[Operation]) -> Result<Spans, AllocError>
    ensures starts { IfOk result
        (λ spans. spans.starts.items ≡ map (λ (operation : Operation). operation.start) operations.now) }
    ensures ends { IfOk result
        (λ spans. spans.ends.items ≡ map (λ (operation : Operation). operation.end) operations.now) }
{
    let mut starts = Vec::new(alloc);
    let mut ends = Vec::new(alloc);
    for operation in operations {
        starts.push(operation.start)?;
        ends.push(operation.end)?;
    }
    Ok(Spans { starts, ends })
}

/// When the operations of a sequence start and end, where there is room for so many starts and ends.
fn spans_of(
    alloc: Global,
    shop: &ShopNumbers,
    sequence: &[u16],
    starts: usize,
    ends: usize,
) -> Result<Spans, Fault>
    ensures starts { IfOk result (λ spans. spans.starts.items ≡ map (λ (operation : Operation). operation.start)
        (timetable (shop_of shop.now) sequence.now)) }
    ensures ends { IfOk result (λ spans. spans.ends.items ≡ map (λ (operation : Operation). operation.end)
        (timetable (shop_of shop.now) sequence.now)) }
    ensures count { IfOk result (λ spans. (length spans.starts.items ≡ shop.now.jobs * shop.now.machines)
        × (length spans.ends.items ≡ shop.now.jobs * shop.now.machines)) }
    ensures accepted { OnOk result (timetable_fault shop.now sequence.now starts ends ≡ None) }
    ensures enough { OnOk result
        ((shop.now.jobs * shop.now.machines ≤ starts) × (shop.now.jobs * shop.now.machines ≤ ends)) }
    ensures refused { IfErr result (IsFaultOf (timetable_fault shop.now sequence.now starts ends)) }
    ensures memory { IfErr result (λ fault. number fault ≡ memory → numbers_fault shop.now ≡ None) }
{
    let instance = shop.instance(alloc)?;
    let sequence = Sequence::new(alloc, &instance, sequence)?;
    need(shop.times.len(), starts)?;
    need(shop.times.len(), ends)?;
    let operations = timetable(alloc, &instance, &sequence)?;
    Ok(starts_and_ends(alloc, operations.as_slice())?)
}

/// When each job of a sequence starts and ends on each machine: for each job in the order of the sequence, and for each
/// machine. The first entries of `starts` and of `ends` become the times of the operations.
#[unsafe(no_mangle)]
pub extern "C" fn flowshop_timetable(
    alloc: Global,
    shop: &ShopNumbers,
    sequence: &[u16],
    spans: &mut SpansRoom,
) -> Outcome
    ensures status { Reports (timetable_fault shop.now sequence.now
        (length spans.old.starts.now) (length spans.old.ends.now)) result }
    ensures memory { result.status ≡ memory → numbers_fault shop.now ≡ None }
    ensures starts { result.status ≡ done → take (shop.now.jobs * shop.now.machines) spans.new.starts.now
        ≡ map (λ (operation : Operation). operation.start) (timetable (shop_of shop.now) sequence.now) }
    ensures ends { result.status ≡ done → take (shop.now.jobs * shop.now.machines) spans.new.ends.now
        ≡ map (λ (operation : Operation). operation.end) (timetable (shop_of shop.now) sequence.now) }
    ensures rest { (drop (shop.now.jobs * shop.now.machines) spans.new.starts.now
        ≡ drop (shop.now.jobs * shop.now.machines) spans.old.starts.now)
        × (drop (shop.now.jobs * shop.now.machines) spans.new.ends.now
        ≡ drop (shop.now.jobs * shop.now.machines) spans.old.ends.now) }
    ensures rooms { IsSameRoom spans.new.starts spans.old.starts × IsSameRoom spans.new.ends spans.old.ends }
    ensures stays { result.status ≡ done → result.place ≡ 0 }
    ensures kept { (result.status ≡ done) ⊎ (spans.new ≡ spans.old) }
{
    match spans_of(alloc, shop, sequence, spans.starts.len(), spans.ends.len()) {
        Ok(found) => {
            fill(found.starts.as_slice(), spans.starts);
            fill(found.ends.as_slice(), spans.ends);
            Outcome::done()
        }
        Err(fault) => Outcome::refused(fault),
    }
}
