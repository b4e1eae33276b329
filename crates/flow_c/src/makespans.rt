//! The makespans of many sequences, which stand one behind the other.

ghost use Rattle.std.specs.Prelude.{◌≡◌, ◌⊎◌, ◌+◌, ◌*◌, ◌/◌, ◌^◌, ◌<◌, ◌≤◌, length, drop, None, IfNone, IfOk, OnOk};
ghost use Rattle.std.specs.Prelude.{IfErr};
ghost use Rattle.std.specs.Fork.{slice_chunk};
ghost use Rattle.flow_c.specs.Statuses.{number, done, memory};
ghost use Rattle.flow_c.specs.Places.{place_of_sequence};
ghost use Rattle.flow_c.specs.Faults.{shop_of, numbers_fault, IsFaultOf, Reports};
ghost use Rattle.flow_c.specs.Makespans.{lists_fault, makespans_fault, AreLists, AreSpans};
ghost use Rattle.flow_c.specs.Makespans as makespans;

use crate::fault::Fault;
use crate::outcome::Outcome;
use crate::room::need;
use crate::shop::ShopNumbers;
use crate::span::span_of;
use flow_shop::{Instance, SequenceFault, first_job_at_fault};
use std::alloc::Global;

/// One of some lists of so many jobs, counted from 0.
fn list_at(lists: &[u16], jobs: usize, index: usize) -> &[u16]
    requires { (index + 1) * jobs ≤ length lists.now }
    ensures list { result.now ≡ slice_chunk lists.now jobs index }
    ensures count { length result.now ≡ jobs }
{
    &lists[index * jobs..index * jobs + jobs]
}

/// A fault of a list that stands behind so many jobs, with its place among all jobs.
fn moved(before: usize, fault: SequenceFault) -> SequenceFault
    requires { before + place_of_sequence fault < 2 ^ 64 }
    ensures { result ≡ makespans.moved before fault }
{
    match fault {
        SequenceFault::Job(place) => SequenceFault::Job(before + place),
        SequenceFault::Twice(place) => SequenceFault::Twice(before + place),
        SequenceFault::Length => SequenceFault::Length,
        SequenceFault::Memory => SequenceFault::Memory,
    }
}

/// The fault of the first job of so many lists that is not one of the instance, or that stands in its list twice.
fn first_fault(instance: &Instance, lists: &[u16], count: usize) -> Option<SequenceFault>
    requires { length lists.now ≡ count * instance.now.jobs }
    ensures fault { result ≡ lists_fault instance.now.jobs lists.now count }
    ensures none { IfNone result (AreLists instance.now.jobs lists.now count) }
{
    let jobs = usize::from(instance.jobs());
    for index in 0..count {
        let list = list_at(lists, jobs, index);
        if let Some(fault) = first_job_at_fault(instance, list) {
            return Some(moved(index * jobs, fault));
        }
    }
    None
}

/// Puts the makespans of so many sequences to the front of a slice that has room for them.
fn put_spans(instance: &Instance, sequences: &[u16], count: usize, spans: &mut [u64])
    requires whole { length sequences.now ≡ count * instance.now.jobs }
    requires each { AreLists instance.now.jobs sequences.now count }
    requires room { count ≤ length spans.old }
    ensures values { AreSpans instance.now sequences.now count spans.new }
    ensures rest { drop count spans.new ≡ drop count spans.old }
{
    let jobs = usize::from(instance.jobs());
    for index in 0..count {
        spans[index] = span_of(instance, list_at(sequences, jobs, index));
    }
}

/// The instance of these numbers, where the lists are sequences of it and there is room for so many makespans.
fn instance_of(
    alloc: Global,
    shop: &ShopNumbers,
    sequences: &[u16],
    entries: usize,
) -> Result<Instance, Fault>
    ensures value { IfOk result (λ instance. instance ≡ shop_of shop.now) }
    ensures whole { OnOk result (length sequences.now ≡ length sequences.now / shop.now.jobs * shop.now.jobs) }
    ensures each { OnOk result (AreLists shop.now.jobs sequences.now (length sequences.now / shop.now.jobs)) }
    ensures enough { OnOk result (length sequences.now / shop.now.jobs ≤ entries) }
    ensures accepted { OnOk result (makespans_fault shop.now sequences.now entries ≡ None) }
    ensures refused { IfErr result (IsFaultOf (makespans_fault shop.now sequences.now entries)) }
    ensures memory { IfErr result (λ fault. number fault ≡ memory → numbers_fault shop.now ≡ None) }
{
    let instance = shop.instance(alloc)?;
    let jobs = usize::from(instance.jobs());
    let count = sequences.len() / jobs;
    if count * jobs != sequences.len() {
        return Err(Fault::Sequence(SequenceFault::Length));
    }
    need(count, entries)?;
    match first_fault(&instance, sequences, count) {
        Some(fault) => Err(Fault::Sequence(fault)),
        None => Ok(instance),
    }
}

/// The makespans of many sequences: the first entries become those of the sequences, in their order. A place of a fault
/// is that among the jobs of all sequences.
#[unsafe(no_mangle)]
pub extern "C" fn flowshop_makespans(
    alloc: Global,
    shop: &ShopNumbers,
    sequences: &[u16],
    makespans: &mut [u64],
) -> Outcome
    ensures status { Reports (makespans_fault shop.now sequences.now (length makespans.old)) result }
    ensures memory { result.status ≡ memory → numbers_fault shop.now ≡ None }
    ensures makespans { result.status ≡ done →
        AreSpans (shop_of shop.now) sequences.now (length sequences.now / shop.now.jobs) makespans.new }
    ensures rest { drop (length sequences.now / shop.now.jobs) makespans.new
        ≡ drop (length sequences.now / shop.now.jobs) makespans.old }
    ensures stays { result.status ≡ done → result.place ≡ 0 }
    ensures kept { (result.status ≡ done) ⊎ (makespans.new ≡ makespans.old) }
{
    match instance_of(alloc, shop, sequences, makespans.len()) {
        Ok(instance) => {
            let count = sequences.len() / usize::from(instance.jobs());
            put_spans(&instance, sequences, count, makespans);
            Outcome::done()
        }
        Err(fault) => Outcome::refused(fault),
    }
}
