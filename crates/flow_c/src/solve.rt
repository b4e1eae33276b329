//! The solver, on one thread.

ghost use Rattle.std.specs.Prelude.{◌≡◌, ◌⊎◌, ◌≤◌, None, Some, IfOk, OnOk, IfErr, length, take, drop};
ghost use Rattle.flow_shop.specs.Paths.{span};
ghost use Rattle.flow_shop.specs.Sequences.{IsSequence, IsLeastMakespan};
ghost use Rattle.flow_search.specs.Plans.{IsPlan, plan_fault, but_memory};
ghost use Rattle.flow_search.specs.Verdicts.{IsVerdict};
ghost use Rattle.flow_check.specs.Certificate.{IsCertificate};
ghost use Rattle.flow_check.specs.Stated.{GivesSequence};
ghost use Rattle.flow_cert.specs.PlanCertificates.{certificate_of};
ghost use Rattle.flow_c.specs.Statuses.{number, done, memory};
ghost use Rattle.flow_c.specs.Faults.{shop_of, numbers_fault, options_of, plan_of, choice_fault};
ghost use Rattle.flow_c.specs.Faults.{planning_fault, solve_fault, certificate_fault, IsFaultOf, Reports};
ghost use Rattle.flow_c.specs.Rooms.{IsSameRoom, text_in};

use crate::bounds::BoundsRoom;
use crate::fault::Fault;
use crate::outcome::Outcome;
use crate::room::{Entries, need};
use crate::shop::ShopNumbers;
use crate::text::{TextRoom, empty_text};
use flow_cert::write_certificate;
use flow_check::Bounds;
use flow_search::{Options, Plan, PlanFault, Verdict, prepare_from, solve_plain};
use flow_shop::{Instance, Sequence};
use flow_text::MemorySink;
use std::alloc::Global;

/// A least makespan, a sequence that has it, and the text of its certificate.
#[derive(Debug, Drop)]
struct Solved {
    value: u64,
    sequence: Sequence,
    text: MemorySink,
}

/// What the caller chooses of a run on one thread.
#[repr(C)]
pub struct PlanNumbers {
    /// How many jobs each prefix has; each has a tree.
    pub depth: u32,
    /// How many bytes each tree may have.
    pub budget: u32,
    /// The version of the certificate.
    pub version: u32,
}

/// The options of a run on one thread.
fn options(plan: &PlanNumbers) -> Result<Options, Fault>
    ensures value { IfOk result (λ options. options ≡ options_of plan.now) }
    ensures accepted { OnOk result (choice_fault plan.now ≡ None) }
    ensures refused { IfErr result (λ fault. choice_fault plan.now ≡ Some fault) }
{
    Ok(Options::versioned(1, plan.depth, plan.budget, plan.version)?)
}

/// The plan of an instance and options, from a sequence.
fn plan<'a>(
    alloc: Global,
    instance: &'a Instance,
    start: Sequence,
    options: Options,
) -> Result<Plan<'a>, PlanFault>
    requires { IsSequence instance.now.jobs start }
    ensures value { IfOk result (λ plan. plan ≡ plan_of instance.now start options) }
    ensures plan { IfOk result (λ plan. IsPlan plan) }
    ensures accepted { OnOk result (plan_fault instance.now options ≡ None) }
    ensures refused { IfErr result (λ fault. plan_fault instance.now options ≡ but_memory fault) }
{
    prepare_from(alloc, instance, start, options)
}

/// The text of the certificate of a plan.
fn certificate(alloc: Global, plan: &Plan, verdict: &Verdict) -> Result<MemorySink, Fault>
    requires plan { IsPlan plan.now }
    requires verdict { IsVerdict plan.now verdict.now }
    ensures text { IfOk result (λ text. text.bytes ≡ certificate_of plan.now) }
    ensures refused { IfErr result (λ fault. number fault ≡ memory) }
{
    let mut text = empty_text(alloc);
    write_certificate(plan, verdict, &mut text)?;
    Ok(text)
}

/// Solves a plan, and writes its certificate, where there is room for it.
fn solve_plan(alloc: Global, plan: &Plan, room: usize) -> Result<Solved, Fault>
    requires { IsPlan plan.now }
    ensures text { IfOk result (λ solved. solved.text.bytes ≡ certificate_of plan.now) }
    ensures lawful { IfOk result (λ solved. IsCertificate plan.now.shop solved.text.bytes solved.value) }
    ensures gives { IfOk result (λ solved. GivesSequence plan.now.shop solved.text.bytes solved.sequence) }
    ensures least { IfOk result (λ solved. IsLeastMakespan plan.now.shop solved.value) }
    ensures each { IfOk result (λ solved. IsSequence plan.now.shop.jobs solved.sequence) }
    ensures attained { IfOk result (λ solved. span plan.now.shop solved.sequence ≡ solved.value) }
    ensures enough { IfOk result (λ solved. length solved.text.bytes ≤ room) }
    ensures accepted { OnOk result (solve_fault plan.now room ≡ None) }
    ensures refused { IfErr result (IsFaultOf (solve_fault plan.now room)) }
{
    let verdict = solve_plain(alloc, plan)?;
    let text = certificate(alloc, plan, &verdict)?;
    need(text.bytes().len(), room)?;
    Ok(Solved {
        value: verdict.value,
        sequence: verdict.sequence,
        text,
    })
}

/// Solves an instance from a sequence, and writes the certificate, where there is room for both results.
fn solve_from(
    alloc: Global,
    instance: &Instance,
    start: Sequence,
    options: Options,
    entries: Entries,
) -> Result<Solved, Fault>
    requires { IsSequence instance.now.jobs start }
    ensures text { IfOk result (λ solved. solved.text.bytes ≡ certificate_of (plan_of instance.now start options)) }
    ensures lawful { IfOk result (λ solved. IsCertificate instance.now solved.text.bytes solved.value) }
    ensures gives { IfOk result (λ solved. GivesSequence instance.now solved.text.bytes solved.sequence) }
    ensures least { IfOk result (λ solved. IsLeastMakespan instance.now solved.value) }
    ensures each { IfOk result (λ solved. IsSequence instance.now.jobs solved.sequence) }
    ensures attained { IfOk result (λ solved. span instance.now solved.sequence ≡ solved.value) }
    ensures enough { IfOk result (λ solved. length solved.text.bytes ≤ entries.text) }
    ensures room { OnOk result (instance.now.jobs ≤ entries.sequence) }
    ensures planned { OnOk result (planning_fault instance.now options entries.sequence ≡ None) }
    ensures accepted { OnOk result (solve_fault (plan_of instance.now start options) entries.text ≡ None) }
    ensures refused { IfErr result (λ fault. IsFaultOf (planning_fault instance.now options entries.sequence) fault
        ⊎ ((planning_fault instance.now options entries.sequence ≡ None)
        × IsFaultOf (solve_fault (plan_of instance.now start options) entries.text) fault)) }
{
    let plan = plan(alloc, instance, start, options)?;
    need(usize::from(instance.jobs()), entries.sequence)?;
    solve_plan(alloc, &plan, entries.text)
}

/// Solves the instance of these numbers, from a sequence of it.
fn solve_numbers(
    alloc: Global,
    shop: &ShopNumbers,
    start: &[u16],
    plan: &PlanNumbers,
    entries: Entries,
) -> Result<Solved, Fault>
    ensures text { IfOk result (λ solved. solved.text.bytes
        ≡ certificate_of (plan_of (shop_of shop.now) start.now (options_of plan.now))) }
    ensures lawful { IfOk result (λ solved. IsCertificate (shop_of shop.now) solved.text.bytes solved.value) }
    ensures gives { IfOk result (λ solved. GivesSequence (shop_of shop.now) solved.text.bytes solved.sequence) }
    ensures least { IfOk result (λ solved. IsLeastMakespan (shop_of shop.now) solved.value) }
    ensures each { IfOk result (λ solved. IsSequence shop.now.jobs solved.sequence) }
    ensures attained { IfOk result (λ solved. span (shop_of shop.now) solved.sequence ≡ solved.value) }
    ensures room { OnOk result (shop.now.jobs ≤ entries.sequence) }
    ensures enough { IfOk result (λ solved. length solved.text.bytes ≤ entries.text) }
    ensures accepted { OnOk result
        (certificate_fault shop.now start.now plan.now entries.sequence entries.text ≡ None) }
    ensures refused { IfErr result
        (IsFaultOf (certificate_fault shop.now start.now plan.now entries.sequence entries.text)) }
    ensures memory { IfErr result (λ fault. number fault ≡ memory → numbers_fault shop.now ≡ None) }
{
    let instance = shop.instance(alloc)?;
    let start = Sequence::new(alloc, &instance, start)?;
    solve_from(alloc, &instance, start, options(plan)?, entries)
}

/// Solves an instance from a starting sequence, on one thread: the least makespan, which both bounds become, a sequence
/// that has it, and a certificate. Its bytes and the jobs become the first entries of their rooms.
#[unsafe(no_mangle)]
pub extern "C" fn flowshop_solve(
    alloc: Global,
    shop: &ShopNumbers,
    start: &[u16],
    plan: &PlanNumbers,
    bounds: &mut BoundsRoom,
    certificate: &mut TextRoom,
) -> Outcome
    ensures status { Reports (certificate_fault shop.now start.now plan.now
        (length bounds.old.sequence.now) (length certificate.old.bytes.now)) result }
    ensures memory { result.status ≡ memory → numbers_fault shop.now ≡ None }
    ensures text { result.status ≡ done → text_in certificate.new
        ≡ certificate_of (plan_of (shop_of shop.now) start.now (options_of plan.now)) }
    ensures lawful { result.status ≡ done →
        IsCertificate (shop_of shop.now) (text_in certificate.new) bounds.new.upper }
    ensures gives { result.status ≡ done →
        GivesSequence (shop_of shop.now) (text_in certificate.new) (take shop.now.jobs bounds.new.sequence.now) }
    ensures least { result.status ≡ done → IsLeastMakespan (shop_of shop.now) bounds.new.upper }
    ensures lower { result.status ≡ done → bounds.new.lower ≡ bounds.new.upper }
    ensures each { result.status ≡ done → IsSequence shop.now.jobs (take shop.now.jobs bounds.new.sequence.now) }
    ensures attained { result.status ≡ done →
        span (shop_of shop.now) (take shop.now.jobs bounds.new.sequence.now) ≡ bounds.new.upper }
    ensures rest { drop shop.now.jobs bounds.new.sequence.now ≡ drop shop.now.jobs bounds.old.sequence.now }
    ensures within { result.status ≡ done → certificate.new.length ≤ length certificate.old.bytes.now }
    ensures beyond { result.status ≡ done → drop certificate.new.length certificate.new.bytes.now
        ≡ drop certificate.new.length certificate.old.bytes.now }
    ensures rooms { IsSameRoom bounds.new.sequence bounds.old.sequence
        × IsSameRoom certificate.new.bytes certificate.old.bytes }
    ensures stays { result.status ≡ done → result.place ≡ 0 }
    ensures kept { (result.status ≡ done) ⊎ ((bounds.new ≡ bounds.old) × (certificate.new ≡ certificate.old)) }
{
    let entries = Entries {
        sequence: bounds.sequence.len(),
        text: certificate.bytes.len(),
    };
    match solve_numbers(alloc, shop, start, plan, entries) {
        Ok(solved) => {
            let value = Bounds {
                lower: solved.value,
                upper: solved.value,
            };
            bounds.put(&solved.sequence, value);
            certificate.put(solved.text.bytes());
            Outcome::done()
        }
        Err(fault) => Outcome::refused(fault),
    }
}
