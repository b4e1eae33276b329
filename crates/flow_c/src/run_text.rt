//! The certificates of a run.

ghost use Rattle.std.specs.Prelude.{◌≡◌, ◌+◌, ◌≤◌, None, [], length, IfOk, OnOk, IfErr};
ghost use Rattle.flow_shop.specs.Sequences.{IsSequence};
ghost use Rattle.flow_shop.specs.Shop.{IsWithinLimits};
ghost use Rattle.flow_check.specs.Counted.{counted_text};
ghost use Rattle.flow_c.specs.Statuses.{number, done, memory};
ghost use Rattle.flow_c.specs.Faults.{shop_of, numbers_fault, makespan_fault, IsFaultOf};
ghost use Rattle.flow_c.specs.RunTexts.{WritesText, kept_bounds, kept_count, kept_text, text_fault};
ghost use Rattle.flow_c.specs.Certify.{most_beside};
ghost use Rattle.flow_c.specs.internal.Around.{behind, with_directions};

use crate::certify::{around, put};
use crate::fault::Fault;
use crate::outcome::Outcome;
use crate::room::need;
use crate::shop::ShopNumbers;
use crate::text::{TextRoom, empty_text};
use flow_cert::write_counted;
use flow_check::Bounds;
use flow_shop::{Instance, Sequence, makespan};
use flow_text::MemorySink;
use std::alloc::Global;

/// A sequence of an instance, and the bounds that a certificate of it states.
#[derive(Debug, Drop)]
struct Kept {
    instance: Instance,
    sequence: Sequence,
    bounds: Bounds,
}

/// The instance of these numbers, a sequence of it, and the bounds: the lower one, and the makespan of the sequence.
fn kept_of(alloc: Global, shop: &ShopNumbers, sequence: &[u16], lower: u64) -> Result<Kept, Fault>
    ensures instance { IfOk result (λ kept. kept.instance ≡ shop_of shop.now) }
    ensures sequence { IfOk result (λ kept. kept.sequence ≡ sequence.now) }
    ensures bounds { IfOk result (λ kept. kept.bounds ≡ kept_bounds (shop_of shop.now) lower sequence.now) }
    ensures accepted { OnOk result (makespan_fault shop.now sequence.now ≡ None) }
    ensures refused { IfErr result (IsFaultOf (makespan_fault shop.now sequence.now)) }
    ensures memory { IfErr result (λ fault. number fault ≡ memory → numbers_fault shop.now ≡ None) }
    ensures limits { OnOk result (IsWithinLimits (shop_of shop.now)) }
    ensures each { OnOk result (IsSequence shop.now.jobs sequence.now) }
{
    let instance = shop.instance(alloc)?;
    let sequence = Sequence::new(alloc, &instance, sequence)?;
    let bounds = Bounds {
        lower,
        upper: makespan(&instance, &sequence),
    };
    Ok(Kept {
        instance,
        sequence,
        bounds,
    })
}

/// The two-ended certificate of a lower bound and of a sequence, with no directions, where there is room for it with
/// these.
fn text_of(
    alloc: Global,
    shop: &ShopNumbers,
    sequence: &[u16],
    lower: u64,
    directions: &[u8],
    room: usize,
) -> Result<MemorySink, Fault>
    ensures lines { IfOk result (λ text. text.bytes ≡ kept_text (shop_of shop.now) lower sequence.now []) }
    ensures text { IfOk result (λ text. with_directions text.bytes directions.now
        ≡ kept_text (shop_of shop.now) lower sequence.now directions.now) }
    ensures long_enough { IfOk result (λ text. behind ≤ length text.bytes) }
    ensures enough { IfOk result (λ text. length text.bytes + length directions.now ≤ room) }
    ensures accepted { OnOk result (text_fault shop.now sequence.now
        (kept_text (shop_of shop.now) lower sequence.now directions.now) room ≡ None) }
    ensures refused { IfErr result (IsFaultOf (text_fault shop.now sequence.now
        (kept_text (shop_of shop.now) lower sequence.now directions.now) room)) }
    ensures memory { IfErr result (λ fault. number fault ≡ memory → numbers_fault shop.now ≡ None) }
{
    let kept = kept_of(alloc, shop, sequence, lower)?;
    let text = around(alloc, &kept.instance, kept.bounds, &kept.sequence)?;
    need(text.bytes().len() + directions.len(), room)?;
    Ok(text)
}

/// The counted certificate of bounds and a sequence.
fn counted(
    alloc: Global,
    instance: &Instance,
    bounds: Bounds,
    sequence: &Sequence,
    count: u64,
) -> Result<MemorySink, Fault>
    ensures text { IfOk result (λ text. text.bytes ≡ counted_text instance.now bounds sequence.now count) }
    ensures refused { IfErr result (λ fault. number fault ≡ memory) }
{
    let mut text = empty_text(alloc);
    write_counted(instance, bounds, sequence, count, &mut text)?;
    Ok(text)
}

/// The counted certificate of a lower bound and of a sequence, where there is room for it.
fn counted_of(
    alloc: Global,
    shop: &ShopNumbers,
    sequence: &[u16],
    lower: u64,
    count: u64,
    room: usize,
) -> Result<MemorySink, Fault>
    ensures text { IfOk result (λ text. text.bytes ≡ kept_count (shop_of shop.now) lower sequence.now count) }
    ensures short { IfOk result (λ text. length text.bytes ≤ most_beside) }
    ensures enough { IfOk result (λ text. length text.bytes ≤ room) }
    ensures accepted { OnOk result (text_fault shop.now sequence.now
        (kept_count (shop_of shop.now) lower sequence.now count) room ≡ None) }
    ensures refused { IfErr result (IsFaultOf (text_fault shop.now sequence.now
        (kept_count (shop_of shop.now) lower sequence.now count) room)) }
    ensures memory { IfErr result (λ fault. number fault ≡ memory → numbers_fault shop.now ≡ None) }
{
    let kept = kept_of(alloc, shop, sequence, lower)?;
    let text = counted(alloc, &kept.instance, kept.bounds, &kept.sequence, count)?;
    need(text.bytes().len(), room)?;
    Ok(text)
}

/// The two-ended certificate of a lower bound and of a sequence with its makespan, with these directions. Nothing tests
/// that they prove the bound.
#[unsafe(no_mangle)]
pub extern "C" fn flowshop_run_text(
    alloc: Global,
    shop: &ShopNumbers,
    sequence: &[u16],
    lower: u64,
    directions: &[u8],
    text: &mut TextRoom,
) -> Outcome
    ensures { WritesText shop.now sequence.now (kept_text (shop_of shop.now) lower sequence.now directions.now)
        text.old text.new result }
{
    match text_of(alloc, shop, sequence, lower, directions, text.bytes.len()) {
        Ok(lines) => {
            text.length = put(lines.bytes(), directions, text.bytes);
            Outcome::done()
        }
        Err(fault) => Outcome::refused(fault),
    }
}

/// The counted certificate of a lower bound and of a sequence with its makespan, with how many directions there are.
/// Nothing tests that so many prove the bound.
#[unsafe(no_mangle)]
pub extern "C" fn flowshop_run_counted(
    alloc: Global,
    shop: &ShopNumbers,
    sequence: &[u16],
    lower: u64,
    count: u64,
    text: &mut TextRoom,
) -> Outcome
    ensures written { WritesText shop.now sequence.now (kept_count (shop_of shop.now) lower sequence.now count)
        text.old text.new result }
    ensures short { result.status ≡ done → text.new.length ≤ most_beside }
{
    match counted_of(alloc, shop, sequence, lower, count, text.bytes.len()) {
        Ok(counted) => {
            text.put(counted.bytes());
            Outcome::done()
        }
        Err(fault) => Outcome::refused(fault),
    }
}
