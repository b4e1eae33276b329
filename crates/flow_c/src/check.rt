//! The checks of texts.

ghost use Rattle.std.specs.Prelude.{◌≡◌, ◌⊎◌, ◌≤◌, None, Some, IfOk, OnOk, IfErr};
ghost use Rattle.flow_shop.specs.Paths.{span};
ghost use Rattle.flow_shop.specs.Sequences.{IsSequence};
ghost use Rattle.flow_check.specs.Bounds.{AreBounds};
ghost use Rattle.flow_check.specs.Counted.{most_nodes};
ghost use Rattle.flow_c.specs.Statuses.{number, memory};
ghost use Rattle.flow_c.specs.Faults.{shop_of, numbers_fault, instance_room_fault};
ghost use Rattle.flow_c.specs.Checks.{GivesChecked, IsRefusedText, ShowsText};

use crate::bounds::BoundsRoom;
use crate::fault::Fault;
use crate::outcome::Outcome;
use crate::room::need;
use crate::shop::ShopNumbers;
use flow_check::{MOST_NODES, Shown, check_text_by, kind_of};
use flow_directions::Alone;
use std::alloc::Global;

/// What a text proves of the instance of these numbers, where there is room for its sequence. A counted certificate may
/// state so many nodes at most.
fn check_numbers(
    alloc: Global,
    shop: &ShopNumbers,
    text: &[u8],
    most: u64,
    entries: usize,
) -> Result<Shown, Fault>
    ensures shows { IfOk result (λ shown. ShowsText most (shop_of shop.now) text.now shown.bounds shown.sequence) }
    ensures each { IfOk result (λ shown. IsSequence shop.now.jobs shown.sequence) }
    ensures upper { IfOk result (λ shown. span (shop_of shop.now) shown.sequence ≡ shown.bounds.upper) }
    ensures bounds { IfOk result (λ shown. AreBounds (shop_of shop.now) shown.bounds) }
    ensures accepted { OnOk result (instance_room_fault shop.now entries ≡ None) }
    ensures enough { OnOk result (shop.now.jobs ≤ entries) }
    ensures refused { IfErr result (λ fault. (number fault ≡ memory)
        ⊎ (instance_room_fault shop.now entries ≡ Some fault)
        ⊎ ((instance_room_fault shop.now entries ≡ None) × IsRefusedText most (shop_of shop.now) text.now fault)) }
    ensures memory { IfErr result (λ fault. number fault ≡ memory → numbers_fault shop.now ≡ None) }
{
    let instance = shop.instance(alloc)?;
    need(shop.jobs as usize, entries)?;
    let kind = kind_of(text);
    Ok(check_text_by(alloc, &Alone, most, kind, &instance, text)?)
}

/// The bounds that a text proves, as `flowshop_check` gives them, where a counted certificate states at most so many
/// nodes.
#[unsafe(no_mangle)]
pub extern "C" fn flowshop_check_within(
    alloc: Global,
    shop: &ShopNumbers,
    text: &[u8],
    most: u64,
    bounds: &mut BoundsRoom,
) -> Outcome
    ensures { GivesChecked shop.now most text.now bounds.old bounds.new result }
{
    match check_numbers(alloc, shop, text, most, bounds.sequence.len()) {
        Ok(shown) => {
            bounds.put(&shown.sequence, shown.bounds);
            Outcome::done()
        }
        Err(fault) => Outcome::refused(fault),
    }
}

/// The bounds that a text proves, between which the least makespan lies, and a sequence that has the upper one. Where
/// both are one number, it is the least makespan. The text is a two-ended certificate, a counted one of at most
/// `MOST_NODES` nodes, or a certificate with trees, whose bounds are both its value; the first line tells which. The
/// first entries of the room become the jobs.
#[unsafe(no_mangle)]
pub extern "C" fn flowshop_check(
    alloc: Global,
    shop: &ShopNumbers,
    text: &[u8],
    bounds: &mut BoundsRoom,
) -> Outcome
    ensures { GivesChecked shop.now most_nodes text.now bounds.old bounds.new result }
{
    flowshop_check_within(alloc, shop, text, MOST_NODES, bounds)
}
