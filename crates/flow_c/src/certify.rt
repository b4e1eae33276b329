//! The search for bounds, and the text that proves them.

ghost use Rattle.std.specs.Prelude.{◌≡◌, ◌⊎◌, ◌+◌, ◌≤◌, None, Some, IfOk, OnOk, IfErr, length, take, drop, []};
ghost use Rattle.flow_shop.specs.Shop.{IsWithinLimits};
ghost use Rattle.flow_shop.specs.Paths.{span};
ghost use Rattle.flow_shop.specs.Sequences.{IsSequence, IsLeastMakespan};
ghost use Rattle.flow_check.specs.Bounds.{AreBounds};
ghost use Rattle.flow_check.specs.TwoEnded.{two_ended_text};
ghost use Rattle.flow_certify.specs.Signs.{most_counted};
ghost use Rattle.flow_c.specs.Statuses.{number, done, memory};
ghost use Rattle.flow_c.specs.Faults.{shop_of, numbers_fault};
ghost use Rattle.flow_c.specs.Certify.{IsTextFrom, IsTextTooLong, certify_fault, directions_fault, most_beside};
ghost use Rattle.flow_c.specs.Checks.{ReportsCheck};
ghost use Rattle.flow_c.specs.Rooms.{IsSameRoom, bounds_in, text_in};
ghost use Rattle.flow_c.specs.internal.Around.{behind, with_directions};

use crate::bounds::BoundsRoom;
use crate::effort::EffortNumbers;
use crate::fault::Fault;
use crate::outcome::Outcome;
use crate::room::{Entries, fill, need};
use crate::shop::ShopNumbers;
use crate::text::{TextRoom, empty_text};
use flow_cert::write_two_ended;
use flow_certify::{Certified, MostDirections, Proof, ProofLimits, certify};
use flow_check::Bounds;
use flow_directions::Alone;
use flow_improve::Effort;
use flow_limits::MAX_DIRECTIONS;
use flow_shop::{Instance, Sequence};
use flow_text::MemorySink;
use std::alloc::Global;

/// The bytes behind the directions of a text.
const BEHIND: usize = 5;

/// Bounds, a sequence that has the upper one, and the text that proves them.
#[derive(Debug, Drop)]
struct Written {
    bounds: Bounds,
    sequence: Sequence,
    /// The text with no directions.
    around: MemorySink,
    directions: Vec<u8>,
}

/// The most directions, where they are 1 to a greatest limit.
pub(crate) fn most_of(directions: u64, greatest: u64) -> Result<MostDirections, Fault>
    requires { greatest ≤ most_counted }
    ensures same { IfOk result (λ most. most ≡ directions) }
    ensures accepted { OnOk result (directions_fault greatest directions ≡ None) }
    ensures refused { IfErr result (λ fault. directions_fault greatest directions ≡ Some fault) }
{
    if directions > greatest {
        return Err(Fault::Directions);
    }
    MostDirections::new(directions).ok_or(Fault::Directions)
}

/// The text of bounds and a sequence, with no directions.
pub(crate) fn around(
    alloc: Global,
    instance: &Instance,
    bounds: Bounds,
    sequence: &Sequence,
) -> Result<MemorySink, Fault>
    ensures text { IfOk result (λ text. text.bytes ≡ two_ended_text instance.now bounds sequence.now []) }
    ensures refused { IfErr result (λ fault. number fault ≡ memory) }
{
    let mut text = empty_text(alloc);
    write_two_ended(instance, bounds, sequence, &[], &mut text)?;
    Ok(text)
}

/// Searches for bounds of an instance from a sequence, and gives the text that proves them, where there is room for it.
fn certify_from(
    alloc: Global,
    instance: &Instance,
    start: &Sequence,
    effort: &Effort,
    most: MostDirections,
    room: usize,
) -> Result<Written, Fault>
    requires limits { IsWithinLimits instance.now }
    requires is_sequence { IsSequence instance.now.jobs start.now }
    ensures text { IfOk result (λ found. IsTextFrom instance.now start.now most
        (with_directions found.around.bytes found.directions.items) found.bounds found.sequence) }
    ensures long_enough { IfOk result (λ found. behind ≤ length found.around.bytes) }
    ensures enough { IfOk result (λ found. length found.around.bytes + length found.directions.items ≤ room) }
    ensures refused { IfErr result (λ fault. (number fault ≡ memory)
        ⊎ IsTextTooLong instance.now start.now most room fault) }
{
    let limits = ProofLimits {
        most,
        keeps_signs: true,
    };
    let found = certify(alloc, &Alone, instance, start, effort, limits)?;
    let Certified {
        lower,
        upper,
        sequence,
        proof,
    } = found;
    let Proof::Signs(directions) = proof else {
        unreachable!()
    };
    let bounds = Bounds { lower, upper };
    let around = around(alloc, instance, bounds, &sequence)?;
    need(around.bytes().len() + directions.len(), room)?;
    Ok(Written {
        bounds,
        sequence,
        around,
        directions,
    })
}

/// Searches for bounds of the instance of these numbers, from a sequence of it.
fn certify_numbers(
    alloc: Global,
    shop: &ShopNumbers,
    start: &[u16],
    effort: &EffortNumbers,
    directions: u32,
    entries: Entries,
) -> Result<Written, Fault>
    ensures text { IfOk result (λ found. IsTextFrom (shop_of shop.now) start.now directions
        (with_directions found.around.bytes found.directions.items) found.bounds found.sequence) }
    ensures long_enough { IfOk result (λ found. behind ≤ length found.around.bytes) }
    ensures bounds { IfOk result (λ found. AreBounds (shop_of shop.now) found.bounds) }
    ensures each { IfOk result (λ found. IsSequence shop.now.jobs found.sequence) }
    ensures upper { IfOk result (λ found. span (shop_of shop.now) found.sequence ≡ found.bounds.upper) }
    ensures room { OnOk result (shop.now.jobs ≤ entries.sequence) }
    ensures enough { IfOk result
        (λ found. length found.around.bytes + length found.directions.items ≤ entries.text) }
    ensures accepted { OnOk result
        (certify_fault shop.now start.now effort.now directions entries.sequence ≡ None) }
    ensures refused { IfErr result (λ fault. (number fault ≡ memory)
        ⊎ (certify_fault shop.now start.now effort.now directions entries.sequence ≡ Some fault)
        ⊎ ((certify_fault shop.now start.now effort.now directions entries.sequence ≡ None)
        × IsTextTooLong (shop_of shop.now) start.now directions entries.text fault)) }
    ensures memory { IfErr result (λ fault. number fault ≡ memory → numbers_fault shop.now ≡ None) }
{
    let instance = shop.instance(alloc)?;
    let start = Sequence::new(alloc, &instance, start)?;
    let effort = effort.effort()?;
    let most = most_of(u64::from(directions), u64::from(MAX_DIRECTIONS))?;
    need(shop.jobs as usize, entries.sequence)?;
    certify_from(alloc, &instance, &start, &effort, most, entries.text)
}

/// Puts a text with these directions at the front of a slice that has room for it, and returns its length.
pub(crate) fn put(around: &[u8], directions: &[u8], room: &mut [u8]) -> usize
    requires long_enough { behind ≤ length around.now }
    requires enough { length around.now + length directions.now ≤ length room.old }
    ensures count { result ≡ length around.now + length directions.now }
    ensures front { take result room.new ≡ with_directions around.now directions.now }
    ensures rest { drop result room.new ≡ drop result room.old }
{
    let lines = around.len() - BEHIND;
    let end = lines + directions.len();
    fill(&around[..lines], room);
    fill(directions, &mut room[lines..]);
    fill(&around[lines..], &mut room[end..]);
    end + BEHIND
}

/// Searches for the least makespan of an instance, or for bounds of it, from a starting sequence and from better ones,
/// on one thread, and gives the two-ended certificate that proves them, with at most so many directions. Its bytes and
/// the jobs of the sequence become the first entries of their rooms.
#[unsafe(no_mangle)]
pub extern "C" fn flowshop_certify(
    alloc: Global,
    shop: &ShopNumbers,
    start: &[u16],
    effort: &EffortNumbers,
    directions: u32,
    bounds: &mut BoundsRoom,
    text: &mut TextRoom,
) -> Outcome
    ensures status { ReportsCheck
        (certify_fault shop.now start.now effort.now directions (length bounds.old.sequence.now))
        (IsTextTooLong (shop_of shop.now) start.now directions (length text.old.bytes.now)) result }
    ensures memory { result.status ≡ memory → numbers_fault shop.now ≡ None }
    ensures text { result.status ≡ done → IsTextFrom (shop_of shop.now) start.now directions (text_in text.new)
        (bounds_in bounds.new) (take shop.now.jobs bounds.new.sequence.now) }
    ensures bounds { result.status ≡ done → AreBounds (shop_of shop.now) (bounds_in bounds.new) }
    ensures least { result.status ≡ done → bounds.new.lower ≡ bounds.new.upper →
        IsLeastMakespan (shop_of shop.now) bounds.new.lower }
    ensures each { result.status ≡ done → IsSequence shop.now.jobs (take shop.now.jobs bounds.new.sequence.now) }
    ensures upper { result.status ≡ done →
        span (shop_of shop.now) (take shop.now.jobs bounds.new.sequence.now) ≡ bounds.new.upper }
    ensures no_worse { result.status ≡ done → bounds.new.upper ≤ span (shop_of shop.now) start.now }
    ensures rest { drop shop.now.jobs bounds.new.sequence.now ≡ drop shop.now.jobs bounds.old.sequence.now }
    ensures within { result.status ≡ done → text.new.length ≤ length text.old.bytes.now }
    ensures short { result.status ≡ done → text.new.length ≤ directions + most_beside }
    ensures beyond { result.status ≡ done →
        drop text.new.length text.new.bytes.now ≡ drop text.new.length text.old.bytes.now }
    ensures rooms { IsSameRoom bounds.new.sequence bounds.old.sequence × IsSameRoom text.new.bytes text.old.bytes }
    ensures stays { result.status ≡ done → result.place ≡ 0 }
    ensures kept { (result.status ≡ done) ⊎ ((bounds.new ≡ bounds.old) × (text.new ≡ text.old)) }
{
    let entries = Entries {
        sequence: bounds.sequence.len(),
        text: text.bytes.len(),
    };
    match certify_numbers(alloc, shop, start, effort, directions, entries) {
        Ok(found) => {
            bounds.put(&found.sequence, found.bounds);
            text.length = put(
                found.around.bytes(),
                found.directions.as_slice(),
                text.bytes,
            );
            Outcome::done()
        }
        Err(fault) => Outcome::refused(fault),
    }
}
