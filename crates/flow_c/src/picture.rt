//! The picture of a sequence.

ghost use Rattle.std.specs.Prelude.{◌≡◌, ◌⊎◌, ◌≤◌, None, Some, IfOk, OnOk, IfErr, length, drop};
ghost use Rattle.flow_schedule.specs.Picture.{IsPicture};
ghost use Rattle.flow_c.specs.Statuses.{number, done, memory};
ghost use Rattle.flow_c.specs.Faults.{shop_of, numbers_fault, makespan_fault};
ghost use Rattle.flow_c.specs.Pictures.{IsPictureTooLong, bound_of};
ghost use Rattle.flow_c.specs.Checks.{ReportsCheck};
ghost use Rattle.flow_c.specs.Rooms.{IsSameRoom, text_in};

use crate::fault::Fault;
use crate::outcome::Outcome;
use crate::room::need;
use crate::shop::ShopNumbers;
use crate::text::TextRoom;
use flow_schedule::timetable_picture;
use flow_shop::{Instance, Sequence};
use std::alloc::Global;

/// A lower bound, where there is one.
fn bound(lower: u64) -> Option<u64>
    ensures { result ≡ bound_of lower }
{
    if lower == 0 { None } else { Some(lower) }
}

/// The picture of a sequence, where there is room for so many bytes.
fn picture_from(
    alloc: Global,
    instance: &Instance,
    sequence: &Sequence,
    lower: Option<u64>,
    room: usize,
) -> Result<Vec<u8>, Fault>
    requires { length sequence.now ≡ instance.now.jobs }
    ensures picture { IfOk result (λ text. IsPicture instance.now sequence.now lower text.items) }
    ensures enough { IfOk result (λ text. length text.items ≤ room) }
    ensures refused { IfErr result (λ fault. (number fault ≡ memory)
        ⊎ IsPictureTooLong instance.now sequence.now lower room fault) }
{
    let text = timetable_picture(alloc, instance, sequence, lower)?;
    need(text.len(), room)?;
    Ok(text)
}

/// The picture of a sequence of the instance of these numbers, where there is room for so many bytes.
fn picture_of(
    alloc: Global,
    shop: &ShopNumbers,
    sequence: &[u16],
    lower: u64,
    room: usize,
) -> Result<Vec<u8>, Fault>
    ensures picture { IfOk result (λ text. IsPicture (shop_of shop.now) sequence.now (bound_of lower) text.items) }
    ensures enough { IfOk result (λ text. length text.items ≤ room) }
    ensures accepted { OnOk result (makespan_fault shop.now sequence.now ≡ None) }
    ensures refused { IfErr result (λ fault. (number fault ≡ memory)
        ⊎ (makespan_fault shop.now sequence.now ≡ Some fault)
        ⊎ ((makespan_fault shop.now sequence.now ≡ None)
        × IsPictureTooLong (shop_of shop.now) sequence.now (bound_of lower) room fault)) }
    ensures memory { IfErr result (λ fault. number fault ≡ memory → numbers_fault shop.now ≡ None) }
{
    let instance = shop.instance(alloc)?;
    let sequence = Sequence::new(alloc, &instance, sequence)?;
    picture_from(alloc, &instance, &sequence, bound(lower), room)
}

/// The picture of the timetable of a sequence, as SVG text: a row for each machine, a bar for each job and machine
/// where it takes time, and the bars of a heaviest path outlined. The title says what a lower bound says of the
/// makespan, where there is one; 0 says that there is none. The bytes become the first entries of the room.
#[unsafe(no_mangle)]
pub extern "C" fn flowshop_picture(
    alloc: Global,
    shop: &ShopNumbers,
    sequence: &[u16],
    lower: u64,
    text: &mut TextRoom,
) -> Outcome
    ensures status { ReportsCheck (makespan_fault shop.now sequence.now)
        (IsPictureTooLong (shop_of shop.now) sequence.now (bound_of lower) (length text.old.bytes.now)) result }
    ensures memory { result.status ≡ memory → numbers_fault shop.now ≡ None }
    ensures picture { result.status ≡ done →
        IsPicture (shop_of shop.now) sequence.now (bound_of lower) (text_in text.new) }
    ensures within { result.status ≡ done → text.new.length ≤ length text.old.bytes.now }
    ensures beyond { result.status ≡ done →
        drop text.new.length text.new.bytes.now ≡ drop text.new.length text.old.bytes.now }
    ensures room { IsSameRoom text.new.bytes text.old.bytes }
    ensures stays { result.status ≡ done → result.place ≡ 0 }
    ensures kept { (result.status ≡ done) ⊎ (text.new ≡ text.old) }
{
    match picture_of(alloc, shop, sequence, lower, text.bytes.len()) {
        Ok(picture) => {
            text.put(picture.as_slice());
            Outcome::done()
        }
        Err(fault) => Outcome::refused(fault),
    }
}
