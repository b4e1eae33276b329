//! The picture of a sequence: a Gantt chart as SVG text.

ghost use Rattle.std.specs.Prelude.{◌≡◌, length, IfOk};
ghost use Rattle.flow_schedule.specs.Picture.{IsPicture};

use crate::axis::tick_step;
use crate::bar::push_bar;
use crate::operations::timetable;
use crate::path::heaviest_path;
use crate::picture_head::head;
use crate::scale::breadth_of;
use flow_shop::{Instance, Sequence, makespan};
use std::alloc::{AllocError, Global};

/// The picture of a sequence of all the instance's jobs, as SVG text: a row for each machine, a bar for each job and
/// machine where it takes time, and the bars of a heaviest staircase path outlined. Its title says that the makespan is
/// optimal where it is `lower`, a lower bound of the least makespan that the caller knows, and names a bound below it.
/// Whether that number is a lower bound is not looked at.
pub fn timetable_picture(
    alloc: Global,
    instance: &Instance,
    sequence: &Sequence,
    lower: Option<u64>,
) -> Result<Vec<u8>, AllocError>
    requires { length sequence.now ≡ instance.now.jobs }
    ensures { IfOk result (λ text. IsPicture instance.now sequence.now lower text.items) }
{
    let makespan = makespan(instance, sequence);
    let operations = timetable(alloc, instance, sequence)?;
    let path = heaviest_path(alloc, instance, sequence.jobs(), operations.as_slice())?;
    let breadth = breadth_of(instance);
    let step = tick_step(breadth, makespan);
    let mut out = head(alloc, instance, breadth, makespan, lower, step)?;
    for operation in &operations {
        push_bar(&mut out, breadth, makespan, path.as_slice(), operation)?;
    }
    out.extend_from_slice(b"</g></svg>\n")?;
    Ok(out)
}
