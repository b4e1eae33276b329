//! The time axis of a picture.

ghost use Rattle.std.specs.Prelude.{◌≡◌, ◌≤◌, ◌++◌, OnOk};
ghost use Rattle.flow_limits.specs.Limits.{greatest_completion};
ghost use Rattle.flow_schedule.specs.Scale.{steps_of, IsRoundUp, IsTickStep, greatest_breadth, greatest_bottom};
ghost use Rattle.flow_schedule.specs.PictureHead.{line_text, time_text, ticks_text, axis_name_text};

use crate::scale::{LEFT, TOP, x_of};
use crate::text::push_words;
use std::alloc::AllocError;

/// How wide a step is at least.
const STEP: u64 = 8_000;

/// The least number that is no smaller, of the numbers 1, 2 and 5 times a power of ten.
fn round_up(number: u64) -> u64
    requires { number ≤ greatest_completion }
    ensures value { IsRoundUp number result }
    ensures some { 1 ≤ result }
{
    let mut unit = 1;
    while number > 10 * unit {
        unit *= 10;
    }
    if number <= unit {
        unit
    } else if number <= 2 * unit {
        2 * unit
    } else if number <= 5 * unit {
        5 * unit
    } else {
        10 * unit
    }
}

/// The time between two ticks, where the makespan is so wide.
pub(crate) fn tick_step(breadth: u64, makespan: u64) -> u64
    requires breadth { 8000 ≤ breadth }
    requires makespan { makespan ≤ greatest_completion }
    ensures value { IsTickStep makespan (steps_of breadth) result }
    ensures some { 1 ≤ result }
{
    round_up(makespan.div_ceil(breadth / STEP))
}

/// Adds the line of a tick.
fn push_line(
    out: &mut Vec<u8>,
    breadth: u64,
    makespan: u64,
    bottom: u64,
    time: u64,
) -> Result<(), AllocError>
    requires breadth { breadth ≤ greatest_breadth }
    requires time { time ≤ greatest_completion }
    requires bottom { bottom ≤ greatest_bottom }
    ensures { OnOk result (out.new.items ≡ out.old.items ++ line_text breadth makespan bottom time) }
{
    let x = x_of(breadth, makespan, time);
    push_words(out, b"<line x1=\"", x)?;
    push_words(out, b"\" y1=\"", TOP - 300)?;
    push_words(out, b"\" x2=\"", x)?;
    push_words(out, b"\" y2=\"", bottom + 500)?;
    out.extend_from_slice(b"\" stroke=\"#bbbbbb\" stroke-width=\"60\"/>")?;
    Ok(())
}

/// Adds the time of a tick.
fn push_time(
    out: &mut Vec<u8>,
    breadth: u64,
    makespan: u64,
    bottom: u64,
    time: u64,
) -> Result<(), AllocError>
    requires breadth { breadth ≤ greatest_breadth }
    requires time { time ≤ greatest_completion }
    requires bottom { bottom ≤ greatest_bottom }
    ensures { OnOk result (out.new.items ≡ out.old.items ++ time_text breadth makespan bottom time) }
{
    push_words(out, b"<text x=\"", x_of(breadth, makespan, time))?;
    push_words(out, b"\" y=\"", bottom + 2_000)?;
    push_words(out, b"\" text-anchor=\"middle\">", time)?;
    out.extend_from_slice(b"</text>\n")?;
    Ok(())
}

/// Adds the ticks from time 0 to the makespan.
pub(crate) fn push_ticks(
    out: &mut Vec<u8>,
    breadth: u64,
    makespan: u64,
    bottom: u64,
    step: u64,
) -> Result<(), AllocError>
    requires breadth { breadth ≤ greatest_breadth }
    requires makespan { makespan ≤ greatest_completion }
    requires bottom { bottom ≤ greatest_bottom }
    requires step { 1 ≤ step }
    ensures { OnOk result (out.new.items ≡ out.old.items ++ ticks_text breadth makespan bottom step) }
{
    for count in 0..makespan / step + 1 {
        let time = count * step;
        push_line(out, breadth, makespan, bottom, time)?;
        push_time(out, breadth, makespan, bottom, time)?;
    }
    Ok(())
}

/// Adds the name of the axis.
pub(crate) fn push_axis_name(out: &mut Vec<u8>, bottom: u64) -> Result<(), AllocError>
    requires { bottom ≤ greatest_bottom }
    ensures { OnOk result (out.new.items ≡ out.old.items ++ axis_name_text bottom) }
{
    push_words(out, b"<text x=\"", LEFT - 1_000)?;
    push_words(out, b"\" y=\"", bottom + 2_000)?;
    out.extend_from_slice(b"\" text-anchor=\"end\">time</text>\n")
}
