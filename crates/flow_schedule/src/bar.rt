//! The bar of an operation.

ghost use Rattle.std.specs.Prelude.{◌≡◌, ◌≤◌, ◌+◌, ◌*◌, ◌↔◌, ◌++◌, IsTrue, length, decimal, OnOk};
ghost use Rattle.flow_limits.specs.Limits.{greatest_completion};
ghost use Rattle.flow_schedule.specs.Scale.{greatest_breadth, greatest_x};
ghost use Rattle.flow_schedule.specs.Picture.{width_of, is_on_path, position_text, outline_text};
ghost use Rattle.flow_schedule.specs.Picture.{style_text, names_text, times_text, label_text, drawn_text, bar_text};

use crate::colours::{colour, ink};
use crate::operations::Operation;
use crate::scale::{x_of, y_of};
use crate::text::push_words;
use itoa::Buffer;
use std::alloc::AllocError;

/// How much of the room of a bar stays white at its right end, at most.
const EDGE: u64 = 80;

/// How wide a digit is, in the font of the bars.
const DIGIT: u64 = 640;

/// How much room a number needs beside its digits.
const MARGIN: u64 = 160;

/// How wide the bar of an operation is in its room.
fn width_of(room: u64) -> u64
    ensures { result ≡ width_of room }
{
    room - EDGE.min(room / 4)
}

/// Whether a path, given by the last machine of each job, goes over an operation.
fn is_on_path(path: &[u16], operation: &Operation) -> bool
    requires from { 1 ≤ operation.now.place }
    requires to { operation.now.place ≤ length path.now }
    ensures { result ≡ is_on_path path.now operation.now }
{
    let index = operation.place as usize - 1;
    let first = if index == 0 { 1 } else { path[index - 1] };
    first <= operation.machine && operation.machine <= path[index]
}

/// Adds where a bar stands, and how wide it is.
fn push_position(
    out: &mut Vec<u8>,
    operation: &Operation,
    x: u64,
    width: u64,
) -> Result<(), AllocError>
    requires { 1 ≤ operation.now.machine }
    ensures { OnOk result (out.new.items ≡ out.old.items ++ position_text x width operation.now) }
{
    push_words(out, b"<rect x=\"", x)?;
    push_words(out, b"\" y=\"", y_of(operation.machine))?;
    push_words(out, b"\" width=\"", width)
}

/// Adds an outline of a bar.
fn push_outline(out: &mut Vec<u8>, width: u64) -> Result<(), AllocError>
    ensures { OnOk result (out.new.items ≡ out.old.items ++ outline_text width) }
{
    push_words(
        out,
        b"\" stroke=\"#000000\" stroke-width=\"300\" stroke-dasharray=\"",
        width,
    )?;
    out.extend_from_slice(b" 2400")?;
    Ok(())
}

/// Adds the height of a bar and its colour, and an outline where it is on the path.
fn push_style(
    out: &mut Vec<u8>,
    path: &[u16],
    operation: &Operation,
    width: u64,
) -> Result<(), AllocError>
    requires from { 1 ≤ operation.now.place }
    requires to { operation.now.place ≤ length path.now }
    ensures { OnOk result (out.new.items ≡ out.old.items ++ style_text path.now width operation.now) }
{
    out.extend_from_slice(b"\" height=\"2400\" fill=\"")?;
    out.extend_from_slice(colour(operation.place))?;
    if is_on_path(path, operation) {
        push_outline(out, width)?;
    }
    Ok(())
}

/// Adds the job and the machine of a bar, for a reader who points at it.
fn push_names(out: &mut Vec<u8>, operation: &Operation) -> Result<(), AllocError>
    ensures { OnOk result (out.new.items ≡ out.old.items ++ names_text operation.now) }
{
    push_words(out, b"\"><title>job ", u64::from(operation.job))?;
    push_words(out, b", machine ", u64::from(operation.machine))?;
    Ok(())
}

/// Adds the start and the end of a bar, for a reader who points at it.
fn push_times(out: &mut Vec<u8>, operation: &Operation) -> Result<(), AllocError>
    ensures { OnOk result (out.new.items ≡ out.old.items ++ times_text operation.now) }
{
    push_words(out, b", start ", operation.start)?;
    push_words(out, b", end ", operation.end)?;
    out.extend_from_slice(b"</title></rect>\n")
}

/// Whether the number of a job has room in a bar.
fn has_room(job: u16, width: u64) -> bool
    ensures { IsTrue result ↔ (length (decimal job) * 640 + 160 ≤ width) }
{
    let mut buffer = Buffer::new();
    buffer.format(job).len() as u64 * DIGIT + MARGIN <= width
}

/// Adds the number of the job in its bar, where there is room.
fn push_label(
    out: &mut Vec<u8>,
    operation: &Operation,
    x: u64,
    width: u64,
) -> Result<(), AllocError>
    requires machine { 1 ≤ operation.now.machine }
    requires x { x ≤ greatest_x }
    requires width { width ≤ greatest_x }
    ensures { OnOk result (out.new.items ≡ out.old.items ++ label_text x width operation.now) }
{
    if !has_room(operation.job, width) {
        return Ok(());
    }
    push_words(out, b"<text x=\"", x + width / 2)?;
    push_words(out, b"\" y=\"", y_of(operation.machine) + 1_560)?;
    push_words(out, ink(operation.place), u64::from(operation.job))?;
    out.extend_from_slice(b"</text>\n")
}

/// Adds the bar of an operation, which begins at x.
fn push_drawn(
    out: &mut Vec<u8>,
    path: &[u16],
    operation: &Operation,
    x: u64,
    width: u64,
) -> Result<(), AllocError>
    requires from { 1 ≤ operation.now.place }
    requires to { operation.now.place ≤ length path.now }
    requires machine { 1 ≤ operation.now.machine }
    requires x { x ≤ greatest_x }
    requires width { width ≤ greatest_x }
    ensures { OnOk result (out.new.items ≡ out.old.items ++ drawn_text path.now x width operation.now) }
{
    push_position(out, operation, x, width)?;
    push_style(out, path, operation, width)?;
    push_names(out, operation)?;
    push_times(out, operation)?;
    push_label(out, operation, x, width)?;
    Ok(())
}

/// Adds what is drawn of an operation: nothing where it takes no time.
pub(crate) fn push_bar(
    out: &mut Vec<u8>,
    breadth: u64,
    makespan: u64,
    path: &[u16],
    operation: &Operation,
) -> Result<(), AllocError>
    requires breadth { breadth ≤ greatest_breadth }
    requires from { 1 ≤ operation.now.place }
    requires to { operation.now.place ≤ length path.now }
    requires machine { 1 ≤ operation.now.machine }
    requires end { operation.now.end ≤ greatest_completion }
    ensures { OnOk result
        (out.new.items ≡ out.old.items ++ bar_text breadth makespan path.now operation.now) }
{
    if operation.end <= operation.start {
        return Ok(());
    }
    let x = x_of(breadth, makespan, operation.start);
    let room = x_of(breadth, makespan, operation.end) - x;
    push_drawn(out, path, operation, x, width_of(room))
}
