//! The head of a picture: the title, the heading, the time axis, and the names of the rows.

ghost use Rattle.std.specs.Prelude.{◌≡◌, ◌≤◌, ◌++◌, OnOk, IfOk};
ghost use Rattle.std.specs.List.{flat_map};
ghost use Rattle.flow_limits.specs.Limits.{greatest_completion, most_machines};
ghost use Rattle.flow_shop.specs.Shop.{numbers};
ghost use Rattle.flow_schedule.specs.Scale.{greatest_breadth};
ghost use Rattle.flow_schedule.specs.PictureHead.{svg_text, value_text, sizes_text, title_text, sheet_text};
ghost use Rattle.flow_schedule.specs.PictureHead.{heading_text, legend_text, top_text, machine_name_text, head_text};

use crate::axis::{push_axis_name, push_ticks};
use crate::scale::{LEFT, ROW, TOP, y_of};
use crate::text::push_words;
use flow_shop::Instance;
use std::alloc::{AllocError, Global};

/// The room right of the makespan.
const RIGHT: u64 = 4_500;

/// The room below the rows.
const BELOW: u64 = 3_400;

/// Adds the opening of the picture with its size.
fn push_svg(out: &mut Vec<u8>, width: u64, height: u64) -> Result<(), AllocError>
    ensures { OnOk result (out.new.items ≡ out.old.items ++ svg_text width height) }
{
    push_words(
        out,
        b"<svg xmlns=\"http://www.w3.org/2000/svg\" width=\"",
        width / 100,
    )?;
    push_words(out, b"\" height=\"", height / 100)?;
    push_words(out, b"\" viewBox=\"0 0 ", width)?;
    push_words(out, b" ", height)?;
    out.extend_from_slice(b"\" font-family=\"sans-serif\" font-size=\"1200\">\n")?;
    Ok(())
}

/// Adds the makespan, and what a lower bound says of it: nothing where it is above.
fn push_value(out: &mut Vec<u8>, makespan: u64, lower: Option<u64>) -> Result<(), AllocError>
    ensures { OnOk result (out.new.items ≡ out.old.items ++ value_text makespan lower) }
{
    let Some(lower) = lower else {
        return push_words(out, b"makespan ", makespan);
    };
    if lower == makespan {
        return push_words(out, b"optimal ", makespan);
    }
    push_words(out, b"makespan ", makespan)?;
    if lower < makespan {
        push_words(out, b", lower bound ", lower)?;
    }
    Ok(())
}

/// Adds the makespan with its lower bound, and the sizes.
fn push_sizes(
    out: &mut Vec<u8>,
    instance: &Instance,
    makespan: u64,
    lower: Option<u64>,
) -> Result<(), AllocError>
    ensures { OnOk result (out.new.items ≡ out.old.items ++ sizes_text instance.now makespan lower) }
{
    push_value(out, makespan, lower)?;
    push_words(out, b", jobs ", u64::from(instance.jobs()))?;
    push_words(out, b", machines ", u64::from(instance.machines()))
}

/// Adds the title that a screen reader says.
fn push_title(
    out: &mut Vec<u8>,
    instance: &Instance,
    makespan: u64,
    lower: Option<u64>,
) -> Result<(), AllocError>
    ensures { OnOk result (out.new.items ≡ out.old.items ++ title_text instance.now makespan lower) }
{
    out.extend_from_slice(b"<title>")?;
    push_sizes(out, instance, makespan, lower)?;
    out.extend_from_slice(b"</title>\n")
}

/// Adds the white sheet.
fn push_sheet(out: &mut Vec<u8>, width: u64, height: u64) -> Result<(), AllocError>
    ensures { OnOk result (out.new.items ≡ out.old.items ++ sheet_text width height) }
{
    push_words(out, b"<path d=\"M0 0H", width)?;
    push_words(out, b"V", height)?;
    out.extend_from_slice(b"H0z\" fill=\"#ffffff\"/>\n")?;
    Ok(())
}

/// Adds the heading: the makespan and the sizes.
fn push_heading(
    out: &mut Vec<u8>,
    instance: &Instance,
    makespan: u64,
    lower: Option<u64>,
) -> Result<(), AllocError>
    ensures { OnOk result (out.new.items ≡ out.old.items ++ heading_text instance.now makespan lower) }
{
    push_words(out, b"<text x=\"", LEFT)?;
    out.extend_from_slice(b"\" y=\"2400\" font-size=\"1600\">")?;
    push_sizes(out, instance, makespan, lower)?;
    out.extend_from_slice(b"</text>\n")
}

/// Adds what the outline means.
fn push_legend(out: &mut Vec<u8>) -> Result<(), AllocError>
    ensures { OnOk result (out.new.items ≡ out.old.items ++ legend_text) }
{
    push_words(out, b"<text x=\"", LEFT)?;
    out.extend_from_slice(b"\" y=\"4700\">")?;
    out.extend_from_slice(
        b"outlined: these operations leave no room; together they take the whole time</text>\n",
    )?;
    Ok(())
}

/// Adds what stands above the rows.
fn push_top(
    out: &mut Vec<u8>,
    instance: &Instance,
    makespan: u64,
    lower: Option<u64>,
    width: u64,
    height: u64,
) -> Result<(), AllocError>
    ensures { OnOk result
        (out.new.items ≡ out.old.items ++ top_text instance.now makespan lower width height) }
{
    push_svg(out, width, height)?;
    push_title(out, instance, makespan, lower)?;
    push_sheet(out, width, height)?;
    push_heading(out, instance, makespan, lower)?;
    push_legend(out)
}

/// Adds the name of a machine.
fn push_machine_name(out: &mut Vec<u8>, machine: u16) -> Result<(), AllocError>
    requires { 1 ≤ machine }
    ensures { OnOk result (out.new.items ≡ out.old.items ++ machine_name_text machine) }
{
    push_words(out, b"<text x=\"", LEFT - 1_000)?;
    push_words(out, b"\" y=\"", y_of(machine) + 1_650)?;
    push_words(out, b"\" text-anchor=\"end\">machine ", u64::from(machine))?;
    out.extend_from_slice(b"</text>\n")?;
    Ok(())
}

/// Adds the names of the machines.
fn push_machine_names(out: &mut Vec<u8>, machines: u16) -> Result<(), AllocError>
    requires { machines ≤ most_machines }
    ensures { OnOk result
        (out.new.items ≡ out.old.items ++ flat_map machine_name_text (numbers 1 machines)) }
{
    for machine in 1..machines + 1 {
        push_machine_name(out, machine)?;
    }
    Ok(())
}

/// The text of a picture up to its bars, with ticks that are a step apart.
pub(crate) fn head(
    alloc: Global,
    instance: &Instance,
    breadth: u64,
    makespan: u64,
    lower: Option<u64>,
    step: u64,
) -> Result<Vec<u8>, AllocError>
    requires breadth { breadth ≤ greatest_breadth }
    requires makespan { makespan ≤ greatest_completion }
    requires step { 1 ≤ step }
    ensures { IfOk result (λ text. text.items ≡ head_text instance.now breadth makespan lower step) }
{
    let machines = instance.machines();
    let bottom = TOP - 300 + u64::from(machines) * ROW;
    let mut out = Vec::new(alloc);
    let width = LEFT + breadth + RIGHT;
    push_top(&mut out, instance, makespan, lower, width, bottom + BELOW)?;
    push_ticks(&mut out, breadth, makespan, bottom, step)?;
    push_axis_name(&mut out, bottom)?;
    push_machine_names(&mut out, machines)?;
    out.extend_from_slice(b"<g text-anchor=\"middle\" font-size=\"1000\">\n")?;
    Ok(out)
}
