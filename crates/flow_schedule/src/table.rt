//! The timetable as a CSV table.

ghost use Rattle.std.specs.Prelude.{◌≡◌, ◌++◌, length, IfOk, OnOk};
ghost use Rattle.flow_schedule.specs.Table.{csv_line, csv_text};

use crate::operations::{Operation, timetable};
use crate::text::push_number;
use flow_shop::{Instance, Sequence};
use std::alloc::{AllocError, Global};

/// Adds the line of an operation.
fn push_line(out: &mut Vec<u8>, operation: &Operation) -> Result<(), AllocError>
    ensures { OnOk result (out.new.items ≡ out.old.items ++ csv_line operation.now) }
{
    push_number(out, u64::from(operation.job))?;
    out.push(b',')?;
    push_number(out, u64::from(operation.machine))?;
    out.push(b',')?;
    push_number(out, operation.start)?;
    out.push(b',')?;
    push_number(out, operation.end)?;
    out.push(b'\n')?;
    Ok(())
}

/// The timetable of a sequence of all the instance's jobs as a CSV table: a line with the names of the columns, then a
/// line for each job in the order of the sequence and each machine, with LF at its end.
pub fn timetable_csv(
    alloc: Global,
    instance: &Instance,
    sequence: &Sequence,
) -> Result<Vec<u8>, AllocError>
    requires { length sequence.now ≡ instance.now.jobs }
    ensures { IfOk result (λ text. text.items ≡ csv_text instance.now sequence.now) }
{
    let operations = timetable(alloc, instance, sequence)?;
    let mut out = Vec::from_slice(alloc, b"job,machine,start,end\n")?;
    for operation in &operations {
        push_line(&mut out, operation)?;
    }
    Ok(out)
}
