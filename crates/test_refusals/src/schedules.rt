//! The timetable of a sequence, its table and its picture.

use flow_commands::CommandFault;
use flow_core::{Instance, Sequence};
use flow_schedule::{Operation, timetable, timetable_csv, timetable_picture};
use std::alloc::Global;

/// The table of the instance with two machines in the order 2 3 1.
pub(crate) const TABLE: &[u8] =
    b"job,machine,start,end\n2,1,0,1\n2,2,1,5\n3,1,1,3\n3,2,5,7\n1,1,3,6\n1,2,7,9\n";

/// The end of the picture of the instance with three machines in the order 3 1 2.
const LAST_BAR: &[u8] = b"<title>job 2, machine 2, start 4, end 12</title></rect>\n\
<text x=\"72960\" y=\"10760\" fill=\"#ffffff\">2</text>\n</g></svg>\n";

/// When the last of these operations ends.
fn last_end(operations: &[Operation]) -> u64 {
    let mut last = 0;
    for operation in operations {
        last = last.max(operation.end);
    }
    last
}

/// `timetable` and `timetable_csv` of the instance with two machines.
pub(crate) fn table_is_made(alloc: Global, two: &Instance) -> Result<bool, CommandFault> {
    let sequence = Sequence::new(alloc, two, &[2, 3, 1])?;
    let ends = timetable(alloc, two, &sequence)?;
    let right = last_end(ends.as_slice()) == 9;
    let table = timetable_csv(alloc, two, &sequence)?;
    Ok(right && table.as_slice() == TABLE)
}

/// Whether a picture begins and ends as that of the instance with three machines.
pub(crate) fn is_picture(bytes: &[u8]) -> bool {
    bytes.starts_with(b"<svg ") && bytes.ends_with(LAST_BAR)
}

/// `timetable_picture` of the instance with three machines.
pub(crate) fn picture_is_made(alloc: Global, three: &Instance) -> Result<bool, CommandFault> {
    let sequence = Sequence::new(alloc, three, &[3, 1, 2])?;
    let picture = timetable_picture(alloc, three, &sequence, None)?;
    Ok(is_picture(picture.as_slice()))
}
