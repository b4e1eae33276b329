//! The greatest sizes and times.

use flow_schedule::{timetable_csv, timetable_picture};
use flow_shop::{Instance, Sequence};
use std::test::Fail;

/// How many jobs and machines there are.
const SIZES: (u16, u16) = (800, 26);

/// The greatest time.
const TIME: u32 = 999_999;

/// The makespan: a path has a time for each job and machine, but for the one where it begins.
const MAKESPAN: u64 = 824_999_175;

#[test]
fn greatest_shop_is_shown(rt: HostRuntime) -> Result<(), Fail> {
    let alloc = rt.alloc();
    let times = vec![in alloc; TIME; 20_800]?;
    let instance = Instance::new(
        alloc,
        u32::from(SIZES.0),
        u32::from(SIZES.1),
        times.as_slice(),
    )?;
    let mut jobs = Vec::new(alloc);
    for job in 1..SIZES.0 + 1 {
        jobs.push(job)?;
    }
    let sequence = Sequence::new(alloc, &instance, jobs.as_slice())?;
    let table = timetable_csv(alloc, &instance, &sequence)?;
    let last = format!(in alloc; "\n800,26,{},{MAKESPAN}\n", MAKESPAN - u64::from(TIME))?;
    assert!(rt; table.as_slice().ends_with(last.as_bytes()));
    assert_eq!(rt;
        table
            .as_slice()
            .iter()
            .filter(|byte| **byte == b'\n')
            .count(),
        20_801
    );
    let picture = timetable_picture(alloc, &instance, &sequence, None)?;
    assert!(rt; picture.len() < 8_000_000);
    Ok(())
}
