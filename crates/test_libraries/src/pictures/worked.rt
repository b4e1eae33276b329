//! The timetables of small instances, and their tables and pictures.

use flow_schedule::{timetable, timetable_csv, timetable_picture};
use flow_shop::{Instance, Sequence};
use std::alloc::Global;
use std::test::Fail;

/// The table of a sequence of an instance.
fn table_of(
    alloc: Global,
    sizes: (u32, u32),
    times: &[u32],
    jobs: &[u16],
) -> Result<Vec<u8>, Fail> {
    let instance = Instance::new(alloc, sizes.0, sizes.1, times)?;
    let sequence = Sequence::new(alloc, &instance, jobs)?;
    Ok(timetable_csv(alloc, &instance, &sequence)?)
}

/// The picture of a sequence of an instance, with a lower bound.
fn picture_of(
    alloc: Global,
    sizes: (u32, u32),
    times: &[u32],
    jobs: &[u16],
    lower: Option<u64>,
) -> Result<Vec<u8>, Fail> {
    let instance = Instance::new(alloc, sizes.0, sizes.1, times)?;
    let sequence = Sequence::new(alloc, &instance, jobs)?;
    Ok(timetable_picture(alloc, &instance, &sequence, lower)?)
}

/// Three jobs on three machines.
const THREE: [u32; 9] = [4, 0, 0, 0, 8, 2, 4, 0, 1];

#[test]
fn table_has_starts_and_ends(rt: HostRuntime) -> Result<(), Fail> {
    let alloc = rt.alloc();
    let three = table_of(alloc, (3, 3), &THREE, &[3, 1, 2])?;
    let expected = b"job,machine,start,end\n3,1,0,0\n3,2,0,2\n3,3,2,3\n1,1,0,4\n1,2,4,4\n1,3,4,8\n\
        2,1,4,4\n2,2,4,12\n2,3,12,12\n";
    assert_eq!(rt; three.as_slice(), expected.as_slice());
    let two = table_of(alloc, (3, 2), &[3, 1, 2, 2, 4, 2], &[2, 3, 1])?;
    let expected = b"job,machine,start,end\n2,1,0,1\n2,2,1,5\n3,1,1,3\n3,2,5,7\n1,1,3,6\n1,2,7,9\n";
    assert_eq!(rt; two.as_slice(), expected.as_slice());
    let one = table_of(alloc, (1, 1), &[5], &[1])?;
    assert_eq!(rt;
        one.as_slice(),
        b"job,machine,start,end\n1,1,0,5\n".as_slice()
    );
    Ok(())
}

#[test]
fn timetable_has_places(rt: HostRuntime) -> Result<(), Fail> {
    let alloc = rt.alloc();
    let instance = Instance::new(alloc, 2, 1, &[5, 6])?;
    let sequence = Sequence::new(alloc, &instance, &[2, 1])?;
    let operations = timetable(alloc, &instance, &sequence)?;
    let [first, second] = operations.as_slice() else {
        return Err(Fail::from("not two operations"));
    };
    assert_eq!(rt;
        (
            first.place,
            first.job,
            first.machine,
            first.start,
            first.end
        ),
        (1, 2, 1, 0, 6)
    );
    assert_eq!(rt;
        (
            second.place,
            second.job,
            second.machine,
            second.start,
            second.end
        ),
        (2, 1, 1, 6, 11)
    );
    Ok(())
}

/// The bars of the three jobs in the order 3 1 2, whose makespan is 12, and the end of their picture. The heaviest path
/// goes from job 3 on machine 1 over job 1 on the machines 1 and 2 to job 2 on the machines 2 and 3. A unit of time is
/// 8000 wide, of which 80 stay white at the right end of a bar.
const BARS: &[u8] = b"<g text-anchor=\"middle\" font-size=\"1000\">\n\
<rect x=\"9000\" y=\"9200\" width=\"15920\" height=\"2400\" fill=\"#004C7F\">\
<title>job 3, machine 2, start 0, end 2</title></rect>\n<text x=\"16960\" y=\"10760\" fill=\"#ffffff\">3</text>\n\
<rect x=\"25000\" y=\"12200\" width=\"7920\" height=\"2400\" fill=\"#004C7F\">\
<title>job 3, machine 3, start 2, end 3</title></rect>\n<text x=\"28960\" y=\"13760\" fill=\"#ffffff\">3</text>\n\
<rect x=\"9000\" y=\"6200\" width=\"31920\" height=\"2400\" fill=\"#F0C800\" \
stroke=\"#000000\" stroke-width=\"300\" stroke-dasharray=\"31920 2400\">\
<title>job 1, machine 1, start 0, end 4</title></rect>\n<text x=\"24960\" y=\"7760\">1</text>\n\
<rect x=\"41000\" y=\"12200\" width=\"31920\" height=\"2400\" fill=\"#F0C800\">\
<title>job 1, machine 3, start 4, end 8</title></rect>\n<text x=\"56960\" y=\"13760\">1</text>\n\
<rect x=\"41000\" y=\"9200\" width=\"63920\" height=\"2400\" fill=\"#8F2D00\" \
stroke=\"#000000\" stroke-width=\"300\" stroke-dasharray=\"63920 2400\">\
<title>job 2, machine 2, start 4, end 12</title></rect>\n<text x=\"72960\" y=\"10760\" fill=\"#ffffff\">2</text>\n\
</g></svg>\n";

#[test]
fn picture_has_the_bars(rt: HostRuntime) -> Result<(), Fail> {
    let picture = picture_of(rt.alloc(), (3, 3), &THREE, &[3, 1, 2], None)?;
    assert!(rt;
        picture.as_slice().starts_with(
            b"<svg xmlns=\"http://www.w3.org/2000/svg\" width=\"1095\" height=\"183\""
        )
    );
    assert!(rt; picture.as_slice().ends_with(BARS));
    Ok(())
}

/// Five bars where a unit of time is one unit wide, and the end of their picture. The first ones keep three quarters of
/// their room; the label of job 4 has just the room that it needs, and job 3 has one unit less.
const NARROW: &[u8] = b"<g text-anchor=\"middle\" font-size=\"1000\">\n\
<rect x=\"9000\" y=\"6200\" width=\"1\" height=\"2400\" fill=\"#004C7F\" \
stroke=\"#000000\" stroke-width=\"300\" stroke-dasharray=\"1 2400\">\
<title>job 1, machine 1, start 0, end 1</title></rect>\n\
<rect x=\"9001\" y=\"6200\" width=\"240\" height=\"2400\" fill=\"#F0C800\" \
stroke=\"#000000\" stroke-width=\"300\" stroke-dasharray=\"240 2400\">\
<title>job 2, machine 1, start 1, end 320</title></rect>\n\
<rect x=\"9320\" y=\"6200\" width=\"799\" height=\"2400\" fill=\"#8F2D00\" \
stroke=\"#000000\" stroke-width=\"300\" stroke-dasharray=\"799 2400\">\
<title>job 3, machine 1, start 320, end 1199</title></rect>\n\
<rect x=\"10199\" y=\"6200\" width=\"800\" height=\"2400\" fill=\"#7CC4F0\" \
stroke=\"#000000\" stroke-width=\"300\" stroke-dasharray=\"800 2400\">\
<title>job 4, machine 1, start 1199, end 2079</title></rect>\n<text x=\"10599\" y=\"7760\">4</text>\n\
<rect x=\"11079\" y=\"6200\" width=\"93841\" height=\"2400\" fill=\"#00594A\" \
stroke=\"#000000\" stroke-width=\"300\" stroke-dasharray=\"93841 2400\">\
<title>job 5, machine 1, start 2079, end 96000</title></rect>\n<text x=\"57999\" y=\"7760\" fill=\"#ffffff\">5</text>\n\
</g></svg>\n";

#[test]
fn narrow_bars_have_no_label(rt: HostRuntime) -> Result<(), Fail> {
    let times = [1, 319, 879, 880, 93_921];
    let picture = picture_of(rt.alloc(), (5, 1), &times, &[1, 2, 3, 4, 5], None)?;
    assert!(rt; picture.as_slice().ends_with(NARROW));
    Ok(())
}

/// How many jobs there are on one machine, each with the time 4, how the picture begins, and how many ticks it has.
const WIDTHS: [(u16, &[u8], usize); 3] = rows! {
    25, b"<svg xmlns=\"http://www.w3.org/2000/svg\" width=\"1095\"", 11;
    26, b"<svg xmlns=\"http://www.w3.org/2000/svg\" width=\"1107\"", 11;
    39, b"<svg xmlns=\"http://www.w3.org/2000/svg\" width=\"1575\"", 16;
};

#[test]
fn picture_is_as_wide_as_its_jobs_need(rt: HostRuntime) -> Result<(), Fail> {
    let alloc = rt.alloc();
    for (count, head, ticks) in WIDTHS {
        let mut jobs = Vec::new(alloc);
        for job in 1..count + 1 {
            jobs.push(job)?;
        }
        let times = vec![in alloc; 4; count as usize]?;
        let sizes = (u32::from(count), 1);
        let picture = picture_of(alloc, sizes, times.as_slice(), jobs.as_slice(), None)?;
        assert!(rt; picture.as_slice().starts_with(head));
        let lines = picture.as_slice().split(|byte| *byte == b'\n');
        assert_eq!(rt;
            lines.filter(|line| line.starts_with(b"<line ")).count(),
            ticks
        );
    }
    Ok(())
}

/// What the title says of the makespan 12, by the lower bound.
const TITLES: [(Option<u64>, &[u8]); 5] = rows! {
    None, b"<title>makespan 12, jobs 3, machines 3</title>\n";
    Some(0), b"<title>makespan 12, lower bound 0, jobs 3, machines 3</title>\n";
    Some(11), b"<title>makespan 12, lower bound 11, jobs 3, machines 3</title>\n";
    Some(12), b"<title>optimal 12, jobs 3, machines 3</title>\n";
    Some(13), b"<title>makespan 12, jobs 3, machines 3</title>\n";
};

#[test]
fn title_has_the_lower_bound(rt: HostRuntime) -> Result<(), Fail> {
    let alloc = rt.alloc();
    for (lower, title) in TITLES {
        let picture = picture_of(alloc, (3, 3), &THREE, &[3, 1, 2], lower)?;
        let mut lines = picture.as_slice().split_inclusive(|byte| *byte == b'\n');
        lines.next();
        assert_eq!(rt; lines.next(), Some(title));
    }
    Ok(())
}

#[test]
fn picture_of_no_times_has_no_bars(rt: HostRuntime) -> Result<(), Fail> {
    let picture = picture_of(rt.alloc(), (1, 1), &[0], &[1], Some(0))?;
    assert!(rt; picture.as_slice().starts_with(b"<svg "));
    assert!(rt;
        picture.as_slice().ends_with(
            b"machine 1</text>\n<g text-anchor=\"middle\" font-size=\"1000\">\n</g></svg>\n"
        )
    );
    Ok(())
}
