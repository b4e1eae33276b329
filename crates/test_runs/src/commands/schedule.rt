//! What `schedule` writes and refuses.

use super::texts::{
    DEPTH_0, DEPTH_3, ONE_JOB, THREE_MACHINES, TWO_ENDED_11, TWO_ENDED_12, VERSION_2,
};
use super::{Given, OF_THREE, ROOM, Wanted, answers, end_of};
use flow_check::CheckFault;
use flow_commands::{
    CommandFault, Means, Request, ScheduleForm, SecondFile, Unwatched, run_request,
};
use flow_core::{MemorySink, MemorySource, StartFault};
use std::alloc::{AllocError, Global};
use std::sync::Wait;
use std::thread::Threads;

/// A start of the text with three machines.
const START: &[u8] = b"sequence 3 1 2\nmakespan 12\n";

/// Its table, worked out by hand.
const TABLE: &[u8] =
    b"job,machine,start,end\n3,1,0,0\n3,2,0,2\n3,3,2,3\n1,1,0,4\n1,2,4,4\n1,3,4,8\n\
2,1,4,4\n2,2,4,12\n2,3,12,12\n";

/// The bars of its picture, worked out by hand: a unit of time is 8000 wide, of which 80 are the edge of a bar. The
/// heaviest path goes over job 1 on machine 1 and job 2 on machine 2.
const BARS: &[u8] = b"<g text-anchor=\"middle\" font-size=\"1000\">\n\
<rect x=\"9000\" y=\"9200\" width=\"15920\" height=\"2400\" fill=\"#004C7F\">\
<title>job 3, machine 2, start 0, end 2</title></rect>\n\
<text x=\"16960\" y=\"10760\" fill=\"#ffffff\">3</text>\n\
<rect x=\"25000\" y=\"12200\" width=\"7920\" height=\"2400\" fill=\"#004C7F\">\
<title>job 3, machine 3, start 2, end 3</title></rect>\n\
<text x=\"28960\" y=\"13760\" fill=\"#ffffff\">3</text>\n\
<rect x=\"9000\" y=\"6200\" width=\"31920\" height=\"2400\" fill=\"#F0C800\" \
stroke=\"#000000\" stroke-width=\"300\" stroke-dasharray=\"31920 2400\">\
<title>job 1, machine 1, start 0, end 4</title></rect>\n\
<text x=\"24960\" y=\"7760\">1</text>\n\
<rect x=\"41000\" y=\"12200\" width=\"31920\" height=\"2400\" fill=\"#F0C800\">\
<title>job 1, machine 3, start 4, end 8</title></rect>\n\
<text x=\"56960\" y=\"13760\">1</text>\n\
<rect x=\"41000\" y=\"9200\" width=\"63920\" height=\"2400\" fill=\"#8F2D00\" \
stroke=\"#000000\" stroke-width=\"300\" stroke-dasharray=\"63920 2400\">\
<title>job 2, machine 2, start 4, end 12</title></rect>\n\
<text x=\"72960\" y=\"10760\" fill=\"#ffffff\">2</text>\n\
</g></svg>\n";

/// The table of the sequence 2 1 3, worked out by hand.
const OTHER_TABLE: &[u8] =
    b"job,machine,start,end\n2,1,0,0\n2,2,0,8\n2,3,8,8\n1,1,0,4\n1,2,8,8\n1,3,8,12\n\
3,1,4,4\n3,2,8,10\n3,3,12,13\n";

/// A text, and a start, a certificate or a text that begins as one; and the table that is written, or the fault.
static TABLES: [(&[u8], &[u8], Wanted); 8] = rows! {
    ONE_JOB, b"sequence 1\n", Ok(b"job,machine,start,end\n1,1,0,0\n");
    THREE_MACHINES, START, Ok(TABLE);
    THREE_MACHINES, DEPTH_3, Ok(TABLE);
    THREE_MACHINES, VERSION_2, Ok(TABLE);
    THREE_MACHINES, TWO_ENDED_11, Ok(OTHER_TABLE);
    THREE_MACHINES, b"flowshop ", Err(CommandFault::Certificate(CheckFault::Header));
    THREE_MACHINES, b"flowshop", Err(CommandFault::Start(StartFault::Line(1)));
    THREE_MACHINES, b"\nflowshop two-ended 1\n3 3\n12 12\n3 1 2\n++\nend\n",
        Err(CommandFault::Start(StartFault::Line(2)));
};

/// Whether the table of a row is written, or refused.
fn holds<R: Threads + Wait + Sync>(rt: &R, alloc: Global, row: &(&[u8], &[u8], Wanted)) -> bool {
    let (text, given, wanted) = *row;
    let request = Request::Schedule(ScheduleForm::Csv);
    let texts = Given {
        text,
        second: SecondFile::StartOrCertificate(given),
        ..OF_THREE
    };
    answers(rt, alloc, &texts, &request, ROOM, end_of(wanted))
}

#[test]
fn schedule_writes_the_table(rt: HostRuntime) {
    for (number, row) in TABLES.iter().enumerate() {
        assert!(rt; holds(&rt, rt.alloc(), row), "row {number}");
    }
}

/// The schedule of a text for a start or a certificate in a form; none where it was refused.
fn scheduled<R: Threads + Wait + Sync>(
    rt: &R,
    alloc: Global,
    (text, given): (&[u8], &[u8]),
    form: ScheduleForm,
) -> Option<MemorySink> {
    let mut out = MemorySink::new(alloc, 16_000_000);
    let means = Means {
        rt,
        alloc,
        watch: &Unwatched,
    };
    let mut second = SecondFile::StartOrCertificate(MemorySource::new(given, 65_536, None));
    let mut file = MemorySource::new(text, 65_536, None);
    let request = Request::Schedule(form);
    match run_request(&means, &mut file, 1, &mut second, &request, &mut out) {
        Ok(()) => Some(out),
        Err(_) => None,
    }
}

/// A text, a start or a certificate, and of its picture the title and the end.
type Drawn = (&'static [u8], &'static [u8], &'static str, &'static [u8]);

static PICTURES: [Drawn; 5] = rows! {
    THREE_MACHINES, START, "<title>makespan 12, jobs 3, machines 3</title>", BARS;
    ONE_JOB, b"sequence 1\n", "<title>makespan 0, jobs 1, machines 1</title>",
        b"<g text-anchor=\"middle\" font-size=\"1000\">\n</g></svg>\n";
    THREE_MACHINES, DEPTH_0, "<title>optimal 12, jobs 3, machines 3</title>", BARS;
    THREE_MACHINES, TWO_ENDED_12, "<title>optimal 12, jobs 3, machines 3</title>", BARS;
    THREE_MACHINES, TWO_ENDED_11, "<title>makespan 13, lower bound 11, jobs 3, machines 3</title>", b"</g></svg>\n";
};

/// Whether the picture of a row has its title and its end.
fn is_drawn<R: Threads + Wait + Sync>(rt: &R, alloc: Global, row: &Drawn) -> bool {
    let (text, given, title, bars) = *row;
    let Some(out) = scheduled(rt, alloc, (text, given), ScheduleForm::Svg) else {
        return false;
    };
    let drawn = out.bytes();
    drawn.starts_with(b"<svg ".as_slice()) && drawn.ends_with(bars) && has_line(drawn, title)
}

/// Whether a text has one line that begins so.
fn has_line(written: &[u8], begin: &str) -> bool {
    match str::from_utf8(written) {
        Ok(text) => count_lines(text, begin) == 1,
        Err(_) => false,
    }
}

#[test]
fn schedule_draws_the_bars(rt: HostRuntime) {
    for (number, row) in PICTURES.iter().enumerate() {
        assert!(rt; is_drawn(&rt, rt.alloc(), row), "row {number}");
    }
}

/// The greatest times of 800 jobs on a machine.
fn greatest_row(alloc: Global) -> Result<Vec<u8>, AllocError> {
    let mut row = b"999999 ".repeat(alloc, 800)?;
    let _ = row.pop();
    row.push(b'\n')?;
    Ok(row)
}

/// The text of an instance with the most jobs and machines and all times the greatest.
fn greatest_text(alloc: Global) -> Result<Vec<u8>, AllocError> {
    let row = greatest_row(alloc)?;
    let mut text = Vec::from_slice(alloc, b"a\n800 26 0 0 0\nb\n")?;
    for _ in 0..26u32 {
        text.extend_from_slice(row.as_slice())?;
    }
    Ok(text)
}

/// The start text of the jobs in their own order.
fn greatest_start(alloc: Global) -> Result<Vec<u8>, AllocError> {
    let mut text = Vec::from_slice(alloc, b"sequence")?;
    for job in 1..801u32 {
        text.extend_from_slice(format!(in alloc; " {}", job)?.as_bytes())?;
    }
    text.extend_from_slice(b"\nmakespan 824999175\n")?;
    Ok(text)
}

/// How many lines of a text begin so.
fn count_lines(text: &str, begin: &str) -> u64 {
    let mut count = 0u64;
    for line in text.lines() {
        if line.starts_with(begin) {
            count = count.saturating_add(1);
        }
    }
    count
}

/// The last line of the table of the greatest size. The makespan is 825 times 999,999.
const LAST_ROW: &[u8] = b"\n800,26,823999176,824999175\n";

/// The last bar of its picture, worked out by hand: it begins at 2969995 of the 2973600 units, and leaves 80 of the
/// other 3605 free.
const LAST_BAR: &[u8] =
    b"\n<rect x=\"2978995\" y=\"81200\" width=\"3525\" height=\"2400\" fill=\"#F2B6D2\" \
stroke=\"#000000\" stroke-width=\"300\" stroke-dasharray=\"3525 2400\">\
<title>job 800, machine 26, start 823999176, end 824999175</title></rect>\n\
<text x=\"2980757\" y=\"82760\">800</text>\n\
</g></svg>\n";

/// A form, how its lines for operations begin, how many they are, and its end.
type Greatest = (ScheduleForm, &'static str, u64, &'static [u8]);

static GREATEST: [Greatest; 2] = [
    (ScheduleForm::Csv, "", 20_801, LAST_ROW),
    (ScheduleForm::Svg, "<rect ", 20_800, LAST_BAR),
];

/// Whether what is written has the lines and the end of a row.
fn has_lines(written: &[u8], row: &Greatest) -> bool {
    match str::from_utf8(written) {
        Ok(text) => count_lines(text, row.1) == row.2 && written.ends_with(row.3),
        Err(_) => false,
    }
}

/// Whether `schedule` of the greatest size writes the lines and the end of a row.
fn is_whole<R: Threads + Wait + Sync>(rt: &R, alloc: Global, row: &Greatest) -> bool {
    let Ok(text) = greatest_text(alloc) else {
        return false;
    };
    let Ok(start) = greatest_start(alloc) else {
        return false;
    };
    match scheduled(rt, alloc, (text.as_slice(), start.as_slice()), row.0) {
        Some(out) => has_lines(out.bytes(), row),
        None => false,
    }
}

#[test]
fn schedule_of_the_greatest_size(rt: HostRuntime) {
    for row in &GREATEST {
        assert!(rt; is_whole(&rt, rt.alloc(), row), "at the end {:?}", row.3);
    }
}
