//! Texts that differ in a byte or two from one with two blocks, beside a plain reading of each.

use crate::changes::{Change, close_texts};
use crate::parts::{are_digits, number_of, parts};
use flow_core::{Block, TextFault, read_blocks};
use std::alloc::{AllocError, Global};
use std::test::Fail;

/// Two blocks, whose numbers are spread over lines. The seed is the greatest number, and one time is near the limit.
const TWO_BLOCKS: &[u8] = b"a\n2 1 4294967295\t9\n8\r\n\nb c\n899999 06\n d\n1 2 0 10 3\ne\n3\n4\n";

/// What the next line that is not blank should bring.
#[derive(Clone, Copy, PartialEq, Drop)]
enum Wanted {
    HeadLabel,
    Head,
    TimesLabel,
    Times,
}

/// Whether these are times of jobs: each is within the limit.
fn are_times(numbers: &[u32]) -> bool {
    for number in numbers {
        if *number > 999_999 {
            return false;
        }
    }
    true
}

/// A reading of the first lines of a text.
#[derive(Drop)]
struct Reading {
    wanted: Wanted,
    /// How many numbers the group still lacks.
    missing: usize,
    /// The numbers so far, of heads and times.
    numbers: Vec<u32>,
}

impl Reading {
    /// The fault of a line that does not bring what is wanted.
    fn fault(&self, line: usize) -> TextFault {
        match self.wanted {
            Wanted::HeadLabel | Wanted::TimesLabel => TextFault::Label(line),
            Wanted::Head => TextFault::Head(line),
            Wanted::Times => TextFault::Times(line),
        }
    }

    fn read_label(&mut self, line: usize) -> Result<(), TextFault> {
        match self.wanted {
            Wanted::HeadLabel => {
                self.wanted = Wanted::Head;
                self.missing = 5;
            }
            Wanted::TimesLabel => {
                self.wanted = Wanted::Times;
                self.missing = self.size();
            }
            _ => return Err(self.fault(line)),
        }
        Ok(())
    }

    fn read_numbers(&mut self, numbers: &[u32], line: usize) -> Result<(), TextFault> {
        if numbers.len() > self.missing {
            return Err(self.fault(line));
        }
        if self.wanted == Wanted::Times && !are_times(numbers) {
            return Err(TextFault::Limits(line));
        }
        if self.numbers.extend_from_slice(numbers).is_err() {
            return Err(TextFault::Memory);
        }
        self.missing -= numbers.len();
        if self.missing > 0 {
            return Ok(());
        }
        if self.wanted == Wanted::Times {
            self.wanted = Wanted::HeadLabel;
            return Ok(());
        }
        self.wanted = Wanted::TimesLabel;
        if self.size() == 0 {
            return Err(TextFault::Limits(line));
        }
        Ok(())
    }

    /// How many times follow a head, whose numbers were the last; 0 where its sizes are outside the limits.
    fn size(&self) -> usize {
        match self.numbers.as_slice() {
            [.., jobs, machines, _, _, _] if *jobs <= 800 && *machines <= 26 => {
                (*jobs as usize).saturating_mul(*machines as usize)
            }
            _ => 0,
        }
    }
}

/// What stands between the blanks of a line.
fn words_of(alloc: Global, line: &[u8]) -> Result<Vec<&[u8]>, AllocError> {
    let mut words = Vec::new(alloc);
    for word in &parts(alloc, line, b" \t\r")? {
        if !word.is_empty() {
            words.push(*word)?;
        }
    }
    Ok(words)
}

/// Puts the number that a word of digits is behind others.
fn put_number(numbers: &mut Vec<u32>, word: &[u8], line: usize) -> Result<(), TextFault> {
    let Some(number) = number_of(word) else {
        return Err(TextFault::Number(line));
    };
    let Ok(number) = u32::try_from(number) else {
        return Err(TextFault::Number(line));
    };
    match numbers.push(number) {
        Ok(()) => Ok(()),
        Err(_) => Err(TextFault::Memory),
    }
}

/// The numbers that these words are.
fn numbers_of(alloc: Global, words: &[&[u8]], line: usize) -> Result<Vec<u32>, TextFault> {
    for word in words {
        if !are_digits(word) {
            return Err(TextFault::Byte(line));
        }
    }
    let mut numbers = Vec::new(alloc);
    for word in words {
        put_number(&mut numbers, word, line)?;
    }
    Ok(numbers)
}

/// Reads a line.
fn read_line(
    alloc: Global,
    reading: &mut Reading,
    bytes: &[u8],
    line: usize,
) -> Result<(), TextFault> {
    let Ok(words) = words_of(alloc, bytes) else {
        return Err(TextFault::Memory);
    };
    match words.first() {
        None => Ok(()),
        Some([b'0'..=b'9', ..]) => {
            if reading.wanted == Wanted::HeadLabel || reading.wanted == Wanted::TimesLabel {
                return Err(reading.fault(line));
            }
            let numbers = numbers_of(alloc, words.as_slice(), line)?;
            reading.read_numbers(numbers.as_slice(), line)
        }
        Some(_) => reading.read_label(line),
    }
}

/// Reads a text line by line.
fn plain_reading(alloc: Global, text: &[u8]) -> Result<Vec<u32>, TextFault> {
    let Ok(lines) = parts(alloc, text, b"\n") else {
        return Err(TextFault::Memory);
    };
    let mut reading = Reading {
        wanted: Wanted::HeadLabel,
        missing: 0,
        numbers: Vec::new(alloc),
    };
    for (number, line) in lines.iter().enumerate() {
        read_line(alloc, &mut reading, line, number.saturating_add(1))?;
    }
    let mut line = lines.len();
    // What stands behind the last LF is a line only where it has bytes.
    if !text.ends_with(b"\n") && !text.is_empty() {
        line = line.saturating_add(1);
    }
    match reading.wanted {
        Wanted::HeadLabel if reading.numbers.is_empty() => Err(TextFault::NoBlock),
        Wanted::HeadLabel => Ok(reading.numbers),
        _ => Err(reading.fault(line)),
    }
}

/// The numbers of blocks, of heads and times.
fn numbers_of_blocks(alloc: Global, blocks: &[Block]) -> Result<Vec<u32>, AllocError> {
    let mut numbers = Vec::new(alloc);
    for block in blocks {
        let instance = &block.instance;
        numbers.push(u32::from(instance.jobs()))?;
        numbers.push(u32::from(instance.machines()))?;
        numbers.extend_from_slice(&[block.seed, block.upper, block.lower])?;
        for machine in 1..instance.machines() + 1 {
            for job in 1..instance.jobs() + 1 {
                numbers.push(instance.time(job, machine))?;
            }
        }
    }
    Ok(numbers)
}

/// The numbers of the blocks that a text is read as, or its first fault.
fn answer_of(alloc: Global, text: &[u8]) -> Result<Result<Vec<u32>, TextFault>, AllocError> {
    match read_blocks(alloc, text) {
        Ok(blocks) => Ok(Ok(numbers_of_blocks(alloc, blocks.as_slice())?)),
        Err(fault) => Ok(Err(fault)),
    }
}

/// How many close texts are read, counted by another reading, a script over the words of `docs/formats.md`.
static READ: [(Change, usize); 4] = [
    (Change::Other, 2_259),
    (Change::Lost, 28),
    (Change::Doubled, 37),
    (Change::Swapped, 25),
];

#[test]
fn changed_texts_are_read_as_by_the_plain_reading(rt: HostRuntime) -> Result<(), Fail> {
    assert!(rt; answer_of(rt.alloc(), TWO_BLOCKS)?.is_ok());
    for (number, (change, count)) in READ.iter().enumerate() {
        let mut read: usize = 0;
        for text in &close_texts(rt.alloc(), *change, TWO_BLOCKS)? {
            let answer = answer_of(rt.alloc(), text.as_slice())?;
            let plain = plain_reading(rt.alloc(), text.as_slice());
            assert!(rt; answer == plain, "row {number}: {text:?}");
            read = read.saturating_add(usize::from(answer.is_ok()));
        }
        assert_eq!(rt; read, *count, "row {number}");
    }
    Ok(())
}
