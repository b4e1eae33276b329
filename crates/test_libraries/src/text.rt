//! Benchmark text: what is read, the first fault, and what is written.

use crate::changes::replaced;
use crate::instances::{GENERATED_TEXT, TWO_MACHINES_TEXT};
use crate::shops::{Shop, made};
use flow_core::{Block, PickFault, TextFault, block_text, pick_block, read_blocks};
use std::alloc::Global;
use std::test::Fail;

/// A block of a table: its seed, upper bound and lower bound, and its instance.
type Listed = ((u32, u32, u32), Shop);

/// The block of a table.
fn block_of(alloc: Global, listed: &Listed) -> Result<Block, Fail> {
    let ((seed, upper, lower), shop) = *listed;
    let instance = made(alloc, shop)?;
    Ok(Block {
        seed,
        upper,
        lower,
        instance,
    })
}

/// Whether a text is read as these blocks.
fn is_read_as(alloc: Global, text: &[u8], listed: &[Listed]) -> Result<bool, Fail> {
    let blocks = read_blocks(alloc, text)?;
    let mut is_same = blocks.len() == listed.len();
    for (block, listed) in blocks.iter().zip(listed) {
        is_same = *block == block_of(alloc, listed)? && is_same;
    }
    Ok(is_same)
}

/// The texts of these blocks, one behind another.
fn text_of(alloc: Global, blocks: &[Listed]) -> Result<Vec<u8>, Fail> {
    let mut text = Vec::new(alloc);
    for listed in blocks {
        let block = block_of(alloc, listed)?;
        text.append(&mut block_text(alloc, &block)?)?;
    }
    Ok(text)
}

/// One job on one machine, which takes 5.
const FIVE: Shop = Shop::Times(1, 1, &[5]);

/// Texts of one block.
static LENIENT: [(&[u8], Listed); 5] = rows! {
    b"number of jobs :\r\n  3\t2 7 9\r\n9\r\n\r\nprocessing times :\r\n3 1\r\n2 2\r\n4 2\r\n", ((7, 9, 9), Shop::Two);
    // Leading zeros and a missing line end.
    b"a\n1 1 1 1 1\nb\n05", ((1, 1, 1), FIVE);
    b"a\n1 1 1 1 1\nb\n100000\n", ((1, 1, 1), Shop::Times(1, 1, &[100_000]));
    b"a\n1 1 4294967295 4294967295 4294967295\nb\n5\n", ((u32::MAX, u32::MAX, u32::MAX), FIVE);
    // The text with two machines without its last line end.
    b"number of jobs, number of machines, initial seed, upper bound and lower bound :\n\
        3 2 0 0 0\nprocessing times :\n3 1 2\n2 4 2", ((0, 0, 0), Shop::Two);
};

#[test]
fn lenient_texts_are_read(rt: HostRuntime) -> Result<(), Fail> {
    for (number, (text, block)) in LENIENT.iter().enumerate() {
        assert!(rt; is_read_as(rt.alloc(), text, &[*block])?, "row {number}");
    }
    Ok(())
}

/// Texts, and the first fault of each.
static FIRST_FAULTS: [(&[u8], TextFault); 15] = rows! {
    b"", TextFault::NoBlock;
    b"3 2 0 0 0\n", TextFault::Label(1);
    b"a\n3 2 7 9 9 9\n", TextFault::Head(2);
    b"a\n3 2 7 9 9\n9\n", TextFault::Label(3);
    b"a\n3 x 7\n", TextFault::Byte(2);
    b"a\n4294967296\n", TextFault::Number(2);
    b"a\n4294967296 x\n", TextFault::Byte(2);
    b"a\n4294967295 4294967295 1 1 1\n", TextFault::Limits(2);
    b"a\n501 1 1 1 1\n", TextFault::Label(3);
    b"a\n801 1 1 1 1\n", TextFault::Limits(2);
    b"a\n1 27 1 1 1\n", TextFault::Limits(2);
    b"a\n1 1 1 1 1\nb\n1000000\n", TextFault::Limits(4);
    b"a\n1 1 1 1 1\nb\n5 6\n", TextFault::Times(4);
    b"a\n1 1 1 1 1\nb\n5\nc\n", TextFault::Head(6);
    b"number of jobs :\r\n  3\t2 7 9\r\n9\r\n\r\nprocessing times :\r\n3 1\r\n2 2\r\n4\r\n", TextFault::Times(9);
};

#[test]
fn first_fault_of_a_text_is_named(rt: HostRuntime) {
    for (text, fault) in &FIRST_FAULTS {
        assert_eq!(rt;
            read_blocks(rt.alloc(), text).err(),
            Some(*fault),
            "{text:?}"
        );
    }
}

/// A number of 1,001 digits.
#[test]
fn number_of_a_thousand_digits_is_named(rt: HostRuntime) -> Result<(), Fail> {
    let zeros = b"0".repeat(rt.alloc(), 1_000)?;
    let text = replaced(rt.alloc(), b"a\n1", 3, 0, zeros.as_slice())?;
    assert_eq!(rt;
        read_blocks(rt.alloc(), text.as_slice()).err(),
        Some(TextFault::Number(2))
    );
    Ok(())
}

/// The block of `GENERATED_TEXT`.
static GENERATED: [Listed; 1] = [((1, 122, 122), Shop::Seed(2, 2, 1))];

/// Ten blocks with different seeds.
static TEN_SEEDS: [Listed; 10] = [
    ((1, 9, 8), Shop::Two),
    ((2, 9, 8), Shop::Two),
    ((3, 9, 8), Shop::Two),
    ((4, 9, 8), Shop::Two),
    ((5, 9, 8), Shop::Two),
    ((6, 9, 8), Shop::Two),
    ((7, 9, 8), Shop::Two),
    ((8, 9, 8), Shop::Two),
    ((9, 9, 8), Shop::Two),
    ((10, 9, 8), Shop::Two),
];

#[test]
fn blocks_are_written_in_one_form_and_read_again(rt: HostRuntime) -> Result<(), Fail> {
    let text = text_of(rt.alloc(), &GENERATED)?;
    assert_eq!(rt; text.as_slice(), GENERATED_TEXT);
    let text = text_of(rt.alloc(), &TEN_SEEDS)?;
    assert!(rt; is_read_as(rt.alloc(), text.as_slice(), &TEN_SEEDS)?);
    Ok(())
}

#[test]
fn repeated_text_is_read_as_so_many_blocks(rt: HostRuntime) -> Result<(), Fail> {
    let text = TWO_MACHINES_TEXT.repeat(rt.alloc(), 10)?;
    assert!(rt; is_read_as(rt.alloc(), text.as_slice(), &[((0, 0, 0), Shop::Two); 10])?);
    Ok(())
}

/// How many bytes of the text with two machines there are, from a first number up to another one, and their fault. Its
/// lines have 80, 10, 19, 6 and 6 bytes.
static BEGINNINGS: [(usize, usize, TextFault); 7] = [
    (0, 1, TextFault::NoBlock),
    (1, 81, TextFault::Head(2)),
    (81, 89, TextFault::Head(3)),
    (89, 91, TextFault::Label(3)),
    (91, 110, TextFault::Times(4)),
    (110, 116, TextFault::Times(5)),
    (116, 120, TextFault::Times(6)),
];

#[test]
fn prefixes_of_a_text_miss_the_rest(rt: HostRuntime) {
    for (from, to, fault) in &BEGINNINGS {
        for length in *from..*to {
            let text = TWO_MACHINES_TEXT.get(..length).unwrap_or(b"");
            assert_eq!(rt;
                read_blocks(rt.alloc(), text).err(),
                Some(*fault),
                "{length} bytes"
            );
        }
    }
}

/// Faults, and how they are printed.
static PRINTED: [(TextFault, &str); 8] = [
    (TextFault::Memory, "Memory"),
    (TextFault::NoBlock, "NoBlock"),
    (TextFault::Label(3), "Label 3"),
    (TextFault::Byte(2), "Byte 2"),
    (TextFault::Number(2), "Number 2"),
    (TextFault::Head(6), "Head 6"),
    (TextFault::Limits(4), "Limits 4"),
    (TextFault::Times(9), "Times 9"),
];

#[test]
fn text_faults_are_printed_with_their_line(rt: HostRuntime) -> Result<(), Fail> {
    for (fault, words) in &PRINTED {
        let text = format!(in rt.alloc(); "{fault}")?;
        assert_eq!(rt; text.as_str(), *words);
    }
    Ok(())
}

/// Two blocks, with the seeds 7 and 8.
const TWO_BLOCKS: &[u8] = b"a\n1 1 7 9 9\nb\n5\nc\n1 1 8 9 9\nd\n6\n";

/// A text and an index; and the seed of the block that it names, or why it names none, and how that is printed.
type Pick = (&'static [u8], u32, Result<u32, (PickFault, &'static str)>);

static PICKS: [Pick; 7] = rows! {
    TWO_BLOCKS, 0, Err((PickFault::Index(2), "Index 2"));
    TWO_BLOCKS, 1, Ok(7);
    TWO_BLOCKS, 2, Ok(8);
    TWO_BLOCKS, 3, Err((PickFault::Index(2), "Index 2"));
    TWO_BLOCKS, u32::MAX, Err((PickFault::Index(2), "Index 2"));
    b"", 0, Err((PickFault::Text(TextFault::NoBlock), "NoBlock"));
    b"a\n1 1 7\nb\n", 1, Err((PickFault::Text(TextFault::Head(3)), "Head 3"));
};

#[test]
fn an_index_picks_a_block(rt: HostRuntime) -> Result<(), Fail> {
    for (number, (text, index, wanted)) in PICKS.iter().enumerate() {
        match pick_block(rt.alloc(), text, *index) {
            Ok(pick) => {
                assert_eq!(rt;
                    (Ok(pick.block.seed), pick.count),
                    (*wanted, 2),
                    "row {number}"
                );
            }
            Err(fault) => {
                let line = format!(in rt.alloc(); "{fault}")?;
                assert_eq!(rt; Err((fault, line.as_str())), *wanted, "row {number}");
            }
        }
    }
    Ok(())
}
