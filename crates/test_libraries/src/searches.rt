//! The search for directions, on published and on drawn instances, and from nodes inside a tree.

use crate::drawn_searches::{SEARCHES, fields_of, names};
use flow_core::{Instance, generate};
use flow_directions::{Counted, Found, ProveFault, count, prove};
use sha2::{Digest, Sha256};
use std::test::Fail;

/// Jobs, machines and seed of a published instance, its least makespan, how many directions prove it, and how the
/// SHA-256 of the directions begins. The program in plain Rust, bench/plain.rs, found the same; and a program in
/// Python, written apart, where there are fewer than 10,000 directions and at most 50 jobs.
type Published = (u32, u32, u32, u64, u64, [u8; 8]);

static PUBLISHED: [Published; 13] = rows! {
    20, 5, 873_654_221, 1_278, 7, [0x02, 0xa9, 0x5d, 0xc3, 0x66, 0x0c, 0xb8, 0x3b];
    20, 5, 495_070_989, 1_235, 7_634, [0x24, 0xf0, 0x0b, 0x5c, 0xda, 0xab, 0x51, 0x2b];
    20, 5, 1_369_363_414, 1_234, 2, [0x65, 0x92, 0x72, 0x62, 0x71, 0xb3, 0xe6, 0xbc];
    20, 10, 587_595_453, 1_582, 116_565, [0xbc, 0xc0, 0x60, 0xb7, 0x9c, 0x20, 0xdf, 0x75];
    20, 10, 268_827_376, 1_377, 8_136, [0x91, 0xce, 0x94, 0xd6, 0x19, 0x08, 0x83, 0xdf];
    20, 10, 2_065_119_309, 1_593, 71, [0x4a, 0xe6, 0xa6, 0x3c, 0x4c, 0x90, 0xe8, 0xe0];
    20, 10, 1_672_900_551, 1_591, 198_674, [0x6e, 0x97, 0xbf, 0x64, 0x61, 0xa5, 0x28, 0x18];
    20, 20, 1_829_909_967, 2_178, 2_012_463, [0x40, 0x7e, 0x98, 0xc9, 0xa5, 0x08, 0x72, 0x48];
    50, 5, 1_328_042_058, 2_724, 1, [0x39, 0x73, 0xe0, 0x22, 0xe9, 0x32, 0x20, 0xf9];
    50, 10, 1_958_948_863, 2_991, 12_574, [0xcb, 0xb4, 0x1e, 0xf7, 0xc6, 0x69, 0x59, 0x55];
    50, 10, 655_816_003, 2_839, 636_142, [0x18, 0x64, 0x60, 0x89, 0x82, 0xe5, 0x61, 0x10];
    50, 10, 1_803_345_551, 3_006, 50, [0x78, 0x13, 0xf4, 0x64, 0xfd, 0xd4, 0x66, 0x58];
    500, 20, 1_368_624_604, 26_040, 2_226, [0x75, 0x00, 0x64, 0x5f, 0xe1, 0x97, 0x34, 0xec];
};

/// The search finds them with a budget of as many, and none with one less.
#[test]
fn published_instances_have_their_directions(rt: HostRuntime) -> Result<(), Fail> {
    for (jobs, machines, seed, number, length, digest) in &PUBLISHED {
        let instance = generate(rt.alloc(), *jobs, *machines, *seed)?;
        let Found::Proved(text) = prove(rt.alloc(), &instance, &[], &[], *number, *length)? else {
            return Err(Fail::from("no directions"));
        };
        assert_eq!(rt; text.len() as u64, *length, "seed {seed}");
        assert!(rt;
            Sha256::digest(text.as_slice()).starts_with(digest),
            "seed {seed}"
        );
        let over = prove(
            rt.alloc(),
            &instance,
            &[],
            &[],
            *number,
            length.saturating_sub(1),
        )?;
        assert!(rt; over == Found::Over, "seed {seed}");
        for (budget, wanted) in [
            (*length, Counted::Proved(*length)),
            (u64::MAX, Counted::Proved(*length)),
            (length.saturating_sub(1), Counted::Over),
        ] {
            let counted = count(rt.alloc(), &instance, &[], &[], *number, budget)?;
            assert_eq!(rt; counted, wanted, "seed {seed}, budget {budget}");
        }
    }
    Ok(())
}

/// Whether what was found is written so.
fn is_written(found: &Found, text: &str) -> bool {
    match found {
        Found::Proved(directions) => directions.as_slice() == text.as_bytes(),
        Found::Below { sequence, .. } => names(text, sequence),
        Found::Over => false,
    }
}

/// Whether what was counted is what was found, with the number of the directions in their place.
fn is_counted(counted: &Counted, found: &Found) -> bool {
    match (counted, found) {
        (Counted::Proved(count), Found::Proved(directions)) => *count == directions.len() as u64,
        (
            Counted::Below {
                sequence,
                makespan,
                directions,
            },
            Found::Below {
                sequence: jobs,
                makespan: value,
                directions: count,
            },
        ) => sequence.jobs() == jobs.jobs() && makespan == value && directions == count,
        (counted, found) => *counted == Counted::Over && *found == Found::Over,
    }
}

#[test]
fn drawn_instances_have_their_directions(rt: HostRuntime) -> Result<(), Fail> {
    let mut rows = 0u32;
    for line in SEARCHES.lines() {
        let ([jobs, machines, seed, first], texts) = fields_of(line).ok_or("no fields")?;
        let instance = generate(rt.alloc(), jobs, machines, seed)?;
        for (more, text) in texts.iter().enumerate() {
            let number = u64::from(first).saturating_add(more as u64);
            let found = prove(rt.alloc(), &instance, &[], &[], number, 1_000)?;
            assert!(rt; is_written(&found, text), "{line}: {number}");
            let counted = count(rt.alloc(), &instance, &[], &[], number, 1_000)?;
            assert!(rt; is_counted(&counted, &found), "{line}: {number}, counted");
            rows = rows.saturating_add(1);
        }
    }
    assert_eq!(rt; rows, 501);
    Ok(())
}

/// Jobs and machines of an instance, its times, machine by machine, the lists of a node, the number, and what is found.
type Node = (
    u32,
    u32,
    &'static [u32],
    &'static [u16],
    &'static [u16],
    u64,
    &'static str,
);

/// Three jobs on three machines, with the least makespan 12 by the sequence 3 1 2, and heads of 0, 0, 2 and tails of 3,
/// 0, 0.
const THREE: [u32; 9] = [4, 0, 0, 0, 8, 2, 4, 0, 1];

/// Four jobs on three machines. A node has a bound above 65,535, and as many children below the threshold at each end.
const FOUR: [u32; 12] = [
    10_000, 20_000, 2_000, 10_000, 2_000, 20_000, 10_000, 0, 5_000, 2_000, 2_000, 20_000,
];

/// What is found of the first was worked out by hand, and of the second by a program in Python.
static NODES: [Node; 16] = [
    (3, 3, &THREE, &[], &[], 0, ""),
    (3, 3, &THREE, &[], &[], 10, ""),
    (3, 3, &THREE, &[], &[], 11, "-"),
    (3, 3, &THREE, &[], &[], 12, "++"),
    (3, 3, &THREE, &[], &[], 13, "3 1 2"),
    (3, 3, &THREE, &[3], &[], 12, "+"),
    (3, 3, &THREE, &[3], &[2], 12, ""),
    (3, 3, &THREE, &[3], &[2], 13, "3 1 2"),
    (3, 3, &THREE, &[3, 1], &[2], 13, "3 1 2"),
    (3, 3, &THREE, &[], &[3, 1, 2], 13, "3 1 2"),
    (3, 3, &THREE, &[3, 1], &[2], 12, ""),
    (3, 3, &THREE, &[1], &[], 13, ""),
    (3, 3, &THREE, &[], &[], u64::MAX, "1 3 2"),
    (4, 3, &FOUR, &[], &[], 59_000, "---+--++"),
    (4, 3, &FOUR, &[], &[], 65_535, "1 3 4 2"),
    (4, 3, &FOUR, &[], &[], 65_536, "1 3 4 2"),
];

#[test]
fn nodes_have_their_directions(rt: HostRuntime) -> Result<(), Fail> {
    for (jobs, machines, times, first, last, number, text) in &NODES {
        let instance = Instance::new(rt.alloc(), *jobs, *machines, times)?;
        let found = prove(rt.alloc(), &instance, first, last, *number, 9)?;
        assert!(rt; is_written(&found, text), "{text} for {number}");
    }
    Ok(())
}

/// Lists that are no node of three jobs.
static LISTS: [(&[u16], &[u16]); 7] = [
    (&[0], &[]),
    (&[], &[0]),
    (&[4], &[]),
    (&[1, 4], &[]),
    (&[1, 1], &[]),
    (&[], &[2, 2]),
    (&[3], &[1, 3]),
];

#[test]
fn lists_that_are_no_node_are_refused(rt: HostRuntime) -> Result<(), Fail> {
    let instance = Instance::new(rt.alloc(), 3, 3, &THREE)?;
    for (first, last) in &LISTS {
        let refused = prove(rt.alloc(), &instance, first, last, 12, 9).err();
        assert_eq!(rt; refused, Some(ProveFault::Jobs), "{first:?} {last:?}");
    }
    Ok(())
}
