//! The search with a few directions at a time: what it writes, part for part, is what the whole search writes.

use crate::drawn_searches::{SEARCHES, fields_of, names};
use flow_core::{End, Instance, Sequence, generate};
use flow_directions::{Advanced, Part, Tallied, advance, tally};
use std::alloc::Global;
use std::test::Fail;

/// The directions that a search may write at a time.
const BUDGETS: [u64; 4] = [1, 2, 3, 7];

/// No search of these takes as many steps.
const MOST_STEPS: u32 = 100_000;

/// A search of an instance for a number, with a few directions at a time.
#[derive(Drop)]
struct Search<'a> {
    alloc: Global,
    instance: &'a Instance,
    number: u64,
    budget: u64,
    /// The directions so far.
    text: Vec<u8>,
    /// The parts that are left, the next one last.
    left: Vec<Part>,
}

/// How a search stands.
#[derive(Drop)]
enum Stand {
    /// Some parts are left, perhaps.
    More,
    /// None is left.
    Whole,
    /// It reached a sequence below the threshold.
    Reached(Sequence),
}

/// The child of a node that puts a job at an end.
fn child(alloc: Global, first: &[u16], last: &[u16], end: End, job: u16) -> Option<Part> {
    let mut first = Vec::from_slice(alloc, first).ok()?;
    let mut last = Vec::from_slice(alloc, last).ok()?;
    match end {
        End::Front => first.push(job).ok()?,
        End::Back => last.insert(0, job).ok()?,
    }
    Some(Part::Node { first, last })
}

/// Whether a search that counts came to what one came to that writes: as many directions, the same parts.
fn is_tallied(tallied: &Tallied, advanced: &Advanced) -> bool {
    match (tallied, advanced) {
        (Tallied::Proved(count), Advanced::Proved(directions)) => *count == directions.len() as u64,
        (
            Tallied::Below {
                sequence,
                makespan,
                directions,
            },
            Advanced::Below {
                sequence: jobs,
                makespan: value,
                directions: text,
            },
        ) => {
            sequence.jobs() == jobs.jobs() && makespan == value && *directions == text.len() as u64
        }
        (Tallied::Rest(left), Advanced::Rest { parts, .. }) => left == parts,
        _ => false,
    }
}

impl<'a> Search<'a> {
    /// Whether a search of a node that counts comes to what one comes to that writes.
    fn counts_alike(&self, first: &[u16], last: &[u16]) -> Option<bool> {
        let (alloc, instance, number) = (self.alloc, self.instance, self.number);
        let advanced = advance(alloc, instance, first, last, number, self.budget).ok()?;
        let tallied = tally(alloc, instance, first, last, number, self.budget).ok()?;
        Some(is_tallied(&tallied, &advanced))
    }

    /// Searches a node, where its directions are counted alike.
    fn search(&mut self, first: &[u16], last: &[u16]) -> Option<Stand> {
        if !self.counts_alike(first, last)? {
            return None;
        }
        match advance(
            self.alloc,
            self.instance,
            first,
            last,
            self.number,
            self.budget,
        )
        .ok()?
        {
            Advanced::Proved(more) => self.text.extend_from_slice(more.as_slice()).ok()?,
            Advanced::Below { sequence, .. } => return Some(Stand::Reached(sequence)),
            Advanced::Rest {
                directions,
                mut parts,
            } => {
                self.text.extend_from_slice(directions.as_slice()).ok()?;
                for _ in 0..parts.len() {
                    self.left.push(parts.pop()?).ok()?;
                }
            }
        }
        Some(Stand::More)
    }

    /// Searches the next part.
    fn step(&mut self) -> Option<Stand> {
        match self.left.pop() {
            None => Some(Stand::Whole),
            Some(Part::Node { first, last }) => self.search(first.as_slice(), last.as_slice()),
            Some(
                Part::Children {
                    first,
                    last,
                    end,
                    jobs,
                },
            ) => {
                for job in jobs.iter().rev() {
                    let child = child(self.alloc, first.as_slice(), last.as_slice(), end, *job)?;
                    self.left.push(child).ok()?;
                }
                Some(Stand::More)
            }
        }
    }
}

/// Whether a search comes to these directions, or to the sequence that a text names.
fn comes_to(mut search: Search, wanted: &str) -> Option<bool> {
    for _ in 0..MOST_STEPS {
        match search.step()? {
            Stand::More => {}
            Stand::Whole => return Some(search.text.as_slice() == wanted.as_bytes()),
            Stand::Reached(sequence) => return Some(names(wanted, &sequence)),
        }
    }
    None
}

/// Whether the search of an instance for a number, with so many directions at a time, writes this.
fn is_drawn(
    alloc: Global,
    instance: &Instance,
    number: u64,
    budget: u64,
    wanted: &str,
) -> Option<bool> {
    let mut left = Vec::new(alloc);
    left.push(Part::Node {
        first: Vec::new(alloc),
        last: Vec::new(alloc),
    })
    .ok()?;
    let search = Search {
        alloc,
        instance,
        number,
        budget,
        text: Vec::new(alloc),
        left,
    };
    comes_to(search, wanted)
}

#[test]
fn small_budgets_write_the_same(rt: HostRuntime) -> Result<(), Fail> {
    for line in SEARCHES.lines() {
        let ([jobs, machines, seed, first], texts) = fields_of(line).ok_or("no fields")?;
        let instance = generate(rt.alloc(), jobs, machines, seed)?;
        for (more, text) in texts.iter().enumerate() {
            let number = u64::from(first).saturating_add(more as u64);
            for budget in &BUDGETS {
                assert!(rt;
                    is_drawn(rt.alloc(), &instance, number, *budget, text) == Some(true),
                    "{line}: {number}, {budget} at a time"
                );
            }
        }
    }
    Ok(())
}
