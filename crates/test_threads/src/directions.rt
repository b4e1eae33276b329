//! The search for directions on several threads.

use flow_directions::{Counted, Counter, Found, Prover, count, prove};
use flow_generator::generate;
use flow_shop::Instance;
use flow_workers::{News, Unwatched, Watch, Workers, count_by, prove_by};
use sha2::{Digest, Sha256};
use std::alloc::Global;
use std::cell::Cell;
use std::test::Fail;
use std::thread::Threads;

/// Jobs, machines and seed of a published instance, its least makespan, how many directions prove it, and how the
/// SHA-256 of the directions begins. The program in plain Rust, bench/plain.rs, found the same.
type Published = (u32, u32, u32, u64, u64, [u8; 8]);

static PUBLISHED: [Published; 5] = rows! {
    20, 5, 873_654_221, 1_278, 7, [0x02, 0xa9, 0x5d, 0xc3, 0x66, 0x0c, 0xb8, 0x3b];
    20, 10, 587_595_453, 1_582, 116_565, [0xbc, 0xc0, 0x60, 0xb7, 0x9c, 0x20, 0xdf, 0x75];
    20, 10, 1_672_900_551, 1_591, 198_674, [0x6e, 0x97, 0xbf, 0x64, 0x61, 0xa5, 0x28, 0x18];
    50, 10, 655_816_003, 2_839, 636_142, [0x18, 0x64, 0x60, 0x89, 0x82, 0xe5, 0x61, 0x10];
    500, 20, 1_368_624_604, 26_040, 2_226, [0x75, 0x00, 0x64, 0x5f, 0xe1, 0x97, 0x34, 0xec];
};

/// How many workers there are.
const WORKERS: [usize; 6] = [0, 1, 2, 3, 4, 64];

/// Keeps how many directions it was told of last, whether they ever became fewer, the most by which they grew at once,
/// and how often it was told. Where its time is limited, it need not be told.
#[derive(Drop)]
struct Told {
    last: Cell<u64>,
    fell: Cell<bool>,
    longest: Cell<u64>,
    times: Cell<u64>,
    /// How often it was asked whether the time is over, and after how often it is.
    asked: Cell<u64>,
    most: u64,
}

impl Told {
    /// It was told nothing, and no time is over.
    fn nothing() -> Told {
        Told::until(u64::MAX)
    }

    /// It was told nothing, and the time is over once it was asked more often than so.
    fn until(most: u64) -> Told {
        Told {
            last: Cell::new(0),
            fell: Cell::new(false),
            longest: Cell::new(0),
            times: Cell::new(0),
            asked: Cell::new(0),
            most,
        }
    }
}

impl Watch for Told {
    fn begin(&self, _asked: bool, _seconds: Option<u32>) {}

    fn is_on(&self) -> bool {
        !self.is_limited()
    }

    fn tell(&self, _instance: &Instance, news: News) {
        if let News::Directions(directions) = news {
            if directions < self.last.get() {
                self.fell.set(true);
            }
            let more = directions.saturating_sub(self.last.get());
            self.longest.set(self.longest.get().max(more));
            self.last.set(directions);
            self.times.set(self.times.get().saturating_add(1));
        }
    }

    fn is_limited(&self) -> bool {
        self.most < u64::MAX
    }

    fn is_over(&self) -> bool {
        self.asked.set(self.asked.get().saturating_add(1));
        self.asked.get() > self.most
    }
}

/// Whether so many workers find these directions with a budget of as many, and below the next number what one thread
/// finds, and tell a watch of all directions. With a budget of one less, of half, or next to nothing, they find none.
fn is_published<R: Threads + Sync>(rt: &R, alloc: Global, row: &Published, workers: usize) -> bool {
    let (jobs, machines, seed, number, length, digest) = *row;
    let Ok(instance) = generate(alloc, jobs, machines, seed) else {
        return false;
    };
    let told = Told::nothing();
    let workers = Workers {
        rt,
        count: workers,
        watch: &told,
    };
    let Ok(Some(Found::Proved(text))) = workers.prove(alloc, &instance, number, length) else {
        return false;
    };
    let begins = Sha256::digest(text.as_slice()).starts_with(&digest);
    if told.fell.get() || told.last.get() != length {
        return false;
    }
    for budget in [0, 1, length / 2, length.saturating_sub(1)] {
        if prove_by(&workers, alloc, &instance, number, budget) != Ok(Some(Found::Over)) {
            return false;
        }
    }
    let next = number.saturating_add(1);
    let below = prove_by(&workers, alloc, &instance, next, length);
    let Ok(alone) = prove(alloc, &instance, &[], &[], next, length) else {
        return false;
    };
    if let Found::Below { directions, .. } = &alone {
        if told.last.get() != *directions {
            return false;
        }
    }
    begins && text.len() as u64 == length && below == Ok(Some(alone))
}

/// Whether so many workers count these directions, with a budget of as many and of any number, and below the next
/// number what one thread counts, and tell a watch of all directions. With a budget of one less, or of none, they are
/// over it. For a run they count the same, and, unwatched, they are over a budget of half of them.
fn is_counted<R: Threads + Sync>(rt: &R, alloc: Global, row: &Published, workers: usize) -> bool {
    let (jobs, machines, seed, number, length, _) = *row;
    let Ok(instance) = generate(alloc, jobs, machines, seed) else {
        return false;
    };
    let told = Told::nothing();
    let workers = Workers {
        rt,
        count: workers,
        watch: &told,
    };
    let counted = workers.count(alloc, &instance, number, length);
    if counted != Ok(Counted::Proved(length)) || told.fell.get() || told.last.get() != length {
        return false;
    }
    let unwatched = Workers {
        rt,
        count: workers.count,
        watch: &Unwatched,
    };
    let of_run = workers.count_directions(alloc, &instance, number, length);
    let of_half = unwatched.count_directions(alloc, &instance, number, length / 2);
    if of_run != Ok(Some(Counted::Proved(length))) || of_half != Ok(Some(Counted::Over)) {
        return false;
    }
    for (budget, wanted) in [
        (u64::MAX, Counted::Proved(length)),
        (length.saturating_sub(1), Counted::Over),
        (0, Counted::Over),
    ] {
        if count_by(&workers, alloc, &instance, number, budget) != Ok(wanted) {
            return false;
        }
    }
    let next = number.saturating_add(1);
    let below = count_by(&workers, alloc, &instance, next, length);
    match count(alloc, &instance, &[], &[], next, length) {
        Ok(alone) => below == Ok(alone),
        Err(_) => false,
    }
}

#[test]
fn workers_find_the_published_directions(rt: HostRuntime) {
    for row in &PUBLISHED {
        for workers in &WORKERS {
            assert!(rt;
                is_published(&rt, rt.alloc(), row, *workers),
                "seed {}, {workers} workers",
                row.2
            );
            assert!(rt;
                is_counted(&rt, rt.alloc(), row, *workers),
                "seed {}, counted by {workers} workers",
                row.2
            );
        }
    }
}

/// Workers, and how often at least and at most a watch is told of 116,565 directions of 20 jobs: before the first
/// 12,000, which one worker searches, behind them, and behind each round. A round has an eighth of the directions so
/// far, and at least 2,000 for each worker, or as many as there are so far where that is less. If each round added just
/// its size, there would be 19 rounds by one worker, 12 by four and 4 by sixty-four. A round may add up to 499 more for
/// each worker, which makes 17, 10 and 2; or fewer, where its nodes are used up or one before them is not known. If
/// rounds did not grow, one worker would tell the watch at least 44 times. If the least of a round were that of one
/// worker, four and sixty-four would by the sizes alone tell it 21 times.
static ROUNDS: [(usize, u64, u64); 3] = [(1, 19, 43), (4, 12, 20), (64, 4, 20)];

/// How often a watch is told of the directions of the second published instance.
fn times_told<R: Threads + Sync>(rt: &R, alloc: Global, workers: usize) -> u64 {
    let (jobs, machines, seed, number, length, _) = PUBLISHED[1];
    let told = Told::nothing();
    let workers = Workers {
        rt,
        count: workers,
        watch: &told,
    };
    if let Ok(instance) = generate(alloc, jobs, machines, seed) {
        let _ = prove_by(&workers, alloc, &instance, number, length);
    }
    told.times.get()
}

#[test]
fn rounds_grow_with_the_directions(rt: HostRuntime) {
    for (workers, least, most) in &ROUNDS {
        let times = times_told(&rt, rt.alloc(), *workers);
        assert!(rt;
            *least <= times && times <= *most,
            "{workers} workers: told {times} times"
        );
    }
}

/// Workers, and how often a watch is asked whether the time is over before it is: after 0 rounds, 1 and 5.
static ENDS: [(usize, u64); 6] = [(1, 0), (1, 1), (1, 5), (4, 0), (4, 1), (4, 5)];

/// A search ends with nothing where its time is over, and asks no more then; also by one worker, and where it counts.
#[test]
fn a_search_ends_where_its_time_is_over(rt: HostRuntime) -> Result<(), Fail> {
    let (jobs, machines, seed, number, length, _) = PUBLISHED[1];
    let instance = generate(rt.alloc(), jobs, machines, seed)?;
    for (count, most) in &ENDS {
        let (told, told_of_count) = (Told::until(*most), Told::until(*most));
        let (rt, count) = (&rt, *count);
        let workers = Workers {
            rt,
            count,
            watch: &told,
        };
        let found = workers.prove(rt.alloc(), &instance, number, length)?;
        assert_eq!(rt; found, None, "{count} workers, {most}");
        let counting = Workers {
            rt,
            count,
            watch: &told_of_count,
        };
        let counted = counting.count_directions(rt.alloc(), &instance, number, length)?;
        assert_eq!(rt; counted, None, "{count} workers, {most}");
        for told in [&told, &told_of_count] {
            assert_eq!(rt; told.asked.get(), most.saturating_add(1), "{count} workers");
            assert!(rt; told.last.get() < length, "{count} workers, {most}");
        }
    }
    Ok(())
}

/// Jobs, machines and seed of a published instance, a threshold, and directions that do not prove it.
const MANY_JOBS: (u32, u32, u32, u64, u64) = (200, 20, 2_013_025_619, 11_564, 700_000);

/// A round of one worker has here at most 375,000,000 / (26 * 200 + 450) directions, which are 66,371, and up to 499
/// more. An eighth of those so far would be more than 70,000 behind 560,000.
#[test]
fn rounds_of_many_jobs_are_short(rt: HostRuntime) -> Result<(), Fail> {
    let (jobs, machines, seed, number, budget) = MANY_JOBS;
    let instance = generate(rt.alloc(), jobs, machines, seed)?;
    let told = Told::nothing();
    let workers = Workers {
        rt: &rt,
        count: 1,
        watch: &told,
    };
    let found = workers.prove(rt.alloc(), &instance, number, budget)?;
    assert_eq!(rt; found, Some(Found::Over));
    assert!(rt; told.longest.get() <= 70_000, "{}", told.longest.get());
    Ok(())
}
