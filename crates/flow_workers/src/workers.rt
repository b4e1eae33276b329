//! The whole search: rounds, in each of which the workers search the first pieces. Its directions are written, or
//! counted.

ghost use Rattle.std.specs.Prelude.{◌≡◌, ◌+◌, ◌≤◌, ◌^◌, true, false, None, [], length, IfOk, IfSome, IsNone};
ghost use denote.Param.Send.{IsSync};
ghost use Rattle.flow_shop.specs.Sequences.{IsSequence};
ghost use Rattle.flow_directions.specs.Search.{IsCounted, IsFound, Shows};
ghost use Rattle.flow_parts.specs.Meanings.{behind};
ghost use Rattle.flow_workers.specs.internal.Pieces.{IsSettled, pieces_met, reading_of};
ghost use Rattle.flow_workers.specs.internal.Found.{IsEnded, ReachedWithin, counted_of, found_of};

use crate::kept::Kept;
use crate::node::Sought;
use crate::pace::Pace;
use crate::piece::Piece;
use crate::round::search_round;
use crate::watch::Watch;
use flow_directions::{Alone, Counted, Counter, Found, News, Part, Prover};
use flow_shop::{Instance, Sequence, makespan};
use std::alloc::{AllocError, Global};
use std::collections::VecDeque;
use std::thread::Threads;

/// What a search came to.
#[derive(Drop)]
pub(crate) enum Ended<K> {
    /// No sequence is below the threshold: the directions that prove it.
    Proved(K),
    /// The first sequence below the threshold.
    Below {
        /// The sequence.
        sequence: Sequence,
        /// Its makespan.
        makespan: u64,
        /// How many directions come before it.
        directions: u64,
    },
    /// There are more directions than the budget.
    Over,
}

/// Puts the directions of the first pieces, as far as they were searched, behind others. False where there would be 2
/// to the 64th or more.
fn settle<K: Kept>(text: &mut K, pieces: &mut VecDeque<Piece<K>>) -> Result<bool, AllocError>
    ensures met { (sought : _) → IfOk result (λ fits. fits ≡ true →
        behind (K.text text.new, None) (pieces_met (reading_of K.text K.mark sought) pieces.new.items)
        ≡ behind (K.text text.old, None) (pieces_met (reading_of K.text K.mark sought) pieces.old.items)) }
    ensures settled { IfOk result (λ fits. fits ≡ true → IsSettled pieces.new.items) }
    ensures many { (sought : _) → IfOk result (λ fits. fits ≡ false → 2 ^ 64 ≤ length
        (behind (K.text text.old, None) (pieces_met (reading_of K.text K.mark sought) pieces.old.items)).0) }
{
    'pieces: while let Some(piece) = pieces.pop_front() {
        match piece {
            Piece::Done(more) => {
                if text.count().checked_add(more.count()).is_none() {
                    return Ok(false);
                }
                text.join(more)?;
            }
            _ => {
                pieces.push_front(piece)?;
                break;
            }
        }
    }
    Ok(true)
}

/// A sequence that was reached after so many directions, and more of them. The watch is told of them.
fn reached<K: Kept, R: Threads + Sync, W: Watch>(
    workers: &Workers<R, W>,
    instance: &Instance,
    written: u64,
    more: &K,
    sequence: Sequence,
    budget: u64,
) -> Ended<K>
    requires { IsSequence instance.now.jobs sequence }
    ensures { ReachedWithin instance.now budget sequence (written + length (K.text more.now)) result }
{
    let Some(directions) = written.checked_add(more.count()) else {
        return Ended::Over;
    };
    workers.watch.tell(instance, News::Directions(directions));
    if directions > budget {
        return Ended::Over;
    }
    let makespan = makespan(instance, &sequence);
    Ended::Below {
        sequence,
        makespan,
        directions,
    }
}

/// Searches for directions with so many workers on threads, by rounds. The watch is told of them after each round.
/// Where the search may be given up, the watch is asked before each round, and none is returned where the time was
/// over.
fn search_by<K: Kept, R: Threads + Sync, W: Watch>(
    workers: &Workers<R, W>,
    sought: &Sought,
    budget: u64,
    gives_up: bool,
) -> Result<Option<Ended<K>>, AllocError>
    ensures ended { IfOk result (λ ended. IfSome ended (IsEnded (reading_of K.text K.mark sought.now) budget)) }
    ensures none { IfOk result (λ ended. IsNone ended → gives_up ≡ true) }
{
    let mut text = K::none(sought.alloc);
    let mut pieces = VecDeque::new(sought.alloc);
    pieces.push_back(Piece::Left(Part::Node {
        first: Vec::new(sought.alloc),
        last: Vec::new(sought.alloc),
    }))?;
    'rounds: for _ in 0..u64::MAX {
        if !settle(&mut text, &mut pieces)? {
            return Ok(Some(Ended::Over));
        }
        let written = text.count();
        workers
            .watch
            .tell(sought.instance, News::Directions(written));
        if written > budget {
            return Ok(Some(Ended::Over));
        }
        match pieces.pop_front() {
            None => return Ok(Some(Ended::Proved(text))),
            Some(
                Piece::Reached {
                    sequence,
                    directions,
                },
            ) => {
                let ended = reached(
                    workers,
                    sought.instance,
                    written,
                    &directions,
                    sequence,
                    budget,
                );
                return Ok(Some(ended));
            }
            Some(piece) => pieces.push_front(piece)?,
        }
        if gives_up && workers.watch.is_over() {
            return Ok(None);
        }
        let pace = Pace::new(
            workers.count,
            sought.instance.jobs(),
            pieces.len(),
            written,
            budget,
        );
        search_round(workers.rt, sought, &mut pieces, pace)?;
    }
    Err(AllocError)
}

/// What is found, where the signs are kept.
fn found_of(ended: Ended<Vec<u8>>) -> Found
    ensures { result ≡ found_of ended }
{
    match ended {
        Ended::Proved(text) => Found::Proved(text),
        Ended::Below {
            sequence,
            makespan,
            directions,
        } => Found::Below {
            sequence,
            makespan,
            directions,
        },
        Ended::Over => Found::Over,
    }
}

/// What is counted, where the number of directions is kept.
fn counted_of(ended: Ended<u64>) -> Counted
    ensures { result ≡ counted_of ended }
{
    match ended {
        Ended::Proved(count) => Counted::Proved(count),
        Ended::Below {
            sequence,
            makespan,
            directions,
        } => Counted::Below {
            sequence,
            makespan,
            directions,
        },
        Ended::Over => Counted::Over,
    }
}

/// Searches an instance for directions that prove that no sequence has a makespan below a threshold, with so many
/// workers on threads. What is found is what `prove` finds of the node of two empty lists: it is the same for any
/// number of workers, however they take turns. Returns none where the time was over before it was found, by the watch,
/// which is asked before each round, and told of the directions after each.
pub fn prove_by<R: Threads + Sync, W: Watch>(
    workers: &Workers<R, W>,
    alloc: Global,
    instance: &Instance,
    threshold: u64,
    budget: u64,
) -> Result<Option<Found>, AllocError>
    ensures found { IfOk result (λ found. IfSome found (λ found. IsFound instance.now threshold budget [] [] found)) }
    ensures shown { IfOk result (λ found. IfSome found (λ found. Shows instance.now threshold [] [] found)) }
{
    let sought = Sought {
        alloc,
        instance,
        threshold,
    };
    match search_by::<Vec<u8>, R, W>(workers, &sought, budget, true)? {
        None => Ok(None),
        Some(ended) => Ok(Some(found_of(ended))),
    }
}

/// Counts directions with so many workers on threads. Where the search may be given up, none is returned where the time
/// was over before anything was found.
fn counted<R: Threads + Sync, W: Watch>(
    workers: &Workers<R, W>,
    sought: &Sought,
    budget: u64,
    gives_up: bool,
) -> Result<Option<Counted>, AllocError>
    ensures counted { IfOk result (λ found. IfSome found (λ found.
        IsCounted sought.now.instance.now sought.now.threshold budget [] [] found)) }
    ensures none { IfOk result (λ found. IsNone found → gives_up ≡ true) }
{
    match search_by::<u64, R, W>(workers, sought, budget, gives_up)? {
        None => Ok(None),
        Some(ended) => Ok(Some(counted_of(ended))),
    }
}

/// Counts the directions that prove that no sequence of an instance has a makespan below a threshold, with so many
/// workers on threads. What is found is what `count` finds of the node of two empty lists: it is the same for any
/// number of workers, however they take turns. No signs are kept. It is never given up; the watch is told of the
/// directions after each round.
pub fn count_by<R: Threads + Sync, W: Watch>(
    workers: &Workers<R, W>,
    alloc: Global,
    instance: &Instance,
    threshold: u64,
    budget: u64,
) -> Result<Counted, AllocError>
    ensures { IfOk result (λ found. IsCounted instance.now threshold budget [] [] found) }
{
    let sought = Sought {
        alloc,
        instance,
        threshold,
    };
    match counted(workers, &sought, budget, false)? {
        None => unreachable!(),
        Some(found) => Ok(found),
    }
}

/// Searches on several threads.
#[derive(Clone, Copy)]
pub struct Workers<'a, R, W> {
    /// Where threads are started.
    pub rt: &'a R,
    /// How many workers there are. One searches on the calling thread.
    pub count: usize,
    /// What is told how far the search is, and says when its time is over.
    pub watch: &'a W,
}

impl<'a, R: Threads + Sync, W: Watch> Workers<'a, R, W> {
    /// Whether a run searches as one thread does: one worker, of whose directions nobody is told, and with no limit on
    /// its time.
    fn is_alone(&self) -> bool {
        self.count <= 1 && !self.watch.is_on() && !self.watch.is_limited()
    }
}

impl<'a, R: Threads + Sync, W: Watch> Prover for Workers<'a, R, W> {
    // Threads may share what starts them.
    ghost is_ready = { λ _. IsSync R.row };

    fn prove(
        &self,
        alloc: Global,
        instance: &Instance,
        threshold: u64,
        budget: u64,
    ) -> Result<Option<Found>, AllocError> {
        if self.is_alone() {
            return Alone.prove(alloc, instance, threshold, budget);
        }
        prove_by(self, alloc, instance, threshold, budget)
    }

    fn count_directions(
        &self,
        alloc: Global,
        instance: &Instance,
        threshold: u64,
        budget: u64,
    ) -> Result<Option<Counted>, AllocError> {
        if self.is_alone() {
            return Alone.count_directions(alloc, instance, threshold, budget);
        }
        let sought = Sought {
            alloc,
            instance,
            threshold,
        };
        counted(self, &sought, budget, true)
    }

    fn tell(&self, instance: &Instance, news: News) {
        self.watch.tell(instance, news);
    }

    fn is_limited(&self) -> bool {
        self.watch.is_limited()
    }

    fn is_over(&self) -> bool {
        self.watch.is_over()
    }
}

impl<'a, R: Threads + Sync, W: Watch> Counter for Workers<'a, R, W> {
    // Threads may share what starts them.
    ghost is_ready = { λ _. IsSync R.row };

    fn count(
        &self,
        alloc: Global,
        instance: &Instance,
        threshold: u64,
        budget: u64,
    ) -> Result<Counted, AllocError> {
        if self.count <= 1 && !self.watch.is_on() {
            return Alone.count(alloc, instance, threshold, budget);
        }
        count_by(self, alloc, instance, threshold, budget)
    }
}
